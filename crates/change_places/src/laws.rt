//! What is true of the text of changes on the map, and of the places in it.

ghost use Rattle.change_places.specs.Laws.{PlacesAreJson};
ghost use Rattle.change_places.specs.PathPlaces.{PlacesAreKnown};

/// A law: the text of changes is a JSON text (RFC 8259), and is read as the value of these changes and as no other. The
/// layers' names are text without control characters, and numbers fit their fields.
pub fn places_are_json()
    ensures { PlacesAreJson }
{}

/// A law: where each path of a sheet has an edit with which it begins, each place is known, and none is `null`.
pub fn places_are_known()
    ensures { PlacesAreKnown }
{}
