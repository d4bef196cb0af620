//! What the law of the text asks of names and changes: names are text, and numbers fit their fields.

ghost use Rattle.std.specs.Prelude.{IsUtf8, ℕ, ◌<◌, ◌^◌, List, length, map, Option, None, Some};
ghost use Rattle.std.specs.List.{AllByRecursion};
ghost use Rattle.std.specs.Option.{option_map};
ghost use Rattle.report_text.specs.Reports.{IsPrintable};
ghost use Rattle.change_places.specs.declared.spots.Style.{Style as StyleOf};
ghost use Rattle.change_places.specs.Words.{label_words, path_words, side_words, change_words, ring_words, ChangeText};
ghost use Rattle.change_places.specs.Laws.{IsAtHeld, IsLabelHeld, IsPathHeld, IsSideHeld, IsChangeHeld, AreChangesHeld};
ghost use Rattle.change_places.specs.Laws.{IsSideChangeHeld, IsRingHeld, IsRingCopied, IsPlacesJson};

use crate::properties::texts_of;
use crate::rings::{point_layer, ring_layer};
use crate::spots::{ChangeSpot, PathSpot, RingSpot, SideSpot};
use layer_features::Label;
use ring_side::SideChange;
use sheet_base::Listed;
use shelf_io::Name;

// A number that is there fits its field.
fn number_fits(at: u32)
    ensures { IsAtHeld (Some at) }
{
    let _ = at;
}

// A place in a layer's text fits its field.
fn at_fits(at: Option<u32>)
    ensures { IsAtHeld at }
{
    match at {
        Some(at) => number_fits(at),
        None => {}
    }
}

// The number of a feature fits its field.
fn label_fits(text: &[u8], label: Option<Label>)
    ensures { IsLabelHeld (option_map (label_words text.now) label) }
{
    let _ = text;
    match label {
        Some(Label::Number { number }) => number_fits(number),
        Some(Label::Handle { .. }) => {}
        None => {}
    }
}

// The numbers of a path's place fit their fields.
fn spot_fits(text: &[u8], spot: PathSpot)
    ensures { IsPathHeld (path_words text.now spot) }
{
    at_fits(spot.at);
    label_fits(text, spot.feature)
}

// The numbers of a side fit their fields.
fn side_fits(texts: &[Listed<u8>], side: SideSpot)
    ensures { IsSideHeld (side_words texts.now side) }
{
    spot_fits(texts_of(texts, side.from.layer), side.spot)
}

/// The numbers of a change fit their fields.
pub fn change_fits(texts: &[Listed<u8>], change: ChangeSpot)
    ensures { IsChangeHeld (change_words texts.now change) }
{
    side_fits(texts, change.first);
    side_fits(texts, change.second)
}

// The numbers of a change of sides fit their fields.
fn side_change_fits(change: SideChange)
    ensures { IsSideChangeHeld change }
{
    match change {
        SideChange::Turn { .. } => {}
        SideChange::Point { at, .. } => {
            let _ = at;
        }
    }
}

/// The numbers of a ring's change fit their fields.
pub(crate) fn ring_fits(texts: &[Listed<u8>], ring: RingSpot)
    ensures { IsRingHeld (ring_words texts.now ring) }
{
    side_change_fits(ring.change);
    spot_fits(texts_of(texts, ring_layer(ring.change)), ring.ring);
    spot_fits(texts_of(texts, point_layer(ring.change)), ring.point)
}

// The numbers of rings' changes fit their fields.
fn rings_fit(texts: &[Listed<u8>], rings: &[RingSpot])
    ensures { AllByRecursion (λ ring. IsRingHeld (ring_words texts.now ring)) rings.now }
{
    for ring in rings {
        ring_fits(texts, *ring);
    }
}

// Names are text.
fn names_are_text(names: &[Name])
    ensures { AllByRecursion IsUtf8 names.now }
{
    for name in names {
        let _ = name.bytes();
    }
}

/// The text of changes and of these changes of sides is JSON (RFC 8259), if the numbers of the changes fit their fields.
/// No name may have a control character, and what is copied from the texts that are kept of the layers is a value or a
/// handle.
pub fn changes_are_json(names: &[Name], texts: &[Listed<u8>], rings: &[RingSpot])
    ensures { (style : StyleOf) (changes : List ChangeText) → AllByRecursion IsPrintable names.now → AreChangesHeld changes
        → AllByRecursion IsRingCopied (map (ring_words texts.now) rings.now)
        → IsPlacesJson style names.now changes (map (ring_words texts.now) rings.now) }
{
    names_are_text(names);
    rings_fit(texts, rings);
}
