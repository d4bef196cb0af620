//! Laws of segments and of lists of changes, and the limits.
ghost use Rattle.std.specs.Prelude.{◌≡◌, ◌^◌};
ghost use Rattle.ring_side.specs.declared.rings.TheConstants.{MOST_POINTS, MOST_LAYERS};
ghost use Rattle.ring_side.specs.Laws.{PointsOfSegmentsAreMixes};
ghost use Rattle.ring_side.specs.ListedSides.{ListsAreAllSideChanges, EmptyListsKeepSides};

/// A law: a point is on a segment, so on the border of a ring that has it, exactly where it is a mix of the segment's
/// ends.
pub fn points_of_segments_are_mixes()
    ensures { PointsOfSegmentsAreMixes }
{}

/// A law: the list of changes of sides has each ring that has another direction as written than in the source, and each
/// point that is on another side of a ring, and no others.
pub fn lists_are_all_side_changes()
    ensures { ListsAreAllSideChanges }
{}

/// A law: where the list is empty each ring has its direction as written, and each point its side of each ring.
pub fn empty_lists_keep_sides()
    ensures { EmptyListsKeepSides }
{}

/// A law: this many points a ring has at most, and this many layers there are.
pub fn limits_are_stated()
    ensures points { MOST_POINTS ≡ 2 ^ 24 }
    ensures layers { MOST_LAYERS ≡ 1024 }
{}
