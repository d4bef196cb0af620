//! The laws of changes and of relations, and the limit as a number.

ghost use Rattle.std.specs.Prelude.{◌≡◌, ◌^◌};
ghost use Rattle.topo_check.specs.declared.limits.TheConstants.{MOST_COMPARED};
ghost use Rattle.topo_check.specs.Laws.{ChangesAreOne, ChangesExist, MoreStayMore, ChangesAreByRounding};
ghost use Rattle.topo_check.specs.Laws.{RelationExists};

/// A law: two segments have a relation, wherever their ends are, with whole coordinates or not. With
/// `relations_are_exclusive` of meet_rel, which says that they have no second one, they have one relation.
pub fn relation_exists()
    ensures { RelationExists }
{}

/// A law: pieces have one list of changes.
pub fn changes_are_one()
    ensures { ChangesAreOne }
{}

/// A law: pieces have a list of changes, whatever `changes` has memory for. Where it is longer than what may be listed,
/// more pairs than that have changed. So with the law above and the one below each number of changes that may be listed
/// has one answer.
pub fn changes_exist()
    ensures { ChangesExist }
{}

/// A law: where `changes` finds too many, the one list of all changes is longer than what may be listed. So it finds a
/// list exactly where that list is not.
pub fn more_stay_more()
    ensures { MoreStayMore }
{}

/// A law: in a sound triangulation a list of changes is the same where the exact images of the pieces are in the
/// place of the pieces in the source frame. So each change is by the rounding of images alone, and none is by the
/// triangulation.
pub fn changes_are_by_rounding()
    ensures { ChangesAreByRounding }
{}

/// A law: this many pieces at most are compared in one call.
pub fn limits_are_stated()
    ensures compared { MOST_COMPARED ≡ 2 ^ 22 }
{}
