//! Laws of the list of all faults.

ghost use Rattle.tin_faults.specs.Laws.{FaultsAreOne, FaultsExist, NoneAreSound, FirstIsListed, ListsAreCounted};

/// A law: a triangulation has one list of all faults at most.
pub fn faults_are_one()
    ensures { FaultsAreOne }
{}

/// A law: a triangulation has a list of all faults. So with the law above it has just one.
pub fn faults_exist()
    ensures { FaultsExist }
{
    tin_check::outcome_exists();
}

/// A law: the list is empty exactly where the triangulation is sound.
pub fn none_are_sound()
    ensures { NoneAreSound }
{
    tin_check::outcome_exists();
}

/// A law: the first fault that `check_tin` names is in the list; that of a triangle that turns over is there for one of
/// the frames at least. The list begins with all triangles of the source, and `check_tin` goes by triangle and by pair,
/// so it may be another than the first of the list.
pub fn first_fault_is_listed()
    ensures { FirstIsListed }
{}

/// A law: a list of all faults has more than some number of entries exactly where the triangulation has more faults.
pub fn lists_are_counted()
    ensures { ListsAreCounted }
{}
