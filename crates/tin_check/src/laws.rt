//! Laws of the check: a triangulation is sound or has a first fault, one at most, and with a fault it is not sound.

ghost use Rattle.tin_check.specs.Faults.{FirstFaultIsOne, FaultsAreUnsound, OutcomeExists};

/// A law: a triangulation has one first fault at most.
pub fn first_fault_is_one()
    ensures { FirstFaultIsOne }
{}

/// A law: a triangulation that has a fault is not sound.
pub fn faults_are_unsound()
    ensures { FaultsAreUnsound }
{}

/// A law: each triangulation is sound or has a first fault, whatever its lists contain. With the two laws above the
/// check has just one outcome.
pub fn outcome_exists()
    ensures { OutcomeExists }
{}
