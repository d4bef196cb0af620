//! Laws of the pieces of a segment.

ghost use Rattle.tin_base.specs.Outcomes.{OutcomeExists};

/// A law: of each sound triangulation, a segment is inside and has its pieces, or some point of it is in no triangle.
pub fn outcome_exists()
    ensures { OutcomeExists }
{}
