//! Laws of histories and of what is kept of them.

ghost use Rattle.ledger_core.specs.Laws.{ClearIsDecided, DecisionsStand, EnteredOnce, AcceptedAlone};

/// A run is clear exactly where it is there and no pair of it is undecided.
pub fn clear_is_decided()
    ensures { ClearIsDecided }
{}

/// What was decided on a pair stays, whatever comes later.
pub fn decisions_stand()
    ensures { DecisionsStand }
{}

/// A run whose seal was entered before is known, and changes nothing.
pub fn entered_once()
    ensures { EnteredOnce }
{}

/// What comes after commands is answered as after those of them that were accepted, without the others.
pub fn accepted_alone()
    ensures { AcceptedAlone }
{}
