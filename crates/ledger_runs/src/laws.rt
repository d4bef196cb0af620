//! What is true of the limits of a run.

ghost use Rattle.std.specs.Prelude.{◌≡◌, ◌^◌};
ghost use Rattle.ledger_runs.specs.declared.commands.TheConstants.{MOST_REPORTS, MOST_LAYER};
ghost use Rattle.ledger_runs.specs.declared.scripts.TheConstants.{MOST_BYTES};

/// Laws: the limits of a script, of all reports together and of a layer are these numbers of bytes.
pub fn limits_are_stated()
    ensures script { MOST_BYTES ≡ 2 ^ 20 }
    ensures reports { MOST_REPORTS ≡ 2 ^ 26 }
    ensures layer { MOST_LAYER ≡ 2 ^ 28 }
{}
