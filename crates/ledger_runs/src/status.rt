//! How a run of a ledger's script ends.

ghost use Rattle.std.specs.Prelude.{◌≡◌};
ghost use Rattle.ledger_runs.specs.Status.{code_of};

/// How a run ended.
#[derive(Clone, Copy, Debug, PartialEq, Eq)]
pub enum LedgerStatus {
    /// Every command was obeyed.
    Done,
    /// The words are not understood.
    Words,
    /// The script has a line of no form.
    Script,
    /// A file is not a report, or its report has another number of layers.
    Report,
    /// A file is missing or could not be read.
    Read,
    /// What was to be written could not be written.
    Write,
    /// Memory ran out.
    Memory,
    /// A count passes its limit.
    Limit,
    /// The keeper failed.
    Keeper,
}

impl LedgerStatus {
    /// The status with which the program ends.
    pub fn code(self) -> u8
        ensures { result ≡ code_of self }
    {
        match self {
            LedgerStatus::Done => 0,
            LedgerStatus::Words => 2,
            LedgerStatus::Script => 3,
            LedgerStatus::Report => 4,
            LedgerStatus::Read => 6,
            LedgerStatus::Write => 7,
            LedgerStatus::Memory => 8,
            LedgerStatus::Limit => 9,
            LedgerStatus::Keeper => 10,
        }
    }
}
