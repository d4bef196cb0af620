//! The pairs of a run that changed, and what was decided on them.

ghost use Rattle.std.specs.Prelude.{◌≡◌};
ghost use Rattle.ledger_core.specs.Kept.{verdict_of};

use tin_base::Change;

/// What distinguishes a run from every other one: a digest of all that it wrote.
#[derive(Clone, Copy, PartialEq, Eq, Hash, Debug)]
pub struct Seal {
    pub bytes: [u8; 32],
}

/// What was decided on a pair.
#[derive(Clone, Copy, PartialEq, Eq, Debug)]
pub enum Verdict {
    /// Nothing yet.
    Undecided,
    /// The change is kept as it is.
    Kept,
    /// The map was mended by hand.
    Mended,
}

/// A decision.
#[derive(Clone, Copy, PartialEq, Eq, Debug)]
pub enum Mark {
    /// The change is kept as it is.
    Kept,
    /// The map was mended by hand.
    Mended,
}

impl Mark {
    /// The verdict on a pair after this decision.
    pub fn verdict(self) -> Verdict
        ensures { result ≡ verdict_of self }
    {
        match self {
            Mark::Kept => Verdict::Kept,
            Mark::Mended => Verdict::Mended,
        }
    }
}

/// A pair of pieces whose relation changed: its run, numbered from 1, its place in the run's report, from 0, how the
/// relation changed, and what was decided.
#[derive(Clone, Copy, PartialEq, Eq, Debug)]
pub struct PairRow {
    pub run: u32,
    pub place: u32,
    pub change: Change,
    pub verdict: Verdict,
}

/// How many runs a ledger has, and how many pairs they have together.
#[derive(Clone, Copy, PartialEq, Eq, Debug)]
pub struct Totals {
    pub runs: u32,
    pub pairs: u32,
}
