//! What is asked of a ledger, and what it answers.

use crate::{Mark, PairList, Seal, Verdict};
use report_text::Report;

/// What is asked of a ledger.
#[derive(Drop)]
pub enum Command {
    /// Enter a run, with the pairs that its report lists.
    Enter { seal: Seal, report: Report },
    /// Decide on a pair.
    Decide { run: u32, place: u32, mark: Mark },
    /// List the undecided pairs of a run.
    List { run: u32 },
    /// Say whether every pair of a run is decided.
    Clear { run: u32 },
}

/// What a ledger answers.
#[derive(Drop)]
pub enum Reply {
    /// The run was entered, with this number and this many pairs.
    Entered { run: u32, pairs: u32 },
    /// A run with this seal was entered before, with this number.
    Known { run: u32 },
    /// There is no room for the run.
    Full,
    /// The decision was noted.
    Decided,
    /// This was decided on the pair before, and stays.
    Settled { verdict: Verdict },
    /// There is no such run.
    NoRun,
    /// The run has no such pair.
    NoPair,
    /// The undecided pairs of the run, in order.
    Listed(PairList),
    /// The first undecided pair of the run has this place.
    Waiting { place: u32 },
    /// Every pair of the run is decided.
    Cleared,
}
