//! Runs with their pairs in memory.

ghost use Rattle.std.specs.Prelude.{◌≡◌, ◌≤◌, ◌<◌, length, drop, slice_get, IfOk, IfSome, OnOk, OnErr, None};
ghost use Rattle.std.specs.Option.{option_copied};
ghost use Rattle.ledger_core.specs.declared.limits.TheConstants.{MOST_PAIRS};
ghost use Rattle.ledger_core.specs.Kept.{HasRoom, run_of, pair_at, next_open, with_new_run, with_decision, undecided_from};
ghost use Rattle.ledger_core.specs.Kept.{is_open, is_undecided};
ghost use Rattle.ledger_core.specs.MemoryRuns.{run_at, with_verdict_at, IsDecided};

use crate::{PairRow, Seal, Totals, Verdict};
use indexmap::IndexSet;
use std::alloc::{AllocError, Global};
use std::marker::Model;
use tin_base::Change;

/// The pairs of a run, in the order of their places.
#[derive(Drop)]
pub(crate) struct RunPairs {
    seal: Seal,
    rows: Vec<PairRow>,
}

/// Runs in the order of their numbers, with their seals in a table, and the number of all pairs.
#[derive(Drop)]
pub(crate) struct MemRuns {
    seals: IndexSet<Seal>,
    runs: Vec<RunPairs>,
    pairs: u32,
}

impl Model for MemRuns {
    ghost use Rattle.ledger_core.specs.Kept.{Kept};

    ghost Value = { Kept };

    ghost use Rattle.ledger_core.specs.MemoryRunsFields.{kept_of, IsSound};

    ghost view = { kept_of };

    ghost invariant = { IsSound };
}

impl MemRuns {
    ghost use Rattle.ledger_core.specs.MemoryKeeper.{nothing_kept};

    /// No runs. It takes no memory.
    pub fn new(alloc: Global) -> Self
        ensures { result ≡ nothing_kept }
    {
        MemRuns {
            seals: IndexSet::new(alloc),
            runs: Vec::new(alloc),
            pairs: 0,
        }
    }

    /// How many runs and pairs there are.
    pub fn totals(&self) -> Totals
        ensures runs { result.runs ≡ length self.now.runs }
        ensures pairs { result.pairs ≡ length self.now.pairs }
    {
        Totals {
            runs: self.runs.len() as u32,
            pairs: self.pairs,
        }
    }

    /// The number of the run with this seal.
    pub fn find(&self, seal: &Seal) -> Option<u32>
        ensures { result ≡ run_of self.now.runs seal.now }
    {
        match self.seals.get_index_of(seal) {
            Some(at) => Some(at as u32 + 1),
            None => None,
        }
    }

    /// The pair of this run and place.
    pub fn pair(&self, run: u32, place: u32) -> Option<PairRow>
        ensures { result ≡ pair_at self.now.pairs run place }
    {
        let found = run_at(&self.runs, run)?;
        row_at(found.rows.as_slice(), place as usize)
    }

    /// The first undecided pair of this run whose place is at least `from`.
    pub fn next(&self, run: u32, from: u32) -> Option<PairRow>
        ensures found { result ≡ next_open self.now.pairs run from }
        ensures within { IfSome result (λ row. (from ≤ row.place) × (row.place < MOST_PAIRS)) }
    {
        let found = run_at(&self.runs, run)?;
        find_open(rows_from(found.rows.as_slice(), from as usize), run, from)
    }

    /// Adds a run with this seal, whose pairs are undecided.
    pub fn enter(
        &mut self,
        alloc: Global,
        seal: &Seal,
        changes: &[Change],
    ) -> Result<(), AllocError>
        requires new { run_of self.old.runs seal.now ≡ None }
        requires room { HasRoom self.old changes.now }
        ensures ok { OnOk result (self.new ≡ with_new_run seal.now changes.now self.old) }
        ensures err { OnErr result (self.new ≡ self.old) }
    {
        let rows = undecided_rows(alloc, self.runs.len() as u32 + 1, changes)?;
        self.runs.reserve(1)?;
        self.seals.insert(*seal)?;
        let _ = self.runs.push(RunPairs { seal: *seal, rows });
        self.pairs += changes.len() as u32;
        Ok(())
    }

    /// Puts the verdict on the pair of this run and place.
    pub fn decide(&mut self, run: u32, place: u32, verdict: Verdict)
        ensures { self.new ≡ with_decision run place verdict self.old }
    {
        put_verdict(self.runs.as_mut_slice(), run, place, verdict);
    }
}

/// The run of this number, from 1.
fn run_at(runs: &[RunPairs], number: u32) -> Option<&RunPairs>
    ensures { option_copied result ≡ run_at runs.now number }
{
    runs.get((number as usize).checked_sub(1)?)
}

/// The pair at this place.
fn row_at(rows: &[PairRow], place: usize) -> Option<PairRow>
    ensures { result ≡ slice_get rows.now place }
{
    if place < rows.len() {
        Some(rows[place])
    } else {
        None
    }
}

/// The pairs from this place on.
fn rows_from(rows: &[PairRow], from: usize) -> &[PairRow]
    ensures { result.now ≡ drop from rows.now }
{
    &rows[from.min(rows.len())..]
}

/// The pairs of a new run.
fn undecided_rows(alloc: Global, run: u32, changes: &[Change]) -> Result<Vec<PairRow>, AllocError>
    requires { length changes.now ≤ MOST_PAIRS }
    ensures { IfOk result (λ rows. rows.items ≡ undecided_from run 0 changes.now) }
{
    let mut rows = Vec::with_capacity(alloc, changes.len())?;
    let mut place = 0;
    for change in changes {
        rows.push(PairRow {
            run,
            place,
            change: *change,
            verdict: Verdict::Undecided,
        })?;
        place += 1;
    }
    Ok(rows)
}

/// Whether this is an undecided pair of the run at the place or after it.
fn is_open(row: &PairRow, run: u32, from: u32) -> bool
    ensures { result ≡ is_open run from row.now }
{
    row.run == run && from <= row.place && is_undecided(row.verdict)
}

/// Whether nothing was decided.
fn is_undecided(verdict: Verdict) -> bool
    ensures { result ≡ is_undecided verdict }
{
    matches!(verdict, Verdict::Undecided)
}

/// The first undecided pair of this run at the place or after it.
fn find_open(pairs: &[PairRow], run: u32, from: u32) -> Option<PairRow>
    ensures { result ≡ next_open pairs.now run from }
{
    for row in pairs {
        if is_open(row, run, from) {
            return Some(*row);
        }
    }
    None
}

/// Puts the verdict on the pair of this run and place.
fn put_verdict(runs: &mut [RunPairs], number: u32, place: u32, verdict: Verdict)
    ensures { IsDecided number place verdict runs.old runs.new }
{
    if number == 0 {
        return;
    }
    let at = number as usize - 1;
    if at < runs.len() {
        put_verdict_in(&mut runs[at].rows, place as usize, verdict);
    }
}

/// Puts the verdict on the pair at this place.
fn put_verdict_in(rows: &mut Vec<PairRow>, place: usize, verdict: Verdict)
    ensures { rows.new.items ≡ with_verdict_at rows.old.items place verdict }
{
    if place < rows.len() {
        rows[place].verdict = verdict;
    }
}
