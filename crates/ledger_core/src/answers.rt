//! One command, obeyed over a keeper.

ghost use Rattle.std.specs.Prelude.{◌≡◌, ◌↔◌, ◌≤◌, ◌<◌, List, Some, IsTrue, IfOk, IfSome};
ghost use Rattle.ledger_core.specs.declared.commands.Command.{Command as Asked};
ghost use Rattle.ledger_core.specs.declared.commands.Command.TheVariants as commands;
ghost use Rattle.ledger_core.specs.Causes.{HasCause};
ghost use Rattle.ledger_core.specs.Kept.{Stays, verdict_at, open_pairs, AreInOrder};
ghost use Rattle.ledger_core.specs.Replies.{Answers, reply_of, kept_after, lacks_room, has_run, decision_on, after_decision};
ghost use Rattle.ledger_core.specs.Histories.{StandsFor, Obeys};

use crate::limits::{MOST_PAIRS, MOST_RUNS};
use crate::{Command, KeepFault, Keeper, Mark, PairRow, Reply, Seal, Totals, Verdict};
use report_text::Report;
use sheet_base::Listed;
use std::alloc::Global;

// Whether there is no room for one more run with this many pairs.
fn has_no_room(totals: Totals, more: usize) -> bool
    ensures { result ≡ lacks_room totals.runs totals.pairs more }
{
    totals.runs >= MOST_RUNS
        || totals.pairs > MOST_PAIRS
        || more > (MOST_PAIRS - totals.pairs) as usize
}

// Whether there is a run of this number among this many.
fn is_among(run: u32, runs: u32) -> bool
    ensures { IsTrue result ↔ ((0 < run) × (run ≤ runs)) }
{
    0 < run && run <= runs
}

// Whether the keeper has this run.
fn has_run<K: Keeper>(alloc: Global, keeper: &mut K, run: u32) -> Result<bool, KeepFault>
    ensures found { IfSome (K.kept keeper.old) (λ all. IfOk result (λ found. found ≡ has_run all run)) }
    ensures same { Stays (K.kept keeper.old) (K.kept keeper.new) }
    ensures cause { HasCause (K.faults keeper.old) (K.faults keeper.new) result }
{
    let totals = keeper.totals(alloc)?;
    Ok(is_among(run, totals.runs))
}

// Enters a run.
fn enter<K: Keeper>(
    alloc: Global,
    keeper: &mut K,
    seal: &Seal,
    report: &Report,
) -> Result<Reply, KeepFault>
    ensures told { IfSome (K.kept keeper.old) (λ all. Answers all (reply_of all (commands.Enter seal.now report.now))
        (kept_after all (commands.Enter seal.now report.now)) (K.kept keeper.new) result) }
    ensures cause { HasCause (K.faults keeper.old) (K.faults keeper.new) result }
{
    if let Some(run) = keeper.find(alloc, seal)? {
        return Ok(Reply::Known { run });
    }
    let changes = report.changes();
    let totals = keeper.totals(alloc)?;
    if has_no_room(totals, changes.len()) {
        return Ok(Reply::Full);
    }
    keeper.enter(alloc, seal, changes)?;
    Ok(Reply::Entered {
        run: totals.runs + 1,
        pairs: changes.len() as u32,
    })
}

// Notes a decision on a pair of this verdict, where nothing was decided before.
fn settle<K: Keeper>(
    alloc: Global,
    keeper: &mut K,
    run: u32,
    place: u32,
    verdict: Verdict,
    mark: Mark,
) -> Result<Reply, KeepFault>
    requires { IfSome (K.kept keeper.old) (λ all. verdict_at all.pairs run place ≡ Some verdict) }
    ensures told { IfSome (K.kept keeper.old) (λ all.
        Answers all (decision_on verdict) (after_decision run place verdict mark all) (K.kept keeper.new) result) }
    ensures cause { HasCause (K.faults keeper.old) (K.faults keeper.new) result }
{
    match verdict {
        Verdict::Undecided => {
            keeper.decide(alloc, run, place, mark)?;
            Ok(Reply::Decided)
        }
        Verdict::Kept | Verdict::Mended => Ok(Reply::Settled { verdict }),
    }
}

// Decides on a pair.
fn decide<K: Keeper>(
    alloc: Global,
    keeper: &mut K,
    run: u32,
    place: u32,
    mark: Mark,
) -> Result<Reply, KeepFault>
    ensures told { IfSome (K.kept keeper.old) (λ all. Answers all (reply_of all (commands.Decide run place mark))
        (kept_after all (commands.Decide run place mark)) (K.kept keeper.new) result) }
    ensures cause { HasCause (K.faults keeper.old) (K.faults keeper.new) result }
{
    if !has_run(alloc, keeper, run)? {
        return Ok(Reply::NoRun);
    }
    match keeper.pair(alloc, run, place)? {
        None => Ok(Reply::NoPair),
        Some(row) => settle(alloc, keeper, run, place, row.verdict, mark),
    }
}

// The undecided pairs of a run.
fn open_pairs<K: Keeper>(alloc: Global, keeper: &mut K, run: u32) -> Result<Vec<PairRow>, KeepFault>
    ensures told { IfSome (K.kept keeper.old) (λ all. AreInOrder all.pairs
        → IfOk result (λ rows. rows.items ≡ open_pairs all.pairs run 0)) }
    ensures same { Stays (K.kept keeper.old) (K.kept keeper.new) }
    ensures cause { HasCause (K.faults keeper.old) (K.faults keeper.new) result }
{
    let mut rows = Vec::new(alloc);
    let mut from = 0;
    while let Some(row) = keeper.next(alloc, run, from)? {
        rows.push(row)?;
        from = row.place + 1;
    }
    Ok(rows)
}

// Lists the undecided pairs of a run.
fn list<K: Keeper>(alloc: Global, keeper: &mut K, run: u32) -> Result<Reply, KeepFault>
    ensures told { IfSome (K.kept keeper.old) (λ all. AreInOrder all.pairs → Answers all (reply_of all (commands.List run))
        (kept_after all (commands.List run)) (K.kept keeper.new) result) }
    ensures cause { HasCause (K.faults keeper.old) (K.faults keeper.new) result }
{
    if !has_run(alloc, keeper, run)? {
        return Ok(Reply::NoRun);
    }
    let rows = open_pairs(alloc, keeper, run)?;
    Ok(Reply::Listed(Listed::of(rows)))
}

// Says whether every pair of a run is decided.
fn clear<K: Keeper>(alloc: Global, keeper: &mut K, run: u32) -> Result<Reply, KeepFault>
    ensures told { IfSome (K.kept keeper.old) (λ all. Answers all (reply_of all (commands.Clear run))
        (kept_after all (commands.Clear run)) (K.kept keeper.new) result) }
    ensures cause { HasCause (K.faults keeper.old) (K.faults keeper.new) result }
{
    if !has_run(alloc, keeper, run)? {
        return Ok(Reply::NoRun);
    }
    match keeper.next(alloc, run, 0)? {
        None => Ok(Reply::Cleared),
        Some(row) => Ok(Reply::Waiting { place: row.place }),
    }
}

// Answers a command over what the keeper keeps.
fn answer<K: Keeper>(alloc: Global, keeper: &mut K, command: &Command) -> Result<Reply, KeepFault>
    ensures told { IfSome (K.kept keeper.old) (λ all. AreInOrder all.pairs → Answers all (reply_of all command.now)
        (kept_after all command.now) (K.kept keeper.new) result) }
    ensures cause { HasCause (K.faults keeper.old) (K.faults keeper.new) result }
{
    match command {
        Command::Enter { seal, report } => enter(alloc, keeper, seal, report),
        Command::Decide { run, place, mark } => decide(alloc, keeper, *run, *place, *mark),
        Command::List { run } => list(alloc, keeper, *run),
        Command::Clear { run } => clear(alloc, keeper, *run),
    }
}

/// Obeys a command over a keeper.
pub fn obey<K: Keeper>(alloc: Global, keeper: &mut K, command: &Command) -> Result<Reply, KeepFault>
    // Where the keeper stands for a history, the answer is the reply after it, and the keeper then stands for the
    // history and the command where it was accepted. Where there is no answer it stands for the same history.
    ensures obeyed { (history : List Asked) → StandsFor (K.kept keeper.old) history → Obeys history command.now (K.kept keeper.new) result }

    // It fails only where the keeper's count rose; an answer and want of memory leave the count as it was.
    ensures cause { HasCause (K.faults keeper.old) (K.faults keeper.new) result }
{
    answer(alloc, keeper, command)
}
