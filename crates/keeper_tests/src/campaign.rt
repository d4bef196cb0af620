//! The commands of a campaign with one run, and their replies.

use ledger_core::{Command, Mark, Reply, Seal, Verdict};
use report_text::{ReportFault, read_report};
use std::alloc::Global;

/// The report of a line and a point that no longer touch.
const NINE: &[u8] =
    b"tinmove report 1\ntriangulation corners 4 triangles 2 inexact 0 name s.json\nlayer 0 paths 2 segments 2 pieces \
     3 inexact 0 dropped 0 name nine.wkt\nchanges 1\nchange 0/0/0/0 0/1/0/0 touching apart\nend\n";

/// What a reply says, in a word.
pub(crate) fn word_of(reply: &Reply) -> &'static str {
    match reply {
        Reply::Entered { run: 1, pairs: 1 } => "entered 1 pairs 1",
        Reply::Known { run: 1 } => "known 1",
        Reply::Decided => "decided",
        Reply::Settled {
            verdict: Verdict::Kept,
        } => "settled kept",
        Reply::NoRun => "no run",
        Reply::NoPair => "no pair",
        Reply::Listed(pairs) if pairs.items().is_empty() => "listed 0",
        Reply::Listed(pairs) if pairs.items().len() == 1 => "listed 1",
        Reply::Waiting { place: 0 } => "waiting 0",
        Reply::Cleared => "clear",
        _ => "another reply",
    }
}

fn seal(first: u8) -> Seal {
    let mut bytes = [0u8; 32];
    bytes[0] = first;
    Seal { bytes }
}

pub(crate) fn enter(alloc: Global, first: u8) -> Result<Command, ReportFault> {
    Ok(Command::Enter {
        seal: seal(first),
        report: read_report(alloc, NINE)?,
    })
}

pub(crate) fn decide(run: u32, place: u32, mark: Mark) -> Command {
    Command::Decide { run, place, mark }
}

/// The commands of a campaign with one run.
pub(crate) fn commands(alloc: Global) -> Result<Vec<Command>, ReportFault> {
    let mut commands = Vec::new(alloc);
    commands.push(enter(alloc, 0)?)?;
    commands.push(enter(alloc, 0)?)?;
    commands.push(Command::List { run: 1 })?;
    commands.push(Command::Clear { run: 1 })?;
    commands.push(decide(1, 0, Mark::Kept))?;
    commands.push(decide(1, 0, Mark::Mended))?;
    commands.push(decide(1, 1, Mark::Kept))?;
    commands.push(decide(2, 0, Mark::Kept))?;
    commands.push(Command::List { run: 1 })?;
    commands.push(Command::Clear { run: 1 })?;
    commands.push(Command::Clear { run: 2 })?;
    commands.push(Command::Clear { run: 0 })?;
    Ok(commands)
}

pub(crate) const WORDS: [&str; 12] = [
    "entered 1 pairs 1",
    "known 1",
    "listed 1",
    "waiting 0",
    "decided",
    "settled kept",
    "no pair",
    "no run",
    "listed 0",
    "clear",
    "no run",
    "no run",
];

/// The number of the first reply that says another thing than its word, if any.
pub(crate) fn first_other(replies: &[Reply], words: &[&str]) -> Option<usize> {
    for at in 0..replies.len() {
        if at >= words.len() || word_of(&replies[at]) != words[at] {
            return Some(at);
        }
    }
    None
}
