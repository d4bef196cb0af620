//! Each call of a keeper fails once, and leaves what is kept.

use crate::campaign::{decide, enter, first_other};
use ledger_core::{
    Command, KeepFault, Keeper, MOST_COMMANDS, Mark, MemKeeper, Replies, Stop, obey_all,
};
use report_text::ReportFault;
use std::alloc::Global;

/// A run is entered, its pair decided, and its pairs are listed: eight calls of the keeper, numbered from 0. `find`,
/// `totals` and `enter` enter it, `totals`, `pair` and `decide` decide, `totals` and `next` list.
fn campaign(alloc: Global) -> Result<Vec<Command>, ReportFault> {
    let mut commands = Vec::new(alloc);
    commands.push(enter(alloc, 0)?)?;
    commands.push(decide(1, 0, Mark::Kept))?;
    commands.push(Command::List { run: 1 })?;
    Ok(commands)
}

/// What is asked afterwards, of both lists.
fn questions(alloc: Global) -> Result<Vec<Command>, ReportFault> {
    let mut commands = Vec::new(alloc);
    commands.push(Command::List { run: 1 })?;
    commands.push(Command::Clear { run: 1 })?;
    commands.push(Command::List { run: 2 })?;
    commands.push(enter(alloc, 0)?)?;
    Ok(commands)
}

/// The command at which the campaign stops where this call fails, and what is answered then.
#[derive(Clone, Copy)]
struct Row {
    call: u64,
    at: u32,
    words: [&'static str; 4],
}

const NOTHING: [&str; 4] = ["no run", "no run", "no run", "entered 1 pairs 1"];

const ENTERED: [&str; 4] = ["listed 1", "waiting 0", "no run", "known 1"];

const DECIDED: [&str; 4] = ["listed 0", "clear", "no run", "known 1"];

const ROWS: [Row; 8] = [
    Row {
        call: 0,
        at: 0,
        words: NOTHING,
    },
    Row {
        call: 1,
        at: 0,
        words: NOTHING,
    },
    Row {
        call: 2,
        at: 0,
        words: NOTHING,
    },
    Row {
        call: 3,
        at: 1,
        words: ENTERED,
    },
    Row {
        call: 4,
        at: 1,
        words: ENTERED,
    },
    Row {
        call: 5,
        at: 1,
        words: ENTERED,
    },
    Row {
        call: 6,
        at: 2,
        words: DECIDED,
    },
    Row {
        call: 7,
        at: 2,
        words: DECIDED,
    },
];

/// Where commands stop over a keeper, and their replies.
fn obey_over<K: Keeper>(
    alloc: Global,
    keeper: &mut K,
    commands: &[Command],
) -> (Result<(), Stop>, Replies) {
    let mut replies = Replies::of(Vec::new(alloc));
    if commands.len() >= MOST_COMMANDS {
        return (Ok(()), replies);
    }
    let done = obey_all(alloc, keeper, commands, &mut replies);
    (done, replies)
}

/// Whether the campaign stops as the row says, and the keeper keeps what it kept before the call.
fn is_as_said(alloc: Global, commands: &[Command], questions: &[Command], row: &Row) -> bool {
    let mut keeper = MemKeeper::new(alloc);
    if keeper.fail_at(row.call).is_err() {
        return false;
    }
    let (done, replies) = obey_over(alloc, &mut keeper, commands);
    let fault = KeepFault::Failed;
    if done != Err(Stop { at: row.at, fault }) || replies.items().len() != row.at as usize {
        return false;
    }
    let (later, answers) = obey_over(alloc, &mut keeper, questions);
    later == Ok(())
        && answers.items().len() == 4
        && first_other(answers.items(), &row.words).is_none()
        && keeper.faults() == 1
}

/// The number of the first row that is not as it says, if any.
fn first_wrong(alloc: Global, commands: &[Command], questions: &[Command]) -> Option<usize> {
    for at in 0..ROWS.len() {
        if !is_as_said(alloc, commands, questions, &ROWS[at]) {
            return Some(at);
        }
    }
    None
}

#[test]
fn each_call_fails_once(rt: HostRuntime) {
    let alloc = rt.alloc();
    let Ok(commands) = campaign(alloc) else {
        panic!(rt; "no commands");
    };
    let Ok(questions) = questions(alloc) else {
        panic!(rt; "no commands");
    };
    assert_eq!(rt;
        first_wrong(alloc, commands.as_slice(), questions.as_slice()),
        None
    );
}
