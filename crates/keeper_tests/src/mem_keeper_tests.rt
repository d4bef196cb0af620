//! Commands over a keeper in memory, and their replies.

use crate::campaign::{WORDS, commands, first_other, word_of};
use ledger_core::{Command, KeepFault, MemKeeper, Replies, Stop, obey, obey_all};

#[test]
fn a_campaign_of_one_run(rt: HostRuntime) {
    let alloc = rt.alloc();
    let Ok(commands) = commands(alloc) else {
        panic!(rt; "no commands");
    };
    let mut keeper = MemKeeper::new(alloc);
    let mut replies = Replies::of(Vec::new(alloc));
    assert!(rt; commands.len() < ledger_core::MOST_COMMANDS);
    let done = obey_all(alloc, &mut keeper, commands.as_slice(), &mut replies);
    assert_eq!(rt; done, Ok(()));
    assert_eq!(rt; replies.items().len(), 12);
    assert_eq!(rt; first_other(replies.items(), &WORDS), None);
    assert_eq!(rt; keeper.faults(), 0);
}

#[test]
fn a_keeper_that_fails(rt: HostRuntime) {
    let alloc = rt.alloc();
    let Ok(commands) = commands(alloc) else {
        panic!(rt; "no commands");
    };
    let mut keeper = MemKeeper::new(alloc);
    assert_eq!(rt; keeper.fail_at(0), Ok(()));
    assert_eq!(rt; keeper.fail_at(7), Ok(()));
    let mut replies = Replies::of(Vec::new(alloc));
    assert!(rt; commands.len() < ledger_core::MOST_COMMANDS);
    let fault = KeepFault::Failed;
    let first = obey_all(alloc, &mut keeper, commands.as_slice(), &mut replies);
    assert_eq!(rt; first, Err(Stop { at: 0, fault }));
    assert_eq!(rt; replies.items().len(), 0);

    // Calls 1 to 3 enter the run, 4 finds it, 5 counts, 6 lists its pair, and 7 fails.
    let second = obey_all(alloc, &mut keeper, commands.as_slice(), &mut replies);
    assert_eq!(rt; second, Err(Stop { at: 2, fault }));
    assert_eq!(rt; replies.items().len(), 2);
    assert_eq!(rt; keeper.faults(), 2);
    let Ok(reply) = obey(alloc, &mut keeper, &Command::Clear { run: 1 }) else {
        panic!(rt; "no reply");
    };
    assert_eq!(rt; word_of(&reply), "waiting 0");
}
