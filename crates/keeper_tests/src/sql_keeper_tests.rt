//! Commands over a database file, and a new keeper on the same file.

use crate::campaign::{WORDS, commands, first_other};
use ledger_core::{Command, KeepFault, Replies, Reply, obey_all};
use sql_keeper::SqlKeeper;
use sqlite::{Connection, Error, ErrorCode, File, FileStore};
use std::fs;

fn open(rt: &HostRuntime, path: &str) -> Result<Connection<FileStore<File>>, KeepFault> {
    match Connection::open(rt, path) {
        Ok(conn) => Ok(conn),
        Err(Error::SqliteFailure(ErrorCode::OutOfMemory)) => Err(KeepFault::NoMemory),
        Err(_) => Err(KeepFault::Failed),
    }
}

/// Obeys commands over the file, and lets its connection go.
fn obey_over(rt: &HostRuntime, path: &str, commands: &[Command], replies: &mut Replies) -> bool {
    if commands.len() >= ledger_core::MOST_COMMANDS {
        return false;
    }
    let mut keeper = SqlKeeper::new(open(rt, path));
    let done = obey_all(rt.alloc(), &mut keeper, commands, replies);
    match keeper.into_connection() {
        Ok(conn) => conn.close().is_ok() && done.is_ok(),
        Err(_) => false,
    }
}

#[test]
fn a_campaign_in_a_file(rt: HostRuntime) {
    let Ok(first) = commands(rt.alloc()) else {
        panic!(rt; "no commands");
    };
    let mut replies = Replies::of(Vec::new(rt.alloc()));
    assert!(rt; obey_over(&rt, "campaign.db", first.as_slice(), &mut replies));
    assert_eq!(rt; replies.items().len(), 12);
    assert_eq!(rt; first_other(replies.items(), &WORDS), None);

    let again = [
        Command::List { run: 1 },
        Command::Clear { run: 1 },
        Command::List { run: 2 },
    ];
    let mut later = Replies::of(Vec::new(rt.alloc()));
    assert!(rt; obey_over(&rt, "campaign.db", &again, &mut later));
    assert_eq!(rt;
        first_other(later.items(), &["listed 0", "clear", "no run"]),
        None
    );
    let _ = fs::remove_file(&rt, "campaign.db");
    let _ = fs::remove_file(&rt, "campaign.db-wal");
}
