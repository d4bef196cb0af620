//! `tinledger DB SCRIPT`: obeys a script over a database file of runs, changed pairs and decisions.
//! `run_to_end` of `ledger_runs` is the whole program, over the words, the shelf, the press and the keeper that it is
//! handed.
#![tactic(auto)]

mod help;
mod notes;

use help::{LedgerHelp, USAGE, help_of};
use ledger_core::KeepFault;
use ledger_runs::{LedgerStatus, run_to_end, script_of};
use notes::{say_end, say_unwritten};
use shelf_io::{FilePress, FileShelf};
use shown_text::put_shown;
use sql_keeper::SqlKeeper;
use sqlite::{Connection, Error, ErrorCode, File, FileStore};
use std::alloc::AllocError;
use std::process::ExitCode;
use std::{env, fs};

/// The words of the command line without the program's name. Words that are no text are none.
fn words_of(rt: &HostRuntime) -> Result<Vec<String>, AllocError> {
    let mut words = Vec::new(rt.alloc());
    let Ok(given) = env::args(rt) else {
        return Ok(words);
    };
    for word in given.skip(1) {
        words.push(word)?;
    }
    Ok(words)
}

/// Says that the database is new. A failure of this changes nothing.
fn say_new(rt: &HostRuntime, database: &str) {
    let mut name = String::new(rt.alloc());
    if put_shown(&mut name, database).is_ok() {
        let _ = eprintln!(rt; "tinledger: {name} is new");
    }
}

/// Says why the database could not be opened. A failure of this changes nothing.
fn say_unopened(rt: &HostRuntime, database: &str, error: &Error) {
    let mut name = String::new(rt.alloc());
    if put_shown(&mut name, database).is_ok() {
        let _ = eprintln!(rt; "tinledger: {name} was not opened: {error}");
    }
}

/// A connection to the database, which is made where it is missing. Standard error says that it is new, or why it could
/// not be opened.
fn open(rt: &HostRuntime, database: &str) -> Result<Connection<FileStore<File>>, KeepFault> {
    let is_new = fs::metadata(rt, database).is_err();
    match Connection::open(rt, database) {
        Ok(conn) => {
            if is_new {
                say_new(rt, database);
            }
            Ok(conn)
        }
        Err(Error::SqliteFailure(ErrorCode::OutOfMemory)) => Err(KeepFault::NoMemory),
        Err(error) => {
            say_unopened(rt, database, &error);
            Err(KeepFault::Failed)
        }
    }
}

/// A connection to the file that the first of two names is. Other words open nothing.
fn connect(rt: &HostRuntime, words: &[String]) -> Result<Connection<FileStore<File>>, KeepFault> {
    match words {
        [database, _] if script_of(words).is_ok() => open(rt, database.as_str()),
        _ => Err(KeepFault::Failed),
    }
}

/// Copies what was committed into the file itself. A failure of this loses nothing: it is in the log beside the file.
fn close(keeper: SqlKeeper<FileStore<File>>) {
    if let Ok(conn) = keeper.into_connection() {
        let _ = conn.close();
    }
}

/// Does what the words ask for over real files, a database and standard output.
fn run_on_files(rt: &HostRuntime, words: &[String]) -> LedgerStatus {
    let Ok(mut shelf) = FileShelf::new(rt, rt.alloc()) else {
        return LedgerStatus::Memory;
    };
    let Ok(mut press) = FilePress::new(rt, rt.alloc()) else {
        return LedgerStatus::Memory;
    };
    let mut keeper = SqlKeeper::new(connect(rt, words));
    let end = run_to_end(rt.alloc(), words, &mut shelf, &mut press, &mut keeper);
    close(keeper);
    match script_of(words) {
        Ok(script) => say_end(rt, script, end),
        Err(_) => {
            let _ = eprintln!(rt; "{USAGE}");
        }
    }
    end.status
}

/// Prints what the program says of itself.
fn print_help(rt: &HostRuntime, help: LedgerHelp) -> LedgerStatus {
    match rt.print(help.text()) {
        Ok(()) => LedgerStatus::Done,
        Err(_) => {
            say_unwritten(rt);
            LedgerStatus::Write
        }
    }
}

/// Answers the words of the command line.
fn answer(rt: &HostRuntime) -> LedgerStatus {
    let Ok(words) = words_of(rt) else {
        return LedgerStatus::Memory;
    };
    if let Some(help) = help_of(words.as_slice()) {
        return print_help(rt, help);
    }
    run_on_files(rt, words.as_slice())
}

fn main(rt: HostRuntime) -> ExitCode {
    ExitCode::from(answer(&rt).code())
}
