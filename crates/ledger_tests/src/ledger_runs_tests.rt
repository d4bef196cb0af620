//! Whole runs of a script over files and a keeper in memory: what each prints, its status, and what is kept afterwards.

use ledger_core::MemKeeper;
use ledger_runs::{LedgerStatus, run_ledger};
use shelf_io::{MemPress, MemShelf, Shelf};
use std::alloc::{AllocError, Global};

/// The report of a line and a point that no longer touch.
const NINE: &str = "tinmove report 1
triangulation corners 4 triangles 2 inexact 0 name s.json
layer 0 paths 2 segments 2 pieces 3 inexact 0 dropped 0 name nine.wkt
changes 1
change 0/0/0/0 0/1/0/0 touching apart
end
";

/// The layer that it wrote.
const LAYER: &str = "LINESTRING (110.000 100.000, 105.002 105.002, 100.000 110.000)
POINT (106.001 104.001)
";

const CAMPAIGN: &str = "enter r.txt nine.wkt
list 1
clear 1
decide 1 0 kept
clear 1
enter r.txt nine.wkt
list 2
";

const REPLIES: &str = "entered 1 pairs 1
listed 1
open 0 0/0/0/0 0/1/0/0 touching apart
waiting 0
decided
clear
known 1
no run
";

fn words_of(alloc: Global) -> Result<Vec<String>, AllocError> {
    let mut words = Vec::new(alloc);
    words.push(String::from_str(alloc, "campaign.db")?)?;
    words.push(String::from_str(alloc, "script")?)?;
    Ok(words)
}

fn add_file(shelf: &mut MemShelf, name: &str, text: &str) -> Result<(), AllocError> {
    match shelf.begin(name) {
        Ok(false) => shelf.add(name, text.as_bytes()),
        Ok(true) | Err(_) => Ok(()),
    }
}

/// How a run of this script ends, and what it makes.
fn ran(
    alloc: Global,
    script: &str,
    keeper: &mut MemKeeper,
) -> Result<(LedgerStatus, MemPress), AllocError> {
    let mut shelf = MemShelf::new(alloc, 64);
    add_file(&mut shelf, "script", script)?;
    add_file(&mut shelf, "r.txt", NINE)?;
    add_file(&mut shelf, "nine.wkt", LAYER)?;
    let words = words_of(alloc)?;
    let mut press = MemPress::new(alloc, 4096);
    let status = run_ledger(alloc, &words, &mut shelf, &mut press, keeper);
    Ok((status, press))
}

/// Whether a run of this script ends so and prints this.
fn ends(
    alloc: Global,
    script: &str,
    keeper: &mut MemKeeper,
    status: LedgerStatus,
    text: &str,
) -> bool {
    match ran(alloc, script, keeper) {
        Ok((ended, press)) => ended == status && press.made_bytes("-") == Some(text.as_bytes()),
        Err(_) => false,
    }
}

#[test]
fn a_campaign(rt: HostRuntime) {
    let mut keeper = MemKeeper::new(rt.alloc());
    assert!(rt;
        ends(
            rt.alloc(),
            CAMPAIGN,
            &mut keeper,
            LedgerStatus::Done,
            REPLIES
        )
    );
    let again = "list 1\n\nclear 1";
    assert!(rt;
        ends(
            rt.alloc(),
            again,
            &mut keeper,
            LedgerStatus::Done,
            "listed 0\nclear\n"
        )
    );
}

#[test]
fn a_line_of_no_form(rt: HostRuntime) {
    let mut keeper = MemKeeper::new(rt.alloc());
    let script = "enter r.txt nine.wkt\ndecide 1 x kept\n";
    let line = "script: bad at line 2\n";
    assert!(rt; ends(rt.alloc(), script, &mut keeper, LedgerStatus::Script, line));
    assert!(rt;
        ends(
            rt.alloc(),
            "list 1",
            &mut keeper,
            LedgerStatus::Done,
            "no run\n"
        )
    );
}

#[test]
fn files_that_are_not_as_they_should_be(rt: HostRuntime) {
    let mut keeper = MemKeeper::new(rt.alloc());
    let layers = "report of line 1: layers\n";
    assert!(rt;
        ends(
            rt.alloc(),
            "enter r.txt",
            &mut keeper,
            LedgerStatus::Report,
            layers
        )
    );
    let missing = "read fault: line 2\n";
    assert!(rt;
        ends(
            rt.alloc(),
            "list 1\nenter r.txt no.wkt",
            &mut keeper,
            LedgerStatus::Read,
            missing
        )
    );
    let none = "report of line 1: bad at line 1\n";
    assert!(rt;
        ends(
            rt.alloc(),
            "enter nine.wkt",
            &mut keeper,
            LedgerStatus::Report,
            none
        )
    );
    assert!(rt;
        ends(
            rt.alloc(),
            "list 1",
            &mut keeper,
            LedgerStatus::Done,
            "no run\n"
        )
    );
}

#[test]
fn a_keeper_that_fails(rt: HostRuntime) {
    let mut keeper = MemKeeper::new(rt.alloc());
    assert_eq!(rt; keeper.fail_at(0), Ok(()));
    let stopped = "stopped: keeper fault after 0 commands\n";
    assert!(rt;
        ends(
            rt.alloc(),
            CAMPAIGN,
            &mut keeper,
            LedgerStatus::Keeper,
            stopped
        )
    );
    assert!(rt;
        ends(
            rt.alloc(),
            CAMPAIGN,
            &mut keeper,
            LedgerStatus::Done,
            REPLIES
        )
    );
}
