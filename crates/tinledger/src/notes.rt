//! What standard error says of a run that was refused. The script, and the files that its line names, are read once more:
//! what is said is for a person, and is no part of what the run is proved to do.

use ledger_remarks::{
    Finding, finding_of, flaw_lines, other_layers_lines, unread_lines, unread_script_lines,
    wrong_report_lines,
};
use ledger_runs::{LedgerEnd, LedgerRefusal, LedgerStatus, MOST_BYTES};
use ledger_script::{ScriptLine, line_of};
use shelf_io::{FileShelf, Name, load};
use std::alloc::AllocError;
use std::fs;
use std::io::{Error, Read};

/// The bytes of the script, where it can be read once more: a pipe cannot.
fn script_again(rt: &HostRuntime, script: &str) -> Option<Vec<u8>> {
    match fs::metadata(rt, script) {
        Ok(kind) if kind.is_file() => {
            let mut shelf = FileShelf::new(rt, rt.alloc()).ok()?;
            load(rt.alloc(), &mut shelf, script, MOST_BYTES).ok()
        }
        _ => None,
    }
}

/// The line of this number, from 1.
fn line_in(text: &[u8], number: u32) -> Option<&[u8]> {
    let before = number.checked_sub(1)?;
    text.split(|byte| *byte == b'\n').nth(before as usize)
}

/// Why the system does not let a file be read, where it is one that can be tried once more.
fn read_error(rt: &HostRuntime, name: &str) -> Option<Error> {
    match fs::metadata(rt, name) {
        Ok(kind) if kind.is_file() || kind.is_dir() => match fs::open(rt, name) {
            Ok(mut file) => file.read(&mut [0u8; 1]).err(),
            Err(error) => Some(error),
        },
        Ok(_) => None,
        Err(error) => Some(error),
    }
}

/// Prints a text, where there is one. A failure of this changes nothing.
fn print(rt: &HostRuntime, text: Result<String, AllocError>) {
    if let Ok(text) = text {
        let _ = rt.eprint(text.as_str());
    }
}

/// Says what is wrong with a line that has no form.
fn say_flaw(rt: &HostRuntime, script: &str, text: &[u8], number: u32) {
    if let Some(line) = line_in(text, number) {
        let found: Finding<'_> = finding_of(line);
        print(rt, flaw_lines(rt.alloc(), script, number, found));
    }
}

/// Says why a file is not read. Whether there was a reason.
fn say_unread(rt: &HostRuntime, script: &str, number: u32, name: &Name) -> bool {
    let Some(error) = read_error(rt, name.text()) else {
        return false;
    };
    if let Ok(reason) = format!(in rt.alloc(); "{error}") {
        print(
            rt,
            unread_lines(rt.alloc(), script, number, name.text(), reason.as_str()),
        );
    }
    true
}

/// Says of the first file of a line that is not read why that is so.
fn say_first_unread(rt: &HostRuntime, script: &str, number: u32, report: &Name, layers: &[Name]) {
    if say_unread(rt, script, number, report) {
        return;
    }
    for layer in layers {
        if say_unread(rt, script, number, layer) {
            return;
        }
    }
}

/// Says what is wrong with a file that a line names.
fn say_file(rt: &HostRuntime, script: &str, text: &[u8], number: u32, refusal: LedgerRefusal) {
    let Some(line) = line_in(text, number) else {
        return;
    };
    let Ok(ScriptLine::Enter { report, layers }) = line_of(rt.alloc(), line) else {
        return;
    };
    let alloc = rt.alloc();
    match refusal {
        LedgerRefusal::FileUnread { .. } => {
            say_first_unread(rt, script, number, &report, layers.items());
        }
        LedgerRefusal::BadReport { bad, .. } => {
            print(
                rt,
                wrong_report_lines(alloc, script, number, report.text(), bad),
            );
        }
        LedgerRefusal::LayerCount { .. } => {
            print(rt, other_layers_lines(alloc, script, number, report.text()));
        }
        _ => {}
    }
}

/// Says why the script is not read.
fn say_script_unread(rt: &HostRuntime, script: &str) {
    let Some(error) = read_error(rt, script) else {
        return;
    };
    if let Ok(reason) = format!(in rt.alloc(); "{error}") {
        print(rt, unread_script_lines(rt.alloc(), script, reason.as_str()));
    }
}

/// Says of a line of the script what is wrong with it, or with a file that it names.
fn say_line(rt: &HostRuntime, script: &str, number: u32, refusal: LedgerRefusal) {
    let Some(text) = script_again(rt, script) else {
        return;
    };
    match refusal {
        LedgerRefusal::BadLine { .. } => say_flaw(rt, script, text.as_slice(), number),
        _ => say_file(rt, script, text.as_slice(), number, refusal),
    }
}

/// What helps where a limit is passed.
fn limit_words(refusal: LedgerRefusal) -> &'static str {
    match refusal {
        LedgerRefusal::ReportBytes =>
            "tinledger: no line was obeyed; reports of 67108864 bytes fit one script: divide it\n",
        LedgerRefusal::LayerBytes =>
            "tinledger: no line was obeyed; a layer has at most 268435456 bytes\n",
        _ =>
            "tinledger: no line was obeyed; a script has at most 1048576 bytes and 1048575 lines: divide it\n",
    }
}

/// Says how many commands were obeyed of a run that stopped.
fn say_stop(rt: &HostRuntime, done: u32) {
    if done == 0 {
        let _ = rt.eprint("tinledger: no line was obeyed\n");
        return;
    }
    let _ = eprintln!(rt;
        "tinledger: what {done} commands did stands in the database; give the script again"
    );
}

/// Says why a run was refused, and what helps.
fn say_refusal(rt: &HostRuntime, script: &str, refusal: LedgerRefusal) {
    match refusal {
        LedgerRefusal::Words => {}
        LedgerRefusal::ScriptUnread => say_script_unread(rt, script),
        LedgerRefusal::ScriptBytes
        | LedgerRefusal::ScriptLines
        | LedgerRefusal::ReportBytes
        | LedgerRefusal::LayerBytes => {
            let _ = rt.eprint(limit_words(refusal));
        }
        LedgerRefusal::BadLine { line }
        | LedgerRefusal::FileUnread { line }
        | LedgerRefusal::BadReport { line, .. }
        | LedgerRefusal::LayerCount { line } => say_line(rt, script, line, refusal),
        LedgerRefusal::NoMemory { done } | LedgerRefusal::KeeperFailed { done } => {
            say_stop(rt, done);
        }
    }
}

/// Says that standard output could not be written. A failure of this changes nothing.
pub(crate) fn say_unwritten(rt: &HostRuntime) {
    let _ = rt.eprint("tinledger: standard output: could not be written\n");
}

/// Says of the end of a run what helps. A failure of this changes nothing.
pub(crate) fn say_end(rt: &HostRuntime, script: &str, end: LedgerEnd) {
    if end.status == LedgerStatus::Write {
        say_unwritten(rt);
    }
    match end.refusal {
        Some(refusal) => say_refusal(rt, script, refusal),
        None if end.status == LedgerStatus::Write => {
            let _ = rt.eprint("tinledger: every line was obeyed\n");
        }
        None => {}
    }
}
