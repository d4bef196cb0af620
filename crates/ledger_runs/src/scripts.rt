//! The script: its lines, numbered from 1, without the empty ones.

ghost use Rattle.std.specs.Prelude.{◌≡◌, ◌≢◌, ◌⊎◌, ◌∷◌, ◌++◌, [], ◌<◌, ◌≤◌, ℕ, length, Some, IfOk, IfErr, IfSome};
ghost use Rattle.shelf_io.specs.Count.{Rose, count_after};
ghost use Rattle.shelf_io.specs.Files.{bytes_of};
ghost use Rattle.ledger_core.specs.declared.limits.TheConstants.{MOST_COMMANDS as most_lines};
ghost use Rattle.ledger_runs.specs.declared.refusals.LedgerRefusal.TheVariants.{Words};
ghost use Rattle.ledger_runs.specs.Causes.{LeavesShelf, IsInner, HasPassed};
ghost use Rattle.ledger_runs.specs.Lines.{lines_of, AreAsked};
ghost use Rattle.ledger_runs.specs.InsideSteps.{IsFirstLine, ScriptFails, LineFails, ReadingFails, ScriptReadingFails};
ghost use Rattle.ledger_runs.specs.Ends.{IsUnread};
ghost use Rattle.ledger_runs.specs.Outcome.{IsRead};
ghost use Rattle.ledger_script.specs.ScriptText.{IsLineText};

use crate::LedgerRefusal;
use ledger_core::MOST_COMMANDS;
use ledger_script::{LineFault, ScriptLine, line_of};
use memchr::memchr;
use shelf_io::{LoadFault, Shelf, load};
use std::alloc::Global;

/// The most bytes of a script.
pub const MOST_BYTES: u64 = 1 << 20;

/// The byte that ends a line.
pub const LINE_FEED: u8 = b'\n';

/// Memory ran out before the first command.
pub(crate) const NO_MEMORY: LedgerRefusal = LedgerRefusal::NoMemory { done: 0 };

/// A line of a script that is not empty.
#[derive(Drop)]
pub struct AskedLine {
    /// Its number, from 1.
    pub line: u32,
    /// What it asks for.
    pub asks: ScriptLine,
}

/// The bytes of the script.
pub(crate) fn load_script<S: Shelf>(
    alloc: Global,
    shelf: &mut S,
    name: &str,
) -> Result<Vec<u8>, LedgerRefusal>
    ensures files { S.files shelf.new ≡ S.files shelf.old }
    ensures faults { LeavesShelf (S.files shelf.old) (S.faults shelf.old) (S.faults shelf.new) result }
    ensures named { IfErr result (λ refusal. refusal ≢ Words) }
    ensures there { IfOk result (λ bytes. IfSome (S.files shelf.old) (λ files. bytes_of files name.now ≡ Some bytes.items)) }
    ensures few { IfOk result (λ bytes. length bytes.items ≤ MOST_BYTES) }
    ensures given_later { S.given shelf.old ≤ S.given shelf.new }
    ensures passed { IfErr result (λ refusal. (left : ℕ) → HasPassed left (S.given shelf.old) (S.given shelf.new) refusal) }
    ensures err { IfErr result (λ refusal. IfSome (S.files shelf.old)
        (λ files. ScriptFails (IsUnread files (Rose (S.faults shelf.old) (S.faults shelf.new))) files name.now refusal)) }
{
    match load(alloc, shelf, name, MOST_BYTES) {
        Ok(bytes) => Ok(bytes),
        Err(LoadFault::Missing | LoadFault::Failed) => Err(LedgerRefusal::ScriptUnread),
        Err(LoadFault::Long) => Err(LedgerRefusal::ScriptBytes),
        Err(LoadFault::NoMemory) => Err(NO_MEMORY),
    }
}

// The first line of a text without its line feed, and what comes after that.
fn first_line(text: &[u8]) -> (&[u8], &[u8])
    requires { 0 < length text.now }
    ensures { IsFirstLine text.now result.0.now result.1.now }
{
    match memchr(LINE_FEED, text) {
        Some(end) => (&text[..end], &text[end + 1..]),
        None => (text, &text[text.len()..]),
    }
}

// How many lines a text has.
fn line_count(text: &[u8]) -> usize
    ensures { result ≡ length (lines_of text.now) }
{
    let mut count = 0;
    let mut rest = text;
    while !rest.is_empty() {
        let (_, behind) = first_line(rest);
        count += 1;
        rest = behind;
    }
    count
}

fn read_line(alloc: Global, line: &[u8], number: u32) -> Result<AskedLine, LedgerRefusal>
    ensures inner { IfErr result IsInner }
    ensures named { IfErr result (λ refusal. refusal ≢ Words) }
    ensures ok { IfOk result (λ asked. (asked.line ≡ number) × IsLineText line.now asked.asks) }
    ensures err { IfErr result (λ refusal. LineFails line.now number refusal) }
{
    match line_of(alloc, line) {
        Ok(asks) => Ok(AskedLine { line: number, asks }),
        Err(LineFault::Bad) => Err(LedgerRefusal::BadLine { line: number }),
        Err(LineFault::NoMemory) => Err(NO_MEMORY),
    }
}

// What the lines of a text ask for, where there are not too many.
fn read_lines(alloc: Global, text: &[u8]) -> Result<Vec<AskedLine>, LedgerRefusal>
    requires { length (lines_of text.now) < most_lines }
    ensures inner { IfErr result IsInner }
    ensures named { IfErr result (λ refusal. refusal ≢ Words) }
    ensures ok { IfOk result (λ asked. AreAsked 1 (lines_of text.now) asked.items) }
    ensures err { IfErr result (λ refusal. ReadingFails 1 (lines_of text.now) refusal) }
{
    let mut asked = Vec::new(alloc);
    let mut rest = text;
    let mut number = 0u32;
    while !rest.is_empty() {
        let (line, behind) = first_line(rest);
        number += 1;
        if !line.is_empty() {
            let next = read_line(alloc, line, number)?;
            if asked.push(next).is_err() {
                return Err(NO_MEMORY);
            }
        }
        rest = behind;
    }
    Ok(asked)
}

/// What the lines of a script ask for.
pub(crate) fn read_script(alloc: Global, text: &[u8]) -> Result<Vec<AskedLine>, LedgerRefusal>
    ensures inner { IfErr result IsInner }
    ensures named { IfErr result (λ refusal. refusal ≢ Words) }
    ensures ok { IfOk result (λ asked. IsRead text.now asked.items) }
    ensures err { IfErr result (λ refusal. ScriptReadingFails text.now refusal) }
{
    if line_count(text) >= MOST_COMMANDS {
        return Err(LedgerRefusal::ScriptLines);
    }
    read_lines(alloc, text)
}
