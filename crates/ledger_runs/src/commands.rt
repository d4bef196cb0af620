//! The commands of a script, whose reports and layers are read.

ghost use Rattle.std.specs.Prelude.{◌≡◌, ◌≢◌, ◌⊎◌, ◌++◌, ◌-◌, ◌≤◌, ℕ, length, vec_len, Some, IfOk, IfErr, IfSome};
ghost use Rattle.shelf_io.specs.Count.{Rose, count_after};
ghost use Rattle.shelf_io.specs.Files.{bytes_of};
ghost use Rattle.shelf_io.specs.Load.{IsLonger};
ghost use Rattle.file_digests.specs.Digests.{IsDigestOf};
ghost use Rattle.report_text.specs.Beginnings.{IsReportText};
ghost use Rattle.ledger_runs.specs.declared.refusals.LedgerRefusal.TheVariants.{Words};
ghost use Rattle.ledger_runs.specs.Causes.{LeavesShelf, IsInner, HasPassed};
ghost use Rattle.ledger_runs.specs.Entries.{IsSealOf, IsEntry, IsCommand, AreCommands};
ghost use Rattle.ledger_runs.specs.Ends.{IsUnread};
ghost use Rattle.ledger_runs.specs.InsideEntries.{ReportFails, TextFails, DigestFails, LayersFail, EntryFails, CommandFails, CommandsFail};

use crate::LedgerRefusal;
use crate::scripts::{AskedLine, NO_MEMORY};
use file_digests::{DigestFault, digest};
use ledger_core::{Command, Seal};
use ledger_script::ScriptLine;
use report_text::{Report, ReportFault, read_report};
use sha2::{Digest, Sha256};
use shelf_io::{LoadFault, Name, Shelf, load};
use std::alloc::Global;

/// The most bytes of all reports together.
pub const MOST_REPORTS: u64 = 1 << 26;

/// The most bytes of a layer.
pub const MOST_LAYER: u64 = 1 << 28;

// The bytes of a report.
fn load_report<S: Shelf>(
    alloc: Global,
    shelf: &mut S,
    name: &Name,
    line: u32,
    left: u64,
) -> Result<Vec<u8>, LedgerRefusal>
    requires { left ≤ MOST_REPORTS }
    ensures files { S.files shelf.new ≡ S.files shelf.old }
    ensures faults { LeavesShelf (S.files shelf.old) (S.faults shelf.old) (S.faults shelf.new) result }
    ensures named { IfErr result (λ refusal. refusal ≢ Words) }
    ensures there { IfOk result (λ bytes. IfSome (S.files shelf.old) (λ files. bytes_of files name.now ≡ Some bytes.items)) }
    ensures few { IfOk result (λ bytes. length bytes.items ≤ left) }
    ensures given { IfOk result (λ bytes. count_after (S.given shelf.old) (length bytes.items) ≤ S.given shelf.new) }
    ensures given_later { S.given shelf.old ≤ S.given shelf.new }
    ensures passed { IfErr result (HasPassed left (S.given shelf.old) (S.given shelf.new)) }
    ensures err { IfErr result (λ refusal. IfSome (S.files shelf.old)
        (λ files. ReportFails (IsUnread files (Rose (S.faults shelf.old) (S.faults shelf.new)))
        files left line name.now refusal)) }
{
    match load(alloc, shelf, name.text(), left) {
        Ok(bytes) => Ok(bytes),
        Err(LoadFault::Missing | LoadFault::Failed) => Err(LedgerRefusal::FileUnread { line }),
        Err(LoadFault::Long) => Err(LedgerRefusal::ReportBytes),
        Err(LoadFault::NoMemory) => Err(NO_MEMORY),
    }
}

// The report that bytes are.
fn report_of(alloc: Global, bytes: &[u8], line: u32) -> Result<Report, LedgerRefusal>
    ensures inner { IfErr result IsInner }
    ensures named { IfErr result (λ refusal. refusal ≢ Words) }
    ensures ok { IfOk result (λ report. IsReportText bytes.now report) }
    ensures err { IfErr result (λ refusal. TextFails bytes.now line refusal) }
{
    match read_report(alloc, bytes) {
        Ok(report) => Ok(report),
        Err(ReportFault::Bad { line: bad }) => Err(LedgerRefusal::BadReport { line, bad }),
        Err(ReportFault::NoMemory) => Err(NO_MEMORY),
    }
}

// The digest of a layer.
fn layer_digest<S: Shelf>(shelf: &mut S, name: &Name, line: u32) -> Result<[u8; 32], LedgerRefusal>
    ensures files { S.files shelf.new ≡ S.files shelf.old }
    ensures faults { LeavesShelf (S.files shelf.old) (S.faults shelf.old) (S.faults shelf.new) result }
    ensures named { IfErr result (λ refusal. refusal ≢ Words) }
    ensures ok { IfOk result (λ digest. IfSome (S.files shelf.old) (λ files. IsDigestOf name.now MOST_LAYER digest files)) }
    ensures given_later { S.given shelf.old ≤ S.given shelf.new }
    ensures passed { IfErr result (λ refusal. (left : ℕ) → HasPassed left (S.given shelf.old) (S.given shelf.new) refusal) }
    ensures err { IfErr result (λ refusal. IfSome (S.files shelf.old)
        (λ files. DigestFails (IsUnread files (Rose (S.faults shelf.old) (S.faults shelf.new)))
        files line name.now refusal)) }
{
    match digest(shelf, name.text(), MOST_LAYER) {
        Ok(bytes) => Ok(bytes),
        Err(DigestFault::Missing | DigestFault::Failed) => Err(LedgerRefusal::FileUnread { line }),
        Err(DigestFault::Long) => Err(LedgerRefusal::LayerBytes),
    }
}

// The seal of a run: the digest of the digests of its report and of its layers.
fn seal_of<S: Shelf>(
    shelf: &mut S,
    report: &[u8],
    layers: &[Name],
    line: u32,
) -> Result<Seal, LedgerRefusal>
    ensures files { S.files shelf.new ≡ S.files shelf.old }
    ensures faults { LeavesShelf (S.files shelf.old) (S.faults shelf.old) (S.faults shelf.new) result }
    ensures named { IfErr result (λ refusal. refusal ≢ Words) }
    ensures ok { IfOk result (λ seal. IfSome (S.files shelf.old) (λ files. IsSealOf files report.now layers.now seal)) }
    ensures given_later { S.given shelf.old ≤ S.given shelf.new }
    ensures passed { IfErr result (λ refusal. (left : ℕ) → HasPassed left (S.given shelf.old) (S.given shelf.new) refusal) }
    ensures err { IfErr result (λ refusal. IfSome (S.files shelf.old)
        (λ files. LayersFail (IsUnread files (Rose (S.faults shelf.old) (S.faults shelf.new)))
        files line layers.now refusal)) }
{
    let mut hasher = Sha256::new();
    let first: [u8; 32] = Sha256::digest(report);
    hasher.update(first.as_slice());
    for layer in layers {
        let next = layer_digest(shelf, layer, line)?;
        hasher.update(next.as_slice());
    }
    Ok(Seal {
        bytes: hasher.finalize(),
    })
}

// The command that enters a run, and how many bytes reports may have after it.
fn entry_of<S: Shelf>(
    alloc: Global,
    shelf: &mut S,
    report: &Name,
    layers: &[Name],
    line: u32,
    left: u64,
) -> Result<(Command, u64), LedgerRefusal>
    requires { left ≤ MOST_REPORTS }
    ensures files { S.files shelf.new ≡ S.files shelf.old }
    ensures faults { LeavesShelf (S.files shelf.old) (S.faults shelf.old) (S.faults shelf.new) result }
    ensures named { IfErr result (λ refusal. refusal ≢ Words) }
    ensures fewer { IfOk result (λ found. found.1 ≤ left) }
    ensures ok { IfOk result (λ found. IfSome (S.files shelf.old) (λ files. IsEntry files left report.now layers.now found.0 found.1)) }
    ensures given { IfOk result (λ found. count_after (S.given shelf.old) (left - found.1) ≤ S.given shelf.new) }
    ensures given_later { S.given shelf.old ≤ S.given shelf.new }
    ensures passed { IfErr result (HasPassed left (S.given shelf.old) (S.given shelf.new)) }
    ensures err { IfErr result (λ refusal. IfSome (S.files shelf.old)
        (λ files. EntryFails (IsUnread files (Rose (S.faults shelf.old) (S.faults shelf.new)))
        files left line report.now layers.now refusal)) }
{
    let bytes = load_report(alloc, shelf, report, line, left)?;
    let contents = report_of(alloc, bytes.as_slice(), line)?;
    if contents.layers().len() != layers.len() {
        return Err(LedgerRefusal::LayerCount { line });
    }
    let seal = seal_of(shelf, bytes.as_slice(), layers, line)?;
    Ok((
        Command::Enter {
            seal,
            report: contents,
        },
        left - bytes.len() as u64,
    ))
}

// The command of a line, and how many bytes reports may have after it.
fn command_of<S: Shelf>(
    alloc: Global,
    shelf: &mut S,
    asked: &AskedLine,
    left: u64,
) -> Result<(Command, u64), LedgerRefusal>
    requires { left ≤ MOST_REPORTS }
    ensures files { S.files shelf.new ≡ S.files shelf.old }
    ensures faults { LeavesShelf (S.files shelf.old) (S.faults shelf.old) (S.faults shelf.new) result }
    ensures named { IfErr result (λ refusal. refusal ≢ Words) }
    ensures fewer { IfOk result (λ found. found.1 ≤ left) }
    ensures ok { IfOk result (λ found. IfSome (S.files shelf.old) (λ files. IsCommand files left asked.now.asks found.0 found.1)) }
    ensures given { IfOk result (λ found. count_after (S.given shelf.old) (left - found.1) ≤ S.given shelf.new) }
    ensures given_later { S.given shelf.old ≤ S.given shelf.new }
    ensures passed { IfErr result (HasPassed left (S.given shelf.old) (S.given shelf.new)) }
    ensures err { IfErr result (λ refusal. IfSome (S.files shelf.old)
        (λ files. CommandFails (IsUnread files (Rose (S.faults shelf.old) (S.faults shelf.new)))
        files left asked.now refusal)) }
{
    match &asked.asks {
        ScriptLine::Enter { report, layers } => entry_of(
            alloc,
            shelf,
            report,
            layers.items(),
            asked.line,
            left,
        ),
        ScriptLine::Decide { run, place, mark } => Ok((
            Command::Decide {
                run: *run,
                place: *place,
                mark: *mark,
            },
            left,
        )),
        ScriptLine::List { run } => Ok((Command::List { run: *run }, left)),
        ScriptLine::Clear { run } => Ok((Command::Clear { run: *run }, left)),
    }
}

/// The commands of the lines.
pub(crate) fn commands_of<S: Shelf>(
    alloc: Global,
    shelf: &mut S,
    asked: &[AskedLine],
) -> Result<Vec<Command>, LedgerRefusal>
    ensures files { S.files shelf.new ≡ S.files shelf.old }
    ensures faults { LeavesShelf (S.files shelf.old) (S.faults shelf.old) (S.faults shelf.new) result }
    ensures named { IfErr result (λ refusal. refusal ≢ Words) }
    ensures ok { IfOk result (λ commands. IfSome (S.files shelf.old) (λ files. AreCommands files MOST_REPORTS asked.now commands.items)) }
    ensures count { IfOk result (λ commands. length commands.items ≡ length asked.now) }
    ensures given_later { S.given shelf.old ≤ S.given shelf.new }
    ensures passed { IfErr result (HasPassed MOST_REPORTS (S.given shelf.old) (S.given shelf.new)) }
    ensures err { IfErr result (λ refusal. IfSome (S.files shelf.old)
        (λ files. CommandsFail (IsUnread files (Rose (S.faults shelf.old) (S.faults shelf.new)))
        files MOST_REPORTS asked.now refusal)) }
{
    let mut commands = Vec::new(alloc);
    let mut left = MOST_REPORTS;
    for line in asked {
        let (command, behind) = command_of(alloc, shelf, line, left)?;
        left = behind;
        if commands.push(command).is_err() {
            return Err(NO_MEMORY);
        }
    }
    Ok(commands)
}
