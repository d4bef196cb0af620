//! The whole program over what it is handed.

ghost use Rattle.std.specs.Prelude.{◌≡◌, ◌≢◌, ◌⊎◌, ◌<◌, ◌≤◌, ◌+◌, [], ◌∷◌, List, length, map, string_bytes, ℕ, ◌↔◌, IsTrue};
ghost use Rattle.std.specs.Prelude.{IfOk, IfErr, IfSome, false, codes};
ghost use Rattle.shelf_io.specs.Count.{Rose};
ghost use Rattle.ledger_core.specs.declared.limits.TheConstants.{MOST_COMMANDS};
ghost use Rattle.ledger_core.specs.declared.commands.Command.{Command as Asks};
ghost use Rattle.ledger_core.specs.Histories.{StandsFor};
ghost use Rattle.ledger_runs.specs.Causes.{LeavesShelf, LeavesKeeper, IsInner, HasPassed, refusal_by};
ghost use Rattle.ledger_runs.specs.declared.commands.TheConstants.{MOST_REPORTS};
ghost use Rattle.ledger_runs.specs.declared.refusals.LedgerRefusal.TheVariants.{Words};
ghost use Rattle.ledger_runs.specs.Words.{IsName, AreNames};
ghost use Rattle.ledger_runs.specs.Refusals.{line_of, status_of};
ghost use Rattle.ledger_runs.specs.Outcome.{IsPrepared};
ghost use Rattle.ledger_runs.specs.Ends.{IsUnread, IsFrontOf, Ends, KeepsLimits};
ghost use Rattle.ledger_runs.specs.MissingFiles.{LacksPrinted};
ghost use Rattle.ledger_runs.specs.HandedOut.{HandsOut, run_counts, NamesFail, PreparingFails, IsStop, AreReplies};
ghost use Rattle.ledger_runs.specs.InsideRuns.{ObeysAll};

use crate::commands::commands_of;
use crate::reply_lines::replies_text;
use crate::scripts::{load_script, read_script};
use crate::{LedgerRefusal, LedgerStatus};
use ledger_core::{Command, KeepFault, Keeper, MOST_COMMANDS, Replies, Stop, obey_all};
use shelf_io::{Press, Shelf, print};
use std::alloc::Global;

// Whether a word is a name: not empty, and without a byte below 32.
fn is_name(word: &str) -> bool
    ensures { IsTrue result ↔ IsName word.now }
{
    !word.is_empty() && word.as_bytes().iter().all(|byte| *byte >= 32)
}

/// The name of the script, where the words are two names.
pub fn script_of(words: &[String]) -> Result<&str, LedgerRefusal>
    ensures inner { IfErr result IsInner }
    ensures ok { IfOk result (λ script. AreNames (map string_bytes words.now) script.now) }
    ensures err { IfErr result (λ refusal. NamesFail (map string_bytes words.now) refusal) }
{
    if words.len() != 2 {
        return Err(LedgerRefusal::Words);
    }
    let database = words[0].as_str();
    let script = words[1].as_str();
    if is_name(database) && is_name(script) {
        Ok(script)
    } else {
        Err(LedgerRefusal::Words)
    }
}

// Everything before the first command.
fn prepare<S: Shelf>(
    alloc: Global,
    words: &[String],
    shelf: &mut S,
) -> Result<Vec<Command>, LedgerRefusal>
    ensures files { S.files shelf.new ≡ S.files shelf.old }
    ensures faults { LeavesShelf (S.files shelf.old) (S.faults shelf.old) (S.faults shelf.new) result }
    ensures few { IfOk result (λ commands. length commands.items < MOST_COMMANDS) }
    ensures ok { IfOk result (λ commands. IfSome (S.files shelf.old)
        (λ files. IsPrepared (map string_bytes words.now) files commands.items)) }
    ensures err { IfErr result (λ refusal. IfSome (S.files shelf.old)
        (λ files. PreparingFails (IsUnread files (Rose (S.faults shelf.old) (S.faults shelf.new)))
        (map string_bytes words.now) files refusal)) }

    // Stated or not, what is refused for its words are no two names, and more bytes
    // than the limit were given of what is refused for its bytes.
    ensures named { IfOk result (λ commands. (script : List ℕ) × AreNames (map string_bytes words.now) script) }
    ensures words { IfErr result (λ refusal. (refusal ≡ Words) ↔ ((script : List ℕ) → AreNames (map string_bytes words.now) script → ⊥)) }
    ensures given_later { S.given shelf.old ≤ S.given shelf.new }
    ensures passed { IfErr result (HasPassed MOST_REPORTS (S.given shelf.old) (S.given shelf.new)) }
{
    let name = script_of(words)?;
    let text = load_script(alloc, shelf, name)?;
    let asked = read_script(alloc, text.as_slice())?;
    let commands = commands_of(alloc, shelf, asked.as_slice())?;
    Ok(commands)
}

// Why a run stops.
fn refusal_of_stop(stop: Stop) -> LedgerRefusal
    ensures { result ≡ refusal_by stop.at stop.fault }
{
    match stop.fault {
        KeepFault::Failed => LedgerRefusal::KeeperFailed { done: stop.at },
        KeepFault::NoMemory => LedgerRefusal::NoMemory { done: stop.at },
    }
}

// Obeys the commands; the text of their replies.
fn obey_commands<K: Keeper>(
    alloc: Global,
    keeper: &mut K,
    commands: &[Command],
) -> Result<Vec<u8>, LedgerRefusal>
    requires { length commands.now < MOST_COMMANDS }
    ensures faults { LeavesKeeper (K.faults keeper.old) (K.faults keeper.new) result }
    ensures form { IfOk result (λ text. AreReplies text.items) }
    ensures stop { IfErr result (IsStop (K.faults keeper.old) (K.faults keeper.new) (length commands.now)) }
    ensures obeyed { (history : List Asks) → StandsFor (K.kept keeper.old) history → ObeysAll history commands.now
        (K.kept keeper.new) result }
{
    let mut replies = Replies::of(Vec::new(alloc));
    match obey_all(alloc, keeper, commands, &mut replies) {
        Ok(()) => {}
        Err(stop) => return Err(refusal_of_stop(stop)),
    }
    match replies_text(alloc, replies.items()) {
        Ok(text) => Ok(text),
        Err(_) => Err(LedgerRefusal::NoMemory {
            done: commands.len() as u32,
        }),
    }
}

// Writes a text to standard output, after which the run ends so.
fn say<P: Press>(press: &mut P, said: &[u8], status: LedgerStatus) -> LedgerStatus
    requires free { P.at_hand press.old ≡ false }
    requires empty { IfSome (P.made press.old) (λ made. made ≡ []) }
    requires other { status ≢ LedgerStatus.Write }
    ensures status { (result ≡ status) ⊎ (result ≡ LedgerStatus.Write) }
    ensures whole { result ≢ LedgerStatus.Write → IfSome (P.made press.new) (λ made. made ≡ (codes "-", said.now) ∷ []) }
    ensures front { result ≡ LedgerStatus.Write → IfSome (P.made press.new) (λ made. IsFrontOf made said.now) }
    ensures rose { result ≡ LedgerStatus.Write → Rose (P.faults press.old) (P.faults press.new) }
    ensures same { result ≢ LedgerStatus.Write → P.faults press.new ≡ P.faults press.old }
    ensures at_hand { result ≢ LedgerStatus.Write → P.at_hand press.new ≡ false }
{
    match print(press, "-", said) {
        Ok(()) => status,
        Err(_) => LedgerStatus::Write,
    }
}

// Prints the line of a refusal.
fn refuse<P: Press>(press: &mut P, refusal: LedgerRefusal) -> LedgerStatus
    requires free { P.at_hand press.old ≡ false }
    requires empty { IfSome (P.made press.old) (λ made. made ≡ []) }
    ensures status { (result ≡ status_of refusal) ⊎ (result ≡ LedgerStatus.Write) }
    ensures whole { result ≢ LedgerStatus.Write → IfSome (P.made press.new) (λ made. made ≡ (codes "-", line_of refusal) ∷ []) }
    ensures front { result ≡ LedgerStatus.Write → IfSome (P.made press.new) (λ made. IsFrontOf made (line_of refusal)) }
    ensures rose { result ≡ LedgerStatus.Write → Rose (P.faults press.old) (P.faults press.new) }
    ensures same { result ≢ LedgerStatus.Write → P.faults press.new ≡ P.faults press.old }
    ensures at_hand { result ≢ LedgerStatus.Write → P.at_hand press.new ≡ false }
{
    let line = refusal.line();
    say(press, line.as_bytes(), refusal.status())
}

/// How a run ended, and why no replies were printed, where it was refused or stopped.
#[derive(Clone, Copy)]
pub struct LedgerEnd {
    /// How it ended.
    pub status: LedgerStatus,
    /// Why it was refused or stopped. Its line was printed, or could not be printed whole: then the status is `Write`.
    /// Without it replies were printed, or could not be printed whole.
    pub refusal: Option<LedgerRefusal>,
}

/// Obeys the script that the second word names over a keeper, and prints the replies. Hands out the refusal where there
/// is one.
pub fn run_to_end<S: Shelf, P: Press, K: Keeper>(
    alloc: Global,
    words: &[String],
    shelf: &mut S,
    press: &mut P,
    keeper: &mut K,
) -> LedgerEnd
    requires free { P.at_hand press.old ≡ false }
    requires empty { IfSome (P.made press.old) (λ made. made ≡ []) }

    // Where the shelf states its files and the keeper stands for a history, a run ends in one of five ways.
    ensures ends { IfSome (S.files shelf.old) (λ files. (history : List Asks) → StandsFor (K.kept keeper.old) history
        → Ends (map string_bytes words.now) files (Rose (S.faults shelf.old) (S.faults shelf.new))
        (Rose (K.faults keeper.old) (K.faults keeper.new)) (Rose (P.faults press.old) (P.faults press.new))
        history result.status (P.made press.new) (K.kept keeper.new)) }

    // Stated or not, the causes of the answers.
    ensures words { result.status ≡ LedgerStatus.Words → (script : List ℕ) → AreNames (map string_bytes words.now) script → ⊥ }
    ensures no_names { ((script : List ℕ) → AreNames (map string_bytes words.now) script → ⊥)
        → (result.status ≡ LedgerStatus.Words) ⊎ (result.status ≡ LedgerStatus.Write) }
    ensures write { result.status ≡ LedgerStatus.Write → Rose (P.faults press.old) (P.faults press.new) }
    ensures keeper { result.status ≡ LedgerStatus.Keeper → Rose (K.faults keeper.old) (K.faults keeper.new) }
    ensures read { result.status ≡ LedgerStatus.Read → Rose (S.faults shelf.old) (S.faults shelf.new)
        ⊎ LacksPrinted (map string_bytes words.now) (S.files shelf.old) (P.made press.new) }
    ensures limit { IfSome (P.made press.new) (KeepsLimits (S.given shelf.old) (S.given shelf.new)) }

    // Every other status leaves the counts of faults as they were.
    ensures press_stays { result.status ≢ LedgerStatus.Write → P.faults press.new ≡ P.faults press.old }
    ensures shelf_stays { result.status ≢ LedgerStatus.Write → result.status ≢ LedgerStatus.Read → S.faults shelf.new ≡ S.faults shelf.old }
    ensures keeper_stays { result.status ≢ LedgerStatus.Write → result.status ≢ LedgerStatus.Keeper
        → K.faults keeper.new ≡ K.faults keeper.old }

    // Every other status leaves no file at hand.
    ensures at_hand { result.status ≢ LedgerStatus.Write → P.at_hand press.new ≡ false }

    // Stated or not, a refusal that is handed out came, also where its line could not be printed whole. Where there is
    // none, what is printed is of replies, and where the keeper stood for a history of those to all commands.
    ensures handed { HandsOut (map string_bytes words.now) (S.files shelf.old)
        (run_counts (S.faults shelf.old) (S.faults shelf.new) (S.given shelf.old) (S.given shelf.new)
        (K.faults keeper.old) (K.faults keeper.new))
        (K.kept keeper.old) (K.kept keeper.new) result.status (P.made press.new) result.refusal }
{
    match prepare(alloc, words, shelf) {
        Ok(commands) => match obey_commands(alloc, keeper, commands.as_slice()) {
            Ok(text) => LedgerEnd {
                status: say(press, text.as_slice(), LedgerStatus::Done),
                refusal: None,
            },
            Err(stop) => LedgerEnd {
                status: refuse(press, stop),
                refusal: Some(stop),
            },
        },
        Err(refusal) => LedgerEnd {
            status: refuse(press, refusal),
            refusal: Some(refusal),
        },
    }
}

/// Obeys the script that the second word names over a keeper, and prints the replies.
pub fn run_ledger<S: Shelf, P: Press, K: Keeper>(
    alloc: Global,
    words: &[String],
    shelf: &mut S,
    press: &mut P,
    keeper: &mut K,
) -> LedgerStatus
    requires free { P.at_hand press.old ≡ false }
    requires empty { IfSome (P.made press.old) (λ made. made ≡ []) }

    // Where the shelf states its files and the keeper stands for a history, a run ends in one of five ways.
    ensures ends { IfSome (S.files shelf.old) (λ files. (history : List Asks) → StandsFor (K.kept keeper.old) history
        → Ends (map string_bytes words.now) files (Rose (S.faults shelf.old) (S.faults shelf.new))
        (Rose (K.faults keeper.old) (K.faults keeper.new)) (Rose (P.faults press.old) (P.faults press.new)) history result
        (P.made press.new) (K.kept keeper.new)) }

    // Stated or not, the causes of the answers.
    ensures words { result ≡ LedgerStatus.Words → (script : List ℕ) → AreNames (map string_bytes words.now) script → ⊥ }
    ensures no_names { ((script : List ℕ) → AreNames (map string_bytes words.now) script → ⊥)
        → (result ≡ LedgerStatus.Words) ⊎ (result ≡ LedgerStatus.Write) }
    ensures write { result ≡ LedgerStatus.Write → Rose (P.faults press.old) (P.faults press.new) }
    ensures keeper { result ≡ LedgerStatus.Keeper → Rose (K.faults keeper.old) (K.faults keeper.new) }
    ensures read { result ≡ LedgerStatus.Read → Rose (S.faults shelf.old) (S.faults shelf.new)
        ⊎ LacksPrinted (map string_bytes words.now) (S.files shelf.old) (P.made press.new) }
    ensures limit { IfSome (P.made press.new) (KeepsLimits (S.given shelf.old) (S.given shelf.new)) }

    // Every other status leaves the counts of faults as they were.
    ensures press_stays { result ≢ LedgerStatus.Write → P.faults press.new ≡ P.faults press.old }
    ensures shelf_stays { result ≢ LedgerStatus.Write → result ≢ LedgerStatus.Read → S.faults shelf.new ≡ S.faults shelf.old }
    ensures keeper_stays { result ≢ LedgerStatus.Write → result ≢ LedgerStatus.Keeper → K.faults keeper.new ≡ K.faults keeper.old }

    // Every other status leaves no file at hand.
    ensures at_hand { result ≢ LedgerStatus.Write → P.at_hand press.new ≡ false }
{
    run_to_end(alloc, words, shelf, press, keeper).status
}
