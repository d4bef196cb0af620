//! The kinds of lines of a script, each read into its numbers and names.

ghost use Rattle.std.specs.Prelude.{◌≡◌, ◌∷◌, ◌++◌, codes, ℕ, List, IfOk, IfSome, IfNone, IsErrOf};
ghost use Rattle.text_fields.specs.Fields.{Gives};
ghost use Rattle.ledger_script.specs.ScriptText.{Reads, are_visible};
ghost use Rattle.ledger_script.specs.InsideLineKinds.{mark_of, decision_of, run_of, IsField, NamesField, Spells};

use crate::{LineFault, ScriptLine};
use ledger_core::Mark;
use memchr::memchr;
use sheet_base::Listed;
use shelf_io::Name;
use std::alloc::Global;
use text_fields::{after, short_at};

// The mark whose word is the rest of a line.
fn mark_of(text: &[u8]) -> Option<Mark>
    ensures { result ≡ mark_of text.now }
{
    if text == b" kept".as_slice() {
        return Some(Mark::Kept);
    }
    if text == b" mended".as_slice() {
        return Some(Mark::Mended);
    }
    None
}

// A decision.
#[tactic(auto, unfolding(crate::specs::InsideLineKinds::decision_of))]
fn decision_of(line: &[u8]) -> Option<(u32, u32, Mark)>
    ensures { result ≡ decision_of line.now }
{
    let (run, rest) = short_at(line, b"decide ")?;
    let (place, rest) = short_at(rest, b" ")?;
    let mark = mark_of(rest)?;
    Some((run, place, mark))
}

// The run after a word, where nothing follows.
#[tactic(auto, unfolding(crate::specs::InsideLineKinds::run_of))]
fn run_of(line: &[u8], word: &[u8]) -> Option<u32>
    ensures { result ≡ run_of word.now line.now }
{
    let (run, rest) = short_at(line, word)?;
    if rest.is_empty() { Some(run) } else { None }
}

// The first field of a text, and what comes after the space that ends it, where there is one.
fn first_field(text: &[u8]) -> Option<(&[u8], &[u8])>
    ensures field { IfSome result (λ found. IsField found.0.now) }
    ensures whole { IfSome result (λ found. text.now ≡ found.0.now ++ 32 ∷ found.1.now) }
    ensures none { IfNone result (IsField text.now) }
{
    let end = memchr(b' ', text)?;
    Some((&text[..end], &text[end + 1..]))
}

// Whether no byte is below 33.
fn is_visible(field: &[u8]) -> bool
    ensures { result ≡ are_visible field.now }
{
    field.iter().all(|byte| *byte >= 33)
}

// The name that a field is.
fn name_of(alloc: Global, field: &[u8]) -> Result<Name, LineFault>
    ensures { NamesField field.now result }
{
    let Ok(name) = str::from_utf8(field) else {
        return Err(LineFault::Bad);
    };
    if field.is_empty() {
        return Err(LineFault::Bad);
    }
    if !is_visible(field) {
        return Err(LineFault::Bad);
    }
    Ok(Name::of(alloc, name)?)
}

// The names of a text, with one space between two.
fn names_of(alloc: Global, text: &[u8]) -> Result<Vec<Name>, LineFault>
    ensures ok { IfOk result (λ names. Spells text.now names.items) }
    ensures bad { IsErrOf result LineFault.Bad → (names : List (List ℕ)) → Spells text.now names → ⊥ }
{
    let mut names = Vec::new(alloc);
    let mut rest = text;
    while let Some((field, behind)) = first_field(rest) {
        let name = name_of(alloc, field)?;
        names.push(name)?;
        rest = behind;
    }
    let last = name_of(alloc, rest)?;
    names.push(last)?;
    Ok(names)
}

// A run to be entered: the names after its word.
fn entry_of(alloc: Global, text: &[u8]) -> Result<ScriptLine, LineFault>
    ensures { Reads (codes "enter " ++ text.now) result }
{
    let mut names = names_of(alloc, text)?;
    let report = names.remove(0);
    Ok(ScriptLine::Enter {
        report,
        layers: Listed::of(names),
    })
}

/// What a line asks for, without its end. `Bad`: it has none of the forms.
pub fn line_of(alloc: Global, line: &[u8]) -> Result<ScriptLine, LineFault>
    ensures { Reads line.now result }
{
    if let Some(names) = after(line, b"enter ") {
        return entry_of(alloc, names);
    }
    if let Some((run, place, mark)) = decision_of(line) {
        return Ok(ScriptLine::Decide { run, place, mark });
    }
    if let Some(run) = run_of(line, b"list ") {
        return Ok(ScriptLine::List { run });
    }
    match run_of(line, b"clear ") {
        Some(run) => Ok(ScriptLine::Clear { run }),
        None => Err(LineFault::Bad),
    }
}
