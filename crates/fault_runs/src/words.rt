//! The words of the command line as those of a check.

ghost use Rattle.std.specs.Prelude.{◌≡◌, ◌≢◌, ◌++◌, ◌∷◌, [], not, IfOk, IfErr, OnOk, map, string_bytes};
ghost use Rattle.std.specs.List.{filter, list_any};
ghost use Rattle.std.specs.Str.{bytes_eq};
ghost use Rattle.job_words.specs.declared.faults.WordsFault.TheVariants.{NoMemory as NoRoom};
ghost use Rattle.fault_runs.specs.Words.{is_faults, is_lines, is_own, asks_for_faults, check_words, AsksFaults, LacksFaults};

use job_words::{Job, WordsFault, read_words};
use sheet_base::How;
use shelf_io::Name;
use std::alloc::{AllocError, Global};

/// A triangulation whose faults are wanted.
#[derive(Drop)]
pub struct Wanted {
    /// The name of the triangulation's file.
    pub tin: Name,
    /// How it is read.
    pub how: How,
    /// The outlines of triangles are drawn, and not a corner.
    pub lines: bool,
}

// Whether the word asks for faults.
fn is_faults(word: &str) -> bool
    ensures { result ≡ is_faults word.now }
{
    word == "--faults"
}

// Whether the word asks for lines.
fn is_lines(word: &str) -> bool
    ensures { result ≡ is_lines word.now }
{
    word == "--lines"
}

// Whether the word says what is printed, and nothing of the check.
fn is_own(word: &str) -> bool
    ensures { result ≡ is_own word.now }
{
    is_faults(word) || is_lines(word)
}

// Whether this word is one of the words.
fn has_word(words: &[String], wanted: &str) -> bool
    ensures { result ≡ list_any (λ word. bytes_eq (string_bytes word) wanted.now) words.now }
{
    words.iter().any(|word| word.as_str() == wanted)
}

/// Whether the words ask for the faults of a triangulation.
pub fn asks_for_faults(words: &[String]) -> bool
    ensures { result ≡ asks_for_faults (map string_bytes words.now) }
{
    has_word(words, "--faults")
}

// Puts the word after the others, unless it says what is printed.
fn add_word(alloc: Global, all: &mut Vec<String>, word: &str) -> Result<(), AllocError>
    ensures { OnOk result (map string_bytes all.new.items
        ≡ map string_bytes all.old.items ++ filter (λ one. not (is_own one)) (word.now ∷ [])) }
{
    if !is_own(word) {
        all.push(String::from_str(alloc, word)?)?;
    }
    Ok(())
}

/// The words of `tinmove` that check the triangulation: the mode, and then those of these words that say something of
/// the check.
pub fn check_words(alloc: Global, words: &[String]) -> Result<Vec<String>, AllocError>
    ensures { IfOk result (λ all. map string_bytes all.items ≡ check_words (map string_bytes words.now)) }
{
    let mut all = Vec::with_capacity(alloc, words.len() + 1)?;
    all.push(String::from_str(alloc, "check")?)?;
    for word in words {
        add_word(alloc, &mut all, word.as_str())?;
    }
    Ok(all)
}

/// The triangulation whose faults the words ask for, or their first fault.
pub fn read_wanted(alloc: Global, words: &[String]) -> Result<Wanted, WordsFault>
    ensures asks { IfOk result (λ wanted. AsksFaults (map string_bytes words.now) wanted) }
    ensures refused { IfErr result (λ fault. fault ≢ NoRoom → LacksFaults (map string_bytes words.now) fault) }
{
    let Ok(all) = check_words(alloc, words) else {
        return Err(WordsFault::NoMemory);
    };
    match read_words(alloc, &all) {
        Ok(Job::Check { tin, how }) => Ok(Wanted {
            tin,
            how,
            lines: has_word(words, "--lines"),
        }),
        Ok(Job::Migrate { .. }) => unreachable!(),
        Ok(Job::Make { .. }) => unreachable!(),
        Ok(Job::Verify { .. }) => unreachable!(),
        Ok(Job::Heights { .. }) => unreachable!(),
        Err(fault) => Err(fault),
    }
}
