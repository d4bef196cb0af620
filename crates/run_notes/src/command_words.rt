//! The words of a command line, and those that replace them where one is no text.

ghost use Rattle.std.specs.Prelude.{◌≡◌, ◌∷◌, [], IfOk, IsFalse, IsTrue, drop, map, string_bytes};
ghost use Rattle.std.specs.Vec.Iter.{into_iter_items};
ghost use Rattle.run_notes.specs.Substitutes.{AreSubstitutes};

use crate::warnings::say_bad_word;
use std::alloc::{AllocError, Global};
use std::env;
use std::env::{Args, Env};
use std::io::ErrorKind;
use std::str::from_utf8;

/// What neither program takes, in the place of words that are no text.
pub const NO_WORD: &str = "--not-utf8";

/// How many bytes the longest word of a mode has.
const MODE_BYTES: usize = 7;

/// The words of a command line, without the program's name.
#[derive(Drop)]
pub struct Words {
    pub words: Vec<String>,
    /// Whether they are those of the command line, and not such as are refused in place of words that are no text.
    pub are_given: bool,
}

/// How the words of a program are used.
#[derive(Clone, Copy)]
pub struct Usage<'a> {
    /// What is printed of it, without the last line feed.
    pub text: &'a str,
    /// Whether the first word is to be a mode of `tinmove`. Else the words are those of `tinplaces`.
    pub has_modes: bool,
}

/// This word, and after it one that no mode takes.
fn with_no_word(alloc: Global, first: &str) -> Result<Vec<String>, AllocError>
    ensures { IfOk result (λ words. map string_bytes words.items ≡ first.now ∷ NO_WORD.now ∷ []) }
{
    let mut words = Vec::new(alloc);
    words.push(String::from_str(alloc, first)?)?;
    words.push(String::from_str(alloc, NO_WORD)?)?;
    Ok(words)
}

/// Words that are refused in place of those that are no text: the same mode, then one that it does not understand.
fn no_words<R: Env>(rt: &R, alloc: Global) -> Result<Vec<String>, AllocError>
    ensures { IfOk result (λ words. AreSubstitutes (map string_bytes words.items)) }
{
    let mut buf = [0u8; MODE_BYTES];
    let Ok(count) = rt.arg(1, &mut buf) else {
        return with_no_word(alloc, "");
    };
    match from_utf8(&buf[..count]) {
        Ok(mode) => with_no_word(alloc, mode),
        Err(_) => with_no_word(alloc, ""),
    }
}

/// What takes the place of words that are no text.
fn substitute_words<R: Env>(rt: &R, alloc: Global) -> Result<Words, AllocError>
    ensures mark { IfOk result (λ found. IsFalse found.are_given) }
    ensures words { IfOk result (λ found. AreSubstitutes (map string_bytes found.words.items)) }
{
    Ok(Words {
        words: no_words(rt, alloc)?,
        are_given: false,
    })
}

/// The words after the first, which is the program's name.
fn given_words(alloc: Global, mut args: Args) -> Result<Words, AllocError>
    ensures mark { IfOk result (λ found. IsTrue found.are_given) }
    ensures words { IfOk result (λ found. found.words.items ≡ drop 1 (into_iter_items args)) }
{
    let _ = args.next();
    Ok(Words {
        words: args.collect(alloc)?,
        are_given: true,
    })
}

/// The words of the command line. Where one of them is no text, it is named on standard error, and words are handed out
/// that are refused. The error is that memory ran out.
pub fn words_of<R: Env + Eprint + AllocGlobal>(rt: &R) -> Result<Words, AllocError>
    ensures { IfOk result (λ found. IsFalse found.are_given → AreSubstitutes (map string_bytes found.words.items)) }
{
    match env::args(rt) {
        Ok(args) => given_words(rt.alloc(), args),
        Err(fault) if fault.kind() == ErrorKind::OutOfMemory => Err(AllocError),
        Err(_) => {
            say_bad_word(rt);
            substitute_words(rt, rt.alloc())
        }
    }
}
