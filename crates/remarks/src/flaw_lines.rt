//! What standard error says of the words of a command line that are refused: which one, and what is wrong with it.

ghost use Rattle.std.specs.Prelude.{◌≡◌, ◌++◌, IfOk, OnOk, codes, string_bytes, option_copied};
ghost use Rattle.remarks.specs.FlawLines.{before_word_of, behind_word_of};
ghost use Rattle.remarks.specs.FlawLines.{flaw_cure_of, word_lines_of};
ghost use Rattle.remarks.specs.declared.flaw_lines.WordFlaw.TheVariants.{Refused};

use crate::refusal_tables::{words_cure, words_finding};
use crate::remark_lines::put_second_line;
use job_words::WordsFault;
use shown_text::put_shown;
use std::alloc::{AllocError, Global};

/// What is wrong with a word.
#[derive(Clone, Copy, PartialEq, Eq)]
pub enum WordFlaw {
    /// There is no word.
    NoMode,
    /// It is in the place of the mode, and is not a mode.
    Mode,
    /// It is no option of the mode.
    Unknown,
    /// This option is there twice.
    Twice,
    /// This option has no value.
    NoValue,
    /// This option or word is missing.
    Missing,
    /// It is one word too many.
    TooMany,
    /// It is refused for this.
    Refused(WordsFault),
}

/// What is in front of the word.
fn before_word(flaw: WordFlaw) -> &'static str
    ensures { result.now ≡ before_word_of flaw }
{
    match flaw {
        WordFlaw::NoMode =>
            "a mode is missing: the first word is to be migrate, check, make, verify or heights",
        WordFlaw::NoValue => "the value is missing behind '",
        WordFlaw::Mode
        | WordFlaw::Unknown
        | WordFlaw::Twice
        | WordFlaw::Missing
        | WordFlaw::TooMany
        | WordFlaw::Refused(_) => "'",
    }
}

/// Puts why the word is refused.
fn put_finding(text: &mut String, fault: WordsFault) -> Result<(), AllocError>
    ensures { OnOk result (string_bytes text.new ≡ string_bytes text.old ++ behind_word_of (Refused fault)) }
{
    text.push_str("': ")?;
    text.push_str(words_finding(fault))?;
    Ok(())
}

/// Puts what is after the word.
fn put_behind(text: &mut String, flaw: WordFlaw) -> Result<(), AllocError>
    ensures { OnOk result (string_bytes text.new ≡ string_bytes text.old ++ behind_word_of flaw) }
{
    match flaw {
        WordFlaw::NoMode => Ok(()),
        WordFlaw::Mode => text.push_str(
            "' is no mode: the first word is to be migrate, check, make, verify or heights",
        ),
        WordFlaw::Unknown => text.push_str("' is no option of this mode"),
        WordFlaw::Twice => text.push_str("' is there twice"),
        WordFlaw::NoValue => text.push_str("'"),
        WordFlaw::Missing => text.push_str("' is missing"),
        WordFlaw::TooMany => text.push_str("' is one word too many"),
        WordFlaw::Refused(fault) => put_finding(text, fault),
    }
}

/// What helps, where something is known that does.
fn flaw_cure(flaw: WordFlaw) -> Option<&'static str>
    ensures { option_copied result ≡ flaw_cure_of flaw }
{
    match flaw {
        WordFlaw::Refused(fault) => words_cure(fault),
        WordFlaw::NoMode
        | WordFlaw::Mode
        | WordFlaw::Unknown
        | WordFlaw::Twice
        | WordFlaw::NoValue
        | WordFlaw::Missing
        | WordFlaw::TooMany => None,
    }
}

/// The lines for standard error that say what is wrong with this word, as it is shown, and what helps; of words that ask
/// for files, which `has_outputs` says, also that nothing was written. Where there is no word at all, `word` is empty.
pub fn word_lines(
    alloc: Global,
    flaw: WordFlaw,
    word: &str,
    has_outputs: bool,
) -> Result<String, AllocError>
    ensures { IfOk result (λ text. string_bytes text ≡ word_lines_of flaw word.now has_outputs) }
{
    let mut text = String::new(alloc);
    text.push_str("tinmove: ")?;
    text.push_str(before_word(flaw))?;
    put_shown(&mut text, word)?;
    put_behind(&mut text, flaw)?;
    text.push_str("\n")?;
    put_second_line(&mut text, flaw_cure(flaw), has_outputs)?;
    Ok(text)
}
