//! Which word of a command line that is refused is wrong or missing.

ghost use Rattle.std.specs.Prelude.{◌≡◌, map, option_copied, string_bytes, IfOk};
ghost use Rattle.std.specs.Option.{option_map};
ghost use Rattle.run_notes.specs.WordFlaws.{finding, layer_name, missing, refused_word, value_in, value_of, word_at};
ghost use Rattle.run_notes.specs.WordFlaws.{IsFound, IsFoundIn};
ghost use Rattle.run_notes.specs.InsideWordFlaws.{flaw_in, form_in, use_in, uses_in};

use crate::word_forms::{WordForm, form_of, places_form};
use crate::word_uses::{Flaw, Reading, Use, is_used, plain_count, read};
use job_words::{MOST_LAYERS, Which, WordsFault};
use remarks::WordFlaw;
use std::alloc::{AllocError, Global};

/// What is missing, where nothing else is wrong.
fn missing(form: &WordForm, uses: &[Use]) -> Option<&'static str>
    ensures { option_copied result ≡ missing (form_in form.now) (uses_in uses.now) }
{
    for option in form.valued {
        if !is_used(uses, option.0) {
            return Some(option.1);
        }
    }
    if plain_count(uses) == 0 {
        form.word
    } else {
        None
    }
}

/// The value of the use, where it is of the option with this name.
fn value_in<'a>(one: &Use<'a>, name: &str) -> Option<&'a str>
    ensures { option_copied result ≡ value_in name.now (use_in one.now) }
{
    match one {
        Use::InOneWord(other, value) => { if *other == name { Some(*value) } else { None } }
        Use::InTwoWords(other, value) => { if *other == name { Some(*value) } else { None } }
        Use::Flag(_) | Use::Plain(_) | Use::End => None,
    }
}

/// The value of the option with this name.
fn value_of<'a>(uses: &[Use<'a>], name: &str) -> &'a str
    ensures { result.now ≡ value_of name.now (uses_in uses.now) }
{
    for one in uses {
        if let Some(value) = value_in(one, name) {
            return value;
        }
    }
    ""
}

/// The plain word of this number.
fn word_at<'a>(uses: &[Use<'a>], number: usize) -> &'a str
    ensures { result.now ≡ word_at number (uses_in uses.now) }
{
    let mut left = number;
    for one in uses {
        if let Use::Plain(word) = one {
            if left == 0 {
                return *word;
            }
            left -= 1;
        }
    }
    ""
}

/// The name of the layer of this number: a plain word, or, where there is none, the value of `--source`.
fn layer_name<'a>(uses: &[Use<'a>], layer: usize) -> &'a str
    ensures { result.now ≡ layer_name layer (uses_in uses.now) }
{
    if plain_count(uses) == 0 {
        value_of(uses, "--source")
    } else {
        word_at(uses, layer)
    }
}

/// The word for which words of these uses are refused.
fn refused_word<'a>(uses: &[Use<'a>], fault: WordsFault) -> &'a str
    ensures { result.now ≡ refused_word fault (uses_in uses.now) }
{
    match fault {
        WordsFault::Name { which } => match which {
            Which::Tin => value_of(uses, "--tin"),
            Which::Out => value_of(uses, "--out"),
            Which::Source => value_of(uses, "--source"),
            Which::Written => value_of(uses, "--written"),
            Which::Certificate => value_of(uses, "--cert"),
            Which::Layer(layer) => word_at(uses, layer as usize),
        },
        WordsFault::Suffix { layer } => layer_name(uses, layer as usize),
        WordsFault::SameName { layer } => word_at(uses, layer as usize),
        WordsFault::Many => word_at(uses, MOST_LAYERS as usize),
        _ => word_at(uses, 0),
    }
}

/// What is said of the words of these uses and this flaw, where they are refused for this fault.
fn finding<'a>(form: &WordForm, reading: &Reading<'a>, fault: WordsFault) -> Option<Flaw<'a>>
    ensures { option_map flaw_in result
        ≡ finding (form_in form.now) fault (uses_in reading.now.uses.items) (option_map flaw_in reading.now.flaw) }
{
    match fault {
        WordsFault::Parse => match reading.flaw {
            Some(flaw) => Some(flaw),
            None => match missing(form, &reading.uses) {
                Some(wanted) => Some((WordFlaw::Missing, wanted)),
                None => None,
            },
        },
        _ => Some((WordFlaw::Refused(fault), refused_word(&reading.uses, fault))),
    }
}

/// What is wrong with which word of this form, or which is missing, where words are refused for this fault.
fn found_in<'a>(
    alloc: Global,
    form: &WordForm,
    words: &'a [String],
    fault: WordsFault,
) -> Result<Option<Flaw<'a>>, AllocError>
    ensures { IfOk result (λ found. IsFoundIn (form_in form.now) (map string_bytes words.entry.now) fault (option_map flaw_in found)) }
{
    let reading = read(alloc, form, words)?;
    Ok(finding(form, &reading, fault))
}

/// What is wrong with which word, or which is missing, where words are refused for this: words of `tinmove`, whose
/// first one is to be a mode, or words of `tinplaces`, which has no modes. None where that is not found.
pub fn flaw_of<'a>(
    alloc: Global,
    words: &'a [String],
    has_modes: bool,
    fault: WordsFault,
) -> Result<Option<(WordFlaw, &'a str)>, AllocError>
    ensures { IfOk result (λ found. IsFound has_modes (map string_bytes words.entry.now) fault
        (option_map (λ flaw. (flaw.0, flaw.1.now)) found)) }
{
    if !has_modes {
        return found_in(alloc, &places_form(), words, fault);
    }
    let Some((mode, behind)) = words.split_first() else {
        return Ok(Some((WordFlaw::NoMode, "")));
    };
    match form_of(mode.as_str()) {
        Some(form) => found_in(alloc, &form, behind, fault),
        None => Ok(Some((WordFlaw::Mode, mode.as_str()))),
    }
}
