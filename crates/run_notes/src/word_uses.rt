//! The words of a command line, use by use, up to their first flaw.

ghost use Rattle.std.specs.Prelude.{◌≡◌, ◌≢◌, ◌∷◌, false, true, codes, count_by, map, string_bytes, IfOk};
ghost use Rattle.std.specs.List.{list_any};
ghost use Rattle.std.specs.Option.{option_map};
ghost use Rattle.std.specs.Str.{bytes_eq};
ghost use Rattle.run_notes.specs.WordUses.{begins_as_option, has_end, is_end, is_flag, is_full, is_of, is_plain};
ghost use Rattle.run_notes.specs.WordUses.{is_plain_behind, is_used, takes_value};
ghost use Rattle.run_notes.specs.WordFlaws.{IsReading};
ghost use Rattle.run_notes.specs.InsideWordFlaws.{flaw_in, form_in, use_in, uses_in, GoesOn, IsKind, UsesOnce};

use crate::word_forms::WordForm;
use remarks::WordFlaw;
use std::alloc::{AllocError, Global};

/// A flaw, and the word that is named with it.
pub(crate) type Flaw<'a> = (WordFlaw, &'a str);

/// One word, or two, as a form uses them.
#[derive(Clone, Copy)]
pub(crate) enum Use<'a> {
    /// An option without a value.
    Flag(&'a str),
    /// An option and its value with `=` between them, in one word.
    InOneWord(&'a str, &'a str),
    /// An option and its value, in two words.
    InTwoWords(&'a str, &'a str),
    /// A word that is no option.
    Plain(&'a str),
    /// `--`, after which each word is plain.
    End,
}

/// What a word is, where no `--` is before it.
enum WordKind<'a> {
    /// `--`.
    End,
    /// An option without a value.
    Flag,
    /// An option and its value.
    InOneWord(&'a str, &'a str),
    /// An option that takes a value, which is not in the same word.
    Valued,
    /// It begins as an option does, and is none of the form.
    Unknown,
    /// No option.
    Plain,
}

/// Whether the word begins as an option does.
fn begins_as_option(word: &str) -> bool
    ensures { result ≡ begins_as_option word.now }
{
    word != "-" && word.starts_with('-')
}

/// Whether one of these options has this name.
fn has_name(options: &[(&str, &str)], name: &str) -> bool
    ensures { result ≡ list_any (λ option. bytes_eq option.0.now name.now) options.now }
{
    options.iter().any(|option| option.0 == name)
}

/// Whether the name is one of these.
fn is_among(names: &[&str], name: &str) -> bool
    ensures { result ≡ list_any (λ other. bytes_eq other.now name.now) names.now }
{
    names.iter().any(|other| *other == name)
}

/// Whether an option of the form that takes a value has this name.
fn takes_value(form: &WordForm, name: &str) -> bool
    ensures { result ≡ takes_value (form_in form.now) name.now }
{
    has_name(form.valued, name) || is_among(form.optional, name)
}

/// Whether an option of the form without a value has this name.
fn is_flag(form: &WordForm, name: &str) -> bool
    ensures { result ≡ is_flag (form_in form.now) name.now }
{
    is_among(form.flags, name)
}

/// What the word is, which begins as an option does, and is neither `--` nor an option as it is written.
fn joined_kind<'a>(form: &WordForm, word: &'a str) -> WordKind<'a>
    requires begins { begins_as_option word.now ≡ true }
    requires not_end { word.now ≢ codes "--" }
    requires no_flag { is_flag (form_in form.now) word.now ≡ false }
    requires no_value { takes_value (form_in form.now) word.now ≡ false }
    ensures { IsKind (form_in form.now) word.entry.now result }
{
    match word.split_once('=') {
        Some((name, value)) => {
            if takes_value(form, name) {
                WordKind::InOneWord(name, value)
            } else {
                WordKind::Unknown
            }
        }
        None => WordKind::Unknown,
    }
}

/// What the word is.
fn kind_of<'a>(form: &WordForm, word: &'a str) -> WordKind<'a>
    ensures { IsKind (form_in form.now) word.entry.now result }
{
    if word == "--" {
        return WordKind::End;
    }
    if !begins_as_option(word) {
        return WordKind::Plain;
    }
    if is_flag(form, word) {
        return WordKind::Flag;
    }
    if takes_value(form, word) {
        return WordKind::Valued;
    }
    joined_kind(form, word)
}

/// Whether the use is of the option with this name.
fn is_of(one: &Use, name: &str) -> bool
    ensures { result ≡ is_of name.now (use_in one.now) }
{
    match one {
        Use::Flag(other) => *other == name,
        Use::InOneWord(other, _) => *other == name,
        Use::InTwoWords(other, _) => *other == name,
        Use::Plain(_) | Use::End => false,
    }
}

/// Whether one of the uses is of the option with this name.
pub(crate) fn is_used(uses: &[Use], name: &str) -> bool
    ensures { result ≡ is_used name.now (uses_in uses.now) }
{
    for one in uses {
        if is_of(one, name) {
            return true;
        }
    }
    false
}

/// Whether the use is a plain word.
fn is_plain(one: &Use) -> bool
    ensures { result ≡ is_plain (use_in one.now) }
{
    match one {
        Use::Plain(_) => true,
        _ => false,
    }
}

/// Whether the use is `--`.
fn is_end(one: &Use) -> bool
    ensures { result ≡ is_end (use_in one.now) }
{
    match one {
        Use::End => true,
        _ => false,
    }
}

/// How many of the uses are plain words.
pub(crate) fn plain_count(uses: &[Use]) -> usize
    ensures { result ≡ count_by (λ one. is_plain (use_in one)) uses.now }
{
    uses.iter().filter(|one| is_plain(one)).count()
}

/// Whether there are as many plain words as the form takes.
fn is_full(form: &WordForm, uses: &[Use]) -> bool
    ensures { result ≡ is_full (form_in form.now) (uses_in uses.now) }
{
    match form.most_words {
        Some(most) => plain_count(uses) >= most,
        None => false,
    }
}

/// A use and the words after it, or a flaw.
type Next<'a> = Result<(Use<'a>, &'a [String]), Flaw<'a>>;

/// The use of a word that is plain where it is, after these uses.
fn plain_use<'a>(form: &WordForm, before: &[Use], word: &'a str, behind: &'a [String]) -> Next<'a>
    requires { is_plain_behind (uses_in before.now) word.now ≡ true }
    ensures { GoesOn (form_in form.now) (uses_in before.now) (word.entry.now ∷ map string_bytes behind.entry.now) result }
{
    if is_full(form, before) {
        Err((WordFlaw::TooMany, word))
    } else {
        Ok((Use::Plain(word), behind))
    }
}

/// The use of an option that takes a value, which is in the next word, after these uses.
fn valued_use<'a>(form: &WordForm, before: &[Use], name: &'a str, behind: &'a [String]) -> Next<'a>
    requires before_end { has_end (uses_in before.now) ≡ false }
    requires valued { takes_value (form_in form.now) name.now ≡ true }
    ensures { GoesOn (form_in form.now) (uses_in before.now) (name.entry.now ∷ map string_bytes behind.entry.now) result }
{
    if is_used(before, name) {
        return Err((WordFlaw::Twice, name));
    }
    match behind.split_first() {
        Some((value, rest)) => {
            if begins_as_option(value.as_str()) {
                Err((WordFlaw::NoValue, name))
            } else {
                Ok((Use::InTwoWords(name, value.as_str()), rest))
            }
        }
        None => Err((WordFlaw::NoValue, name)),
    }
}

/// The use of a flag, or of an option with its value in the same word, after these uses.
fn option_use<'a>(before: &[Use], name: &'a str, next: Use<'a>, behind: &'a [String]) -> Next<'a>
    ensures { UsesOnce (uses_in before.now) name.entry.now next.entry behind.entry.now result }
{
    if is_used(before, name) {
        Err((WordFlaw::Twice, name))
    } else {
        Ok((next, behind))
    }
}

/// The use with which the words go on after these uses, none of which is `--`.
fn use_before_end<'a>(
    form: &WordForm,
    before: &[Use],
    word: &'a str,
    behind: &'a [String],
) -> Next<'a>
    requires { has_end (uses_in before.now) ≡ false }
    ensures { GoesOn (form_in form.now) (uses_in before.now) (word.entry.now ∷ map string_bytes behind.entry.now) result }
{
    match kind_of(form, word) {
        WordKind::End => Ok((Use::End, behind)),
        WordKind::Flag => option_use(before, word, Use::Flag(word), behind),
        WordKind::InOneWord(name, value) => option_use(
            before,
            name,
            Use::InOneWord(name, value),
            behind,
        ),
        WordKind::Valued => valued_use(form, before, word, behind),
        WordKind::Unknown => Err((WordFlaw::Unknown, word)),
        WordKind::Plain => plain_use(form, before, word, behind),
    }
}

/// The use with which the words go on after these uses. `is_ended` says whether one of them is `--`.
fn next_use<'a>(
    form: &WordForm,
    before: &[Use],
    is_ended: bool,
    word: &'a str,
    behind: &'a [String],
) -> Next<'a>
    requires { is_ended ≡ has_end (uses_in before.now) }
    ensures { GoesOn (form_in form.now) (uses_in before.now) (word.entry.now ∷ map string_bytes behind.entry.now) result }
{
    if is_ended {
        plain_use(form, before, word, behind)
    } else {
        use_before_end(form, before, word, behind)
    }
}

/// The uses of words, up to their first flaw.
#[derive(Drop)]
pub(crate) struct Reading<'a> {
    pub(crate) uses: Vec<Use<'a>>,
    pub(crate) flaw: Option<Flaw<'a>>,
}

/// What the words are, use by use.
pub(crate) fn read<'a>(
    alloc: Global,
    form: &WordForm,
    words: &'a [String],
) -> Result<Reading<'a>, AllocError>
    ensures { IfOk result (λ reading. IsReading (form_in form.now) (map string_bytes words.entry.now)
        (uses_in reading.uses.items) (option_map flaw_in reading.flaw)) }
{
    let mut uses = Vec::new(alloc);
    let mut is_ended = false;
    let mut rest = words;
    while let Some((word, behind)) = rest.split_first() {
        match next_use(form, &uses, is_ended, word.as_str(), behind) {
            Ok((next, left)) => {
                is_ended = is_ended || is_end(&next);
                uses.push(next)?;
                rest = left;
            }
            Err(flaw) => {
                return Ok(Reading {
                    uses,
                    flaw: Some(flaw),
                });
            }
        }
    }
    Ok(Reading { uses, flaw: None })
}
