//! Keys of the properties of features, each after a comma and with its colon.

ghost use Rattle.std.specs.Prelude.{◌≡◌, ◌<◌, ◌≤◌, ◌+◌, ◌++◌, OnOk, OnErr, length, vec_len, vec_capacity, codes};
ghost use Rattle.change_places.specs.PlacesText.{key_text, word_text, null_text, gap_text};
ghost use Rattle.change_places.specs.InsidePlaces.{word_codes, suffix_codes};

use crate::texts::{put, put_number};
use std::alloc::AllocError;

/// What the keys of a side, of a ring or of a point begin with.
#[derive(Clone, Copy)]
pub(crate) enum KeyWord {
    First,
    Second,
    Ring,
    Point,
}

/// What a key ends with.
#[derive(Clone, Copy)]
pub(crate) enum Suffix {
    Bare,
    Layer,
    At,
    Feature,
    Id,
    Name,
}

// A key.
#[tactic(auto, unfolding(crate::specs::PlacesText::key_text))]
fn key(word: KeyWord, suffix: Suffix) -> &'static str
    ensures { result.now ≡ key_text (word_codes word) (suffix_codes suffix) }
{
    match (word, suffix) {
        (KeyWord::First, Suffix::Bare) => ",\"first\":",
        (KeyWord::First, Suffix::Layer) => ",\"first_layer\":",
        (KeyWord::First, Suffix::At) => ",\"first_at\":",
        (KeyWord::First, Suffix::Feature) => ",\"first_feature\":",
        (KeyWord::First, Suffix::Id) => ",\"first_id\":",
        (KeyWord::First, Suffix::Name) => ",\"first_name\":",
        (KeyWord::Second, Suffix::Bare) => ",\"second\":",
        (KeyWord::Second, Suffix::Layer) => ",\"second_layer\":",
        (KeyWord::Second, Suffix::At) => ",\"second_at\":",
        (KeyWord::Second, Suffix::Feature) => ",\"second_feature\":",
        (KeyWord::Second, Suffix::Id) => ",\"second_id\":",
        (KeyWord::Second, Suffix::Name) => ",\"second_name\":",
        (KeyWord::Ring, Suffix::Bare) => ",\"ring\":",
        (KeyWord::Ring, Suffix::Layer) => ",\"ring_layer\":",
        (KeyWord::Ring, Suffix::At) => ",\"ring_at\":",
        (KeyWord::Ring, Suffix::Feature) => ",\"ring_feature\":",
        (KeyWord::Ring, Suffix::Id) => ",\"ring_id\":",
        (KeyWord::Ring, Suffix::Name) => ",\"ring_name\":",
        (KeyWord::Point, Suffix::Bare) => ",\"point\":",
        (KeyWord::Point, Suffix::Layer) => ",\"point_layer\":",
        (KeyWord::Point, Suffix::At) => ",\"point_at\":",
        (KeyWord::Point, Suffix::Feature) => ",\"point_feature\":",
        (KeyWord::Point, Suffix::Id) => ",\"point_id\":",
        (KeyWord::Point, Suffix::Name) => ",\"point_name\":",
    }
}

/// Adds a key.
pub(crate) fn put_key(out: &mut Vec<u8>, word: KeyWord, suffix: Suffix) -> Result<(), AllocError>
    ensures text { OnOk result (out.new.items ≡ out.old.items ++ key_text (word_codes word) (suffix_codes suffix)) }
    ensures capacity { vec_capacity out.old ≤ vec_capacity out.new }
    ensures full { OnErr result (vec_capacity out.old < vec_len out.old + length (key_text (word_codes word) (suffix_codes suffix))) }
{
    put(out, key(word, suffix))?;
    Ok(())
}

/// Adds a property that is null.
#[tactic(auto, unfolding(crate::specs::PlacesText::null_text))]
pub(crate) fn put_null(out: &mut Vec<u8>, word: KeyWord, suffix: Suffix) -> Result<(), AllocError>
    ensures text { OnOk result (out.new.items ≡ out.old.items ++ null_text (word_codes word) (suffix_codes suffix)) }
    ensures capacity { vec_capacity out.old ≤ vec_capacity out.new }
    ensures full { OnErr result (vec_capacity out.old < vec_len out.old + length (null_text (word_codes word) (suffix_codes suffix))) }
{
    put_key(out, word, suffix)?;
    put(out, "null")?;
    Ok(())
}

/// Adds the word of what was.
#[tactic(auto, unfolding(crate::specs::PlacesText::word_text, crate::specs::PlacesText::key_text))]
pub(crate) fn put_was(out: &mut Vec<u8>, value: &str) -> Result<(), AllocError>
    ensures text { OnOk result (out.new.items ≡ out.old.items ++ word_text (codes "was") value.now) }
    ensures capacity { vec_capacity out.old ≤ vec_capacity out.new }
    ensures full { OnErr result (vec_capacity out.old < vec_len out.old + length (word_text (codes "was") value.now)) }
{
    put(out, ",\"was\":\"")?;
    put(out, value)?;
    put(out, "\"")?;
    Ok(())
}

/// Adds the word of what is.
#[tactic(auto, unfolding(crate::specs::PlacesText::word_text, crate::specs::PlacesText::key_text))]
pub(crate) fn put_now(out: &mut Vec<u8>, value: &str) -> Result<(), AllocError>
    ensures text { OnOk result (out.new.items ≡ out.old.items ++ word_text (codes "now") value.now) }
    ensures capacity { vec_capacity out.old ≤ vec_capacity out.new }
    ensures full { OnErr result (vec_capacity out.old < vec_len out.old + length (word_text (codes "now") value.now)) }
{
    put(out, ",\"now\":\"")?;
    put(out, value)?;
    put(out, "\"")?;
    Ok(())
}

/// Adds the gap.
#[tactic(auto, unfolding(crate::specs::PlacesText::gap_text, crate::specs::PlacesText::key_text))]
pub(crate) fn put_gap(out: &mut Vec<u8>, gap: u64) -> Result<(), AllocError>
    ensures text { OnOk result (out.new.items ≡ out.old.items ++ gap_text gap) }
    ensures capacity { vec_capacity out.old ≤ vec_capacity out.new }
    ensures full { OnErr result (vec_capacity out.old < vec_len out.old + length (gap_text gap)) }
{
    put(out, ",\"gap_mm\":")?;
    put_number(out, gap)?;
    Ok(())
}
