//! Properties of features.

ghost use Rattle.std.specs.Prelude.{◌≡◌, ◌<◌, ◌≤◌, ◌+◌, ◌++◌, OnOk, OnErr, length, vec_len, vec_capacity, decimal, codes, ◌∷◌, [], Option};
ghost use Rattle.std.specs.List.{concat};
ghost use Rattle.std.specs.Option.{option_map};
ghost use Rattle.report_text.specs.ReportText.{place_text, relation_word, ring_text, spot_text, way_word, side_word};
ghost use Rattle.layer_features.specs.Laws.{part_text};
ghost use Rattle.change_places.specs.Words.{texts_of, label_words, path_words, side_words, change_words};
ghost use Rattle.change_places.specs.PlacesText.{layer_name, label_text, copied_text, layer_text, from_text, named_text};
ghost use Rattle.change_places.specs.PlacesText.{path_text, side_text, change_text};
ghost use Rattle.change_places.specs.InsidePlaces.{word_codes};

use crate::keys::{KeyWord, Suffix, put_gap, put_key, put_now, put_was};
use crate::spots::{ChangeSpot, PathSpot, SideSpot, Style};
use crate::texts::{put, put_at, put_bytes, put_number, put_shown};
use layer_features::{Label, TextPart};
use sheet_base::{Listed, between};
use shelf_io::Name;
use std::alloc::AllocError;
use tin_base::{Place, Rel};

/// The name of the layer of this number, or no text where there is none.
pub(crate) fn layer_name(names: &[Name], layer: u32) -> &str
    ensures { result.now ≡ layer_name names.now layer }
{
    match names.get(layer as usize) {
        Some(name) => name.text(),
        None => "",
    }
}

/// The texts of the layer of this number, or none where there is none.
pub(crate) fn texts_of(texts: &[Listed<u8>], layer: u32) -> &[u8]
    ensures { result.now ≡ texts_of texts.now layer }
{
    match texts.get(layer as usize) {
        Some(own) => own.items(),
        None => b"",
    }
}

// The bytes of a part.
fn part_text(text: &[u8], part: TextPart) -> &[u8]
    ensures { result.now ≡ part_text text.now part }
{
    between(text, part.start as usize, part.past as usize)
}

// The word of a relation.
fn word_of(relation: Rel) -> &'static str
    ensures { result.now ≡ relation_word relation }
{
    match relation {
        Rel::Apart => "apart",
        Rel::Touching => "touching",
        Rel::Crossing => "crossing",
        Rel::Overlapping => "overlapping",
    }
}

// Adds a handle between quotation marks.
fn put_handle(out: &mut Vec<u8>, text: &[u8], part: TextPart) -> Result<(), AllocError>
    ensures text { OnOk result (out.new.items ≡ out.old.items ++ concat (codes "\"" ∷ part_text text.now part ∷ codes "\"" ∷ [])) }
    ensures capacity { vec_capacity out.old ≤ vec_capacity out.new }
    ensures full { OnErr result (vec_capacity out.old
        < vec_len out.old + length (concat (codes "\"" ∷ part_text text.now part ∷ codes "\"" ∷ []))) }
{
    put(out, "\"")?;
    put_bytes(out, part_text(text, part))?;
    put(out, "\"")?;
    Ok(())
}

// Adds what a feature is called.
fn put_label(out: &mut Vec<u8>, text: &[u8], label: Option<Label>) -> Result<(), AllocError>
    ensures text { OnOk result (out.new.items ≡ out.old.items ++ label_text (option_map (label_words text.now) label)) }
    ensures capacity { vec_capacity out.old ≤ vec_capacity out.new }
    ensures full { OnErr result (vec_capacity out.old < vec_len out.old + length (label_text (option_map (label_words text.now) label))) }
{
    match label {
        Some(Label::Number { number }) => put_number(out, u64::from(number))?,
        Some(Label::Handle { part }) => put_handle(out, text, part)?,
        None => put(out, "null")?,
    }
    Ok(())
}

// Adds a text that is copied as it is.
fn put_copied(out: &mut Vec<u8>, text: &[u8], part: Option<TextPart>) -> Result<(), AllocError>
    ensures text { OnOk result (out.new.items ≡ out.old.items ++ copied_text (option_map (part_text text.now) part)) }
    ensures capacity { vec_capacity out.old ≤ vec_capacity out.new }
    ensures full { OnErr result (vec_capacity out.old < vec_len out.old + length (copied_text (option_map (part_text text.now) part))) }
{
    match part {
        Some(part) => put_bytes(out, part_text(text, part))?,
        None => put(out, "null")?,
    }
    Ok(())
}

/// Adds the name of a layer with its key.
#[tactic(auto, unfolding(crate::specs::PlacesText::layer_text))]
pub(crate) fn put_layer(out: &mut Vec<u8>, word: KeyWord, name: &str) -> Result<(), AllocError>
    ensures text { OnOk result (out.new.items ≡ out.old.items ++ layer_text (word_codes word) name.now) }
    ensures capacity { vec_capacity out.old ≤ vec_capacity out.new }
    ensures full { OnErr result (vec_capacity out.old < vec_len out.old + length (layer_text (word_codes word) name.now)) }
{
    put_key(out, word, Suffix::Layer)?;
    put_shown(out, name)?;
    Ok(())
}

// Adds where a piece comes from.
fn put_place(out: &mut Vec<u8>, place: Place) -> Result<(), AllocError>
    ensures text { OnOk result (out.new.items ≡ out.old.items ++ place_text place) }
    ensures capacity { vec_capacity out.old ≤ vec_capacity out.new }
    ensures full { OnErr result (vec_capacity out.old < vec_len out.old + length (place_text place)) }
{
    put_number(out, u64::from(place.layer))?;
    put(out, "/")?;
    put_number(out, u64::from(place.path))?;
    put(out, "/")?;
    put_number(out, u64::from(place.segment))?;
    put(out, "/")?;
    put_number(out, u64::from(place.piece))?;
    Ok(())
}

// Adds where a piece comes from with its key.
#[tactic(auto, unfolding(crate::specs::PlacesText::from_text))]
fn put_from(out: &mut Vec<u8>, word: KeyWord, from: Place) -> Result<(), AllocError>
    ensures text { OnOk result (out.new.items ≡ out.old.items ++ from_text (word_codes word) from) }
    ensures capacity { vec_capacity out.old ≤ vec_capacity out.new }
    ensures full { OnErr result (vec_capacity out.old < vec_len out.old + length (from_text (word_codes word) from)) }
{
    put_key(out, word, Suffix::Bare)?;
    put(out, "\"")?;
    put_place(out, from)?;
    put(out, "\"")?;
    Ok(())
}

// Adds the member of the properties of the feature, where one is asked for.
#[tactic(auto, unfolding(crate::specs::PlacesText::named_text))]
fn put_named(
    out: &mut Vec<u8>,
    named: bool,
    word: KeyWord,
    text: &[u8],
    part: Option<TextPart>,
) -> Result<(), AllocError>
    ensures text { OnOk result (out.new.items ≡ out.old.items ++ named_text named (word_codes word)
        (option_map (part_text text.now) part)) }
    ensures capacity { vec_capacity out.old ≤ vec_capacity out.new }
    ensures full { OnErr result (vec_capacity out.old
        < vec_len out.old + length (named_text named (word_codes word) (option_map (part_text text.now) part))) }
{
    if named {
        put_key(out, word, Suffix::Name)?;
        put_copied(out, text, part)?;
    }
    Ok(())
}

/// Adds where a path begins, and its feature.
#[tactic(auto, unfolding(crate::specs::PlacesText::path_text))]
pub(crate) fn put_path(
    out: &mut Vec<u8>,
    style: Style,
    word: KeyWord,
    text: &[u8],
    spot: PathSpot,
) -> Result<(), AllocError>
    ensures text { OnOk result (out.new.items ≡ out.old.items ++ path_text style (word_codes word) (path_words text.now spot)) }
    ensures capacity { vec_capacity out.old ≤ vec_capacity out.new }
    ensures full { OnErr result (vec_capacity out.old < vec_len out.old + length
        (path_text style (word_codes word) (path_words text.now spot))) }
{
    put_key(out, word, Suffix::At)?;
    put_at(out, spot.at)?;
    put_key(out, word, Suffix::Feature)?;
    put_label(out, text, spot.feature)?;
    put_key(out, word, Suffix::Id)?;
    put_copied(out, text, spot.id)?;
    put_named(out, style.named, word, text, spot.name)?;
    Ok(())
}

/// Adds the properties of one side of a change.
#[tactic(auto, unfolding(crate::specs::PlacesText::side_text))]
pub(crate) fn put_side(
    out: &mut Vec<u8>,
    style: Style,
    word: KeyWord,
    names: &[Name],
    texts: &[Listed<u8>],
    side: SideSpot,
) -> Result<(), AllocError>
    ensures text { OnOk result (out.new.items ≡ out.old.items ++ side_text style (word_codes word) names.now (side_words texts.now side)) }
    ensures capacity { vec_capacity out.old ≤ vec_capacity out.new }
    ensures full { OnErr result (vec_capacity out.old
        < vec_len out.old + length (side_text style (word_codes word) names.now (side_words texts.now side))) }
{
    let layer = side.from.layer;
    put_layer(out, word, layer_name(names, layer))?;
    put_from(out, word, side.from)?;
    put_path(out, style, word, texts_of(texts, layer), side.spot)?;
    Ok(())
}

/// Adds the number, the relations and the gap of a change.
#[tactic(auto, unfolding(crate::specs::PlacesText::change_text))]
pub(crate) fn put_change(
    out: &mut Vec<u8>,
    number: u64,
    texts: &[Listed<u8>],
    change: ChangeSpot,
) -> Result<(), AllocError>
    ensures text { OnOk result (out.new.items ≡ out.old.items ++ change_text number (change_words texts.now change)) }
    ensures capacity { vec_capacity out.old ≤ vec_capacity out.new }
    ensures full { OnErr result (vec_capacity out.old < vec_len out.old + length (change_text number (change_words texts.now change))) }
{
    let _ = texts;
    put(out, "\"change\":")?;
    put_number(out, number)?;
    put_was(out, word_of(change.was))?;
    put_now(out, word_of(change.now))?;
    put_gap(out, change.gap)?;
    Ok(())
}
