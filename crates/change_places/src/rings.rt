//! Properties of changes of sides of rings.

ghost use Rattle.std.specs.Prelude.{◌≡◌, ◌<◌, ◌≤◌, ◌+◌, ◌++◌, OnOk, OnErr, List, ℕ, length, codes, vec_len, vec_capacity};
ghost use Rattle.report_text.specs.ReportText.{ring_text, spot_text, way_word, side_word};
ghost use Rattle.change_places.specs.Words.{ring_layer, point_layer, texts_of, path_words, ring_words};
ghost use Rattle.change_places.specs.PlacesText.{was_word, now_word, ring_from, turned_text, place_properties};
ghost use Rattle.change_places.specs.PlacesText.{layer_name, null_properties, point_properties, no_path};
ghost use Rattle.change_places.specs.InsidePlaces.{word_codes};

use crate::keys::{KeyWord, Suffix, put_key, put_now, put_null, put_was};
use crate::properties::{layer_name, put_layer, put_path, texts_of};
use crate::spots::{PathSpot, RingSpot, Style};
use crate::texts::{put, put_number};
use ring_side::{Side, SideChange, Spot, Way};
use sheet_base::Listed;
use shelf_io::Name;
use std::alloc::AllocError;

// The word of a direction.
fn way_word(way: Way) -> &'static str
    ensures { result.now ≡ way_word way }
{
    match way {
        Way::Positive => "positive",
        Way::Negative => "negative",
        Way::Zero => "zero",
    }
}

// The word of a side.
fn side_word(side: Side) -> &'static str
    ensures { result.now ≡ side_word side }
{
    match side {
        Side::Inside => "inside",
        Side::Border => "border",
        Side::Outside => "outside",
    }
}

// The word of what was.
fn was_word(change: SideChange) -> &'static str
    ensures { result.now ≡ was_word change }
{
    match change {
        SideChange::Turn { was, .. } => way_word(was),
        SideChange::Point { was, .. } => side_word(was),
    }
}

// The word of what is.
fn now_word(change: SideChange) -> &'static str
    ensures { result.now ≡ now_word change }
{
    match change {
        SideChange::Turn { now, .. } => way_word(now),
        SideChange::Point { now, .. } => side_word(now),
    }
}

/// The layer of a ring.
pub(crate) fn ring_layer(change: SideChange) -> u32
    ensures { result ≡ ring_layer change }
{
    match change {
        SideChange::Turn { layer, .. } => layer,
        SideChange::Point { layer, .. } => layer,
    }
}

/// The layer of the point, or of the ring where there is none.
pub(crate) fn point_layer(change: SideChange) -> u32
    ensures { result ≡ point_layer change }
{
    match change {
        SideChange::Turn { layer, .. } => layer,
        SideChange::Point { at, .. } => at.layer,
    }
}

/// Adds the number of a change, what was, and what is.
#[tactic(auto, unfolding(crate::specs::PlacesText::turned_text))]
pub(crate) fn put_turned(
    out: &mut Vec<u8>,
    number: u64,
    change: SideChange,
) -> Result<(), AllocError>
    ensures text { OnOk result (out.new.items ≡ out.old.items ++ turned_text number change) }
    ensures capacity { vec_capacity out.old ≤ vec_capacity out.new }
    ensures full { OnErr result (vec_capacity out.old < vec_len out.old + length (turned_text number change)) }
{
    put(out, "\"side\":")?;
    put_number(out, number)?;
    put_was(out, was_word(change))?;
    put_now(out, now_word(change))?;
    Ok(())
}

// Adds the layer and path of a ring.
fn put_ring_from(out: &mut Vec<u8>, layer: u32, path: u32) -> Result<(), AllocError>
    ensures text { OnOk result (out.new.items ≡ out.old.items ++ ring_text layer path) }
    ensures capacity { vec_capacity out.old ≤ vec_capacity out.new }
    ensures full { OnErr result (vec_capacity out.old < vec_len out.old + length (ring_text layer path)) }
{
    put_number(out, u64::from(layer))?;
    put(out, "/")?;
    put_number(out, u64::from(path))?;
    Ok(())
}

// Adds the layer, the path and the vertex of a point.
fn put_point_from(out: &mut Vec<u8>, at: Spot) -> Result<(), AllocError>
    ensures text { OnOk result (out.new.items ≡ out.old.items ++ spot_text at) }
    ensures capacity { vec_capacity out.old ≤ vec_capacity out.new }
    ensures full { OnErr result (vec_capacity out.old < vec_len out.old + length (spot_text at)) }
{
    put_ring_from(out, at.layer, at.path)?;
    put(out, "/")?;
    put_number(out, u64::from(at.vertex))?;
    Ok(())
}

// Adds the properties of a ring.
#[tactic(auto, unfolding(crate::specs::PlacesText::place_properties, crate::specs::PlacesText::word_text))]
fn put_ring_of(
    out: &mut Vec<u8>,
    style: Style,
    layer: u32,
    path: u32,
    names: &[Name],
    texts: &[Listed<u8>],
    spot: PathSpot,
) -> Result<(), AllocError>
    ensures text { OnOk result (out.new.items
        ≡ out.old.items ++ place_properties style (codes "ring") (layer_name names.now layer) (ring_text layer path)
        (path_words (texts_of texts.now layer) spot)) }
    ensures capacity { vec_capacity out.old ≤ vec_capacity out.new }
    ensures full { OnErr result (vec_capacity out.old
        < vec_len out.old + length (place_properties style (codes "ring") (layer_name names.now layer) (ring_text layer path)
        (path_words (texts_of texts.now layer) spot))) }
{
    put_layer(out, KeyWord::Ring, layer_name(names, layer))?;
    put_key(out, KeyWord::Ring, Suffix::Bare)?;
    put(out, "\"")?;
    put_ring_from(out, layer, path)?;
    put(out, "\"")?;
    put_path(out, style, KeyWord::Ring, texts_of(texts, layer), spot)?;
    Ok(())
}

/// Adds the properties of the ring of a change.
pub(crate) fn put_ring(
    out: &mut Vec<u8>,
    style: Style,
    names: &[Name],
    texts: &[Listed<u8>],
    ring: RingSpot,
) -> Result<(), AllocError>
    ensures text { OnOk result (out.new.items
        ≡ out.old.items ++ place_properties style (codes "ring") (layer_name names.now (ring_layer ring.change)) (ring_from ring.change)
        (path_words (texts_of texts.now (ring_layer ring.change)) ring.ring)) }
    ensures capacity { vec_capacity out.old ≤ vec_capacity out.new }
    ensures full { OnErr result (vec_capacity out.old
        < vec_len out.old + length (place_properties style (codes "ring") (layer_name names.now (ring_layer ring.change))
        (ring_from ring.change)
        (path_words (texts_of texts.now (ring_layer ring.change)) ring.ring))) }
{
    match ring.change {
        SideChange::Turn { layer, path, .. } => put_ring_of(
            out, style, layer, path, names, texts, ring.ring,
        )?,
        SideChange::Point { layer, path, .. } => put_ring_of(
            out, style, layer, path, names, texts, ring.ring,
        )?,
    }
    Ok(())
}

// Adds the properties of a point.
#[tactic(auto, unfolding(crate::specs::PlacesText::place_properties, crate::specs::PlacesText::word_text))]
fn put_point_of(
    out: &mut Vec<u8>,
    style: Style,
    at: Spot,
    names: &[Name],
    texts: &[Listed<u8>],
    spot: PathSpot,
) -> Result<(), AllocError>
    ensures text { OnOk result (out.new.items
        ≡ out.old.items ++ place_properties style (codes "point") (layer_name names.now at.layer) (spot_text at)
        (path_words (texts_of texts.now at.layer) spot)) }
    ensures capacity { vec_capacity out.old ≤ vec_capacity out.new }
    ensures full { OnErr result (vec_capacity out.old
        < vec_len out.old + length (place_properties style (codes "point") (layer_name names.now at.layer) (spot_text at)
        (path_words (texts_of texts.now at.layer) spot))) }
{
    put_layer(out, KeyWord::Point, layer_name(names, at.layer))?;
    put_key(out, KeyWord::Point, Suffix::Bare)?;
    put(out, "\"")?;
    put_point_from(out, at)?;
    put(out, "\"")?;
    put_path(out, style, KeyWord::Point, texts_of(texts, at.layer), spot)?;
    Ok(())
}

// Where there is no path.
fn no_path() -> PathSpot
    ensures { (text : List ℕ) → path_words text result ≡ no_path }
{
    PathSpot {
        at: None,
        feature: None,
        id: None,
        name: None,
    }
}

// Adds properties that are null.
#[tactic(auto, unfolding(crate::specs::PlacesText::null_properties))]
fn put_nulls(out: &mut Vec<u8>, style: Style, word: KeyWord) -> Result<(), AllocError>
    ensures text { OnOk result (out.new.items ≡ out.old.items ++ null_properties style (word_codes word)) }
    ensures capacity { vec_capacity out.old ≤ vec_capacity out.new }
    ensures full { OnErr result (vec_capacity out.old < vec_len out.old + length (null_properties style (word_codes word))) }
{
    put_null(out, word, Suffix::Layer)?;
    put_null(out, word, Suffix::Bare)?;
    put_path(out, style, word, b"", no_path())?;
    Ok(())
}

/// Adds the properties of the point of a change.
pub(crate) fn put_point(
    out: &mut Vec<u8>,
    style: Style,
    names: &[Name],
    texts: &[Listed<u8>],
    ring: RingSpot,
) -> Result<(), AllocError>
    ensures text { OnOk result (out.new.items
        ≡ out.old.items ++ point_properties style names.now ring.change
        (path_words (texts_of texts.now (point_layer ring.change)) ring.point)) }
    ensures capacity { vec_capacity out.old ≤ vec_capacity out.new }
    ensures full { OnErr result (vec_capacity out.old
        < vec_len out.old + length (point_properties style names.now ring.change
        (path_words (texts_of texts.now (point_layer ring.change)) ring.point))) }
{
    match ring.change {
        SideChange::Turn { .. } => put_nulls(out, style, KeyWord::Point)?,
        SideChange::Point { at, .. } => put_point_of(out, style, at, names, texts, ring.point)?,
    }
    Ok(())
}
