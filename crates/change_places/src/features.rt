//! The text of changes on the map: GeoJSON with a feature for each change. Each call adds a part of the text. An error
//! means that there was no room for it, so a part that was added once is added again without memory.

ghost use Rattle.std.specs.Prelude.{◌≡◌, ◌<◌, ◌≤◌, ◌+◌, ◌++◌, OnOk, OnErr, length, vec_len, vec_capacity};
ghost use Rattle.change_places.specs.Words.{change_words, ring_words};
ghost use Rattle.change_places.specs.PlacesText.{opening_text, end_text, separator_text, feature_text, ring_feature_text};
ghost use Rattle.change_places.specs.PlacesText.{change_entry, ring_entry};

use crate::geometries::{put_geometry, put_spot};
use crate::keys::KeyWord;
use crate::properties::{put_change, put_side};
use crate::rings::{put_point, put_ring, put_turned};
use crate::spots::{ChangeSpot, RingSpot, Style};
use crate::texts::{put, put_names};
use sheet_base::Listed;
use shelf_io::Name;
use std::alloc::AllocError;

/// Adds the opening, with the names of the layers.
#[tactic(auto, unfolding(crate::specs::PlacesText::opening_text))]
pub fn put_opening(out: &mut Vec<u8>, names: &[Name]) -> Result<(), AllocError>
    ensures text { OnOk result (out.new.items ≡ out.old.items ++ opening_text names.now) }
    ensures capacity { vec_capacity out.old ≤ vec_capacity out.new }
    ensures full { OnErr result (vec_capacity out.old < vec_len out.old + length (opening_text names.now)) }
{
    put(
        out,
        "{\"type\":\"FeatureCollection\",\"crs\":null,\"layers\":[",
    )?;
    put_names(out, names)?;
    put(out, "],\"features\":[")?;
    Ok(())
}

// Adds the change of this number.
#[tactic(auto, unfolding(crate::specs::PlacesText::feature_text))]
fn put_change_feature(
    out: &mut Vec<u8>,
    style: Style,
    names: &[Name],
    texts: &[Listed<u8>],
    number: u64,
    change: ChangeSpot,
) -> Result<(), AllocError>
    ensures text { OnOk result (out.new.items ≡ out.old.items ++ feature_text style names.now number (change_words texts.now change)) }
    ensures capacity { vec_capacity out.old ≤ vec_capacity out.new }
    ensures full { OnErr result (vec_capacity out.old
        < vec_len out.old + length (feature_text style names.now number (change_words texts.now change))) }
{
    put(out, "{\"type\":\"Feature\",\"geometry\":")?;
    put_geometry(out, style, texts, change)?;
    put(out, ",\"properties\":{")?;
    put_change(out, number, texts, change)?;
    put_side(out, style, KeyWord::First, names, texts, change.first)?;
    put_side(out, style, KeyWord::Second, names, texts, change.second)?;
    put(out, "}}")?;
    Ok(())
}

// The mark before a feature that this number of others precede.
fn separator(before: u64) -> &'static str
    ensures { result.now ≡ separator_text before }
{
    if before == 0 { "\n" } else { ",\n" }
}

/// Adds the change of this number, from 0, and the mark before it: a feature at the place of the change or, where
/// lines are wanted, of the two written segments, in metres with three digits. It says which change it is, how far the
/// segments are from each other, where each comes from, and which feature it belongs to. `names` and `texts` are the names
/// of the layers and the texts that are kept of them.
#[tactic(auto, unfolding(crate::specs::PlacesText::change_entry))]
pub fn put_feature(
    out: &mut Vec<u8>,
    style: Style,
    names: &[Name],
    texts: &[Listed<u8>],
    number: u64,
    change: ChangeSpot,
) -> Result<(), AllocError>
    ensures text { OnOk result (out.new.items ≡ out.old.items ++ change_entry style names.now number (change_words texts.now change)) }
    ensures capacity { vec_capacity out.old ≤ vec_capacity out.new }
    ensures full { OnErr result (vec_capacity out.old
        < vec_len out.old + length (change_entry style names.now number (change_words texts.now change))) }
{
    put(out, separator(number))?;
    put_change_feature(out, style, names, texts, number, change)?;
    Ok(())
}

// Adds the change of a side of this number.
#[tactic(auto, unfolding(crate::specs::PlacesText::ring_feature_text))]
fn put_ring_feature(
    out: &mut Vec<u8>,
    style: Style,
    names: &[Name],
    texts: &[Listed<u8>],
    number: u64,
    ring: RingSpot,
) -> Result<(), AllocError>
    ensures text { OnOk result (out.new.items ≡ out.old.items ++ ring_feature_text style names.now number (ring_words texts.now ring)) }
    ensures capacity { vec_capacity out.old ≤ vec_capacity out.new }
    ensures full { OnErr result (vec_capacity out.old
        < vec_len out.old + length (ring_feature_text style names.now number (ring_words texts.now ring))) }
{
    put(out, "{\"type\":\"Feature\",\"geometry\":")?;
    put_spot(out, style, ring.place)?;
    put(out, ",\"properties\":{")?;
    put_turned(out, number, ring.change)?;
    put_ring(out, style, names, texts, ring)?;
    put_point(out, style, names, texts, ring)?;
    put(out, "}}")?;
    Ok(())
}

// The mark before a feature that these numbers of changes and of changes of sides precede.
fn separator_behind(changes: u64, number: u64) -> &'static str
    ensures { result.now ≡ separator_text (changes + number) }
{
    if number == 0 {
        separator(changes)
    } else {
        separator(number)
    }
}

/// Adds the change of a side of a ring of this number, from 0, after this number of changes, and the mark before it. It is
/// a feature at the place of the change or, where lines are wanted, a line of two equal positions there.
#[tactic(auto, unfolding(crate::specs::PlacesText::ring_entry))]
pub fn put_ring_entry(
    out: &mut Vec<u8>,
    style: Style,
    names: &[Name],
    texts: &[Listed<u8>],
    changes: u64,
    number: u64,
    ring: RingSpot,
) -> Result<(), AllocError>
    ensures text { OnOk result (out.new.items ≡ out.old.items ++ ring_entry style names.now changes number (ring_words texts.now ring)) }
    ensures capacity { vec_capacity out.old ≤ vec_capacity out.new }
    ensures full { OnErr result (vec_capacity out.old
        < vec_len out.old + length (ring_entry style names.now changes number (ring_words texts.now ring))) }
{
    put(out, separator_behind(changes, number))?;
    put_ring_feature(out, style, names, texts, number, ring)?;
    Ok(())
}

/// Adds the end.
#[tactic(auto, unfolding(crate::specs::PlacesText::end_text))]
pub fn put_end(out: &mut Vec<u8>) -> Result<(), AllocError>
    ensures text { OnOk result (out.new.items ≡ out.old.items ++ end_text) }
    ensures capacity { vec_capacity out.old ≤ vec_capacity out.new }
    ensures full { OnErr result (vec_capacity out.old < vec_len out.old + length (end_text)) }
{
    put(out, "]}\n")?;
    Ok(())
}
