//! The kinds of lines of a report's text, each read into its numbers and names.

ghost use Rattle.std.specs.Prelude.{◌≡◌, Bool};
ghost use Rattle.text_fields.specs.Fields.{Gives};
ghost use Rattle.report_text.specs.InsideLineKinds.{tin_of, layer_of, layer_named, row_front, tin_named};
ghost use Rattle.report_text.specs.InsideLineKinds.{is_line_of_extents, count_of};
ghost use Rattle.report_text.specs.InsideLineKinds.{place_front};
ghost use Rattle.report_text.specs.InsideLineKinds.{relation_front, change_of};

use crate::fields::name_at;
use text_fields::{after, long_at, short_at};
use tin_base::{Change, Place, Rel};

/// The numbers of a triangulation's line.
#[derive(Clone, Copy)]
pub(crate) struct TinCounts {
    pub corners: u32,
    pub triangles: u32,
    pub inexact: u64,
}

/// The numbers of a layer's line.
#[derive(Clone, Copy)]
pub(crate) struct LayerCounts {
    pub paths: u32,
    pub segments: u32,
    pub pieces: u32,
    pub inexact: u64,
    pub dropped: u64,
}

/// The numbers and the name of the triangulation's line, which are the same whether sides are stated or not.
#[tactic(auto, unfolding(crate::specs::InsideLineKinds::tin_of))]
pub(crate) fn tin_line(line: &[u8]) -> Option<(TinCounts, &str)>
    ensures { (sided : Bool) → Gives (λ found. tin_named sided found.0 found.1.now) result (tin_of sided line.now) }
{
    let (corners, rest) = short_at(line, b"triangulation corners ")?;
    let (triangles, rest) = short_at(rest, b" triangles ")?;
    let (inexact, rest) = long_at(rest, b" inexact ")?;
    let name = name_at(rest)?;
    Some((
        TinCounts {
            corners,
            triangles,
            inexact,
        },
        name,
    ))
}

/// The numbers and the name on the line of the layer of this number.
#[tactic(auto, unfolding(crate::specs::InsideLineKinds::layer_of))]
pub(crate) fn layer_line(number: u64, line: &[u8]) -> Option<(LayerCounts, &str)>
    ensures { Gives (λ found. layer_named found.0 found.1.now) result (layer_of number line.now) }
{
    let (found, rest) = long_at(line, b"layer ")?;
    if found == number { row_at(rest) } else { None }
}

// The numbers and the name after the number of a layer.
#[tactic(auto, unfolding(crate::specs::InsideLineKinds::row_front))]
fn row_at(text: &[u8]) -> Option<(LayerCounts, &str)>
    ensures { Gives (λ found. layer_named found.0 found.1.now) result (row_front text.now) }
{
    let (paths, rest) = short_at(text, b" paths ")?;
    let (segments, rest) = short_at(rest, b" segments ")?;
    let (pieces, rest) = short_at(rest, b" pieces ")?;
    let (inexact, rest) = long_at(rest, b" inexact ")?;
    let (dropped, rest) = long_at(rest, b" dropped ")?;
    let name = name_at(rest)?;
    Some((
        LayerCounts {
            paths,
            segments,
            pieces,
            inexact,
            dropped,
        },
        name,
    ))
}

/// Whether it is the line on the extents of the layer of this number.
#[tactic(auto, unfolding(crate::specs::InsideLineKinds::is_line_of_extents))]
pub(crate) fn is_extents(number: u64, line: &[u8]) -> bool
    ensures { result ≡ is_line_of_extents number line.now }
{
    match long_at(line, b"extents ") {
        Some((found, rest)) => found == number && rest == b" as they were".as_slice(),
        None => false,
    }
}

/// The number of changes on its line.
#[tactic(auto, unfolding(crate::specs::InsideLineKinds::count_of))]
pub(crate) fn count_line(line: &[u8]) -> Option<u64>
    ensures { result ≡ count_of line.now }
{
    let (count, rest) = long_at(line, b"changes ")?;
    if rest.is_empty() { Some(count) } else { None }
}

#[tactic(auto, unfolding(crate::specs::InsideLineKinds::place_front))]
fn place_at(text: &[u8]) -> Option<(Place, &[u8])>
    ensures { Gives (λ found. (found.0, found.1.now)) result (place_front text.now) }
{
    let (layer, rest) = short_at(text, b"")?;
    let (path, rest) = short_at(rest, b"/")?;
    let (segment, rest) = short_at(rest, b"/")?;
    let (piece, rest) = short_at(rest, b"/")?;
    Some((
        Place {
            layer,
            path,
            segment,
            piece,
        },
        rest,
    ))
}

// The relation whose word comes after a space.
#[tactic(auto, unfolding(crate::specs::InsideLineKinds::relation_front))]
fn relation_at(text: &[u8]) -> Option<(Rel, &[u8])>
    ensures { Gives (λ found. (found.0, found.1.now)) result (relation_front text.now) }
{
    if let Some(rest) = after(text, b" apart") {
        return Some((Rel::Apart, rest));
    }
    if let Some(rest) = after(text, b" touching") {
        return Some((Rel::Touching, rest));
    }
    if let Some(rest) = after(text, b" crossing") {
        return Some((Rel::Crossing, rest));
    }
    let rest = after(text, b" overlapping")?;
    Some((Rel::Overlapping, rest))
}

/// The change of a line.
#[tactic(auto, unfolding(crate::specs::InsideLineKinds::change_of))]
pub(crate) fn change_line(line: &[u8]) -> Option<Change>
    ensures { result ≡ change_of line.now }
{
    let rest = after(line, b"change ")?;
    let (first, rest) = place_at(rest)?;
    let rest = after(rest, b" ")?;
    let (second, rest) = place_at(rest)?;
    let (was, rest) = relation_at(rest)?;
    let (now, rest) = relation_at(rest)?;
    if was == now || !rest.is_empty() {
        return None;
    }
    Some(Change {
        first,
        second,
        was,
        now,
    })
}
