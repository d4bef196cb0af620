//! The lines of a report on sides of rings, each read into its numbers and words.

ghost use Rattle.std.specs.Prelude.{◌≡◌};
ghost use Rattle.text_fields.specs.Fields.{Gives};
ghost use Rattle.report_text.specs.InsideSideKinds.{side_count_of, ring_front, spot_front, way_front, side_front};
ghost use Rattle.report_text.specs.InsideSideKinds.{turn_of, point_of, side_change_of};

use ring_side::{Side, SideChange, Spot, Way};
use text_fields::{after, long_at, short_at};

/// The layer and the path of a ring.
#[derive(Clone, Copy)]
pub(crate) struct RingPlace {
    pub layer: u32,
    pub path: u32,
}

/// The number of changes of sides on its line.
#[tactic(auto, unfolding(crate::specs::InsideSideKinds::side_count_of))]
pub(crate) fn side_count_line(line: &[u8]) -> Option<u64>
    ensures { result ≡ side_count_of line.now }
{
    let (count, rest) = long_at(line, b"sides ")?;
    if rest.is_empty() { Some(count) } else { None }
}

#[tactic(auto, unfolding(crate::specs::InsideSideKinds::ring_front))]
fn ring_at(text: &[u8]) -> Option<(RingPlace, &[u8])>
    ensures { Gives (λ found. (found.0, found.1.now)) result (ring_front text.now) }
{
    let (layer, rest) = short_at(text, b"")?;
    let (path, rest) = short_at(rest, b"/")?;
    Some((RingPlace { layer, path }, rest))
}

#[tactic(auto, unfolding(crate::specs::InsideSideKinds::spot_front))]
fn spot_at(text: &[u8]) -> Option<(Spot, &[u8])>
    ensures { Gives (λ found. (found.0, found.1.now)) result (spot_front text.now) }
{
    let (layer, rest) = short_at(text, b"")?;
    let (path, rest) = short_at(rest, b"/")?;
    let (vertex, rest) = short_at(rest, b"/")?;
    Some((
        Spot {
            layer,
            path,
            vertex,
        },
        rest,
    ))
}

// The direction whose word comes after a space.
#[tactic(auto, unfolding(crate::specs::InsideSideKinds::way_front))]
fn way_at(text: &[u8]) -> Option<(Way, &[u8])>
    ensures { Gives (λ found. (found.0, found.1.now)) result (way_front text.now) }
{
    if let Some(rest) = after(text, b" positive") {
        return Some((Way::Positive, rest));
    }
    if let Some(rest) = after(text, b" negative") {
        return Some((Way::Negative, rest));
    }
    let rest = after(text, b" zero")?;
    Some((Way::Zero, rest))
}

// The side whose word comes after a space.
#[tactic(auto, unfolding(crate::specs::InsideSideKinds::side_front))]
fn side_at(text: &[u8]) -> Option<(Side, &[u8])>
    ensures { Gives (λ found. (found.0, found.1.now)) result (side_front text.now) }
{
    if let Some(rest) = after(text, b" inside") {
        return Some((Side::Inside, rest));
    }
    if let Some(rest) = after(text, b" border") {
        return Some((Side::Border, rest));
    }
    let rest = after(text, b" outside")?;
    Some((Side::Outside, rest))
}

#[tactic(auto, unfolding(crate::specs::InsideSideKinds::turn_of))]
fn turn_at(line: &[u8]) -> Option<SideChange>
    ensures { result ≡ turn_of line.now }
{
    let rest = after(line, b"turn ")?;
    let (ring, rest) = ring_at(rest)?;
    let (was, rest) = way_at(rest)?;
    let (now, rest) = way_at(rest)?;
    if was == now || !rest.is_empty() {
        return None;
    }
    Some(SideChange::Turn {
        layer: ring.layer,
        path: ring.path,
        was,
        now,
    })
}

#[tactic(auto, unfolding(crate::specs::InsideSideKinds::point_of))]
fn point_at(line: &[u8]) -> Option<SideChange>
    ensures { result ≡ point_of line.now }
{
    let rest = after(line, b"side ")?;
    let (ring, rest) = ring_at(rest)?;
    let rest = after(rest, b" ")?;
    let (at, rest) = spot_at(rest)?;
    let (was, rest) = side_at(rest)?;
    let (now, rest) = side_at(rest)?;
    if was == now || !rest.is_empty() {
        return None;
    }
    Some(SideChange::Point {
        layer: ring.layer,
        path: ring.path,
        at,
        was,
        now,
    })
}

/// The change of a side or a direction on a line.
pub(crate) fn side_change_line(line: &[u8]) -> Option<SideChange>
    ensures { result ≡ side_change_of line.now }
{
    match turn_at(line) {
        Some(change) => Some(change),
        None => point_at(line),
    }
}
