//! The segments of a path.

ghost use Rattle.std.specs.Prelude.{◌≡◌, ◌+◌, ◌<◌, ◌≤◌, length, All};
ghost use Rattle.sheet_base.specs.PointHeights.{IsHeightWithinReach};
ghost use Rattle.sheet_base.specs.ReadBack.{height_ends_at};
ghost use Rattle.sheet_base.specs.Segments.{begin_of, end_of};

use plane_base::Pt;
use sheet_base::{Heights, PathRow};
use sheet_pieces::{EndHeights, end_heights, next_point};

/// A path and its number.
#[derive(Clone, Copy)]
pub(crate) struct NumberedPath {
    pub(crate) row: PathRow,
    pub(crate) path: u32,
}

/// A segment: its path's number and its own, its ends, and their heights.
#[derive(Clone, Copy)]
pub(crate) struct NumberedSegment {
    pub(crate) path: u32,
    pub(crate) number: u32,
    pub(crate) a: Pt,
    pub(crate) b: Pt,
    pub(crate) ends: EndHeights,
}

/// The path's segment of this number.
pub(crate) fn way_at(
    points: &[Pt],
    heights: &Heights,
    track: NumberedPath,
    number: u32,
) -> NumberedSegment
    requires in_path { track.row.first + number < track.row.past }
    requires in_range { track.row.past ≤ length points.now }
    requires reach { All IsHeightWithinReach heights.now }
    ensures path { result.path ≡ track.path }
    ensures number { result.number ≡ number }
    ensures a { result.a ≡ begin_of points.now track.row number }
    ensures b { result.b ≡ end_of points.now track.row number }
    ensures ends { record { from = result.ends.from; to = result.ends.to } ≡ height_ends_at heights.now track.row number }
    ensures from { IsHeightWithinReach result.ends.from }
    ensures to { IsHeightWithinReach result.ends.to }
{
    let begin = track.row.first + number;
    NumberedSegment {
        path: track.path,
        number,
        a: points[begin as usize],
        b: points[next_point(track.row, begin) as usize],
        ends: end_heights(heights, track.row, number),
    }
}
