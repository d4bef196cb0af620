//! The heights of a segment's ends, and the height of a point between them where both have one.

ghost use Rattle.std.specs.Prelude.{◌≡◌, ◌+◌, ◌<◌, All};
ghost use Rattle.plane_base.specs.Slices.{IsParam};
ghost use Rattle.sheet_base.specs.PointHeights.{IsHeightWithinReach};
ghost use Rattle.sheet_base.specs.ReadBack.{height_ends_at};
ghost use Rattle.sheet_pieces.specs.SpotHeights.{param_height};

use crate::counts::next_point;
use affine_image::height_at;
use frac128::Frac;
use sheet_base::{Heights, PathRow};

/// The heights of a segment's ends in millimetres: of each its height, or none.
#[derive(Clone, Copy, Debug)]
pub struct EndHeights {
    pub from: Option<i64>,
    pub to: Option<i64>,
}

/// The height of the point at `s`, from 0 to 1, between the ends of a segment, where both ends have one.
pub fn height_between(ends: EndHeights, s: Frac) -> Option<i64>
    requires from { IsHeightWithinReach ends.from }
    requires to { IsHeightWithinReach ends.to }
    requires between { IsParam s.num s.den }
    ensures { result ≡ param_height ends.from ends.to s }
{
    match (ends.from, ends.to) {
        (Some(from), Some(to)) => Some(height_at(from, to, s)),
        _ => None,
    }
}

/// The heights of the ends of the path's segment of this number, by those of the points of all paths.
pub fn end_heights(heights: &Heights, row: PathRow, number: u32) -> EndHeights
    requires in_path { row.first + number < row.past }
    requires reach { All IsHeightWithinReach heights.now }
    ensures ends { record { from = result.from; to = result.to } ≡ height_ends_at heights.now row number }
    ensures from { IsHeightWithinReach result.from }
    ensures to { IsHeightWithinReach result.to }
{
    let begin = row.first + number;
    let from = heights.at(begin as usize);
    let to = heights.at(next_point(row, begin) as usize);
    EndHeights { from, to }
}
