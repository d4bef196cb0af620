//! The images of a vertex and of the crossings after it with their heights, by the list of a segment.

ghost use Rattle.std.specs.Prelude.{◌≡◌, ◌+◌, ◌<◌, ◌^◌, length, vec_len, IfOk, OnOk};
ghost use Rattle.sheet_base.specs.PointHeights.{IsHeightWithinReach};
ghost use Rattle.tin_base.specs.Segments.{IsInside};
ghost use Rattle.cert_check.specs.RightLists.{IsRightList};
ghost use Rattle.cert_check.specs.InsideSheetLists.{HasPart, IsEndBehind, IsRunBehind, IsTriangleWith};

use crate::parts::stretch_in;
use crate::path_segments::NumberedSegment;
use affine_image::{end_image, image_of};
use plane_base::Pt;
use sheet_base::Heights;
use sheet_pieces::height_between;
use std::alloc::AllocError;
use tin_base::SoundTin;

/// Appends the image of the last point of a triangle's part, and its height.
fn push_end(
    tin: &SoundTin,
    triangle: u32,
    way: NumberedSegment,
    points: &mut Vec<Pt>,
    heights: &mut Heights,
) -> Result<(), AllocError>
    requires inside { IsInside tin.now way.a way.b }
    requires part { HasPart tin.now way.a way.b triangle }
    requires from { IsHeightWithinReach way.ends.from }
    requires to { IsHeightWithinReach way.ends.to }
    requires few { length heights.old < 2 ^ 32 }
    ensures { OnOk result (IsEndBehind tin.now way.a way.b (record { from = way.ends.from; to = way.ends.to })
        triangle points.old.items points.new.items heights.old heights.new) }
{
    tin.show_soundness();
    if let Some(stretch) = stretch_in(tin, triangle, way.a, way.b) {
        points.push(end_image(tin, triangle, way.a, way.b, stretch))?;
        heights.push(height_between(way.ends, stretch.hi))?;
    }
    Ok(())
}

/// Appends the image of a segment's first end and those of the ends of all its parts but the last, with their heights.
/// Answers the triangle of the last part, which has the segment's last end.
pub(crate) fn push_run(
    tin: &SoundTin,
    way: NumberedSegment,
    numbers: &[u32],
    points: &mut Vec<Pt>,
    heights: &mut Heights,
) -> Result<u32, AllocError>
    requires right { IsRightList tin.now way.a way.b numbers.now }
    requires from { IsHeightWithinReach way.ends.from }
    requires to { IsHeightWithinReach way.ends.to }
    requires few { length heights.old + length numbers.now < 2 ^ 32 }
    ensures run { OnOk result (IsRunBehind tin.now way.a way.b (record { from = way.ends.from; to = way.ends.to })
        points.old.items points.new.items heights.old heights.new) }
    ensures count { OnOk result (vec_len points.new ≡ vec_len points.old + length numbers.now) }
    ensures last { IfOk result (λ triangle. IsTriangleWith tin.now triangle way.b) }
{
    tin.show_soundness();
    let [front @ .., last] = numbers else {
        return Ok(0);
    };
    points.push(image_of(tin, numbers[0], way.a))?;
    heights.push(way.ends.from)?;
    for triangle in front {
        push_end(tin, *triangle, way, points, heights)?;
    }
    Ok(*last)
}
