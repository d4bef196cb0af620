//! The image of the last point of a part: of the segment's end, or of a crossing with a side.

ghost use Rattle.std.specs.Prelude.{◌≡◌, ◌≢◌, ◌<◌, ℤ, pos, ◌*ℤ◌, length};
ghost use Rattle.plane_base.specs.Plane.{whole, turn_of, along, IsNearAll};
ghost use Rattle.plane_base.specs.declared.shapes.Pt.{Pt};
ghost use Rattle.tin_base.specs.Slices.{spot_of, IsSliceIn, AreNearTriangle};
ghost use Rattle.tin_base.specs.declared.frames.Frame.TheVariants.{Source};
ghost use Rattle.tin_base.specs.Limits.{IsWithinLimits};
ghost use Rattle.tin_base.specs.Segments.{spot_at};
ghost use Rattle.tin_base.specs.Triangulation.{place, corner_at};
ghost use Rattle.affine_image.specs.RoundedImages.{IsRoundedImageAt};
ghost use Rattle.affine_image.specs.InsideSides.{corner_number, next_corner};

use crate::{image_cut, image_of};
use frac128::Frac;
use plane_base::{End, Pt, Stretch, edge_param};
use tin_base::{Frame, SoundTin};

/// A side of a triangle, by the numbers of the corners at its ends.
#[derive(Clone, Copy)]
struct SideCorners {
    from: u32,
    to: u32,
}

fn side_of(tin: &SoundTin, triangle: u32, side: u8) -> SideCorners
    requires in_range { triangle < length tin.now.triangles }
    requires below { side < 3 }
    ensures from { result.from ≡ corner_number tin.now triangle side }
    ensures to { result.to ≡ corner_number tin.now triangle (next_corner side) }
    ensures from_in_range { result.from < length tin.now.corners }
    ensures to_in_range { result.to < length tin.now.corners }
{
    let [first, second, third] = tin.triangles()[triangle as usize];
    match side {
        0 => SideCorners {
            from: first,
            to: second,
        },
        1 => SideCorners {
            from: second,
            to: third,
        },
        _ => SideCorners {
            from: third,
            to: first,
        },
    }
}

/// The parameter, from a side's first corner to its second, of the point at which the line through `a` and `b` meets
/// the line of the side, in the source.
fn side_param(tin: &SoundTin, a: Pt, b: Pt, side: SideCorners) -> Frac
    requires from_in_range { side.from < length tin.now.corners }
    requires to_in_range { side.to < length tin.now.corners }
    requires near_from { (p : Pt) → whole p ≡ place Source (corner_at tin.now side.from) → IsNearAll a b p }
    requires near_to { (p : Pt) → whole p ≡ place Source (corner_at tin.now side.to) → IsNearAll a b p }
    requires differ { turn_of (whole a) (whole b) (place Source (corner_at tin.now side.from))
        ≢ turn_of (whole a) (whole b) (place Source (corner_at tin.now side.to)) }
    ensures meets { turn_of (whole a) (whole b)
        (along (place Source (corner_at tin.now side.from)) (place Source (corner_at tin.now side.to)) result.num
        result.den) ≡ pos 0 }
    ensures once { (n d : ℤ) → turn_of (whole a) (whole b)
        (along (place Source (corner_at tin.now side.from)) (place Source (corner_at tin.now side.to)) n d) ≡ pos 0
        → n *ℤ result.den ≡ result.num *ℤ d }
{
    edge_param(
        a,
        b,
        tin.place(side.from, Frame::Source),
        tin.place(side.to, Frame::Source),
    )
}

/// The image, in millimetres of the target frame, of the last point of a segment's part in a triangle: of the segment's
/// end, or of the point on the side at which the part leaves the triangle.
pub fn end_image(tin: &SoundTin, triangle: u32, a: Pt, b: Pt, part: Stretch) -> Pt
    requires in_range { triangle < length tin.now.triangles }
    requires slice { IsSliceIn tin.now a b triangle part }
    requires near { AreNearTriangle tin.now a b triangle }
    requires limits { IsWithinLimits tin.now }
    ensures { IsRoundedImageAt tin.now (spot_at a b (spot_of part.hi)) result }
{
    match part.leave {
        End::Vertex => image_of(tin, triangle, b),
        End::Side(number) => {
            let side = side_of(tin, triangle, number);
            image_cut(tin, side.from, side.to, side_param(tin, a, b, side))
        }
    }
}
