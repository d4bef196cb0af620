//! The rounded image of a point of a triangle, and that of a point of a side.

ghost use Rattle.std.specs.Prelude.{◌≡◌, ◌<◌, length};
ghost use Rattle.plane_base.specs.Plane.{whole};
ghost use Rattle.plane_base.specs.Slices.{IsParam};
ghost use Rattle.tin_base.specs.declared.frames.Frame.TheVariants.{Source, Target};
ghost use Rattle.tin_base.specs.Triangulation.{IsInTriangle};
ghost use Rattle.affine_image.specs.RoundedImages.{rounded_point, IsRoundedImage};
ghost use Rattle.affine_image.specs.Cuts.{cut_of};

use crate::mixes::mix_corners;
use crate::weights::{weights_at, weights_between};
use frac128::Frac;
use plane_base::{Pt, Tri};
use tin_base::{Frame, SoundTin};

/// The image of a point of a source triangle, in millimetres, rounded half up on each axis: one affine map per
/// triangle, as PROJ's tinshift has it.
pub fn image_of(tin: &SoundTin, tri: u32, p: Pt) -> Pt
    requires in_range { tri < length tin.now.triangles }
    requires inside { IsInTriangle tin.now Source tri (whole p) }
    ensures { IsRoundedImage tin.now p result }
{
    mix_corners(
        weights_at(&tin.tri(tri, Frame::Source), p),
        &tin.tri(tri, Frame::Target),
    )
}

/// The point at `s`, from 0 to 1, on the segment from the target place of corner `p` to that of corner `q`, in
/// millimetres, rounded half up on each axis.
pub fn image_cut(tin: &SoundTin, p: u32, q: u32, s: Frac) -> Pt
    requires p_in_range { p < length tin.now.corners }
    requires q_in_range { q < length tin.now.corners }
    requires between { IsParam s.num s.den }
    ensures { result ≡ rounded_point (cut_of tin.now Target p q s.num s.den) }
{
    let from = tin.place(p, Frame::Target);
    let to = tin.place(q, Frame::Target);
    let edge = Tri {
        a: from,
        b: to,
        c: from,
    };
    mix_corners(weights_between(s), &edge)
}
