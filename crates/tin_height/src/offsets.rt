//! The vertical offset at a point of a source triangle: the mix of those of its corners.

ghost use Rattle.std.specs.Prelude.{◌≡◌, ◌≤◌, ◌<◌, ◌*◌, ◌^◌, pos, ◌+ℤ◌, ◌*ℤ◌, ◌<ℤ◌, unsigned_abs, length};
ghost use Rattle.frac128.specs.Rounding.{half_up_of};
ghost use Rattle.frac128.specs.Sizes.{IsSmall};
ghost use Rattle.mm_decimal.specs.declared.limits.TheConstants.{LIMIT};
ghost use Rattle.plane_base.specs.Plane.{whole, turn_of, IsNearAll, holds_of};
ghost use Rattle.tin_base.specs.declared.frames.Frame.TheVariants.{Source};
ghost use Rattle.tin_base.specs.Triangulation.{IsInTriangle};
ghost use Rattle.tin_height.specs.Offsets.{IsRoundedOffset, AreOffsets};
ghost use Rattle.tin_height.specs.InsideOffsets.{mixed_by_turns};

use frac128::half_up;
use plane_base::{Pt, Tri, turn};
use tin_base::{Frame, SoundTin};

// A share of an offset: 128 bits hold it.
fn share(weight: i128, offset: i64) -> i128
    requires weight { IsSmall weight }
    requires offset { unsigned_abs offset ≤ 2 * LIMIT }
    ensures value { result ≡ weight *ℤ offset }
    ensures size { unsigned_abs result < 2 ^ 114 }
{
    weight * i128::from(offset)
}

// Three shares together.
fn together(a: i128, b: i128, c: i128) -> i128
    requires a { unsigned_abs a < 2 ^ 114 }
    requires b { unsigned_abs b < 2 ^ 114 }
    requires c { unsigned_abs c < 2 ^ 114 }
    ensures value { result ≡ a +ℤ b +ℤ c }
    ensures size { unsigned_abs result < 2 ^ 120 }
{
    a + b + c
}

// Three offsets, each as often as the point's turn with the side opposite its corner says.
fn mix_offsets(t: &Tri, p: Pt, first: i64, second: i64, third: i64) -> i128
    requires near { IsNearAll t.now.a t.now.b t.now.c }
    requires inside { holds_of t.now p }
    requires first { unsigned_abs first ≤ 2 * LIMIT }
    requires second { unsigned_abs second ≤ 2 * LIMIT }
    requires third { unsigned_abs third ≤ 2 * LIMIT }
    ensures value { result ≡ mixed_by_turns t.now p first second third }
    ensures size { unsigned_abs result < 2 ^ 120 }
{
    together(
        share(turn(t.b, t.c, p), first),
        share(turn(t.c, t.a, p), second),
        share(turn(t.a, t.b, p), third),
    )
}

// The mix of three offsets at a point of a triangle, rounded half up.
fn mixed_offset(t: &Tri, p: Pt, first: i64, second: i64, third: i64) -> i64
    requires near { IsNearAll t.now.a t.now.b t.now.c }
    requires positive { pos 0 <ℤ turn_of (whole t.now.a) (whole t.now.b) (whole t.now.c) }
    requires inside { holds_of t.now p }
    requires first { unsigned_abs first ≤ 2 * LIMIT }
    requires second { unsigned_abs second ≤ 2 * LIMIT }
    requires third { unsigned_abs third ≤ 2 * LIMIT }
    ensures value { result ≡ half_up_of (mixed_by_turns t.now p first second third)
        (turn_of (whole t.now.a) (whole t.now.b) (whole t.now.c)) }
    ensures size { unsigned_abs result ≤ 2 * LIMIT }
{
    half_up(mix_offsets(t, p, first, second, third), turn(t.a, t.b, t.c)) as i64
}

/// The offset at a point of a source triangle, in millimetres, rounded half up: the mix of the offsets of the
/// triangle's corners as the point is the mix of the corners, as PROJ's tinshift has it. It takes no memory.
pub fn offset_of(tin: &SoundTin, offsets: &[i64], tri: u32, p: Pt) -> i64
    requires offsets { AreOffsets tin.now offsets.now }
    requires in_range { tri < length tin.now.triangles }
    requires inside { IsInTriangle tin.now Source tri (whole p) }
    ensures offset { IsRoundedOffset tin.now offsets.now p result }
    ensures size { unsigned_abs result ≤ 2 * LIMIT }
{
    let [first, second, third] = tin.triangles()[tri as usize];
    mixed_offset(
        &tin.tri(tri, Frame::Source),
        p,
        offsets[first as usize],
        offsets[second as usize],
        offsets[third as usize],
    )
}
