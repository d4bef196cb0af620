//! The mix of a triangle's corners by weights, rounded half up on each axis.

ghost use Rattle.std.specs.Prelude.{◌≡◌, ℤ, pos, ◌+ℤ◌, ◌-ℤ◌, ◌*ℤ◌, ◌≤ℤ◌, ◌<ℤ◌, unsigned_abs};
ghost use Rattle.frac128.specs.Rounding.{half_up_of};
ghost use Rattle.frac128.specs.Sizes.{IsSmall};
ghost use Rattle.frac128.specs.declared.frac.TheConstants.{TURN};
ghost use Rattle.plane_base.specs.Plane.{IsShort, IsNearAll};
ghost use Rattle.plane_base.specs.declared.shapes.TheConstants.{SPAN};
ghost use Rattle.affine_image.specs.InsideWeights.{numerator};

use crate::quotients::round_half_up;
use crate::weights::Weights;
use plane_base::{Pt, Tri};

// A weight of a short way: 128 bits hold it, since a weight is below `TURN` and a way below `SPAN`.
fn part(weight: i128, way: i64) -> i128
    requires weight { IsSmall weight }
    requires way { IsShort way }
    ensures value { result ≡ weight *ℤ way }
    ensures size { pos (unsigned_abs result) <ℤ (TURN *ℤ SPAN) }
{
    weight * i128::from(way)
}

// The mix of two ways, rounded.
fn mixed_ways(w: Weights, to_second: i64, to_third: i64) -> i128
    requires second { IsShort to_second }
    requires third { IsShort to_third }
    ensures { result ≡ half_up_of (w.second *ℤ to_second +ℤ w.third *ℤ to_third) w.whole }
{
    round_half_up(part(w.second, to_second) + part(w.third, to_third), w.whole)
}

// How far a mix is from the first corner on one axis, by the ways from it to the others.
fn offset(w: Weights, to_second: i64, to_third: i64) -> i64
    requires second { IsShort to_second }
    requires third { IsShort to_third }
    ensures value { result ≡ half_up_of (w.second *ℤ to_second +ℤ w.third *ℤ to_third) w.whole }
    ensures low { (least : ℤ) → least ≤ℤ pos 0 → least ≤ℤ to_second → least ≤ℤ to_third → least ≤ℤ result }
    ensures high { (most : ℤ) → pos 0 ≤ℤ most → to_second ≤ℤ most → to_third ≤ℤ most → result ≤ℤ most }
{
    mixed_ways(w, to_second, to_third) as i64
}

// The mix of three numbers, rounded.
fn mixed_on(w: Weights, a: i64, b: i64, c: i64) -> i64
    requires second { IsShort (b -ℤ a) }
    requires third { IsShort (c -ℤ a) }
    ensures { result ≡ half_up_of (numerator w a b c) w.whole }
{
    a + offset(w, b - a, c - a)
}

/// The mix of a triangle's corners, rounded half up on each axis.
pub(crate) fn mix_corners(w: Weights, t: &Tri) -> Pt
    requires { IsNearAll t.now.a t.now.b t.now.c }
    ensures x { result.x ≡ half_up_of (numerator w t.now.a.x t.now.b.x t.now.c.x) w.whole }
    ensures y { result.y ≡ half_up_of (numerator w t.now.a.y t.now.b.y t.now.c.y) w.whole }
{
    Pt {
        x: mixed_on(w, t.a.x, t.b.x, t.c.x),
        y: mixed_on(w, t.a.y, t.b.y, t.c.y),
    }
}
