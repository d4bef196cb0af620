//! The direction of a ring.
ghost use Rattle.std.specs.Prelude.{◌≡◌, ◌≤◌, ◌+◌, ◌^◌, ◌+ℤ◌, length, unsigned_abs};
ghost use Rattle.frac128.specs.Sizes.{IsSmall};
ghost use Rattle.plane_base.specs.Plane.{IsNear};
ghost use Rattle.ring_side.specs.declared.rings.TheConstants.{MOST_POINTS};
ghost use Rattle.ring_side.specs.Rings.{AreNear, AreNearTo, chain, segments_of};
ghost use Rattle.ring_side.specs.InsideSides.{turns};
ghost use Rattle.ring_side.specs.Sides.{sweeps, way_by, way_of};

use crate::{MOST_POINTS, Way};
use plane_base::{Pt, turn};

/// The direction of a ring: the sign of the sum of the turns of the origin and both ends of each segment, which is
/// twice the signed area, in square millimetres. It takes no memory.
pub fn way_of(ring: &[Pt]) -> Way
    requires near { AreNear ring.now }
    requires count { length ring.now ≤ MOST_POINTS }
    ensures { result ≡ way_of ring.now }
{
    way_by(twice_area(ring))
}

fn way_by(area: i128) -> Way
    ensures { result ≡ way_by area }
{
    if area > 0 {
        Way::Positive
    } else if area < 0 {
        Way::Negative
    } else {
        Way::Zero
    }
}

// Twice the signed area, in square millimetres. The turns are taken from the first point on, so they stay small.
fn twice_area(ring: &[Pt]) -> i128
    requires near { AreNear ring.now }
    requires count { length ring.now ≤ MOST_POINTS }
    ensures { result ≡ sweeps (segments_of ring.now) }
{
    match ring.first() {
        Some(first) => turns_along(*first, ring),
        None => 0,
    }
}

// The sum of the turns of a point and each segment from it to the first of some points, and from each to the next.
fn turns_along(first: Pt, points: &[Pt]) -> i128
    requires near { AreNear points.now }
    requires first { AreNearTo points.now first }
    requires own { IsNear first first }
    requires count { length points.now ≤ MOST_POINTS }
    ensures { result ≡ turns first (chain first points.now) }
{
    let mut from = first;
    let mut sum = 0;
    for to in points {
        sum = plus(sum, turn(first, from, *to));
        from = *to;
    }
    sum
}

// The sum of two numbers, where neither is large.
fn plus(sum: i128, more: i128) -> i128
    requires sum { unsigned_abs sum ≤ 2 ^ 90 }
    requires more { IsSmall more }
    ensures value { result ≡ sum +ℤ more }
    ensures size { unsigned_abs result ≤ unsigned_abs sum + 2 ^ 63 }
{
    sum + more
}
