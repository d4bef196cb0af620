//! The gap of two segments: 0 where they cross, and else by the nearest of the four ends.
ghost use Rattle.std.specs.Prelude.{◌↔◌, ◌+◌, ◌*◌, ◌^◌, ◌<◌, ◌≤◌, IsTrue};
ghost use Rattle.plane_base.specs.Plane.{IsNear, IsNearAll};
ghost use Rattle.seg_gap.specs.InsideEnds.{AreOpposite, DoCross, IsLeast, IsHalfRoot};
ghost use Rattle.seg_gap.specs.Gaps.{IsGap};

use crate::ends::end_square;
use plane_base::{Pt, turn};

/// The least distance of a point of the closed segment from `a` to `b` and a point of the closed segment from `c`
/// to `d`, in millimetres, rounded half up. A segment may be a point.
pub fn gap(a: Pt, b: Pt, c: Pt, d: Pt) -> u64
    requires near_c { IsNearAll a b c }
    requires near_d { IsNearAll a b d }
    requires near { IsNear c d }
    ensures { IsGap a b c d result }
{
    if do_cross(a, b, c, d) {
        return 0;
    }
    half_root(least(a, b, c, d))
}

// Whether the ends of each segment are on both sides of the other one's line.
fn do_cross(a: Pt, b: Pt, c: Pt, d: Pt) -> bool
    requires near_c { IsNearAll a b c }
    requires near_d { IsNearAll a b d }
    requires near { IsNear c d }
    ensures { IsTrue result ↔ DoCross a b c d }
{
    are_opposite(turn(a, b, c), turn(a, b, d)) && are_opposite(turn(c, d, a), turn(c, d, b))
}

// Whether one turn is positive and the other negative.
fn are_opposite(u: i128, v: i128) -> bool
    ensures { IsTrue result ↔ AreOpposite u v }
{
    if u < 0 { v > 0 } else { u > 0 && v < 0 }
}

// Four times the square of the distance of the end that is nearest to the other segment, rounded down.
fn least(a: Pt, b: Pt, c: Pt, d: Pt) -> u128
    requires near_c { IsNearAll a b c }
    requires near_d { IsNearAll a b d }
    requires near { IsNear c d }
    ensures { IsLeast a b c d result }
{
    let first = end_square(a, c, d).min(end_square(b, c, d));
    let second = end_square(c, a, b).min(end_square(d, a, b));
    first.min(second)
}

// The root, rounded down. That of a short number takes a quarter of the steps.
fn root(square: u128) -> u128
    ensures low { result * result ≤ square }
    ensures high { square < (result + 1) * (result + 1) }
    ensures short { result < 2 ^ 64 }
{
    if square <= u128::from(u32::MAX) {
        u128::from((square as u32).isqrt())
    } else {
        square.isqrt()
    }
}

// Half the root, rounded half up.
fn half_root(square: u128) -> u64
    ensures { IsHalfRoot square result }
{
    ((root(square) + 1) / 2) as u64
}
