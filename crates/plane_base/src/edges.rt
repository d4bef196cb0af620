//! The parameter of the point where two lines meet.

ghost use Rattle.std.specs.Prelude.{◌≡◌, ◌≢◌, ℤ, pos, ◌*ℤ◌};
ghost use Rattle.plane_base.specs.Plane.{whole, turn_of, along, IsNear, IsNearAll};

use crate::Pt;
use crate::courses::{course_of, zero_of};
use frac128::Frac;

/// The parameter, from `p` (0) to `q` (1), of the one point at which the line through `a` and `b` meets the line
/// through `p` and `q`. It is below 0 or above 1 where that point is not between the two.
pub fn edge_param(a: Pt, b: Pt, p: Pt, q: Pt) -> Frac
    requires near_p { IsNearAll a b p }
    requires near_q { IsNearAll a b q }
    requires near_pq { IsNear p q }
    requires differ { turn_of (whole a) (whole b) (whole p) ≢ turn_of (whole a) (whole b) (whole q) }
    ensures meets { turn_of (whole a) (whole b) (along (whole p) (whole q) result.num result.den) ≡ pos 0 }
    ensures once { (n d : ℤ) → turn_of (whole a) (whole b) (along (whole p) (whole q) n d) ≡ pos 0 → n *ℤ result.den ≡ result.num *ℤ d }
{
    zero_of(course_of(a, b, p, q))
}
