//! Quick tests by turns, which show that two triangles have no common point, or only a common corner.

ghost use Rattle.std.specs.Prelude.{◌≡◌, pos, ◌<ℤ◌, IsTrue, [], ◌∷◌};
ghost use Rattle.plane_base.specs.Plane.{whole, corners_of, turn_of, IsNear, IsNearTri};
ghost use Rattle.tin_check.specs.CommonPoints.{HaveCommonPoint, MeetOnlyIn};
ghost use Rattle.tin_check.specs.Marks.{AreNearTris};
ghost use Rattle.tin_check.specs.InsideSeparations.{IsParted, AreRight};

use plane_base::{Pt, Tri, turn};

/// Whether the turns at the common first corner of two triangles show that they have no other common point.
/// They always do where a line through the corner has the one on its left and the other on its right. `false` shows
/// nothing.
pub(crate) fn are_parted(t: &Tri, u: &Tri) -> bool
    requires near { AreNearTris t.now u.now }
    requires t_positive { pos 0 <ℤ turn_of (whole t.now.a) (whole t.now.b) (whole t.now.c) }
    requires u_positive { pos 0 <ℤ turn_of (whole u.now.a) (whole u.now.b) (whole u.now.c) }
    requires same { t.now.a ≡ u.now.a }
    ensures { IsTrue result → MeetOnlyIn (corners_of t.now) (corners_of u.now) (whole t.now.a ∷ []) }
{
    do_part(
        turn(t.a, t.b, u.b),
        turn(t.a, t.b, u.c),
        turn(t.a, t.c, u.b),
        turn(t.a, t.c, u.c),
    )
}

/// The test of four turns at a common corner a, of triangles a, b, c and a, e, f.
fn do_part(be: i128, bf: i128, ce: i128, cf: i128) -> bool
    ensures { IsTrue result → IsParted be bf ce cf }
{
    (ce > 0 && (cf >= 0 || be >= 0)) || (bf < 0 && (be <= 0 || cf <= 0))
}

/// Whether a side of `t` has all of `u` on its right. Then they have no common point. `false` shows nothing.
pub(crate) fn is_beyond(t: &Tri, u: &Tri) -> bool
    requires near { AreNearTris t.now u.now }
    requires positive { pos 0 <ℤ turn_of (whole t.now.a) (whole t.now.b) (whole t.now.c) }
    ensures { IsTrue result → HaveCommonPoint (corners_of t.now) (corners_of u.now) → ⊥ }
{
    if is_right_of(t.a, t.b, u) {
        return true;
    }
    if is_right_of(t.b, t.c, u) {
        return true;
    }
    is_right_of(t.c, t.a, u)
}

/// Whether each corner of `u` is to the right of the line from `p` to `q`.
fn is_right_of(p: Pt, q: Pt, u: &Tri) -> bool
    requires near { IsNear p q }
    requires near_p { IsNearTri u.now p }
    requires near_q { IsNearTri u.now q }
    ensures { IsTrue result → AreRight (whole p) (whole q) (whole u.now.a) (whole u.now.b) (whole u.now.c) }
{
    if turn(p, q, u.a) >= 0 {
        return false;
    }
    if turn(p, q, u.b) >= 0 {
        return false;
    }
    turn(p, q, u.c) < 0
}
