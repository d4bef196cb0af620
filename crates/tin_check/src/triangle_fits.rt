//! Whether two triangles meet in their common corners and nowhere else.

ghost use Rattle.std.specs.Prelude.{◌≡◌, ◌↔◌, ◌≤◌, pos, ◌<ℤ◌, IsTrue, [], ◌∷◌, map, length};
ghost use Rattle.plane_base.specs.Plane.{whole, corners_of, turn_of, IsNear, IsNearAll, IsNearTri};
ghost use Rattle.tin_check.specs.CommonPoints.{HaveCommonPoint, MeetOnlyIn};
ghost use Rattle.tin_check.specs.Marks.{points_of, marked_of, IsAmong, HaveSamePoints, AreNearTris};

use crate::Common;
use crate::marked_corners::{Marked, counted_from, read_marks};
use crate::separations::{are_parted, is_beyond};
use plane_base::{Pt, Tri, holds, is_same, slice};

/// Whether the triangle has a point of the segment from `p` to `q`.
pub(crate) fn meets_side(p: Pt, q: Pt, t: &Tri) -> bool
    requires near { IsNearAll t.now.a t.now.b t.now.c }
    requires near_p { IsNearTri t.now p }
    requires near_q { IsNearTri t.now q }
    requires near_pq { IsNear p q }
    requires positive { pos 0 <ℤ turn_of (whole t.now.a) (whole t.now.b) (whole t.now.c) }
    ensures { IsTrue result ↔ HaveCommonPoint (whole p ∷ whole q ∷ []) (corners_of t.now) }
{
    slice(p, q, t).is_some()
}

/// Whether the triangles have a common point.
fn meet(t: &Tri, u: &Tri) -> bool
    requires near { AreNearTris t.now u.now }
    requires t_positive { pos 0 <ℤ turn_of (whole t.now.a) (whole t.now.b) (whole t.now.c) }
    requires u_positive { pos 0 <ℤ turn_of (whole u.now.a) (whole u.now.b) (whole u.now.c) }
    ensures { IsTrue result ↔ HaveCommonPoint (corners_of t.now) (corners_of u.now) }
{
    if is_beyond(t, u) {
        return false;
    }
    if is_beyond(u, t) {
        return false;
    }
    if holds(t, u.a) {
        return true;
    }
    if meets_side(t.a, t.b, u) {
        return true;
    }
    if meets_side(t.b, t.c, u) {
        return true;
    }
    meets_side(t.c, t.a, u)
}

/// Whether the triangles have no common point.
pub(crate) fn are_apart(t: &Tri, u: &Tri) -> bool
    requires near { AreNearTris t.now u.now }
    requires t_positive { pos 0 <ℤ turn_of (whole t.now.a) (whole t.now.b) (whole t.now.c) }
    requires u_positive { pos 0 <ℤ turn_of (whole u.now.a) (whole u.now.b) (whole u.now.c) }
    ensures { IsTrue result ↔ MeetOnlyIn (corners_of t.now) (corners_of u.now) [] }
{
    !meet(t, u)
}

/// Whether two triangles whose first corners are the same have no other common point.
fn meet_at_corner(t: &Tri, u: &Tri) -> bool
    requires near { AreNearTris t.now u.now }
    requires t_positive { pos 0 <ℤ turn_of (whole t.now.a) (whole t.now.b) (whole t.now.c) }
    requires u_positive { pos 0 <ℤ turn_of (whole u.now.a) (whole u.now.b) (whole u.now.c) }
    requires same { t.now.a ≡ u.now.a }
    ensures { IsTrue result ↔ MeetOnlyIn (corners_of t.now) (corners_of u.now) (whole t.now.a ∷ []) }
{
    if are_parted(t, u) {
        return true;
    }
    if meets_side(t.b, t.c, u) {
        return false;
    }
    !meets_side(u.b, u.c, t)
}

/// Whether two triangles have only a side in common. The second one begins at the second corner of the first, and has
/// the first one's first corner too: the side between these corners. It is all where it runs in opposite directions.
fn meet_at_side(t: &Tri, u: &Tri) -> bool
    requires t_positive { pos 0 <ℤ turn_of (whole t.now.a) (whole t.now.b) (whole t.now.c) }
    requires u_positive { pos 0 <ℤ turn_of (whole u.now.a) (whole u.now.b) (whole u.now.c) }
    requires second { t.now.b ≡ u.now.a }
    requires first { IsAmong (points_of u.now) t.now.a }
    ensures { IsTrue result ↔ MeetOnlyIn (corners_of t.now) (corners_of u.now) (whole t.now.a ∷ whole t.now.b ∷ []) }
{
    is_same(t.a, u.b)
}

/// Whether the triangles have only the first corner of `t` in common, which is a corner of `u` too.
fn fit_at_corner(t: &Tri, u: &Tri) -> bool
    requires near { AreNearTris t.now u.now }
    requires t_positive { pos 0 <ℤ turn_of (whole t.now.a) (whole t.now.b) (whole t.now.c) }
    requires u_positive { pos 0 <ℤ turn_of (whole u.now.a) (whole u.now.b) (whole u.now.c) }
    requires common { IsAmong (points_of u.now) t.now.a }
    ensures { IsTrue result ↔ MeetOnlyIn (corners_of t.now) (corners_of u.now) (whole t.now.a ∷ []) }
{
    meet_at_corner(t, &counted_from(u, t.a))
}

/// Whether the triangles have only the first side of `t` in common, whose ends are corners of `u` too.
fn fit_at_side(t: &Tri, u: &Tri) -> bool
    requires t_positive { pos 0 <ℤ turn_of (whole t.now.a) (whole t.now.b) (whole t.now.c) }
    requires u_positive { pos 0 <ℤ turn_of (whole u.now.a) (whole u.now.b) (whole u.now.c) }
    requires first { IsAmong (points_of u.now) t.now.a }
    requires second { IsAmong (points_of u.now) t.now.b }
    ensures { IsTrue result ↔ MeetOnlyIn (corners_of t.now) (corners_of u.now) (whole t.now.a ∷ whole t.now.b ∷ []) }
{
    meet_at_side(t, &counted_from(u, t.b))
}

/// Whether the triangles meet in their common corners and in what those span, and nowhere else.
pub fn fits(t: &Tri, u: &Tri, common: Common) -> bool
    requires near { AreNearTris t.now u.now }
    requires t_positive { pos 0 <ℤ turn_of (whole t.now.a) (whole t.now.b) (whole t.now.c) }
    requires u_positive { pos 0 <ℤ turn_of (whole u.now.a) (whole u.now.b) (whole u.now.c) }
    requires same { HaveSamePoints (marked_of common.of_t (points_of t.now)) (marked_of common.of_u (points_of u.now)) }
    ensures { let points = marked_of common.of_t (points_of t.now) in
        IsTrue result ↔ (length points ≤ 2 × MeetOnlyIn (corners_of t.now) (corners_of u.now) (map whole points)) }
{
    match read_marks(t, common.of_t) {
        Marked::Nothing => are_apart(t, u),
        Marked::Corner(from_corner) => fit_at_corner(&from_corner, u),
        Marked::Side(from_side) => fit_at_side(&from_side, u),
        Marked::All => false,
    }
}
