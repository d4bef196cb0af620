//! Whether points are near each other, wherever they are.

ghost use Rattle.std.specs.Prelude.{◌≡◌, ◌↔◌, ◌-ℤ◌, ◌<ℤ◌, IsTrue};
ghost use Rattle.plane_base.specs.declared.shapes.TheConstants.{SPAN};
ghost use Rattle.plane_base.specs.Plane.{IsNear, IsNearTri};

use plane_base::{Pt, SPAN, Tri};

/// How far the first number is above the second.
fn gap(u: i64, v: i64) -> i128
    ensures { result ≡ u -ℤ v }
{
    i128::from(u) - i128::from(v)
}

/// Whether four numbers are below `SPAN`.
fn are_short(left: i128, right: i128, down: i128, up: i128) -> bool
    ensures { IsTrue result ↔ ((left <ℤ SPAN) × (right <ℤ SPAN) × (down <ℤ SPAN) × (up <ℤ SPAN)) }
{
    let span = i128::from(SPAN);
    left < span && right < span && down < span && up < span
}

/// Whether two points are less than `SPAN` apart on each axis.
fn is_near(p: Pt, q: Pt) -> bool
    ensures { IsTrue result ↔ IsNear p q }
{
    are_short(gap(p.x, q.x), gap(q.x, p.x), gap(p.y, q.y), gap(q.y, p.y))
}

/// Whether a point is near each corner of a triangle.
pub(crate) fn is_near_corners(t: &Tri, p: Pt) -> bool
    ensures { IsTrue result ↔ IsNearTri t.now p }
{
    is_near(t.a, p) && is_near(t.b, p) && is_near(t.c, p)
}

/// Whether both ends of a segment are near each corner of a triangle, and near each other.
pub(crate) fn are_near(t: &Tri, a: Pt, b: Pt) -> bool
    ensures { IsTrue result ↔ (IsNearTri t.now a × IsNearTri t.now b × IsNear a b) }
{
    is_near_corners(t, a) && is_near_corners(t, b) && is_near(a, b)
}
