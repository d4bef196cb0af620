//! Whether two points are near enough for the calls of the plane.

ghost use Rattle.std.specs.Prelude.{◌-ℤ◌, ◌<ℤ◌, IsTrue};
ghost use Rattle.plane_base.specs.Plane.{IsNear, IsNearAll, IsNearTri};
ghost use Rattle.plane_base.specs.declared.shapes.TheConstants.{SPAN};

use plane_base::{Pt, SPAN, Tri};

/// Whether each point is less than the span from the other, on both axes.
pub fn is_near(p: Pt, q: Pt) -> bool
    ensures { IsTrue result → IsNear p q }
{
    if !is_less_than_span(q.x, p.x) || !is_less_than_span(p.x, q.x) {
        return false;
    }
    if !is_less_than_span(q.y, p.y) {
        return false;
    }
    is_less_than_span(p.y, q.y)
}

/// Whether each two of three points are near.
pub fn are_near(a: Pt, b: Pt, c: Pt) -> bool
    ensures { IsTrue result → IsNearAll a b c }
{
    is_near(a, b) && is_near(a, c) && is_near(b, c)
}

/// Whether each corner of a triangle is near a point.
pub fn is_near_tri(t: &Tri, p: Pt) -> bool
    ensures { IsTrue result → IsNearTri t.now p }
{
    is_near(t.a, p) && is_near(t.b, p) && is_near(t.c, p)
}

fn is_less_than_span(from: i64, to: i64) -> bool
    ensures { IsTrue result → ((to -ℤ from) <ℤ SPAN) }
{
    i128::from(to) - i128::from(from) < i128::from(SPAN)
}
