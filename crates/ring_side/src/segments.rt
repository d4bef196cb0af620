//! The side of one segment that a point is on.
ghost use Rattle.std.specs.Prelude.{◌≡◌, ◌&&◌, pos, ℤ};
ghost use Rattle.plane_base.specs.Plane.{IsNearAll, whole, turn_of};
ghost use Rattle.ring_side.specs.Sides.{is_between, is_on, is_above, does_cross};
ghost use Rattle.ring_side.specs.InsideSides.{side_by, both};

use crate::Side;
use plane_base::{Pt, turn};

/// On the border where the point is on the segment; inside where the segment crosses the ray from the point; else
/// outside.
pub(crate) fn side_by(a: Pt, b: Pt, p: Pt) -> Side
    requires { IsNearAll a b p }
    ensures { result ≡ side_by p (record { from = a; to = b }) }
{
    let turned = turn(a, b, p);
    if turned == 0 && is_in_box(a, b, p) {
        return Side::Border;
    }
    if does_cross(a, b, p, turned) {
        Side::Inside
    } else {
        Side::Outside
    }
}

fn is_in_box(a: Pt, b: Pt, p: Pt) -> bool
    ensures { result ≡ (is_between a.x b.x p.x && is_between a.y b.y p.y) }
{
    is_between(a.x, b.x, p.x) && is_between(a.y, b.y, p.y)
}

fn is_between(u: i64, v: i64, z: i64) -> bool
    ensures { result ≡ is_between u v z }
{
    u.min(v) <= z && z <= u.max(v)
}

// Whether the segment crosses the ray, by its turn with the point.
fn does_cross(a: Pt, b: Pt, p: Pt, turned: i128) -> bool
    requires { turned ≡ turn_of (whole a) (whole b) (whole p) }
    ensures { result ≡ does_cross p (record { from = a; to = b }) }
{
    if a.y > p.y {
        if b.y > p.y { false } else { turned < 0 }
    } else {
        if b.y > p.y { turned > 0 } else { false }
    }
}

/// The side of two parts of a ring's segments together.
pub(crate) fn both(first: Side, second: Side) -> Side
    ensures { result ≡ both first second }
{
    match (first, second) {
        (Side::Border, _) | (Side::Inside, Side::Border) => Side::Border,
        (Side::Outside, second) => second,
        (Side::Inside, Side::Inside) => Side::Outside,
        (Side::Inside, Side::Outside) => Side::Inside,
    }
}
