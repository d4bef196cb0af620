//! The turn of three points, and whether a triangle has a point.

ghost use Rattle.std.specs.Prelude.{◌≡◌, ◌↔◌, pos, ◌<ℤ◌, ◌≤ℤ◌, ◌-ℤ◌, ◌*ℤ◌, unsigned_abs, IsTrue};
ghost use Rattle.frac128.specs.Sizes.{IsSmall};
ghost use Rattle.plane_base.specs.Plane.{whole, turn_of, IsShort, IsNear, IsNearAll, IsNearTri, holds_of};
ghost use Rattle.frac128.specs.declared.frac.TheConstants.{TURN};

use crate::{Pt, Tri};

// The way from one point to a near one.
#[derive(Clone, Copy)]
struct Displacement {
    dx: i64,
    dy: i64,
    ghost dx_short: { IsShort dx },
    ghost dy_short: { IsShort dy },
}

fn way(from: Pt, to: Pt) -> Displacement
    requires { IsNear from to }
    ensures dx { result.dx ≡ to.x -ℤ from.x }
    ensures dy { result.dy ≡ to.y -ℤ from.y }
{
    Displacement {
        dx: to.x - from.x,
        dy: to.y - from.y,
    }
}

// 64 bits hold the product of two short numbers, and the difference of two such products.
fn product(a: i64, b: i64) -> i64
    requires a { IsShort a }
    requires b { IsShort b }
    ensures value { result ≡ a *ℤ b }
    ensures size { (pos 2 *ℤ pos (unsigned_abs result)) <ℤ TURN }
{
    a * b
}

fn cross(u: Displacement, v: Displacement) -> i64
    ensures value { result ≡ u.dx *ℤ v.dy -ℤ u.dy *ℤ v.dx }
    ensures size { IsSmall result }
{
    product(u.dx, v.dy) - product(u.dy, v.dx)
}

/// Twice the signed area of the triangle of three points, in square millimetres: positive where they turn to the left.
/// It is the determinant of their rows (x, y, 1).
pub fn turn(a: Pt, b: Pt, c: Pt) -> i128
    requires near { IsNearAll a b c }
    ensures value { result ≡ turn_of (whole a) (whole b) (whole c) }
    ensures size { IsSmall result }
{
    i128::from(cross(way(a, b), way(a, c)))
}

fn none_negative(u: i128, v: i128, w: i128) -> bool
    ensures { IsTrue result ↔ (pos 0 ≤ℤ u) × (pos 0 ≤ℤ v) × (pos 0 ≤ℤ w) }
{
    u >= 0 && v >= 0 && w >= 0
}

/// Is the point in the triangle, border and corners included? It is there exactly where it is a mix of the corners.
pub fn holds(t: &Tri, p: Pt) -> bool
    requires near { IsNearAll t.now.a t.now.b t.now.c }
    requires near_point { IsNearTri t.now p }
    requires positive { pos 0 <ℤ turn_of (whole t.now.a) (whole t.now.b) (whole t.now.c) }
    ensures { IsTrue result ↔ holds_of t.now p }
{
    none_negative(turn(t.a, t.b, p), turn(t.b, t.c, p), turn(t.c, t.a, p))
}
