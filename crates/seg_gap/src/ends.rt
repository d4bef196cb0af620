//! How far an end is from a segment.
ghost use Rattle.std.specs.Prelude.{◌≡◌, ◌<◌, ◌^◌, pos, ◌+ℤ◌, ◌*ℤ◌, ◌≤ℤ◌, ◌<ℤ◌, unsigned_abs};
ghost use Rattle.frac128.specs.Sizes.{IsSmall};
ghost use Rattle.plane_base.specs.Plane.{IsShort, IsNear, IsNearAll};
ghost use Rattle.seg_gap.specs.InsideEnds.{dot_of, IsEndSquare};

use plane_base::{Pt, turn};

/// Four times the square of the distance of the point `p` and the segment from `c` to `d`, in square millimetres,
/// rounded down.
pub(crate) fn end_square(p: Pt, c: Pt, d: Pt) -> u128
    requires { IsNearAll p c d }
    ensures { IsEndSquare p c d result }
{
    let from_c = dot(c, p, d);
    let from_d = dot(d, p, c);
    if from_c <= 0 {
        four_squares(c, p)
    } else if from_d <= 0 {
        four_squares(d, p)
    } else {
        four_heights(turn(c, d, p), from_c + from_d)
    }
}

// Four times the square of the distance of two points.
fn four_squares(p: Pt, q: Pt) -> u128
    requires { IsNear p q }
    ensures { pos result ≡ pos 4 *ℤ dot_of p q q }
{
    4 * dot(p, q, q).unsigned_abs()
}

// Four times the square of a turn, divided by the square of a length.
fn four_heights(turn: i128, square: i128) -> u128
    requires small { IsSmall turn }
    requires positive { pos 0 <ℤ square }
    ensures low { (pos result *ℤ square) ≤ℤ (pos 4 *ℤ (turn *ℤ turn)) }
    ensures high { (pos 4 *ℤ (turn *ℤ turn)) <ℤ ((pos result +ℤ pos 1) *ℤ square) }
{
    let height = turn.unsigned_abs();
    4 * (height * height) / square.unsigned_abs()
}

/// The dot product of the ways from a point to two others.
pub(crate) fn dot(from: Pt, p: Pt, q: Pt) -> i128
    requires p { IsNear from p }
    requires q { IsNear from q }
    ensures value { result ≡ dot_of from p q }
    ensures size { unsigned_abs result < 2 ^ 63 }
{
    product(p.x - from.x, q.x - from.x) + product(p.y - from.y, q.y - from.y)
}

fn product(a: i64, b: i64) -> i128
    requires a { IsShort a }
    requires b { IsShort b }
    ensures value { result ≡ a *ℤ b }
    ensures size { unsigned_abs result < 2 ^ 62 }
{
    i128::from(a) * i128::from(b)
}
