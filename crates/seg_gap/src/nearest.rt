//! Which end of two segments is nearest to the other segment, by fractions that are compared exactly.
ghost use Rattle.std.specs.Prelude.{◌≡◌, ◌↔◌, ◌*◌, ◌<◌, ◌^◌, pos, ◌<ℤ◌, IsTrue, unsigned_abs};
ghost use Rattle.frac128.specs.Sizes.{IsSmall};
ghost use Rattle.plane_base.specs.Plane.{IsNear, IsNearAll};
ghost use Rattle.seg_gap.specs.InsideEnds.{dot_of};
ghost use Rattle.seg_gap.specs.InsideSquares.{IsEndOf, IsNearer, IsBelow, square_in};
ghost use Rattle.seg_gap.specs.Ends.{IsNearestEnd};

use crate::end_squares::EndSquare;
use crate::ends::dot;
use plane_base::{Pt, turn};

/// The end of the segments from `a` to `b` and from `c` to `d` that is nearest to the other segment; of equals the
/// first in the order `a`, `b`, `c`, `d`. A segment may be a point.
pub fn nearest_end(a: Pt, b: Pt, c: Pt, d: Pt) -> Pt
    requires near_c { IsNearAll a b c }
    requires near_d { IsNearAll a b d }
    requires near { IsNear c d }
    ensures { IsNearestEnd a b c d result }
{
    let first = nearer(square_of(a, c, d), square_of(b, c, d));
    let second = nearer(first, square_of(c, a, b));
    nearer(second, square_of(d, a, b)).end
}

// The end `p` and the square of its distance from the segment from `c` to `d`.
fn square_of(p: Pt, c: Pt, d: Pt) -> EndSquare
    requires { IsNearAll p c d }
    ensures { IsEndOf p c d (square_in result) }
{
    let from_c = dot(c, p, d);
    let from_d = dot(d, p, c);
    if from_c <= 0 {
        whole_square(p, dot(c, p, p))
    } else if from_d <= 0 {
        whole_square(p, dot(d, p, p))
    } else {
        height_square(p, turn(c, d, p), from_c + from_d)
    }
}

// A square that is a whole number.
fn whole_square(end: Pt, square: i128) -> EndSquare
    requires { unsigned_abs square < 2 ^ 63 }
    ensures end { result.end ≡ end }
    ensures num { result.num ≡ unsigned_abs square }
    ensures den { result.den ≡ 1 }
{
    EndSquare {
        end,
        num: square.unsigned_abs(),
        den: 1,
    }
}

// The square of a turn over that of a length.
fn height_square(end: Pt, turn: i128, square: i128) -> EndSquare
    requires small { IsSmall turn }
    requires positive { pos 0 <ℤ square }
    requires short { unsigned_abs square < 2 ^ 64 }
    ensures end { result.end ≡ end }
    ensures num { result.num ≡ unsigned_abs turn * unsigned_abs turn }
    ensures den { result.den ≡ unsigned_abs square }
{
    let height = turn.unsigned_abs();
    EndSquare {
        end,
        num: height * height,
        den: square.unsigned_abs(),
    }
}

// Whether the one square is below the other: by whole parts, and by what is left of equal ones.
fn is_below(one: EndSquare, other: EndSquare) -> bool
    ensures { IsTrue result ↔ IsBelow (square_in one) (square_in other) }
{
    let whole = one.num / one.den;
    let other_whole = other.num / other.den;
    if whole != other_whole {
        whole < other_whole
    } else {
        (one.num % one.den) * other.den < (other.num % other.den) * one.den
    }
}

// The end whose square is less; of equals the one.
fn nearer(one: EndSquare, other: EndSquare) -> EndSquare
    ensures { IsNearer (square_in one) (square_in other) (square_in result) }
{
    if is_below(other, one) { other } else { one }
}
