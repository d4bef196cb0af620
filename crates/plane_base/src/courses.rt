//! A turn that changes evenly along a segment: where it is 0, and where it is not negative.

ghost use Rattle.std.specs.Prelude.{◌≡◌, ◌≢◌, ◌↔◌, ℤ, pos, ◌≤ℤ◌, ◌-ℤ◌, ◌*ℤ◌, IsTrue};
ghost use Rattle.frac128.specs.Sizes.{IsSmall};
ghost use Rattle.plane_base.specs.Plane.{whole, turn_of, IsNear, IsNearAll};
ghost use Rattle.plane_base.specs.InsideCourses.{value_at, IsZeroAt, IsBound};
ghost use Rattle.plane_base.specs.Slices.{IsParam, IsWithin};

use crate::ranges::{Range, at_end, at_start};
use crate::{Pt, turn};
use frac128::{Frac, order};
use std::cmp::Ordering;

/// A number that changes evenly from one end of a segment to the other: the turn of a line with a point of the segment.
#[derive(Clone, Copy)]
pub(crate) struct Course {
    pub(crate) start: i128,
    pub(crate) end: i128,
    ghost start_small: { IsSmall start },
    ghost fall_small: { IsSmall (start -ℤ end) },
}

/// The turns of the line from `p` to `q`, along the segment from `a` to `b`.
pub(crate) fn course_of(p: Pt, q: Pt, a: Pt, b: Pt) -> Course
    requires near_a { IsNearAll p q a }
    requires near_b { IsNearAll p q b }
    requires near_ab { IsNear a b }
    ensures start { result.start ≡ turn_of (whole p) (whole q) (whole a) }
    ensures end { result.end ≡ turn_of (whole p) (whole q) (whole b) }
{
    Course {
        start: turn(p, q, a),
        end: turn(p, q, b),
    }
}

/// The parameter at which a changing number is 0, on the segment or before or after it.
pub(crate) fn zero_of(course: Course) -> Frac
    requires changes { course.start ≢ course.end }
    ensures zero { value_at course.start course.end result.num result.den ≡ pos 0 }
    ensures once { (n d : ℤ) → value_at course.start course.end n d ≡ pos 0 → n *ℤ result.den ≡ result.num *ℤ d }
{
    if course.end < course.start {
        return Frac {
            num: course.start,
            den: course.start - course.end,
        };
    }
    Frac {
        num: -course.start,
        den: course.end - course.start,
    }
}

/// The parameters at which a number is not negative.
pub(crate) fn where_left(course: Course) -> Range
    ensures within { (n d : ℤ) → IsParam n d → ((pos 0 ≤ℤ value_at course.start course.end n d) ↔ IsWithin result.lo result.hi n d) }
    ensures lo { IsBound (result.lo.num ≡ pos 0) course.start course.end result.lo }
    ensures hi { IsBound (result.hi.num ≡ result.hi.den) course.start course.end result.hi }
{
    if course.start < course.end {
        Range {
            lo: zero_of(course),
            hi: at_end(),
        }
    } else if course.end < course.start {
        Range {
            lo: at_start(),
            hi: zero_of(course),
        }
    } else if course.start < 0 {
        Range {
            lo: at_end(),
            hi: at_start(),
        }
    } else {
        Range {
            lo: at_start(),
            hi: at_end(),
        }
    }
}

/// Whether a number is negative at neither end.
pub(crate) fn is_left(course: Course) -> bool
    ensures { IsTrue result → (pos 0 ≤ℤ course.start) × (pos 0 ≤ℤ course.end) }
{
    course.start >= 0 && course.end >= 0
}

/// Whether a number changes and is 0 at this parameter.
pub(crate) fn is_zero_at(course: Course, at: Frac) -> bool
    ensures { IsTrue result ↔ IsZeroAt course.start course.end at }
{
    course.start != course.end && order(zero_of(course), at) == Ordering::Equal
}
