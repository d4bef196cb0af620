//! The part of a segment that is in a triangle.

ghost use Rattle.std.specs.Prelude.{◌≡◌, ◌↔◌, ℤ, pos, ◌<ℤ◌, IsTrue, IfSome};
ghost use Rattle.plane_base.specs.Plane.{whole, turn_of, IsNear, IsNearAll, IsNearTri};
ghost use Rattle.plane_base.specs.Slices.{IsWithin, AreEnds, IsWholeWay, slice_of};
ghost use Rattle.plane_base.specs.InsideSides.{AreOfSides, IsLeftOfAll, AreLeftAtEnds, IsBoundOfOne, IsZeroOfOne, IsEndBy};

use crate::courses::{Course, course_of, is_left, is_zero_at, where_left};
use crate::ranges::{Range, both, whole_way};
use crate::{Pt, Tri};
use frac128::{Frac, is_below};

/// Where an end of a stretch lies.
#[derive(Clone, Copy, PartialEq, Eq, Debug)]
pub enum End {
    /// at an end of the segment
    Vertex,
    /// on the side of the triangle from this corner, 0 to 2, to the next
    Side(u8),
}

/// The part of a segment that is in a triangle, by the parameters of its first and its last point:
/// 0 is the segment's first point and 1 its last.
#[derive(Clone, Copy, Debug)]
pub struct Stretch {
    pub lo: Frac,
    pub hi: Frac,
    /// where `lo` lies
    pub enter: End,
    /// where `hi` lies
    pub leave: End,
}

// The courses of a triangle's three sides along one segment.
#[derive(Clone, Copy)]
struct Courses {
    ab: Course,
    bc: Course,
    ca: Course,
}

fn courses_of(a: Pt, b: Pt, t: &Tri) -> Courses
    requires near { IsNearAll t.now.a t.now.b t.now.c }
    requires near_a { IsNearTri t.now a }
    requires near_b { IsNearTri t.now b }
    requires near_ab { IsNear a b }
    ensures { AreOfSides a b t.now result }
{
    Courses {
        ab: course_of(t.a, t.b, a, b),
        bc: course_of(t.b, t.c, a, b),
        ca: course_of(t.c, t.a, a, b),
    }
}

// Whether none of the three is negative at an end of the segment; then none is between them.
fn are_left(courses: Courses) -> bool
    ensures { IsTrue result → AreLeftAtEnds courses }
{
    is_left(courses.ab) && is_left(courses.bc) && is_left(courses.ca)
}

// The parameters at which none of the three is negative.
fn common_of(courses: Courses) -> Range
    ensures within { (n d : ℤ) → pos 0 <ℤ d → (IsWithin result.lo result.hi n d ↔ IsLeftOfAll courses n d) }
    ensures lo { IsBoundOfOne (result.lo.num ≡ pos 0) courses result.lo }
    ensures hi { IsBoundOfOne (result.hi.num ≡ result.hi.den) courses result.hi }
{
    if are_left(courses) {
        return whole_way();
    }
    let left_of_all = both(
        where_left(courses.ab),
        both(where_left(courses.bc), where_left(courses.ca)),
    );
    both(whole_way(), left_of_all)
}

fn is_first(at: Frac) -> bool
    ensures { IsTrue result ↔ (at.num ≡ pos 0) }
{
    at.num == 0
}

fn is_last(at: Frac) -> bool
    ensures { IsTrue result ↔ (at.num ≡ at.den) }
{
    at.num == at.den
}

// Where the parameter lies: at a vertex, or else on the first side that changes and is 0 there.
fn end_at(courses: Courses, at: Frac, is_vertex: bool) -> End
    requires { IsZeroOfOne (IsTrue is_vertex) courses at }
    ensures { IsEndBy (IsTrue is_vertex) courses at result }
{
    if is_vertex {
        return End::Vertex;
    }
    if is_zero_at(courses.ab, at) {
        return End::Side(0);
    }
    if is_zero_at(courses.bc, at) {
        return End::Side(1);
    }
    End::Side(2)
}

/// The part of the closed segment from `a` to `b` that is in the triangle: the least and the greatest parameter of a
/// common point. `None` comes exactly where there is no common point. Where `a` is `b`, the parameters are 0 and 1.
/// `enter` is `Vertex` exactly where `lo` is 0, and `leave` exactly where `hi` is 1. Any other end is on a side: the
/// least one that holds the point and is not parallel to the segment.
pub fn slice(a: Pt, b: Pt, t: &Tri) -> Option<Stretch>
    requires near { IsNearAll t.now.a t.now.b t.now.c }
    requires near_a { IsNearTri t.now a }
    requires near_b { IsNearTri t.now b }
    requires near_ab { IsNear a b }
    requires positive { pos 0 <ℤ turn_of (whole t.now.a) (whole t.now.b) (whole t.now.c) }
    ensures common { slice_of a b t.now result }
    ensures ends { IfSome result (λ s. AreEnds a b t.now s) }
    ensures point { a ≡ b → IfSome result (λ s. IsWholeWay s) }
{
    let courses = courses_of(a, b, t);
    let common = common_of(courses);
    if is_below(common.hi, common.lo) {
        return None;
    }
    Some(Stretch {
        lo: common.lo,
        hi: common.hi,
        enter: end_at(courses, common.lo, is_first(common.lo)),
        leave: end_at(courses, common.hi, is_last(common.hi)),
    })
}
