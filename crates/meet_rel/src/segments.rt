//! The relation of two segments between whole points.

ghost use Rattle.std.specs.Prelude.{◌↔◌, IsTrue};
ghost use Rattle.plane_base.specs.Boxes.{AreApart, box_of_segment};
ghost use Rattle.plane_base.specs.Plane.{whole};
ghost use Rattle.tin_base.specs.Relations.{HaveRelation};
ghost use Rattle.meet_rel.specs.Near.{AreNear};
ghost use Rattle.meet_rel.specs.Signs.{AreOnOneSide, AreBelow, AreBeside, IsSomeZero};

use crate::lines::rel_on_line;
use plane_base::{Pt, turn};
use tin_base::Rel;

/// The relation of the closed segments from `a` to `b` and from `c` to `d`, in millimetres, by their common points.
/// A segment may be a point. Two segments have no second relation (`relations_are_exclusive`).
pub fn rel(a: Pt, b: Pt, c: Pt, d: Pt) -> Rel
    requires { AreNear a b c d }
    ensures { HaveRelation result (whole a) (whole b) (whole c) (whole d) }
{
    if are_boxes_apart(a, b, c, d) {
        return Rel::Apart;
    }
    let of_c = turn(a, b, c);
    let of_d = turn(a, b, d);
    if are_on_one_side(of_c, of_d) {
        return Rel::Apart;
    }
    let of_a = turn(c, d, a);
    let of_b = turn(c, d, b);
    if are_on_one_side(of_a, of_b) {
        return Rel::Apart;
    }
    if of_c == of_d {
        return rel_on_line(a, b, c, d);
    }
    if is_some_zero(of_a, of_b, of_c, of_d) {
        return Rel::Touching;
    }
    Rel::Crossing
}

// Whether the boxes of the two segments have no common point.
fn are_boxes_apart(a: Pt, b: Pt, c: Pt, d: Pt) -> bool
    ensures { IsTrue result ↔ AreApart (box_of_segment a b) (box_of_segment c d) }
{
    are_beside(a.x, b.x, c.x, d.x) || are_beside(a.y, b.y, c.y, d.y)
}

// Whether `a` and `b` are both below `c` and `d`, or both above.
fn are_beside(a: i64, b: i64, c: i64, d: i64) -> bool
    ensures { IsTrue result ↔ AreBeside a b c d }
{
    are_below(a, b, c, d) || are_below(c, d, a, b)
}

// Whether `a` and `b` are both below `c` and `d`.
fn are_below(a: i64, b: i64, c: i64, d: i64) -> bool
    ensures { IsTrue result ↔ AreBelow a b c d }
{
    a.max(b) < c.min(d)
}

// Whether both turns are positive, or both negative.
fn are_on_one_side(u: i128, v: i128) -> bool
    ensures { IsTrue result ↔ AreOnOneSide u v }
{
    if u < 0 { v < 0 } else { u > 0 && v > 0 }
}

fn is_some_zero(s: i128, t: i128, u: i128, v: i128) -> bool
    ensures { IsTrue result ↔ IsSomeZero s t u v }
{
    s == 0 || t == 0 || u == 0 || v == 0
}
