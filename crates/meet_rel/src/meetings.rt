//! The relation of the parts of two segments that their triangles have, by the turns of the segments.

ghost use Rattle.std.specs.Prelude.{◌≢◌, ◌↔◌, ◌⊎◌, IsTrue};
ghost use Rattle.frac128.specs.Fractions.{IsBelow, IsSameValue};
ghost use Rattle.plane_base.specs.Plane.{Point, whole, turn_of};
ghost use Rattle.tin_base.specs.Relations.{HaveRelation};
ghost use Rattle.meet_rel.specs.Clips.{AreEnds, IsProper, AreClose, IsWhole};

use crate::clips::Clip;
use crate::cuts::{Span, own_span, rel_of_cuts};
use frac128::{Frac, is_below, order};
use plane_base::{edge_param, holds, turn};
use std::cmp::Ordering;
use tin_base::Rel;

/// The relation of the parts of two segments that are in their triangles. The segments themselves have this relation.
pub(crate) fn clip_rel(p: &Clip, q: &Clip, relation: Rel) -> Rel
    requires p { IsProper p.now }
    requires q { IsProper q.now }
    requires close { AreClose p.now q.now }
    requires relation { HaveRelation relation (whole p.now.a) (whole p.now.b) (whole q.now.a) (whole q.now.b) }
    ensures { (first last start end : Point) → AreEnds p.now first last → AreEnds q.now start end
        → HaveRelation result first last start end }
{
    if are_whole(p, q) {
        return relation;
    }
    let of_start = turn(p.a, p.b, q.a);
    let of_end = turn(p.a, p.b, q.b);
    if of_start != of_end {
        return rel_across(p, q);
    }
    if of_start != 0 {
        return Rel::Apart;
    }
    if turn(q.a, q.b, p.a) != 0 {
        return Rel::Apart;
    }
    rel_of_cuts(p, q)
}

// Whether both triangles have their segments whole.
fn are_whole(p: &Clip, q: &Clip) -> bool
    requires p { IsProper p.now }
    requires q { IsProper q.now }
    ensures p { IsTrue result → IsWhole p.now }
    ensures q { IsTrue result → IsWhole q.now }
{
    if !is_whole(p) {
        return false;
    }
    is_whole(q)
}

// Whether the triangle has the segment whole.
fn is_whole(clip: &Clip) -> bool
    requires { IsProper clip.now }
    ensures { IsTrue result → IsWhole clip.now }
{
    if !holds(&clip.tri, clip.a) {
        return false;
    }
    holds(&clip.tri, clip.b)
}

// Of two segments on lines that meet in one point.
fn rel_across(p: &Clip, q: &Clip) -> Rel
    requires p { IsProper p.now }
    requires q { IsProper q.now }
    requires close { AreClose p.now q.now }
    requires across { turn_of (whole p.now.a) (whole p.now.b) (whole q.now.a) ≢ turn_of (whole p.now.a) (whole p.now.b) (whole q.now.b) }
    ensures { (first last start end : Point) → AreEnds p.now first last → AreEnds q.now start end
        → HaveRelation result first last start end }
{
    let on_p = own_span(p);
    let on_q = own_span(q);
    let at_p = edge_param(q.a, q.b, p.a, p.b);
    let at_q = edge_param(p.a, p.b, q.a, q.b);
    if is_outside(at_p, on_p) {
        return Rel::Apart;
    }
    if is_outside(at_q, on_q) {
        return Rel::Apart;
    }
    if is_end(at_p, on_p) {
        return Rel::Touching;
    }
    if is_end(at_q, on_q) {
        return Rel::Touching;
    }
    Rel::Crossing
}

fn is_outside(at: Frac, span: Span) -> bool
    ensures { IsTrue result ↔ (IsBelow at span.lo ⊎ IsBelow span.hi at) }
{
    is_below(at, span.lo) || is_below(span.hi, at)
}

fn is_end(at: Frac, span: Span) -> bool
    ensures { IsTrue result ↔ (IsSameValue at span.lo ⊎ IsSameValue at span.hi) }
{
    is_same(at, span.lo) || is_same(at, span.hi)
}

fn is_same(a: Frac, b: Frac) -> bool
    ensures { IsTrue result ↔ IsSameValue a b }
{
    order(a, b) == Ordering::Equal
}
