//! The part of a segment that a triangle has, by parameters, and the relation of two such parts on one line.

ghost use Rattle.std.specs.Prelude.{◌≡◌, ◌≢◌, ◌↔◌, ◌⊎◌, pos, ◌-ℤ◌, ◌≤ℤ◌, ◌<ℤ◌, IsTrue};
ghost use Rattle.plane_base.specs.Plane.{Point, whole, turn_of, IsNear};
ghost use Rattle.plane_base.specs.Slices.{IsParam};
ghost use Rattle.plane_base.specs.declared.shapes.TheConstants.{SPAN};
ghost use Rattle.tin_base.specs.Relations.{HaveRelation};
ghost use Rattle.meet_rel.specs.Near.{AreNear};
ghost use Rattle.meet_rel.specs.Signs.{AreOnOneLine};
ghost use Rattle.meet_rel.specs.Clips.{AreEnds, IsRelOf, IsProper, AreClose, IsCut, IsPointBefore, IsNotAfter, AreOuter};
ghost use Rattle.meet_rel.specs.Clips.{IsWayFor, StandsAt};

use crate::clips::Clip;
use crate::sides::touch_at_side;
use frac128::{Frac, earlier, later, order};
use plane_base::{Pt, slice};
use std::cmp::Ordering;
use tin_base::Rel;

/// What lies between two parameters of a segment, of which `lo` is not after `hi`.
#[derive(Clone, Copy, Debug)]
pub struct Span {
    pub lo: Frac,
    pub hi: Frac,
}

// The way from one point to another.
#[derive(Clone, Copy)]
struct Extent {
    from: Pt,
    to: Pt,
}

/// The part of the clip's segment that its triangle has, by parameters of this segment.
pub(crate) fn own_span(clip: &Clip) -> Span
    requires proper { IsProper clip.now }
    requires differ { clip.now.a ≢ clip.now.b }
    ensures cut { IsCut clip.now clip.now.a clip.now.b result.lo result.hi }
    ensures lo { IsParam result.lo.num result.lo.den }
    ensures hi { IsParam result.hi.num result.hi.den }
{
    let stretch = slice(clip.a, clip.b, &clip.tri).unwrap();
    Span {
        lo: stretch.lo,
        hi: stretch.hi,
    }
}

/// Of two clips of one segment: by a common side of the triangles, or else both parts by parameters of the segment.
pub(crate) fn rel_on_one(p: &Clip, q: &Clip) -> Rel
    requires p { IsProper p.now }
    requires q { IsProper q.now }
    requires a { p.now.a ≡ q.now.a }
    requires b { p.now.b ≡ q.now.b }
    requires differ { p.now.a ≢ p.now.b }
    ensures { (first last start end : Point) → AreEnds p.now first last → AreEnds q.now start end
        → HaveRelation result first last start end }
{
    if touch_at_side(p, q) {
        return Rel::Touching;
    }
    let on_p = own_span(p);
    let on_q = own_span(q);
    rel_of_spans(later(on_p.lo, on_q.lo), earlier(on_p.hi, on_q.hi))
}

/// Of two segments on one line: both parts by parameters of one way that holds both segments.
pub(crate) fn rel_of_cuts(p: &Clip, q: &Clip) -> Rel
    requires p { IsProper p.now }
    requires q { IsProper q.now }
    requires close { AreClose p.now q.now }
    requires line { AreOnOneLine p.now.a p.now.b q.now.a q.now.b }
    ensures { (first last start end : Point) → AreEnds p.now first last → AreEnds q.now start end
        → HaveRelation result first last start end }
{
    let way = way_of(p, q);
    if !is_before(way.from, way.to) {
        return Rel::Touching;
    }
    let on_p = span_on(way.from, way.to, p);
    let on_q = span_on(way.from, way.to, q);
    rel_of_spans(later(on_p.lo, on_q.lo), earlier(on_p.hi, on_q.hi))
}

// From the first to the last of the four ends of two segments.
fn way_of(p: &Clip, q: &Clip) -> Extent
    requires near { AreNear p.now.a p.now.b q.now.a q.now.b }
    requires line { AreOnOneLine p.now.a p.now.b q.now.a q.now.b }
    ensures { AreOuter p.now.a p.now.b q.now.a q.now.b result.from result.to }
{
    Extent {
        from: first_of(first_of(p.a, p.b), first_of(q.a, q.b)),
        to: last_of(last_of(p.a, p.b), last_of(q.a, q.b)),
    }
}

fn rel_of_spans(first: Frac, last: Frac) -> Rel
    ensures { IsRelOf result first last }
{
    match order(first, last) {
        Ordering::Less => Rel::Overlapping,
        Ordering::Equal => Rel::Touching,
        Ordering::Greater => Rel::Apart,
    }
}

// The part of the clip's segment that its triangle has, by parameters of the way from `u` to `v`, which holds the
// segment.
fn span_on(u: Pt, v: Pt, clip: &Clip) -> Span
    requires proper { IsProper clip.now }
    requires before { IsPointBefore u v }
    requires way { IsWayFor u v clip.now }
    ensures { IsCut clip.now u v result.lo result.hi }
{
    let a = param_on(u, v, clip.a);
    let b = param_on(u, v, clip.b);
    let stretch = slice(u, v, &clip.tri).unwrap();
    Span {
        lo: later(stretch.lo, earlier(a, b)),
        hi: earlier(stretch.hi, later(a, b)),
    }
}

// Where a point is on the way from `u` to `v`: by the first number that differs at these two.
fn param_on(u: Pt, v: Pt, p: Pt) -> Frac
    requires before { IsPointBefore u v }
    requires near { IsNear u v }
    requires from { IsNotAfter u p }
    requires to { IsNotAfter p v }
    requires on { turn_of (whole u) (whole v) (whole p) ≡ pos 0 }
    ensures { StandsAt u v p result }
{
    if u.x < v.x {
        share_of(u.x, v.x, p.x)
    } else {
        share_of(u.y, v.y, p.y)
    }
}

// The share of the way from `from` to `to` at which `at` is.
fn share_of(from: i64, to: i64, at: i64) -> Frac
    requires order { from <ℤ to }
    requires near { (to -ℤ from) <ℤ SPAN }
    requires between { (from ≤ℤ at) × (at ≤ℤ to) }
    ensures num { result.num ≡ at -ℤ from }
    ensures den { result.den ≡ to -ℤ from }
{
    Frac {
        num: i128::from(at - from),
        den: i128::from(to - from),
    }
}

fn is_before(p: Pt, q: Pt) -> bool
    ensures { IsTrue result ↔ IsPointBefore p q }
{
    if p.x < q.x {
        return true;
    }
    p.x <= q.x && p.y < q.y
}

// The first of two.
fn first_of(p: Pt, q: Pt) -> Pt
    ensures one { (result ≡ p) ⊎ (result ≡ q) }
    ensures from_p { IsNotAfter result p }
    ensures from_q { IsNotAfter result q }
{
    if is_before(q, p) { q } else { p }
}

// The last of two.
fn last_of(p: Pt, q: Pt) -> Pt
    ensures one { (result ≡ p) ⊎ (result ≡ q) }
    ensures to_p { IsNotAfter p result }
    ensures to_q { IsNotAfter q result }
{
    if is_before(q, p) { p } else { q }
}
