//! Boxes of source triangles, and whether a triangle has a point that may be anywhere.

ghost use Rattle.std.specs.Prelude.{◌≡◌, ◌↔◌, pos, ◌<ℤ◌, length, IsTrue, IfOk};
ghost use Rattle.std.specs.Int.{int_min, int_max};
ghost use Rattle.plane_base.specs.Plane.{whole, turn_of, IsNearAll, IsNearTri, holds_of};
ghost use Rattle.tin_index.specs.Boxes.{IsUpTo, low_of, high_of, AreBoxesOf, IsRound};
ghost use Rattle.tin_index.specs.InsideLocations.{IsInsideOf};

use plane_base::{Pt, Rect, Tri, holds, turn};
use std::alloc::{AllocError, Global};
use tin_base::{Frame, SoundTin};

fn least(a: i64, b: i64, c: i64) -> i64
    ensures { result ≡ int_min a (int_min b c) }
{
    a.min(b.min(c))
}

fn greatest(a: i64, b: i64, c: i64) -> i64
    ensures { result ≡ int_max a (int_max b c) }
{
    a.max(b.max(c))
}

/// The corner of the triangle's box with the least numbers.
fn low(t: &Tri) -> Pt
    ensures { result ≡ low_of t.now }
{
    Pt {
        x: least(t.a.x, t.b.x, t.c.x),
        y: least(t.a.y, t.b.y, t.c.y),
    }
}

/// The corner of the triangle's box with the greatest numbers.
fn high(t: &Tri) -> Pt
    ensures { result ≡ high_of t.now }
{
    Pt {
        x: greatest(t.a.x, t.b.x, t.c.x),
        y: greatest(t.a.y, t.b.y, t.c.y),
    }
}

/// The boxes of the source triangles, in order of their numbers.
pub fn boxes_of(alloc: Global, tin: &SoundTin) -> Result<Vec<Rect>, AllocError>
    ensures { IfOk result (λ boxes. AreBoxesOf tin.now (length tin.now.triangles) boxes.items) }
{
    let mut boxes = Vec::with_capacity(alloc, tin.triangle_count() as usize)?;
    for triangle in 0..tin.triangle_count() {
        boxes.push(Rect::of_triangle(&tin.tri(triangle, Frame::Source)))?;
    }
    Ok(boxes)
}

/// The least box that has all corners of the source frame; any box where there is none.
pub fn box_of_all(tin: &SoundTin) -> Rect
    ensures { IsRound tin.now (length tin.now.corners) result }
{
    let corners = tin.corners();
    let mut round = Rect::of_point(Pt { x: 0, y: 0 });
    for place in 0..corners.len() {
        let p = corners[place].at(Frame::Source);
        round = if place == 0 {
            Rect::of_point(p)
        } else {
            round.with_point(p)
        };
    }
    round
}

/// Whether `p` is not above `q` on either axis.
fn is_up_to(p: Pt, q: Pt) -> bool
    ensures { IsTrue result ↔ IsUpTo p q }
{
    p.x <= q.x && p.y <= q.y
}

/// Whether the point is in the triangle. It may be anywhere: far from the corners their box refuses it, before any
/// product.
pub fn has_point(t: &Tri, p: Pt) -> bool
    requires near { IsNearAll t.now.a t.now.b t.now.c }
    requires positive { pos 0 <ℤ turn_of (whole t.now.a) (whole t.now.b) (whole t.now.c) }
    ensures { IsTrue result ↔ holds_of t.now p }
{
    if !is_up_to(low(t), p) {
        return false;
    }
    if !is_up_to(p, high(t)) {
        return false;
    }
    holds(t, p)
}

fn all_positive(u: i128, v: i128, w: i128) -> bool
    ensures { IsTrue result ↔ (pos 0 <ℤ u) × (pos 0 <ℤ v) × (pos 0 <ℤ w) }
{
    u > 0 && v > 0 && w > 0
}

/// Whether the point is to the left of each side.
fn is_left_of_all(t: &Tri, p: Pt) -> bool
    requires near { IsNearAll t.now.a t.now.b t.now.c }
    requires near_point { IsNearTri t.now p }
    ensures { IsTrue result ↔ IsInsideOf t.now p }
{
    all_positive(turn(t.a, t.b, p), turn(t.b, t.c, p), turn(t.c, t.a, p))
}

/// Whether the point is inside the triangle, on none of its sides. It may be anywhere.
pub fn has_inside(t: &Tri, p: Pt) -> bool
    requires near { IsNearAll t.now.a t.now.b t.now.c }
    ensures { IsTrue result → IsInsideOf t.now p }
{
    if !is_up_to(low(t), p) {
        return false;
    }
    if !is_up_to(p, high(t)) {
        return false;
    }
    is_left_of_all(t, p)
}
