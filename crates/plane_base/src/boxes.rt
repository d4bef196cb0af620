//! The methods of a box: the boxes of points and of a triangle, one more point, two boxes.
ghost use Rattle.std.specs.Prelude.{◌≡◌, ◌↔◌, ◌⊎◌, ◌≤ℤ◌, ◌<ℤ◌, IsTrue};
ghost use Rattle.std.specs.Int.{int_min, int_max};
ghost use Rattle.plane_base.specs.Boxes.{
  HasPoint,
  IsOrdered,
  ShareAPoint,
  AreApart,
  box_of_point,
  box_of_segment,
  box_of_triangle,
  box_with_point,
  box_of_boxes,
  common_of,
};

use crate::{Pt, Rect, Tri};

impl Rect {
    /// The box of one point.
    pub fn of_point(p: Pt) -> Self
        ensures { result ≡ box_of_point p }
    {
        Rect {
            x0: p.x,
            y0: p.y,
            x1: p.x,
            y1: p.y,
        }
    }

    /// The least box that has two points, and so each point between them.
    pub fn of_segment(a: Pt, b: Pt) -> Self
        ensures { result ≡ box_of_segment a b }
    {
        Rect {
            x0: a.x.min(b.x),
            y0: a.y.min(b.y),
            x1: a.x.max(b.x),
            y1: a.y.max(b.y),
        }
    }

    /// The least box that has the three corners of a triangle, and so each of its points.
    pub fn of_triangle(t: &Tri) -> Self
        ensures { result ≡ box_of_triangle t.now }
    {
        Rect {
            x0: least(t.a.x, t.b.x, t.c.x),
            y0: least(t.a.y, t.b.y, t.c.y),
            x1: greatest(t.a.x, t.b.x, t.c.x),
            y1: greatest(t.a.y, t.b.y, t.c.y),
        }
    }

    /// The least box that has this one and one more point.
    pub fn with_point(&self, p: Pt) -> Self
        ensures { result ≡ box_with_point self.now p }
    {
        Rect {
            x0: self.x0.min(p.x),
            y0: self.y0.min(p.y),
            x1: self.x1.max(p.x),
            y1: self.y1.max(p.y),
        }
    }

    /// The least box that has both.
    pub fn with_box(&self, other: &Rect) -> Self
        ensures { result ≡ box_of_boxes self.now other.now }
    {
        Rect {
            x0: self.x0.min(other.x0),
            y0: self.y0.min(other.y0),
            x1: self.x1.max(other.x1),
            y1: self.y1.max(other.y1),
        }
    }

    /// The box of all points that are in both. It has none where the two are apart.
    pub fn common(&self, other: &Rect) -> Self
        ensures { result ≡ common_of self.now other.now }
    {
        Rect {
            x0: self.x0.max(other.x0),
            y0: self.y0.max(other.y0),
            x1: self.x1.min(other.x1),
            y1: self.y1.min(other.y1),
        }
    }

    /// Whether the point is in the box, its border included.
    pub fn has_point(&self, p: Pt) -> bool
        ensures { IsTrue result ↔ HasPoint self.now p }
    {
        if !is_from_to(self.x0, p.x, self.x1) {
            return false;
        }
        is_from_to(self.y0, p.y, self.y1)
    }

    /// Whether two boxes have a common point. Boxes that only touch have one.
    pub fn shares_a_point(&self, other: &Rect) -> bool
        requires own { IsOrdered self.now }
        requires other { IsOrdered other.now }
        ensures { IsTrue result ↔ ShareAPoint self.now other.now }
    {
        !self.is_apart_from(other)
    }

    /// Whether on one of the axes the one box is past the other.
    pub fn is_apart_from(&self, other: &Rect) -> bool
        ensures { IsTrue result ↔ AreApart self.now other.now }
    {
        if are_spans_apart(self.x0, self.x1, other.x0, other.x1) {
            return true;
        }
        are_spans_apart(self.y0, self.y1, other.y0, other.y1)
    }
}

fn least(a: i64, b: i64, c: i64) -> i64
    ensures { result ≡ int_min a (int_min b c) }
{
    a.min(b.min(c))
}

fn greatest(a: i64, b: i64, c: i64) -> i64
    ensures { result ≡ int_max a (int_max b c) }
{
    a.max(b.max(c))
}

// Whether `x` is from `low` to `high`.
fn is_from_to(low: i64, x: i64, high: i64) -> bool
    ensures { IsTrue result ↔ (low ≤ℤ x) × (x ≤ℤ high) }
{
    low <= x && x <= high
}

// Whether of two spans the one ends before the other begins.
fn are_spans_apart(first: i64, last: i64, start: i64, end: i64) -> bool
    ensures { IsTrue result ↔ ((last <ℤ start) ⊎ (end <ℤ first)) }
{
    last < start || end < first
}
