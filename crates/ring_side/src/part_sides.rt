//! The side of a part of a ring, by a box round it alone.
ghost use Rattle.std.specs.Prelude.{◌≡◌, ◌⊎◌, ◌<ℤ◌, ◌↔◌, IsTrue};
ghost use Rattle.ring_side.specs.Sides.{is_above};
ghost use Rattle.ring_side.specs.InsideParts.{IsSideInBox, IsSideWhereTold};
ghost use Rattle.ring_side.specs.InsideSides.{side_by_ends};

use crate::Side;
use plane_base::{Pt, Rect};

/// The side of the segments from a point to the first of some points, and from each to the next, by a box that has all
/// of them; `to` is the last of the points. None where the box has `p`.
pub(crate) fn side_by_box(around: &Rect, from: Pt, to: Pt, p: Pt) -> Option<Side>
    ensures { IsSideWhereTold around.now from to p result }
{
    if is_clear(around, p) {
        return Some(Side::Outside);
    }
    if is_before(around, p) {
        return Some(side_by_ends(from, to, p));
    }
    None
}

// Whether a ray from the point meets no place of the box: it is above or below the box, or past it.
fn is_clear(around: &Rect, p: Pt) -> bool
    ensures { IsTrue result ↔ ((p.y <ℤ around.now.y0) ⊎ ((around.now.y1 <ℤ p.y) ⊎ (around.now.x1 <ℤ p.x))) }
{
    p.y < around.y0 || p.y > around.y1 || p.x > around.x1
}

// Whether the point is in front of the box on the first axis.
fn is_before(around: &Rect, p: Pt) -> bool
    ensures { IsTrue result ↔ (p.x <ℤ around.now.x0) }
{
    p.x < around.x0
}

// Inside where exactly one of the two is higher than `p`, and outside else.
fn side_by_ends(from: Pt, to: Pt, p: Pt) -> Side
    ensures { result ≡ side_by_ends (is_above p from) (is_above p to) }
{
    if from.y > p.y {
        if to.y > p.y {
            Side::Outside
        } else {
            Side::Inside
        }
    } else {
        if to.y > p.y {
            Side::Inside
        } else {
            Side::Outside
        }
    }
}
