//! The side of a ring that a point is on.
ghost use Rattle.std.specs.Prelude.{◌≡◌};
ghost use Rattle.ring_side.specs.Rings.{AreNear, AreNearTo, chain, last_of, no_point};
ghost use Rattle.ring_side.specs.Sides.{side_of};
ghost use Rattle.ring_side.specs.InsideSides.{side_by_all};
ghost use Rattle.plane_base.specs.Plane.{IsNear};

use crate::Side;
use crate::segments::{both, side_by};
use plane_base::Pt;

/// The side of a ring that a point is on. The ring has a segment from each of its points to the next, and from the last
/// to the first. It takes no memory.
pub fn side_of(ring: &[Pt], p: Pt) -> Side
    requires near { AreNear ring.now }
    requires near_point { AreNearTo ring.now p }
    ensures { result ≡ side_of ring.now p }
{
    match ring.last() {
        Some(last) => side_along(*last, ring, p),
        None => Side::Outside,
    }
}

/// The side of the segments from a point to the first of some points, and from each to the next.
pub(crate) fn side_along(from: Pt, points: &[Pt], p: Pt) -> Side
    requires near { AreNear points.now }
    requires near_from { AreNearTo points.now from }
    requires near_point { AreNearTo points.now p }
    requires from { IsNear from p }
    ensures { result ≡ side_by_all p (chain from points.now) }
{
    let mut side = Side::Outside;
    let mut from = from;
    for to in points {
        side = both(side, side_by(from, *to, p));
        from = *to;
    }
    side
}
