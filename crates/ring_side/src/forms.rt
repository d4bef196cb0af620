//! A ring in one frame, with a box round it and boxes round its parts.
ghost use Rattle.std.specs.Prelude.{◌≡◌, ◌<◌, ◌≤◌, length, IfOk};
ghost use Rattle.plane_base.specs.declared.shapes.Pt.{Pt};
ghost use Rattle.ring_side.specs.declared.rings.TheConstants.{MOST_POINTS};
ghost use Rattle.ring_side.specs.Rings.{AreNear, AreNearTo};
ghost use Rattle.ring_side.specs.Sides.{side_of};
ghost use Rattle.ring_side.specs.InsideParts.{HasAll};
ghost use Rattle.ring_side.specs.InsideTrees.{AreNodesOf};
ghost use Rattle.ring_side.specs.InsideClear.{IsSideOfBox, corner_of};
ghost use Rattle.ring_side.specs.InsideForms.{IsForm};

use crate::Side;
use crate::trees::{RingPart, around_part, is_clear_by_nodes, nodes_of, side_by_nodes};
use plane_base::{Pt, Rect};
use std::alloc::{AllocError, Global};

/// The points of a ring in one frame, a box that has all of them, and the nodes of its parts.
#[derive(Drop)]
pub(crate) struct Form<'a> {
    pub(crate) points: &'a [Pt],
    pub(crate) around: Rect,
    nodes: Vec<RingPart>,
}

impl<'a> Form<'a> {
    /// The form of these points.
    pub(crate) fn of(alloc: Global, points: &'a [Pt]) -> Result<Self, AllocError>
        requires some { 0 < length points.now }
        requires most { length points.now ≤ MOST_POINTS }
        ensures { IfOk result (λ form. IsForm form points.now) }
    {
        Ok(Form {
            points,
            around: around_part(points, 0, points.len()),
            nodes: nodes_of(alloc, points)?,
        })
    }

    /// The side of the ring that a point is on.
    pub(crate) fn side(&self, p: Pt) -> Side
        requires form { IsForm self.now self.now.points.now }
        requires near { AreNear self.now.points.now }
        requires near_point { AreNearTo self.now.points.now p }
        ensures { result ≡ side_of self.now.points.now p }
    {
        side_by_nodes(self.points, &self.nodes, p)
    }

    /// The side of the ring that all points of a box are on, where no segment of the ring is near the box.
    pub(crate) fn side_of_box(&self, rect: &Rect) -> Option<Side>
        requires form { IsForm self.now self.now.points.now }
        requires near { AreNear self.now.points.now }
        requires near_corner { AreNearTo self.now.points.now (corner_of rect.now) }
        ensures { IsSideOfBox rect.now self.now.points.now result }
    {
        if self.around.is_apart_from(rect) {
            return Some(Side::Outside);
        }
        if self.begins_in(rect) {
            return None;
        }
        if !is_clear_by_nodes(self.points, &self.nodes, rect) {
            return None;
        }
        Some(self.side(corner(rect)))
    }

    // Whether the first point of the ring is in a box, so that not all segments are apart from it.
    fn begins_in(&self, rect: &Rect) -> bool {
        match self.points.first() {
            Some(first) => rect.has_point(*first),
            None => false,
        }
    }
}

// The corner of a box with the least numbers.
fn corner(rect: &Rect) -> Pt
    ensures { result ≡ corner_of rect.now }
{
    Pt {
        x: rect.x0,
        y: rect.y0,
    }
}
