//! Boxes round the parts of a ring, and the side of a point by them.
ghost use Rattle.std.specs.Prelude.{◌≡◌, ◌<◌, ◌≤◌, ◌*◌, ◌+◌, ◌^◌, length, take, IfOk, OnOk, IfSome, IfNone, [], Option, IsTrue};
ghost use Rattle.ring_side.specs.declared.rings.TheConstants.{MOST_POINTS};
ghost use Rattle.plane_base.specs.Boxes.{HasPoint};
ghost use Rattle.ring_side.specs.Rings.{AreNear, AreNearTo, chain, segments_of};
ghost use Rattle.ring_side.specs.Sides.{side_of};
ghost use Rattle.ring_side.specs.InsideSides.{side_by_all};
ghost use Rattle.ring_side.specs.InsideParts.{HasAll, part_of, before_of};
ghost use Rattle.ring_side.specs.InsideClear.{AreSegmentsApart};
ghost use Rattle.ring_side.specs.InsideTrees.{IsAroundPart, AreNodes, AreNodesUpTo, AreNodesOf, IsSideOfPart, node_at, end_before};

use crate::Side;
use crate::part_sides::side_by_box;
use crate::segments::both;
use crate::sides::side_along;
use plane_base::{Pt, Rect};
use sheet_base::between;
use std::alloc::{AllocError, Global};

/// A part of at most this many segments has no smaller parts.
const FEW: usize = 8;

/// A part of a ring: the segments that end at the points from one place to before another. The nodes of smaller parts of
/// it come before it, from the place `base` on; it has none where `base` is its own place.
#[derive(Clone, Copy, Debug)]
pub(crate) struct RingPart {
    around: Rect,
    first: u32,
    past: u32,
    base: u32,
}

/// The nodes of a ring, the smaller parts before the larger ones. The last one is of the whole ring.
pub(crate) fn nodes_of(alloc: Global, ring: &[Pt]) -> Result<Vec<RingPart>, AllocError>
    requires { length ring.now ≤ MOST_POINTS }
    ensures { IfOk result (λ nodes. AreNodesOf ring.now nodes.items) }
{
    let mut nodes = Vec::new(alloc);
    if !ring.is_empty() {
        add_part(ring, 0, ring.len(), &mut nodes)?;
    }
    Ok(nodes)
}

// Adds the nodes of a part, and answers a box round it.
#[cycle(parts)]
fn add_part(
    ring: &[Pt],
    first: usize,
    past: usize,
    nodes: &mut Vec<RingPart>,
) -> Result<Rect, AllocError>
    requires some { first < past }
    requires within { past ≤ length ring.now }
    requires most { length ring.now ≤ MOST_POINTS }
    requires few { length nodes.old.items ≤ 2 * first }
    requires nodes { AreNodesUpTo ring.now nodes.old.items first }
    ensures nodes { OnOk result (AreNodesUpTo ring.now nodes.new.items past) }
    ensures few { OnOk result (length nodes.new.items + 2 * first < length nodes.old.items + 2 * past) }
    ensures same { OnOk result (take (length nodes.old.items) nodes.new.items ≡ nodes.old.items) }
    ensures around { IfOk result (λ around. IsAroundPart around ring.now first past) }
{
    let base = nodes.len() as u32;
    let around = add_smaller(ring, first, past, nodes)?;
    nodes.push(RingPart {
        around,
        first: first as u32,
        past: past as u32,
        base,
    })?;
    Ok(around)
}

// Adds the nodes of the two halves of a part, where it has many segments, and answers a box round it.
#[cycle(parts)]
fn add_smaller(
    ring: &[Pt],
    first: usize,
    past: usize,
    nodes: &mut Vec<RingPart>,
) -> Result<Rect, AllocError>
    requires some { first < past }
    requires within { past ≤ length ring.now }
    requires most { length ring.now ≤ MOST_POINTS }
    requires few { length nodes.old.items ≤ 2 * first }
    requires nodes { AreNodesUpTo ring.now nodes.old.items first }
    ensures each { OnOk result (AreNodes ring.now nodes.new.items) }
    ensures ends { OnOk result (length nodes.old.items < length nodes.new.items
        → end_before nodes.new.items (length nodes.new.items) ≡ past) }
    ensures few { OnOk result (length nodes.new.items + 1 + 2 * first < length nodes.old.items + 2 * past) }
    ensures same { OnOk result (take (length nodes.old.items) nodes.new.items ≡ nodes.old.items) }
    ensures around { IfOk result (λ around. IsAroundPart around ring.now first past) }
{
    if past - first <= FEW {
        return Ok(around_part(ring, first, past));
    }
    let middle = first + (past - first) / 2;
    let low = add_part(ring, first, middle, nodes)?;
    let high = add_part(ring, middle, past, nodes)?;
    Ok(low.with_box(&high))
}

/// The box of the points of a part, and of the point before them.
pub(crate) fn around_part(ring: &[Pt], first: usize, past: usize) -> Rect
    requires some { first < past }
    requires within { past ≤ length ring.now }
    ensures { IsAroundPart result ring.now first past }
{
    let mut around = Rect::of_point(before(ring, first));
    let part = between(ring, first, past);
    for p in part {
        around = around.with_point(*p);
    }
    around
}

// The point before a place of a ring: the last one before the first place.
fn before(ring: &[Pt], place: usize) -> Pt
    requires { place < length ring.now }
    ensures { result ≡ before_of ring.now place }
{
    if place == 0 {
        ring[ring.len() - 1]
    } else {
        ring[place - 1]
    }
}

/// The side of a ring that a point is on.
pub(crate) fn side_by_nodes(ring: &[Pt], nodes: &[RingPart], p: Pt) -> Side
    requires near { AreNear ring.now }
    requires near_point { AreNearTo ring.now p }
    requires nodes { AreNodesOf ring.now nodes.now }
    ensures { result ≡ side_of ring.now p }
{
    let mut side = Side::Outside;
    let mut left = nodes.len();
    while left > 0 {
        let node = &nodes[left - 1];
        match side_at(ring, nodes, left - 1, p) {
            Some(part) => {
                side = both(part, side);
                left = node.base as usize;
            }
            None => left -= 1,
        }
    }
    side
}

/// Whether each segment of a ring is apart from a box.
pub(crate) fn is_clear_by_nodes(ring: &[Pt], nodes: &[RingPart], rect: &Rect) -> bool
    requires { AreNodesOf ring.now nodes.now }
    ensures { IsTrue result → AreSegmentsApart rect.now (segments_of ring.now) }
{
    let mut left = nodes.len();
    while left > 0 {
        let node = &nodes[left - 1];
        let base = node.base as usize;
        if node.around.is_apart_from(rect) {
            left = base;
        } else if base < left - 1 {
            left -= 1;
        } else {
            if !is_clear_part(ring, node, rect) {
                return false;
            }
            left = base;
        }
    }
    true
}

// Whether each segment of the part of a node is apart from a box.
fn is_clear_part(ring: &[Pt], node: &RingPart, rect: &Rect) -> bool
    requires some { node.now.first < node.now.past }
    requires within { node.now.past ≤ length ring.now }
    ensures { IsTrue result → AreSegmentsApart rect.now
        (chain (before_of ring.now node.now.first) (part_of ring.now node.now.first node.now.past)) }
{
    let from = before(ring, node.first as usize);
    is_clear_along(
        from,
        between(ring, node.first as usize, node.past as usize),
        rect,
    )
}

// Whether the segments from a point to the first of some points, and from each to the next, are apart from a box.
fn is_clear_along(from: Pt, points: &[Pt], rect: &Rect) -> bool
    ensures { IsTrue result → AreSegmentsApart rect.now (chain from points.now) }
{
    let mut from = from;
    for to in points {
        if !Rect::of_segment(from, *to).is_apart_from(rect) {
            return false;
        }
        from = *to;
    }
    true
}

// The side of the part of a node: by its box, or by its segments where it has no smaller parts.
fn side_at(ring: &[Pt], nodes: &[RingPart], place: usize, p: Pt) -> Option<Side>
    requires near { AreNear ring.now }
    requires near_point { AreNearTo ring.now p }
    requires nodes { AreNodes ring.now nodes.now }
    requires place { place < length nodes.now }
    ensures told { IsSideOfPart ring.now (node_at nodes.now place) p result }
    ensures smaller { IfNone result ((node_at nodes.now place).base < place) }
{
    let node = &nodes[place];
    let from = before(ring, node.first as usize);
    if let Some(side) = side_by_box(&node.around, from, ring[node.past as usize - 1], p) {
        return Some(side);
    }
    if (node.base as usize) < place {
        return None;
    }
    Some(side_along(
        from,
        between(ring, node.first as usize, node.past as usize),
        p,
    ))
}
