//! Pieces of segments with their places in a layer, and the change of the relation of two pieces.

use crate::Rel;
use plane_base::Pt;

/// Where a piece comes from, each number from 0 within the one before: the layer, the path in it, the segment of the
/// path, and the piece of the segment.
#[derive(Clone, Copy, PartialEq, Eq, Debug)]
pub struct Place {
    pub layer: u32,
    pub path: u32,
    pub segment: u32,
    pub piece: u32,
}

/// A piece of a segment: the part of the segment from `a` to `b` that is in the source triangle `tri`. `ia` and `ib`
/// are the rounded images of the piece's own ends, in millimetres.
#[derive(Clone, Copy, PartialEq, Eq, Debug)]
pub struct Piece {
    pub a: Pt,
    pub b: Pt,
    pub tri: u32,
    pub ia: Pt,
    pub ib: Pt,
    pub from: Place,
}

/// Two pieces whose relation is another after rounding: `was` in the source, `now` between the segments that join their
/// rounded ends.
#[derive(Clone, Copy, PartialEq, Eq, Debug)]
pub struct Change {
    pub first: Place,
    pub second: Place,
    pub was: Rel,
    pub now: Rel,
}
