//! Tests of the relation of two pieces of segments, each in its triangle.

ghost use Rattle.std.specs.Prelude.{◌≢◌, ◌<◌, length, IsTrue, IfSome};
ghost use Rattle.plane_base.specs.Plane.{whole};
ghost use Rattle.tin_base.specs.declared.frames.Frame.TheVariants.{Source};
ghost use Rattle.tin_base.specs.Triangulation.{IsInTriangle};
ghost use Rattle.tin_base.specs.Images.{IsInSome};
ghost use Rattle.tin_base.specs.Limits.{IsWithinLimits};
ghost use Rattle.tin_base.specs.Slices.{IsSliceIn};
ghost use Rattle.tin_base.specs.Pieces.{IsPiece, IsPieceInside};

use crate::made_tins::{index_of, same};
use crate::nearness::{is_near, is_near_tri};
use crate::topo_check_tests::{at, does_hold};
use frac128::is_below;
use meet_rel::piece_rel;
use plane_base::{Pt, Stretch, slice};
use std::alloc::Global;
use tin_base::{Frame, Piece, Place, Rel, SoundTin};
use tin_index::TinIndex;

/// A rectangle of twenty by ten millimetres, with four triangles: the two halves of the left square, and two beside it.
fn rectangle(alloc: Global) -> Option<TinIndex> {
    let corners = [
        same(0, 0),
        same(10, 0),
        same(10, 10),
        same(0, 10),
        same(20, 0),
        same(20, 10),
    ];
    let triangles = [[0, 1, 2], [0, 2, 3], [1, 4, 2], [4, 5, 2]];
    index_of(alloc, &corners, &triangles)
}

const LOWER: u32 = 0;

const UPPER: u32 = 1;

const RIGHT: u32 = 2;

/// What the triangle has of the segment, or none where they are not near each other.
fn sliced_in(tin: &SoundTin, triangle: u32, a: Pt, b: Pt) -> Option<Stretch>
    requires { triangle < length tin.now.triangles }
    ensures some { IfSome result (λ s. IsSliceIn tin.now a b triangle s) }
    ensures limits { IsWithinLimits tin.now }
{
    let tri = tin.tri(triangle, Frame::Source);
    if !is_near_tri(&tri, a) || !is_near_tri(&tri, b) || !is_near(a, b) {
        return None;
    }
    slice(a, b, &tri)
}

/// Whether the triangle has more than a point of the segment, whose ends differ.
fn has_part(tin: &SoundTin, piece: &Piece) -> bool
    requires in_range { piece.now.tri < length tin.now.triangles }
    requires differ { piece.now.a ≢ piece.now.b }
    ensures { IsTrue result → IsPiece tin.now piece.now }
{
    match sliced_in(tin, piece.tri, piece.a, piece.b) {
        Some(stretch) => is_below(stretch.lo, stretch.hi),
        None => false,
    }
}

/// Whether the triangle has the point.
fn has_point(tin: &SoundTin, triangle: u32, p: Pt) -> bool
    requires { triangle < length tin.now.triangles }
    ensures { IsTrue result → IsInTriangle tin.now Source triangle (whole p) }
{
    does_hold(&tin.tri(triangle, Frame::Source), p)
}

/// Whether it is a piece of its segment.
fn is_piece(tin: &SoundTin, piece: &Piece) -> bool
    requires { piece.now.tri < length tin.now.triangles }
    ensures { IsTrue result → IsPiece tin.now piece.now }
{
    if piece.a == piece.b {
        has_point(tin, piece.tri, piece.a)
    } else {
        has_part(tin, piece)
    }
}

/// Whether some triangle has the point.
fn is_in_some(index: &TinIndex, p: Pt) -> bool
    ensures { IsTrue result → IsInSome index.now Source (whole p) }
{
    match index.locate(p) {
        Some(_) => true,
        None => false,
    }
}

/// Whether it is a piece of a segment whose two ends are in triangles.
fn is_inside(index: &TinIndex, piece: &Piece) -> bool
    ensures { IsTrue result → IsPieceInside index.now piece.now }
{
    if !is_in_some(index, piece.a) {
        return false;
    }
    if !is_in_some(index, piece.b) {
        return false;
    }
    let tin = index.tin();
    if piece.tri >= tin.triangle_count() {
        return false;
    }
    is_piece(tin, piece)
}

/// The relation of two pieces inside.
fn met(index: &TinIndex, p: &Piece, q: &Piece) -> Option<Rel> {
    if !is_inside(index, p) {
        return None;
    }
    if !is_inside(index, q) {
        return None;
    }
    Some(piece_rel(p, q, index.tin()))
}

/// The piece of a segment that the triangle has. The images are not looked at.
fn piece_of([ax, ay, bx, by]: [i16; 4], tri: u32) -> Piece {
    let (a, b) = (at(ax, ay), at(bx, by));
    Piece {
        a,
        b,
        tri,
        ia: a,
        ib: b,
        from: Place {
            layer: 0,
            path: 0,
            segment: 0,
            piece: 0,
        },
    }
}

/// The ends of two segments, in millimetres, each with its triangle, and the relation of their pieces.
type Row = ([i16; 4], u32, [i16; 4], u32, Rel);

/// Whether the two pieces have this relation, in either order.
fn have_relation(index: &TinIndex, row: &Row) -> bool {
    let p = piece_of(row.0, row.1);
    let q = piece_of(row.2, row.3);
    let wanted = Some(row.4);
    met(index, &p, &q) == wanted && met(index, &q, &p) == wanted
}

/// The number of the first row with another relation, or none.
fn first_other(alloc: Global, rows: &[Row]) -> Option<usize> {
    let Some(index) = rectangle(alloc) else {
        return Some(rows.len());
    };
    for (number, row) in rows.iter().enumerate() {
        if !have_relation(&index, row) {
            return Some(number);
        }
    }
    None
}

const PIECES: &[Row] = &[
    ([10, 0, 0, 10], LOWER, [10, 0, 0, 10], UPPER, Rel::Touching),
    (
        [10, 0, 0, 10],
        LOWER,
        [10, 0, 0, 10],
        LOWER,
        Rel::Overlapping,
    ),
    ([10, 0, 1, 10], LOWER, [9, 0, 0, 10], UPPER, Rel::Apart),
    ([10, 0, 0, 10], LOWER, [6, 4, 6, 4], LOWER, Rel::Touching),
    ([10, 0, 0, 10], UPPER, [6, 4, 6, 4], LOWER, Rel::Apart),
    ([10, 0, 0, 10], UPPER, [5, 5, 5, 5], LOWER, Rel::Touching),
    ([9, 1, 1, 9], LOWER, [2, 8, 8, 2], UPPER, Rel::Touching),
    ([8, 0, 2, 10], LOWER, [5, 5, 0, 6], UPPER, Rel::Touching),
    ([8, 0, 2, 10], UPPER, [5, 5, 9, 4], LOWER, Rel::Touching),
    ([8, 1, 2, 9], LOWER, [0, 0, 10, 10], LOWER, Rel::Touching),
    ([8, 1, 2, 9], LOWER, [0, 0, 10, 10], UPPER, Rel::Touching),
    ([8, 1, 2, 9], UPPER, [0, 0, 4, 4], UPPER, Rel::Apart),
    (
        [0, 0, 10, 10],
        LOWER,
        [0, 0, 10, 10],
        UPPER,
        Rel::Overlapping,
    ),
    ([0, 0, 4, 4], LOWER, [4, 4, 10, 10], UPPER, Rel::Touching),
    ([0, 0, 4, 4], LOWER, [5, 5, 10, 10], UPPER, Rel::Apart),
    ([0, 0, 4, 4], LOWER, [7, 7, 3, 3], UPPER, Rel::Overlapping),
    (
        [10, 0, 10, 10],
        LOWER,
        [10, 8, 10, 1],
        RIGHT,
        Rel::Overlapping,
    ),
    ([10, 0, 10, 4], LOWER, [10, 4, 10, 9], RIGHT, Rel::Touching),
    ([2, 1, 18, 1], LOWER, [2, 1, 18, 1], RIGHT, Rel::Touching),
    ([2, 1, 9, 1], LOWER, [8, 1, 18, 1], RIGHT, Rel::Apart),
    ([2, 1, 9, 1], LOWER, [11, 1, 18, 1], RIGHT, Rel::Apart),
    ([2, 1, 18, 1], LOWER, [12, 1, 4, 1], LOWER, Rel::Overlapping),
    ([18, 1, 2, 1], RIGHT, [4, 1, 14, 1], RIGHT, Rel::Overlapping),
    ([2, 1, 2, 9], LOWER, [2, 0, 2, 9], UPPER, Rel::Touching),
    ([2, 6, 8, 2], LOWER, [2, 2, 5, 9], UPPER, Rel::Apart),
    ([2, 6, 8, 2], UPPER, [2, 2, 5, 9], UPPER, Rel::Crossing),
    ([1, 3, 9, 5], LOWER, [1, 6, 7, 1], LOWER, Rel::Crossing),
    ([1, 3, 9, 5], UPPER, [1, 6, 7, 1], UPPER, Rel::Apart),
    ([0, 5, 10, 6], UPPER, [1, 10, 4, 0], UPPER, Rel::Crossing),
    ([0, 5, 10, 6], LOWER, [1, 10, 4, 0], LOWER, Rel::Apart),
    ([0, 0, 10, 10], LOWER, [1, 0, 10, 9], LOWER, Rel::Apart),
    ([3, 3, 3, 3], LOWER, [3, 3, 3, 3], UPPER, Rel::Touching),
    ([3, 3, 3, 3], LOWER, [4, 4, 4, 4], UPPER, Rel::Apart),
    ([10, 2, 10, 2], RIGHT, [0, 1, 20, 3], LOWER, Rel::Touching),
];

#[test]
fn piece_rows(rt: HostRuntime) {
    assert_eq!(rt; first_other(rt.alloc(), PIECES), None);
}
