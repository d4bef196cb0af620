//! Tests of the triangle that has a point, of neighbours across sides, and of the triangles round a corner.

use crate::made_tins::{Shape, same, sound_of, tin_of, tin_of_shape};
use plane_base::Pt;
use std::alloc::Global;
use tin_index::TinIndex;

/// One triangle, to be found by points.
fn one_triangle(alloc: Global) -> Option<TinIndex> {
    let corners = vec![in alloc; same(0, 0), same(10_000, 0), same(0, 10_000)].ok()?;
    let triangles = vec![in alloc; [0, 1, 2]].ok()?;
    let tin = tin_of(corners, triangles, 0)?;
    TinIndex::build(alloc, sound_of(tin)?).ok()
}

/// Points, and the triangle that has each.
const LOCATED: &[(i64, i64, Option<u32>)] = &[
    (2_500, 2_500, Some(0)),
    (5_000, 5_000, Some(0)),
    (0, 10_000, Some(0)),
    (5_000, 5_001, None),
    (-1, 0, None),
    (i64::MAX, i64::MIN, None),
];

/// Whether this is the triangle of the point.
fn is_located(index: &TinIndex, &(x, y, wanted): &(i64, i64, Option<u32>)) -> bool {
    index.locate(Pt { x, y }) == wanted
}

/// The number of the first point that is found elsewhere, or none.
fn first_other_place(alloc: Global, rows: &[(i64, i64, Option<u32>)]) -> Option<usize> {
    let Some(index) = one_triangle(alloc) else {
        return Some(rows.len());
    };
    for (number, row) in rows.iter().enumerate() {
        if !is_located(&index, row) {
            return Some(number);
        }
    }
    None
}

#[test]
fn locates_points(rt: HostRuntime) {
    assert_eq!(rt; first_other_place(rt.alloc(), LOCATED), None);
}

#[test]
fn keeps_the_triangles(rt: HostRuntime) {
    let index = one_triangle(rt.alloc()).expect(&rt, "sound");
    assert_eq!(rt; index.tin().triangles(), [[0, 1, 2]].as_slice());
}

/// A triangulation, a triangle, and those across its sides.
type Neighbours = (Shape, u32, (Option<u32>, Option<u32>, Option<u32>));

/// Whether these are the triangles across the sides of the triangle.
fn are_across(alloc: Global, (shape, triangle, want): Neighbours) -> bool {
    let Some(index) = tin_of_shape(alloc, shape) else {
        return false;
    };
    if triangle >= index.tin().triangle_count() {
        return false;
    }
    let sides = (
        index.across(triangle, 0),
        index.across(triangle, 1),
        index.across(triangle, 2),
    );
    sides == want
}

/// The number of the first row of a triangle whose sides have other triangles across, or none.
fn first_other_across(alloc: Global, rows: &[Neighbours]) -> Option<usize> {
    for (number, row) in rows.iter().enumerate() {
        if !are_across(alloc, *row) {
            return Some(number);
        }
    }
    None
}

/// Whether these are the triangles round the corner.
fn are_around(alloc: Global, shape: Shape, corner: u32, want: &[u32]) -> bool {
    let Some(index) = tin_of_shape(alloc, shape) else {
        return false;
    };
    if corner as usize >= index.tin().corners().len() {
        return false;
    }
    index.around(corner) == want
}

/// The number of the first row of a corner with other triangles round it, or none.
fn first_other_around(alloc: Global, rows: &[(Shape, u32, &[u32])]) -> Option<usize> {
    for (number, (shape, corner, want)) in rows.iter().enumerate() {
        if !are_around(alloc, *shape, *corner, want) {
            return Some(number);
        }
    }
    None
}

/// Triangles, and those across their sides. The two of the bow have a corner in common and no side.
const ACROSS: &[Neighbours] = &[
    (Shape::Square, 0, (None, None, Some(1))),
    (Shape::Square, 1, (Some(0), None, None)),
    (Shape::Six, 0, (Some(5), None, Some(1))),
    (Shape::Six, 5, (Some(4), None, Some(0))),
    (Shape::Bow, 0, (None, None, None)),
    (Shape::Bow, 1, (None, None, None)),
];

/// Corners, and the triangles round them.
const AROUND: &[(Shape, u32, &[u32])] = &[
    (Shape::Square, 0, &[0, 1]),
    (Shape::Square, 1, &[0]),
    (Shape::Six, 0, &[0, 1, 2, 3, 4, 5]),
    (Shape::Six, 6, &[4, 5]),
    (Shape::Bow, 0, &[0, 1]),
];

#[test]
fn finds_neighbours(rt: HostRuntime) {
    assert_eq!(rt; first_other_across(rt.alloc(), ACROSS), None);
}

#[test]
fn finds_triangles_round_corners(rt: HostRuntime) {
    assert_eq!(rt; first_other_around(rt.alloc(), AROUND), None);
}
