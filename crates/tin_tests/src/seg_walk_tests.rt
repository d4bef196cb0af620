//! Tests of the pieces of a segment: across sides, through corners, and outside.

use crate::made_tins::{Shape, at, tin_of_shape};
use frac128::{Frac, order};
use plane_base::End;
use seg_walk::{Step, WalkFault, cut};
use std::alloc::Global;
use std::cmp::Ordering;

/// A place on a segment: its first end, its middle, or its last end.
#[derive(Clone, Copy)]
enum SegmentSpot {
    Start,
    Half,
    End,
}

/// A triangle, where its part of the segment begins and ends, and what those places are.
type Want = (u32, SegmentSpot, SegmentSpot, End, End);

/// The part of the segment at a place.
fn frac_of(spot: SegmentSpot) -> Frac {
    match spot {
        SegmentSpot::Start => Frac { num: 0, den: 1 },
        SegmentSpot::Half => Frac { num: 1, den: 2 },
        SegmentSpot::End => Frac { num: 1, den: 1 },
    }
}

fn is_at(f: Frac, spot: SegmentSpot) -> bool {
    order(f, frac_of(spot)) == Ordering::Equal
}

/// The piece of a segment that has all of it, in each of three triangles.
const FIRST: Want = (
    0,
    SegmentSpot::Start,
    SegmentSpot::End,
    End::Vertex,
    End::Vertex,
);

const SECOND: Want = (
    1,
    SegmentSpot::Start,
    SegmentSpot::End,
    End::Vertex,
    End::Vertex,
);

const THIRD: Want = (
    2,
    SegmentSpot::Start,
    SegmentSpot::End,
    End::Vertex,
    End::Vertex,
);

/// A triangulation, the ends of a segment in millimetres, and its pieces, or none where it is not wholly inside.
type Row = (Shape, (i32, i32), (i32, i32), Option<&'static [Want]>);

/// Whether this is the piece.
fn is_step(step: &Step, want: &Want) -> bool {
    step.tri == want.0
        && is_at(step.slice.lo, want.1)
        && is_at(step.slice.hi, want.2)
        && step.slice.enter == want.3
        && step.slice.leave == want.4
}

/// Whether these are the pieces.
fn are_steps(steps: &[Step], want: &[Want]) -> bool {
    for (step, want) in steps.iter().zip(want) {
        if !is_step(step, want) {
            return false;
        }
    }
    steps.len() == want.len()
}

/// Whether the segment is cut so.
fn is_cut(alloc: Global, (over, a, b, want): Row) -> bool {
    let Some(index) = tin_of_shape(alloc, over) else {
        return false;
    };
    match (cut(alloc, &index, at(a), at(b)), want) {
        (Ok(steps), Some(want)) => are_steps(&steps, want),
        (Err(WalkFault::Outside), None) => true,
        _ => false,
    }
}

/// The number of the first row that is cut otherwise, or none.
fn first_other(alloc: Global, rows: &[Row]) -> Option<usize> {
    for (number, row) in rows.iter().enumerate() {
        if !is_cut(alloc, *row) {
            return Some(number);
        }
    }
    None
}

const OVER_THE_SQUARE: &[Row] = &[
    (
        Shape::Square,
        (10_000, 0),
        (0, 10_000),
        Some(&[
            (
                0,
                SegmentSpot::Start,
                SegmentSpot::Half,
                End::Vertex,
                End::Side(2),
            ),
            (
                1,
                SegmentSpot::Half,
                SegmentSpot::End,
                End::Side(0),
                End::Vertex,
            ),
        ]),
    ),
    // The diagonal is a side of both triangles.
    (Shape::Square, (0, 0), (10_000, 10_000), Some(&[FIRST])),
    (
        Shape::Square,
        (1_000, 1_000),
        (1_000, 1_000),
        Some(&[FIRST]),
    ),
    (
        Shape::Square,
        (1_000, 1_000),
        (2_000, 1_000),
        Some(&[FIRST]),
    ),
    (Shape::Square, (0, 0), (10_000, 10_001), None),
    (Shape::Square, (10_001, 0), (10_001, 0), None),
];

#[test]
fn cuts_segments(rt: HostRuntime) {
    assert_eq!(rt; first_other(rt.alloc(), OVER_THE_SQUARE), None);
}

const OVER_SIX: &[Row] = &[
    (
        Shape::Six,
        (-4_000, -2_000),
        (4_000, 2_000),
        Some(&[
            (
                3,
                SegmentSpot::Start,
                SegmentSpot::Half,
                End::Vertex,
                End::Side(0),
            ),
            (
                0,
                SegmentSpot::Half,
                SegmentSpot::End,
                End::Side(0),
                End::Vertex,
            ),
        ]),
    ),
    // On the outer edge it is inside.
    (Shape::Six, (0, 5_000), (-5_000, 5_000), Some(&[THIRD])),
    (Shape::Six, (0, 5_000), (-5_000, 5_001), None),
];

#[test]
fn cuts_through_a_corner(rt: HostRuntime) {
    assert_eq!(rt; first_other(rt.alloc(), OVER_SIX), None);
}

const OVER_THE_BOW: &[Row] = &[
    (
        Shape::Bow,
        (-8_000, -4_000),
        (8_000, 4_000),
        Some(&[
            (
                1,
                SegmentSpot::Start,
                SegmentSpot::Half,
                End::Vertex,
                End::Side(0),
            ),
            (
                0,
                SegmentSpot::Half,
                SegmentSpot::End,
                End::Side(0),
                End::Vertex,
            ),
        ]),
    ),
    // From the corner itself, into each of the two.
    (Shape::Bow, (0, 0), (8_000, 4_000), Some(&[FIRST])),
    (Shape::Bow, (0, 0), (-8_000, -4_000), Some(&[SECOND])),
    (Shape::Bow, (0, 0), (4_000, 8_000), None),
    (Shape::Bow, (-8_000, -4_000), (4_000, 8_000), None),
];

#[test]
fn goes_on_where_two_triangles_meet_in_a_corner_alone(rt: HostRuntime) {
    assert_eq!(rt; first_other(rt.alloc(), OVER_THE_BOW), None);
}

/// Whether the segment is wholly inside.
fn is_inside(alloc: Global, over: Shape, a: (i32, i32), b: (i32, i32)) -> bool {
    match tin_of_shape(alloc, over) {
        Some(index) => cut(alloc, &index, at(a), at(b)).is_ok(),
        None => false,
    }
}

#[test]
fn refuses_a_gap_between_two_ends_inside(rt: HostRuntime) {
    let alloc = rt.alloc();
    assert!(rt;
        is_cut(
            alloc,
            (Shape::Notched, (18_000, 9_000), (9_000, 18_000), None)
        )
    );
    // It touches the corner of the notch.
    assert!(rt; is_inside(alloc, Shape::Notched, (20_000, 0), (0, 20_000)));
}
