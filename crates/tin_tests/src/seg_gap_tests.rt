//! The gap of two segments and their nearest end, by rows that were worked by hand.

use crate::nearness::{are_near, is_near};
use plane_base::Pt;
use seg_gap::{gap, nearest_end};

// The call, where its conditions hold.
fn between(a: Pt, b: Pt, c: Pt, d: Pt) -> Option<u64> {
    if !are_near(a, b, c) || !are_near(a, b, d) || !is_near(c, d) {
        return None;
    }
    Some(gap(a, b, c, d))
}

// Whether the gap is this one, in either order of the segments, and from either end of each.
fn is_gap(first: [i64; 4], second: [i64; 4], millimetres: u64) -> bool {
    let [ax, ay, bx, by] = first;
    let [cx, cy, dx, dy] = second;
    let a = Pt { x: ax, y: ay };
    let b = Pt { x: bx, y: by };
    let c = Pt { x: cx, y: cy };
    let d = Pt { x: dx, y: dy };
    let wanted = Some(millimetres);
    between(a, b, c, d) == wanted
        && between(b, a, c, d) == wanted
        && between(a, b, d, c) == wanted
        && between(b, a, d, c) == wanted
        && between(c, d, a, b) == wanted
        && between(d, c, a, b) == wanted
        && between(c, d, b, a) == wanted
        && between(d, c, b, a) == wanted
}

const MOST: i64 = (1 << 31) - 1;

/// Two segments, and their gap in millimetres.
const GAPS: &[([i64; 4], [i64; 4], u64)] = &[
    // They cross, touch at an end, touch at both, and overlap.
    ([0, 0, 10, 10], [0, 10, 10, 0], 0),
    ([0, 0, 10, 0], [5, 0, 5, 9], 0),
    ([0, 0, 10, 0], [10, 0, 17, 8], 0),
    ([0, 0, 10, 5], [4, 2, 30, 15], 0),
    // The lines cross inside both boxes, and only one segment reaches the other's line.
    ([0, 0, 100, 100], [60, 40, 90, 10], 14),
    ([0, 0, 100, 0], [50, 7, 50, 90], 7),
    // Parallel: side by side, past the end, and on one line.
    ([0, 0, 10, 0], [0, 3, 10, 3], 3),
    ([0, 0, 10, 0], [4, 3, 6, 3], 3),
    ([0, 0, 10, 0], [13, 4, 20, 4], 5),
    ([0, 0, 4, 0], [9, 0, 20, 0], 5),
    ([0, 0, 6, 8], [9, 12, 12, 16], 5),
    // The nearest points are two ends.
    ([0, 0, -3, -9], [3, 4, 8, 20], 5),
    // Points: one in both, two, and one beside a segment, on it and past it.
    ([7, 7, 7, 7], [7, 7, 7, 7], 0),
    ([0, 0, 0, 0], [3, 4, 3, 4], 5),
    ([5, 7, 5, 7], [0, 0, 10, 0], 7),
    ([5, 0, 5, 0], [0, 0, 10, 0], 0),
    ([13, -4, 13, -4], [0, 0, 10, 0], 5),
    // 1 over the root of 101 is below a half, and 15 over it is below one and a half. 15 over the root of 97 is above.
    ([9, 1, 9, 1], [0, 0, 10, 1], 0),
    ([5, 2, 5, 2], [0, 0, 10, 1], 1),
    ([3, 3, 3, 3], [0, 0, 9, 4], 2),
    // 1,500 over the root of 1,000,001 is below one and a half, and 1,501 over it is above.
    ([500, 2, 500, 2], [0, 0, 1000, 1], 1),
    ([499, 2, 499, 2], [0, 0, 1000, 1], 2),
    // The root of a half is 0.7, and that of 2 is 1.4.
    ([0, 0, 10, 10], [6, 5, 20, 5], 1),
    ([0, 0, 0, 0], [1, 1, 1, 1], 1),
    // As far as points may be: on one axis, and on both, where the distance is 3,037,000,498.56.
    ([0, 0, 0, 0], [MOST, 0, MOST, 0], 2_147_483_647),
    ([0, 0, 0, 0], [MOST, MOST, MOST, MOST], 3_037_000_499),
    ([0, 0, MOST, 0], [0, MOST, MOST, MOST], 2_147_483_647),
    // Long segments that slope, and a point beside each.
    ([0, 0, MOST, 1], [0, 1, 0, 1], 1),
    ([0, 0, MOST, MOST], [0, 1, 0, 1], 1),
];

/// The number of the first row with another gap, or none.
fn first_other(rows: &[([i64; 4], [i64; 4], u64)]) -> Option<usize> {
    for (number, &(first, second, millimetres)) in rows.iter().enumerate() {
        if !is_gap(first, second, millimetres) {
            return Some(number);
        }
    }
    None
}

#[test]
fn gaps(rt: HostRuntime) {
    assert_eq!(rt; first_other(GAPS), None);
}

// The condition does not hold for points that are as far apart as the span.
#[test]
fn no_gap_of_far_points(rt: HostRuntime) {
    let here = Pt { x: 0, y: 0 };
    let far = Pt { x: 1 << 31, y: 0 };
    assert_eq!(rt; between(here, here, here, far), None);
}

// The end that is nearest to the other segment, where the conditions of the call hold.
fn end_of(a: Pt, b: Pt, c: Pt, d: Pt) -> Option<Pt> {
    if !are_near(a, b, c) || !are_near(a, b, d) || !is_near(c, d) {
        return None;
    }
    Some(nearest_end(a, b, c, d))
}

/// Two segments, and the end that is nearest to the other one.
const ENDS: &[([i64; 4], [i64; 4], [i64; 2])] = &[
    // Each of the four.
    ([0, 5, 7, 20], [-9, 0, 9, 0], [0, 5]),
    ([0, 5, 5, 5], [5, 0, 5, 9], [5, 5]),
    ([0, 0, 10, 0], [4, 3, 6, 9], [4, 3]),
    ([0, 0, 10, 0], [5, 9, 5, 2], [5, 2]),
    // The first of equals: all four, and an end that both have.
    ([0, 0, 10, 0], [0, 3, 10, 3], [0, 0]),
    ([0, 0, 10, 0], [10, 3, 0, 3], [0, 0]),
    ([0, 0, 10, 0], [10, 0, 20, 5], [10, 0]),
    // A point, in either place.
    ([7, 7, 7, 7], [0, 0, 10, 0], [7, 7]),
    ([0, 0, 10, 0], [5, 7, 5, 7], [5, 7]),
    // They cross: two ends are 1 over the root of 101 away, and then one of them 2 over it.
    ([0, 0, 10, 1], [9, 1, 1, 0], [9, 1]),
    ([0, 0, 10, 1], [8, 1, 1, 0], [1, 0]),
    // The point is nearer than 1 by less than what a double has.
    ([0, 0, MOST, 1], [0, 1, 0, 1], [0, 1]),
];

// Whether this end is the nearest.
fn is_end(first: [i64; 4], second: [i64; 4], end: [i64; 2]) -> bool {
    let [ax, ay, bx, by] = first;
    let [cx, cy, dx, dy] = second;
    let [x, y] = end;
    let found = end_of(
        Pt { x: ax, y: ay },
        Pt { x: bx, y: by },
        Pt { x: cx, y: cy },
        Pt { x: dx, y: dy },
    );
    found == Some(Pt { x, y })
}

/// The number of the first row with another end, or none.
fn first_other_end(rows: &[([i64; 4], [i64; 4], [i64; 2])]) -> Option<usize> {
    for (number, &(first, second, end)) in rows.iter().enumerate() {
        if !is_end(first, second, end) {
            return Some(number);
        }
    }
    None
}

#[test]
fn nearest_ends(rt: HostRuntime) {
    assert_eq!(rt; first_other_end(ENDS), None);
}
