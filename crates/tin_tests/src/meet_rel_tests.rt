//! Tests of the relation of two segments between whole points.

use crate::nearness::{are_near, is_near};
use crate::topo_check_tests::at;
use meet_rel::rel;
use plane_base::Pt;
use tin_base::Rel;

/// The relation of two segments that are near each other.
fn met(a: Pt, b: Pt, c: Pt, d: Pt) -> Option<Rel> {
    if !are_near(a, b, c) || !are_near(a, b, d) || !is_near(c, d) {
        return None;
    }
    Some(rel(a, b, c, d))
}

/// The ends of two segments, in millimetres, and the relation of the two.
type Row = ([i16; 8], Rel);

/// The number of the first row with another relation, or none.
fn first_other(rows: &[Row]) -> Option<usize> {
    for (number, &([ax, ay, bx, by, cx, cy, dx, dy], wanted)) in rows.iter().enumerate() {
        if met(at(ax, ay), at(bx, by), at(cx, cy), at(dx, dy)) != Some(wanted) {
            return Some(number);
        }
    }
    None
}

const NAMED: &[Row] = &[
    ([0, 0, 10, 0, 20, 0, 30, 0], Rel::Apart),
    ([0, 0, 10, 0, 10, 0, 20, 0], Rel::Touching),
    ([0, 0, 10, 0, 5, -5, 5, 5], Rel::Crossing),
    ([0, 0, 10, 0, 5, 0, 20, 0], Rel::Overlapping),
    ([0, 0, 10, 0, 5, 0, 5, 0], Rel::Touching),
    ([0, 0, 10, 0, 0, 0, 10, 0], Rel::Overlapping),
    ([0, 0, 10, 0, 10, 0, 0, 0], Rel::Overlapping),
    ([0, 0, 10, 0, 2, 0, 4, 0], Rel::Overlapping),
    ([2, 0, 4, 0, 0, 0, 10, 0], Rel::Overlapping),
    ([0, 0, 10, 0, 0, 1, 10, 1], Rel::Apart),
    ([0, 0, 0, 10, 0, 10, 0, 20], Rel::Touching),
    ([0, 0, 0, 10, 0, 5, 0, 20], Rel::Overlapping),
    ([0, 0, 0, 10, 0, 11, 0, 20], Rel::Apart),
    ([0, 10, 0, 0, 0, 20, 0, 5], Rel::Overlapping),
    ([0, 0, 0, 10, -5, 5, 5, 5], Rel::Crossing),
    ([0, 0, 10, 10, 5, 5, 5, 5], Rel::Touching),
    ([0, 0, 10, 10, 5, 6, 5, 6], Rel::Apart),
    ([0, 0, 10, 10, 0, 0, 0, 0], Rel::Touching),
    ([0, 0, 10, 10, 10, 10, 10, 10], Rel::Touching),
    ([0, 0, 10, 10, 11, 11, 11, 11], Rel::Apart),
    ([3, 3, 3, 3, 3, 3, 3, 3], Rel::Touching),
    ([3, 3, 3, 3, 3, 4, 3, 4], Rel::Apart),
    ([3, 3, 3, 3, 4, 3, 4, 3], Rel::Apart),
    ([3, 3, 3, 3, 0, 0, 9, 9], Rel::Touching),
    ([3, 4, 3, 4, 0, 0, 9, 9], Rel::Apart),
    ([0, 0, 10, 0, 5, 0, 5, 5], Rel::Touching),
    ([0, 0, 10, 0, 5, -5, 5, 0], Rel::Touching),
    ([5, 0, 5, 5, 0, 0, 10, 0], Rel::Touching),
    ([0, 0, 10, 0, 5, 1, 5, 5], Rel::Apart),
    ([0, 0, 10, 0, 10, 0, 10, 5], Rel::Touching),
    ([0, 0, 10, 0, 11, -5, 11, 5], Rel::Apart),
    ([0, 0, 3, 1, 1, 0, 2, 1], Rel::Crossing),
    ([0, 0, 3, 1, 1, 0, 3, 1], Rel::Touching),
    ([0, 0, 7, 3, 0, 1, 7, 2], Rel::Crossing),
    ([0, 0, 7, 3, 7, 4, 0, 1], Rel::Apart),
    ([0, 0, 9, 3, 3, 1, 6, 2], Rel::Overlapping),
    ([0, 0, 9, 3, 3, 1, 12, 4], Rel::Overlapping),
    ([0, 0, 9, 3, 9, 3, 12, 4], Rel::Touching),
    ([0, 0, 9, 3, 12, 4, 15, 5], Rel::Apart),
    ([9, 3, 0, 0, 12, 4, 6, 2], Rel::Overlapping),
    ([0, 0, 32767, 1, 32767, 0, 0, 1], Rel::Crossing),
    (
        [-32768, -32768, 32767, 32767, -32768, 32767, 32767, -32768],
        Rel::Crossing,
    ),
    ([-32768, 0, 32767, 1, -32768, 1, 32767, 2], Rel::Apart),
];

#[test]
fn named_rows(rt: HostRuntime) {
    assert_eq!(rt; first_other(NAMED), None);
}

const DRAWN: &[Row] = &[
    ([1, -2, 2, -4, -3, 4, -3, 1], Rel::Apart),
    ([-4, 4, -1, -4, -3, 2, 2, -3], Rel::Apart),
    ([-1, -3, 4, 2, -4, -3, -1, -4], Rel::Apart),
    ([2, -4, -1, -4, 4, -2, 0, 2], Rel::Apart),
    ([-2, 4, -3, 0, 4, -2, -3, -1], Rel::Apart),
    ([1, -3, 4, -3, -4, -1, 3, 4], Rel::Apart),
    ([2, 1, 3, 3, 1, 0, -1, -2], Rel::Apart),
    ([-1, -3, 0, 4, 3, 1, 3, 0], Rel::Apart),
    ([3, -3, -3, 0, 3, -3, -4, 0], Rel::Touching),
    ([-2, 2, 4, 0, 2, 1, 2, -1], Rel::Crossing),
    ([-2, 0, 1, 1, 3, -3, -3, 3], Rel::Crossing),
    ([-1, -1, -1, 2, -1, -1, 4, 3], Rel::Touching),
    ([0, 4, 2, -2, -4, 1, 3, 4], Rel::Crossing),
    ([2, 4, -2, 4, -2, 4, 4, -4], Rel::Touching),
    ([3, -2, -4, -2, -2, -2, 3, -3], Rel::Touching),
    ([4, -4, 1, 4, 4, 4, 3, -3], Rel::Crossing),
    ([0, -3, -2, 1, -2, 0, -2, 3], Rel::Touching),
    ([1, -4, 1, 4, 3, 3, -4, 2], Rel::Crossing),
    ([0, -3, -1, -3, 0, -3, 3, -4], Rel::Touching),
    ([4, 3, -1, 3, -3, 2, 3, 4], Rel::Crossing),
    ([2, 1, -4, -2, -4, -3, 0, 2], Rel::Crossing),
    ([-4, 3, -2, -2, 0, 3, -4, 0], Rel::Crossing),
    ([-2, -4, 4, 2, 4, -2, 4, 4], Rel::Touching),
    ([-3, 3, 0, -3, 0, -1, -1, -1], Rel::Touching),
    ([-3, -3, -1, -3, -4, -3, 3, -3], Rel::Overlapping),
    ([-1, 3, -4, 3, -2, 3, 3, 3], Rel::Overlapping),
    ([3, 2, 3, -4, 3, 3, 3, -2], Rel::Overlapping),
    ([4, -2, 4, 0, 4, -1, 4, 1], Rel::Overlapping),
    ([-1, -2, 3, -1, 3, -1, -1, -2], Rel::Overlapping),
    ([3, -4, 0, -4, 1, -4, -3, -4], Rel::Overlapping),
    ([3, -2, 3, 3, 3, -2, 3, 3], Rel::Overlapping),
    ([-1, 0, 1, 3, -3, -3, 1, 3], Rel::Overlapping),
];

#[test]
fn drawn_rows(rt: HostRuntime) {
    assert_eq!(rt; first_other(DRAWN), None);
}
