//! Tests of the limits of a triangulation, at each limit and one past it.

use crate::made_tins::corner;
use tin_base::{Corner, are_within_limits};

// A corner that leaves 0 on the source's first axis and the target's second alone.
fn on_axes(sx: i64, ty: i64) -> Corner {
    corner((sx, 0), (0, ty))
}

const REACH: i64 = 1_000_000_000_000_000;

const SPAN: i64 = 2_147_483_648;

/// Two corners by their first and last numbers, the numbers of a triangle's corners, and whether they are within the
/// limits with a corner of zeros.
type Row = ((i64, i64), (i64, i64), [u32; 3], bool);

/// The number of the first row that is answered otherwise, or none.
fn first_other(rows: &[Row]) -> Option<usize> {
    for (number, &(second, third, numbers, wanted)) in rows.iter().enumerate() {
        let corners = [
            on_axes(0, 0),
            on_axes(second.0, second.1),
            on_axes(third.0, third.1),
        ];
        if are_within_limits(&corners, &[numbers]) != wanted {
            return Some(number);
        }
    }
    None
}

const ROWS: &[Row] = &[
    ((5, 0), (0, 5), [0, 1, 2], true),
    ((5, 0), (0, 5), [0, 1, 3], false),
    ((5, 0), (5, 0), [0, 1, 2], false),
    ((5, 0), (5, 1), [0, 1, 2], true),
    ((SPAN - 1, 0), (0, 5), [0, 1, 2], true),
    ((SPAN, 0), (0, 5), [0, 1, 2], false),
    ((0, -SPAN), (0, 5), [0, 1, 2], false),
    ((-1, 1), (SPAN - 1, 0), [0, 1, 2], false),
];

#[test]
fn tells_the_limits(rt: HostRuntime) {
    assert_eq!(rt; first_other(ROWS), None);
}

/// One corner by its first and last number, and whether it is in reach.
const REACHED: &[(i64, i64, bool)] = &[
    (REACH, -REACH, true),
    (REACH + 1, 0, false),
    (0, -REACH - 1, false),
];

/// The number of the first corner that is answered otherwise, or none.
fn first_other_reach(rows: &[(i64, i64, bool)]) -> Option<usize> {
    for (number, &(sx, ty, wanted)) in rows.iter().enumerate() {
        if are_within_limits(&[on_axes(sx, ty)], &[]) != wanted {
            return Some(number);
        }
    }
    None
}

#[test]
fn tells_the_reach(rt: HostRuntime) {
    assert_eq!(rt; first_other_reach(REACHED), None);
}
