//! Tests of the order and the rounding of fractions, up to the largest.

use frac128::{Frac, TURN, half_up, order};
use std::cmp::Ordering;

/// The fraction of these numbers, or none where they are past the limits.
fn frac(num: i128, den: i128) -> Option<Frac> {
    if den <= 0 || den >= TURN {
        return None;
    }
    if num <= -TURN || num >= TURN {
        return None;
    }
    Some(Frac { num, den })
}

/// Two fractions, and their order.
type Row = ((i128, i128), (i128, i128), Ordering);

/// Whether the fractions have this order.
fn are_ordered(row: &Row) -> bool {
    let (first, second) = (row.0, row.1);
    match (frac(first.0, first.1), frac(second.0, second.1)) {
        (Some(first), Some(second)) => order(first, second) == row.2,
        _ => false,
    }
}

/// The number of the first row of fractions in another order, or none.
fn first_other(rows: &[Row]) -> Option<usize> {
    for (number, row) in rows.iter().enumerate() {
        if !are_ordered(row) {
            return Some(number);
        }
    }
    None
}

const ORDERED: &[Row] = &[
    ((1, 2), (2, 4), Ordering::Equal),
    ((1, 3), (1, 2), Ordering::Less),
    ((1, 2), (1, 3), Ordering::Greater),
    ((-3, 2), (1, 3), Ordering::Less),
    ((-3, 2), (-4, 2), Ordering::Greater),
];

#[test]
fn orders_values(rt: HostRuntime) {
    assert_eq!(rt; first_other(ORDERED), None);
}

const LARGEST: &[Row] = &[((TURN - 2, TURN - 1), (TURN - 1, TURN - 1), Ordering::Less)];

#[test]
fn orders_the_largest(rt: HostRuntime) {
    assert_eq!(rt; first_other(LARGEST), None);
}

/// What the fraction of these numbers is rounded to, or none where they are past the limits.
fn rounded_value(num: i128, den: i128) -> Option<i128> {
    if den <= 0 || den >= 2 * TURN {
        return None;
    }
    if num.unsigned_abs() >= 1 << 120 {
        return None;
    }
    Some(half_up(num, den))
}

/// The number of the first row that is rounded otherwise, or none.
fn first_other_rounded(rows: &[(i128, i128, i128)]) -> Option<usize> {
    for (number, &(num, den, wanted)) in rows.iter().enumerate() {
        if rounded_value(num, den) != Some(wanted) {
            return Some(number);
        }
    }
    None
}

/// Numerators, denominators, and what their fractions are rounded to.
const ROUNDED: &[(i128, i128, i128)] = &[
    (5, 2, 3),
    (-5, 2, -2),
    (-3, 2, -1),
    (1, 2, 1),
    (-1, 2, 0),
    (7, 3, 2),
    (8, 3, 3),
    (-7, 3, -2),
    (-8, 3, -3),
    (0, 9, 0),
    (102_500_500, 1000, 102_501),
];

#[test]
fn rounds_half_up(rt: HostRuntime) {
    assert_eq!(rt; first_other_rounded(ROUNDED), None);
}

const MOST: i128 = (1 << 120) - 1;

const LARGEST_ROUNDED: &[(i128, i128, i128)] = &[
    (MOST, (1 << 64) - 1, 72_057_594_037_927_936),
    (-MOST, 2, -664_613_997_892_457_936_451_903_530_140_172_287),
];

#[test]
fn rounds_the_largest(rt: HostRuntime) {
    assert_eq!(rt; first_other_rounded(LARGEST_ROUNDED), None);
}
