//! Tests of the part of a segment in a triangle, of points in triangles, and of lines that meet.

ghost use Rattle.std.specs.Prelude.{pos, ◌<ℤ◌, IsTrue};
ghost use Rattle.plane_base.specs.Plane.{whole, turn_of, IsNearAll};

use crate::nearness::{are_near, is_near, is_near_tri};
use frac128::Frac;
use plane_base::{End, Pt, Stretch, Tri, edge_param, holds, slice, turn};

// Whether the corners are near each other, and their turn is positive.
fn is_proper(t: &Tri) -> bool
    ensures near { IsTrue result → IsNearAll t.now.a t.now.b t.now.c }
    ensures positive { IsTrue result → pos 0 <ℤ turn_of (whole t.now.a) (whole t.now.b) (whole t.now.c) }
{
    are_near(t.a, t.b, t.c) && turn(t.a, t.b, t.c) > 0
}

// The calls, where their conditions hold.
fn slice_in(a: Pt, b: Pt, t: &Tri) -> Result<Option<Stretch>, ()> {
    if !is_proper(t) || !is_near_tri(t, a) || !is_near_tri(t, b) || !is_near(a, b) {
        return Err(());
    }
    Ok(slice(a, b, t))
}

fn is_point_held(t: &Tri, p: Pt) -> Result<bool, ()> {
    if !is_proper(t) || !is_near_tri(t, p) {
        return Err(());
    }
    Ok(holds(t, p))
}

fn met(a: Pt, b: Pt, p: Pt, q: Pt) -> Result<Frac, ()> {
    if !are_near(a, b, p) || !are_near(a, b, q) || !is_near(p, q) {
        return Err(());
    }
    if turn(a, b, p) == turn(a, b, q) {
        return Err(());
    }
    Ok(edge_param(a, b, p, q))
}

fn points(row: [i64; 4]) -> (Pt, Pt) {
    let [ax, ay, bx, by] = row;
    (Pt { x: ax, y: ay }, Pt { x: bx, y: by })
}

fn corners(row: [i64; 6]) -> Tri {
    let [ax, ay, bx, by, cx, cy] = row;
    Tri {
        a: Pt { x: ax, y: ay },
        b: Pt { x: bx, y: by },
        c: Pt { x: cx, y: cy },
    }
}

// Whether the fraction has this value.
fn is_value(f: Frac, num: i128, den: i128) -> bool {
    match (f.num.checked_mul(den), num.checked_mul(f.den)) {
        (Some(x), Some(y)) => x == y,
        _ => false,
    }
}

// Where an end of a part lies: at a vertex, or on the side between two corners.
const VERTEX: End = End::Vertex;

const AB: End = End::Side(0);

const BC: End = End::Side(1);

const CA: End = End::Side(2);

type Row = Option<(i128, i128, i128, i128, End, End)>;

fn is_part(part: Option<Stretch>, row: Row) -> bool {
    match (part, row) {
        (None, None) => true,
        (Some(s), Some((lo, lo_of, hi, hi_of, enter, leave))) => {
            is_value(s.lo, lo, lo_of)
                && is_value(s.hi, hi, hi_of)
                && s.enter == enter
                && s.leave == leave
        }
        _ => false,
    }
}

// What the tables say was found in rational numbers, by rows/plane_rows.py.
const HALF: [i64; 6] = [0, 0, 10, 0, 0, 10];

const HALF_ON: [i64; 6] = [10, 0, 0, 10, 0, 0];

const LOWER: [i64; 6] = [0, 0, 10000, 0, 10000, 10000];

const UPPER: [i64; 6] = [0, 0, 10000, 10000, 0, 10000];

const WIDE: [i64; 6] = [
    -536870911, -536870911, 536870911, -536870911, 536870911, 536870911,
];

const THIN: [i64; 6] = [-536870911, 0, 536870911, 0, 536870911, 1];

/// A segment, a triangle, and what this has of it.
type Slice = ([i64; 4], [i64; 6], Row);

const SLICES: &[Slice] = &[
    ([10000, 0, 0, 10000], LOWER, Some((0, 1, 1, 2, VERTEX, CA))),
    ([10000, 0, 0, 10000], UPPER, Some((1, 2, 1, 1, AB, VERTEX))),
    ([1, 1, 2, 3], HALF, Some((0, 1, 1, 1, VERTEX, VERTEX))),
    ([-5, 5, 15, 5], HALF, Some((1, 4, 1, 2, CA, BC))),
    ([15, 5, -5, 5], HALF, Some((1, 2, 3, 4, BC, CA))),
    ([1, 1, 9, 9], HALF, Some((0, 1, 1, 2, VERTEX, BC))),
    ([9, 9, 1, 1], HALF, Some((1, 2, 1, 1, BC, VERTEX))),
    ([-4, -2, 3, 5], HALF, Some((4, 7, 1, 1, CA, VERTEX))),
    ([0, 0, 5, 5], HALF, Some((0, 1, 1, 1, VERTEX, VERTEX))),
    ([5, 5, 0, 0], HALF, Some((0, 1, 1, 1, VERTEX, VERTEX))),
    ([-5, -5, 5, 5], HALF, Some((1, 2, 1, 1, AB, VERTEX))),
    ([5, 5, -5, -5], HALF, Some((0, 1, 1, 2, VERTEX, AB))),
    ([-5, 0, 15, 0], HALF, Some((1, 4, 3, 4, CA, BC))),
    ([15, 0, -5, 0], HALF, Some((1, 4, 3, 4, BC, CA))),
    ([0, -5, 0, 15], HALF, Some((1, 4, 3, 4, AB, BC))),
    ([-5, 15, 15, -5], HALF, Some((1, 4, 3, 4, CA, AB))),
    ([15, -5, -5, 15], HALF, Some((1, 4, 3, 4, AB, CA))),
    ([-5, 15, 15, -5], HALF_ON, Some((1, 4, 3, 4, BC, CA))),
    ([-5, 0, 15, 0], HALF_ON, Some((1, 4, 3, 4, BC, AB))),
    ([5, 0, 15, 0], HALF, Some((0, 1, 1, 2, VERTEX, BC))),
    ([-3, 3, 3, -3], HALF, Some((1, 2, 1, 2, AB, AB))),
    ([3, -3, -3, 3], HALF, Some((1, 2, 1, 2, AB, AB))),
    ([10, -5, 10, 5], HALF, Some((1, 2, 1, 2, AB, AB))),
    ([-5, 10, 5, 10], HALF, Some((1, 2, 1, 2, BC, BC))),
    ([0, 10, -5, 12], HALF, Some((0, 1, 0, 1, VERTEX, BC))),
    ([-5, 12, 0, 10], HALF, Some((1, 1, 1, 1, BC, VERTEX))),
    ([5, 5, 9, 9], HALF, Some((0, 1, 0, 1, VERTEX, BC))),
    ([9, 9, 5, 5], HALF, Some((1, 1, 1, 1, BC, VERTEX))),
    ([-5, 3, 0, 3], HALF, Some((1, 1, 1, 1, CA, VERTEX))),
    ([0, 3, -5, 3], HALF, Some((0, 1, 0, 1, VERTEX, CA))),
    ([0, 0, 10, 0], HALF, Some((0, 1, 1, 1, VERTEX, VERTEX))),
    ([2, 2, 2, 2], HALF, Some((0, 1, 1, 1, VERTEX, VERTEX))),
    ([0, 0, 0, 0], HALF, Some((0, 1, 1, 1, VERTEX, VERTEX))),
    ([5, 5, 5, 5], HALF, Some((0, 1, 1, 1, VERTEX, VERTEX))),
    ([6, 5, 6, 5], HALF, None),
    ([-5, -1, 15, -1], HALF, None),
    ([-1, 0, -1, 10], HALF, None),
    ([6, 6, 15, -3], HALF, None),
    ([11, 0, 20, 0], HALF, None),
    ([-1, 12, 13, -2], HALF, None),
    ([-7, -3, 13, 8], HALF, Some((7, 20, 20, 31, CA, BC))),
    ([13, 8, -7, -3], HALF, Some((11, 31, 13, 20, BC, CA))),
    ([-7, -3, 13, 8], HALF_ON, Some((7, 20, 20, 31, BC, AB))),
    (
        [-536870911, 536870911, 536870911, -536870911],
        WIDE,
        Some((1, 2, 1, 1, CA, VERTEX)),
    ),
    (
        [-536870911, -536870911, 536870911, 536870911],
        WIDE,
        Some((0, 1, 1, 1, VERTEX, VERTEX)),
    ),
    (
        [-536870911, 1, 536870911, 0],
        THIN,
        Some((1, 2, 1, 1, CA, VERTEX)),
    ),
    (
        [536870910, 1, 536870911, -536870911],
        THIN,
        Some((1, 576460751229681665, 1, 536870912, CA, AB)),
    ),
    ([-536870911, -536870910, 536870910, 536870911], WIDE, None),
];

/// The number of the first row where the triangle has another part, or none.
fn first_other_slice(rows: &[Slice]) -> Option<usize> {
    for (number, &(segment, triangle, wanted)) in rows.iter().enumerate() {
        let (a, b) = points(segment);
        match slice_in(a, b, &corners(triangle)) {
            Ok(part) => {
                if !is_part(part, wanted) {
                    return Some(number);
                }
            }
            Err(()) => return Some(number),
        }
    }
    None
}

#[test]
fn slices(rt: HostRuntime) {
    assert_eq!(rt; first_other_slice(SLICES), None);
}

/// A triangle, a point, and whether this is in it.
const HELD: &[([i64; 6], [i64; 2], bool)] = &[
    (HALF, [0, 0], true),
    (HALF, [10, 0], true),
    (HALF, [0, 10], true),
    (HALF, [5, 5], true),
    (HALF, [3, 0], true),
    (HALF, [0, 3], true),
    (HALF, [1, 1], true),
    (HALF, [6, 5], false),
    (HALF, [-1, 0], false),
    (HALF, [3, -1], false),
    (HALF, [11, 0], false),
    (HALF, [0, 11], false),
    (THIN, [536870911, 1], true),
    (THIN, [0, 0], true),
    (THIN, [0, 1], false),
    (WIDE, [-536870911, -536870911], true),
    (WIDE, [-536870911, 536870911], false),
    (WIDE, [0, 0], true),
    (WIDE, [-1, 0], false),
    (WIDE, [0, -1], true),
];

/// The number of the first row that is answered otherwise, or none.
fn first_other_held(rows: &[([i64; 6], [i64; 2], bool)]) -> Option<usize> {
    for (number, &(triangle, [x, y], wanted)) in rows.iter().enumerate() {
        if is_point_held(&corners(triangle), Pt { x, y }) != Ok(wanted) {
            return Some(number);
        }
    }
    None
}

#[test]
fn holds_points(rt: HostRuntime) {
    assert_eq!(rt; first_other_held(HELD), None);
}

/// A segment, another, and where on it the line of the other meets it, as a fraction.
type SegmentMeeting = ([i64; 4], [i64; 4], i128, i128);

const MEETINGS: &[SegmentMeeting] = &[
    ([10000, 0, 0, 10000], [0, 0, 10000, 10000], 1, 2),
    ([0, 10000, 10000, 0], [0, 0, 10000, 10000], 1, 2),
    ([0, 0, 7, 3], [10, 0, 10, 10], 3, 7),
    ([0, 0, 7, 3], [10, 10, 10, 0], 4, 7),
    ([0, 0, 1, 0], [5, 2, 5, 6], -1, 2),
    ([0, 0, 1, 0], [5, -2, 5, 6], 1, 4),
    ([0, 0, 1, 0], [5, 6, 5, 2], 3, 2),
    (
        [-1073741823, -1073741823, 1073741823, 1073741822],
        [1073741823, -1073741823, -1073741823, 1073741823],
        2147483645,
        4294967291,
    ),
    ([3, 1, -4, 8], [2, 2, 9, 5], 0, 1),
];

/// The number of the first row of lines that meet elsewhere, or none.
fn first_other_meeting(rows: &[SegmentMeeting]) -> Option<usize> {
    for (number, &(first, second, num, den)) in rows.iter().enumerate() {
        let (a, b) = points(first);
        let (p, q) = points(second);
        match met(a, b, p, q) {
            Ok(param) => {
                if !is_value(param, num, den) {
                    return Some(number);
                }
            }
            Err(()) => return Some(number),
        }
    }
    None
}

#[test]
fn meets_edges(rt: HostRuntime) {
    assert_eq!(rt; first_other_meeting(MEETINGS), None);
}
