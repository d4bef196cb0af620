//! Calls of the crates below, put together over a square of two triangles. What is expected is worked out by hand.

use carry_map::{MOST_PIECES, carry};
use plane_base::Pt;
use sheet_base::{How, Layer};
use std::alloc::Global;
use tin_base::{Change, Place, Rel};
use tin_check::check_tin;
use tin_file::read_tin;
use tin_index::TinIndex;
use tin_texts::SQUARE;
use topo_check::{ChangesFault, changes};
use wkt_layer::Wkt;

/// A line across the diagonal, and a point of it.
const LAYER: &[u8] = b"LINESTRING (10 0, 0 10)\nPOINT (6 4)";

const PLAIN: How = How {
    exact: false,
    drop_other: false,
    inside_only: false,
};

fn index_of(alloc: Global) -> Option<TinIndex> {
    let tin = read_tin(alloc, SQUARE.as_bytes(), PLAIN).ok()?;
    TinIndex::build(alloc, check_tin(alloc, tin).ok()?).ok()
}

/// The changes of the layer's pieces, where it is carried.
fn changes_of(alloc: Global, most: u32) -> Option<Result<Vec<Change>, ChangesFault>> {
    let index = index_of(alloc)?;
    let sheet = Wkt::read(alloc, LAYER, PLAIN).ok()?;
    let mut pieces = Vec::new(alloc);
    match carry(alloc, &index, &sheet, 0, MOST_PIECES, &mut pieces) {
        Ok(_) => {
            index.tin().show_soundness();
            Some(changes(alloc, index.tin(), &pieces, most))
        }
        Err(_) => None,
    }
}

/// The point that rounding takes off the line.
const TAKEN_OFF: &[Change] = &[Change {
    first: Place {
        layer: 0,
        path: 0,
        segment: 0,
        piece: 0,
    },
    second: Place {
        layer: 0,
        path: 1,
        segment: 0,
        piece: 0,
    },
    was: Rel::Touching,
    now: Rel::Apart,
}];

/// Whether these are the changes of the layer's pieces, where this many may be.
fn are_changes(alloc: Global, most: u32, wanted: &[Change]) -> bool {
    match changes_of(alloc, most) {
        Some(Ok(listed)) => listed.as_slice() == wanted,
        _ => false,
    }
}

#[test]
fn a_point_that_rounding_takes_off_a_line_is_listed(rt: HostRuntime) {
    assert!(rt; are_changes(rt.alloc(), 8, TAKEN_OFF));
}

#[test]
fn more_changes_than_there_may_be_are_refused(rt: HostRuntime) {
    let none = changes_of(rt.alloc(), 0);
    assert!(rt; matches!(none, Some(Err(ChangesFault::TooMany))));
}

/// Points in millimetres, and the least triangle that has each.
const LOCATED: &[(i64, i64, Option<u32>)] = &[
    (5_000, 5_000, Some(0)),
    (0, 10_000, Some(1)),
    (10_001, 0, None),
];

/// Whether this is the triangle of the point.
fn is_located(index: &TinIndex, &(x, y, wanted): &(i64, i64, Option<u32>)) -> bool {
    index.locate(Pt { x, y }) == wanted
}

/// The number of the first point that is found in another triangle, or none.
fn first_other(alloc: Global, rows: &[(i64, i64, Option<u32>)]) -> Option<usize> {
    let Some(index) = index_of(alloc) else {
        return Some(rows.len());
    };
    for (number, row) in rows.iter().enumerate() {
        if !is_located(&index, row) {
            return Some(number);
        }
    }
    None
}

#[test]
fn a_point_has_its_least_triangle(rt: HostRuntime) {
    assert_eq!(rt; first_other(rt.alloc(), LOCATED), None);
}
