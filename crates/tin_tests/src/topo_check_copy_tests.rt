//! Copies of pieces: each changed pair is listed, in either direction of a segment.

ghost use Rattle.std.specs.Prelude.{◌≡◌, All, IfOk, length};
ghost use Rattle.tin_tests.specs.Small.{IsTried};

use crate::topo_check_tests::{at, dot, line, piece, place, stretched_tin};
use std::alloc::{AllocError, Global};
use std::test::Fail;
use tin_base::{Change, Piece, Rel, SoundTin};
use topo_check::{ChangesFault, MOST_COMPARED, changes};

/// The line, and `dots` equal points in its middle.
fn line_and_copies(alloc: Global, tin: &SoundTin, dots: u16) -> Result<Vec<Piece>, ChangesFault>
    requires { length tin.now.triangles ≡ 1 }
    ensures { IfOk result (λ pieces. All (λ piece. IsTried tin.now piece) pieces.items) }
{
    let mut pieces = Vec::new(alloc);
    pieces.push(line(tin)?)?;
    for number in 0..dots {
        pieces.push(dot(tin, at(2000, 2000), u32::from(number) + 1)?)?;
    }
    Ok(pieces)
}

/// A boundary in both directions, as two parcels have it, and a point on it whose image is beside it.
fn boundary_and_point(alloc: Global, tin: &SoundTin) -> Result<Vec<Piece>, ChangesFault>
    requires { length tin.now.triangles ≡ 1 }
    ensures { IfOk result (λ pieces. All (λ piece. IsTried tin.now piece) pieces.items) }
{
    let mut pieces = Vec::new(alloc);
    pieces.push(piece(
        tin,
        at(1000, 1000),
        at(3000, 1000),
        at(1000, 1000),
        at(3001, 1000),
        0,
    )?)?;
    pieces.push(piece(
        tin,
        at(3000, 1000),
        at(1000, 1000),
        at(3001, 1000),
        at(1000, 1000),
        1,
    )?)?;
    pieces.push(piece(
        tin,
        at(2000, 1000),
        at(2000, 1000),
        at(2000, 1001),
        at(2000, 1001),
        2,
    )?)?;
    Ok(pieces)
}

fn of_copies(alloc: Global, dots: u16, most: u32) -> Result<Vec<Change>, ChangesFault> {
    let tin = stretched_tin(alloc)?;
    let pieces = line_and_copies(alloc, &tin, dots)?;
    if pieces.len() > MOST_COMPARED {
        return Err(ChangesFault::TooMany);
    }
    changes(alloc, &tin, &pieces, most)
}

fn of_boundary(alloc: Global, most: u32) -> Result<Vec<Change>, ChangesFault> {
    let tin = stretched_tin(alloc)?;
    let pieces = boundary_and_point(alloc, &tin)?;
    if pieces.len() > MOST_COMPARED {
        return Err(ChangesFault::TooMany);
    }
    changes(alloc, &tin, &pieces, most)
}

fn left(first: u32, second: u32) -> Change {
    Change {
        first: place(first),
        second: place(second),
        was: Rel::Touching,
        now: Rel::Apart,
    }
}

/// Each of the points leaves the line, and none leaves another.
fn copy_changes(alloc: Global, dots: u16) -> Result<Vec<Change>, AllocError> {
    let mut changes = Vec::new(alloc);
    for number in 0..dots {
        changes.push(left(0, u32::from(number) + 1))?;
    }
    Ok(changes)
}

/// How many changes of the 300 points there may be, and whether they are listed.
type Row = (u32, bool);

/// Whether the changes of the points are listed, or are too many.
fn is_answered(alloc: Global, row: &Row) -> Result<bool, AllocError> {
    let wanted = copy_changes(alloc, 300)?;
    match of_copies(alloc, 300, row.0) {
        Ok(listed) => Ok(row.1 && listed.as_slice() == wanted.as_slice()),
        Err(fault) => Ok(!row.1 && fault == ChangesFault::TooMany),
    }
}

/// The number of the first row that is answered otherwise, or none.
fn first_other(alloc: Global, rows: &[Row]) -> Result<Option<usize>, AllocError> {
    for (number, row) in rows.iter().enumerate() {
        if !is_answered(alloc, row)? {
            return Ok(Some(number));
        }
    }
    Ok(None)
}

const ROWS: &[Row] = &[(300, true), (299, false), (0, false)];

#[test]
fn equal_points_change_one_by_one(rt: HostRuntime) {
    assert_eq!(rt; first_other(rt.alloc(), ROWS), Ok(None));
}

#[test]
fn a_boundary_of_two_parcels_changes_twice(rt: HostRuntime) -> Result<(), Fail> {
    let wanted = [left(0, 2), left(1, 2)];
    assert_eq!(rt; of_boundary(rt.alloc(), 2)?.as_slice(), wanted.as_slice());
    Ok(())
}

#[test]
fn both_changes_of_a_boundary_are_counted(rt: HostRuntime) {
    let fault = of_boundary(rt.alloc(), 1).err();
    assert_eq!(rt; fault, Some(ChangesFault::TooMany));
}
