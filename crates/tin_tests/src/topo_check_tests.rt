//! Tests of the list of changes by rounding, and of its limit.

ghost use Rattle.std.specs.Prelude.{◌≡◌, All, pos, ◌<ℤ◌, length, IsTrue, IfOk};
ghost use Rattle.plane_base.specs.Plane.{whole, turn_of, IsNear, holds_of};
ghost use Rattle.tin_base.specs.Pieces.{IsPieceInside};
ghost use Rattle.tin_tests.specs.Small.{IsSmall, IsSmallPiece, IsTried};

use crate::made_tins::{corner, sound_of, tin_of};
use crate::nearness::is_near_tri;
use plane_base::{Pt, Tri, holds};
use std::alloc::{AllocError, Global};
use tin_base::{Change, Corner, Frame, Piece, Place, Rel, SoundTin};
use topo_check::{ChangesFault, MOST_COMPARED, changes};

/// A point, in millimetres.
pub(crate) fn at(x: i16, y: i16) -> Pt
    ensures { IsSmall result }
{
    Pt {
        x: i64::from(x),
        y: i64::from(y),
    }
}

/// The triangulation of these corners, if its triangle is neither flat nor turned over. Of others it says that memory
/// is short, which no test wants.
fn one_triangle(alloc: Global, corners: &[Corner]) -> Result<SoundTin, ChangesFault>
    ensures { IfOk result (λ tin. length tin.triangles ≡ 1) }
{
    let corners = Vec::from_slice(alloc, corners)?;
    let triangles = vec![in alloc; [0, 1, 2]]?;
    let Some(tin) = tin_of(corners, triangles, 0) else {
        return Err(ChangesFault::NoMemory);
    };
    match sound_of(tin) {
        Some(sound) => Ok(sound),
        None => Err(ChangesFault::NoMemory),
    }
}

/// The piece of a segment of the triangle.
pub(crate) fn piece(
    tin: &SoundTin,
    a: Pt,
    b: Pt,
    ia: Pt,
    ib: Pt,
    path: u32,
) -> Result<Piece, ChangesFault>
    requires one { length tin.now.triangles ≡ 1 }
    requires ia { IsSmall ia }
    requires ib { IsSmall ib }
    ensures inside { IfOk result (λ piece. IsPieceInside tin.now piece) }
    ensures small { IfOk result (λ piece. IsSmallPiece piece) }
{
    let tri = tin.tri(0, Frame::Source);
    if !does_hold(&tri, a) {
        return Err(ChangesFault::NoMemory);
    }
    if !does_hold(&tri, b) {
        return Err(ChangesFault::NoMemory);
    }
    Ok(Piece {
        a,
        b,
        tri: 0,
        ia,
        ib,
        from: Place {
            layer: 0,
            path,
            segment: 0,
            piece: 0,
        },
    })
}

pub(crate) fn does_hold(t: &Tri, p: Pt) -> bool
    requires near { IsNear t.now.a t.now.b × IsNear t.now.a t.now.c × IsNear t.now.b t.now.c }
    requires positive { pos 0 <ℤ turn_of (whole t.now.a) (whole t.now.b) (whole t.now.c) }
    ensures { IsTrue result → holds_of t.now p }
{
    if !is_near_tri(t, p) {
        return false;
    }
    holds(t, p)
}

/// A triangle whose first target numbers are three parts in ten thousand greater.
pub(crate) fn stretched_tin(alloc: Global) -> Result<SoundTin, ChangesFault>
    ensures { IfOk result (λ tin. length tin.triangles ≡ 1) }
{
    let corners = [
        corner((0, 0), (0, 0)),
        corner((10_000, 0), (10_003, 0)),
        corner((0, 10_000), (0, 10_000)),
    ];
    one_triangle(alloc, &corners)
}

/// A line whose image is turned about its first end.
pub(crate) fn line(tin: &SoundTin) -> Result<Piece, ChangesFault>
    requires { length tin.now.triangles ≡ 1 }
    ensures { IfOk result (λ piece. IsTried tin.now piece) }
{
    let line = piece(tin, at(0, 0), at(4000, 4000), at(0, 0), at(4001, 4000), 0)?;
    Ok(line)
}

/// A point that keeps its numbers.
pub(crate) fn dot(tin: &SoundTin, p: Pt, path: u32) -> Result<Piece, ChangesFault>
    requires one { length tin.now.triangles ≡ 1 }
    requires small { IsSmall p }
    ensures { IfOk result (λ piece. IsTried tin.now piece) }
{
    let dot = piece(tin, p, p, p, p, path)?;
    Ok(dot)
}

/// The line, and `dots` points at each ten millimetres of it, each followed by one that is far from the line.
fn line_and_dots(alloc: Global, tin: &SoundTin, dots: u8) -> Result<Vec<Piece>, ChangesFault>
    requires { length tin.now.triangles ≡ 1 }
    ensures { IfOk result (λ pieces. All (λ piece. IsTried tin.now piece) pieces.items) }
{
    let mut pieces = Vec::new(alloc);
    pieces.push(line(tin)?)?;
    for number in 0..dots {
        let way = 10 * i16::from(number);
        let path = 2 * u32::from(number);
        pieces.push(dot(tin, at(way, way), path + 1)?)?;
        pieces.push(dot(tin, at(5000 + way, way), path + 2)?)?;
    }
    Ok(pieces)
}

fn dot_changes(alloc: Global, dots: u8, most: u32) -> Result<Vec<Change>, ChangesFault> {
    let tin = stretched_tin(alloc)?;
    let pieces = line_and_dots(alloc, &tin, dots)?;
    if pieces.len() > MOST_COMPARED {
        return Err(ChangesFault::TooMany);
    }
    changes(alloc, &tin, &pieces, most)
}

/// The one piece of the one segment of a path.
pub(crate) fn place(path: u32) -> Place {
    Place {
        layer: 0,
        path,
        segment: 0,
        piece: 0,
    }
}

/// The points of the line leave it, except the first one, about which it turns.
fn leaving_changes(alloc: Global, dots: u8) -> Result<Vec<Change>, AllocError> {
    let mut changes = Vec::new(alloc);
    for number in 1..dots {
        changes.push(Change {
            first: place(0),
            second: place(2 * u32::from(number) + 1),
            was: Rel::Touching,
            now: Rel::Apart,
        })?;
    }
    Ok(changes)
}

/// How many points are on the line, how many changes there may be, and whether they are listed.
type Row = (u8, u32, bool);

/// Whether the changes are listed, or are too many.
fn is_answered(alloc: Global, row: &Row) -> Result<bool, AllocError> {
    let wanted = leaving_changes(alloc, row.0)?;
    match dot_changes(alloc, row.0, row.1) {
        Ok(listed) => Ok(row.2 && listed.as_slice() == wanted.as_slice()),
        Err(fault) => Ok(!row.2 && fault == ChangesFault::TooMany),
    }
}

/// The number of the first row that is answered otherwise, or none.
fn first_other(alloc: Global, rows: &[Row]) -> Result<Option<usize>, AllocError> {
    for (number, row) in rows.iter().enumerate() {
        if !is_answered(alloc, row)? {
            return Ok(Some(number));
        }
    }
    Ok(None)
}

const ROWS: &[Row] = &[
    (1, 0, true),
    (2, 1, true),
    (150, 149, true),
    (150, 1 << 20, true),
    (150, 148, false),
];

#[test]
fn lists_what_rounding_changed(rt: HostRuntime) {
    assert_eq!(rt; first_other(rt.alloc(), ROWS), Ok(None));
}
