//! The grids of pieces: of boxes of their images, or of the exact pieces and of their rounded segments apart.
ghost use Rattle.std.specs.Prelude.{◌<◌, ◌≤◌, All, IfOk, IfSome, IsTrue, OnOk, length};
ghost use Rattle.tin_base.specs.Pieces.{IsPieceInside};
ghost use Rattle.meet_rel.specs.Near.{AreNear};
ghost use Rattle.topo_check.specs.declared.limits.TheConstants.{MOST_COMPARED};
ghost use Rattle.topo_check.specs.Changes.{piece_at};
ghost use Rattle.topo_check.specs.InsideBoxes.{AreBoxesOf, IsExactBox, IsRoundedBox};
ghost use Rattle.topo_check.specs.InsideImages.{IsImageBox};

use crate::boxes::{exact_box, outer_box, rounded_box};
use crate::image_boxes::image_box;
use crate::limits::FEW_PIECES;
use cell_grid::Grid;
use plane_base::Rect;
use std::alloc::{AllocError, Global};
use tin_base::{Piece, SoundTin};

/// The grid of the images of the exact pieces with their rounded segments, if each has a box of both. The list is room
/// for their boxes.
pub(crate) fn image_grid(
    alloc: Global,
    tin: &SoundTin,
    pieces: &[Piece],
    boxes: &mut Vec<Rect>,
) -> Result<Option<Grid>, AllocError>
    requires inside { All (λ piece. IsPieceInside tin.now piece) pieces.now }
    requires count { length pieces.now ≤ MOST_COMPARED }
    ensures { IfOk result (λ found. IfSome found (λ grid. AreBoxesOf (IsImageBox tin.now) pieces.now grid.boxes)) }
{
    tin.show_soundness();
    if !image_boxes(tin, pieces, boxes)? {
        return Ok(None);
    }
    let grid = Grid::build(alloc, boxes)?;
    Ok(Some(grid))
}

// The boxes of the images of the exact pieces with their rounded segments, in their order, and whether each has one.
fn image_boxes(tin: &SoundTin, pieces: &[Piece], boxes: &mut Vec<Rect>) -> Result<bool, AllocError>
    requires { All (λ piece. IsPieceInside tin.now piece) pieces.now }
    ensures { IfOk result (λ all. IsTrue all → AreBoxesOf (IsImageBox tin.now) pieces.now boxes.new.items) }
{
    boxes.clear();
    let mut number = 0;
    while number < pieces.len() {
        let exact = box_at(tin, pieces, number);
        match image_box(tin, &pieces[number], &exact) {
            Some(rect) => boxes.push(rect)?,
            None => return Ok(false),
        }
        number += 1;
    }
    Ok(true)
}

/// The grid of the segments between the rounded images of their ends. The list is room for their boxes.
pub(crate) fn rounded_grid(
    alloc: Global,
    pieces: &[Piece],
    boxes: &mut Vec<Rect>,
) -> Result<Grid, AllocError>
    requires near { All (λ p. All (λ q. AreNear p.ia p.ib q.ia q.ib) pieces.now) pieces.now }
    requires count { length pieces.now ≤ MOST_COMPARED }
    ensures { IfOk result (λ grid. AreBoxesOf IsRoundedBox pieces.now grid.boxes) }
{
    rounded_boxes(pieces, boxes)?;
    let grid = Grid::build(alloc, boxes)?;
    Ok(grid)
}

/// The grid of the exact pieces. The list is room for their boxes.
pub(crate) fn exact_grid(
    alloc: Global,
    tin: &SoundTin,
    pieces: &[Piece],
    boxes: &mut Vec<Rect>,
) -> Result<Grid, AllocError>
    requires inside { All (λ piece. IsPieceInside tin.now piece) pieces.now }
    requires count { length pieces.now ≤ MOST_COMPARED }
    ensures { IfOk result (λ grid. AreBoxesOf (IsExactBox tin.now) pieces.now grid.boxes) }
{
    tin.show_soundness();
    exact_boxes(tin, pieces, boxes)?;
    let grid = Grid::build(alloc, boxes)?;
    Ok(grid)
}

// The boxes of the exact pieces, in their order.
fn exact_boxes(tin: &SoundTin, pieces: &[Piece], boxes: &mut Vec<Rect>) -> Result<(), AllocError>
    requires { All (λ piece. IsPieceInside tin.now piece) pieces.now }
    ensures { OnOk result (AreBoxesOf (IsExactBox tin.now) pieces.now boxes.new.items) }
{
    boxes.clear();
    let mut number = 0;
    while number < pieces.len() {
        boxes.push(box_at(tin, pieces, number))?;
        number += 1;
    }
    Ok(())
}

// A box of the exact piece of a number. Only for a piece of a segment of many pieces are its exact ends asked for: they
// take a division each.
fn box_at(tin: &SoundTin, pieces: &[Piece], number: usize) -> Rect
    requires inside { All (λ piece. IsPieceInside tin.now piece) pieces.now }
    requires number { number < length pieces.now }
    ensures { IsExactBox tin.now (piece_at pieces.now number) result }
{
    let piece = &pieces[number];
    if is_of_many(pieces, number) {
        exact_box(tin, piece)
    } else {
        outer_box(tin, piece)
    }
}

// Whether the piece is of a segment of many pieces: others come before it, or after it in the list. It says only which
// box is worth its time.
fn is_of_many(pieces: &[Piece], number: usize) -> bool
    requires { number < length pieces.now }
{
    let from = pieces[number].from;
    if from.piece as usize >= FEW_PIECES {
        return true;
    }
    match pieces.get(number.saturating_add(FEW_PIECES)) {
        Some(other) => {
            other.from.layer == from.layer
                && other.from.path == from.path
                && other.from.segment == from.segment
        }
        None => false,
    }
}

// The boxes of the segments between the rounded images of their ends, in their order.
fn rounded_boxes(pieces: &[Piece], boxes: &mut Vec<Rect>) -> Result<(), AllocError>
    ensures { OnOk result (AreBoxesOf IsRoundedBox pieces.now boxes.new.items) }
{
    boxes.clear();
    for piece in pieces {
        boxes.push(rounded_box(piece))?;
    }
    Ok(())
}
