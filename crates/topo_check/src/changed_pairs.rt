//! The changed pairs of pieces, by one grid of boxes or by two.
ghost use Rattle.std.specs.Prelude.{◌≡◌, ◌≢◌, ◌≤◌, ℕ, ◌<◌, length, Contains, OnOk, IfOk, nat_eq};
ghost use Rattle.std.specs.List.{IsDistinct};
ghost use Rattle.topo_check.specs.declared.limits.TheConstants.{MOST_COMPARED};
ghost use Rattle.topo_check.specs.Changes.{AreAllComparable};
ghost use Rattle.tin_base.specs.declared.frames.Frame.TheVariants.{Source, Target};
ghost use Rattle.topo_check.specs.InsideBoxes.{AreBoxesOf, IsExactBox, IsRoundedBox};
ghost use Rattle.topo_check.specs.InsideImages.{IsImageBox};
ghost use Rattle.topo_check.specs.InsidePairs.{IsPass, DoesCollect, AreCollected, IsPairOf, IsPairWith, DoShareIn};

use crate::comparisons::{ChangedPair, changed_pair};
use crate::grids::{exact_grid, image_grid, rounded_grid};
use cell_grid::{Grid, each_pair_is_told_once};
use plane_base::{Rect, boxes_share_a_point_or_are_apart};
use std::alloc::{AllocError, Global};
use tin_base::{Frame, Piece, SoundTin};

/// The pairs of pieces that have changed, each once, in no order. It stops once there are more than `most`.
/// One grid finds them where each piece has a box of its images and of its rounded segment, else two do.
pub(crate) fn changed_pairs(
    alloc: Global,
    tin: &SoundTin,
    pieces: &[Piece],
    most: u32,
) -> Result<Vec<ChangedPair>, AllocError>
    requires comparable { AreAllComparable tin.now pieces.now }
    requires count { length pieces.now ≤ MOST_COMPARED }
    ensures { IfOk result (λ pairs. AreCollected tin.now pieces.now most pairs.items) }
{
    let mut boxes = Vec::with_capacity(alloc, pieces.len())?;
    match image_grid(alloc, tin, pieces, &mut boxes)? {
        Some(grid) => {
            drop(boxes);
            pairs_by_one(alloc, tin, pieces, &grid, most)
        }
        None => pairs_by_two(alloc, tin, pieces, boxes, most),
    }
}

// The changed pairs by the grid of the boxes of images: pieces whose boxes are apart are apart in both frames.
fn pairs_by_one(
    alloc: Global,
    tin: &SoundTin,
    pieces: &[Piece],
    grid: &Grid,
    most: u32,
) -> Result<Vec<ChangedPair>, AllocError>
    requires comparable { AreAllComparable tin.now pieces.now }
    requires count { length pieces.now ≤ MOST_COMPARED }
    requires boxes { AreBoxesOf (IsImageBox tin.now) pieces.now grid.now.boxes }
    ensures { IfOk result (λ pairs. AreCollected tin.now pieces.now most pairs.items) }
{
    boxes_share_a_point_or_are_apart();
    tin.show_soundness();
    let mut pairs = Vec::new(alloc);
    collect(alloc, tin, pieces, Frame::Target, grid, most, &mut pairs)?;
    Ok(pairs)
}

// The changed pairs by two grids. First the pairs whose rounded boxes share a point are compared, and then, where these
// are not too many, the others whose exact boxes share one. One grid is kept at a time; the list of boxes of the first
// is used again for the second.
fn pairs_by_two(
    alloc: Global,
    tin: &SoundTin,
    pieces: &[Piece],
    mut boxes: Vec<Rect>,
    most: u32,
) -> Result<Vec<ChangedPair>, AllocError>
    requires comparable { AreAllComparable tin.now pieces.now }
    requires count { length pieces.now ≤ MOST_COMPARED }
    ensures { IfOk result (λ pairs. AreCollected tin.now pieces.now most pairs.items) }
{
    boxes_share_a_point_or_are_apart();
    let mut pairs = Vec::new(alloc);
    collect_rounded(alloc, tin, pieces, most, &mut boxes, &mut pairs)?;
    if pairs.len() > most as usize {
        return Ok(pairs);
    }
    collect_exact(alloc, tin, pieces, most, boxes, &mut pairs)?;
    Ok(pairs)
}

/// Collects the changed pairs whose rounded boxes share a point. The list is room for the boxes.
fn collect_rounded(
    alloc: Global,
    tin: &SoundTin,
    pieces: &[Piece],
    most: u32,
    boxes: &mut Vec<Rect>,
    pairs: &mut Vec<ChangedPair>,
) -> Result<(), AllocError>
    requires comparable { AreAllComparable tin.now pieces.now }
    requires count { length pieces.now ≤ MOST_COMPARED }
    ensures { OnOk result (IsPass tin.now pieces.now most Target IsRoundedBox pairs.old.items pairs.new.items) }
{
    let grid = rounded_grid(alloc, pieces, boxes)?;
    collect(alloc, tin, pieces, Frame::Target, &grid, most, pairs)?;
    Ok(())
}

/// Collects the changed pairs whose exact boxes share a point. The list is room for the boxes, and is given back before
/// pairs are collected.
fn collect_exact(
    alloc: Global,
    tin: &SoundTin,
    pieces: &[Piece],
    most: u32,
    mut boxes: Vec<Rect>,
    pairs: &mut Vec<ChangedPair>,
) -> Result<(), AllocError>
    requires comparable { AreAllComparable tin.now pieces.now }
    requires count { length pieces.now ≤ MOST_COMPARED }
    ensures { OnOk result (IsPass tin.now pieces.now most Source (IsExactBox tin.now) pairs.old.items pairs.new.items) }
{
    let grid = exact_grid(alloc, tin, pieces, &mut boxes)?;
    drop(boxes);
    collect(alloc, tin, pieces, Frame::Source, &grid, most, pairs)?;
    Ok(())
}

// Collects the changed pairs whose boxes in the grid share a point, of those that are compared in the frame.
fn collect(
    alloc: Global,
    tin: &SoundTin,
    pieces: &[Piece],
    frame: Frame,
    grid: &Grid,
    most: u32,
    pairs: &mut Vec<ChangedPair>,
) -> Result<(), AllocError>
    requires comparable { AreAllComparable tin.now pieces.now }
    requires count { length pieces.now ≤ MOST_COMPARED }
    requires grid { length grid.now.boxes ≡ length pieces.now }
    ensures { OnOk result (DoesCollect tin.now pieces.now most (DoShareIn frame pieces.now grid.now.boxes)
        pairs.old.items pairs.new.items) }
{
    each_pair_is_told_once();
    let mut partners = Vec::new(alloc);
    let mut number = 0;
    while number < pieces.len() as u32 && pairs.len() <= most as usize {
        grid.partners(number, &mut partners)?;
        collect_with(tin, pieces, frame, number, &partners, most, pairs)?;
        number += 1;
    }
    Ok(())
}

/// Collects the changed pairs of one piece with others, of those that are compared in the frame.
pub(crate) fn collect_with(
    tin: &SoundTin,
    pieces: &[Piece],
    frame: Frame,
    number: u32,
    others: &[u32],
    most: u32,
    pairs: &mut Vec<ChangedPair>,
) -> Result<(), AllocError>
    requires comparable { AreAllComparable tin.now pieces.now }
    requires number { number < length pieces.now }
    requires once { IsDistinct nat_eq others.now }
    requires within { (other : ℕ) → Contains others.now other → other < length pieces.now }
    requires different { (other : ℕ) → Contains others.now other → other ≢ number }
    ensures { OnOk result (DoesCollect tin.now pieces.now most
        (IsPairWith frame pieces.now number (Contains others.now)) pairs.old.items pairs.new.items) }
{
    let mut place = 0;
    while place < others.len() && pairs.len() <= most as usize {
        let other = others[place];
        compare(
            tin,
            pieces,
            frame,
            number.min(other),
            number.max(other),
            most,
            pairs,
        )?;
        place += 1;
    }
    Ok(())
}

// Collects the pair of two pieces, if they have changed and are compared in the frame.
fn compare(
    tin: &SoundTin,
    pieces: &[Piece],
    frame: Frame,
    first: u32,
    second: u32,
    most: u32,
    pairs: &mut Vec<ChangedPair>,
) -> Result<(), AllocError>
    requires comparable { AreAllComparable tin.now pieces.now }
    requires earlier { first < second }
    requires second { second < length pieces.now }
    ensures { OnOk result (DoesCollect tin.now pieces.now most (IsPairOf frame pieces.now first second) pairs.old.items pairs.new.items) }
{
    if let Some(pair) = changed_pair(tin, pieces, frame, first, second) {
        pairs.push(pair)?;
    }
    Ok(())
}
