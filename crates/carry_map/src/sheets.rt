//! One call carries a sheet: it gives the images of its points and crossings, and appends its pieces in order.

ghost use Rattle.std.specs.Prelude.{◌≡◌, ℕ, ◌*◌, ◌≤◌, [], ◌++◌, List, drop, length, vec_len, IfOk, IfErr, OnOk, OnErr, IsErrOf};
ghost use Rattle.tin_base.specs.declared.pieces.Piece.{Piece};
ghost use Rattle.sheet_base.specs.declared.faults.LayerFault.{LayerFault};
ghost use Rattle.sheet_base.specs.ImageFits.{DoFit};
ghost use Rattle.sheet_pieces.specs.SheetSegments.{sheet_vertices, sheet_segments};
ghost use Rattle.sheet_pieces.specs.SheetPieces.{ArePiecesOfSheet, IsSheetInside};
ghost use Rattle.sheet_pieces.specs.SheetImages.{AreImagesOf};
ghost use Rattle.carry_map.specs.declared.limits.TheConstants.{MOST_PIECES};
ghost use Rattle.carry_map.specs.CarriedLists.{Grows, AreCarried, AreSegmentsOf};
ghost use Rattle.carry_map.specs.Causes.{IsFirstOutside, IsFirstTooMany, IsCause};

use crate::CarryFault;
use crate::guesses::guess_starts;
use crate::paths::{ImagesSoFar, PathAt, carry_path};
use sheet_base::{Heights, Images, Listed, Sheet};
use std::alloc::Global;
use tin_base::{Piece, Place};
use tin_index::TinIndex;

fn carry_paths(
    alloc: Global,
    index: &TinIndex,
    sheet: &Sheet,
    layer: u32,
    most: u32,
    pieces: &mut Vec<Piece>,
) -> Result<ImagesSoFar, CarryFault>
    requires room { vec_len pieces.old ≤ most }
    requires most { most ≤ MOST_PIECES }
    ensures carried { IfOk result (λ gathered. AreCarried index.now layer (sheet_vertices sheet.now) []
        gathered.points.items [] gathered.heights [] gathered.run.items pieces.old.items pieces.new.items) }
    ensures room { OnOk result (vec_len pieces.new ≤ most) }
    ensures few { IfOk result (λ gathered. vec_len gathered.points ≤ 2 * vec_len pieces.new) }
    ensures cause { IfErr result (λ fault. IsCause index.now layer (vec_len pieces.old) most (sheet_segments sheet.now) fault) }
    ensures grows { Grows pieces.old.items pieces.new.items }
{
    let points = sheet.points();
    let heights = sheet.heights();
    let guesses = guess_starts(alloc, index, points, sheet.paths())?;
    // (as many crossings as half of the points find room)
    let mut gathered = ImagesSoFar {
        points: Vec::with_capacity(alloc, points.len().saturating_add(points.len() / 2))?,
        heights: Heights::none(alloc, 0),
        run: Vec::with_capacity(alloc, points.len())?,
    };
    // (about as many pieces as points)
    pieces.reserve(points.len().min(most as usize - pieces.len()))?;
    for (number, row) in sheet.paths().iter().enumerate() {
        let track = PathAt {
            row: *row,
            from: Place {
                layer,
                path: number as u32,
                segment: 0,
                piece: 0,
            },
            guess: guesses.get(number).copied(),
        };
        carry_path(
            alloc,
            index,
            points,
            heights,
            track,
            most,
            &mut gathered,
            pieces,
        )?;
    }
    Ok(gathered)
}

/// Carries a layer: the images of its sheet with their heights, and its pieces, which are appended in order. `layer` is
/// its number, and with its pieces there are to be at most `most`. Each segment must be inside: all its points in source triangles.
/// At the first segment that is not, or whose pieces find no room, the answer is `Outside` or `TooMany`; a segment that
/// is outside is `Outside`. The paths with the images in place of their points have as segments, in order, those
/// between the images of the ends of the appended pieces. After a refusal the pieces are as before.
pub fn carry(
    alloc: Global,
    index: &TinIndex,
    sheet: &Sheet,
    layer: u32,
    most: u32,
    pieces: &mut Vec<Piece>,
) -> Result<Images, CarryFault>
    requires room { vec_len pieces.old ≤ most }
    requires most { most ≤ MOST_PIECES }
    // where it is carried
    ensures images { IfOk result (λ images. AreImagesOf index.now sheet.now images) }
    ensures fits { IfOk result (λ images. DoFit sheet.now images) }
    ensures pieces { OnOk result ((own : List Piece) × (pieces.new.items ≡ pieces.old.items ++ own) ×
        ArePiecesOfSheet index.now layer sheet.now own) }
    ensures inside { OnOk result (IsSheetInside index.now sheet.now) }
    ensures segments { IfOk result (λ images. AreSegmentsOf sheet.now images (drop (vec_len pieces.old) pieces.new.items)) }
    ensures room { OnOk result (vec_len pieces.new ≤ most) }
    ensures few { IfOk result (λ images. length images.points ≤ 2 * MOST_PIECES) }
    // the cause of each refusal, and what holds after it
    ensures no_layer { (fault : LayerFault) → ¬ IsErrOf result (CarryFault.Layer fault) }
    ensures outside { (path segment : ℕ) → IsErrOf result (CarryFault.Outside path segment)
        → IsFirstOutside index.now layer (vec_len pieces.old) most (sheet_segments sheet.now) path segment }
    ensures too_many { IsErrOf result CarryFault.TooMany
        → IsFirstTooMany index.now layer (vec_len pieces.old) most (sheet_segments sheet.now) }
    ensures unchanged { OnErr result (pieces.new.items ≡ pieces.old.items) }
{
    index.tin().show_soundness();
    sheet.recall();
    let before = pieces.len();
    match carry_paths(alloc, index, sheet, layer, most, pieces) {
        Ok(gathered) => Ok(Images::of(
            Listed::of(gathered.points),
            gathered.heights,
            Listed::of(gathered.run),
        )),
        Err(fault) => {
            pieces.truncate(before);
            Err(fault)
        }
    }
}
