//! One call carries a segment: it cuts it, and appends its pieces and the images of its crossings.

ghost use Rattle.std.specs.Prelude.{◌≡◌, ◌+◌, ◌<◌, ◌≤◌, ◌^◌, ◌++◌, map, length, vec_len, IfOk, IfErr};
ghost use Rattle.std.specs.Prelude.{OnOk};
ghost use Rattle.seg_walk.specs.Steps.{AreSteps};
ghost use Rattle.tin_base.specs.Limits.{IsWithinLimits};
ghost use Rattle.tin_base.specs.Segments.{IsInside, spot_at};
ghost use Rattle.tin_base.specs.Slices.{spot_of, IsSliceIn, AreNearTriangle};
ghost use Rattle.tin_base.specs.Soundness.{IsSound};
ghost use Rattle.affine_image.specs.RoundedImages.{IsRoundedImage, IsRoundedImageAt};
ghost use Rattle.carry_map.specs.declared.limits.TheConstants.{MOST_PIECES};
ghost use Rattle.carry_map.specs.CarriedLists.{Grows, AreSegmentTold, IsSegmentTold, IsSegmentCarried};
ghost use Rattle.sheet_pieces.specs.SpotHeights.{param_height};
ghost use Rattle.carry_map.specs.InsideStepHeights.{HaveParams};
ghost use Rattle.sheet_base.specs.PointHeights.{IsHeightWithinReach};
ghost use Rattle.carry_map.specs.Causes.{IsCutCause, IsWayCause};
ghost use Rattle.carry_map.specs.InsideStarts.{IsStart};

use crate::CarryFault;
use affine_image::end_image;
use plane_base::{Pt, is_same};
use seg_walk::{Step, Steps, WalkFault, cut_from, cut_in};
use sheet_base::Heights;
use sheet_pieces::{EndHeights, height_between};
use std::alloc::Global;
use tin_base::{Piece, Place, SoundTin};
use tin_index::TinIndex;

/// What is known of the triangle in which a segment starts.
#[derive(Clone, Copy)]
pub(crate) enum Start {
    /// The least that contains the first end.
    Found(u32),
    /// It may be the one of this number.
    Guessed(u32),
}

/// A segment, the place of its first piece, and where it starts.
#[derive(Clone, Copy)]
pub(crate) struct PathSegment {
    pub(crate) a: Pt,
    pub(crate) b: Pt,
    pub(crate) from: Place,
    pub(crate) start: Start,
}

/// The image of the last point of a step's part, where the segment's first end has this image: a segment of one point
/// has no other.
fn end_of(tin: &SoundTin, way: PathSegment, step: Step, image: Pt) -> Pt
    requires in_range { step.tri < length tin.now.triangles }
    requires slice { IsSliceIn tin.now way.a way.b step.tri step.slice }
    requires near { AreNearTriangle tin.now way.a way.b step.tri }
    requires limits { IsWithinLimits tin.now }
    requires image { IsRoundedImage tin.now way.a image }
    ensures { IsRoundedImageAt tin.now (spot_at way.a way.b (spot_of step.slice.hi)) result }
{
    if is_same(way.a, way.b) {
        return image;
    }
    end_image(tin, step.tri, way.a, way.b, step.slice)
}

/// Appends the pieces of a segment, whose first end has this image. Answers the image of its last end.
fn tell_pieces(
    tin: &SoundTin,
    way: PathSegment,
    steps: &[Step],
    image: Pt,
    pieces: &mut Vec<Piece>,
) -> Result<Pt, CarryFault>
    requires limits { IsWithinLimits tin.now }
    requires sound { IsSound tin.now }
    requires steps { AreSteps tin.now way.a way.b steps.now }
    requires few { length steps.now ≤ MOST_PIECES }
    requires inside { IsInside tin.now way.a way.b }
    requires image { IsRoundedImage tin.now way.a image }
    requires first { way.from.piece ≡ 0 }
    ensures told { OnOk result (AreSegmentTold tin.now way.a way.b way.from pieces.old.items pieces.new.items) }
    ensures count { OnOk result (vec_len pieces.new ≡ vec_len pieces.old + length steps.now) }
    ensures end { IfOk result (λ end. IsRoundedImage tin.now way.b end) }
    ensures memory { IfErr result (λ fault. fault ≡ CarryFault.NoMemory) }
    ensures grows { Grows pieces.old.items pieces.new.items }
{
    let mut start = image;
    for (number, step) in steps.iter().enumerate() {
        let end = end_of(tin, way, *step, image);
        let from = Place {
            layer: way.from.layer,
            path: way.from.path,
            segment: way.from.segment,
            piece: number as u32,
        };
        pieces.push(Piece {
            a: way.a,
            b: way.b,
            tri: step.tri,
            ia: start,
            ib: end,
            from,
        })?;
        start = end;
    }
    Ok(start)
}

/// Appends the images of the last points of some pieces.
fn push_ends(pieces: &[Piece], points: &mut Vec<Pt>) -> Result<(), CarryFault>
    ensures ok { OnOk result (points.new.items ≡ points.old.items ++ map (λ piece. piece.ib) pieces.now) }
    ensures memory { IfErr result (λ fault. fault ≡ CarryFault.NoMemory) }
{
    for piece in pieces {
        points.push(piece.ib)?;
    }
    Ok(())
}

/// Appends the heights of the last points of some steps' parts.
fn push_heights(ends: EndHeights, steps: &[Step], heights: &mut Heights) -> Result<(), CarryFault>
    requires from { IsHeightWithinReach ends.from }
    requires to { IsHeightWithinReach ends.to }
    requires between { HaveParams steps.now }
    requires few { length heights.old + length steps.now < 2 ^ 32 }
    ensures ok { OnOk result (heights.new ≡ heights.old ++ map (λ step. param_height ends.from ends.to step.slice.hi) steps.now) }
    ensures memory { IfErr result (λ fault. fault ≡ CarryFault.NoMemory) }
{
    for step in steps {
        heights.push(height_between(ends, step.slice.hi))?;
    }
    Ok(())
}

/// The pieces of a segment, with the slices of their triangles.
fn cut_way(alloc: Global, index: &TinIndex, way: PathSegment) -> Result<Steps, CarryFault>
    requires start { IsStart index.now way.a way.start }
    ensures steps { IfOk result (λ steps. AreSteps index.now way.a way.b steps.items) }
    ensures inside { OnOk result (IsInside index.now way.a way.b) }
    ensures cause { IfErr result (λ fault. IsCutCause index.now way fault) }
{
    let cut = match way.start {
        Start::Found(triangle) => cut_in(alloc, index, way.a, way.b, triangle),
        Start::Guessed(triangle) => cut_from(alloc, index, way.a, way.b, triangle),
    };
    match cut {
        Ok(steps) => Ok(steps),
        Err(WalkFault::Outside) => Err(CarryFault::Outside {
            path: way.from.path,
            segment: way.from.segment,
        }),
        Err(WalkFault::NoMemory) => Err(CarryFault::NoMemory),
    }
}

/// Cuts a segment, whose first end has this image, and appends its pieces where they find room. Answers the image of
/// its last end. The heights of its crossings are appended too.
fn tell_segment(
    alloc: Global,
    index: &TinIndex,
    way: PathSegment,
    ends: EndHeights,
    most: u32,
    image: Pt,
    heights: &mut Heights,
    pieces: &mut Vec<Piece>,
) -> Result<Pt, CarryFault>
    requires start { IsStart index.now way.a way.start }
    requires image { IsRoundedImage index.now way.a image }
    requires from { IsHeightWithinReach ends.from }
    requires to { IsHeightWithinReach ends.to }
    requires few { length heights.old < 2 ^ 31 }
    requires first { way.from.piece ≡ 0 }
    requires room { vec_len pieces.old ≤ most }
    requires most { most ≤ MOST_PIECES }
    ensures told { OnOk result (IsSegmentTold index.now way.a way.b (record { from = ends.from; to = ends.to })
        way.from heights.old heights.new pieces.old.items pieces.new.items) }
    ensures more { OnOk result (vec_len pieces.old < vec_len pieces.new) }
    ensures room { OnOk result (vec_len pieces.new ≤ most) }
    ensures end { IfOk result (λ end. IsRoundedImage index.now way.b end) }
    ensures inside { OnOk result (IsInside index.now way.a way.b) }
    ensures cause { IfErr result (λ fault. IsWayCause index.now way (vec_len pieces.old) most fault) }
    ensures grows { Grows pieces.old.items pieces.new.items }
{
    let steps = cut_way(alloc, index, way)?;
    let tin = index.tin();
    tin.show_soundness();
    let found = steps.as_slice();
    if found.len() > most as usize - pieces.len() {
        return Err(CarryFault::TooMany);
    }
    push_heights(ends, &found[..found.len() - 1], heights)?;
    let end = tell_pieces(tin, way, found, image, pieces)?;
    Ok(end)
}

/// Appends the pieces of a segment, whose first end has this image, and the images and heights of its crossings.
/// Answers the image of its last end.
pub(crate) fn carry_segment(
    alloc: Global,
    index: &TinIndex,
    way: PathSegment,
    ends: EndHeights,
    most: u32,
    image: Pt,
    points: &mut Vec<Pt>,
    heights: &mut Heights,
    pieces: &mut Vec<Piece>,
) -> Result<Pt, CarryFault>
    requires start { IsStart index.now way.a way.start }
    requires image { IsRoundedImage index.now way.a image }
    requires from { IsHeightWithinReach ends.from }
    requires to { IsHeightWithinReach ends.to }
    requires few { length heights.old < 2 ^ 31 }
    requires first { way.from.piece ≡ 0 }
    requires room { vec_len pieces.old ≤ most }
    requires most { most ≤ MOST_PIECES }
    ensures carried { OnOk result (IsSegmentCarried index.now way.a way.b
        (record { from = ends.from; to = ends.to }) way.from points.old.items points.new.items heights.old
        heights.new pieces.old.items pieces.new.items) }
    ensures count { OnOk result (vec_len points.new + vec_len pieces.old + 1 ≡ vec_len points.old + vec_len pieces.new) }
    ensures room { OnOk result (vec_len pieces.new ≤ most) }
    ensures more { OnOk result (vec_len pieces.old < vec_len pieces.new) }
    ensures end { IfOk result (λ end. IsRoundedImage index.now way.b end) }
    ensures inside { OnOk result (IsInside index.now way.a way.b) }
    ensures cause { IfErr result (λ fault. IsWayCause index.now way (vec_len pieces.old) most fault) }
    ensures grows { Grows pieces.old.items pieces.new.items }
{
    let before = pieces.len();
    let end = tell_segment(alloc, index, way, ends, most, image, heights, pieces)?;
    let own = &pieces[before..];
    push_ends(&own[..own.len() - 1], points)?;
    Ok(end)
}
