//! One call carries a path: it appends the images of its points and crossings, and the pieces of its segments.

ghost use Rattle.std.specs.Prelude.{◌≡◌, ℕ, ◌+◌, ◌*◌, ◌<◌, ◌≤◌, ◌^◌, [], ◌∷◌, ◌++◌, length, vec_len, IfSome, IfNone, All};
ghost use Rattle.std.specs.Prelude.{IfErr, OnOk};
ghost use Rattle.plane_base.specs.Plane.{whole};
ghost use Rattle.tin_base.specs.declared.frames.Frame.TheVariants.{Source};
ghost use Rattle.tin_base.specs.Images.{IsInSome};
ghost use Rattle.sheet_base.specs.Segments.{points_in, segments_in, begin_of, end_of};
ghost use Rattle.sheet_base.specs.PointHeights.{IsHeightWithinReach};
ghost use Rattle.sheet_base.specs.Sheets.{IsPathFrom};
ghost use Rattle.affine_image.specs.RoundedImages.{IsRoundedImage};
ghost use Rattle.sheet_pieces.specs.SheetSegments.{path_vertices, segments_begun};
ghost use Rattle.carry_map.specs.declared.limits.TheConstants.{MOST_PIECES};
ghost use Rattle.carry_map.specs.CarriedLists.{Grows, AreCarried};
ghost use Rattle.carry_map.specs.Causes.{IsCause};
ghost use Rattle.carry_map.specs.InsideStarts.{IsLeastWith};

use crate::CarryFault;
use crate::segments::{PathSegment, Start, carry_segment};
use affine_image::image_of;
use plane_base::Pt;
use sheet_base::{Heights, PathRow};
use sheet_pieces::{end_heights, next_point, point_count, segment_count};
use std::alloc::Global;
use tin_base::{Piece, Place};
use tin_index::TinIndex;

/// The images so far with their heights, and where the run of each point begins.
#[derive(Drop)]
pub(crate) struct ImagesSoFar {
    pub(crate) points: Vec<Pt>,
    pub(crate) heights: Heights,
    pub(crate) run: Vec<u32>,
}

/// A path, the place of its first piece, and a triangle that may have its first point, if one is known.
#[derive(Clone, Copy)]
pub(crate) struct PathAt {
    pub(crate) row: PathRow,
    pub(crate) from: Place,
    pub(crate) guess: Option<u32>,
}

/// The least triangle that has a point, and the image of the point.
#[derive(Clone, Copy)]
struct Found {
    triangle: u32,
    image: Pt,
}

/// The least triangle that has a point, which may be the one that is guessed, or none where no triangle has it.
fn locate(index: &TinIndex, p: Pt, guess: Option<u32>) -> Option<u32>
    ensures some { IfSome result (λ triangle. IsLeastWith index.now p triangle) }
    ensures none { IfNone result (IsInSome index.now Source (whole p) → ⊥) }
{
    match guess {
        Some(guess) => index.locate_near(p, guess),
        None => index.locate(p),
    }
}

/// Where a point is found, or none where no triangle has it.
fn find(index: &TinIndex, p: Pt, guess: Option<u32>) -> Option<Found>
    ensures start { IfSome result (λ found. IsLeastWith index.now p found.triangle) }
    ensures image { IfSome result (λ found. IsRoundedImage index.now p found.image) }
    ensures none { IfNone result (IsInSome index.now Source (whole p) → ⊥) }
{
    let triangle = locate(index, p, guess)?;
    Some(Found {
        triangle,
        image: image_of(index.tin(), triangle, p),
    })
}

/// Where the segment of a number starts: the first where the path's first point was found, and each other one in the
/// triangle of the last piece, as is likely.
fn start_of(number: u32, found: Found, pieces: &[Piece]) -> Start
    ensures { (triangle : ℕ) → result ≡ Start.Found triangle → (number ≡ 0) × (triangle ≡ found.triangle) }
{
    match pieces.last() {
        Some(piece) if number > 0 => Start::Guessed(piece.tri),
        _ if number > 0 => Start::Guessed(found.triangle),
        _ => Start::Found(found.triangle),
    }
}

/// Begins the run of the next point with its image and its height.
fn begin_run(gathered: &mut ImagesSoFar, image: Pt, height: Option<i64>) -> Result<(), CarryFault>
    requires few { vec_len gathered.old.points < 2 ^ 32 }
    requires few_heights { length gathered.old.heights < 2 ^ 32 }
    ensures points { OnOk result (gathered.new.points.items ≡ gathered.old.points.items ++ image ∷ []) }
    ensures heights { OnOk result (gathered.new.heights ≡ gathered.old.heights ++ height ∷ []) }
    ensures count { OnOk result (length gathered.new.heights ≡ length gathered.old.heights + 1) }
    ensures run { OnOk result (gathered.new.run.items ≡ gathered.old.run.items ++ vec_len gathered.old.points ∷ []) }
    ensures memory { IfErr result (λ fault. fault ≡ CarryFault.NoMemory) }
{
    gathered.run.push(gathered.points.len() as u32)?;
    gathered.points.push(image)?;
    gathered.heights.push(height)?;
    Ok(())
}

/// The segment of this number.
fn way_at(points: &[Pt], track: PathAt, number: u32, start: Start) -> PathSegment
    requires in_path { track.row.first + number < track.row.past }
    requires in_range { track.row.past ≤ length points.now }
    ensures a { result.a ≡ begin_of points.now track.row number }
    ensures b { result.b ≡ end_of points.now track.row number }
    ensures start { result.start ≡ start }
    ensures from { result.from ≡ record { layer = track.from.layer; path = track.from.path; segment = number; piece = 0 } }
{
    let begin = track.row.first + number;
    PathSegment {
        a: points[begin as usize],
        b: points[next_point(track.row, begin) as usize],
        from: Place {
            layer: track.from.layer,
            path: track.from.path,
            segment: number,
            piece: 0,
        },
        start,
    }
}

/// Appends the runs of the path's points, and the pieces of its segments.
pub(crate) fn carry_path(
    alloc: Global,
    index: &TinIndex,
    points: &[Pt],
    heights: &Heights,
    track: PathAt,
    most: u32,
    gathered: &mut ImagesSoFar,
    pieces: &mut Vec<Piece>,
) -> Result<(), CarryFault>
    requires path { IsPathFrom track.row.first track.row }
    requires in_range { track.row.past ≤ length points.now }
    requires room { vec_len pieces.old ≤ most }
    requires most { most ≤ MOST_PIECES }
    requires few { vec_len gathered.old.points ≤ 2 * vec_len pieces.old }
    requires each { length gathered.old.heights ≡ vec_len gathered.old.points }
    requires reach { All IsHeightWithinReach heights.now }
    ensures carried { OnOk result (AreCarried index.now track.from.layer
        (path_vertices points.now heights.now track.from.path track.row) gathered.old.points.items
        gathered.new.points.items gathered.old.heights gathered.new.heights gathered.old.run.items
        gathered.new.run.items pieces.old.items pieces.new.items) }
    ensures room { OnOk result (vec_len pieces.new ≤ most) }
    ensures few { OnOk result (vec_len gathered.new.points ≤ 2 * vec_len pieces.new) }
    ensures cause { IfErr result (λ fault. IsCause index.now track.from.layer (vec_len pieces.old) most
        (segments_begun (path_vertices points.now heights.now track.from.path track.row)) fault) }
    ensures grows { Grows pieces.old.items pieces.new.items }
{
    let Some(found) = find(index, points[track.row.first as usize], track.guess) else {
        return Err(CarryFault::Outside {
            path: track.from.path,
            segment: 0,
        });
    };
    let mut image = found.image;
    for number in 0..segment_count(track.row) {
        let start = start_of(number, found, pieces);
        let way = way_at(points, track, number, start);
        let ends = end_heights(heights, track.row, number);
        begin_run(gathered, image, ends.from)?;
        image = carry_segment(
            alloc,
            index,
            way,
            ends,
            most,
            image,
            &mut gathered.points,
            &mut gathered.heights,
            pieces,
        )?;
    }
    if segment_count(track.row) == point_count(track.row) {
        return Ok(());
    }
    // the last point of a line begins no segment
    begin_run(gathered, image, heights.at(track.row.past as usize - 1))?;
    Ok(())
}
