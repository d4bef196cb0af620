//! The images of a path's points and crossings, by the lines of its segments.

ghost use Rattle.std.specs.Prelude.{◌≡◌, ℕ, ◌+◌, ◌<◌, ◌≤◌, ◌^◌, ◌∷◌, [], ◌++◌, List, length, vec_len, IfOk, IfErr, All};
ghost use Rattle.std.specs.Prelude.{OnOk};
ghost use Rattle.plane_base.specs.declared.shapes.Pt.{Pt};
ghost use Rattle.sheet_base.specs.PointHeights.{IsHeightWithinReach};
ghost use Rattle.sheet_base.specs.Segments.{segments_in};
ghost use Rattle.sheet_base.specs.Sheets.{IsPathFrom};
ghost use Rattle.affine_image.specs.RoundedImages.{IsRoundedImage};
ghost use Rattle.sheet_pieces.specs.SheetSegments.{path_vertices, segments_begun};
ghost use Rattle.cert_check.specs.Lines.{BeginsWithLine};
ghost use Rattle.cert_check.specs.InsideSheetLists.{HasLines, AreImaged, IsSegmentImaged, IsWayCause, IsStopCause};
ghost use Rattle.cert_check.specs.InsideSheetLists.{IsTriangleWith};

use crate::CertFault;
use crate::lines::read_line;
use crate::path_segments::{NumberedPath, NumberedSegment, way_at};
use crate::right_lists::is_right;
use crate::runs::push_run;
use affine_image::image_of;
use plane_base::Pt;
use sheet_base::Heights;
use sheet_pieces::{point_count, segment_count};
use tin_base::SoundTin;

/// The images so far with their heights, where the run of each point begins, and the lines of the segments that are
/// left.
#[derive(Drop)]
pub(crate) struct ImagesAndRest<'a> {
    pub(crate) points: Vec<Pt>,
    pub(crate) heights: Heights,
    pub(crate) run: Vec<u32>,
    pub(crate) rest: &'a [u8],
}

/// Passes the line of a segment, where its list is right: appends the run of the segment's first end. Answers a
/// triangle that has its last end.
fn pass_segment(
    tin: &SoundTin,
    way: NumberedSegment,
    numbers: &mut Vec<u32>,
    gathered: &mut ImagesAndRest<'_>,
) -> Result<u32, CertFault>
    requires line { (rest : List ℕ) × BeginsWithLine gathered.old.rest.now rest }
    requires few { vec_len gathered.old.points + length gathered.old.rest.now < 2 ^ 32 }
    requires each { length gathered.old.heights ≡ vec_len gathered.old.points }
    requires from { IsHeightWithinReach way.ends.from }
    requires to { IsHeightWithinReach way.ends.to }
    ensures imaged { OnOk result (IsSegmentImaged tin.now way.a way.b
        (record { from = way.ends.from; to = way.ends.to }) gathered.old.points.items gathered.new.points.items
        gathered.old.heights gathered.new.heights gathered.old.run.items gathered.new.run.items
        gathered.old.rest.now gathered.new.rest.now) }
    ensures few { OnOk result (vec_len gathered.new.points + length gathered.new.rest.now + 1
        ≤ vec_len gathered.old.points + length gathered.old.rest.now) }
    ensures last { IfOk result (λ triangle. IsTriangleWith tin.now triangle way.b) }
    ensures cause { IfErr result (λ fault. IsWayCause tin.now way gathered.old.rest.now fault) }
{
    gathered.run.push(gathered.points.len() as u32)?;
    let wrong = CertFault::Segment {
        path: way.path,
        segment: way.number,
    };
    // a right list has no triangle twice
    let most = tin.triangle_count() as usize;
    let Some(rest) = read_line(gathered.rest, most, numbers)? else {
        return Err(wrong);
    };
    if !is_right(tin, way.a, way.b, numbers) {
        return Err(wrong);
    }
    let triangle = push_run(
        tin,
        way,
        numbers,
        &mut gathered.points,
        &mut gathered.heights,
    )?;
    gathered.rest = rest;
    Ok(triangle)
}

/// Appends the run of a point at which no segment begins.
fn push_point(
    tin: &SoundTin,
    triangle: u32,
    p: Pt,
    height: Option<i64>,
    gathered: &mut ImagesAndRest<'_>,
) -> Result<(), CertFault>
    requires triangle { IsTriangleWith tin.now triangle p }
    requires few { vec_len gathered.old.points < 2 ^ 32 }
    requires each { length gathered.old.heights ≡ vec_len gathered.old.points }
    ensures image { OnOk result ((image : Pt) × IsRoundedImage tin.now p image
        × (gathered.new.points.items ≡ gathered.old.points.items ++ image ∷ [])) }
    ensures height { OnOk result (gathered.new.heights ≡ gathered.old.heights ++ height ∷ []) }
    ensures run { OnOk result (gathered.new.run.items ≡ gathered.old.run.items ++ vec_len gathered.old.points ∷ []) }
    ensures rest { OnOk result (gathered.new.rest.now ≡ gathered.old.rest.now) }
    ensures memory { IfErr result (λ fault. fault ≡ CertFault.NoMemory) }
{
    gathered.run.push(gathered.points.len() as u32)?;
    gathered.points.push(image_of(tin, triangle, p))?;
    gathered.heights.push(height)?;
    Ok(())
}

/// Appends the runs of a path's points, where the lists of its segments are right.
pub(crate) fn pass_path(
    tin: &SoundTin,
    points: &[Pt],
    heights: &Heights,
    track: NumberedPath,
    numbers: &mut Vec<u32>,
    gathered: &mut ImagesAndRest<'_>,
) -> Result<(), CertFault>
    requires path { IsPathFrom track.row.first track.row }
    requires in_range { track.row.past ≤ length points.now }
    requires lines { HasLines gathered.old.rest.now (segments_in track.row) }
    requires few { vec_len gathered.old.points + length gathered.old.rest.now < 2 ^ 32 }
    requires each { length gathered.old.heights ≡ vec_len gathered.old.points }
    requires reach { All IsHeightWithinReach heights.now }
    ensures imaged { OnOk result (AreImaged tin.now (path_vertices points.now heights.now track.path track.row)
        gathered.old.points.items gathered.new.points.items gathered.old.heights gathered.new.heights
        gathered.old.run.items gathered.new.run.items gathered.old.rest.now gathered.new.rest.now) }
    ensures few { OnOk result (vec_len gathered.new.points + length gathered.new.rest.now
        ≤ vec_len gathered.old.points + length gathered.old.rest.now) }
    ensures cause { IfErr result (λ fault. IsStopCause tin.now
        (segments_begun (path_vertices points.now heights.now track.path track.row)) gathered.old.rest.now fault) }
{
    let mut triangle = 0;
    for number in 0..segment_count(track.row) {
        let way = way_at(points, heights, track, number);
        triangle = pass_segment(tin, way, numbers, gathered)?;
    }
    if segment_count(track.row) == point_count(track.row) {
        return Ok(());
    }
    // the last point of a line begins no segment
    push_point(
        tin,
        triangle,
        points[track.row.past as usize - 1],
        heights.at(track.row.past as usize - 1),
        gathered,
    )?;
    Ok(())
}
