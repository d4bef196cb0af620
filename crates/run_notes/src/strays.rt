//! Where a segment is that is outside, found in the files once more.

ghost use Rattle.std.specs.Prelude.{◌≡◌, ◌↔◌, ◌+◌, ◌≤◌, ◌∷◌, IfSome, IsTrue, length, map, position, slice_get};
ghost use Rattle.std.specs.List.{list_all};
ghost use Rattle.plane_base.specs.Plane.{whole};
ghost use Rattle.tin_base.specs.Triangulation.{other};
ghost use Rattle.sheet_base.specs.EditStarts.{path_of, point_of, is_number, first_start, start_in};
ghost use Rattle.job_words.specs.Formats.{format_by_name};
ghost use Rattle.runs.specs.declared.loads.TheConstants.{MOST_BYTES};
ghost use Rattle.run_notes.specs.LayersAgain.{IsLayerIn};
ghost use Rattle.run_notes.specs.InsideStrays.{end_number, has_degrees, HasEach, is_in_degrees, IsLeastBox, IsStrayOf};
ghost use Rattle.run_notes.specs.InsideStrays.{exchanged_box, AreExchanged, layer_frame, spot_in, are_small_rows, IsStrayPoint};
ghost use Rattle.run_notes.specs.InsideStrays.{start_of, IsSegmentLine};

use job_words::format_of;
use layer_formats::by_format;
use plane_base::{Pt, Rect};
use remarks::{Stray, line_and_column};
use sheet_base::{Edit, How, Layer, PathKind, PathRow, Sheet};
use std::alloc::Global;
use tin_base::{Corner, Frame, Tin};
use tin_height::{PointRow, Points};

/// The greatest number of degrees, in thousandths.
pub(crate) const MOST_DEGREES: u64 = 360_000;

/// Whether the coordinates of the place are such as degrees are.
fn is_small(p: Pt) -> bool
    ensures { result ≡ has_degrees (whole p) }
{
    p.x.unsigned_abs() <= MOST_DEGREES && p.y.unsigned_abs() <= MOST_DEGREES
}

/// Whether all source corners are such as degrees are.
pub(crate) fn are_degrees(tin: &Tin) -> bool
    ensures { result ≡ list_all is_in_degrees tin.now.corners }
{
    tin.corners()
        .iter()
        .all(|corner| is_small(corner.at(Frame::Source)))
}

/// The least box of some corners in a frame.
fn box_of_corners(first: Corner, rest: &[Corner], frame: Frame) -> Rect
    ensures { IsLeastBox (map (spot_in frame) (first ∷ rest.now)) result }
{
    let mut found = Rect::of_point(first.at(frame));
    for corner in rest {
        found = found.with_point(corner.at(frame));
    }
    found
}

/// The least box of the corners in a frame, where there is one.
fn box_in(tin: &Tin, frame: Frame) -> Option<Rect>
    ensures { IfSome result (IsLeastBox (map (spot_in frame) tin.now.corners)) }
{
    let [first, rest @ ..] = tin.corners() else {
        return None;
    };
    Some(box_of_corners(*first, rest, frame))
}

/// The corner of a box with the least coordinates.
fn least_of(rect: Rect) -> Pt
    ensures { result ≡ record { x = rect.x0; y = rect.y0 } }
{
    Pt {
        x: rect.x0,
        y: rect.y0,
    }
}

/// The corner of a box with the greatest ones.
fn greatest_of(rect: Rect) -> Pt
    ensures { result ≡ record { x = rect.x1; y = rect.y1 } }
{
    Pt {
        x: rect.x1,
        y: rect.y1,
    }
}

/// The box with its two coordinates exchanged.
fn exchange_box(rect: Rect) -> Rect
    ensures { result ≡ exchanged_box rect }
{
    Rect {
        x0: rect.y0,
        x1: rect.y1,
        y0: rect.x0,
        y1: rect.x1,
    }
}

/// Whether all points are in the box.
fn are_in(rect: Rect, points: &[Pt]) -> bool
    ensures { IsTrue result ↔ HasEach rect points.now }
{
    for p in points {
        if !rect.has_point(*p) {
            return false;
        }
    }
    true
}

/// Whether all points are in the box once their coordinates are exchanged, and not all of them are as they stand.
fn are_exchanged(rect: Rect, points: &[Pt]) -> bool
    ensures { IsTrue result ↔ AreExchanged rect points.now }
{
    !are_in(rect, points) && are_in(exchange_box(rect), points)
}

/// Whether the coordinates of all points are such as degrees are.
fn are_small(points: &[Pt]) -> bool
    ensures { result ≡ list_all (λ p. has_degrees (whole p)) points.now }
{
    points.iter().all(|p| is_small(*p))
}

/// The sheet of a layer of the format `L`.
fn sheet_as<L: Layer>(alloc: Global, bytes: &[u8], how: How) -> Option<Sheet>
    requires { length bytes.now ≤ MOST_BYTES }
    ensures { IfSome result (λ sheet. L.reads how bytes.now sheet) }
{
    L::read(alloc, bytes, how).ok()
}

/// The sheet of a layer, by the end of its name.
pub(crate) fn sheet_of(alloc: Global, name: &str, bytes: &[u8], how: How) -> Option<Sheet>
    requires { length bytes.now ≤ MOST_BYTES }
    ensures { IfSome result (λ sheet. IsLayerIn (format_by_name name.now) how bytes.now sheet) }
{
    by_format!(format_of(name)?, sheet_as(alloc, bytes, how))
}

/// Whether this is the number.
fn is_number(number: usize, found: Option<u32>) -> bool
    ensures { result ≡ is_number number found }
{
    match found {
        Some(other) => other as usize == number,
        None => false,
    }
}

/// Where the edit of this number begins.
fn start_at(edits: &[Edit], number: Option<usize>) -> Option<u32>
    ensures { result ≡ start_of edits.now number }
{
    match number {
        Some(number) => match edits.get(number) {
            Some(edit) => Some(edit.start),
            None => None,
        },
        None => None,
    }
}

/// Whether the edit writes the list or the entity of the path.
fn writes_path(edit: &Edit, path: usize) -> bool
    ensures { result ≡ is_number path (path_of edit.now.what) }
{
    is_number(path, edit.what.path())
}

/// Whether the edit begins to write the image of the point.
fn writes_point(edit: &Edit, point: usize) -> bool
    ensures { result ≡ is_number point (point_of edit.now.what) }
{
    is_number(point, edit.what.point())
}

/// The number of the first edit that writes the list or the entity of the path.
fn path_edit(edits: &[Edit], path: usize) -> Option<usize>
    ensures { result ≡ position (λ edit. is_number path (path_of edit.what)) edits.now }
{
    edits.iter().position(|edit| writes_path(edit, path))
}

/// The number of the first edit that begins to write the image of the point.
fn point_edit(edits: &[Edit], point: usize) -> Option<usize>
    ensures { result ≡ position (λ edit. is_number point (point_of edit.what)) edits.now }
{
    edits.iter().position(|edit| writes_point(edit, point))
}

/// Where the first edit begins that writes the list or the entity of the path.
fn path_start(edits: &[Edit], path: usize) -> Option<u32>
    ensures { result ≡ first_start path_of path edits.now }
{
    start_at(edits, path_edit(edits, path))
}

/// Where the first edit begins that writes the image of the point.
fn point_start(edits: &[Edit], point: usize) -> Option<u32>
    ensures { result ≡ first_start point_of point edits.now }
{
    start_at(edits, point_edit(edits, point))
}

/// The number of the point after one of a path: after a ring's last one the first, and after any other last one itself.
fn number_behind(row: &PathRow, number: usize) -> usize
    ensures { result ≡ end_number row.now number }
{
    let behind = number.saturating_add(1);
    if behind < row.past as usize {
        behind
    } else {
        match row.kind {
            PathKind::Loop => row.first as usize,
            PathKind::Dot | PathKind::Line => number,
        }
    }
}

/// Where the text of a segment of the path begins, the point with this number being its first one.
fn segment_start(edits: &[Edit], path: usize, number: usize) -> Option<u32>
    ensures { result ≡ start_in edits.now path number }
{
    match path_start(edits, path) {
        Some(start) => Some(start),
        None => point_start(edits, number),
    }
}

/// The line on which a layer's text of a segment of the path begins, the point with this number being its first one.
fn line_of(sheet: &Sheet, bytes: &[u8], path: u32, number: usize) -> Option<u64>
    ensures { IfSome result (IsSegmentLine bytes.now sheet.now.edits path number) }
{
    let start = segment_start(sheet.edits(), path as usize, number)?;
    Some(line_and_column(bytes, u64::from(start)).line)
}

/// The path of this number.
fn path_at(sheet: &Sheet, path: u32) -> Option<PathRow>
    ensures { IfSome result (λ row. slice_get sheet.now.paths path ≡ Some row) }
{
    let row = sheet.paths().get(path as usize)?;
    Some(*row)
}

/// The number of the first point of a segment of a path.
fn first_number(row: &PathRow, segment: u32) -> usize
    ensures { result ≡ row.now.first + segment }
{
    row.first as usize + segment as usize
}

/// The point of this number.
fn point_at(sheet: &Sheet, number: usize) -> Option<Pt>
    ensures { IfSome result (λ p. slice_get sheet.now.points number ≡ Some p) }
{
    let p = sheet.points().get(number)?;
    Some(*p)
}

/// The frame that the layer is in, and the other.
fn frames_of(inverse: bool) -> (Frame, Frame)
    ensures layer { result.0 ≡ layer_frame inverse }
    ensures other { result.1 ≡ other (layer_frame inverse) }
{
    if inverse {
        (Frame::Target, Frame::Source)
    } else {
        (Frame::Source, Frame::Target)
    }
}

/// A segment of a layer with these bytes, and the triangles that it is not wholly in; `inverse` says that the layer is
/// in the target frame.
pub(crate) fn stray_of(
    sheet: &Sheet,
    bytes: &[u8],
    path: u32,
    segment: u32,
    tin: &Tin,
    inverse: bool,
) -> Option<Stray>
    ensures { IfSome result (λ stray. IsStrayOf sheet.now bytes.now path segment tin.now inverse stray) }
{
    let (frame, other) = frames_of(inverse);
    let row = path_at(sheet, path)?;
    let number = first_number(&row, segment);
    let from = point_at(sheet, number)?;
    let to = point_at(sheet, number_behind(&row, number))?;
    let line = line_of(sheet, bytes, path, number)?;
    let target = box_in(tin, other)?;
    let triangles = box_in(tin, frame)?;
    Some(Stray {
        line,
        from,
        to,
        triangles: u64::from(tin.triangle_count()),
        least: least_of(triangles),
        greatest: greatest_of(triangles),
        is_in_target: are_in(target, sheet.points()),
        is_small: are_small(sheet.points()),
        is_exchanged: are_exchanged(triangles, sheet.points()),
    })
}

/// Whether the coordinates of all points of a list are such as degrees are. Their heights are not asked.
fn are_small_rows(rows: &[PointRow]) -> bool
    ensures { result ≡ are_small_rows rows.now }
{
    rows.iter().all(|row| is_small(row.p))
}

/// The row of this number.
fn row_at(points: &Points, number: u32) -> Option<PointRow>
    ensures { IfSome result (λ row. slice_get points.now.rows number ≡ Some row) }
{
    let row = points.rows.items().get(number as usize)?;
    Some(*row)
}

/// A point of a list with these bytes, and the triangles, none of which contains it. Whether the list was moved already
/// is not asked: a file of heights alone leaves each point where it is.
pub(crate) fn stray_point(points: &Points, bytes: &[u8], number: u32, tin: &Tin) -> Option<Stray>
    ensures { IfSome result (λ stray. IsStrayPoint points.now.rows bytes.now number tin.now stray) }
{
    let row = row_at(points, number)?;
    let triangles = box_in(tin, Frame::Source)?;
    Some(Stray {
        line: line_and_column(bytes, u64::from(row.start)).line,
        from: row.p,
        to: row.p,
        triangles: u64::from(tin.triangle_count()),
        least: least_of(triangles),
        greatest: greatest_of(triangles),
        is_in_target: false,
        is_small: are_small_rows(points.rows.items()),
        is_exchanged: false,
    })
}
