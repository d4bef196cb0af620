//! Points, inserts, texts and lines.

ghost use Rattle.std.specs.Prelude.{◌≡◌, ◌+◌, ◌^◌, OnOk, ◌∷◌};
ghost use Rattle.dxf_entities.specs.EntityViews.{entity_view};
ghost use Rattle.dxf_entities.specs.Shapes.{with_shape, with_shapes};
ghost use Rattle.dxf_entities.specs.Points.{spot_at, dot_of, dots_of, point_shapes, insert_shapes, second_spot};
ghost use Rattle.dxf_entities.specs.Points.{text_shapes, height, both_heights, unless_level, rise_of, line_of};
ghost use Rattle.dxf_entities.specs.Points.{line_ends, line_shapes};
ghost use Rattle.dxf_entities.specs.DrawingContents.{contents_of, with_ends, HoldsAtMost, GrowsBy, Reads};

use crate::drawing::{Drawing, PointFields, Rise};
use crate::entities::{Entity, value_in};
use crate::fields::{coordinate, coordinate_at, field, is_not_zero, not_zero_at, there};
use crate::handles::check_handle;
use dxf_pairs::Pair;
use mm_decimal::read_mm;
use sheet_base::{Edit, LayerFault, PathKind, What};
use std::alloc::AllocError;

/// The two ends of a line, and their heights, where it has some.
#[derive(Clone, Copy)]
pub struct LineFields {
    pub begin: PointFields,
    pub end: PointFields,
    pub rise: Option<Rise>,
}

/// The point of the fields of two codes.
#[inline(always)]
pub fn spot_at(
    bytes: &[u8],
    exact: bool,
    east: i32,
    north: i32,
    entity: &Entity,
) -> Result<PointFields, LayerFault>
    ensures { result ≡ spot_at bytes.now exact east north (entity_view entity.now) }
{
    let x = coordinate_at(bytes, exact, east, entity)?;
    let y = coordinate_at(bytes, exact, north, entity)?;
    Ok(PointFields { x, y })
}

/// Adds a dot.
fn add_dot(drawing: &mut Drawing, spot: &PointFields) -> Result<(), AllocError>
    requires { HoldsAtMost (2 ^ 30 + 1) (contents_of drawing.old) }
    ensures added { OnOk result (contents_of drawing.new ≡ with_shape (contents_of drawing.old) (dot_of spot.now)) }
    ensures grown { OnOk result (GrowsBy 1 (contents_of drawing.old) (contents_of drawing.new)) }
{
    let point = drawing.point();
    drawing.add_point(spot)?;
    drawing.add_spot_edits(point, spot)?;
    drawing.add_path(PathKind::Dot, point, point + 1)?;
    Ok(())
}

/// Reads a point.
pub fn read_point(
    bytes: &[u8],
    exact: bool,
    entity: &Entity,
    drawing: &mut Drawing,
) -> Result<(), LayerFault>
    requires { HoldsAtMost (2 ^ 30) (contents_of drawing.old) }
    ensures reads { Reads (point_shapes bytes.now exact (entity_view entity.now)) (contents_of drawing.old) result
        (contents_of drawing.new) }
    ensures grown { OnOk result (GrowsBy 2 (contents_of drawing.old) (contents_of drawing.new)) }
{
    let spot = spot_at(bytes, exact, 10, 20, entity)?;
    add_dot(drawing, &spot)?;
    Ok(())
}

/// Reads an insert, which has no attributes.
pub fn read_insert(
    bytes: &[u8],
    exact: bool,
    entity: &Entity,
    drawing: &mut Drawing,
) -> Result<(), LayerFault>
    requires { HoldsAtMost (2 ^ 30) (contents_of drawing.old) }
    ensures reads { Reads (insert_shapes bytes.now exact (entity_view entity.now)) (contents_of drawing.old) result
        (contents_of drawing.new) }
    ensures grown { OnOk result (GrowsBy 2 (contents_of drawing.old) (contents_of drawing.new)) }
{
    match not_zero_at(bytes, 66, entity)? {
        None => read_point(bytes, exact, entity, drawing),
        Some(line) => Err(LayerFault::Attribs { line }),
    }
}

/// The second point of a text, which is there where the text is justified.
fn second_spot(
    bytes: &[u8],
    exact: bool,
    entity: &Entity,
) -> Result<Option<PointFields>, LayerFault>
    ensures { result ≡ second_spot bytes.now exact (entity_view entity.now) }
{
    let across = field(72, entity)?;
    let along = field(73, entity)?;
    if is_not_zero(bytes, across) || is_not_zero(bytes, along) {
        let spot = spot_at(bytes, exact, 11, 21, entity)?;
        Ok(Some(spot))
    } else {
        Ok(None)
    }
}

/// Adds a text's one or two dots.
fn add_dots(
    drawing: &mut Drawing,
    spot: &PointFields,
    second: Option<PointFields>,
) -> Result<(), AllocError>
    requires { HoldsAtMost (2 ^ 30) (contents_of drawing.old) }
    ensures added { OnOk result (contents_of drawing.new ≡ with_shapes (contents_of drawing.old) (dot_of spot.now ∷ dots_of second)) }
    ensures grown { OnOk result (GrowsBy 2 (contents_of drawing.old) (contents_of drawing.new)) }
{
    add_dot(drawing, spot)?;
    if let Some(other) = second {
        add_dot(drawing, &other)?;
    }
    Ok(())
}

/// Reads a text.
pub fn read_text(
    bytes: &[u8],
    exact: bool,
    entity: &Entity,
    drawing: &mut Drawing,
) -> Result<(), LayerFault>
    requires { HoldsAtMost (2 ^ 30) (contents_of drawing.old) }
    ensures reads { Reads (text_shapes bytes.now exact (entity_view entity.now)) (contents_of drawing.old) result
        (contents_of drawing.new) }
    ensures grown { OnOk result (GrowsBy 2 (contents_of drawing.old) (contents_of drawing.new)) }
{
    let spot = spot_at(bytes, exact, 10, 20, entity)?;
    let second = second_spot(bytes, exact, entity)?;
    add_dots(drawing, &spot, second)?;
    Ok(())
}

/// The millimetres of a height; a missing one has 0.
fn height(bytes: &[u8], pair: Option<Pair>) -> Option<i64>
    ensures { result ≡ height bytes.now pair }
{
    match pair {
        Some(pair) => match read_mm(value_in(bytes, &pair)) {
            Ok(read) => Some(read.mm),
            Err(_) => None,
        },
        None => Some(0),
    }
}

/// The heights of a line's two ends, whose fields both have to be there.
fn both_heights(
    bytes: &[u8],
    exact: bool,
    entity: &Entity,
    first: Option<Pair>,
    second: Option<Pair>,
) -> Result<Rise, LayerFault>
    ensures { result ≡ both_heights bytes.now exact (entity_view entity.now) first second }
{
    let low = there(entity, first)?;
    let high = there(entity, second)?;
    let begin = coordinate(bytes, exact, &low)?;
    let end = coordinate(bytes, exact, &high)?;
    Ok(Rise { begin, end })
}

/// The heights of a line's two ends, of these fields, unless both are one height.
fn unless_level(
    bytes: &[u8],
    exact: bool,
    entity: &Entity,
    first: Option<Pair>,
    second: Option<Pair>,
) -> Result<Option<Rise>, LayerFault>
    ensures { result ≡ unless_level bytes.now exact (entity_view entity.now) first second }
{
    match (height(bytes, first), height(bytes, second)) {
        (Some(low), Some(high)) if low == high => Ok(None),
        _ => {
            let rise = both_heights(bytes, exact, entity, first, second)?;
            Ok(Some(rise))
        }
    }
}

/// The heights of a line's two ends, where they differ. A missing one counts as 0 there; of two that differ none may be
/// missing.
fn rise_of(bytes: &[u8], exact: bool, entity: &Entity) -> Result<Option<Rise>, LayerFault>
    ensures { result ≡ rise_of bytes.now exact (entity_view entity.now) }
{
    let first = field(30, entity)?;
    let second = field(31, entity)?;
    unless_level(bytes, exact, entity, first, second)
}

/// The ends of a line, and their heights where they differ. A line with a handle is refused where no next handle is given.
fn line_ends(
    bytes: &[u8],
    exact: bool,
    seed: Option<Pair>,
    entity: &Entity,
) -> Result<LineFields, LayerFault>
    ensures { result ≡ line_ends bytes.now exact seed (entity_view entity.now) }
{
    check_handle(seed, entity)?;
    let begin = spot_at(bytes, exact, 10, 20, entity)?;
    let end = spot_at(bytes, exact, 11, 21, entity)?;
    let rise = rise_of(bytes, exact, entity)?;
    Ok(LineFields { begin, end, rise })
}

/// Adds the points of a line's two ends, with their heights, where it has some.
fn add_ends(drawing: &mut Drawing, ends: &LineFields) -> Result<(), AllocError>
    requires { HoldsAtMost (2 ^ 30) (contents_of drawing.old) }
    ensures added { OnOk result (contents_of drawing.new ≡ with_ends (contents_of drawing.old) ends.now.begin ends.now.end ends.now.rise) }
{
    match ends.rise {
        Some(rise) => {
            drawing.add_raised(&ends.begin, &rise.begin)?;
            drawing.add_raised(&ends.end, &rise.end)?;
        }
        None => {
            drawing.add_point(&ends.begin)?;
            drawing.add_point(&ends.end)?;
        }
    }
    Ok(())
}

/// Adds a line between two points, whose entity is replaced.
fn add_line(drawing: &mut Drawing, entity: &Entity, ends: &LineFields) -> Result<(), AllocError>
    requires { HoldsAtMost (2 ^ 30) (contents_of drawing.old) }
    ensures added { OnOk result (contents_of drawing.new
        ≡ with_shape (contents_of drawing.old) (line_of (entity_view entity.now) ends.now.begin ends.now.end
        ends.now.rise)) }
    ensures grown { OnOk result (GrowsBy 2 (contents_of drawing.old) (contents_of drawing.new)) }
{
    let first = drawing.point();
    let path = drawing.path();
    drawing.add_edit(Edit {
        start: entity.head.start,
        end: entity.end(),
        what: What::Lines { path },
    })?;
    add_ends(drawing, ends)?;
    drawing.add_path(PathKind::Line, first, first + 2)?;
    Ok(())
}

/// Reads a line.
pub fn read_line(
    bytes: &[u8],
    exact: bool,
    seed: Option<Pair>,
    entity: &Entity,
    drawing: &mut Drawing,
) -> Result<(), LayerFault>
    requires { HoldsAtMost (2 ^ 30) (contents_of drawing.old) }
    ensures reads { Reads (line_shapes bytes.now exact seed (entity_view entity.now)) (contents_of drawing.old) result
        (contents_of drawing.new) }
    ensures grown { OnOk result (GrowsBy 2 (contents_of drawing.old) (contents_of drawing.new)) }
{
    let ends = line_ends(bytes, exact, seed, entity)?;
    add_line(drawing, entity, &ends)?;
    Ok(())
}
