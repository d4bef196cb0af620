//! Polylines, with their vertices in fields.

ghost use Rattle.std.specs.Prelude.{◌≡◌, ◌^◌, ◌+◌, ◌≤◌, ◌<◌, [], ◌∷◌, length, OnOk, IfOk, IfSome};
ghost use Rattle.dxf_entities.specs.EntityViews.{entity_view};
ghost use Rattle.dxf_entities.specs.Polylines.{kind_of, is_group_code, fault_in_group, past_group, vertex_of};
ghost use Rattle.dxf_entities.specs.Polylines.{begins_vertex, is_number_pair, vertices_in, count_of, rows_from};
ghost use Rattle.dxf_entities.specs.Polylines.{light_shapes};
ghost use Rattle.dxf_entities.specs.DrawingContents.{contents_of, with_rows, with_vertices, HoldsAtMost, GrowsBy, Reads};
ghost use Rattle.dxf_entities.specs.DrawingContents.{ReadsVertices, vertices_by};

use crate::drawing::{Drawing, PointFields, VertexFields, value_edit};
use crate::entities::{Entity, has_code};
use crate::fields::{coordinate, equals, field, fields_of, need_field};
use dxf_pairs::Pair;
use sheet_base::{Edit, LayerFault, PathKind, What};
use std::alloc::AllocError;

/// The kind of a polyline by its flags.
pub fn kind_of(bytes: &[u8], entity: &Entity) -> Result<PathKind, LayerFault>
    ensures { result ≡ kind_of bytes.now (entity_view entity.now) }
{
    let Some(pair) = field(70, entity)? else {
        return Ok(PathKind::Line);
    };
    if equals(bytes, 0, &pair) || equals(bytes, 128, &pair) {
        Ok(PathKind::Line)
    } else if equals(bytes, 1, &pair) || equals(bytes, 129, &pair) {
        Ok(PathKind::Loop)
    } else {
        Err(LayerFault::Flags {
            line: u64::from(pair.line),
        })
    }
}

/// Whether the pair belongs to a vertex's group.
#[inline(always)]
fn is_group_code(pair: &Pair) -> bool
    ensures { result ≡ is_group_code pair.now }
{
    has_code(40, pair) || has_code(41, pair) || has_code(42, pair) || has_code(91, pair)
}

/// The fault of a field in a vertex's group: a width or a bulge.
#[inline(always)]
fn fault_in_group(bytes: &[u8], pair: &Pair) -> Option<LayerFault>
    ensures { result ≡ fault_in_group bytes.now pair.now }
{
    let line = u64::from(pair.line);
    if equals(bytes, 0, pair) {
        None
    } else if has_code(40, pair) || has_code(41, pair) {
        Some(LayerFault::Width { line })
    } else if has_code(42, pair) {
        Some(LayerFault::Bulge { line })
    } else {
        None
    }
}

/// The place past a vertex's group, with which the pairs begin. Refuses a width or a bulge.
#[inline(always)]
fn past_group(bytes: &[u8], past: u32, pairs: &[Pair]) -> Result<u32, LayerFault>
    ensures { result ≡ past_group bytes.now past pairs.now }
{
    let mut past = past;
    for pair in pairs {
        if !is_group_code(pair) {
            return Ok(past);
        }
        if let Some(fault) = fault_in_group(bytes, pair) {
            return Err(fault);
        }
        past = pair.end;
    }
    Ok(past)
}

/// The vertex of two fields and of its group, with which the other fields begin.
#[inline(always)]
fn vertex_of(
    bytes: &[u8],
    exact: bool,
    x: &Pair,
    y: &Pair,
    behind: &[Pair],
) -> Result<VertexFields, LayerFault>
    ensures { result ≡ vertex_of bytes.now exact x.now y.now behind.now }
{
    let east = coordinate(bytes, exact, x)?;
    let north = coordinate(bytes, exact, y)?;
    let past = past_group(bytes, y.end, behind)?;
    Ok(VertexFields {
        spot: PointFields { x: east, y: north },
        start: x.start,
        past,
    })
}

/// Adds a vertex in fields, with room after it.
#[inline(always)]
fn add_vertex(drawing: &mut Drawing, vertex: &VertexFields) -> Result<(), AllocError>
    requires { HoldsAtMost (2 ^ 31) (contents_of drawing.old) }
    ensures added { OnOk result (contents_of drawing.new ≡ with_vertices (contents_of drawing.old) (vertex.now ∷ [])) }
    ensures grown { OnOk result (GrowsBy 1 (contents_of drawing.old) (contents_of drawing.new)) }
{
    let point = drawing.point();
    drawing.add_point(&vertex.spot)?;
    drawing.add_spot_edits(point, &vertex.spot)?;
    drawing.add_edit(Edit {
        start: vertex.past,
        end: vertex.past,
        what: What::Vertices { point },
    })?;
    Ok(())
}

/// Whether the two fields are the numbers of a vertex.
fn begins_vertex(pair: &Pair, next: &Pair) -> bool
    ensures { result ≡ begins_vertex pair.now next.now }
{
    has_code(10, pair) && has_code(20, next)
}

/// Whether the field is a number of a vertex.
fn is_number(pair: &Pair) -> bool
    ensures { result ≡ is_number_pair pair.now }
{
    has_code(10, pair) || has_code(20, pair)
}

/// The vertex with which the fields begin, where they begin with one. Refuses a number alone.
#[inline(always)]
fn first_vertex(
    bytes: &[u8],
    exact: bool,
    fields: &[Pair],
) -> Result<Option<VertexFields>, LayerFault>
    requires { 0 < length fields.now }
    ensures first { vertices_in bytes.now exact fields.now ≡ vertices_by bytes.now exact fields.now result }
    ensures two { IfOk result (λ vertex. IfSome vertex (λ v. 2 ≤ length fields.now)) }
{
    if fields.len() >= 2 && begins_vertex(&fields[0], &fields[1]) {
        let vertex = vertex_of(bytes, exact, &fields[0], &fields[1], &fields[2..])?;
        Ok(Some(vertex))
    } else if is_number(&fields[0]) {
        Err(LayerFault::Count {
            line: u64::from(fields[0].line),
        })
    } else {
        Ok(None)
    }
}

/// Reads the vertices in fields, in order.
fn read_vertices(
    bytes: &[u8],
    exact: bool,
    fields: &[Pair],
    drawing: &mut Drawing,
) -> Result<(), LayerFault>
    requires room { HoldsAtMost (2 ^ 30) (contents_of drawing.old) }
    requires few { length fields.now ≤ 2 ^ 29 }
    ensures reads { ReadsVertices (vertices_in bytes.now exact fields.now) (contents_of drawing.old) result (contents_of drawing.new) }
    ensures grown { OnOk result (GrowsBy (length fields.now) (contents_of drawing.old) (contents_of drawing.new)) }
{
    let mut at = 0;
    while at < fields.len() {
        match first_vertex(bytes, exact, &fields[at..])? {
            Some(vertex) => {
                add_vertex(drawing, &vertex)?;
                at += 2;
            }
            None => at += 1,
        }
    }
    Ok(())
}

/// The field 90 of a polyline, which counts its vertices.
fn check_count(bytes: &[u8], number: u32, entity: &Entity) -> Result<Pair, LayerFault>
    ensures { result ≡ count_of bytes.now number (entity_view entity.now) }
{
    let pair = need_field(90, entity)?;
    if equals(bytes, number, &pair) {
        Ok(pair)
    } else {
        Err(LayerFault::Count {
            line: u64::from(pair.line),
        })
    }
}

/// Adds the path of the points from a number on, where there are some.
pub fn add_path_from(drawing: &mut Drawing, kind: PathKind, first: u32) -> Result<(), AllocError>
    requires room { HoldsAtMost (2 ^ 31) (contents_of drawing.old) }
    ensures added { OnOk result (contents_of drawing.new
        ≡ with_rows (contents_of drawing.old) (rows_from kind first (length (contents_of drawing.old).points))) }
    ensures grown { OnOk result (GrowsBy 1 (contents_of drawing.old) (contents_of drawing.new)) }
{
    let past = drawing.point();
    if first < past {
        drawing.add_path(kind, first, past)?;
    }
    Ok(())
}

/// Reads a polyline in one entity.
pub fn read_light(
    bytes: &[u8],
    exact: bool,
    entity: &Entity,
    drawing: &mut Drawing,
) -> Result<(), LayerFault>
    requires room { HoldsAtMost (2 ^ 30) (contents_of drawing.old) }
    requires few { length entity.now.pairs.now ≤ 2 ^ 29 }
    ensures reads { Reads (light_shapes bytes.now exact (entity_view entity.now)) (contents_of drawing.old) result
        (contents_of drawing.new) }
    ensures grown { OnOk result (GrowsBy (length entity.now.pairs.now + 1) (contents_of drawing.old) (contents_of drawing.new)) }
{
    let kind = kind_of(bytes, entity)?;
    let first = drawing.point();
    read_vertices(bytes, exact, fields_of(entity), drawing)?;
    let past = drawing.point();
    let count = check_count(bytes, past - first, entity)?;
    drawing.add_edit(value_edit(What::Tally { first, past }, &count))?;
    add_path_from(drawing, kind, first)?;
    Ok(())
}
