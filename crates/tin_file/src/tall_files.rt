//! Reading a triangulation file with its vertical component.

ghost use Rattle.std.specs.Prelude.{◌≡◌, ◌≤◌, ℕ, List, length, map, IfOk, All};
ghost use Rattle.jtext.specs.Values.{Members};
ghost use Rattle.jtext.specs.Texts.{Whole};
ghost use Rattle.jtext.specs.Places.{IsReadFrom, IsDocOf, HasKind};
ghost use Rattle.tin_file.specs.TallVertices.{tall_vertices};
ghost use Rattle.tin_file.specs.TallFiles.{tall_within_spans, tall_rows_of, tall_reading, TallAnswers, IsSmallOffset};
ghost use Rattle.tin_file.specs.InsideNodes.{HasMembers, Gives, Equals};
ghost use Rattle.tin_file.specs.InsideTallRows.{AreTallColumns, IsTallHeading, AreTallGathered};
ghost use Rattle.tin_file.specs.RowContents.{IsComplete};
ghost use Rattle.tin_file.specs.TallVertices.{vertices_in, offsets_of};
ghost use Rattle.tin_file.specs.declared.tall_vertices.TallVertex.{TallVertex};

use crate::elements::holds_object;
use crate::faults::{Rows, TinFault, Top};
use crate::tall_columns::TallColumns;
use crate::tall_headings::{TallHeading, read_tall_heading};
use crate::tall_vertices::{TallVertices, read_tall_vertices};
use crate::tin_files::{MOST_BYTES, find_rows, find_triangles, finish};
use jtext::{Doc, JsonFault, Kind, read_json};
use sheet_base::{How, Listed};
use std::alloc::Global;
use tin_base::{MOST_CORNERS, Tin};

/// A triangulation, and of each of its corners the vertical offset, in millimetres.
#[derive(Drop)]
pub struct Tall {
    pub tin: Tin,
    pub offsets: Listed<i64>,
}

/// The corners of the vertex rows, and their offsets. The list is room for the elements of a row.
fn find_tall_vertices(
    alloc: Global,
    doc: &Doc,
    bytes: &[u8],
    how: How,
    columns: TallColumns,
    values: &mut Vec<u32>,
) -> Result<TallVertices, TinFault>
    requires read { IsReadFrom doc.now bytes.now }
    requires object { HasKind doc.now.nodes 0 Kind.Object }
    requires columns { AreTallColumns columns }
    ensures { (members : Members) → HasMembers doc.now.nodes bytes.now members
        → Gives AreTallGathered result (tall_vertices how columns members) }
{
    let rows = find_rows(
        alloc,
        doc,
        bytes,
        Top::Vertices,
        Rows::Vertices,
        MOST_CORNERS,
    )?;
    read_tall_vertices(alloc, doc, bytes, how, columns, &rows, values)
}

/// The triangulation of vertices and triangles of them, where no span is too great, with the offsets.
fn finish_tall(vertices: TallVertices, triangles: Vec<[u32; 3]>) -> Result<Tall, TinFault>
    requires { (rows : List TallVertex) × (faces : List (List ℕ)) × IsComplete vertices.vertices triangles.items (vertices_in rows) faces }
    ensures { (rows : List TallVertex) → (faces : List (List ℕ)) → IsComplete vertices.vertices triangles.items (vertices_in rows) faces
        → vertices.offsets.items ≡ offsets_of rows → result ≡ tall_within_spans rows faces }
{
    let TallVertices { vertices, offsets } = vertices;
    let tin = finish(vertices, triangles)?;
    Ok(Tall {
        tin,
        offsets: Listed::of(offsets),
    })
}

/// What the rows are, with these columns.
fn read_tall_rows(
    alloc: Global,
    doc: &Doc,
    bytes: &[u8],
    how: How,
    columns: TallHeading,
    values: &mut Vec<u32>,
) -> Result<Tall, TinFault>
    requires read { IsReadFrom doc.now bytes.now }
    requires object { HasKind doc.now.nodes 0 Kind.Object }
    requires columns { IsTallHeading columns }
    ensures { (members : Members) → HasMembers doc.now.nodes bytes.now members
        → Equals result (tall_rows_of how members columns) }
{
    let vertices = find_tall_vertices(alloc, doc, bytes, how, columns.vertices, values)?;
    let triangles = find_triangles(
        alloc,
        doc,
        bytes,
        columns.triangles,
        &vertices.vertices.numbers,
        values,
    )?;
    finish_tall(vertices, triangles)
}

/// Reads the triangulation of a document that was read from the bytes.
fn read_tall_document(alloc: Global, doc: &Doc, bytes: &[u8], how: How) -> Result<Tall, TinFault>
    requires { IsReadFrom doc.now bytes.now }
    ensures { (whole : Whole) → IsDocOf whole doc.now bytes.now
        → Equals result (tall_reading how whole.value) }
{
    if !holds_object(doc, 0) {
        return Err(TinFault::Key { which: Top::Whole });
    }
    let mut values = Vec::new(alloc);
    let columns = read_tall_heading(doc, bytes, how, &mut values)?;
    read_tall_rows(alloc, doc, bytes, how, columns, &mut values)
}

/// Reads a triangulation file of PROJ's `tinshift` kind that transforms heights, format 1.0 or 1.1. As `read_tin`, but
/// `vertical` has to be among the `transformed_components`. Where `horizontal` is not, the target is the source. The
/// offset of a corner is its `offset_z`, or, where there is no such column, its `target_z` less its `source_z`. Vertex
/// rows that are one corner have one offset.
pub fn read_tall(alloc: Global, bytes: &[u8], how: How) -> Result<Tall, TinFault>
    requires { length bytes.now ≤ MOST_BYTES }
    ensures answer { TallAnswers how bytes.now result }
    ensures each { IfOk result (λ tall. length tall.offsets ≡ length tall.tin.corners) }
    ensures small { IfOk result (λ tall. All IsSmallOffset tall.offsets) }
{
    match read_json(alloc, bytes) {
        Ok(doc) => read_tall_document(alloc, &doc, bytes, how),
        Err(JsonFault::Bad { at }) => Err(TinFault::Json { at }),
        Err(JsonFault::Deep { at }) => Err(TinFault::Deep { at }),
        Err(JsonFault::NoMemory) => Err(TinFault::NoMemory),
    }
}
