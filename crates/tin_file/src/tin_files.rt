//! Reading a triangulation file.

ghost use Rattle.std.specs.Prelude.{◌≡◌, ◌≤◌, ℕ, List, length, map, vec_len, IfOk};
ghost use Rattle.jtext.specs.Values.{Json, Members};
ghost use Rattle.jtext.specs.Texts.{Whole};
ghost use Rattle.jtext.specs.Places.{IsReadFrom, IsDocOf, HasKind};
ghost use Rattle.tin_file.specs.Keys.{and_then, needed_list};
ghost use Rattle.tin_file.specs.Vertices.{few, vertices};
ghost use Rattle.tin_file.specs.Triangles.{triangles};
ghost use Rattle.tin_file.specs.TinFiles.{within_spans, rows_of, reading, Answers};
ghost use Rattle.tin_file.specs.InsideNodes.{AreThere, HasMembers, Gives, Equals};
ghost use Rattle.tin_file.specs.RowContents.{AreVertexColumns, AreTriangleColumns, IsHeading};
ghost use Rattle.tin_file.specs.RowContents.{AreGathered, IsComplete, face_corners};
ghost use Rattle.tin_file.specs.declared.vertices.VertexRow.{VertexRow};

use crate::columns::{TriangleColumns, VertexColumns};
use crate::elements::{find_list, holds_object};
use crate::faults::{Rows, TinFault, Top};
use crate::headings::{Heading, read_heading};
use crate::orientations::orient;
use crate::spans::check_spans;
use crate::triangles::read_triangles;
use crate::vertices::{Vertices, read_vertices};
use jtext::{Doc, JsonFault, Kind, read_json};
use sheet_base::How;
use std::alloc::Global;
use tin_base::{MOST_CORNERS, MOST_TRIANGLES, Tin};

/// The most bytes of a file.
pub const MOST_BYTES: usize = 1 << 26;

/// The elements of a member that is a list of at most this many rows.
pub fn find_rows(
    alloc: Global,
    doc: &Doc,
    bytes: &[u8],
    which: Top,
    list: Rows,
    most: usize,
) -> Result<Vec<u32>, TinFault>
    requires read { IsReadFrom doc.now bytes.now }
    requires object { HasKind doc.now.nodes 0 Kind.Object }
    ensures rows { (members : Members) → HasMembers doc.now.nodes bytes.now members
        → Gives (λ rows values. AreThere doc.now.nodes bytes.now rows.items values) result
        (and_then (few list most) (needed_list which members)) }
    ensures most { IfOk result (λ rows. vec_len rows ≤ most) }
{
    let mut rows = Vec::new(alloc);
    find_list(doc, bytes, which, &mut rows)?;
    if rows.len() > most {
        return Err(TinFault::TooMany { list });
    }
    Ok(rows)
}

/// The triangulation of vertices and triangles of them, where no span is too great.
pub fn finish(vertices: Vertices, triangles: Vec<[u32; 3]>) -> Result<Tin, TinFault>
    requires { (rows : List VertexRow) × (faces : List (List ℕ)) × IsComplete vertices triangles.items rows faces }
    ensures { (rows : List VertexRow) → (faces : List (List ℕ)) → IsComplete vertices triangles.items rows faces
        → result ≡ within_spans rows faces }
{
    let Vertices {
        corners,
        numbers,
        inexact,
    } = vertices;
    let mut triangles = triangles;
    check_spans(&corners)?;
    orient(&corners, &mut triangles);
    Ok(Tin::of(corners, triangles, inexact))
}

/// The corners of the vertex rows. The list is room for the elements of a row.
fn find_vertices(
    alloc: Global,
    doc: &Doc,
    bytes: &[u8],
    how: How,
    columns: VertexColumns,
    values: &mut Vec<u32>,
) -> Result<Vertices, TinFault>
    requires read { IsReadFrom doc.now bytes.now }
    requires object { HasKind doc.now.nodes 0 Kind.Object }
    requires columns { AreVertexColumns columns }
    ensures { (members : Members) → HasMembers doc.now.nodes bytes.now members
        → Gives AreGathered result (vertices how columns members) }
{
    let rows = find_rows(
        alloc,
        doc,
        bytes,
        Top::Vertices,
        Rows::Vertices,
        MOST_CORNERS,
    )?;
    read_vertices(alloc, doc, bytes, how, columns, &rows, values)
}

/// The triangles of the triangle rows, by the corners of the vertex rows. The list is room for the
/// elements of a row.
pub fn find_triangles(
    alloc: Global,
    doc: &Doc,
    bytes: &[u8],
    columns: TriangleColumns,
    numbers: &[u32],
    values: &mut Vec<u32>,
) -> Result<Vec<[u32; 3]>, TinFault>
    requires read { IsReadFrom doc.now bytes.now }
    requires object { HasKind doc.now.nodes 0 Kind.Object }
    requires columns { AreTriangleColumns columns }
    requires few { length numbers.now ≤ MOST_CORNERS }
    ensures { (members : Members) → HasMembers doc.now.nodes bytes.now members
        → Gives (λ made faces. made.items ≡ map (face_corners numbers.now) faces) result
        (triangles columns (length numbers.now) members) }
{
    let rows = find_rows(
        alloc,
        doc,
        bytes,
        Top::Triangles,
        Rows::Triangles,
        MOST_TRIANGLES,
    )?;
    read_triangles(alloc, doc, bytes, columns, numbers, &rows, values)
}

/// What the rows are, with these columns.
fn read_rows(
    alloc: Global,
    doc: &Doc,
    bytes: &[u8],
    how: How,
    columns: Heading,
    values: &mut Vec<u32>,
) -> Result<Tin, TinFault>
    requires read { IsReadFrom doc.now bytes.now }
    requires object { HasKind doc.now.nodes 0 Kind.Object }
    requires columns { IsHeading columns }
    ensures { (members : Members) → HasMembers doc.now.nodes bytes.now members
        → Equals result (rows_of how members columns) }
{
    let vertices = find_vertices(alloc, doc, bytes, how, columns.vertices, values)?;
    let triangles = find_triangles(
        alloc,
        doc,
        bytes,
        columns.triangles,
        &vertices.numbers,
        values,
    )?;
    finish(vertices, triangles)
}

/// Reads the triangulation of a document that was read from the bytes.
fn read_document(alloc: Global, doc: &Doc, bytes: &[u8], how: How) -> Result<Tin, TinFault>
    requires { IsReadFrom doc.now bytes.now }
    ensures { (whole : Whole) → IsDocOf whole doc.now bytes.now
        → Equals result (reading how whole.value) }
{
    if !holds_object(doc, 0) {
        return Err(TinFault::Key { which: Top::Whole });
    }
    let mut values = Vec::new(alloc);
    let columns = read_heading(doc, bytes, how, &mut values)?;
    read_rows(alloc, doc, bytes, how, columns, &mut values)
}

/// Reads a triangulation file of PROJ's `tinshift` kind, format 1.0 or 1.1. Vertex rows that are
/// equal in all four numbers are one corner, numbered by the first of them; a triangle that is
/// clockwise in the source has its last two corners exchanged. Of several faults the first in this
/// order is reported: the JSON text; the whole value; `file_type`; `format_version`;
/// `fallback_strategy`; `transformed_components`; `vertices_columns`; `triangles_columns`; the rows
/// of `vertices`; those of `triangles`; the spans of the source and of the target. Members and
/// columns of other names are passed over.
pub fn read_tin(alloc: Global, bytes: &[u8], how: How) -> Result<Tin, TinFault>
    requires { length bytes.now ≤ MOST_BYTES }
    ensures { Answers how bytes.now result }
{
    match read_json(alloc, bytes) {
        Ok(doc) => read_document(alloc, &doc, bytes, how),
        Err(JsonFault::Bad { at }) => Err(TinFault::Json { at }),
        Err(JsonFault::Deep { at }) => Err(TinFault::Deep { at }),
        Err(JsonFault::NoMemory) => Err(TinFault::NoMemory),
    }
}
