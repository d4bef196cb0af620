//! Vertex rows with a vertical component, and the offsets of the corners that they are.

ghost use Rattle.std.specs.Prelude.{◌≡◌, ◌+◌, ◌<◌, ◌≤◌, List, [], ◌∷◌, ◌++◌, length, Ok, IfOk, ℤ};
ghost use Rattle.jtext.specs.Values.{Json};
ghost use Rattle.mm_decimal.specs.declared.numerals.MmRead.{MmRead};
ghost use Rattle.tin_base.specs.Limits.{IsInReach};
ghost use Rattle.tin_base.specs.declared.limits.TheConstants.{MOST_CORNERS};
ghost use Rattle.tin_file.specs.TallVertices.{still_vertex_from, corner_in, own_offset, height_offset, offset_in, tall_from};
ghost use Rattle.tin_file.specs.TallVertices.{tall_in, tall_of, agreeing, tall_rows, offsets_of};
ghost use Rattle.tin_file.specs.declared.tall_vertices.TallVertex.{TallVertex};
ghost use Rattle.tin_file.specs.InsideNodes.{IsThere, AreThere, IsNode, AreNodes, Gives, Equals};
ghost use Rattle.tin_file.specs.RowContents.{AreCollected};
ghost use Rattle.tin_file.specs.InsideTallRows.{AreTallColumns, IsOffsetBelow, IsAdded, AreTallGathered};
ghost use Rattle.indexmap.specs.IndexSet.{index_set_len};

use crate::elements::{holds_array, list_elements};
use crate::faults::{Rows, TinFault};
use crate::hashes::TextHash;
use crate::tall_columns::{OffsetColumns, TallColumns, TargetColumns};
use crate::vertices::{Numbers, VertexRow, Vertices, add, combine, read_number};
use indexmap::IndexSet;
use jtext::Doc;
use mm_decimal::{MmRead, loss};
use sheet_base::How;
use std::alloc::Global;
use tin_base::Corner;

/// An offset in millimetres, and how many of its numbers lost digits.
#[derive(Clone, Copy)]
pub struct Offset {
    pub offset: i64,
    pub inexact: u64,
}

/// The corner of a vertex row, and its offset in millimetres.
#[derive(Clone, Copy)]
pub struct TallVertex {
    pub vertex: VertexRow,
    pub offset: i64,
}

/// Corners in order of their first rows, and the offset of each, in millimetres.
#[derive(Drop)]
pub struct TallVertices {
    pub vertices: Vertices,
    pub offsets: Vec<i64>,
}

/// The corner of two numbers, which stays where it is, or the first fault of them.
fn combine_source(
    sx: Result<MmRead, TinFault>,
    sy: Result<MmRead, TinFault>,
) -> Result<VertexRow, TinFault>
    ensures vertex { result ≡ still_vertex_from sx sy }
    ensures small { IfOk result (λ vertex. vertex.inexact ≤ 4) }
{
    match (sx, sy) {
        (Ok(sx), Ok(sy)) => Ok(VertexRow {
            corner: Corner {
                sx: sx.mm,
                sy: sy.mm,
                tx: sx.mm,
                ty: sy.mm,
            },
            inexact: loss(sx) + loss(sy),
        }),
        (Err(fault), _) => Err(fault),
        (Ok(_), Err(fault)) => Err(fault),
    }
}

/// The corner of a row with these elements.
fn read_corner(
    doc: &Doc,
    bytes: &[u8],
    how: How,
    columns: TallColumns,
    row: u32,
    values: &[u32],
) -> Result<VertexRow, TinFault>
    requires columns { AreTallColumns columns }
    requires many { length values.now ≡ columns.count }
    requires nodes { AreNodes doc.now.nodes bytes.now values.now }
    ensures vertex { (all : List Json) → AreThere doc.now.nodes bytes.now values.now all
        → result ≡ corner_in how columns row all }
    ensures small { IfOk result (λ vertex. vertex.inexact ≤ 4) }
{
    let sx = read_number(doc, bytes, how, row, values[columns.source_x]);
    let sy = read_number(doc, bytes, how, row, values[columns.source_y]);
    match columns.target {
        TargetColumns::Own { x, y } => {
            let tx = read_number(doc, bytes, how, row, values[x]);
            let ty = read_number(doc, bytes, how, row, values[y]);
            combine(sx, sy, tx, ty)
        }
        TargetColumns::OfSource => combine_source(sx, sy),
    }
}

/// The offset that is a number.
fn own_offset(z: Result<MmRead, TinFault>) -> Result<Offset, TinFault>
    ensures offset { result ≡ own_offset z }
    ensures small { IfOk result (λ offset. offset.inexact ≤ 2) }
{
    match z {
        Ok(z) => Ok(Offset {
            offset: z.mm,
            inexact: loss(z),
        }),
        Err(fault) => Err(fault),
    }
}

/// The offset from a height of the source to one of the target, or the first fault of them.
fn height_offset(
    source: Result<MmRead, TinFault>,
    target: Result<MmRead, TinFault>,
) -> Result<Offset, TinFault>
    requires source { (read : MmRead) → source ≡ Ok read → IsInReach read.mm }
    requires target { (read : MmRead) → target ≡ Ok read → IsInReach read.mm }
    ensures offset { result ≡ height_offset source target }
    ensures small { IfOk result (λ offset. offset.inexact ≤ 2) }
{
    match (source, target) {
        (Ok(source), Ok(target)) => Ok(Offset {
            offset: target.mm - source.mm,
            inexact: loss(source) + loss(target),
        }),
        (Err(fault), _) => Err(fault),
        (Ok(_), Err(fault)) => Err(fault),
    }
}

/// The offset of a row with these elements.
fn read_offset(
    doc: &Doc,
    bytes: &[u8],
    how: How,
    columns: OffsetColumns,
    row: u32,
    values: &[u32],
) -> Result<Offset, TinFault>
    requires places { IsOffsetBelow (length values.now) columns }
    requires nodes { AreNodes doc.now.nodes bytes.now values.now }
    ensures offset { (all : List Json) → AreThere doc.now.nodes bytes.now values.now all
        → result ≡ offset_in how columns row all }
    ensures small { IfOk result (λ offset. offset.inexact ≤ 2) }
{
    match columns {
        OffsetColumns::Offset { z } => {
            let own = read_number(doc, bytes, how, row, values[z]);
            own_offset(own)
        }
        OffsetColumns::Heights { source_z, target_z } => {
            let source = read_number(doc, bytes, how, row, values[source_z]);
            let target = read_number(doc, bytes, how, row, values[target_z]);
            height_offset(source, target)
        }
    }
}

/// A corner and its offset, or the first fault of them.
fn combine_tall(
    vertex: Result<VertexRow, TinFault>,
    offset: Result<Offset, TinFault>,
) -> Result<TallVertex, TinFault>
    requires vertex { IfOk vertex (λ vertex. vertex.inexact ≤ 4) }
    requires offset { IfOk offset (λ offset. offset.inexact ≤ 2) }
    ensures tall { result ≡ tall_from vertex offset }
    ensures small { IfOk result (λ tall. tall.vertex.inexact ≤ 6) }
{
    match (vertex, offset) {
        (Ok(vertex), Ok(offset)) => Ok(TallVertex {
            vertex: VertexRow {
                corner: vertex.corner,
                inexact: vertex.inexact + offset.inexact,
            },
            offset: offset.offset,
        }),
        (Err(fault), _) => Err(fault),
        (Ok(_), Err(fault)) => Err(fault),
    }
}

/// The corner of a row with these elements, and its offset.
fn read_tall_elements(
    doc: &Doc,
    bytes: &[u8],
    how: How,
    columns: TallColumns,
    row: u32,
    values: &[u32],
) -> Result<TallVertex, TinFault>
    requires columns { AreTallColumns columns }
    requires nodes { AreNodes doc.now.nodes bytes.now values.now }
    ensures tall { (all : List Json) → AreThere doc.now.nodes bytes.now values.now all
        → result ≡ tall_in how columns row all }
    ensures small { IfOk result (λ tall. tall.vertex.inexact ≤ 6) }
{
    if values.len() != columns.count {
        return Err(TinFault::Row {
            list: Rows::Vertices,
            row,
        });
    }
    let vertex = read_corner(doc, bytes, how, columns, row, values);
    let offset = read_offset(doc, bytes, how, columns.offset, row, values);
    combine_tall(vertex, offset)
}

/// The corner of a row, and its offset. The list is room for the row's elements.
fn read_tall_vertex(
    doc: &Doc,
    bytes: &[u8],
    how: How,
    columns: TallColumns,
    row: u32,
    value: u32,
    values: &mut Vec<u32>,
) -> Result<TallVertex, TinFault>
    requires columns { AreTallColumns columns }
    requires node { IsNode doc.now.nodes bytes.now value }
    ensures tall { (is : Json) → IsThere doc.now.nodes bytes.now value is
        → Equals result (tall_of how columns row is) }
    ensures small { IfOk result (λ tall. tall.vertex.inexact ≤ 6) }
{
    if !holds_array(doc, value) {
        return Err(TinFault::Row {
            list: Rows::Vertices,
            row,
        });
    }
    list_elements(doc, value, values)?;
    read_tall_elements(doc, bytes, how, columns, row, values)
}

/// Keeps the offset of a row, whose corner was added last: it is new where the corner is, and else has to be that of
/// the corner.
fn keep_offset(
    vertices: &Vertices,
    offsets: &mut Vec<i64>,
    row: u32,
    offset: i64,
) -> Result<(), TinFault>
    requires { (rows : List TallVertex) × (one : TallVertex) × IsAdded vertices.now offsets.old.items row offset rows one }
    ensures { (rows : List TallVertex) → (one : TallVertex) → IsAdded vertices.now offsets.old.items row offset rows one
        → Gives (λ done kept. offsets.new.items ≡ offsets_of (rows ++ one ∷ [])) result (agreeing rows one) }
{
    if offsets.len() < vertices.corners.len() {
        offsets.push(offset)?;
        return Ok(());
    }
    let number = vertices.numbers[row as usize];
    if offsets[number as usize] == offset {
        Ok(())
    } else {
        Err(TinFault::Offset { row })
    }
}

/// Adds the corners of all rows, and their offsets. The list is room for the elements of a row.
fn add_tall_rows(
    doc: &Doc,
    bytes: &[u8],
    how: How,
    columns: TallColumns,
    rows: &[u32],
    values: &mut Vec<u32>,
    done: &mut TallVertices,
    seen: &mut IndexSet<Numbers, TextHash>,
) -> Result<(), TinFault>
    requires columns { AreTallColumns columns }
    requires few { length rows.now ≤ MOST_CORNERS }
    requires nodes { AreNodes doc.now.nodes bytes.now rows.now }
    requires none { AreCollected done.old.vertices seen.old [] }
    requires no_offsets { done.old.offsets.items ≡ [] }
    requires none_seen { index_set_len seen.old ≡ 0 }
    requires none_inexact { done.old.vertices.inexact ≡ 0 }
    ensures { (all : List Json) → AreThere doc.now.nodes bytes.now rows.now all
        → Gives (λ passed talls. AreTallGathered done.new talls) result (tall_rows how columns [] all) }
{
    for (row, value) in rows.iter().enumerate() {
        let tall = read_tall_vertex(doc, bytes, how, columns, row as u32, *value, values)?;
        add(&mut done.vertices, seen, tall.vertex)?;
        keep_offset(&done.vertices, &mut done.offsets, row as u32, tall.offset)?;
    }
    Ok(())
}

/// The corners of all rows, and their offsets. The list is room for the elements of a row.
pub fn read_tall_vertices(
    alloc: Global,
    doc: &Doc,
    bytes: &[u8],
    how: How,
    columns: TallColumns,
    rows: &[u32],
    values: &mut Vec<u32>,
) -> Result<TallVertices, TinFault>
    requires columns { AreTallColumns columns }
    requires few { length rows.now ≤ MOST_CORNERS }
    requires nodes { AreNodes doc.now.nodes bytes.now rows.now }
    ensures { (all : List Json) → AreThere doc.now.nodes bytes.now rows.now all
        → Gives AreTallGathered result (tall_rows how columns [] all) }
{
    let mut done = TallVertices {
        vertices: Vertices::with_room(alloc, rows.len())?,
        offsets: Vec::with_capacity(alloc, rows.len())?,
    };
    let mut seen = IndexSet::with_capacity_and_hasher(alloc, rows.len(), TextHash::of(bytes))?;
    add_tall_rows(doc, bytes, how, columns, rows, values, &mut done, &mut seen)?;
    Ok(done)
}
