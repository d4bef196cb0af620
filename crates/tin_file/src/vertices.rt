//! Vertex rows, and the corners that they are.

ghost use Rattle.std.specs.Prelude.{◌≡◌, ◌+◌, ◌^◌, ◌<◌, ◌≤◌, List, [], ◌∷◌, ◌++◌, length, OnOk, IfOk, IfErr};
ghost use Rattle.jtext.specs.Values.{Json};
ghost use Rattle.tin_base.specs.declared.limits.TheConstants.{MOST_CORNERS};
ghost use Rattle.tin_file.specs.Vertices.{number_or_fault, number_in, vertex_from, vertex_in, vertex_of, vertex_rows};
ghost use Rattle.tin_file.specs.InsideNodes.{IsThere, AreThere, IsNode, AreNodes, Gives, Equals};
ghost use Rattle.tin_file.specs.RowContents.{AreVertexColumns, AreGathered, AreCollected, numbers_in};
ghost use Rattle.indexmap.specs.IndexSet.{index_set_len};

use crate::columns::VertexColumns;
use crate::elements::{holds_array, holds_number, list_elements, text_at};
use crate::faults::{Rows, TinFault};
use crate::hashes::TextHash;
use indexmap::IndexSet;
use jtext::Doc;
use mm_decimal::{MmRead, NumFault, loss, read_mm};
use sheet_base::How;
use std::alloc::Global;
use tin_base::Corner;

/// The corner of a vertex row, and how many of its four numbers lost digits.
#[derive(Clone, Copy)]
pub struct VertexRow {
    pub corner: Corner,
    pub inexact: u64,
}

/// The four numbers of a corner, by which rows are compared.
#[derive(Clone, Copy, PartialEq, Eq, Hash)]
pub struct Numbers {
    pub source_x: i64,
    pub source_y: i64,
    pub target_x: i64,
    pub target_y: i64,
}

/// Corners in order of their first rows, the number of each row's corner, and how many numbers lost
/// digits.
#[derive(Drop)]
pub struct Vertices {
    pub corners: Vec<Corner>,
    pub numbers: Vec<u32>,
    pub inexact: u64,
}

/// What is read of a number text, where it is accepted.
fn accept(how: How, row: u32, answer: Result<MmRead, NumFault>) -> Result<MmRead, TinFault>
    ensures { result ≡ number_or_fault how row answer }
{
    match answer {
        Ok(read) => {
            if how.exact && !read.exact {
                Err(TinFault::Inexact { row })
            } else {
                Ok(read)
            }
        }
        Err(fault) => Err(TinFault::Number { row, fault }),
    }
}

/// The number that a value of this vertex row is.
pub fn read_number(
    doc: &Doc,
    bytes: &[u8],
    how: How,
    row: u32,
    value: u32,
) -> Result<MmRead, TinFault>
    requires { IsNode doc.now.nodes bytes.now value }
    ensures { (is : Json) → IsThere doc.now.nodes bytes.now value is
        → result ≡ number_in how row is }
{
    if holds_number(doc, value) {
        accept(how, row, read_mm(text_at(doc, bytes, value)))
    } else {
        Err(TinFault::Row {
            list: Rows::Vertices,
            row,
        })
    }
}

/// The corner of four numbers, or the first fault of them.
pub fn combine(
    sx: Result<MmRead, TinFault>,
    sy: Result<MmRead, TinFault>,
    tx: Result<MmRead, TinFault>,
    ty: Result<MmRead, TinFault>,
) -> Result<VertexRow, TinFault>
    ensures vertex { result ≡ vertex_from sx sy tx ty }
    ensures small { IfOk result (λ vertex. vertex.inexact ≤ 4) }
{
    match (sx, sy, tx, ty) {
        (Ok(sx), Ok(sy), Ok(tx), Ok(ty)) => Ok(VertexRow {
            corner: Corner {
                sx: sx.mm,
                sy: sy.mm,
                tx: tx.mm,
                ty: ty.mm,
            },
            inexact: loss(sx) + (loss(sy) + (loss(tx) + loss(ty))),
        }),
        (Err(fault), _, _, _) => Err(fault),
        (Ok(_), Err(fault), _, _) => Err(fault),
        (Ok(_), Ok(_), Err(fault), _) => Err(fault),
        (Ok(_), Ok(_), Ok(_), Err(fault)) => Err(fault),
    }
}

/// The corner of a row with these elements.
fn read_vertex_numbers(
    doc: &Doc,
    bytes: &[u8],
    how: How,
    columns: VertexColumns,
    row: u32,
    values: &[u32],
) -> Result<VertexRow, TinFault>
    requires columns { AreVertexColumns columns }
    requires nodes { AreNodes doc.now.nodes bytes.now values.now }
    ensures vertex { (all : List Json) → AreThere doc.now.nodes bytes.now values.now all
        → result ≡ vertex_in how columns row all }
    ensures small { IfOk result (λ vertex. vertex.inexact ≤ 4) }
{
    if values.len() != columns.count {
        return Err(TinFault::Row {
            list: Rows::Vertices,
            row,
        });
    }
    let sx = read_number(doc, bytes, how, row, values[columns.source_x]);
    let sy = read_number(doc, bytes, how, row, values[columns.source_y]);
    let tx = read_number(doc, bytes, how, row, values[columns.target_x]);
    let ty = read_number(doc, bytes, how, row, values[columns.target_y]);
    combine(sx, sy, tx, ty)
}

/// The corner of a row. The list is room for the row's elements.
fn read_vertex(
    doc: &Doc,
    bytes: &[u8],
    how: How,
    columns: VertexColumns,
    row: u32,
    value: u32,
    values: &mut Vec<u32>,
) -> Result<VertexRow, TinFault>
    requires columns { AreVertexColumns columns }
    requires node { IsNode doc.now.nodes bytes.now value }
    ensures vertex { (is : Json) → IsThere doc.now.nodes bytes.now value is
        → Equals result (vertex_of how columns row is) }
    ensures small { IfOk result (λ vertex. vertex.inexact ≤ 4) }
{
    if !holds_array(doc, value) {
        return Err(TinFault::Row {
            list: Rows::Vertices,
            row,
        });
    }
    list_elements(doc, value, values)?;
    read_vertex_numbers(doc, bytes, how, columns, row, values)
}

/// The four numbers of a corner.
fn numbers_of(corner: Corner) -> Numbers
    ensures { result ≡ numbers_in corner }
{
    Numbers {
        source_x: corner.sx,
        source_y: corner.sy,
        target_x: corner.tx,
        target_y: corner.ty,
    }
}

/// Adds a row's corner, where no earlier row has it, and its number.
pub fn add(
    vertices: &mut Vertices,
    seen: &mut IndexSet<Numbers, TextHash>,
    vertex: VertexRow,
) -> Result<(), TinFault>
    requires few { index_set_len seen.old < MOST_CORNERS }
    requires room { vertices.old.inexact + vertex.inexact < 2 ^ 64 }
    ensures added { OnOk result ((rows : List VertexRow) → AreCollected vertices.old seen.old rows
        → AreCollected vertices.new seen.new (rows ++ vertex ∷ [])) }
    ensures count { OnOk result (index_set_len seen.new ≤ index_set_len seen.old + 1) }
    ensures inexact { OnOk result (vertices.new.inexact ≡ vertices.old.inexact + vertex.inexact) }
    ensures memory { IfErr result (λ fault. fault ≡ TinFault.NoMemory) }
{
    match seen.insert_full(numbers_of(vertex.corner)) {
        Ok((number, is_new)) => {
            if is_new {
                vertices.corners.push(vertex.corner)?;
            }
            vertices.numbers.push(number as u32)?;
            vertices.inexact += vertex.inexact;
            Ok(())
        }
        Err(_) => Err(TinFault::NoMemory),
    }
}

impl Vertices {
    /// No corners, with room for this many rows.
    pub fn with_room(alloc: Global, rows: usize) -> Result<Vertices, TinFault>
        ensures corners { IfOk result (λ vertices. vertices.corners.items ≡ []) }
        ensures numbers { IfOk result (λ vertices. vertices.numbers.items ≡ []) }
        ensures inexact { IfOk result (λ vertices. vertices.inexact ≡ 0) }
        ensures memory { IfErr result (λ fault. fault ≡ TinFault.NoMemory) }
    {
        Ok(Vertices {
            corners: Vec::with_capacity(alloc, rows)?,
            numbers: Vec::with_capacity(alloc, rows)?,
            inexact: 0,
        })
    }
}

/// Adds the corners of all rows. The list is room for the elements of a row.
fn add_rows(
    doc: &Doc,
    bytes: &[u8],
    how: How,
    columns: VertexColumns,
    rows: &[u32],
    values: &mut Vec<u32>,
    vertices: &mut Vertices,
    seen: &mut IndexSet<Numbers, TextHash>,
) -> Result<(), TinFault>
    requires columns { AreVertexColumns columns }
    requires few { length rows.now ≤ MOST_CORNERS }
    requires nodes { AreNodes doc.now.nodes bytes.now rows.now }
    requires none { AreCollected vertices.old seen.old [] }
    requires none_seen { index_set_len seen.old ≡ 0 }
    requires none_inexact { vertices.old.inexact ≡ 0 }
    ensures { (all : List Json) → AreThere doc.now.nodes bytes.now rows.now all
        → Gives (λ done rows. AreCollected vertices.new seen.new rows) result (vertex_rows how columns 0 all) }
{
    for (row, value) in rows.iter().enumerate() {
        let vertex = read_vertex(doc, bytes, how, columns, row as u32, *value, values)?;
        add(vertices, seen, vertex)?;
    }
    Ok(())
}

/// Gathers the corners of all rows, where there are none yet. The list is room for the elements of
/// a row.
fn gather_rows(
    alloc: Global,
    doc: &Doc,
    bytes: &[u8],
    how: How,
    columns: VertexColumns,
    rows: &[u32],
    values: &mut Vec<u32>,
    vertices: &mut Vertices,
) -> Result<(), TinFault>
    requires columns { AreVertexColumns columns }
    requires few { length rows.now ≤ MOST_CORNERS }
    requires nodes { AreNodes doc.now.nodes bytes.now rows.now }
    requires none { AreGathered vertices.old [] }
    ensures { (all : List Json) → AreThere doc.now.nodes bytes.now rows.now all
        → Gives (λ done rows. AreGathered vertices.new rows) result (vertex_rows how columns 0 all) }
{
    let mut seen = IndexSet::with_capacity_and_hasher(alloc, rows.len(), TextHash::of(bytes))?;
    add_rows(doc, bytes, how, columns, rows, values, vertices, &mut seen)
}

/// The corners of all rows. The list is room for the elements of a row.
pub fn read_vertices(
    alloc: Global,
    doc: &Doc,
    bytes: &[u8],
    how: How,
    columns: VertexColumns,
    rows: &[u32],
    values: &mut Vec<u32>,
) -> Result<Vertices, TinFault>
    requires columns { AreVertexColumns columns }
    requires few { length rows.now ≤ MOST_CORNERS }
    requires nodes { AreNodes doc.now.nodes bytes.now rows.now }
    ensures { (all : List Json) → AreThere doc.now.nodes bytes.now rows.now all
        → Gives AreGathered result (vertex_rows how columns 0 all) }
{
    let mut vertices = Vertices::with_room(alloc, rows.len())?;
    match gather_rows(alloc, doc, bytes, how, columns, rows, values, &mut vertices) {
        Ok(()) => Ok(vertices),
        Err(fault) => Err(fault),
    }
}
