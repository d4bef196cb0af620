//! Columns of the rows, by their names.

ghost use Rattle.std.specs.Prelude.{◌≡◌, ◌<◌, List, IfOk};
ghost use Rattle.jtext.specs.Values.{Json};
ghost use Rattle.jtext.specs.Places.{IsReadFrom};
ghost use Rattle.jtext.specs.Lookups.{IsAscii};
ghost use Rattle.std.specs.List.{list_all, list_any};
ghost use Rattle.tin_file.specs.Keys.{says, is_text};
ghost use Rattle.tin_file.specs.Headings.{place_of};
ghost use Rattle.tin_file.specs.Headings.{vertex_columns_at, vertex_columns_in};
ghost use Rattle.tin_file.specs.Headings.{triangle_columns_at, triangle_columns_in};
ghost use Rattle.tin_file.specs.InsideNodes.{AreThere, AreNodes};
ghost use Rattle.tin_file.specs.RowContents.{AreVertexColumns, AreTriangleColumns};

use crate::elements::{holds_text, tells};
use crate::faults::{TinFault, Top};
use jtext::Doc;

/// How many columns vertex rows have, and the places of the four that are read, from 0.
#[derive(Clone, Copy)]
pub struct VertexColumns {
    pub count: usize,
    pub source_x: usize,
    pub source_y: usize,
    pub target_x: usize,
    pub target_y: usize,
}

/// How many columns triangle rows have, and the places of the three that are read, from 0.
#[derive(Clone, Copy)]
pub struct TriangleColumns {
    pub count: usize,
    pub first: usize,
    pub second: usize,
    pub third: usize,
}

/// Whether all values are texts.
pub fn are_texts(doc: &Doc, bytes: &[u8], values: &[u32]) -> bool
    requires { AreNodes doc.now.nodes bytes.now values.now }
    ensures { (all : List Json) → AreThere doc.now.nodes bytes.now values.now all
        → result ≡ list_all is_text all }
{
    for value in values {
        if !holds_text(doc, *value) {
            return false;
        }
    }
    true
}

/// Whether one of the values is this text.
pub fn any_says(doc: &Doc, bytes: &[u8], values: &[u32], text: &[u8]) -> bool
    requires read { IsReadFrom doc.now bytes.now }
    requires nodes { AreNodes doc.now.nodes bytes.now values.now }
    requires ascii { IsAscii text.now }
    ensures { (all : List Json) → AreThere doc.now.nodes bytes.now values.now all
        → result ≡ list_any (λ value. says value text.now) all }
{
    for value in values {
        if tells(doc, bytes, *value, text) {
            return true;
        }
    }
    false
}

/// The place of the one value that says this, where there is one and no other.
pub fn find_place(doc: &Doc, bytes: &[u8], values: &[u32], name: &[u8]) -> Option<usize>
    requires read { IsReadFrom doc.now bytes.now }
    requires nodes { AreNodes doc.now.nodes bytes.now values.now }
    requires ascii { IsAscii name.now }
    ensures { (all : List Json) → AreThere doc.now.nodes bytes.now values.now all
        → result ≡ place_of name.now all }
{
    let mut found = None;
    for (place, value) in values.iter().enumerate() {
        if tells(doc, bytes, *value, name) {
            if let Some(_) = found {
                return None;
            }
            found = Some(place);
        }
    }
    found
}

fn place_vertex_columns(
    count: usize,
    source_x: Option<usize>,
    source_y: Option<usize>,
    target_x: Option<usize>,
    target_y: Option<usize>,
) -> Result<VertexColumns, TinFault>
    ensures { result ≡ vertex_columns_at count source_x source_y target_x target_y }
{
    match (source_x, source_y, target_x, target_y) {
        (Some(source_x), Some(source_y), Some(target_x), Some(target_y)) => Ok(VertexColumns {
            count,
            source_x,
            source_y,
            target_x,
            target_y,
        }),
        _ => Err(TinFault::Key {
            which: Top::VerticesColumns,
        }),
    }
}

fn place_triangle_columns(
    count: usize,
    first: Option<usize>,
    second: Option<usize>,
    third: Option<usize>,
) -> Result<TriangleColumns, TinFault>
    ensures { result ≡ triangle_columns_at count first second third }
{
    match (first, second, third) {
        (Some(first), Some(second), Some(third)) => Ok(TriangleColumns {
            count,
            first,
            second,
            third,
        }),
        _ => Err(TinFault::Key {
            which: Top::TrianglesColumns,
        }),
    }
}

/// The columns of vertex rows: each name is there once.
pub fn read_vertex_columns(
    doc: &Doc,
    bytes: &[u8],
    values: &[u32],
) -> Result<VertexColumns, TinFault>
    requires read { IsReadFrom doc.now bytes.now }
    requires nodes { AreNodes doc.now.nodes bytes.now values.now }
    ensures columns { (all : List Json) → AreThere doc.now.nodes bytes.now values.now all
        → result ≡ vertex_columns_in all }
    ensures inside { IfOk result AreVertexColumns }
{
    if !are_texts(doc, bytes, values) {
        return Err(TinFault::Key {
            which: Top::VerticesColumns,
        });
    }
    let source_x = find_place(doc, bytes, values, b"source_x".as_slice());
    let source_y = find_place(doc, bytes, values, b"source_y".as_slice());
    let target_x = find_place(doc, bytes, values, b"target_x".as_slice());
    let target_y = find_place(doc, bytes, values, b"target_y".as_slice());
    place_vertex_columns(values.len(), source_x, source_y, target_x, target_y)
}

/// The columns of triangle rows: each name is there once.
pub fn read_triangle_columns(
    doc: &Doc,
    bytes: &[u8],
    values: &[u32],
) -> Result<TriangleColumns, TinFault>
    requires read { IsReadFrom doc.now bytes.now }
    requires nodes { AreNodes doc.now.nodes bytes.now values.now }
    ensures columns { (all : List Json) → AreThere doc.now.nodes bytes.now values.now all
        → result ≡ triangle_columns_in all }
    ensures inside { IfOk result AreTriangleColumns }
{
    if !are_texts(doc, bytes, values) {
        return Err(TinFault::Key {
            which: Top::TrianglesColumns,
        });
    }
    let first = find_place(doc, bytes, values, b"idx_vertex1".as_slice());
    let second = find_place(doc, bytes, values, b"idx_vertex2".as_slice());
    let third = find_place(doc, bytes, values, b"idx_vertex3".as_slice());
    place_triangle_columns(values.len(), first, second, third)
}
