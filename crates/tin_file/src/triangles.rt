//! Triangle rows.

ghost use Rattle.std.specs.Prelude.{◌≡◌, ◌≤◌, ℕ, List, Option, length, map};
ghost use Rattle.jtext.specs.Values.{Json};
ghost use Rattle.tin_base.specs.declared.limits.TheConstants.{MOST_CORNERS, MOST_TRIANGLES};
ghost use Rattle.tin_file.specs.Triangles.{whole_number, row_number, triangle_from, triangle_in};
ghost use Rattle.tin_file.specs.Triangles.{triangle_of, triangle_rows};
ghost use Rattle.tin_file.specs.InsideNodes.{IsThere, AreThere, IsNode, AreNodes, Gives};
ghost use Rattle.tin_file.specs.RowContents.{AreTriangleColumns, at_most, face_corners, placed_or_fault};

use crate::columns::TriangleColumns;
use crate::elements::{holds_array, holds_number, list_elements, text_at};
use crate::faults::{Rows, TinFault};
use jtext::Doc;
use std::alloc::Global;
use tin_base::MOST_CORNERS;

/// The number that a text of digits alone writes, and `MOST_CORNERS` for all that are greater.
fn read_digits(text: &[u8]) -> Option<usize>
    ensures { result ≡ at_most (whole_number text.now) }
{
    let mut number = 0;
    for byte in text {
        if !byte.is_ascii_digit() {
            return None;
        }
        number = (number * 10 + usize::from(*byte - b'0')).min(MOST_CORNERS);
    }
    Some(number)
}

/// The number of a vertex row, and `MOST_CORNERS` for all that are greater.
fn read_row_number(doc: &Doc, bytes: &[u8], value: u32) -> Option<usize>
    requires { IsNode doc.now.nodes bytes.now value }
    ensures { (is : Json) → IsThere doc.now.nodes bytes.now value is
        → result ≡ at_most (row_number is) }
{
    if holds_number(doc, value) {
        read_digits(text_at(doc, bytes, value))
    } else {
        None
    }
}

/// The corners of a triangle of these vertex rows.
fn place(
    numbers: &[u32],
    triangle: u32,
    first: Option<usize>,
    second: Option<usize>,
    third: Option<usize>,
) -> Result<[u32; 3], TinFault>
    requires few { length numbers.now ≤ MOST_CORNERS }
    ensures { (a b c : Option ℕ) → first ≡ at_most a → second ≡ at_most b → third ≡ at_most c
        → result ≡ placed_or_fault numbers.now (triangle_from (length numbers.now) triangle a b c) }
{
    match (first, second, third) {
        (Some(first), Some(second), Some(third)) => {
            if first < numbers.len() && second < numbers.len() && third < numbers.len() {
                Ok([numbers[first], numbers[second], numbers[third]])
            } else {
                Err(TinFault::Index { triangle })
            }
        }
        _ => Err(TinFault::Row {
            list: Rows::Triangles,
            row: triangle,
        }),
    }
}

/// The corners of a row with these elements.
fn read_corner_numbers(
    doc: &Doc,
    bytes: &[u8],
    columns: TriangleColumns,
    numbers: &[u32],
    triangle: u32,
    values: &[u32],
) -> Result<[u32; 3], TinFault>
    requires columns { AreTriangleColumns columns }
    requires few { length numbers.now ≤ MOST_CORNERS }
    requires nodes { AreNodes doc.now.nodes bytes.now values.now }
    ensures { (all : List Json) → AreThere doc.now.nodes bytes.now values.now all
        → result ≡ placed_or_fault numbers.now (triangle_in columns (length numbers.now) triangle all) }
{
    if values.len() != columns.count {
        return Err(TinFault::Row {
            list: Rows::Triangles,
            row: triangle,
        });
    }
    let first = read_row_number(doc, bytes, values[columns.first]);
    let second = read_row_number(doc, bytes, values[columns.second]);
    let third = read_row_number(doc, bytes, values[columns.third]);
    place(numbers, triangle, first, second, third)
}

/// The corners of a row. The list is room for the row's elements.
fn read_triangle(
    doc: &Doc,
    bytes: &[u8],
    columns: TriangleColumns,
    numbers: &[u32],
    triangle: u32,
    value: u32,
    values: &mut Vec<u32>,
) -> Result<[u32; 3], TinFault>
    requires columns { AreTriangleColumns columns }
    requires few { length numbers.now ≤ MOST_CORNERS }
    requires node { IsNode doc.now.nodes bytes.now value }
    ensures { (is : Json) → IsThere doc.now.nodes bytes.now value is
        → Gives (λ one face. one ≡ face_corners numbers.now face) result (triangle_of columns (length numbers.now) triangle is) }
{
    if !holds_array(doc, value) {
        return Err(TinFault::Row {
            list: Rows::Triangles,
            row: triangle,
        });
    }
    list_elements(doc, value, values)?;
    read_corner_numbers(doc, bytes, columns, numbers, triangle, values)
}

/// The triangles of all rows, by the corners of the vertex rows. The list is room for the elements
/// of a row.
pub fn read_triangles(
    alloc: Global,
    doc: &Doc,
    bytes: &[u8],
    columns: TriangleColumns,
    numbers: &[u32],
    rows: &[u32],
    values: &mut Vec<u32>,
) -> Result<Vec<[u32; 3]>, TinFault>
    requires columns { AreTriangleColumns columns }
    requires few { length numbers.now ≤ MOST_CORNERS }
    requires rows { length rows.now ≤ MOST_TRIANGLES }
    requires nodes { AreNodes doc.now.nodes bytes.now rows.now }
    ensures { (all : List Json) → AreThere doc.now.nodes bytes.now rows.now all
        → Gives (λ made faces. made.items ≡ map (face_corners numbers.now) faces) result
        (triangle_rows columns (length numbers.now) 0 all) }
{
    let mut triangles = Vec::with_capacity(alloc, rows.len())?;
    for (triangle, value) in rows.iter().enumerate() {
        let corners = read_triangle(
            doc,
            bytes,
            columns,
            numbers,
            triangle as u32,
            *value,
            values,
        )?;
        triangles.push(corners)?;
    }
    Ok(triangles)
}
