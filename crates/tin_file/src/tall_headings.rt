//! The members before the rows of a file with a vertical component.

ghost use Rattle.std.specs.Prelude.{◌≡◌, List, IfOk};
ghost use Rattle.jtext.specs.Values.{Json, Members};
ghost use Rattle.jtext.specs.Places.{IsReadFrom, HasKind};
ghost use Rattle.tin_file.specs.TallHeadings.{tall_components_in, tall_components, tall_columns, all_columns, tall_heading};
ghost use Rattle.tin_file.specs.InsideNodes.{AreThere, AreNodes, HasMembers, Equals};
ghost use Rattle.tin_file.specs.InsideTallRows.{AreTallColumns, IsTallHeading};

use crate::columns::{TriangleColumns, any_says};
use crate::elements::find_list;
use crate::faults::{TinFault, Top};
use crate::headings::{
    are_components, check_file_type, check_strategy, check_version, find_triangle_columns,
};
use crate::tall_columns::{TallColumns, read_tall_columns};
use jtext::{Doc, Kind};
use sheet_base::How;

/// The columns of both lists of rows.
#[derive(Clone, Copy)]
pub struct TallHeading {
    pub vertices: TallColumns,
    pub triangles: TriangleColumns,
}

/// Whether horizontal coordinates are transformed too, by the elements of `transformed_components`.
fn read_components_in(doc: &Doc, bytes: &[u8], values: &[u32]) -> Result<bool, TinFault>
    requires read { IsReadFrom doc.now bytes.now }
    requires nodes { AreNodes doc.now.nodes bytes.now values.now }
    ensures { (all : List Json) → AreThere doc.now.nodes bytes.now values.now all
        → result ≡ tall_components_in all }
{
    if !are_components(doc, bytes, values) {
        return Err(TinFault::Key {
            which: Top::Components,
        });
    }
    if !any_says(doc, bytes, values, b"vertical".as_slice()) {
        return Err(TinFault::NoVertical);
    }
    Ok(any_says(doc, bytes, values, b"horizontal".as_slice()))
}

/// `transformed_components` are horizontal and vertical, and vertical is among them. Answers whether horizontal is.
fn read_components(doc: &Doc, bytes: &[u8], values: &mut Vec<u32>) -> Result<bool, TinFault>
    requires read { IsReadFrom doc.now bytes.now }
    requires object { HasKind doc.now.nodes 0 Kind.Object }
    ensures { (members : Members) → HasMembers doc.now.nodes bytes.now members
        → Equals result (tall_components members) }
{
    find_list(doc, bytes, Top::Components, values)?;
    read_components_in(doc, bytes, values)
}

/// The columns of vertex rows.
fn find_tall_columns(
    doc: &Doc,
    bytes: &[u8],
    is_horizontal: bool,
    values: &mut Vec<u32>,
) -> Result<TallColumns, TinFault>
    requires read { IsReadFrom doc.now bytes.now }
    requires object { HasKind doc.now.nodes 0 Kind.Object }
    ensures columns { (members : Members) → HasMembers doc.now.nodes bytes.now members
        → Equals result (tall_columns is_horizontal members) }
    ensures inside { IfOk result AreTallColumns }
{
    find_list(doc, bytes, Top::VerticesColumns, values)?;
    read_tall_columns(doc, bytes, is_horizontal, values)
}

/// The columns of both lists of rows, each list in turn.
fn find_all_columns(
    doc: &Doc,
    bytes: &[u8],
    is_horizontal: bool,
    values: &mut Vec<u32>,
) -> Result<TallHeading, TinFault>
    requires read { IsReadFrom doc.now bytes.now }
    requires object { HasKind doc.now.nodes 0 Kind.Object }
    ensures columns { (members : Members) → HasMembers doc.now.nodes bytes.now members
        → Equals result (all_columns members is_horizontal) }
    ensures inside { IfOk result IsTallHeading }
{
    let vertices = find_tall_columns(doc, bytes, is_horizontal, values)?;
    let triangles = find_triangle_columns(doc, bytes, values)?;
    Ok(TallHeading {
        vertices,
        triangles,
    })
}

/// The columns, or the first fault before the rows. The list is room for the elements of arrays.
pub fn read_tall_heading(
    doc: &Doc,
    bytes: &[u8],
    how: How,
    values: &mut Vec<u32>,
) -> Result<TallHeading, TinFault>
    requires read { IsReadFrom doc.now bytes.now }
    requires object { HasKind doc.now.nodes 0 Kind.Object }
    ensures heading { (members : Members) → HasMembers doc.now.nodes bytes.now members
        → Equals result (tall_heading how members) }
    ensures inside { IfOk result IsTallHeading }
{
    check_file_type(doc, bytes)?;
    check_version(doc, bytes)?;
    check_strategy(doc, bytes, how)?;
    let is_horizontal = read_components(doc, bytes, values)?;
    find_all_columns(doc, bytes, is_horizontal, values)
}
