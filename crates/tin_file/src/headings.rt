//! What comes before the rows.

ghost use Rattle.std.specs.Prelude.{◌≡◌, ◌<◌, List, length, IfOk};
ghost use Rattle.jtext.specs.Values.{Json, Members};
ghost use Rattle.jtext.specs.Places.{IsReadFrom, HasKind};
ghost use Rattle.std.specs.List.{list_all};
ghost use Rattle.tin_file.specs.Headings.{file_type_of, file_type, version_of, version, fallback, strategy_value};
ghost use Rattle.tin_file.specs.Headings.{strategy};
ghost use Rattle.tin_file.specs.Headings.{is_component, components_in, components, vertex_columns, triangle_columns};
ghost use Rattle.tin_file.specs.Headings.{both_columns, heading};
ghost use Rattle.tin_file.specs.RowContents.{AreVertexColumns, AreTriangleColumns, IsHeading};
ghost use Rattle.tin_file.specs.InsideNodes.{IsThere, AreThere, AreNodes, HasMembers, Equals};

use crate::columns::{
    TriangleColumns, VertexColumns, any_says, read_triangle_columns, read_vertex_columns,
};
use crate::elements::{find, find_list, holds_text, tells};
use crate::faults::{Nearest, TinFault, Top};
use jtext::{Doc, Kind, member};
use sheet_base::How;

/// The columns of both lists of rows.
#[derive(Clone, Copy)]
pub struct Heading {
    pub vertices: VertexColumns,
    pub triangles: TriangleColumns,
}

/// Refuses a value of `file_type` that is not the text `triangulation_file`.
fn check_file_type_value(doc: &Doc, bytes: &[u8], value: u32) -> Result<(), TinFault>
    requires read { IsReadFrom doc.now bytes.now }
    requires node { value < length doc.now.nodes }
    ensures { (is : Json) → IsThere doc.now.nodes bytes.now value is → result ≡ file_type_of is }
{
    if tells(doc, bytes, value, b"triangulation_file".as_slice()) {
        Ok(())
    } else {
        Err(TinFault::Key {
            which: Top::FileType,
        })
    }
}

/// `file_type` is `triangulation_file`.
pub fn check_file_type(doc: &Doc, bytes: &[u8]) -> Result<(), TinFault>
    requires read { IsReadFrom doc.now bytes.now }
    requires object { HasKind doc.now.nodes 0 Kind.Object }
    ensures { (members : Members) → HasMembers doc.now.nodes bytes.now members
        → Equals result (file_type members) }
{
    let value = find(doc, bytes, Top::FileType)?;
    check_file_type_value(doc, bytes, value)
}

/// Refuses a value of `format_version` that is neither of the two versions.
fn check_version_value(doc: &Doc, bytes: &[u8], value: u32) -> Result<(), TinFault>
    requires read { IsReadFrom doc.now bytes.now }
    requires node { value < length doc.now.nodes }
    ensures { (is : Json) → IsThere doc.now.nodes bytes.now value is → result ≡ version_of is }
{
    if tells(doc, bytes, value, b"1.0".as_slice()) {
        return Ok(());
    }
    if tells(doc, bytes, value, b"1.1".as_slice()) {
        return Ok(());
    }
    if holds_text(doc, value) {
        Err(TinFault::Version)
    } else {
        Err(TinFault::Key {
            which: Top::FormatVersion,
        })
    }
}

/// `format_version` is `1.0` or `1.1`.
pub fn check_version(doc: &Doc, bytes: &[u8]) -> Result<(), TinFault>
    requires read { IsReadFrom doc.now bytes.now }
    requires object { HasKind doc.now.nodes 0 Kind.Object }
    ensures { (members : Members) → HasMembers doc.now.nodes bytes.now members
        → Equals result (version members) }
{
    let value = find(doc, bytes, Top::FormatVersion)?;
    check_version_value(doc, bytes, value)
}

/// The fallback, which is accepted only where it is not to be applied.
fn accept_fallback(how: How, which: Nearest) -> Result<(), TinFault>
    ensures { result ≡ fallback how which }
{
    if how.inside_only {
        Ok(())
    } else {
        Err(TinFault::Fallback { which })
    }
}

/// The value of `fallback_strategy`.
fn check_strategy_value(doc: &Doc, bytes: &[u8], how: How, value: u32) -> Result<(), TinFault>
    requires read { IsReadFrom doc.now bytes.now }
    requires node { value < length doc.now.nodes }
    ensures { (is : Json) → IsThere doc.now.nodes bytes.now value is → result ≡ strategy_value how is }
{
    if tells(doc, bytes, value, b"none".as_slice()) {
        return Ok(());
    }
    if tells(doc, bytes, value, b"nearest_side".as_slice()) {
        return accept_fallback(how, Nearest::Side);
    }
    if tells(doc, bytes, value, b"nearest_centroid".as_slice()) {
        return accept_fallback(how, Nearest::Centroid);
    }
    Err(TinFault::Key {
        which: Top::Strategy,
    })
}

/// `fallback_strategy` is missing, or one of its three texts.
pub fn check_strategy(doc: &Doc, bytes: &[u8], how: How) -> Result<(), TinFault>
    requires read { IsReadFrom doc.now bytes.now }
    requires object { HasKind doc.now.nodes 0 Kind.Object }
    ensures { (members : Members) → HasMembers doc.now.nodes bytes.now members
        → result ≡ strategy how members }
{
    match member(doc, bytes, 0, Top::Strategy.key()) {
        Ok(None) => Ok(()),
        Ok(Some(value)) => check_strategy_value(doc, bytes, how, value),
        Err(_) => Err(TinFault::Key {
            which: Top::Strategy,
        }),
    }
}

/// Whether the value is one of the two components.
fn tells_component(doc: &Doc, bytes: &[u8], value: u32) -> bool
    requires read { IsReadFrom doc.now bytes.now }
    requires node { value < length doc.now.nodes }
    ensures { (is : Json) → IsThere doc.now.nodes bytes.now value is → result ≡ is_component is }
{
    if tells(doc, bytes, value, b"horizontal".as_slice()) {
        return true;
    }
    tells(doc, bytes, value, b"vertical".as_slice())
}

/// Whether each value is one of the two components.
pub fn are_components(doc: &Doc, bytes: &[u8], values: &[u32]) -> bool
    requires read { IsReadFrom doc.now bytes.now }
    requires nodes { AreNodes doc.now.nodes bytes.now values.now }
    ensures { (all : List Json) → AreThere doc.now.nodes bytes.now values.now all
        → result ≡ list_all is_component all }
{
    for value in values {
        if !tells_component(doc, bytes, *value) {
            return false;
        }
    }
    true
}

/// The elements of `transformed_components`.
fn check_components_in(doc: &Doc, bytes: &[u8], values: &[u32]) -> Result<(), TinFault>
    requires read { IsReadFrom doc.now bytes.now }
    requires nodes { AreNodes doc.now.nodes bytes.now values.now }
    ensures { (all : List Json) → AreThere doc.now.nodes bytes.now values.now all
        → result ≡ components_in all }
{
    if !are_components(doc, bytes, values) {
        return Err(TinFault::Key {
            which: Top::Components,
        });
    }
    if any_says(doc, bytes, values, b"horizontal".as_slice()) {
        Ok(())
    } else {
        Err(TinFault::NoHorizontal)
    }
}

/// `transformed_components` are horizontal and vertical, and horizontal is among them.
fn check_components(doc: &Doc, bytes: &[u8], values: &mut Vec<u32>) -> Result<(), TinFault>
    requires read { IsReadFrom doc.now bytes.now }
    requires object { HasKind doc.now.nodes 0 Kind.Object }
    ensures { (members : Members) → HasMembers doc.now.nodes bytes.now members
        → Equals result (components members) }
{
    find_list(doc, bytes, Top::Components, values)?;
    check_components_in(doc, bytes, values)
}

/// The columns of vertex rows.
fn find_vertex_columns(
    doc: &Doc,
    bytes: &[u8],
    values: &mut Vec<u32>,
) -> Result<VertexColumns, TinFault>
    requires read { IsReadFrom doc.now bytes.now }
    requires object { HasKind doc.now.nodes 0 Kind.Object }
    ensures columns { (members : Members) → HasMembers doc.now.nodes bytes.now members
        → Equals result (vertex_columns members) }
    ensures inside { IfOk result AreVertexColumns }
{
    find_list(doc, bytes, Top::VerticesColumns, values)?;
    read_vertex_columns(doc, bytes, values)
}

/// The columns of triangle rows.
pub fn find_triangle_columns(
    doc: &Doc,
    bytes: &[u8],
    values: &mut Vec<u32>,
) -> Result<TriangleColumns, TinFault>
    requires read { IsReadFrom doc.now bytes.now }
    requires object { HasKind doc.now.nodes 0 Kind.Object }
    ensures columns { (members : Members) → HasMembers doc.now.nodes bytes.now members
        → Equals result (triangle_columns members) }
    ensures inside { IfOk result AreTriangleColumns }
{
    find_list(doc, bytes, Top::TrianglesColumns, values)?;
    read_triangle_columns(doc, bytes, values)
}

/// The columns of both lists of rows, each list in turn.
fn find_columns(doc: &Doc, bytes: &[u8], values: &mut Vec<u32>) -> Result<Heading, TinFault>
    requires read { IsReadFrom doc.now bytes.now }
    requires object { HasKind doc.now.nodes 0 Kind.Object }
    ensures columns { (members : Members) → HasMembers doc.now.nodes bytes.now members
        → Equals result (both_columns members) }
    ensures inside { IfOk result IsHeading }
{
    let vertices = find_vertex_columns(doc, bytes, values)?;
    let triangles = find_triangle_columns(doc, bytes, values)?;
    Ok(Heading {
        vertices,
        triangles,
    })
}

/// The columns, or the first fault before the rows. The list is room for the elements of arrays.
pub fn read_heading(
    doc: &Doc,
    bytes: &[u8],
    how: How,
    values: &mut Vec<u32>,
) -> Result<Heading, TinFault>
    requires read { IsReadFrom doc.now bytes.now }
    requires object { HasKind doc.now.nodes 0 Kind.Object }
    ensures heading { (members : Members) → HasMembers doc.now.nodes bytes.now members
        → Equals result (heading how members) }
    ensures inside { IfOk result IsHeading }
{
    check_file_type(doc, bytes)?;
    check_version(doc, bytes)?;
    check_strategy(doc, bytes, how)?;
    check_components(doc, bytes, values)?;
    find_columns(doc, bytes, values)
}
