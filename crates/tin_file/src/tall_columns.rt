//! Columns of vertex rows with a vertical component, by their names.

ghost use Rattle.std.specs.Prelude.{◌≡◌, List, IfOk};
ghost use Rattle.jtext.specs.Values.{Json};
ghost use Rattle.jtext.specs.Places.{IsReadFrom};
ghost use Rattle.tin_file.specs.TallHeadings.{target_columns_at, target_columns_in, offset_columns_at, offset_columns_in};
ghost use Rattle.tin_file.specs.TallHeadings.{tall_columns_at, tall_columns_in};
ghost use Rattle.tin_file.specs.InsideNodes.{AreThere, AreNodes};
ghost use Rattle.tin_file.specs.InsideTallRows.{AreTallColumns};

use crate::columns::{any_says, are_texts, find_place};
use crate::faults::{TinFault, Top};
use jtext::Doc;

/// The columns of the target: two of their own, or those of the source where the file moves nothing in the plane.
#[derive(Clone, Copy)]
pub enum TargetColumns {
    Own { x: usize, y: usize },
    OfSource,
}

/// The column of the offset, or those of the heights whose difference it is.
#[derive(Clone, Copy)]
pub enum OffsetColumns {
    Offset { z: usize },
    Heights { source_z: usize, target_z: usize },
}

/// How many columns vertex rows have, and the places of those that are read, from 0.
#[derive(Clone, Copy)]
pub struct TallColumns {
    pub count: usize,
    pub source_x: usize,
    pub source_y: usize,
    pub target: TargetColumns,
    pub offset: OffsetColumns,
}

/// The columns of the target, where those that are wanted are there.
fn place_target(
    is_horizontal: bool,
    target_x: Option<usize>,
    target_y: Option<usize>,
) -> Option<TargetColumns>
    ensures { result ≡ target_columns_at is_horizontal target_x target_y }
{
    if !is_horizontal {
        return Some(TargetColumns::OfSource);
    }
    match (target_x, target_y) {
        (Some(x), Some(y)) => Some(TargetColumns::Own { x, y }),
        _ => None,
    }
}

/// The column of the offset where it is named, else those of both heights.
fn place_offset(
    is_named: bool,
    offset_z: Option<usize>,
    source_z: Option<usize>,
    target_z: Option<usize>,
) -> Option<OffsetColumns>
    ensures { result ≡ offset_columns_at is_named offset_z source_z target_z }
{
    if is_named {
        return match offset_z {
            Some(z) => Some(OffsetColumns::Offset { z }),
            None => None,
        };
    }
    match (source_z, target_z) {
        (Some(source_z), Some(target_z)) => Some(OffsetColumns::Heights { source_z, target_z }),
        _ => None,
    }
}

fn place_tall_columns(
    count: usize,
    source_x: Option<usize>,
    source_y: Option<usize>,
    target: Option<TargetColumns>,
    offset: Option<OffsetColumns>,
) -> Result<TallColumns, TinFault>
    ensures { result ≡ tall_columns_at count source_x source_y target offset }
{
    match (source_x, source_y, target, offset) {
        (Some(source_x), Some(source_y), Some(target), Some(offset)) => Ok(TallColumns {
            count,
            source_x,
            source_y,
            target,
            offset,
        }),
        _ => Err(TinFault::Key {
            which: Top::VerticesColumns,
        }),
    }
}

/// The columns of the target, by their names.
fn find_target(
    doc: &Doc,
    bytes: &[u8],
    is_horizontal: bool,
    values: &[u32],
) -> Option<TargetColumns>
    requires read { IsReadFrom doc.now bytes.now }
    requires nodes { AreNodes doc.now.nodes bytes.now values.now }
    ensures { (all : List Json) → AreThere doc.now.nodes bytes.now values.now all
        → result ≡ target_columns_in is_horizontal all }
{
    let target_x = find_place(doc, bytes, values, b"target_x".as_slice());
    let target_y = find_place(doc, bytes, values, b"target_y".as_slice());
    place_target(is_horizontal, target_x, target_y)
}

/// The column of the offset, or those of the heights, by their names.
fn find_offset(doc: &Doc, bytes: &[u8], values: &[u32]) -> Option<OffsetColumns>
    requires read { IsReadFrom doc.now bytes.now }
    requires nodes { AreNodes doc.now.nodes bytes.now values.now }
    ensures { (all : List Json) → AreThere doc.now.nodes bytes.now values.now all
        → result ≡ offset_columns_in all }
{
    let is_named = any_says(doc, bytes, values, b"offset_z".as_slice());
    let offset_z = find_place(doc, bytes, values, b"offset_z".as_slice());
    let source_z = find_place(doc, bytes, values, b"source_z".as_slice());
    let target_z = find_place(doc, bytes, values, b"target_z".as_slice());
    place_offset(is_named, offset_z, source_z, target_z)
}

/// The columns of vertex rows: each name that is wanted is there once.
pub fn read_tall_columns(
    doc: &Doc,
    bytes: &[u8],
    is_horizontal: bool,
    values: &[u32],
) -> Result<TallColumns, TinFault>
    requires read { IsReadFrom doc.now bytes.now }
    requires nodes { AreNodes doc.now.nodes bytes.now values.now }
    ensures columns { (all : List Json) → AreThere doc.now.nodes bytes.now values.now all
        → result ≡ tall_columns_in is_horizontal all }
    ensures inside { IfOk result AreTallColumns }
{
    if !are_texts(doc, bytes, values) {
        return Err(TinFault::Key {
            which: Top::VerticesColumns,
        });
    }
    let source_x = find_place(doc, bytes, values, b"source_x".as_slice());
    let source_y = find_place(doc, bytes, values, b"source_y".as_slice());
    let target = find_target(doc, bytes, is_horizontal, values);
    let offset = find_offset(doc, bytes, values);
    place_tall_columns(values.len(), source_x, source_y, target, offset)
}
