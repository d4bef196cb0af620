//! Positions, in whole millimetres.

ghost use Rattle.std.specs.Prelude.{◌≡◌, ℕ, ◌+◌, ◌-◌, ◌*◌, ◌<◌, ◌≤◌, ◌^◌, List, length, slice_get, Some, OnOk, IfOk};
ghost use Rattle.std.specs.Prelude.{if◌then◌else◌};
ghost use Rattle.jtext.specs.Values.{Json, Elements};
ghost use Rattle.jtext.specs.Nodes.{inner_place};
ghost use Rattle.jtext.specs.Places.{IsReadFrom, HasNodesAt, HasKind};
ghost use Rattle.jtext.specs.declared.document.Node.{Node};
ghost use Rattle.gj_layer.specs.Positions.{accepted_read, number, some_height, position_from, position, positions, point_of};
ghost use Rattle.gj_layer.specs.Positions.{height_of, lost_height, lost_of};
ghost use Rattle.gj_layer.specs.InsideNodes.{Gives, IsRun};

use crate::nodes::{is_kind, node_at, shape_at, text_of};
use jtext::{Doc, Kind, Node};
use mm_decimal::{MmRead, NumFault, loss, read_mm};
use plane_base::Pt;
use sheet_base::{Heights, LayerFault};

/// Two numbers and a height, where there is one, and where the position that they make begins and
/// ends, in bytes from 0.
#[derive(Clone, Copy)]
pub struct PositionRead {
    pub x: MmRead,
    pub y: MmRead,
    pub z: Option<MmRead>,
    pub start: u32,
    pub end: u32,
}

/// What positions that follow each other are: where the first begins and the last ends, and how
/// many of their numbers lost digits.
#[derive(Clone, Copy)]
pub struct PositionRun {
    pub start: u32,
    pub end: u32,
    pub lost: u64,
}

/// What is read of a number text, where it is accepted.
fn accept(exact: bool, start: u32, answer: Result<MmRead, NumFault>) -> Result<MmRead, LayerFault>
    ensures { result ≡ accepted_read exact start answer }
{
    match answer {
        Ok(read) => {
            if exact && !read.exact {
                Err(LayerFault::Inexact {
                    at: u64::from(start),
                })
            } else {
                Ok(read)
            }
        }
        Err(fault) => Err(LayerFault::Number {
            at: u64::from(start),
            fault,
        }),
    }
}

/// The number that the value is.
fn read_number(doc: &Doc, bytes: &[u8], value: u32, exact: bool) -> Result<MmRead, LayerFault>
    requires read { IsReadFrom doc.now bytes.now }
    requires node { value < length doc.now.nodes }
    ensures { (start : ℕ) (is : Json) → HasNodesAt doc.now.nodes bytes.now value start is
        → result ≡ number exact start is }
{
    let node = node_at(doc, value);
    if is_kind(node, Kind::Number) {
        accept(exact, node.start, read_mm(text_of(bytes, node)))
    } else {
        Err(shape_at(node))
    }
}

/// A number that is read as a height.
fn as_height(read: Result<MmRead, LayerFault>) -> Result<Option<MmRead>, LayerFault>
    ensures { result ≡ some_height read }
{
    match read {
        Ok(z) => Ok(Some(z)),
        Err(fault) => Err(fault),
    }
}

/// The position of two numbers and a height, or the first fault of them.
fn combine(
    node: Node,
    x: Result<MmRead, LayerFault>,
    y: Result<MmRead, LayerFault>,
    z: Result<Option<MmRead>, LayerFault>,
) -> Result<PositionRead, LayerFault>
    ensures { result ≡ position_from node.start node.end x y z }
{
    match (x, y, z) {
        (Ok(x), Ok(y), Ok(z)) => Ok(PositionRead {
            x,
            y,
            z,
            start: node.start,
            end: node.end,
        }),
        (Err(fault), _, _) => Err(fault),
        (Ok(_), Err(fault), _) => Err(fault),
        (Ok(_), Ok(_), Err(fault)) => Err(fault),
    }
}

/// The position that an array is.
fn read_array(doc: &Doc, bytes: &[u8], value: u32, exact: bool) -> Result<PositionRead, LayerFault>
    requires read { IsReadFrom doc.now bytes.now }
    requires kind { HasKind doc.now.nodes value Kind.Array }
    ensures { (start : ℕ) (blank : List ℕ) (elements : Elements)
        → HasNodesAt doc.now.nodes bytes.now value start (Json.array blank elements)
        → result ≡ position exact start (Json.array blank elements) }
{
    let array = node_at(doc, value);
    let first = value + 1;
    if first >= array.next {
        return Err(shape_at(array));
    }
    let second = node_at(doc, first).next;
    if second >= array.next {
        return Err(shape_at(array));
    }
    let x = read_number(doc, bytes, first, exact);
    let y = read_number(doc, bytes, second, exact);
    let third = node_at(doc, second).next;
    if third >= array.next {
        return combine(array, x, y, Ok(None));
    }
    let fourth = node_at(doc, third).next;
    if fourth < array.next {
        return Err(LayerFault::Height {
            at: u64::from(node_at(doc, fourth).start),
        });
    }
    let z = as_height(read_number(doc, bytes, third, exact));
    combine(array, x, y, z)
}

/// The position that the value is.
pub fn read_position(
    doc: &Doc,
    bytes: &[u8],
    value: u32,
    exact: bool,
) -> Result<PositionRead, LayerFault>
    requires read { IsReadFrom doc.now bytes.now }
    requires node { value < length doc.now.nodes }
    ensures { (start : ℕ) (is : Json) → HasNodesAt doc.now.nodes bytes.now value start is
        → result ≡ position exact start is }
{
    let node = node_at(doc, value);
    if is_kind(node, Kind::Array) {
        read_array(doc, bytes, value, exact)
    } else {
        Err(shape_at(node))
    }
}

/// The position's point.
pub fn point_of(position: PositionRead) -> Pt
    ensures { result ≡ point_of position }
{
    Pt {
        x: position.x.mm,
        y: position.y.mm,
    }
}

/// The position's height, in millimetres, where it has one.
pub fn height_of(position: PositionRead) -> Option<i64>
    ensures { result ≡ height_of position }
{
    match position.z {
        Some(z) => Some(z.mm),
        None => None,
    }
}

/// 1 where there is a height that lost digits.
fn lost_height(z: Option<MmRead>) -> u64
    ensures value { result ≡ lost_height z }
    ensures few { result ≤ 1 }
{
    match z {
        Some(z) => loss(z),
        None => 0,
    }
}

/// How many of the position's numbers lost digits.
pub fn lost_of(position: PositionRead) -> u64
    ensures value { result ≡ lost_of position }
    ensures few { result ≤ 3 }
{
    loss(position.x) + loss(position.y) + lost_height(position.z)
}

/// Positions and one more.
fn longer(run: PositionRun, is_first: bool, position: PositionRead) -> PositionRun
    requires { run.lost < 2 ^ 34 }
    ensures start { result.start ≡ (if is_first then position.start else run.start) }
    ensures end { result.end ≡ position.end }
    ensures lost { result.lost ≡ run.lost + lost_of position }
    ensures few { result.lost ≤ run.lost + 3 }
{
    PositionRun {
        start: if is_first { position.start } else { run.start },
        end: position.end,
        lost: run.lost + lost_of(position),
    }
}

/// Appends the points and heights of the positions that are the elements of an array.
pub fn read_positions(
    points: &mut Vec<Pt>,
    heights: &mut Heights,
    doc: &Doc,
    bytes: &[u8],
    array: u32,
    exact: bool,
) -> Result<PositionRun, LayerFault>
    requires read { IsReadFrom doc.now bytes.now }
    requires kind { HasKind doc.now.nodes array Kind.Array }
    requires room { (node : Node) → slice_get doc.now.nodes array ≡ Some node
        → length heights.old + (node.next - array) < 2 ^ 32 }
    ensures run { (start : ℕ) (blank : List ℕ) (elements : Elements)
        → HasNodesAt doc.now.nodes bytes.now array start (Json.array blank elements)
        → Gives (IsRun points.old.items points.new.items heights.old heights.new) result
        (positions exact (inner_place start blank) elements) }
    ensures more { OnOk result (length points.old.items ≤ length points.new.items) }
    ensures points { OnOk result ((node : Node) → slice_get doc.now.nodes array ≡ Some node
        → length points.new.items + array < length points.old.items + node.next) }
    ensures heights { OnOk result ((node : Node) → slice_get doc.now.nodes array ≡ Some node
        → length heights.new + array < length heights.old + node.next) }
    ensures lost { IfOk result (λ run. (node : Node) → slice_get doc.now.nodes array ≡ Some node
        → run.lost + 3 * array < 3 * node.next) }
{
    let end = node_at(doc, array).next;
    let mut at = array + 1;
    let mut run = PositionRun {
        start: 0,
        end: 0,
        lost: 0,
    };
    while at < end {
        let position = read_position(doc, bytes, at, exact)?;
        points.push(point_of(position))?;
        heights.push(height_of(position))?;
        run = longer(run, at == array + 1, position);
        at = node_at(doc, at).next;
    }
    Ok(run)
}
