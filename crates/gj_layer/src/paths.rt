//! Coordinates that are one path at most.

ghost use Rattle.std.specs.Prelude.{◌≡◌, ℕ, ◌-◌, ◌<◌, ◌≤◌, ◌&&◌, [], ◌∷◌, ◌++◌, List, drop, length, slice_get, Some};
ghost use Rattle.std.specs.Prelude.{OnOk};
ghost use Rattle.jtext.specs.Values.{Json};
ghost use Rattle.jtext.specs.Places.{IsReadFrom, HasNodesAt, HasKind};
ghost use Rattle.jtext.specs.declared.document.Node.{Node};
ghost use Rattle.plane_base.specs.declared.shapes.Pt.{Pt};
ghost use Rattle.sheet_base.specs.PointHeights.{height_in};
ghost use Rattle.sheet_base.specs.Rings.{is_same_height, is_closed};
ghost use Rattle.sheet_base.specs.Faults.{and_then};
ghost use Rattle.gj_layer.specs.Paths.{Part, paths_of_trace, part_of};
ghost use Rattle.gj_layer.specs.InsideNodes.{Holds, Joins, HasRoom, Grows};

use crate::forms::Trace;
use crate::nodes::{is_kind, node_at, shape_at};
use crate::pass::PathsRead;
use crate::positions::{PositionRun, height_of, lost_of, point_of, read_position, read_positions};
use jtext::{Doc, Kind};
use plane_base::Pt;
use sheet_base::{Heights, LayerFault, PathKind, are_same_heights, is_closed};

/// Reads a position as a path.
fn read_dot(
    pass: &mut PathsRead,
    doc: &Doc,
    bytes: &[u8],
    value: u32,
    exact: bool,
) -> Result<(), LayerFault>
    requires read { IsReadFrom doc.now bytes.now }
    requires node { value < length doc.now.nodes }
    requires room { (node : Node) → slice_get doc.now.nodes value ≡ Some node → HasRoom pass.old (node.next - value) }
    ensures path { (start : ℕ) (is : Json) (part : Part) → HasNodesAt doc.now.nodes bytes.now value start is → Holds pass.old part
        → Joins part pass.new result (and_then (part_of (length part.paths)) (paths_of_trace exact Trace.Position start is)) }
    ensures grows { OnOk result ((node : Node) → slice_get doc.now.nodes value ≡ Some node → Grows pass.old pass.new (node.next - value)) }
{
    let position = read_position(doc, bytes, value, exact)?;
    let first = pass.points.len();
    pass.points.push(point_of(position))?;
    pass.heights.push(height_of(position))?;
    let run = PositionRun {
        start: position.start,
        end: position.end,
        lost: lost_of(position),
    };
    pass.end_path(PathKind::Dot, first, run)?;
    Ok(())
}

/// Reads an array of positions as a path of joined points.
fn read_line(
    pass: &mut PathsRead,
    doc: &Doc,
    bytes: &[u8],
    array: u32,
    exact: bool,
) -> Result<(), LayerFault>
    requires read { IsReadFrom doc.now bytes.now }
    requires kind { HasKind doc.now.nodes array Kind.Array }
    requires room { (node : Node) → slice_get doc.now.nodes array ≡ Some node → HasRoom pass.old (node.next - array) }
    ensures path { (start : ℕ) (is : Json) (part : Part) → HasNodesAt doc.now.nodes bytes.now array start is → Holds pass.old part
        → Joins part pass.new result (and_then (part_of (length part.paths)) (paths_of_trace exact Trace.Line start is)) }
    ensures grows { OnOk result ((node : Node) → slice_get doc.now.nodes array ≡ Some node → Grows pass.old pass.new (node.next - array)) }
{
    let first = pass.points.len();
    let run = read_positions(
        &mut pass.points,
        &mut pass.heights,
        doc,
        bytes,
        array,
        exact,
    )?;
    if first < pass.points.len() {
        pass.end_path(PathKind::Line, first, run)?;
    }
    Ok(())
}

/// Whether the points from this number on are those of a closed ring, with one height at both ends or none.
fn is_ring(points: &[Pt], heights: &Heights, first: usize) -> bool
    requires { first ≤ length points.now }
    ensures { result ≡ (is_closed (drop first points.now)
        && is_same_height (height_in heights.now first) (height_in heights.now (length points.now - 1))) }
{
    if !is_closed(&points[first..]) {
        return false;
    }
    are_same_heights(heights.at(first), heights.at(points.len() - 1))
}

/// Drops the closing point of a ring.
fn drop_last(points: &mut Vec<Pt>)
    ensures front { (front : List Pt) → (last : Pt) → points.old.items ≡ front ++ last ∷ [] → points.new.items ≡ front }
    ensures few { length points.new.items ≤ length points.old.items }
{
    let _ = points.pop();
}

/// Reads an array of positions as a ring.
fn read_ring(
    pass: &mut PathsRead,
    doc: &Doc,
    bytes: &[u8],
    array: u32,
    exact: bool,
) -> Result<(), LayerFault>
    requires read { IsReadFrom doc.now bytes.now }
    requires kind { HasKind doc.now.nodes array Kind.Array }
    requires room { (node : Node) → slice_get doc.now.nodes array ≡ Some node → HasRoom pass.old (node.next - array) }
    ensures path { (start : ℕ) (is : Json) (part : Part) → HasNodesAt doc.now.nodes bytes.now array start is → Holds pass.old part
        → Joins part pass.new result (and_then (part_of (length part.paths)) (paths_of_trace exact Trace.Ring start is)) }
    ensures grows { OnOk result ((node : Node) → slice_get doc.now.nodes array ≡ Some node → Grows pass.old pass.new (node.next - array)) }
{
    let first = pass.points.len();
    let run = read_positions(
        &mut pass.points,
        &mut pass.heights,
        doc,
        bytes,
        array,
        exact,
    )?;
    if !is_ring(&pass.points, &pass.heights, first) {
        return Err(LayerFault::Ring {
            at: u64::from(node_at(doc, array).start),
        });
    }
    drop_last(&mut pass.points);
    pass.heights.pop();
    pass.end_path(PathKind::Loop, first, run)?;
    Ok(())
}

/// Reads coordinates that are one path at most.
pub fn read_path(
    pass: &mut PathsRead,
    doc: &Doc,
    bytes: &[u8],
    trace: Trace,
    value: u32,
    exact: bool,
) -> Result<(), LayerFault>
    requires read { IsReadFrom doc.now bytes.now }
    requires node { value < length doc.now.nodes }
    requires room { (node : Node) → slice_get doc.now.nodes value ≡ Some node → HasRoom pass.old (node.next - value) }
    ensures path { (start : ℕ) (is : Json) (part : Part) → HasNodesAt doc.now.nodes bytes.now value start is → Holds pass.old part
        → Joins part pass.new result (and_then (part_of (length part.paths)) (paths_of_trace exact trace start is)) }
    ensures grows { OnOk result ((node : Node) → slice_get doc.now.nodes value ≡ Some node → Grows pass.old pass.new (node.next - value)) }
{
    let node = node_at(doc, value);
    if !is_kind(node, Kind::Array) {
        return Err(shape_at(node));
    }
    match trace {
        Trace::Point => {
            if node.next > value + 1 {
                read_dot(pass, doc, bytes, value, exact)
            } else {
                Ok(())
            }
        }
        Trace::Position => read_dot(pass, doc, bytes, value, exact),
        Trace::Line => read_line(pass, doc, bytes, value, exact),
        Trace::Ring => read_ring(pass, doc, bytes, value, exact),
    }
}
