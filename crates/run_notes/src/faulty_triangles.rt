//! What standard error says of the triangles of a triangulation that is not sound: the rows of their corners, as the
//! file has them, and how many triangles are turned over.

ghost use Rattle.std.specs.Prelude.{◌≡◌, ◌≤◌, length};
ghost use Rattle.runs.specs.declared.loads.TheConstants.{MOST_BYTES};
ghost use Rattle.run_notes.specs.FaultLines.{all_faults_line_of, many_faults_lines_of};

use crate::refused_files::bytes_again;
use crate::tin_uses::{TinUse, tin_in};
use jtext::{Doc, Node, read_json};
use plane_base::turn;
use remarks::{corner_line, turned_line};
use sheet_base::How;
use std::alloc::Global;
use std::rt::Files;
use std::str::from_utf8;
use tin_base::{Frame, Tin};
use tin_check::CheckFault;

/// The names of the columns that have the rows of a triangle's corners, as a file writes them.
const CORNERS: [&[u8]; 3] = [b"\"idx_vertex1\"", b"\"idx_vertex2\"", b"\"idx_vertex3\""];

/// The bytes of a node.
fn node_text<'a>(bytes: &'a [u8], node: &Node) -> &'a [u8] {
    match bytes.get(node.start as usize..node.end as usize) {
        Some(text) => text,
        None => &[],
    }
}

/// The node after those inside this one.
fn behind(nodes: &[Node], number: usize) -> Option<usize> {
    let node = nodes.get(number)?;
    Some(node.next as usize)
}

/// The value of the first member of the whole object with this key, in quotation marks.
fn member_of(nodes: &[Node], bytes: &[u8], key: &[u8]) -> Option<usize> {
    let mut at = 1_usize;
    for _ in 0..nodes.len() {
        let value = at.saturating_add(1);
        if node_text(bytes, nodes.get(at)?) == key {
            return Some(value);
        }
        at = behind(nodes, value)?;
    }
    None
}

/// The element of this number of an array.
fn element_of(nodes: &[Node], array: usize, number: u64) -> Option<usize> {
    let end = behind(nodes, array)?;
    let mut at = array.saturating_add(1);
    for _ in 0..number {
        at = behind(nodes, at)?;
    }
    if at < end { Some(at) } else { None }
}

/// The number of the element of an array that is written so.
fn place_of(nodes: &[Node], bytes: &[u8], array: usize, text: &[u8]) -> Option<u64> {
    let end = behind(nodes, array)?;
    let mut at = array.saturating_add(1);
    for number in 0..nodes.len() {
        if at >= end {
            return None;
        }
        if node_text(bytes, nodes.get(at)?) == text {
            return Some(number as u64);
        }
        at = behind(nodes, at)?;
    }
    None
}

/// The row of vertices that the column of this name has for a triangle.
fn row_of(nodes: &[Node], bytes: &[u8], triangle: u32, column: &[u8]) -> Option<u64> {
    let columns = member_of(nodes, bytes, b"\"triangles_columns\"")?;
    let place = place_of(nodes, bytes, columns, column)?;
    let triangles = member_of(nodes, bytes, b"\"triangles\"")?;
    let row = element_of(nodes, triangles, u64::from(triangle))?;
    let value = element_of(nodes, row, place)?;
    let digits = from_utf8(node_text(bytes, nodes.get(value)?)).ok()?;
    digits.parse::<u64>().ok()
}

/// A row of vertices, as the file has it.
fn vertex_row<'a>(nodes: &[Node], bytes: &'a [u8], row: u64) -> Option<&'a str> {
    let vertices = member_of(nodes, bytes, b"\"vertices\"")?;
    let found = element_of(nodes, vertices, row)?;
    from_utf8(node_text(bytes, nodes.get(found)?)).ok()
}

/// Says which row a corner of a triangle has, and what this row is.
fn say_corner<R: Eprint + AllocGlobal>(
    rt: &R,
    nodes: &[Node],
    bytes: &[u8],
    triangle: u32,
    column: &[u8],
) {
    let Some(row) = row_of(nodes, bytes, triangle, column) else {
        return;
    };
    let Some(text) = vertex_row(nodes, bytes, row) else {
        return;
    };
    if let Ok(line) = corner_line(rt.alloc(), triangle, row, text) {
        let _ = rt.eprint(line.as_str());
    }
}

/// Says of each corner of a triangle which row it has.
fn say_corners<R: Eprint + AllocGlobal>(rt: &R, doc: &Doc, bytes: &[u8], triangle: u32) {
    for column in &CORNERS {
        say_corner(rt, doc.nodes.items(), bytes, triangle, column);
    }
}

/// How many triangles are turned over in the target frame.
fn turned_count(tin: &Tin) -> u64 {
    let mut count = 0_u64;
    for triangle in 0..tin.triangle_count() {
        let corners = tin.tri(triangle, Frame::Target);
        if turn(corners.a, corners.b, corners.c) < 0 {
            count = count.saturating_add(1);
        }
    }
    count
}

/// Says how many of the triangles are turned over.
fn say_turned<R: Eprint + AllocGlobal>(rt: &R, bytes: &[u8], how: How, use_of_tin: TinUse)
    requires { length bytes.now ≤ MOST_BYTES }
{
    let Some(tin) = tin_in(rt.alloc(), bytes, how, use_of_tin) else {
        return;
    };
    if let Ok(text) = turned_line(
        rt.alloc(),
        turned_count(&tin),
        u64::from(tin.triangle_count()),
    ) {
        let _ = rt.eprint(text.as_str());
    }
}

/// The document of the bytes, where these are JSON.
fn doc_of(alloc: Global, bytes: &[u8]) -> Option<Doc>
    requires { length bytes.now ≤ MOST_BYTES }
{
    read_json(alloc, bytes).ok()
}

/// Says of the triangles of a fault which rows their corners have, and how many triangles are turned over, where one is.
fn say_rows<R: Files + Eprint + AllocGlobal + Clone + Drop>(
    rt: &R,
    name: &str,
    how: How,
    use_of_tin: TinUse,
    fault: CheckFault,
) {
    let Some(bytes) = bytes_again(rt, name) else {
        return;
    };
    let Some(doc) = doc_of(rt.alloc(), &bytes) else {
        return;
    };
    match fault {
        CheckFault::Flat { triangle, .. } => say_corners(rt, &doc, &bytes, triangle),
        CheckFault::TurnsOver { triangle } => {
            say_corners(rt, &doc, &bytes, triangle);
            say_turned(rt, &bytes, how, use_of_tin);
        }
        CheckFault::Meets { first, second, .. } => {
            say_corners(rt, &doc, &bytes, first);
            say_corners(rt, &doc, &bytes, second);
        }
        CheckFault::NoMemory => {}
    }
}

/// The line that names the command that prints all faults of a triangulation.
fn all_faults_line() -> &'static str
    ensures { result.now ≡ all_faults_line_of }
{
    "tinmove: all its faults, as a map: tinplaces --tin FILE --faults\n"
}

/// The lines of a triangulation with more faults than are printed.
fn many_faults_lines() -> &'static str
    ensures { result.now ≡ many_faults_lines_of }
{
    "tinmove: more than 1,048,576 faults\ntinmove: 'tinmove check' names the first\n"
}

/// Says which command prints all faults, where a triangulation that moves places has one.
fn say_all_faults<R: Eprint>(rt: &R, use_of_tin: TinUse, fault: CheckFault) {
    match (use_of_tin, fault) {
        (TinUse::Heights, _) | (_, CheckFault::NoMemory) => {}
        (TinUse::Places, _) => {
            let _ = rt.eprint(all_faults_line());
        }
    }
}

/// Says of the triangles of a fault which rows their corners have, and which command prints all faults.
pub(crate) fn say_triangles<R: Files + Eprint + AllocGlobal + Clone + Drop>(
    rt: &R,
    name: &str,
    how: How,
    use_of_tin: TinUse,
    fault: CheckFault,
) {
    say_rows(rt, name, how, use_of_tin, fault);
    say_all_faults(rt, use_of_tin, fault);
}

/// Says that a triangulation has more faults than are printed.
pub fn say_many_faults<R: Eprint>(rt: &R) {
    let _ = rt.eprint(many_faults_lines());
}
