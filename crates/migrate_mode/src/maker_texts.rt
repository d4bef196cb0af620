//! A triangulation and a layer that are made and not read: squares of ten metres, each cut along its diagonal.

ghost use Rattle.std.specs.Prelude.{◌≡◌, ◌+◌, ◌*◌, ◌<◌, ◌≤◌, ◌++◌, ◌∷◌, ◌^◌, [], decimal, length, pos, map, vec_len};
ghost use Rattle.std.specs.Prelude.{OnOk, IfOk};
ghost use Rattle.std.specs.List.{flat_map};
ghost use Rattle.job_words.specs.declared.limits.TheConstants.{MOST_SIZE};
ghost use Rattle.migrate_mode.specs.declared.maker_texts.TheConstants.{VERTEX_MOST, TRIANGLE_MOST};
ghost use Rattle.mm_decimal.specs.MetresTexts.{mm_text};
ghost use Rattle.migrate_mode.specs.MakerTexts.{below, corner_number_of, target_x_of, target_y_of};
ghost use Rattle.migrate_mode.specs.MakerTexts.{vertex_row, triangle_row, cell_rows, vertex_rows, triangle_rows, tin_front};
ghost use Rattle.migrate_mode.specs.MakerTexts.{tin_between, tin_end, tin_text, layer_line, layer_text, ended_rows};

use itoa::Buffer;
use mm_decimal::write_mm;
use std::alloc::{AllocError, Global};

/// The byte between two rows, and between two elements of a row.
pub const COMMA: u8 = b',';

/// More bytes than there are before, between and after the lists of a triangulation.
const FRAME_ROOM: usize = 512;

/// More bytes than a corner's row has.
const VERTEX_ROOM: usize = 32;

/// More bytes than the rows of a cell's two triangles have.
const CELL_ROOM: usize = 48;

/// The most bytes of a corner's row and its comma, whatever its numbers are.
const VERTEX_MOST: usize = 94;

/// The most bytes of a triangle's row and its comma, whatever its numbers are.
const TRIANGLE_MOST: usize = 65;

/// More bytes than a line of the layer has.
const LINE_ROOM: usize = 48;

// Adds a text at the end.
fn put(out: &mut Vec<u8>, text: &str) -> Result<(), AllocError>
    ensures text { OnOk result (out.new.items ≡ out.old.items ++ text.now) }
    ensures short { OnOk result (vec_len out.new ≡ vec_len out.old + length text.now) }
{
    out.extend_from_slice(text.as_bytes())?;
    Ok(())
}

// Adds a number in digits, and a text after it.
fn put_number(out: &mut Vec<u8>, number: u32, behind: &str) -> Result<(), AllocError>
    ensures text { OnOk result (out.new.items ≡ out.old.items ++ (decimal number ++ behind.now)) }
    ensures short { OnOk result (vec_len out.new ≤ vec_len out.old + (20 + length behind.now)) }
{
    let mut digits = Buffer::new();
    put(out, digits.format(number))?;
    put(out, behind)?;
    Ok(())
}

// Adds millimetres as metres, and a text after them.
fn put_metres(out: &mut Vec<u8>, mm: u32, behind: &str) -> Result<(), AllocError>
    ensures text { OnOk result (out.new.items ≡ out.old.items ++ (mm_text (pos mm) ++ behind.now)) }
    ensures short { OnOk result (vec_len out.new ≤ vec_len out.old + (24 + length behind.now)) }
{
    let mut digits = [0; 24];
    let length = write_mm(i64::from(mm), &mut digits);
    out.extend_from_slice(&digits[..length])?;
    put(out, behind)?;
    Ok(())
}

// The target of the corner in column i of line j, in millimetres.
#[tactic(auto, unfolding(crate::specs::MakerTexts::target_x_of))]
fn target_x(i: u32, j: u32) -> u32
    requires column { i ≤ MOST_SIZE }
    requires line { j ≤ MOST_SIZE }
    ensures { result ≡ target_x_of i j }
{
    1_000_000 + 10_000 * i + (7 * i + 13 * j) % 41
}

#[tactic(auto, unfolding(crate::specs::MakerTexts::target_y_of))]
fn target_y(i: u32, j: u32) -> u32
    requires column { i ≤ MOST_SIZE }
    requires line { j ≤ MOST_SIZE }
    ensures { result ≡ target_y_of i j }
{
    2_000_000 + 10_000 * j + (11 * i + 5 * j) % 37
}

// Adds the row of the corner in column i of line j, with a comma after it.
#[tactic(auto, unfolding(crate::specs::MakerTexts::vertex_row))]
fn put_vertex(out: &mut Vec<u8>, i: u32, j: u32) -> Result<(), AllocError>
    requires column { i ≤ MOST_SIZE }
    requires line { j ≤ MOST_SIZE }
    ensures text { OnOk result (out.new.items ≡ out.old.items ++ (vertex_row i j ++ COMMA ∷ [])) }
    ensures short { OnOk result (vec_len out.new ≤ vec_len out.old + VERTEX_MOST) }
{
    put(out, "[")?;
    put_number(out, 10 * i, ",")?;
    put_number(out, 10 * j, ",")?;
    put_metres(out, target_x(i, j), ",")?;
    put_metres(out, target_y(i, j), "],")?;
    Ok(())
}

// Adds the rows of a line of corners, with a comma after each.
fn put_vertex_line(out: &mut Vec<u8>, n: u32, j: u32) -> Result<(), AllocError>
    requires most { n ≤ MOST_SIZE }
    requires line { j ≤ n }
    ensures text { OnOk result (out.new.items ≡ out.old.items ++ ended_rows (map (λ i. vertex_row i j) (below (n + 1)))) }
    ensures short { OnOk result (vec_len out.new ≤ vec_len out.old + VERTEX_MOST * 513) }
{
    for i in 0..n + 1 {
        put_vertex(out, i, j)?;
    }
    Ok(())
}

// Adds the rows of all corners, with a comma after each.
fn put_vertices(out: &mut Vec<u8>, n: u32) -> Result<(), AllocError>
    requires most { n ≤ MOST_SIZE }
    ensures text { OnOk result (out.new.items ≡ out.old.items ++ ended_rows (vertex_rows n)) }
    ensures short { OnOk result (vec_len out.new ≤ vec_len out.old + VERTEX_MOST * 513 * 513) }
{
    for j in 0..n + 1 {
        put_vertex_line(out, n, j)?;
    }
    Ok(())
}

// The number of the corner in column i of line j.
fn corner_number(n: u32, i: u32, j: u32) -> u32
    requires most { n ≤ MOST_SIZE }
    requires column { i ≤ n }
    requires line { j ≤ n }
    ensures { result ≡ corner_number_of n i j }
{
    j * (n + 1) + i
}

// Adds the row of a triangle, with a comma after it.
#[tactic(auto, unfolding(crate::specs::MakerTexts::triangle_row))]
fn put_triangle(out: &mut Vec<u8>, first: u32, second: u32, third: u32) -> Result<(), AllocError>
    ensures text { OnOk result (out.new.items ≡ out.old.items ++ (triangle_row first second third ++ COMMA ∷ [])) }
    ensures short { OnOk result (vec_len out.new ≤ vec_len out.old + TRIANGLE_MOST) }
{
    put(out, "[")?;
    put_number(out, first, ",")?;
    put_number(out, second, ",")?;
    put_number(out, third, "],")?;
    Ok(())
}

// Adds the rows of a cell's two triangles, with a comma after each.
fn put_cell(out: &mut Vec<u8>, n: u32, i: u32, j: u32) -> Result<(), AllocError>
    requires most { n ≤ MOST_SIZE }
    requires column { i < n }
    requires line { j < n }
    ensures text { OnOk result (out.new.items ≡ out.old.items ++ ended_rows (cell_rows n i j)) }
    ensures short { OnOk result (vec_len out.new ≤ vec_len out.old + TRIANGLE_MOST * 2) }
{
    let first = corner_number(n, i, j);
    let opposite = corner_number(n, i + 1, j + 1);
    put_triangle(out, first, corner_number(n, i + 1, j), opposite)?;
    put_triangle(out, first, opposite, corner_number(n, i, j + 1))?;
    Ok(())
}

// Adds the rows of a line of cells, with a comma after each.
fn put_cell_line(out: &mut Vec<u8>, n: u32, j: u32) -> Result<(), AllocError>
    requires most { n ≤ MOST_SIZE }
    requires line { j < n }
    ensures text { OnOk result (out.new.items ≡ out.old.items ++ ended_rows (flat_map (λ i. cell_rows n i j) (below n))) }
    ensures short { OnOk result (vec_len out.new ≤ vec_len out.old + TRIANGLE_MOST * 1024) }
{
    for i in 0..n {
        put_cell(out, n, i, j)?;
    }
    Ok(())
}

// Adds the rows of all triangles, with a comma after each.
fn put_triangles(out: &mut Vec<u8>, n: u32) -> Result<(), AllocError>
    requires most { n ≤ MOST_SIZE }
    ensures text { OnOk result (out.new.items ≡ out.old.items ++ ended_rows (triangle_rows n)) }
    ensures short { OnOk result (vec_len out.new ≤ vec_len out.old + TRIANGLE_MOST * 524288) }
{
    for j in 0..n {
        put_cell_line(out, n, j)?;
    }
    Ok(())
}

// Adds what comes before the first list.
#[tactic(auto, unfolding(crate::specs::MakerTexts::tin_front))]
fn put_front(out: &mut Vec<u8>) -> Result<(), AllocError>
    ensures text { OnOk result (out.new.items ≡ out.old.items ++ tin_front) }
    ensures short { OnOk result (vec_len out.new ≤ vec_len out.old + 300) }
{
    put(
        out,
        concat!(
            r#"{"file_type":"triangulation_file","format_version":"1.1","transformed_components":["horizontal"],"#,
            r#""vertices_columns":["source_x","source_y","target_x","target_y"],"#,
            r#""triangles_columns":["idx_vertex1","idx_vertex2","idx_vertex3"],"vertices":["#
        ),
    )
}

// Adds what comes between both lists.
#[tactic(auto, unfolding(crate::specs::MakerTexts::tin_between))]
fn put_between(out: &mut Vec<u8>) -> Result<(), AllocError>
    ensures text { OnOk result (out.new.items ≡ out.old.items ++ tin_between) }
    ensures short { OnOk result (vec_len out.new ≤ vec_len out.old + 20) }
{
    put(out, r#"],"triangles":["#)
}

// Adds what ends the file.
#[tactic(auto, unfolding(crate::specs::MakerTexts::tin_end))]
fn put_end(out: &mut Vec<u8>) -> Result<(), AllocError>
    ensures text { OnOk result (out.new.items ≡ out.old.items ++ tin_end) }
    ensures short { OnOk result (vec_len out.new ≤ vec_len out.old + 2) }
{
    put(out, "]}")
}

// More bytes than the triangulation of n by n cells has.
fn tin_room(n: u32) -> usize
    requires { n ≤ MOST_SIZE }
{
    let cells = n as usize;
    FRAME_ROOM + VERTEX_ROOM * ((cells + 1) * (cells + 1)) + CELL_ROOM * (cells * cells)
}

/// The text of a triangulation file of n by n square cells of ten metres, of two triangles each.
pub fn make_tin(alloc: Global, n: u32) -> Result<Vec<u8>, AllocError>
    requires some { 1 ≤ n }
    requires most { n ≤ MOST_SIZE }
    ensures text { IfOk result (λ text. text.items ≡ tin_text n) }
    ensures short { IfOk result (λ text. vec_len text ≤ 2 ^ 26) }
{
    let mut out = Vec::with_capacity(alloc, tin_room(n))?;
    put_front(&mut out)?;
    put_vertices(&mut out, n)?;
    let _ = out.pop();
    put_between(&mut out)?;
    put_triangles(&mut out, n)?;
    let _ = out.pop();
    put_end(&mut out)?;
    Ok(out)
}

// Adds the line of this number of a layer of n.
#[tactic(auto, unfolding(crate::specs::MakerTexts::layer_line))]
fn put_line(out: &mut Vec<u8>, n: u32, k: u32) -> Result<(), AllocError>
    requires most { n ≤ MOST_SIZE }
    requires line { k < n }
    ensures text { OnOk result (out.new.items ≡ out.old.items ++ layer_line n k) }
    ensures short { OnOk result (vec_len out.new ≤ vec_len out.old + 128) }
{
    put(out, "LINESTRING (0 ")?;
    put_number(out, 10 * k + 2, ".5, ")?;
    put_number(out, 10 * n, " ")?;
    put_number(out, 10 * (3 * k % n) + 7, ".5)\n")?;
    Ok(())
}

/// The text of a layer of n lines across the triangulation of n by n cells, each on a line of its own.
pub fn make_layer(alloc: Global, n: u32) -> Result<Vec<u8>, AllocError>
    requires some { 1 ≤ n }
    requires most { n ≤ MOST_SIZE }
    ensures text { IfOk result (λ text. text.items ≡ layer_text n) }
    ensures short { IfOk result (λ text. vec_len text ≤ 2 ^ 26) }
{
    let mut out = Vec::with_capacity(alloc, LINE_ROOM * n as usize)?;
    for k in 0..n {
        put_line(&mut out, n, k)?;
    }
    Ok(out)
}
