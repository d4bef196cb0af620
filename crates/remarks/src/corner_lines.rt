//! What standard error says of the triangles of a triangulation: of their corners, of such as are turned over, and of
//! their border.

ghost use Rattle.std.specs.Prelude.{◌≡◌, IfOk, string_bytes};
ghost use Rattle.remarks.specs.CornerLines.{border_words, border_line_of, corner_line_of, turned_line_of};
ghost use Rattle.remarks.specs.CornerLines.{no_triangles_line_of};

use crate::remark_lines::put_number;
use shown_text::put_shown;
use std::alloc::{AllocError, Global};

/// The line that says which row a corner of a triangle has in the file, and what this row is there.
pub fn corner_line(
    alloc: Global,
    triangle: u32,
    row: u64,
    written: &str,
) -> Result<String, AllocError>
    ensures { IfOk result (λ text. string_bytes text ≡ corner_line_of triangle row written.now) }
{
    let mut text = String::new(alloc);
    put_number(&mut text, "tinmove: triangle ", u64::from(triangle))?;
    put_number(&mut text, " has row ", row)?;
    text.push_str(" of vertices: ")?;
    put_shown(&mut text, written)?;
    text.push_str("\n")?;
    Ok(text)
}

/// The line that says how many of the triangles are turned over.
pub fn turned_line(alloc: Global, turned: u64, triangles: u64) -> Result<String, AllocError>
    ensures { IfOk result (λ text. string_bytes text ≡ turned_line_of turned triangles) }
{
    let mut text = String::new(alloc);
    put_number(&mut text, "tinmove: turned over: ", turned)?;
    put_number(&mut text, " of ", triangles)?;
    if turned == triangles {
        text.push_str(": are x and y exchanged in one of the frames?\n")?;
    } else {
        text.push_str(" triangles: the corner that they have in common is most often wrong\n")?;
    }
    Ok(text)
}

/// What is said of the numbers of outer rings and holes of a border.
fn border_words(outer: u64, holes: u64) -> &'static str
    ensures { result.now ≡ border_words outer holes }
{
    if outer > 1 || holes > 0 {
        ": is a row missing?\n"
    } else {
        "\n"
    }
}

/// The line that says how many outer rings and how many holes the border of a triangulation has.
pub fn border_line(alloc: Global, name: &str, outer: u64, holes: u64) -> Result<String, AllocError>
    ensures { IfOk result (λ text. string_bytes text ≡ border_line_of name.now outer holes) }
{
    let mut text = String::new(alloc);
    text.push_str("tinmove: ")?;
    put_shown(&mut text, name)?;
    put_number(&mut text, ": outer rings of the border: ", outer)?;
    put_number(&mut text, ", holes: ", holes)?;
    text.push_str(border_words(outer, holes))?;
    Ok(text)
}

/// The line that says that a triangulation has no triangles.
pub fn no_triangles_line(alloc: Global, name: &str) -> Result<String, AllocError>
    ensures { IfOk result (λ text. string_bytes text ≡ no_triangles_line_of name.now) }
{
    let mut text = String::new(alloc);
    text.push_str("tinmove: ")?;
    put_shown(&mut text, name)?;
    text.push_str(": it has no triangles: no layer can be carried by it\n")?;
    Ok(text)
}
