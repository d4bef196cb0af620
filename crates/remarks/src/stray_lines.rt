//! What standard error says of a segment that is outside: where it is, where the triangles are, and what may be meant.

ghost use Rattle.std.specs.Prelude.{◌≡◌, ◌++◌, IfOk, OnOk, decimal};
ghost use Rattle.mm_decimal.specs.MetresTexts.{mm_text};
ghost use Rattle.remarks.specs.StrayLines.{pair_words, place_words, extent_line, target_line, degree_line};
ghost use Rattle.remarks.specs.StrayLines.{exchange_line, guess_line};
ghost use Rattle.remarks.specs.StrayLines.{outside_lines_of};

use itoa::Buffer;
use plane_base::Pt;
use sheet_base::push_mm;
use std::alloc::{AllocError, Global};

/// A segment that is not wholly in the triangles, and where these are. Places are in millimetres.
#[derive(Clone, Copy)]
pub struct Stray {
    /// The line of the file on which the segment's path begins, counted from 1.
    pub line: u64,
    /// Where the segment begins.
    pub from: Pt,
    /// Where it ends; of a point alone this is the same place.
    pub to: Pt,
    /// How many triangles there are.
    pub triangles: u64,
    /// The least coordinates of the triangles in the frame that the layer is carried from.
    pub least: Pt,
    /// The greatest ones.
    pub greatest: Pt,
    /// Whether the whole layer is in the box of the triangles in the frame that it is carried to.
    pub is_in_target: bool,
    /// Whether no coordinate of the layer is more than 360 metres from 0.
    pub is_small: bool,
    /// Whether the whole layer is in the box of the triangles once the two coordinates of each point are exchanged, and
    /// is not as it stands.
    pub is_exchanged: bool,
}

/// Puts a text.
fn put(out: &mut Vec<u8>, text: &str) -> Result<(), AllocError>
    ensures { OnOk result (out.new.items ≡ out.old.items ++ text.now) }
{
    out.extend_from_slice(text.as_bytes())?;
    Ok(())
}

/// Puts a text and a number in digits after it.
fn put_count(out: &mut Vec<u8>, before: &str, number: u64) -> Result<(), AllocError>
    ensures { OnOk result (out.new.items ≡ out.old.items ++ before.now ++ decimal number) }
{
    let mut digits = Buffer::new();
    put(out, before)?;
    put(out, digits.format(number))?;
    Ok(())
}

/// Puts two coordinates in metres.
fn put_pair(out: &mut Vec<u8>, x: i64, y: i64) -> Result<(), AllocError>
    ensures { OnOk result (out.new.items ≡ out.old.items ++ pair_words x y) }
{
    push_mm(out, x)?;
    out.push(b' ')?;
    push_mm(out, y)?;
    Ok(())
}

/// Puts a text and a place in metres after it.
fn put_place(out: &mut Vec<u8>, before: &str, place: Pt) -> Result<(), AllocError>
    ensures { OnOk result (out.new.items ≡ out.old.items ++ before.now ++ place_words place) }
{
    put(out, before)?;
    put_pair(out, place.x, place.y)?;
    Ok(())
}

/// Puts a line: a text and a number, and from where to where.
fn put_extent(
    out: &mut Vec<u8>,
    before: &str,
    number: u64,
    from: Pt,
    to: Pt,
) -> Result<(), AllocError>
    ensures { OnOk result (out.new.items ≡ out.old.items ++ extent_line before.now number from to) }
{
    put_count(out, before, number)?;
    put_place(out, ", from ", from)?;
    put_place(out, " to ", to)?;
    put(out, "\n")?;
    Ok(())
}

/// What is asked of a layer that is in the box of the target.
fn target_words(is_in_target: bool) -> &'static str
    ensures { result.now ≡ target_line is_in_target }
{
    if is_in_target {
        "tinmove: the whole layer is where the triangles are carried to: carried already, or --inverse?\n"
    } else {
        ""
    }
}

/// What is said of a layer whose coordinates are small.
fn degree_words(is_small: bool) -> &'static str
    ensures { result.now ≡ degree_line is_small }
{
    if is_small {
        "tinmove: the layer's coordinates look like degrees, and are read as metres\n"
    } else {
        ""
    }
}

/// What is asked of a layer that is in the box of the triangles once its coordinates are exchanged.
fn exchange_words(is_exchanged: bool) -> &'static str
    ensures { result.now ≡ exchange_line is_exchanged }
{
    if is_exchanged {
        "tinmove: with x and y exchanged the whole layer is where the triangles are: are they exchanged?\n"
    } else {
        ""
    }
}

/// What may be meant: of a place where a block is inserted that it is to be taken apart, and else that the layer may be
/// in degrees.
fn guess_words(is_insert: bool, stray: Stray) -> &'static str
    ensures { result.now ≡ guess_line is_insert stray }
{
    if is_insert {
        return "tinmove: a block is inserted there: if its content is far from there, recipes/readable_drawing.py \
            --explode 10 makes entities of it\n";
    }
    degree_words(stray.is_small)
}

/// The lines for standard error of a segment that is outside, with their line feeds; `is_insert` says whether it is the
/// place where a block is inserted.
pub fn outside_lines(alloc: Global, stray: Stray, is_insert: bool) -> Result<Vec<u8>, AllocError>
    ensures { IfOk result (λ text. text.items ≡ outside_lines_of stray is_insert) }
{
    let mut out = Vec::new(alloc);
    put_extent(
        &mut out,
        "tinmove: it is on line ",
        stray.line,
        stray.from,
        stray.to,
    )?;
    put_extent(
        &mut out,
        "tinmove: triangles ",
        stray.triangles,
        stray.least,
        stray.greatest,
    )?;
    put(&mut out, target_words(stray.is_in_target))?;
    put(&mut out, guess_words(is_insert, stray))?;
    put(&mut out, exchange_words(stray.is_exchanged))?;
    Ok(out)
}
