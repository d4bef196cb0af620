//! The lines for standard error, put together.

ghost use Rattle.std.specs.Prelude.{◌≡◌, ◌++◌, codes, decimal, string_bytes, option_copied, IfOk, OnOk};
ghost use Rattle.remarks.specs.Spots.{byte_words, rows_end_of, row_words, within_words, spot_words};
ghost use Rattle.remarks.specs.Spots.{behind_colon, shown_words};
ghost use Rattle.remarks.specs.Excerpts.{excerpt_of};
ghost use Rattle.remarks.specs.Remarks.{first_line, nothing_line, help_line, cure_line, remarks_of};

use crate::excerpts::excerpt;
use crate::line_columns::{behind_lines, line_and_column};
use crate::refusal_tables::{refusal_cure, refusal_finding};
use crate::spots::{FilePlace, spot_for};
use itoa::Buffer;
use runs::Refusal;
use shown_text::put_shown;
use std::alloc::{AllocError, Global};
use tin_file::Rows;

/// Adds a text, and then a number in digits.
pub(crate) fn put_number(text: &mut String, before: &str, number: u64) -> Result<(), AllocError>
    ensures { OnOk result (string_bytes text.new ≡ string_bytes text.old ++ before.now ++ decimal number) }
{
    let mut digits = Buffer::new();
    text.push_str(before)?;
    text.push_str(digits.format(number))?;
    Ok(())
}

/// Puts the place of a byte.
fn put_byte(text: &mut String, bytes: Option<&[u8]>, at: u64) -> Result<(), AllocError>
    ensures { OnOk result (string_bytes text.new ≡ string_bytes text.old ++ byte_words (option_copied bytes.entry) at) }
{
    match bytes {
        None => put_number(text, ": at byte ", at),
        Some(known) => {
            let place = line_and_column(known, at);
            put_number(text, ":", place.line)?;
            put_number(text, ":", place.column)
        }
    }
}

/// The words after the number of a row of this list.
fn rows_end(list: Rows) -> &'static str
    ensures { result.now ≡ rows_end_of list }
{
    match list {
        Rows::Vertices => " of vertices",
        Rows::Triangles => " of triangles",
    }
}

/// Puts a row of the triangulation's file.
fn put_row(text: &mut String, list: Rows, row: u32) -> Result<(), AllocError>
    ensures { OnOk result (string_bytes text.new ≡ string_bytes text.old ++ row_words list row) }
{
    put_number(text, ": row ", u64::from(row))?;
    text.push_str(rows_end(list))?;
    Ok(())
}

/// Puts two numbers, each after a text.
fn put_numbers(
    text: &mut String,
    before: &str,
    first: u32,
    between: &str,
    second: u32,
) -> Result<(), AllocError>
    ensures { OnOk result (string_bytes text.new ≡ string_bytes text.old
        ++ (before.now ++ decimal first ++ between.now ++ decimal second)) }
{
    put_number(text, before, u64::from(first))?;
    put_number(text, between, u64::from(second))
}

/// Puts what is between the name and the colon in front of what was found.
fn put_within(text: &mut String, bytes: Option<&[u8]>, spot: FilePlace) -> Result<(), AllocError>
    ensures { OnOk result (string_bytes text.new ≡ string_bytes text.old ++ within_words (option_copied bytes.entry) spot) }
{
    match spot {
        FilePlace::Run | FilePlace::LayerWord(_) | FilePlace::File => Ok(()),
        FilePlace::Byte(at) => put_byte(text, bytes, at),
        FilePlace::Line(line) | FilePlace::Entity(line) => put_number(text, ":", line),
        FilePlace::Row(list, row) => put_row(text, list, row),
        FilePlace::Triangle(triangle) => put_number(text, ": triangle ", u64::from(triangle)),
        FilePlace::TrianglePair(first, second) => put_numbers(
            text,
            ": triangles ",
            first,
            " and ",
            second,
        ),
        FilePlace::Segment(path, segment) => put_numbers(
            text,
            ": path ",
            path,
            " segment ",
            segment,
        ),
    }
}

/// Puts where the refusal comes from, up to what was found. What is made in memory has an empty name, which is left out.
fn put_spot(
    text: &mut String,
    name: &str,
    bytes: Option<&[u8]>,
    spot: FilePlace,
) -> Result<(), AllocError>
    ensures { OnOk result (string_bytes text.new ≡ string_bytes text.old ++ spot_words name.now (option_copied bytes.entry) spot) }
{
    match spot {
        FilePlace::Run => Ok(()),
        FilePlace::File if name.is_empty() => Ok(()),
        FilePlace::LayerWord(layer) => {
            put_number(text, "layer ", u64::from(layer))?;
            text.push_str(": ")?;
            Ok(())
        }
        _ => {
            put_shown(text, name)?;
            put_within(text, bytes, spot)?;
            text.push_str(": ")?;
            Ok(())
        }
    }
}

/// Puts what is at a place, where that can be shown.
fn put_excerpt(text: &mut String, bytes: &[u8], at: u64) -> Result<(), AllocError>
    ensures { OnOk result (string_bytes text.new ≡ string_bytes text.old ++ behind_colon (excerpt_of bytes.now at)) }
{
    let shown = excerpt(bytes, at);
    if !shown.is_empty() {
        text.push_str(": ")?;
        text.push_str(shown)?;
    }
    Ok(())
}

/// Puts what is at the place of a refusal, or the kind of an entity, where the bytes are known.
fn put_excerpt_at(
    text: &mut String,
    bytes: Option<&[u8]>,
    spot: FilePlace,
) -> Result<(), AllocError>
    ensures { OnOk result (string_bytes text.new ≡ string_bytes text.old ++ shown_words (option_copied bytes.entry) spot) }
{
    match (bytes, spot) {
        (Some(known), FilePlace::Byte(at)) => put_excerpt(text, known, at),
        (Some(known), FilePlace::Entity(line)) => put_excerpt(text, behind_lines(known, line), 0),
        _ => Ok(()),
    }
}

/// Puts the line of what was found.
fn put_first_line(
    text: &mut String,
    refusal: Refusal,
    name: &str,
    bytes: Option<&[u8]>,
) -> Result<(), AllocError>
    ensures { OnOk result (string_bytes text.new ≡ string_bytes text.old ++ first_line refusal name.now (option_copied bytes.entry)) }
{
    let spot = spot_for(refusal);
    text.push_str("tinmove: ")?;
    put_spot(text, name, bytes, spot)?;
    text.push_str(refusal_finding(refusal, bytes))?;
    put_excerpt_at(text, bytes, spot)?;
    text.push_str("\n")?;
    Ok(())
}

/// Puts the line that says that nothing was written, and what helps.
fn put_nothing_written(text: &mut String, cure: Option<&str>) -> Result<(), AllocError>
    ensures { OnOk result (string_bytes text.new ≡ string_bytes text.old ++ nothing_line (option_copied cure.entry)) }
{
    text.push_str("tinmove: nothing was written")?;
    if let Some(words) = cure {
        text.push_str("; ")?;
        text.push_str(words)?;
    }
    text.push_str("\n")?;
    Ok(())
}

/// Puts the line of what helps, where something does.
fn put_cure(text: &mut String, cure: Option<&str>) -> Result<(), AllocError>
    ensures { OnOk result (string_bytes text.new ≡ string_bytes text.old ++ help_line (option_copied cure.entry)) }
{
    if let Some(words) = cure {
        text.push_str("tinmove: ")?;
        text.push_str(words)?;
        text.push_str("\n")?;
    }
    Ok(())
}

/// Puts the line of what helps, and of a run that writes files that nothing was written.
pub(crate) fn put_second_line(
    text: &mut String,
    cure: Option<&str>,
    has_outputs: bool,
) -> Result<(), AllocError>
    ensures { OnOk result (string_bytes text.new ≡ string_bytes text.old ++ cure_line has_outputs (option_copied cure.entry)) }
{
    if has_outputs {
        put_nothing_written(text, cure)
    } else {
        put_cure(text, cure)
    }
}

/// The lines for standard error after a refusal, with their line feeds: where it is, what was found
/// and what is there; and what helps, where something does. If the run writes files (`has_outputs`),
/// the second line says that nothing was written. `name` is that of the refused
/// file, and `bytes` are its bytes where they are known.
pub fn refusal_remarks(
    alloc: Global,
    refusal: &Refusal,
    name: &str,
    bytes: Option<&[u8]>,
    has_outputs: bool,
) -> Result<String, AllocError>
    ensures { IfOk result (λ text. string_bytes text ≡ remarks_of refusal.now name.now (option_copied bytes.entry) has_outputs) }
{
    let mut text = String::new(alloc);
    put_first_line(&mut text, *refusal, name, bytes)?;
    put_second_line(&mut text, refusal_cure(*refusal, bytes), has_outputs)?;
    Ok(text)
}
