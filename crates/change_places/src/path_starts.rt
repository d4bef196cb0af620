//! Where in a layer's bytes each of its paths is written, from the edits of its sheet.

ghost use Rattle.std.specs.Prelude.{true, get_or, None as Nothing, ◌≡◌, ◌+◌, ◌==◌, ◌≤◌, ◌<◌, ◌^◌, length, map};
ghost use Rattle.std.specs.Prelude.{count_by, IfOk};
ghost use Rattle.std.specs.Option.{option_or};
ghost use Rattle.sheet_base.specs.Sheets.{IsSheet};
ghost use Rattle.sheet_base.specs.Splices.{AreInOrder};
ghost use Rattle.change_places.specs.PathPlaces.{edit_in_lines, printed_edits, path_places};
ghost use Rattle.change_places.specs.InsidePlaces.{number_by, AreFirsts, PutsStart};

use sheet_base::{Edit, Sheet, What};
use std::alloc::{AllocError, Global};

/// The number by which an edit is found: that of its path, or that of its point.
#[derive(Clone, Copy)]
pub(crate) enum Key {
    Path,
    Point,
}

// The number of an edit by which it is found.
fn key_number(key: Key, what: What) -> Option<u32>
    ensures { result ≡ number_by key what }
{
    match key {
        Key::Path => what.path(),
        Key::Point => what.point(),
    }
}

// How many line feeds the bytes have.
fn line_feeds(bytes: &[u8]) -> usize
    ensures { result ≡ count_by (λ byte. byte == 10) bytes.now }
{
    bytes.iter().filter(|byte| **byte == b'\n').count()
}

// The edits of a drawing, each beginning at its line from 1.
fn edits_in_lines(alloc: Global, bytes: &[u8], edits: &[Edit]) -> Result<Vec<Edit>, AllocError>
    requires small { length bytes.now ≤ 2 ^ 26 }
    requires order { AreInOrder 0 edits.now (length bytes.now) }
    ensures { IfOk result (λ printed. printed.items ≡ map (edit_in_lines bytes.now) edits.now) }
{
    let mut printed = Vec::with_capacity(alloc, edits.len())?;
    let mut at = 0;
    let mut line = 1;
    for edit in edits {
        let start = edit.start as usize;
        line += line_feeds(&bytes[at..start]);
        at = start;
        printed.push(Edit {
            start: line as u32,
            end: edit.end,
            what: edit.what,
        })?;
    }
    Ok(printed)
}

// The edits as they are.
fn same_edits(alloc: Global, edits: &[Edit]) -> Result<Vec<Edit>, AllocError>
    ensures { IfOk result (λ printed. printed.items ≡ edits.now) }
{
    let mut printed = Vec::with_capacity(alloc, edits.len())?;
    printed.extend_from_slice(edits)?;
    Ok(printed)
}

// The edits, each beginning where it is printed to begin: at the line of a drawing, and else at the byte.
fn printed_edits(
    alloc: Global,
    drawing: bool,
    bytes: &[u8],
    edits: &[Edit],
) -> Result<Vec<Edit>, AllocError>
    requires small { length bytes.now ≤ 2 ^ 26 }
    requires order { AreInOrder 0 edits.now (length bytes.now) }
    ensures { IfOk result (λ printed. printed.items ≡ printed_edits drawing bytes.now edits.now) }
{
    if drawing {
        edits_in_lines(alloc, bytes, edits)
    } else {
        same_edits(alloc, edits)
    }
}

// Puts a start at the number that is named, unless one is there.
fn put_start(starts: &mut Vec<Option<u32>>, named: Option<u32>, start: u32)
    ensures { PutsStart named start starts.old.items starts.new.items }
{
    if let Some(number) = named {
        let number = number as usize;
        if number < starts.len() && starts[number].is_none() {
            starts[number] = Some(start);
        }
    }
}

// For each number below `count` where the first edit of this number begins.
fn first_starts(
    alloc: Global,
    key: Key,
    edits: &[Edit],
    count: usize,
) -> Result<Vec<Option<u32>>, AllocError>
    ensures { IfOk result (λ starts. AreFirsts key edits.now count starts.items) }
{
    let mut starts = vec![in alloc; None; count]?;
    for edit in edits {
        put_start(&mut starts, key_number(key, edit.what), edit.start);
    }
    Ok(starts)
}

// The first that is there.
fn first_of(one: Option<u32>, other: Option<u32>) -> Option<u32>
    ensures { result ≡ option_or one other }
{
    match one {
        Some(start) => Some(start),
        None => other,
    }
}

// The start at this number, or none.
fn start_at(starts: &[Option<u32>], number: usize) -> Option<u32>
    ensures { result ≡ get_or starts.now number Nothing }
{
    match starts.get(number) {
        Some(start) => *start,
        None => None,
    }
}

/// For each path of a layer's sheet where its list begins, or its entity, or its first point: the byte from 0, and in a
/// drawing the line from 1.
pub fn path_places(
    alloc: Global,
    drawing: bool,
    bytes: &[u8],
    sheet: &Sheet,
) -> Result<Vec<Option<u32>>, AllocError>
    requires small { length bytes.now ≤ 2 ^ 26 }
    requires order { AreInOrder 0 sheet.now.edits (length bytes.now) }
    ensures { IfOk result (λ places. places.items ≡ path_places drawing bytes.now sheet.now) }
{
    let rows = sheet.paths();
    let edits = printed_edits(alloc, drawing, bytes, sheet.edits())?;
    let by_path = first_starts(alloc, Key::Path, &edits, rows.len())?;
    let by_point = first_starts(alloc, Key::Point, &edits, sheet.points().len())?;
    let mut places = Vec::with_capacity(alloc, rows.len())?;
    for (number, row) in rows.iter().enumerate() {
        let own = start_at(&by_path, number);
        let first = start_at(&by_point, row.first as usize);
        places.push(first_of(own, first))?;
    }
    Ok(places)
}
