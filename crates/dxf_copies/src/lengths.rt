//! How long a written drawing is at most, reckoned before anything is written.

ghost use Rattle.std.specs.Prelude.{◌≤◌, length};

use crate::pages::Page;
use crate::texts::{crossings_of, last_coded, run_of};
use dxf_pairs::Pair;
use mm_decimal::write_mm;
use sheet_base::{Edit, Images, What};

/// How many digits a handle or a count has at most.
const MOST_DIGITS: u64 = 16;

/// The length of a number of millimetres that is written as metres, in bytes.
fn length_of(mm: i64) -> u64 {
    let mut text = [0u8; 24];
    write_mm(mm, &mut text) as u64
}

/// The length of the longest coordinate and height of these images, in bytes.
fn longest(images: &Images) -> u64 {
    let mut least = 0;
    let mut greatest = 0;
    for (number, point) in images.points().iter().enumerate() {
        let height = images.heights().at(number).unwrap_or(0);
        least = point.x.min(point.y).min(height).min(least);
        greatest = point.x.max(point.y).max(height).max(greatest);
    }
    length_of(least).max(length_of(greatest))
}

/// How many bytes an edit takes the place of.
fn span(edit: Edit) -> u64 {
    u64::from(edit.end.saturating_sub(edit.start))
}

/// The length of this many copies of the entity in whose place they are, in bytes: each has at most this
/// many coordinates and heights and a handle of its own.
fn copies_length(edit: Edit, copies: usize, coordinates: u64, longest: u64) -> u64 {
    let own = coordinates
        .saturating_mul(longest)
        .saturating_add(MOST_DIGITS);
    span(edit).saturating_add(own).saturating_mul(copies as u64)
}

/// The length of a crossing after a vertex in fields, which are the last of these pairs, in bytes.
fn fields_length(before: &[Pair], longest: u64) -> u64 {
    match (last_coded(10, before), last_coded(20, before)) {
        (Some(x), Some(y)) => u64::from(x.value.saturating_sub(x.start))
            .saturating_add(u64::from(y.value.saturating_sub(x.value_end)))
            .saturating_add(u64::from(y.end.saturating_sub(y.value_end)))
            .saturating_add(longest.saturating_mul(2)),
        _ => 0,
    }
}

/// The length of the text of an edit at most, before which these pairs are, in bytes.
fn text_length(page: &Page, before: &[Pair], edit: Edit, longest: u64) -> u64 {
    match edit.what {
        What::X { .. } | What::Y { .. } => longest,
        What::Vertices { point } => {
            let crossings = crossings_of(page.images, point).len() as u64;
            if crossings == 0 {
                return 0;
            }
            fields_length(before, longest).saturating_mul(crossings)
        }
        What::Lines { path } => {
            let images = page.images.of_path(page.sheet.paths(), path);
            copies_length(edit, images.len().saturating_sub(1), 6, longest)
        }
        What::Vertex { point } => {
            copies_length(edit, run_of(page.images, point).len(), 2, longest)
        }
        What::Tally { .. } => MOST_DIGITS,
        What::NextHandle => span(edit).max(MOST_DIGITS),
        _ => 0,
    }
}

/// Whether crossings come after a vertex in fields.
fn has_crossings(page: &Page, edit: Edit) -> bool {
    match edit.what {
        What::Vertices { point } => !crossings_of(page.images, point).is_empty(),
        _ => false,
    }
}

/// How many of the pairs come before this place, where so many of them do already.
fn pairs_before(pairs: &[Pair], place: u32, known: usize) -> usize
    requires { known ≤ length pairs.now }
    ensures { result ≤ length pairs.now }
{
    let mut number = known;
    while number < pairs.len() && pairs[number].start < place {
        number += 1;
    }
    number
}

/// The length of the written drawing at most, in bytes, up to the last u64.
pub fn written_length(page: &Page) -> u64 {
    let longest = longest(page.images);
    let mut length = page.bytes.len() as u64;
    let mut number = 0;
    for edit in page.sheet.edits() {
        if has_crossings(page, *edit) {
            number = pairs_before(page.pairs, edit.start, number);
        }
        let text = text_length(page, &page.pairs[..number], *edit, longest);
        length = length.saturating_sub(span(*edit)).saturating_add(text);
    }
    length
}
