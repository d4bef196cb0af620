//! The handles that copies take.

ghost use Rattle.std.specs.Prelude.{◌≡◌, ◌<◌, ◌≤◌, ◌^◌, length, true};
ghost use Rattle.sheet_base.specs.Splices.{AreInOrder};
ghost use Rattle.sheet_base.specs.ImageFits.{path_positions};
ghost use Rattle.dxf_entities.specs.Handles.{is_handle};
ghost use Rattle.dxf_entities.specs.EntityViews.{entity_view};
ghost use Rattle.dxf_copies.specs.PageViews.{read_of};
ghost use Rattle.dxf_copies.specs.Rendering.{digit_of, handle_number, number_at, has_handle, taken_by, entity_at};
ghost use Rattle.dxf_copies.specs.Rendering.{handles_of_edit, first_handle, next_behind};

use crate::pages::{Page, number_at};
use crate::texts::{first_entity, run_of};
use dxf_entities::{Entity, fields_of, has_field, seed_of, value_in};
use sheet_base::{Edit, What};

/// The number of a hexadecimal digit.
fn digit_of(byte: u8) -> u64
    ensures { result ≡ digit_of byte }
{
    match byte {
        ..=b'9' => u64::from(byte.saturating_sub(b'0')),
        ..=b'F' => u64::from(byte - (b'A' - 10)),
        _ => u64::from(byte.saturating_sub(b'a' - 10)),
    }
}

/// The number of a handle.
fn handle_number(text: &[u8]) -> u64
    requires { is_handle text.now ≡ true }
    ensures number { result ≡ handle_number text.now }
    ensures small { result < 2 ^ 60 }
{
    let mut number: u64 = 0;
    for byte in text {
        number = 16 * number + digit_of(*byte);
    }
    number
}

/// The number of the next handle, where the drawing gives one.
pub fn first_handle(page: &Page) -> u64
    ensures number { result ≡ first_handle (read_of page.now) }
    ensures small { result < 2 ^ 60 }
{
    match seed_of(page.bytes, page.pairs) {
        Some(pair) => handle_number(value_in(page.bytes, &pair)),
        None => 0,
    }
}

/// Whether an entity has a handle.
fn has_handle(entity: &Entity) -> bool
    ensures { result ≡ has_handle (entity_view entity.now) }
{
    has_field(5, fields_of(entity))
}

/// How many images a path has.
fn images_of_line(page: &Page, path: u32) -> usize
    ensures { result ≡ length (path_positions page.now.sheet.now.paths page.now.images.now path) }
{
    let _ = page.images.heights();
    page.images.of_path(page.sheet.paths(), path).len()
}

/// How many copies an edit makes of the entity whose place it takes; none where it takes no place, or
/// another's.
fn copies_of(page: &Page, edit: Edit) -> usize
    ensures { taken_by (entity_at (read_of page.now) edit.start) result ≡ handles_of_edit (read_of page.now) edit }
{
    if edit.start >= edit.end {
        return 0;
    }
    match edit.what {
        What::Lines { path } => images_of_line(page, path).saturating_sub(1),
        What::Vertex { point } => run_of(page.images, point).len(),
        _ => 0,
    }
}

/// How many new handles this many copies take of the entity that starts here.
fn taken_by(page: &Page, place: u32, number: usize, copies: usize) -> u64
    requires number { number ≡ number_at (read_of page.now) place }
    requires within { number ≤ length page.now.pairs.now }
    ensures { result ≡ taken_by (entity_at (read_of page.now) place) copies }
{
    if copies < 2 {
        return 0;
    }
    match first_entity(place, &page.pairs[number..]) {
        Some(entity) if has_handle(&entity) => copies as u64 - 1,
        _ => 0,
    }
}

/// How many new handles an edit takes that comes after this many pairs.
pub fn edit_handles(page: &Page, edit: Edit, number: usize) -> u64
    requires number { number ≡ number_at (read_of page.now) edit.start }
    requires within { number ≤ length page.now.pairs.now }
    ensures { result ≡ handles_of_edit (read_of page.now) edit }
{
    taken_by(page, edit.start, number, copies_of(page, edit))
}

/// The next handle after all edits.
pub fn handle_behind(page: &Page, first: u64) -> u64
    requires first { first ≡ first_handle (read_of page.now) }
    requires small { first < 2 ^ 60 }
    requires short { length page.now.bytes.now ≤ 2 ^ 26 }
    requires few { length page.now.images.now.points < 2 ^ 32 }
    requires order { AreInOrder 0 page.now.sheet.now.edits (length page.now.bytes.now) }
    ensures { result ≡ next_behind (read_of page.now) }
{
    let mut next = first;
    let mut number = 0;
    for edit in page.sheet.edits() {
        let copies = copies_of(page, *edit);
        if copies > 1 {
            number = number_at(page, edit.start, number);
            next += taken_by(page, edit.start, number, copies);
        }
    }
    next
}
