//! The bytes of a page with the texts of its edits.

ghost use Rattle.std.specs.Prelude.{◌≡◌, ◌<◌, ◌≤◌, ◌^◌, length, pos, ◌++◌, IfOk, OnOk};
ghost use Rattle.sheet_base.specs.Splices.{AreInOrder, splice_of};
ghost use Rattle.dxf_copies.specs.PageViews.{read_of};
ghost use Rattle.dxf_copies.specs.Rendering.{number_at, coded_before, field_copies, crossings_of, first_handle};
ghost use Rattle.dxf_copies.specs.Rendering.{next_behind, text_as, text_of};

use crate::copies::{push_all_fields, push_handle};
use crate::handle_counts::{edit_handles, first_handle, handle_behind};
use crate::lengths::written_length;
use crate::pages::{Page, number_at};
use crate::texts::{
    crossings_of, first_entity, image_of, last_coded, push_lines, push_vertices, run_of,
};
use itoa::Buffer;
use sheet_base::{Edit, What, between, push_mm};
use std::alloc::{AllocError, Global};

/// How many bytes a written drawing has at most. One that could have more is answered as want of
/// memory, which is not asked for.
const MOST_WRITTEN: u64 = 2_147_483_648;

/// The handles that are given: the next one where an edit is, the first one, and the one after
/// all.
#[derive(Clone, Copy)]
struct Handles {
    next: u64,
    first: u64,
    behind: u64,
}

/// Appends the text of an edit that copies a vertex in fields.
fn push_crossings(
    page: &Page,
    place: u32,
    number: usize,
    point: u32,
    out: &mut Vec<u8>,
) -> Result<(), AllocError>
    requires number { number ≡ number_at (read_of page.now) place }
    requires within { number ≤ length page.now.pairs.now }
    ensures { OnOk result (out.new.items ≡ out.old.items ++ field_copies page.now.bytes.now (coded_before (read_of page.now) (pos 10) place)
        (coded_before (read_of page.now) (pos 20) place) (crossings_of page.now.images.now point)) }
{
    let crossings = crossings_of(page.images, point);
    if crossings.is_empty() {
        return Ok(());
    }
    let before = &page.pairs[..number];
    match (last_coded(10, before), last_coded(20, before)) {
        (Some(x), Some(y)) => push_all_fields(out, page.bytes, &x, &y, crossings),
        _ => Ok(()),
    }
}

/// Appends the text of an edit.
fn push_text(
    alloc: Global,
    page: &Page,
    handles: Handles,
    number: usize,
    edit: Edit,
    out: &mut Vec<u8>,
) -> Result<(), AllocError>
    requires number { number ≡ number_at (read_of page.now) edit.start }
    requires within { number ≤ length page.now.pairs.now }
    requires few { length page.now.images.now.points < 2 ^ 32 }
    requires next { handles.next < 2 ^ 63 }
    requires first { handles.first ≡ first_handle (read_of page.now) }
    requires behind { handles.behind ≡ next_behind (read_of page.now) }
    ensures { OnOk result (out.new.items ≡ out.old.items ++ text_as (read_of page.now) handles.next edit edit.what) }
{
    match edit.what {
        What::X { point } => push_mm(out, image_of(page.images, point).x),
        What::Y { point } => push_mm(out, image_of(page.images, point).y),
        What::Vertices { point } => push_crossings(page, edit.start, number, point, out),
        What::Tally { first, past } => {
            let mut digits = Buffer::new();
            let count = page.images.of_points(first, past).len();
            out.extend_from_slice(digits.format(count).as_bytes())?;
            Ok(())
        }
        What::Lines { path } => match first_entity(edit.start, &page.pairs[number..]) {
            Some(entity) => push_lines(alloc, out, page, &entity, handles.next, path),
            None => Ok(()),
        },
        What::Vertex { point } => match first_entity(edit.start, &page.pairs[number..]) {
            Some(entity) => push_vertices(
                alloc,
                out,
                page.bytes,
                &entity,
                handles.next,
                run_of(page.images, point),
            ),
            None => Ok(()),
        },
        What::NextHandle if handles.behind == handles.first => {
            out.extend_from_slice(between(page.bytes, edit.start as usize, edit.end as usize))?;
            Ok(())
        }
        What::NextHandle => push_handle(alloc, out, handles.behind),
        _ => Ok(()),
    }
}

/// The bytes of the page with the text of each edit in the place of its span.
pub fn render_page(alloc: Global, page: &Page) -> Result<Vec<u8>, AllocError>
    requires short { length page.now.bytes.now ≤ 2 ^ 26 }
    requires few { length page.now.images.now.points < 2 ^ 32 }
    requires order { AreInOrder 0 page.now.sheet.now.edits (length page.now.bytes.now) }
    ensures { IfOk result (λ out. out.items ≡ splice_of page.now.bytes.now (text_of (read_of page.now)) page.now.sheet.now.edits) }
{
    let first = first_handle(page);
    let behind = handle_behind(page, first);
    let mut next = first;
    let length = written_length(page);
    if length > MOST_WRITTEN {
        return Err(AllocError);
    }
    let mut out = Vec::with_capacity(alloc, length as usize)?;
    let mut from = 0;
    let mut number = 0;
    for edit in page.sheet.edits() {
        out.extend_from_slice(between(page.bytes, from, edit.start as usize))?;
        number = number_at(page, edit.start, number);
        push_text(
            alloc,
            page,
            Handles {
                next,
                first,
                behind,
            },
            number,
            *edit,
            &mut out,
        )?;
        next += edit_handles(page, *edit, number);
        from = edit.end as usize;
    }
    out.extend_from_slice(between(page.bytes, from, page.bytes.len()))?;
    Ok(out)
}
