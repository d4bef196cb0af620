//! Triangles in which paths may begin, for layers whose paths stand in no order of places. Nothing rests on them: a
//! guess that is wrong costs only time.

ghost use Rattle.std.specs.Prelude.{◌≡◌, ◌<◌, ◌^◌, length, All, IfOk, OnOk};
ghost use Rattle.carry_map.specs.declared.guesses.TheConstants.{CELLS, SIDE};

use number_groups::{Entry, group};
use plane_base::{Pt, Rect};
use sheet_base::PathRow;
use std::alloc::{AllocError, Global};
use tin_index::TinIndex;

/// Layers of fewer paths are searched as they stand.
const FEW_PATHS: usize = 4096;

/// Fewer triangles are near at hand in any order.
const FEW_TRIANGLES: u32 = 1 << 15;

/// So many paths are compared with the one before.
const SAMPLES: usize = 1024;

/// Two to the power of this are the columns of cells, and as many the rows.
const SIDE_BITS: u32 = 9;

/// How many columns there are.
const SIDE: u32 = 1 << SIDE_BITS;

/// How many cells there are.
const CELLS: u32 = SIDE * SIDE;

/// For each path a triangle that may have its first point, where the paths are scattered. They are searched for cell by
/// cell: so the same triangles are read again and again, and not each from far memory. There is none where the paths
/// stand near each other, or the triangles are few.
pub(crate) fn guess_starts(
    alloc: Global,
    index: &TinIndex,
    points: &[Pt],
    paths: &[PathRow],
) -> Result<Vec<u32>, AllocError>
    requires { length paths.now < 2 ^ 32 }
{
    if index.tin().triangle_count() < FEW_TRIANGLES || !are_scattered(points, paths) {
        return Ok(Vec::new(alloc));
    }
    let entries = entries_of(alloc, points, paths)?;
    let cells = group(alloc, &entries, CELLS)?;
    let mut guesses = vec![in alloc; 0; paths.len()]?;
    for cell in 0..CELLS {
        search(index, points, paths, cells.at(cell), &mut guesses);
    }
    Ok(guesses)
}

/// Searches for the first points of these paths.
fn search(
    index: &TinIndex,
    points: &[Pt],
    paths: &[PathRow],
    numbers: &[u32],
    guesses: &mut [u32],
) {
    let mut last = 0;
    for number in numbers {
        if let Some(triangle) = index.locate_near(
            first_point(points, paths, *number as usize),
            last,
        ) {
            last = triangle;
            if let Some(guess) = guesses.get_mut(*number as usize) {
                *guess = triangle;
            }
        }
    }
}

/// Where a path begins, or any point where there is no such path.
fn first_point(points: &[Pt], paths: &[PathRow], number: usize) -> Pt {
    let none = Pt { x: 0, y: 0 };
    let Some(row) = paths.get(number) else {
        return none;
    };
    match points.get(row.first as usize) {
        Some(point) => *point,
        None => none,
    }
}

/// Whether most paths begin far from where the one before begins.
fn are_scattered(points: &[Pt], paths: &[PathRow]) -> bool {
    if paths.len() < FEW_PATHS {
        return false;
    }
    let stride = paths.len() / SAMPLES;
    let far = half_round(&box_of_starts(points, paths, SAMPLES, stride)) / 8;
    let mut count = 0_usize;
    for sample in 0..SAMPLES {
        let number = sample.saturating_mul(stride);
        let from = first_point(points, paths, number);
        let to = first_point(points, paths, number.saturating_add(1));
        if half_round(&Rect::of_segment(from, to)) > far {
            count = count.saturating_add(1);
        }
    }
    count > SAMPLES / 2
}

/// The box of the first points of this many paths, one in every `stride`.
fn box_of_starts(points: &[Pt], paths: &[PathRow], count: usize, stride: usize) -> Rect {
    let mut around = Rect::of_point(first_point(points, paths, 0));
    for place in 0..count {
        around = around.with_point(first_point(points, paths, place.saturating_mul(stride)));
    }
    around
}

/// How long the way round half of a box is.
fn half_round(rect: &Rect) -> i64 {
    rect.x1
        .saturating_sub(rect.x0)
        .saturating_add(rect.y1.saturating_sub(rect.y0))
}

/// Each path under the cell in which it begins.
fn entries_of(alloc: Global, points: &[Pt], paths: &[PathRow]) -> Result<Vec<Entry>, AllocError>
    requires { length paths.now < 2 ^ 32 }
    ensures cells { IfOk result (λ entries. All (λ entry. entry.key < CELLS) entries.items) }
    ensures count { IfOk result (λ entries. length entries.items ≡ length paths.now) }
{
    let around = box_of_starts(points, paths, paths.len(), 1);
    let shift = shift_of(&around);
    let mut entries = Vec::with_capacity(alloc, paths.len())?;
    for number in 0..paths.len() {
        let point = first_point(points, paths, number);
        let column = stripe(around.x0, point.x, shift);
        let row = stripe(around.y0, point.y, shift);
        entries.push(Entry {
            key: row * SIDE + column,
            number: number as u32,
        })?;
    }
    Ok(entries)
}

/// Cells of two to the power of this are wide enough for all of the box.
fn shift_of(around: &Rect) -> u32
    ensures { result < 64 }
{
    let size = half_round(around).max(1);
    (63 - size.leading_zeros()).saturating_sub(SIDE_BITS - 1)
}

/// The number of the stripe that has this place, from the least one on.
fn stripe(low: i64, place: i64, shift: u32) -> u32
    requires { shift < 64 }
    ensures { result < SIDE }
{
    ((place.saturating_sub(low).cast_unsigned() >> shift) % u64::from(SIDE)) as u32
}
