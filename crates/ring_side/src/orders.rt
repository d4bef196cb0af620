//! The numbers of boxes, in an order where boxes near each other mostly follow each other.
ghost use Rattle.std.specs.Prelude.{◌≡◌, ◌≤◌, ◌%◌, ◌^◌, length, map, IfOk};
ghost use Rattle.ring_side.specs.InsideOrders.{IsOrder};

use plane_base::Rect;
use std::alloc::{AllocError, Global};

/// The numbers of the boxes from 0, ordered along a curve through the plane. The order serves speed alone.
pub(crate) fn order_of(alloc: Global, boxes: &[Rect]) -> Result<Vec<u32>, AllocError>
    requires { length boxes.now ≤ 2 ^ 32 }
    ensures { IfOk result (λ order. IsOrder (length boxes.now) order.items) }
{
    let entries = sorted_entries(alloc, boxes)?;
    let mut order = Vec::with_capacity(alloc, entries.len())?;
    for entry in &entries {
        order.push(number_of(*entry))?;
    }
    Ok(order)
}

// An entry for each box, sorted.
fn sorted_entries(alloc: Global, boxes: &[Rect]) -> Result<Vec<u64>, AllocError>
    requires { length boxes.now ≤ 2 ^ 32 }
    ensures { IfOk result (λ entries. IsOrder (length boxes.now) (map (λ e. e % 2 ^ 32) entries.items)) }
{
    let around = around_all(boxes);
    let mut entries = Vec::with_capacity(alloc, boxes.len())?;
    for number in 0..boxes.len() {
        entries.push(entry(key(&boxes[number], &around), number as u32))?;
    }
    entries.sort_unstable();
    Ok(entries)
}

// A box round them.
fn around_all(boxes: &[Rect]) -> Rect {
    let mut around = Rect {
        x0: 0,
        y0: 0,
        x1: 0,
        y1: 0,
    };
    if let Some(first) = boxes.first() {
        around = *first;
    }
    for rect in boxes {
        around = around.with_box(rect);
    }
    around
}

// A key, and then a number.
fn entry(key: u32, number: u32) -> u64
    ensures { result % 2 ^ 32 ≡ number }
{
    u64::from(key) * (1 << 32) + u64::from(number)
}

// The number of an entry.
fn number_of(entry: u64) -> u32
    ensures { result ≡ entry % 2 ^ 32 }
{
    (entry % (1 << 32)) as u32
}

// The place of a box's middle on Hilbert's curve through the cells: two bits for each bit of both coordinates, from the
// highest one.
fn key(rect: &Rect, around: &Rect) -> u32 {
    let mut x = cell(rect.x0, rect.x1, around.x0, around.x1);
    let mut y = cell(rect.y0, rect.y1, around.y0, around.y1);
    let mut key = 0_u32;
    for _ in 0..16 {
        let right = x.wrapping_shr(15) & 1;
        let upper = y.wrapping_shr(15) & 1;
        key = key.wrapping_shl(2) | (right.wrapping_mul(3) ^ upper);
        let turned = turned_bits(x, y, right, upper);
        x = (x ^ turned).wrapping_shl(1);
        y = (y ^ turned).wrapping_shl(1);
    }
    key
}

// Which bits of both coordinates the curve turns in a quarter. In the lower quarters it goes with the axes exchanged,
// and in the right one of these backwards.
fn turned_bits(x: u32, y: u32, right: u32, upper: u32) -> u32 {
    let lower = upper.wrapping_sub(1);
    let backwards = 0_u32.wrapping_sub(right);
    (x ^ y ^ backwards) & lower
}

// In which of at most 2^16 equal steps from `low` to `high` the middle of two numbers is.
fn cell(first: i64, last: i64, low: i64, high: i64) -> u32 {
    let step = high.abs_diff(low) / (1 << 15) + 1;
    let twice = first.abs_diff(low).wrapping_add(last.abs_diff(low));
    (twice / step).min(0xffff) as u32
}
