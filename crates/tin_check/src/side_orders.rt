//! Border sides in an order in which sides that are near each other mostly have near numbers.

ghost use Rattle.std.specs.Prelude.{◌≡◌, ◌<◌, ◌^◌, ◌++◌, All, IfOk, OnOk, length, map};
ghost use Rattle.tin_check.specs.InsideBorders.{AreSides, HasMore, side_at};
ghost use Rattle.tin_check.specs.InsideSideOrders.{AreNumbered};

use crate::borders::BorderSide;
use number_groups::{Entry, group};
use plane_base::{Pt, Rect};
use std::alloc::{AllocError, Global};
use tin_base::{Frame, Tin};

/// How many cells the map has on each axis.
const CELLS: u32 = 128;

/// How many keys there are: one for each cell.
const KEYS: u32 = CELLS * CELLS;

/// The sides in the order of the cells in which they begin.
pub(crate) fn sides_in_order(
    alloc: Global,
    tin: &Tin,
    frame: Frame,
    sides: &[BorderSide],
) -> Result<Vec<BorderSide>, AllocError>
    requires sides { AreSides tin.now sides.now }
    requires count { length sides.now < 2 ^ 32 }
    ensures more { IfOk result (λ ordered. HasMore sides.now ordered.items) }
    ensures sides { IfOk result (λ ordered. AreSides tin.now ordered.items) }
{
    let entries = entries_of(alloc, tin, frame, sides)?;
    let groups = group(alloc, &entries, KEYS)?;
    let mut ordered = Vec::with_capacity(alloc, sides.len())?;
    for key in 0..KEYS {
        put_sides(sides, groups.at(key), &mut ordered)?;
    }
    Ok(ordered)
}

/// An entry for each side, with the key of its cell and its number.
fn entries_of(
    alloc: Global,
    tin: &Tin,
    frame: Frame,
    sides: &[BorderSide],
) -> Result<Vec<Entry>, AllocError>
    requires sides { AreSides tin.now sides.now }
    requires count { length sides.now < 2 ^ 32 }
    ensures { IfOk result (λ entries. AreNumbered KEYS (length sides.now) entries.items) }
{
    let map = around_all(tin, frame, sides);
    let mut entries = Vec::with_capacity(alloc, sides.len())?;
    for (number, side) in sides.iter().enumerate() {
        let key = cell_key_of(&map, tin.place(side.from, frame));
        entries.push(Entry {
            key,
            number: number as u32,
        })?;
    }
    Ok(entries)
}

/// A box round where the sides begin.
fn around_all(tin: &Tin, frame: Frame, sides: &[BorderSide]) -> Rect
    requires sides { AreSides tin.now sides.now }
{
    let mut map = Rect {
        x0: 0,
        y0: 0,
        x1: 0,
        y1: 0,
    };
    for (number, side) in sides.iter().enumerate() {
        let p = tin.place(side.from, frame);
        map = if number == 0 {
            Rect::of_point(p)
        } else {
            map.with_point(p)
        };
    }
    map
}

/// The key of the cell that has the point: along a curve through all cells, quarter by quarter (Morton's order).
fn cell_key_of(map: &Rect, p: Pt) -> u32
    ensures { result < KEYS }
{
    let column = cell_of(map.x0, map.x1, p.x);
    let row = cell_of(map.y0, map.y1, p.y);
    (spread(column) | (spread(row) << 1)) % KEYS
}

/// The last eight binary digits of the number, with a 0 before each.
fn spread(number: u32) -> u32 {
    let fours = (number | (number << 4)) & 0x0f0f;
    let twos = (fours | (fours << 2)) & 0x3333;
    (twos | (twos << 1)) & 0x5555
}

/// The number of the cell that has the place on one axis.
fn cell_of(low: i64, high: i64, at: i64) -> u32 {
    let size = high.saturating_sub(low).unsigned_abs();
    let way = at.saturating_sub(low).unsigned_abs();
    let step = size / u64::from(CELLS) + 1;
    (way / step).min(u64::from(CELLS - 1)) as u32
}

/// Adds the sides with these numbers.
fn put_sides(
    sides: &[BorderSide],
    numbers: &[u32],
    ordered: &mut Vec<BorderSide>,
) -> Result<(), AllocError>
    requires { All (λ number. number < length sides.now) numbers.now }
    ensures { OnOk result (ordered.new.items ≡ ordered.old.items ++ map (side_at sides.now) numbers.now) }
{
    for number in numbers {
        ordered.push(sides[*number as usize])?;
    }
    Ok(())
}
