//! The search for the partners of a box on one level, each found in the cell of the least common point.

ghost use Rattle.std.specs.Prelude.{◌≡◌, ◌≢◌, ◌↔◌, ℕ, ◌<◌, ◌≤◌, ◌+◌, ◌*◌, ◌/◌, ◌%◌, ◌^◌, length, All, Contains, OnOk};
ghost use Rattle.std.specs.Prelude.{IsTrue};
ghost use Rattle.std.specs.List.Sorted.{IsStrictlyIncreasing};
ghost use Rattle.cell_grid.specs.declared.grids.TheConstants.{LIMIT};
ghost use Rattle.cell_grid.specs.Boxes.{box_at};
ghost use Rattle.cell_grid.specs.InsideSizes.{level_of};
ghost use Rattle.cell_grid.specs.Stripes.{IsPastCorner};
ghost use Rattle.cell_grid.specs.Around.{corner_of};
ghost use Rattle.cell_grid.specs.InsideOffsets.{rect_of};
ghost use Rattle.cell_grid.specs.Cells.{IsLevelOf, DoAscend};
ghost use Rattle.cell_grid.specs.InsideWindows.{IsBetween, AreBoundsOf, IsWindow};
ghost use Rattle.cell_grid.specs.InsideLevelPartners.{DoesTell, IsAsked, IsTold, IsTellable, IsToldFrom, IsPartnerOn};

use crate::blocks::{Block, Cell};
use crate::box_lists::BoxList;
use crate::levels::Level;
use crate::offsets::Offsets;
use crate::rects::level_of;
use number_groups::Groups;
use plane_base::Rect;
use std::alloc::AllocError;

/// A box that asks for its partners on a level, in the cells that it meets there, for numbers from `from` on.
#[derive(Clone, Copy, Debug)]
pub(crate) struct PartnerSearch {
    level: Level,
    rect: Rect,
    // the same box
    own: Offsets,
    block: Block,
    from: u32,
}

/// The numbers from the first to the last one.
#[derive(Clone, Copy, Debug)]
struct Bounds {
    first: u32,
    last: u32,
}

/// Where boxes begin whose least common point with the box that asks is in one of the cells.
#[derive(Clone, Copy, Debug)]
struct Window {
    // which of the cells, from 0
    index: u32,
    x: Bounds,
    y: Bounds,
}

/// Reports the partners of a box that are on a level, its own or one above, each once.
pub(crate) fn tell(
    level: &Level,
    cells: &Groups,
    boxes: &BoxList,
    number: u32,
    found: &mut Vec<u32>,
) -> Result<(), AllocError>
    requires level { IsLevelOf boxes.now.boxes cells.now level.now }
    requires ascending { DoAscend cells.now }
    requires low { corner_of boxes.now.around ≡ level.now.low }
    requires past { All (λ rect. IsPastCorner level.now.low rect) boxes.now.boxes }
    requires count { length boxes.now.boxes < LIMIT }
    requires number { number < length boxes.now.boxes }
    requires above { level_of (box_at boxes.now.boxes number) ≤ level.now.number }
    ensures { OnOk result (DoesTell (IsPartnerOn boxes.now.boxes number level.now.number) found.old.items found.new.items) }
{
    let asked = PartnerSearch::of(level, boxes, number);
    for index in 0..asked.block.count() as u32 {
        let cell = asked.block.cell_at(index);
        let numbers = cells.at(asked.level.place(cell.column, cell.row));
        asked.tell_among(asked.window(index, cell), numbers, boxes, found)?;
    }
    Ok(())
}

// The first number that can be after that of a box: the next one on its own level, and any on a level above.
fn first_meant(level: &Level, rect: &Rect, number: u32) -> u32
    requires { number < LIMIT }
    ensures own { level_of rect.now ≡ level.now.number → result ≡ number + 1 }
    ensures above { level_of rect.now ≢ level.now.number → result ≡ 0 }
{
    if level_of(rect) == level.number {
        number + 1
    } else {
        0
    }
}

impl PartnerSearch {
    // The box of a number, as it asks on this level.
    fn of(level: &Level, boxes: &BoxList, number: u32) -> Self
        requires low { corner_of boxes.now.around ≡ level.now.low }
        requires past { All (λ rect. IsPastCorner level.now.low rect) boxes.now.boxes }
        requires count { length boxes.now.boxes < LIMIT }
        requires number { number < length boxes.now.boxes }
        ensures is { IsAsked result }
        ensures level { result.level ≡ level.now }
        ensures rect { result.rect ≡ box_at boxes.now.boxes number }
        ensures own { level_of (box_at boxes.now.boxes number) ≡ level.now.number → result.from ≡ number + 1 }
        ensures above { level_of (box_at boxes.now.boxes number) ≢ level.now.number → result.from ≡ 0 }
    {
        let rect = boxes.rect(number);
        PartnerSearch {
            level: *level,
            rect,
            own: *boxes.offsets(number),
            block: Block::of(level, &rect),
            from: first_meant(level, &rect, number),
        }
    }

    // Where boxes begin that are reported at the cell of this index.
    fn window(&self, index: u32, cell: Cell) -> Window
        requires asked { IsAsked self.now }
        requires within { index < self.now.block.columns * self.now.block.rows }
        requires column { cell.column ≡ self.now.block.column + index % self.now.block.columns }
        requires row { cell.row ≡ self.now.block.row + index / self.now.block.columns }
        ensures index { result.index ≡ index }
        ensures window { IsWindow self.now result }
    {
        Window {
            index,
            x: bounds_in(&self.level, cell.column, self.own.x0, self.own.x1),
            y: bounds_in(&self.level, cell.row, self.own.y0, self.own.y1),
        }
    }

    // Reports those of the numbers that are reported at the cell of the window. They ascend, so it begins at the last
    // one and stops at the first one that is not asked for. What it compares with is best read where it is kept.
    #[inline(never)]
    fn tell_among(
        &self,
        window: Window,
        numbers: &[u32],
        boxes: &BoxList,
        found: &mut Vec<u32>,
    ) -> Result<(), AllocError>
        requires asked { IsAsked self.now }
        requires window { IsWindow self.now window }
        requires low { corner_of boxes.now.around ≡ self.now.level.low }
        requires past { All (λ rect. IsPastCorner self.now.level.low rect) boxes.now.boxes }
        requires ascending { IsStrictlyIncreasing numbers.now }
        requires numbers { (k : ℕ) → Contains numbers.now k → k < length boxes.now.boxes }
        ensures { OnOk result (DoesTell (IsToldFrom self.now boxes.now.boxes window.index numbers.now 0) found.old.items found.new.items) }
    {
        let mut left = numbers.len();
        while left > 0 {
            left -= 1;
            let number = numbers[left];
            if number < self.from {
                return Ok(());
            }
            self.tell_one(number, window, boxes, found)?;
        }
        Ok(())
    }

    // Reports a number that is asked for, if it is reported at the cell of the window.
    fn tell_one(
        &self,
        number: u32,
        window: Window,
        boxes: &BoxList,
        found: &mut Vec<u32>,
    ) -> Result<(), AllocError>
        requires asked { IsAsked self.now }
        requires window { IsWindow self.now window }
        requires low { corner_of boxes.now.around ≡ self.now.level.low }
        requires past { All (λ rect. IsPastCorner self.now.level.low rect) boxes.now.boxes }
        requires number { number < length boxes.now.boxes }
        requires from { self.now.from ≤ number }
        ensures { OnOk result (DoesTell (λ n. (n ≡ number)
            × IsTellable self.now boxes.now.boxes window.index n) found.old.items found.new.items) }
    {
        if !self.is_told(window, boxes.offsets(number)) {
            return Ok(());
        }
        found.push(number)?;
        Ok(())
    }

    // Whether the boxes have a common point, and the least one is in the cell of the window.
    fn is_told(&self, window: Window, other: &Offsets) -> bool
        requires asked { IsAsked self.now }
        requires window { IsWindow self.now window }
        requires past { IsPastCorner self.now.level.low (rect_of self.now.level.low other.now) }
        ensures { IsTrue result ↔ IsTold self.now window.index (rect_of self.now.level.low other.now) }
    {
        let wide = does_meet(window.x, self.own.x0, other.x0, other.x1);
        let high = does_meet(window.y, self.own.y0, other.y0, other.y1);
        wide & high
    }
}

// Where a span begins if the greater of where it and another span begin is in a stripe of the level, and not after
// the end of the other one.
fn bounds_in(level: &Level, stripe: u32, first: u32, last: u32) -> Bounds
    requires from { first / 2 ^ level.now.shift ≤ stripe }
    requires to { stripe ≤ last / 2 ^ level.now.shift }
    requires short { last < 2 ^ 31 }
    ensures { AreBoundsOf level.now.shift stripe first last result }
{
    let start = stripe * level.width();
    let end = start + (level.width() - 1);
    if start <= first {
        return Bounds {
            first: 0,
            last: last.min(end),
        };
    }
    Bounds {
        first: start,
        last: last.min(end),
    }
}

// Whether a span begins within the bounds, and does not end before `start`.
fn does_meet(bounds: Bounds, start: u32, first: u32, last: u32) -> bool
    ensures { IsTrue result ↔ IsBetween bounds first × (start ≤ last) }
{
    (bounds.first <= first) & (first <= bounds.last) & (start <= last)
}
