//! The search for the boxes of a level that share a point with a box.

ghost use Rattle.std.specs.Prelude.{◌≡◌, ℕ, ◌<◌, ◌*◌, ◌+◌, ◌^◌, length, Contains, OnOk};
ghost use Rattle.plane_base.specs.Boxes.{IsOrdered};
ghost use Rattle.cell_grid.specs.Boxes.{AreOrdered};
ghost use Rattle.cell_grid.specs.Stripes.{IsPastCorner};
ghost use Rattle.cell_grid.specs.Cells.{HasPlacesOf, HasNumbersBelow};
ghost use Rattle.cell_grid.specs.InsideBlocks.{place_at};
ghost use Rattle.cell_grid.specs.InsideSearches.{DoesFind, StandsIn, StandsBefore};

use crate::blocks::Block;
use crate::box_lists::BoxList;
use crate::levels::Level;
use number_groups::Groups;
use plane_base::Rect;
use std::alloc::AllocError;

/// Finds the boxes of a level that share a point with `r`, a box in several cells in each of them. `cut` is the part of
/// `r` where boxes can be. Where `cut` meets more cells than the level has places, it looks at all places.
pub(crate) fn find(
    level: &Level,
    cells: &Groups,
    boxes: &BoxList,
    cut: &Rect,
    r: &Rect,
    found: &mut Vec<u32>,
) -> Result<(), AllocError>
    requires places { HasPlacesOf level.now cells.now }
    requires numbers { HasNumbersBelow (length boxes.now.boxes) cells.now }
    requires ordered { AreOrdered boxes.now.boxes }
    requires cut { IsPastCorner level.now.low cut.now }
    requires r { IsOrdered r.now }
    ensures { OnOk result (DoesFind boxes.now.boxes r.now (StandsIn level.now cells.now cut.now) found.old.items found.new.items) }
{
    let block = Block::of(level, cut);
    if block.count() > level.mask as u64 {
        find_everywhere(level, cells, boxes, r, found)?;
        return Ok(());
    }
    find_in_block(level, &block, cells, boxes, r, found)?;
    Ok(())
}

// Looks at all places of the level.
fn find_everywhere(
    level: &Level,
    cells: &Groups,
    boxes: &BoxList,
    r: &Rect,
    found: &mut Vec<u32>,
) -> Result<(), AllocError>
    requires places { HasPlacesOf level.now cells.now }
    requires numbers { HasNumbersBelow (length boxes.now.boxes) cells.now }
    requires ordered { AreOrdered boxes.now.boxes }
    requires r { IsOrdered r.now }
    ensures { OnOk result (DoesFind boxes.now.boxes r.now
        (StandsBefore cells.now (λ k. level.now.base + k) (level.now.mask + 1)) found.old.items found.new.items) }
{
    for index in 0..level.mask + 1 {
        find_among(cells.at(level.base + index), boxes, r, found)?;
    }
    Ok(())
}

// Looks at the places of the cells of the block.
fn find_in_block(
    level: &Level,
    block: &Block,
    cells: &Groups,
    boxes: &BoxList,
    r: &Rect,
    found: &mut Vec<u32>,
) -> Result<(), AllocError>
    requires few { block.now.columns * block.now.rows < 2 ^ 32 }
    requires places { HasPlacesOf level.now cells.now }
    requires numbers { HasNumbersBelow (length boxes.now.boxes) cells.now }
    requires ordered { AreOrdered boxes.now.boxes }
    requires r { IsOrdered r.now }
    ensures { OnOk result (DoesFind boxes.now.boxes r.now
        (StandsBefore cells.now (place_at level.now block.now) (block.now.columns * block.now.rows)) found.old.items
        found.new.items) }
{
    for index in 0..block.count() as u32 {
        find_among(cells.at(block.place_at(level, index)), boxes, r, found)?;
    }
    Ok(())
}

// Finds those of some boxes that share a point with `r`.
fn find_among(
    numbers: &[u32],
    boxes: &BoxList,
    r: &Rect,
    found: &mut Vec<u32>,
) -> Result<(), AllocError>
    requires numbers { (k : ℕ) → Contains numbers.now k → k < length boxes.now.boxes }
    requires ordered { AreOrdered boxes.now.boxes }
    requires r { IsOrdered r.now }
    ensures { OnOk result (DoesFind boxes.now.boxes r.now (Contains numbers.now) found.old.items found.new.items) }
{
    for number in numbers {
        find_one(*number, boxes, r, found)?;
    }
    Ok(())
}

// Finds a box if it shares a point with `r`.
fn find_one(number: u32, boxes: &BoxList, r: &Rect, found: &mut Vec<u32>) -> Result<(), AllocError>
    requires number { number < length boxes.now.boxes }
    requires ordered { AreOrdered boxes.now.boxes }
    requires r { IsOrdered r.now }
    ensures { OnOk result (DoesFind boxes.now.boxes r.now (λ n. n ≡ number) found.old.items found.new.items) }
{
    if !boxes.rect(number).shares_a_point(r) {
        return Ok(());
    }
    found.push(number)?;
    Ok(())
}
