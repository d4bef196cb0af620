//! The table of cells: each box's number in each cell of its level that the box meets.

ghost use Rattle.std.specs.Prelude.{◌≡◌, ◌^◌, ◌<◌, ◌++◌, length, map, All, IfOk, OnOk};
ghost use Rattle.cell_grid.specs.declared.grids.TheConstants.{LIMIT};
ghost use Rattle.cell_grid.specs.InsideSizes.{longer_side, AreOfLevels};
ghost use Rattle.cell_grid.specs.Stripes.{IsPastCorner};
ghost use Rattle.cell_grid.specs.Cells.{IsLevelOf, DoAscend, HasNumbersBelow};
ghost use Rattle.cell_grid.specs.LevelLists.{AreLaid};
ghost use Rattle.cell_grid.specs.InsideEntries.{ArePlacesOf, AreEntered, entry_of, DoesKeep};

use crate::blocks::Block;
use crate::level_lists::place_count;
use crate::levels::Level;
use crate::rects::level_of;
use number_groups::{Entry, Groups, group};
use plane_base::Rect;
use std::alloc::{AllocError, Global};

/// The numbers of the boxes in the cells of all levels, by the places of the cells.
pub(crate) fn cells_of(
    alloc: Global,
    boxes: &[Rect],
    levels: &[Level],
) -> Result<Groups, AllocError>
    requires laid { AreLaid levels.now }
    requires of_levels { AreOfLevels (length levels.now) boxes.now }
    requires past { All (λ level. All (λ rect. IsPastCorner level.low rect) boxes.now) levels.now }
    requires count { length boxes.now < LIMIT }
    ensures levels { IfOk result (λ cells. All (λ level. IsLevelOf boxes.now cells level) levels.now) }
    ensures ascending { IfOk result (λ cells. DoAscend cells) }
    ensures numbers { IfOk result (λ cells. HasNumbersBelow (length boxes.now) cells) }
{
    let entries = entries_of(alloc, boxes, levels)?;
    let cells = group(alloc, &entries, place_count(levels))?;
    Ok(cells)
}

// An entry for each place of the cells that a box meets on its level, under the place, in the order of the boxes.
fn entries_of(alloc: Global, boxes: &[Rect], levels: &[Level]) -> Result<Vec<Entry>, AllocError>
    requires laid { AreLaid levels.now }
    requires of_levels { AreOfLevels (length levels.now) boxes.now }
    requires past { All (λ level. All (λ rect. IsPastCorner level.low rect) boxes.now) levels.now }
    requires count { length boxes.now < LIMIT }
    ensures { IfOk result (λ entries. AreEntered boxes.now (length boxes.now) levels.now entries.items) }
{
    let mut places = Vec::with_capacity(alloc, 4)?;
    let mut entries = Vec::with_capacity(alloc, boxes.len())?;
    for number in 0..boxes.len() {
        let rect = &boxes[number];
        collect(&levels[level_of(rect) as usize], rect, &mut places)?;
        enter(number as u32, &places, &mut entries)?;
    }
    Ok(entries)
}

// The places of the cells that a box of the level meets, each once.
fn collect(level: &Level, rect: &Rect, places: &mut Vec<u32>) -> Result<(), AllocError>
    requires past { IsPastCorner level.now.low rect.now }
    requires size { longer_side rect.now < 2 ^ level.now.shift }
    ensures { OnOk result (ArePlacesOf level.now rect.now places.new.items) }
{
    places.clear();
    let block = Block::of(level, rect);
    for index in 0..block.count() as u32 {
        add_once(block.place_at(level, index), places)?;
    }
    Ok(())
}

// Puts a place after the others, unless it is among them.
fn add_once(place: u32, places: &mut Vec<u32>) -> Result<(), AllocError>
    ensures { OnOk result (DoesKeep place places.old.items places.new.items) }
{
    if !places.contains(&place) {
        places.push(place)?;
    }
    Ok(())
}

// Puts an entry of the number under each place after the others.
fn enter(number: u32, places: &[u32], entries: &mut Vec<Entry>) -> Result<(), AllocError>
    ensures { OnOk result (entries.new.items ≡ entries.old.items ++ map (entry_of number) places.now) }
{
    for place in places {
        entries.push(Entry {
            key: *place,
            number,
        })?;
    }
    Ok(())
}
