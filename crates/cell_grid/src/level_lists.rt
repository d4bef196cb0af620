//! The levels of a grid: how many boxes each has, how wide its cells are, and where its places begin.

ghost use Rattle.std.specs.Prelude.{◌≡◌, ◌+◌, ◌^◌, ◌<◌, ◌≤◌, ℕ, [], ◌∷◌, ◌++◌, length, All, Contains, IfOk, OnOk};
ghost use Rattle.std.specs.Prelude.{slice_index};
ghost use Rattle.std.specs.List.Sorted.{IsStrictlyIncreasing};
ghost use Rattle.cell_grid.specs.declared.grids.TheConstants.{LIMIT};
ghost use Rattle.cell_grid.specs.InsideSizes.{level_of, AreOfLevels};
ghost use Rattle.cell_grid.specs.LevelLists.{AreLaid};
ghost use Rattle.cell_grid.specs.Boxes.{AreOrdered};
ghost use Rattle.cell_grid.specs.Around.{IsAround, corner_of};

use crate::LIMIT;
use crate::levels::Level;
use crate::rects::level_of;
use crate::widths::{area_of, narrow_crowded, widest};
use plane_base::{Pt, Rect};
use std::alloc::{AllocError, Global};

/// How many boxes each level has, from level 0 to the greatest level of a box.
pub(crate) fn counts_of(alloc: Global, boxes: &[Rect]) -> Result<Vec<u32>, AllocError>
    requires sizes { AreOfLevels 32 boxes.now }
    requires count { length boxes.now < LIMIT }
    ensures of_levels { IfOk result (λ counts. AreOfLevels (length counts.items) boxes.now) }
    ensures few { IfOk result (λ counts. length counts.items ≤ 32) }
    ensures some { IfOk result (λ counts. All (λ rect. 0 < slice_index counts.items (level_of rect)) boxes.now) }
{
    let mut counts = vec![in alloc; 0; level_count(boxes)]?;
    for rect in boxes {
        counts[level_of(rect) as usize] += 1;
    }
    Ok(counts)
}

/// The numbers of the levels that have boxes, ascending.
pub(crate) fn used_levels(alloc: Global, counts: &[u32]) -> Result<Vec<u32>, AllocError>
    requires few { length counts.now ≤ 32 }
    ensures ascending { IfOk result (λ used. IsStrictlyIncreasing used.items) }
    ensures below { IfOk result (λ used. All (λ level. level < length counts.now) used.items) }
    ensures few { IfOk result (λ used. length used.items ≤ length counts.now) }
    ensures each { IfOk result (λ used. (level : ℕ) → level < length counts.now → 0 < slice_index counts.now level
        → Contains used.items level) }
{
    let mut used = Vec::with_capacity(alloc, counts.len())?;
    for number in 0..counts.len() {
        add_used(counts[number], number as u32, &mut used)?;
    }
    Ok(used)
}

// Puts the number of a level after the others, if the level has boxes.
fn add_used(count: u32, number: u32, used: &mut Vec<u32>) -> Result<(), AllocError>
    ensures some { 0 < count → OnOk result (used.new.items ≡ used.old.items ++ number ∷ []) }
    ensures none { count ≡ 0 → OnOk result (used.new.items ≡ used.old.items) }
{
    if count == 0 {
        return Ok(());
    }
    used.push(number)?;
    Ok(())
}

/// A level for each count of boxes, with their places one after another. The cells of each are as wide as the spread of
/// its boxes allows.
pub(crate) fn levels_for(
    alloc: Global,
    boxes: &[Rect],
    counts: &[u32],
    around: &Rect,
) -> Result<Vec<Level>, AllocError>
    requires few { length counts.now ≤ 32 }
    requires of_levels { AreOfLevels (length counts.now) boxes.now }
    requires ordered { AreOrdered boxes.now }
    requires around { IsAround around.now boxes.now }
    ensures count { IfOk result (λ levels. length levels.items ≡ length counts.now) }
    ensures laid { IfOk result (λ levels. AreLaid levels.items) }
    ensures low { IfOk result (λ levels. All (λ level. level.low ≡ corner_of around.now) levels.items) }
{
    let low = Pt {
        x: around.x0,
        y: around.y0,
    };
    let mut levels = even_levels(alloc, counts, low, area_of(around))?;
    narrow_crowded(alloc, boxes, &mut levels)?;
    Ok(levels)
}

// A level for each count of boxes. The cells of each are as wide as they can be if its boxes are spread evenly over an
// area, in square millimetres.
fn even_levels(alloc: Global, counts: &[u32], low: Pt, area: u64) -> Result<Vec<Level>, AllocError>
    requires few { length counts.now ≤ 32 }
    ensures count { IfOk result (λ levels. length levels.items ≡ length counts.now) }
    ensures laid { IfOk result (λ levels. AreLaid levels.items) }
    ensures low { IfOk result (λ levels. All (λ level. level.low ≡ low) levels.items) }
{
    let top = counts.len() as u32;
    let mut levels = Vec::with_capacity(alloc, counts.len())?;
    let mut base = 0;
    for number in 0..counts.len() {
        let shift = widest(number as u32, top, area, counts[number]);
        let level = Level::new(low, number as u32, shift, base, counts[number]);
        base = level.base + level.mask + 1;
        levels.push(level)?;
    }
    Ok(levels)
}

/// How many places the levels have.
pub(crate) fn place_count(levels: &[Level]) -> u32
    requires { AreLaid levels.now }
    ensures all { All (λ level. level.base + level.mask < result) levels.now }
    ensures few { result ≤ 2 ^ 31 }
{
    match levels.last() {
        Some(level) => level.base + level.mask + 1,
        None => 0,
    }
}

// One more than the greatest level of these boxes, 0 where there are none.
fn level_count(boxes: &[Rect]) -> usize
    requires sizes { AreOfLevels 32 boxes.now }
    ensures of_levels { AreOfLevels result boxes.now }
    ensures few { result ≤ 32 }
{
    let mut count = 0;
    for rect in boxes {
        count = count.max(level_of(rect) as usize + 1);
    }
    count
}
