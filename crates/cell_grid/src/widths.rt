//! How wide the cells of the levels are. Any width from that of the boxes on is right: wide cells are quick for a box
//! that is much larger than those of the level, as long as they are not crowded.
ghost use Rattle.std.specs.Prelude.{◌≡◌, length, All, IfOk, OnOk};
ghost use Rattle.cell_grid.specs.InsideSizes.{AreOfLevels};
ghost use Rattle.cell_grid.specs.Stripes.{IsPastCorner};
ghost use Rattle.cell_grid.specs.LevelLists.{AreLaid, HasSamePlaces, HaveSamePlaces};

use crate::level_lists::place_count;
use crate::levels::Level;
use crate::rects::level_of;
use plane_base::Rect;
use std::alloc::{AllocError, Global};

/// How often the cells are made narrower at most.
const ROUNDS: u32 = 16;

/// A level is crowded where it has more pairs of boxes that begin in one cell than this times its places.
const CROWD: u64 = 4;

/// The area of a box in square millimetres, its border included.
pub(crate) fn area_of(rect: &Rect) -> u64 {
    let wide = rect.x1.abs_diff(rect.x0).saturating_add(1);
    let high = rect.y1.abs_diff(rect.y0).saturating_add(1);
    wide.saturating_mul(high)
}

/// How many binary digits the width of cells may have, so that each has about one of `count` boxes if these are spread
/// evenly over the area. Levels next to the highest, which is below `top`, keep the width of their boxes, and so do
/// levels without boxes.
pub(crate) fn widest(number: u32, top: u32, area: u64, count: u32) -> u32 {
    if count == 0 || number.saturating_add(2) >= top {
        return number;
    }
    let share = area / u64::from(count);
    let even = 63_u32.saturating_sub(share.leading_zeros()) / 2;
    even.min(top)
}

/// Makes the cells of crowded levels narrower, step by step.
pub(crate) fn narrow_crowded(
    alloc: Global,
    boxes: &[Rect],
    levels: &mut Vec<Level>,
) -> Result<(), AllocError>
    requires laid { AreLaid levels.old.items }
    requires of_levels { AreOfLevels (length levels.old.items) boxes.now }
    requires past { All (λ level. All (λ rect. IsPastCorner level.low rect) boxes.now) levels.old.items }
    ensures { OnOk result (HaveSamePlaces levels.old.items levels.new.items) }
{
    for _round in 0..ROUNDS {
        if !has_wide(levels) {
            return Ok(());
        }
        let pairs = pairs_in_places(alloc, boxes, levels)?;
        if !narrow(levels, &pairs) {
            return Ok(());
        }
    }
    Ok(())
}

// Whether a level has cells that can be made narrower.
fn has_wide(levels: &[Level]) -> bool {
    for level in levels {
        if level.is_wide() {
            return true;
        }
    }
    false
}

// For each level whose cells can be made narrower: how many pairs of its boxes begin at one place.
fn pairs_in_places(alloc: Global, boxes: &[Rect], levels: &[Level]) -> Result<Vec<u64>, AllocError>
    requires laid { AreLaid levels.now }
    requires of_levels { AreOfLevels (length levels.now) boxes.now }
    requires past { All (λ level. All (λ rect. IsPastCorner level.low rect) boxes.now) levels.now }
    ensures { IfOk result (λ pairs. length pairs.items ≡ length levels.now) }
{
    let mut counts = vec![in alloc; 0_u32; place_count(levels) as usize]?;
    let mut pairs = vec![in alloc; 0_u64; levels.len()]?;
    for number in 0..boxes.len() {
        let rect = &boxes[number];
        let level = &levels[level_of(rect) as usize];
        if level.is_wide() {
            let place = level.place(level.column(rect.x0), level.row(rect.y0)) as usize;
            let own = level_of(rect) as usize;
            pairs[own] = pairs[own].saturating_add(u64::from(counts[place]));
            counts[place] = counts[place].saturating_add(1);
        }
    }
    Ok(pairs)
}

// Makes the cells of the levels with too many pairs narrower. Answers whether there was one.
fn narrow(levels: &mut Vec<Level>, pairs: &[u64]) -> bool
    requires { length pairs.now ≡ length levels.old.items }
    ensures { HaveSamePlaces levels.old.items levels.new.items }
{
    let mut narrowed = false;
    for number in 0..levels.len() {
        let level = fit_width(levels[number], pairs[number]);
        narrowed = narrowed || level.shift < levels[number].shift;
        levels[number] = level;
    }
    narrowed
}

// The level, with narrower cells if it has too many pairs of boxes that begin at one place.
fn fit_width(level: Level, pairs: u64) -> Level
    ensures { HasSamePlaces level result }
{
    if level.is_wide() && pairs > CROWD * (u64::from(level.mask) + 1) {
        return level.with_narrower_cells();
    }
    level
}
