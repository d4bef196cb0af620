//! The search for the first pair of triangles that does not fit, by a grid of their boxes.

ghost use Rattle.std.specs.Prelude.{◌≡◌, ◌+◌, ◌<◌, ◌≤◌, false, length, All, IfOk, IsTrue};
ghost use Rattle.std.specs.List.Sorted.{IsStrictlyIncreasing};
ghost use Rattle.tin_base.specs.Soundness.{DoFit};
ghost use Rattle.tin_check.specs.TriangleBoxes.{AreBoxesIn};
ghost use Rattle.tin_check.specs.InsideProgress.{ArePositive, DoFitBefore, DoAllFit, IsFirstFound, IsFirstFoundBelow};
ghost use Rattle.tin_check.specs.InsideProgress.{IsFirstSecond, DoOthersFit};

use crate::boxes::{box_in, grid_in};
use crate::pairs::{TrianglePair, pair_fits};
use cell_grid::{Grid, each_pair_is_told_once};
use plane_base::boxes_share_a_point_or_are_apart;
use std::alloc::{AllocError, Global};
use tin_base::{Frame, Tin};

/// The first pair of triangles, in order, that does not fit together in the frame. Only pairs whose boxes share a point
/// are looked at: once in any order, and in their order where one of them does not fit.
pub(crate) fn first_unfit_pair(
    alloc: Global,
    tin: &Tin,
    frame: Frame,
) -> Result<Option<TrianglePair>, AllocError>
    requires { ArePositive tin.now (length tin.now.triangles) }
    ensures { IfOk result (λ found. IsFirstFound tin.now frame found) }
{
    let grid = grid_in(alloc, tin, frame)?;
    let found = first_by_grid(alloc, tin, frame, &grid)?;
    Ok(found)
}

/// The first pair that does not fit, by a grid of the boxes.
fn first_by_grid(
    alloc: Global,
    tin: &Tin,
    frame: Frame,
    grid: &Grid,
) -> Result<Option<TrianglePair>, AllocError>
    requires positive { ArePositive tin.now (length tin.now.triangles) }
    requires boxes { AreBoxesIn tin.now frame (length tin.now.triangles) grid.now.boxes }
    ensures { IfOk result (λ found. IsFirstFound tin.now frame found) }
{
    if do_all_fit(alloc, tin, frame, grid)? {
        return Ok(None);
    }
    let found = first_in_order(alloc, tin, frame, grid, tin.triangle_count())?;
    Ok(found)
}

/// The same among the pairs whose first triangle is below `end`. No other pair is looked at.
pub(crate) fn first_unfit_pair_below(
    alloc: Global,
    tin: &Tin,
    frame: Frame,
    end: u32,
) -> Result<Option<TrianglePair>, AllocError>
    requires positive { ArePositive tin.now (length tin.now.triangles) }
    requires end { end ≤ length tin.now.triangles }
    ensures { IfOk result (λ found. IsFirstFoundBelow tin.now frame end found) }
{
    let grid = grid_in(alloc, tin, frame)?;
    let found = first_in_order(alloc, tin, frame, &grid, end)?;
    Ok(found)
}

/// Whether all pairs of triangles fit together in the frame. Each is looked at once.
fn do_all_fit(alloc: Global, tin: &Tin, frame: Frame, grid: &Grid) -> Result<bool, AllocError>
    requires positive { ArePositive tin.now (length tin.now.triangles) }
    requires boxes { AreBoxesIn tin.now frame (length tin.now.triangles) grid.now.boxes }
    ensures { IfOk result (λ fit. IsTrue fit → DoAllFit tin.now frame) }
{
    boxes_share_a_point_or_are_apart();
    each_pair_is_told_once();
    let mut partners = Vec::new(alloc);
    for triangle in 0..tin.triangle_count() {
        grid.partners(triangle, &mut partners)?;
        if !fits_each(tin, frame, triangle, &partners) {
            return Ok(false);
        }
    }
    Ok(true)
}

/// Whether a triangle fits together with each of some others.
fn fits_each(tin: &Tin, frame: Frame, triangle: u32, others: &[u32]) -> bool
    requires triangle { triangle < length tin.now.triangles }
    requires others { All (λ other. other < length tin.now.triangles) others.now }
    requires positive { ArePositive tin.now (length tin.now.triangles) }
    ensures { IsTrue result → All (λ other. DoFit tin.now frame triangle other) others.now }
{
    for other in others {
        if !pair_fits(tin, triangle, *other, frame) {
            return false;
        }
    }
    true
}

/// The first pair in order whose first triangle is below `end` and that does not fit together in the frame.
fn first_in_order(
    alloc: Global,
    tin: &Tin,
    frame: Frame,
    grid: &Grid,
    end: u32,
) -> Result<Option<TrianglePair>, AllocError>
    requires positive { ArePositive tin.now (length tin.now.triangles) }
    requires end { end ≤ length tin.now.triangles }
    requires boxes { AreBoxesIn tin.now frame (length tin.now.triangles) grid.now.boxes }
    ensures { IfOk result (λ found. IsFirstFoundBelow tin.now frame end found) }
{
    boxes_share_a_point_or_are_apart();
    for first in 0..end {
        let near = grid.near(alloc, box_in(tin, first, frame))?;
        if let Some(second) = first_unfit(tin, frame, first, &near) {
            return Ok(Some(TrianglePair { first, second }));
        }
    }
    Ok(None)
}

/// Of some triangles, in order, the first one after `first` that does not fit it in the frame. All pairs of a lower
/// first triangle fit, and so do the triangles after `first` that are left out.
fn first_unfit(tin: &Tin, frame: Frame, first: u32, seconds: &[u32]) -> Option<u32>
    requires first { first < length tin.now.triangles }
    requires positive { ArePositive tin.now (length tin.now.triangles) }
    requires before { DoFitBefore tin.now frame first 0 }
    requires in_range { All (λ second. second < length tin.now.triangles) seconds.now }
    requires in_order { IsStrictlyIncreasing seconds.now }
    requires others { DoOthersFit tin.now frame first seconds.now }
    ensures { IsFirstSecond tin.now frame first result }
{
    for second in seconds {
        if is_unfit(tin, frame, first, *second) {
            return Some(*second);
        }
    }
    None
}

/// Whether the second triangle comes after the first, and does not fit it in the frame.
fn is_unfit(tin: &Tin, frame: Frame, first: u32, second: u32) -> bool
    requires first { first < length tin.now.triangles }
    requires second { second < length tin.now.triangles }
    requires positive { ArePositive tin.now (length tin.now.triangles) }
    ensures behind { IsTrue result → first < second }
    ensures not_fit { IsTrue result → DoFit tin.now frame first second → ⊥ }
    ensures fit { result ≡ false → first < second → DoFit tin.now frame first second }
{
    if second <= first {
        return false;
    }
    !pair_fits(tin, first, second, frame)
}
