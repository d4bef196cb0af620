//! The box of a triangle in a frame, and the grid over the boxes of all.

ghost use Rattle.std.specs.Prelude.{◌<◌, length, IfOk};
ghost use Rattle.tin_check.specs.TriangleBoxes.{IsBoxIn, AreBoxesIn};

use cell_grid::Grid;
use plane_base::Rect;
use std::alloc::{AllocError, Global};
use tin_base::{Frame, Tin};

/// A grid over the boxes of all triangles in a frame, in order.
pub fn grid_in(alloc: Global, tin: &Tin, frame: Frame) -> Result<Grid, AllocError>
    ensures { IfOk result (λ grid. AreBoxesIn tin.now frame (length tin.now.triangles) grid.boxes) }
{
    let mut boxes = Vec::with_capacity(alloc, tin.triangles().len())?;
    for triangle in 0..tin.triangle_count() {
        boxes.push(box_in(tin, triangle, frame))?;
    }
    let grid = Grid::build(alloc, &boxes)?;
    Ok(grid)
}

/// The box of a triangle in a frame, in millimetres.
pub fn box_in(tin: &Tin, triangle: u32, frame: Frame) -> Rect
    requires { triangle < length tin.now.triangles }
    ensures { IsBoxIn tin.now frame triangle result }
{
    Rect::of_triangle(&tin.tri(triangle, frame))
}
