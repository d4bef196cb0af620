//! One box by its offsets from a low corner.
ghost use Rattle.std.specs.Prelude.{◌≡◌};
ghost use Rattle.cell_grid.specs.Stripes.{IsPast, IsPastCorner};
ghost use Rattle.cell_grid.specs.Around.{corner_of};
ghost use Rattle.cell_grid.specs.InsideOffsets.{rect_of, IsOffset};

use plane_base::Rect;

/// A box by how far its sides are from the low corner of all boxes, in millimetres: half the room of the box itself.
#[derive(Clone, Copy, Debug)]
pub(crate) struct Offsets {
    pub(crate) x0: u32,
    pub(crate) y0: u32,
    pub(crate) x1: u32,
    pub(crate) y1: u32,
}

impl Offsets {
    /// The offsets of a box from the low corner of a box round it.
    pub(crate) fn of(around: &Rect, rect: &Rect) -> Self
        requires { IsPastCorner (corner_of around.now) rect.now }
        ensures { rect_of (corner_of around.now) result ≡ rect.now }
    {
        Offsets {
            x0: offset(around.x0, rect.x0),
            y0: offset(around.y0, rect.y0),
            x1: offset(around.x0, rect.x1),
            y1: offset(around.y0, rect.y1),
        }
    }
}

/// How far `x` is past `low`.
pub(crate) fn offset(low: i64, x: i64) -> u32
    requires { IsPast low x }
    ensures { IsOffset low result x }
{
    (x - low) as u32
}
