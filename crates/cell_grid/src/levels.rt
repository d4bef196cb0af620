//! A level of a grid: its cells, and the places where they are kept.

ghost use Rattle.std.specs.Prelude.{◌≡◌, ◌+◌, ◌*◌, ◌^◌, ◌<◌, ◌≤◌};
ghost use Rattle.cell_grid.specs.Stripes.{IsPast, stripe_of};

use crate::LIMIT;
use crate::offsets::offset;
use plane_base::Pt;

/// A level: the boxes whose longer side has `number` binary digits, and their cells. The cells begin at a low corner,
/// and each is two to the power of `shift` millimetres wide and high, which is more than the sides of the boxes. There
/// are about as many places for cells as boxes, so that some cells share one.
#[derive(Clone, Copy, Debug)]
pub(crate) struct Level {
    pub(crate) low: Pt,
    pub(crate) number: u32,
    pub(crate) shift: u32,
    /// the first place of the level
    pub(crate) base: u32,
    /// how many places come after the first, all digits of it being 1
    pub(crate) mask: u32,
    // by how many places a row comes after the one below it
    skew: u32,
    ghost wide: { number ≤ shift },
    ghost short: { shift < 32 },
    ghost few: { base + mask < 2 ^ 31 },
}

impl Level {
    ghost use Rattle.cell_grid.specs.Cells.{column_of, row_of, place_of};
    ghost use Rattle.cell_grid.specs.LevelLists.{HasSamePlaces};

    /// A level with room for this many boxes. Its cells are as wide as `shift` says, but no less than its boxes need.
    pub(crate) fn new(low: Pt, number: u32, shift: u32, base: u32, count: u32) -> Self
        requires number { number < 32 }
        requires base { base ≤ number * 2 ^ 24 }
        ensures low { result.low ≡ low }
        ensures number { result.number ≡ number }
        ensures base { result.base ≡ base }
        ensures few { result.base + result.mask + 1 ≤ (number + 1) * 2 ^ 24 }
    {
        let size = count.min(LIMIT as u32).next_power_of_two();
        Level {
            low,
            number,
            shift: shift.min(31).max(number),
            base,
            mask: size - 1,
            skew: skew_of(size),
        }
    }

    /// Whether the cells are wider than the boxes of the level need.
    pub(crate) fn is_wide(&self) -> bool {
        self.shift > self.number
    }

    /// The level with cells of a quarter of the width, but no less than its boxes need.
    pub(crate) fn with_narrower_cells(&self) -> Self
        ensures { HasSamePlaces self.now result }
    {
        Level {
            low: self.low,
            number: self.number,
            shift: self.shift.saturating_sub(2).max(self.number),
            base: self.base,
            mask: self.mask,
            skew: self.skew,
        }
    }

    /// The column that has `x`, from the low corner on.
    pub(crate) fn column(&self, x: i64) -> u32
        requires { IsPast self.now.low.x x }
        ensures column { result ≡ column_of self.now x }
        ensures within { result < 2 ^ 31 }
    {
        stripe(self.low.x, self.shift, x)
    }

    /// The row that has `y`, from the low corner on.
    pub(crate) fn row(&self, y: i64) -> u32
        requires { IsPast self.now.low.y y }
        ensures row { result ≡ row_of self.now y }
        ensures within { result < 2 ^ 31 }
    {
        stripe(self.low.y, self.shift, y)
    }

    /// How wide and how high its cells are, in millimetres.
    pub(crate) fn width(&self) -> u32
        ensures { result ≡ 2 ^ self.now.shift }
    {
        1 << self.shift
    }

    /// The place of a cell. Neighbours have places of their own where there are eight places or more.
    pub(crate) fn place(&self, column: u32, row: u32) -> u32
        ensures place { result ≡ place_of self.now column row }
        ensures from { self.now.base ≤ result }
        ensures to { result ≤ self.now.base + self.now.mask }
    {
        self.base + (self.skew.wrapping_mul(row).wrapping_add(column) & self.mask)
    }
}

// The number of the stripe that has `x`, where stripes of two to the power of `shift` millimetres begin at `low`.
fn stripe(low: i64, shift: u32, x: i64) -> u32
    requires past { IsPast low x }
    requires short { shift < 32 }
    ensures stripe { result ≡ stripe_of low shift x }
    ensures within { result < 2 ^ 31 }
{
    offset(low, x) >> shift
}

// By how many places a row comes after the one below it: near the golden section of `size`, so that rows far apart
// seldom meet, and five more than a multiple of eight.
fn skew_of(size: u32) -> u32
    requires { size < 2 ^ 25 }
{
    (size as u64 * 2_654_435_769 / 4_294_967_296) as u32 / 8 * 8 + 5
}
