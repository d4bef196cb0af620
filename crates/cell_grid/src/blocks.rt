//! The block of cells of a level that a box meets.

ghost use Rattle.std.specs.Prelude.{◌≡◌, ◌+◌, ◌*◌, ◌/◌, ◌%◌, ◌^◌, ◌<◌, ◌≤◌};

use crate::levels::Level;
use plane_base::{Pt, Rect};

/// A cell of a level: its column and its row, from the low corner on.
#[derive(Clone, Copy, Debug)]
pub(crate) struct Cell {
    pub(crate) column: u32,
    pub(crate) row: u32,
}

/// The cells of a level that a box meets, row after row.
#[derive(Clone, Copy, Debug)]
pub(crate) struct Block {
    column: u32,
    row: u32,
    columns: u32,
    rows: u32,
    ghost some: { 0 < columns },
    ghost across: { column + columns ≤ 2 ^ 31 },
    ghost up: { row + rows ≤ 2 ^ 31 },
}

impl Block {
    ghost use Rattle.cell_grid.specs.InsideBlocks.{IsBlockOf, place_at};
    ghost use Rattle.cell_grid.specs.Stripes.{IsPastCorner};

    /// The cells that the box meets.
    pub(crate) fn of(level: &Level, rect: &Rect) -> Self
        requires { IsPastCorner level.now.low rect.now }
        ensures { IsBlockOf level.now rect.now result }
    {
        let column = level.column(rect.x0);
        let row = level.row(rect.y0);
        Block {
            column,
            row,
            columns: level.column(rect.x1) - column + 1,
            rows: level.row(rect.y1) - row + 1,
        }
    }

    /// How many they are.
    pub(crate) fn count(&self) -> u64
        ensures { result ≡ self.now.columns * self.now.rows }
    {
        self.columns as u64 * self.rows as u64
    }

    /// One of them, from 0. The cells of the first two rows are found without a division.
    pub(crate) fn cell_at(&self, index: u32) -> Cell
        requires { index < self.now.columns * self.now.rows }
        ensures column { result.column ≡ self.now.column + index % self.now.columns }
        ensures row { result.row ≡ self.now.row + index / self.now.columns }
    {
        if index < self.columns {
            return Cell {
                column: self.column + index,
                row: self.row,
            };
        }
        let behind = index - self.columns;
        if behind < self.columns {
            return Cell {
                column: self.column + behind,
                row: self.row + 1,
            };
        }
        Cell {
            column: self.column + index % self.columns,
            row: self.row + index / self.columns,
        }
    }

    /// The place of one of them, from 0.
    pub(crate) fn place_at(&self, level: &Level, index: u32) -> u32
        requires { index < self.now.columns * self.now.rows }
        ensures place { result ≡ place_at level.now self.now index }
        ensures from { level.now.base ≤ result }
        ensures to { result ≤ level.now.base + level.now.mask }
    {
        let cell = self.cell_at(index);
        level.place(cell.column, cell.row)
    }
}
