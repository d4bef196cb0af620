//! The grid over boxes, and its queries: boxes near a box, in the cell of a point, and partners of a box.

ghost use Rattle.std.specs.Prelude.{◌≡◌, ◌↔◌, ℕ, ◌<◌, length, All, Contains, IfOk, OnOk};
ghost use Rattle.std.specs.List.Sorted.{IsStrictlyIncreasing};
ghost use Rattle.plane_base.specs.Boxes.{IsOrdered};
ghost use Rattle.cell_grid.specs.Boxes.{AreOrdered, AreWithinSpan, AreBoxesAt, IsHolder};
ghost use Rattle.cell_grid.specs.Grids.{level_at};
ghost use Rattle.cell_grid.specs.Partners.{ArePartners};
ghost use Rattle.cell_grid.specs.InsideLevelPartners.{DoesTell, IsPartnerAt};

use crate::box_lists::BoxList;
use crate::entries::cells_of;
use crate::level_lists::{counts_of, levels_for, used_levels};
use crate::level_partners::tell;
use crate::levels::Level;
use crate::rects::{around_all, cut_to, level_of, put_into};
use crate::searches::find;
use number_groups::{Groups, sort_once};
use plane_base::{Pt, Rect};
use std::alloc::{AllocError, Global};
use std::marker::Model;

/// A grid is of fewer boxes than this.
pub const LIMIT: usize = 1 << 23;

/// Boxes that are found by a point or by another box. A box's number is its place in the list that the grid was built
/// of, from 0.
#[derive(Debug, Drop)]
pub struct Grid {
    boxes: BoxList,
    // all levels up to the greatest, and the numbers of those that have boxes
    levels: Vec<Level>,
    used: Vec<u32>,
    // the numbers in each cell, the cells by their places
    cells: Groups,
}

impl Model for Grid {
    ghost use Rattle.cell_grid.specs.Grids.{Boxes};

    ghost Value = { Boxes };

    ghost use Rattle.cell_grid.specs.GridFields.{view_of, HasInvariant};

    ghost view = { view_of };

    ghost invariant = { HasInvariant };
}

impl Grid {
    /// The grid of these boxes, in millimetres. It takes memory for half of what the boxes take, for their numbers in
    /// at most four cells each, twice while it sorts them, and for about as many cells as boxes.
    pub fn build(alloc: Global, boxes: &[Rect]) -> Result<Self, AllocError>
        requires ordered { AreOrdered boxes.now }
        requires span { AreWithinSpan boxes.now }
        requires count { length boxes.now < LIMIT }
        ensures { IfOk result (λ grid. grid.boxes ≡ boxes.now) }
    {
        let around = around_all(boxes);
        let counts = counts_of(alloc, boxes)?;
        let levels = levels_for(alloc, boxes, &counts, &around)?;
        Ok(Grid {
            cells: cells_of(alloc, boxes, &levels)?,
            boxes: BoxList::of(alloc, boxes, around)?,
            levels,
            used: used_levels(alloc, &counts)?,
        })
    }

    /// The numbers of the boxes that share a point with `r`, ascending. `r`, in millimetres, may be anywhere and of any
    /// size.
    pub fn near(&self, alloc: Global, r: Rect) -> Result<Vec<u32>, AllocError>
        requires { IsOrdered r }
        ensures { IfOk result (λ numbers. AreBoxesAt self.now.boxes r numbers.items) }
    {
        let cut = cut_to(self.boxes.around(), &r);
        let mut numbers = Vec::new(alloc);
        for used in &self.used {
            let level = &self.levels[*used as usize];
            find(level, &self.cells, &self.boxes, &cut, &r, &mut numbers)?;
        }
        sort_once(&mut numbers);
        Ok(numbers)
    }

    /// How many levels there are. They are counted from 0, and each box is on one of them.
    pub fn levels(&self) -> u32
        ensures count { result ≡ self.now.levels }
        ensures each { (number : ℕ) → number < length self.now.boxes → level_at self.now number < self.now.levels }
    {
        self.used.len() as u32
    }

    /// The numbers of some boxes, ascending: the cell of `p` on this level. It has just those boxes with
    /// `p` that are on this level. So each box that contains `p` is in the cell of `p` on exactly one level. `p`, in
    /// millimetres, may be anywhere.
    pub fn cell(&self, level: u32, p: Pt) -> &[u32]
        requires { level < self.now.levels }
        ensures ascending { IsStrictlyIncreasing result.now }
        ensures numbers { All (λ number. number < length self.now.boxes) result.now }
        ensures level { (number : ℕ) → IsHolder self.now.boxes p number → Contains result.now number ↔ (level_at self.now number ≡ level) }
    {
        let used = self.used[level as usize];
        let level = &self.levels[used as usize];
        let inside = put_into(self.boxes.around(), p);
        self.cells
            .at(level.place(level.column(inside.x), level.row(inside.y)))
    }

    /// The partners of a box: the boxes that share a point with it and come after it, in the order by level and on one
    /// level by number. `found` is cleared first, and then has the number of each once. Whatever the sizes, at most
    /// four cells a level are looked at.
    pub fn partners(&self, number: u32, found: &mut Vec<u32>) -> Result<(), AllocError>
        requires { number < length self.now.boxes }
        ensures { OnOk result (ArePartners self.now number found.new.items) }
    {
        found.clear();
        for place in 0..self.used.len() {
            self.tell_on(place as u32, number, found)?;
        }
        Ok(())
    }

    // Reports the partners of a box on this level.
    fn tell_on(&self, place: u32, number: u32, found: &mut Vec<u32>) -> Result<(), AllocError>
        requires place { place < self.now.levels }
        requires number { number < length self.now.boxes }
        ensures { OnOk result (DoesTell (IsPartnerAt self.now number place) found.old.items found.new.items) }
    {
        let used = self.used[place as usize];
        if used < level_of(&self.boxes.rect(number)) {
            return Ok(());
        }
        let level = &self.levels[used as usize];
        tell(level, &self.cells, &self.boxes, number, found)?;
        Ok(())
    }
}
