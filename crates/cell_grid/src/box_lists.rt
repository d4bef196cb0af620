//! Boxes in order of their numbers, which are kept by their offsets from one low corner.
ghost use Rattle.std.specs.Prelude.{◌≡◌, ◌<◌, ◌^◌, pos, ◌+ℤ◌, ◌<ℤ◌, length, IfOk};
ghost use Rattle.cell_grid.specs.Boxes.{AreOrdered, box_at};
ghost use Rattle.cell_grid.specs.Around.{IsAround, corner_of};
ghost use Rattle.cell_grid.specs.InsideOffsets.{rect_of};

use crate::offsets::Offsets;
use plane_base::Rect;
use std::alloc::{AllocError, Global};
use std::marker::Model;

/// Boxes in order of their numbers, and a box round all of them. Each is kept by its offsets from the low corner of
/// that one.
#[derive(Debug, Drop)]
pub(crate) struct BoxList {
    around: Rect,
    items: Vec<Offsets>,
}

impl Model for BoxList {
    ghost use Rattle.cell_grid.specs.InsideOffsets.{PlacedBoxes};

    ghost Value = { PlacedBoxes };

    ghost use Rattle.cell_grid.specs.InsideOffsetLists.{view_of, HasInvariant};

    ghost view = { view_of };

    ghost invariant = { HasInvariant };
}

impl BoxList {
    /// A list of these boxes.
    pub(crate) fn of(alloc: Global, boxes: &[Rect], around: Rect) -> Result<Self, AllocError>
        requires ordered { AreOrdered boxes.now }
        requires around { IsAround around boxes.now }
        ensures around { IfOk result (λ list. list.around ≡ around) }
        ensures boxes { IfOk result (λ list. list.boxes ≡ boxes.now) }
    {
        let mut items = Vec::with_capacity(alloc, boxes.len())?;
        for rect in boxes {
            items.push(Offsets::of(&around, rect))?;
        }
        Ok(BoxList { around, items })
    }

    /// The box round all boxes.
    pub(crate) fn around(&self) -> &Rect
        ensures { result.now ≡ self.now.around }
    {
        &self.around
    }

    /// The offsets of a box from the low corner of the box round all.
    pub(crate) fn offsets(&self, number: u32) -> &Offsets
        requires { number < length self.now.boxes }
        ensures { rect_of (corner_of self.now.around) result.now ≡ box_at self.now.boxes number }
    {
        &self.items[number as usize]
    }

    /// The box of a number.
    pub(crate) fn rect(&self, number: u32) -> Rect
        requires { number < length self.now.boxes }
        ensures { result ≡ box_at self.now.boxes number }
    {
        let offsets = &self.items[number as usize];
        Rect {
            x0: number_at(self.around.x0, offsets.x0),
            y0: number_at(self.around.y0, offsets.y0),
            x1: number_at(self.around.x0, offsets.x1),
            y1: number_at(self.around.y0, offsets.y1),
        }
    }
}

// The number that is so far past `low`.
fn number_at(low: i64, offset: u32) -> i64
    requires { (low +ℤ pos offset) <ℤ pos (2 ^ 63) }
    ensures { result ≡ low +ℤ pos offset }
{
    low + i64::from(offset)
}
