//! Boxes as a grid needs them: the level of a box, a box round all, and boxes and points moved into a box.

ghost use Rattle.std.specs.Prelude.{◌≡◌, ◌≤◌};
ghost use Rattle.cell_grid.specs.Around.{IsAround, cut_of, put_of};
ghost use Rattle.plane_base.specs.Boxes.{IsOrdered};
ghost use Rattle.cell_grid.specs.Boxes.{AreOrdered, AreWithinSpan};
ghost use Rattle.cell_grid.specs.InsideSizes.{longer_side, level_of};

use plane_base::{Pt, Rect};

/// The level of a box: the number of binary digits of its longer side.
pub(crate) fn level_of(rect: &Rect) -> u32
    ensures level { result ≡ level_of rect.now }
    ensures within { result ≤ 64 }
{
    64 - longer_side(rect).leading_zeros()
}

fn longer_side(rect: &Rect) -> u64
    ensures { result ≡ longer_side rect.now }
{
    rect.x1.abs_diff(rect.x0).max(rect.y1.abs_diff(rect.y0))
}

/// A box round all boxes.
pub(crate) fn around_all(boxes: &[Rect]) -> Rect
    requires ordered { AreOrdered boxes.now }
    requires span { AreWithinSpan boxes.now }
    ensures { IsAround result boxes.now }
{
    let mut all = match boxes.first() {
        Some(rect) => *rect,
        None => Rect {
            x0: 0,
            y0: 0,
            x1: 0,
            y1: 0,
        },
    };
    for rect in boxes {
        all = all.with_box(rect);
    }
    all
}

/// The box with its corners moved into another box, where they are not in it.
pub(crate) fn cut_to(around: &Rect, r: &Rect) -> Rect
    requires around { IsOrdered around.now }
    ensures { result ≡ cut_of around.now r.now }
{
    Rect {
        x0: r.x0.clamp(around.x0, around.x1),
        y0: r.y0.clamp(around.y0, around.y1),
        x1: r.x1.clamp(around.x0, around.x1),
        y1: r.y1.clamp(around.y0, around.y1),
    }
}

/// The point, moved into a box where it is not in it.
pub(crate) fn put_into(around: &Rect, p: Pt) -> Pt
    requires around { IsOrdered around.now }
    ensures { result ≡ put_of around.now p }
{
    Pt {
        x: p.x.clamp(around.x0, around.x1),
        y: p.y.clamp(around.y0, around.y1),
    }
}
