//! The heights of points, where some have one.

ghost use Rattle.std.specs.Prelude.{◌≡◌, ◌<◌, ◌≤◌, ◌^◌, ◌++◌, ◌∷◌, [], List, length, OnOk};
ghost use Rattle.sheet_base.specs.PointHeights.{Height, height_in, no_heights};

use std::alloc::{AllocError, Global};
use std::marker::Model;

/// The heights of points in millimetres, of each its height or none; contracts see them as a list. The points after
/// the last one with a height are counted alone.
#[derive(Debug, Drop)]
pub struct Heights {
    known: Vec<Option<i64>>,
    behind: usize,
}

impl Model for Heights {
    ghost use Rattle.std.specs.Prelude.{List, ◌++◌};
    ghost use Rattle.sheet_base.specs.PointHeights.{Height, no_heights};

    ghost Value = { List Height };

    ghost view = { λ heights. heights.known.items ++ no_heights heights.behind };
}

/// Appends this many points that have none.
fn push_none(known: &mut Vec<Option<i64>>, count: usize) -> Result<(), AllocError>
    ensures { OnOk result (known.new.items ≡ known.old.items ++ no_heights count) }
{
    for _ in 0..count {
        known.push(None)?;
    }
    Ok(())
}

impl Heights {
    /// These heights. It takes no memory.
    pub fn of(items: Vec<Option<i64>>) -> Self
        ensures { result ≡ items.items }
    {
        Heights {
            known: items,
            behind: 0,
        }
    }

    /// Those of this many points that have none. It takes no memory.
    pub fn none(alloc: Global, count: usize) -> Self
        ensures { result ≡ no_heights count }
    {
        Heights {
            known: Vec::new(alloc),
            behind: count,
        }
    }

    /// The height of the point of this number, where there is such a point and it has one.
    pub fn at(&self, number: usize) -> Option<i64>
        ensures { result ≡ height_in self.now number }
    {
        match self.known.get(number) {
            Some(height) => *height,
            None => None,
        }
    }

    /// Appends the height of one more point, or none.
    pub fn push(&mut self, height: Option<i64>) -> Result<(), AllocError>
        requires { length self.old < 2 ^ 32 }
        ensures { OnOk result (self.new ≡ self.old ++ height ∷ []) }
    {
        match height {
            Some(_) => {
                push_none(&mut self.known, self.behind)?;
                self.behind = 0;
                self.known.push(height)?;
            }
            None => self.behind += 1,
        }
        Ok(())
    }

    /// Drops the height of the last point, or that it has none; where there is no point, nothing is changed.
    pub fn pop(&mut self)
        ensures front { (front : List Height) → (last : Height) → self.old ≡ front ++ last ∷ [] → self.new ≡ front }
        ensures few { length self.new ≤ length self.old }
    {
        if self.behind > 0 {
            self.behind -= 1;
        } else {
            self.known.pop();
        }
    }
}
