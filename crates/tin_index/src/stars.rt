//! The triangles of each corner.

ghost use Rattle.std.specs.Prelude.{◌≡◌, ◌∷◌, [], ◌++◌, length, IfOk, OnOk};
ghost use Rattle.tin_index.specs.Stars.{AreStarsTo};

use number_groups::{Entry, Groups, group};
use std::alloc::{AllocError, Global};
use tin_base::SoundTin;

/// The triangles that have each corner, ascending.
pub fn stars_of(alloc: Global, tin: &SoundTin) -> Result<Groups, AllocError>
    ensures { IfOk result (λ stars. AreStarsTo tin.now (length tin.now.triangles) stars) }
{
    let triangles = tin.triangles();
    let mut entries = Vec::with_capacity(alloc, 3 * triangles.len())?;
    for triangle in 0..triangles.len() {
        let numbers = triangles[triangle];
        push(&mut entries, numbers[0], triangle as u32)?;
        push(&mut entries, numbers[1], triangle as u32)?;
        push(&mut entries, numbers[2], triangle as u32)?;
    }
    let stars = group(alloc, &entries, tin.corners().len() as u32)?;
    Ok(stars)
}

/// A triangle of a corner.
fn push(entries: &mut Vec<Entry>, corner: u32, triangle: u32) -> Result<(), AllocError>
    ensures { OnOk result (entries.new.items ≡ entries.old.items ++ record { key = corner; number = triangle } ∷ []) }
{
    entries.push(Entry {
        key: corner,
        number: triangle,
    })?;
    Ok(())
}
