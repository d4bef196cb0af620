//! Sides that are joined with opposite sides, and the border sides, which are joined with none.

ghost use Rattle.std.specs.Prelude.{◌≡◌, ◌<◌, ◌+◌, length, IsTrue, IfOk, OnOk};
ghost use Rattle.tin_check.specs.InsideProgress.{ArePositive};
ghost use Rattle.tin_check.specs.InsideBorders.{IsJoined, PointsTo, IsAtPlace, AreListed, IsListed, IsBorderOf, AreSides, HasMore};

use crate::guesses::guess_mates;
use std::alloc::{AllocError, Global};
use tin_base::Tin;

/// A border side of a triangle, by the numbers of its ends in the triangle's direction.
#[derive(Clone, Copy, PartialEq, Eq, Debug)]
pub(crate) struct BorderSide {
    pub(crate) triangle: u32,
    pub(crate) from: u32,
    pub(crate) to: u32,
}

/// The border sides of some matching of sides.
pub(crate) fn border_of(alloc: Global, tin: &Tin) -> Result<Vec<BorderSide>, AllocError>
    requires { ArePositive tin.now (length tin.now.triangles) }
    ensures { IfOk result (λ sides. IsBorderOf tin.now sides.items) }
{
    let mates = guess_mates(alloc, tin)?;
    let sides = sides_without_mates(alloc, tin, &mates)?;
    Ok(sides)
}

/// The sides that are joined with none by the rows of mates, where two sides are joined only if each is the other's
/// mate and the two are opposite.
fn sides_without_mates(
    alloc: Global,
    tin: &Tin,
    mates: &[[u32; 3]],
) -> Result<Vec<BorderSide>, AllocError>
    requires { length mates.now ≡ length tin.now.triangles }
    ensures listed { IfOk result (λ sides. AreListed tin.now mates.now (length tin.now.triangles) sides.items) }
    ensures sides { IfOk result (λ sides. AreSides tin.now sides.items) }
{
    let mut sides = Vec::new(alloc);
    for triangle in 0..tin.triangle_count() {
        list_sides(tin, mates, triangle, &mut sides)?;
    }
    Ok(sides)
}

/// Lists those of one triangle.
fn list_sides(
    tin: &Tin,
    mates: &[[u32; 3]],
    triangle: u32,
    sides: &mut Vec<BorderSide>,
) -> Result<(), AllocError>
    requires mates { length mates.now ≡ length tin.now.triangles }
    requires triangle { triangle < length tin.now.triangles }
    requires before { AreListed tin.now mates.now triangle sides.old.items }
    requires sides { AreSides tin.now sides.old.items }
    ensures listed { OnOk result (AreListed tin.now mates.now (triangle + 1) sides.new.items) }
    ensures sides { OnOk result (AreSides tin.now sides.new.items) }
{
    let numbers = &tin.triangles()[triangle as usize];
    let row = &mates[triangle as usize];
    list_side(
        tin,
        mates,
        BorderSide {
            triangle,
            from: numbers[0],
            to: numbers[1],
        },
        row[0],
        sides,
    )?;
    list_side(
        tin,
        mates,
        BorderSide {
            triangle,
            from: numbers[1],
            to: numbers[2],
        },
        row[1],
        sides,
    )?;
    list_side(
        tin,
        mates,
        BorderSide {
            triangle,
            from: numbers[2],
            to: numbers[0],
        },
        row[2],
        sides,
    )?;
    Ok(())
}

/// Lists one side where it is not joined with a side of `mate`.
fn list_side(
    tin: &Tin,
    mates: &[[u32; 3]],
    side: BorderSide,
    mate: u32,
    sides: &mut Vec<BorderSide>,
) -> Result<(), AllocError>
    requires mates { length mates.now ≡ length tin.now.triangles }
    requires triangle { side.triangle < length tin.now.triangles }
    requires from { side.from < length tin.now.corners }
    requires to { side.to < length tin.now.corners }
    requires sides { AreSides tin.now sides.old.items }
    ensures listed { OnOk result (IsListed tin.now mates.now sides.new.items side.triangle side.from side.to) }
    ensures more { OnOk result (HasMore sides.old.items sides.new.items) }
    ensures sides { OnOk result (AreSides tin.now sides.new.items) }
{
    if !are_joined(tin, mates, side, mate) {
        sides.push(side)?;
    }
    Ok(())
}

/// Whether the side is joined with a side of `mate`: each triangle is the other's mate there, and the two sides are
/// opposite.
fn are_joined(tin: &Tin, mates: &[[u32; 3]], side: BorderSide, mate: u32) -> bool
    requires mates { length mates.now ≡ length tin.now.triangles }
    requires triangle { side.triangle < length tin.now.triangles }
    ensures { IsTrue result → IsJoined tin.now mates.now side.triangle side.from side.to mate }
{
    if mate >= tin.triangle_count() {
        return false;
    }
    if !points_to(tin, mates, side, mate) {
        return false;
    }
    let opposite = BorderSide {
        triangle: mate,
        from: side.to,
        to: side.from,
    };
    points_to(tin, mates, opposite, side.triangle)
}

/// Whether the triangle has the side, with this mate.
fn points_to(tin: &Tin, mates: &[[u32; 3]], side: BorderSide, mate: u32) -> bool
    requires mates { length mates.now ≡ length tin.now.triangles }
    requires triangle { side.triangle < length tin.now.triangles }
    ensures { IsTrue result → PointsTo tin.now mates.now side.triangle side.from side.to mate }
{
    let numbers = &tin.triangles()[side.triangle as usize];
    let row = &mates[side.triangle as usize];
    has_ends_and_mate(numbers[0], numbers[1], row[0], side, mate)
        || has_ends_and_mate(numbers[1], numbers[2], row[1], side, mate)
        || has_ends_and_mate(numbers[2], numbers[0], row[2], side, mate)
}

/// Whether the side has these ends, and the mates are the same.
fn has_ends_and_mate(from: u32, to: u32, mate: u32, side: BorderSide, other: u32) -> bool
    ensures { IsTrue result → (side.from ≡ from) × (side.to ≡ to) × (other ≡ mate) }
{
    side.from == from && side.to == to && other == mate
}
