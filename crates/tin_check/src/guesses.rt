//! For each side of a triangle a triangle that may have the opposite side. Nothing rests on it: what is found is tested.

ghost use Rattle.std.specs.Prelude.{◌≡◌, length, IfOk};

use std::alloc::{AllocError, Global};
use tin_base::Tin;

/// A side of a triangle, in the list of its lower corner.
#[derive(Clone, Copy)]
struct ListedSide {
    /// The higher one of its corners.
    high: u32,
    /// Three times the number of its triangle, and its place there.
    number: u32,
}

/// Each two sides of a corner are compared where it has at most this many. More are sorted.
const FEW: usize = 16;

/// The mate of a side where none was found. No triangle has this number.
const NONE: u32 = u32::MAX;

/// For each triangle three numbers, one a side: the triangle that may have the opposite side, or `NONE`. Where no two sides
/// have the same ends in the same direction, as in a sound triangulation, all opposite sides are found.
pub(crate) fn guess_mates(alloc: Global, tin: &Tin) -> Result<Vec<[u32; 3]>, AllocError>
    ensures { IfOk result (λ mates. length mates.items ≡ length tin.now.triangles) }
{
    let triangles = tin.triangles();
    let mut starts = vec![in alloc; 0; tin.corners().len().saturating_add(1)]?;
    let mut sides = vec![in alloc; ListedSide { high: 0, number: 0 }; triangles
        .len()
        .saturating_mul(3)]?;
    let mut mates = vec![in alloc; [NONE; 3]; triangles.len()]?;
    count_sides(triangles, &mut starts);
    add_up(&mut starts);
    group_sides(triangles, &mut starts, &mut sides);
    match_sides(&starts, &mut sides, &mut mates);
    Ok(mates)
}

/// The lower and the higher corner of each of the three sides of a triangle.
fn ends_of(numbers: &[u32; 3]) -> [(u32, u32); 3] {
    let [a, b, c] = *numbers;
    [
        (a.min(b), a.max(b)),
        (b.min(c), b.max(c)),
        (c.min(a), c.max(a)),
    ]
}

/// Counts the sides of each lower corner.
fn count_sides(triangles: &[[u32; 3]], counts: &mut [u32]) {
    for numbers in triangles {
        for (low, _) in ends_of(numbers) {
            if let Some(count) = counts.get_mut(low as usize) {
                *count = count.saturating_add(1);
            }
        }
    }
}

/// Adds to each number those before it.
fn add_up(counts: &mut [u32]) {
    let mut sum: u32 = 0;
    for count in counts.iter_mut() {
        sum = sum.saturating_add(*count);
        *count = sum;
    }
}

/// Puts the sides of each lower corner together: where they end becomes where they begin.
fn group_sides(triangles: &[[u32; 3]], ends: &mut [u32], sides: &mut [ListedSide]) {
    let mut number: u32 = 0;
    for numbers in triangles {
        for (low, high) in ends_of(numbers) {
            group_side(ends, sides, low, ListedSide { high, number });
            number = number.saturating_add(1);
        }
    }
}

/// Puts one side into the place before the last one that was filled of its corner.
fn group_side(ends: &mut [u32], sides: &mut [ListedSide], low: u32, side: ListedSide) {
    if let Some(end) = ends.get_mut(low as usize) {
        *end = end.saturating_sub(1);
        if let Some(slot) = sides.get_mut(*end as usize) {
            *slot = side;
        }
    }
}

/// Makes sides with the same ends each other's mates. The first list says where the sides of each corner begin, and at last
/// where they end.
fn match_sides(starts: &[u32], sides: &mut [ListedSide], mates: &mut [[u32; 3]]) {
    for bounds in starts.windows(2) {
        let end = sides.len().min(bounds[1] as usize);
        let first = end.min(bounds[0] as usize);
        match_at(&mut sides[first..end], mates);
    }
}

/// Makes sides of one lower corner each other's mates where they have the same higher one.
fn match_at(sides: &mut [ListedSide], mates: &mut [[u32; 3]]) {
    if sides.len() > FEW {
        sides.sort_unstable_by_key(|side| side.high);
        match_neighbours(sides, mates);
    } else {
        match_few(sides, mates);
    }
}

/// Makes sides each other's mates where those with the same higher corner follow each other.
fn match_neighbours(sides: &[ListedSide], mates: &mut [[u32; 3]]) {
    for pair in sides.windows(2) {
        match_two(pair[0], pair[1], mates);
    }
}

/// Makes sides in any order each other's mates where they have the same higher corner.
fn match_few(sides: &[ListedSide], mates: &mut [[u32; 3]]) {
    for (place, side) in sides.iter().enumerate() {
        for other in &sides[place + 1..] {
            match_two(*side, *other, mates);
        }
    }
}

/// Makes two sides of one lower corner each other's mates where they have the same higher one.
fn match_two(side: ListedSide, other: ListedSide, mates: &mut [[u32; 3]]) {
    if side.high == other.high {
        set_mate(mates, side.number, other.number / 3);
        set_mate(mates, other.number, side.number / 3);
    }
}

/// Sets the mate of the side of this number, if there is one.
fn set_mate(mates: &mut [[u32; 3]], side: u32, mate: u32) {
    if let Some(row) = mates.get_mut((side / 3) as usize) {
        row[(side % 3) as usize] = mate;
    }
}
