//! What standard error says of the border of a sound triangulation.

use job_words::Job;
use remarks::{border_line, no_triangles_line};
use std::alloc::{AllocError, Global};
use tin_base::SoundTin;

/// The outer rings and the holes of a border.
#[derive(Clone, Copy)]
struct Rings {
    outer: u64,
    holes: u64,
}

/// A side by its two corners in one number, whichever way it goes, and its own number: three times that of its triangle,
/// and its place there.
#[derive(Clone, Copy)]
struct JoinedSide {
    corners: u64,
    number: u32,
}

/// Triangles, and for each side the triangle with the opposite side.
#[derive(Clone, Copy)]
struct Surface<'a> {
    triangles: &'a [[u32; 3]],
    mates: &'a [[u32; 3]],
}

/// The mate of a side that is joined with none. No triangle has this number.
const NONE: u32 = u32::MAX;

/// A hash of the number of a corner.
fn hash_of(corner: u32) -> u64 {
    let spread = u64::from(corner)
        .wrapping_add(1)
        .wrapping_mul(0x9E37_79B9_7F4A_7C15);
    (spread ^ (spread >> 32)).wrapping_mul(0xD6E8_FEB8_6659_FD93)
}

/// Adds to the sum of a corner the one neighbour in a triangle, and takes off the other.
fn add_neighbours(sums: &mut [u64], corner: u32, next: u64, last: u64) {
    if let Some(sum) = sums.get_mut(corner as usize) {
        *sum = sum.wrapping_add(next).wrapping_sub(last);
    }
}

/// For each corner the sum of its neighbours in its triangles, one added and one taken off in each. It is 0 where the
/// triangles go all round the corner, as each neighbour is in two of them. So corners at the border are found by it.
fn neighbour_sums(
    alloc: Global,
    triangles: &[[u32; 3]],
    corners: usize,
) -> Result<Vec<u64>, AllocError> {
    let mut sums = vec![in alloc; 0; corners]?;
    for numbers in triangles {
        let [a, b, c] = *numbers;
        let (of_a, of_b, of_c) = (hash_of(a), hash_of(b), hash_of(c));
        add_neighbours(&mut sums, a, of_b, of_c);
        add_neighbours(&mut sums, b, of_c, of_a);
        add_neighbours(&mut sums, c, of_a, of_b);
    }
    Ok(sums)
}

/// Whether the corner with this number is at the border.
fn is_outer(sums: &[u64], corner: u32) -> bool {
    match sums.get(corner as usize) {
        Some(sum) => *sum != 0,
        None => false,
    }
}

/// The triangles that have a corner at the border. All that are joined there are among them.
fn outer_triangles(
    alloc: Global,
    triangles: &[[u32; 3]],
    sums: &[u64],
) -> Result<Vec<[u32; 3]>, AllocError> {
    let mut found = Vec::new(alloc);
    for numbers in triangles {
        let [a, b, c] = *numbers;
        if is_outer(sums, a) || is_outer(sums, b) || is_outer(sums, c) {
            found.push(*numbers)?;
        }
    }
    Ok(found)
}

/// The two corners of a side in one number, whichever way it goes.
fn ends_in_one(from: u32, to: u32) -> u64 {
    let low = u64::from(from.min(to));
    let high = u64::from(from.max(to));
    (high << 32) | low
}

/// All sides of the triangles, so that those of the same two corners follow each other.
fn sides_of(alloc: Global, triangles: &[[u32; 3]]) -> Result<Vec<JoinedSide>, AllocError> {
    let mut sides = Vec::new(alloc);
    let mut number: u32 = 0;
    for numbers in triangles {
        let [a, b, c] = *numbers;
        for corners in [ends_in_one(a, b), ends_in_one(b, c), ends_in_one(c, a)] {
            sides.push(JoinedSide { corners, number })?;
            number = number.saturating_add(1);
        }
    }
    sides.sort_unstable_by_key(|side| side.corners);
    Ok(sides)
}

/// Sets the mate of a side.
fn set_mate(mates: &mut [[u32; 3]], side: u32, mate: u32) {
    if let Some(row) = mates.get_mut((side / 3) as usize) {
        row[(side % 3) as usize] = mate;
    }
}

/// For each side of the triangles the triangle with the opposite side, or `NONE`.
fn mates_of(alloc: Global, triangles: &[[u32; 3]]) -> Result<Vec<[u32; 3]>, AllocError> {
    let mut mates = vec![in alloc; [NONE; 3]; triangles.len()]?;
    let sides = sides_of(alloc, triangles)?;
    for pair in sides.windows(2) {
        if pair[0].corners == pair[1].corners {
            set_mate(&mut mates, pair[0].number, pair[1].number / 3);
            set_mate(&mut mates, pair[1].number, pair[0].number / 3);
        }
    }
    Ok(mates)
}

/// The triangle with the opposite side of the side of this number. None where there is none.
fn mate_of(surface: Surface, side: u32) -> Option<u32> {
    let row = surface.mates.get((side / 3) as usize)?;
    let mate = row[(side % 3) as usize];
    if (mate as usize) < surface.triangles.len() {
        Some(mate)
    } else {
        None
    }
}

/// The corner at which a side ends.
fn end_of(surface: Surface, side: u32) -> Option<u32> {
    let numbers = surface.triangles.get((side / 3) as usize)?;
    match side % 3 {
        0 => Some(numbers[1]),
        1 => Some(numbers[2]),
        _ => Some(numbers[0]),
    }
}

/// The side of a triangle that begins at this corner.
fn side_from(surface: Surface, triangle: u32, corner: u32) -> Option<u32> {
    let numbers = surface.triangles.get(triangle as usize)?;
    let first = triangle.saturating_mul(3);
    if numbers[0] == corner {
        Some(first)
    } else if numbers[1] == corner {
        Some(first.saturating_add(1))
    } else {
        Some(first.saturating_add(2))
    }
}

/// The border side that follows a border side: the last of the sides from its end that are found from triangle to
/// triangle.
fn side_after(surface: Surface, side: u32) -> Option<u32> {
    let corner = end_of(surface, side)?;
    let mut at = side_from(surface, side / 3, corner)?;
    for _ in 0..surface.triangles.len() {
        match mate_of(surface, at) {
            Some(triangle) => at = side_from(surface, triangle, corner)?,
            None => return Some(at),
        }
    }
    None
}

/// Marks a number. Whether it was not marked before.
fn mark(marks: &mut [bool], number: u32) -> bool {
    match marks.get_mut(number as usize) {
        Some(slot) if !*slot => {
            *slot = true;
            true
        }
        _ => false,
    }
}

/// Marks the border sides of a ring from this one on.
fn mark_ring(surface: Surface, first: u32, are_marked: &mut [bool]) {
    let mut side = first;
    for _ in 0..are_marked.len() {
        match side_after(surface, side) {
            Some(next) if mark(are_marked, next) => side = next,
            _ => return,
        }
    }
}

/// What is counted of a surface.
#[derive(Clone, Copy)]
struct Counts {
    /// The rings of its border.
    rings: u64,
    /// The sides at the border.
    border_sides: u64,
}

/// Counts the rings of a border, which has the sides without a mate from a corner at the border.
fn count_rings(alloc: Global, surface: Surface, sums: &[u64]) -> Result<Counts, AllocError> {
    let mut are_marked = vec![in alloc; false; surface.triangles.len().saturating_mul(3)]?;
    let mut counts = Counts {
        rings: 0,
        border_sides: 0,
    };
    let mut side: u32 = 0;
    for numbers in surface.triangles {
        for corner in *numbers {
            if is_outer(sums, corner) && mate_of(surface, side).is_none() {
                counts.border_sides = counts.border_sides.saturating_add(1);
                if mark(&mut are_marked, side) {
                    counts.rings = counts.rings.saturating_add(1);
                    mark_ring(surface, side, &mut are_marked);
                }
            }
            side = side.saturating_add(1);
        }
    }
    Ok(counts)
}

/// How many corners a triangle has that are not at the border.
fn inner_count(alloc: Global, triangles: &[[u32; 3]], sums: &[u64]) -> Result<u64, AllocError> {
    let mut are_used = vec![in alloc; false; sums.len()]?;
    let mut count: u64 = 0;
    for numbers in triangles {
        for corner in *numbers {
            if mark(&mut are_used, corner) && !is_outer(sums, corner) {
                count = count.saturating_add(1);
            }
        }
    }
    Ok(count)
}

/// The rings of the border of these triangles, by Euler's formula. Of parts that are joined by sides each has one outer
/// ring, and the other rings are holes: so the rings are the parts and the holes. The corners less the sides and with the
/// triangles are the parts less the holes. A corner at the border counts once for each side there that begins at it, so
/// that parts which touch in a corner are not joined. So the corners less the sides are the inner corners less the sides
/// that join two triangles.
fn rings_of(triangles: u64, inner: u64, counts: Counts) -> Rings {
    let sides = triangles.saturating_mul(3);
    let joining = sides.saturating_sub(counts.border_sides) / 2;
    let most = counts.rings.saturating_add(inner).saturating_add(triangles);
    let outer = most.saturating_sub(joining) / 2;
    Rings {
        outer,
        holes: counts.rings.saturating_sub(outer),
    }
}

/// The rings of the border of these triangles.
fn rings_round(alloc: Global, triangles: &[[u32; 3]], corners: usize) -> Result<Rings, AllocError> {
    let sums = neighbour_sums(alloc, triangles, corners)?;
    let inner = inner_count(alloc, triangles, &sums)?;
    let found = outer_triangles(alloc, triangles, &sums)?;
    let mates = mates_of(alloc, &found)?;
    let surface = Surface {
        triangles: &found,
        mates: &mates,
    };
    let counts = count_rings(alloc, surface, &sums)?;
    Ok(rings_of(triangles.len() as u64, inner, counts))
}

/// Says how many outer rings and how many holes the border of these triangles has, or that there are none.
fn say_rings<R: Eprint + AllocGlobal>(rt: &R, name: &str, triangles: &[[u32; 3]], corners: usize) {
    let text = if triangles.is_empty() {
        no_triangles_line(rt.alloc(), name)
    } else {
        match rings_round(rt.alloc(), triangles, corners) {
            Ok(rings) => border_line(rt.alloc(), name, rings.outer, rings.holes),
            Err(fault) => Err(fault),
        }
    };
    if let Ok(text) = text {
        let _ = rt.eprint(text.as_str());
    }
}

/// Says of the triangulation that a check found sound how many outer rings and how many holes its border has, or that
/// it has no triangles. Nothing is said of other jobs, and if it cannot be said, nothing changes.
pub fn say_border<R: Eprint + AllocGlobal>(rt: &R, job: &Job, tin: &SoundTin) {
    if let Job::Check { tin: name, .. } = job {
        say_rings(rt, name.text(), tin.triangles(), tin.corners().len());
    }
}
