//! Whether this many pieces are copies of others that it is worth to look for them.
ghost use Rattle.std.specs.Prelude.{◌≤◌, length};
ghost use Rattle.topo_check.specs.declared.limits.TheConstants.{MOST_COMPARED};

use crate::marks::{mark, tag_of};
use std::alloc::{AllocError, Global};
use tin_base::Piece;

// This many pieces of one mark are a crowd.
const CROWD: u8 = 32;

/// Whether many pieces may be copies of others: where a mark is that of a crowd, or where more pairs of pieces have one
/// mark than by chance. It decides only whether copies are looked for.
pub(crate) fn may_have_copies(alloc: Global, pieces: &[Piece]) -> Result<bool, AllocError>
    requires { length pieces.now ≤ MOST_COMPARED }
{
    let size = (pieces.len() as u32).next_power_of_two();
    let mut counts = vec![in alloc; 0_u8; size as usize]?;
    let mut pairs = 0_u32;
    for piece in pieces {
        let earlier = count_at(&mut counts, tag_of(mark(piece, 0)) & size.saturating_sub(1));
        if earlier >= CROWD {
            return Ok(true);
        }
        pairs = pairs.saturating_add(u32::from(earlier));
    }
    Ok(u64::from(pairs) > most_by_chance(pieces.len() as u32, size))
}

// Counts one more at a place, and answers how many there were.
fn count_at(counts: &mut Vec<u8>, place: u32) -> u8 {
    match counts.get_mut(place as usize) {
        Some(count) => {
            let earlier = *count;
            *count = earlier.saturating_add(1);
            earlier
        }
        None => 0,
    }
}

// About how many pairs of `count` numbers are at one of `size` places where they are spread evenly, and an eighth of
// the numbers more.
fn most_by_chance(count: u32, size: u32) -> u64 {
    let all = u64::from(count);
    let even = all * all / (2 * u64::from(size.max(1)));
    even.saturating_add(all / 8)
}
