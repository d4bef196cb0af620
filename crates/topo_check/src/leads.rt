//! The changed pairs of pieces, by the first pieces of their kinds.
ghost use Rattle.std.specs.Prelude.{◌≡◌, ◌<◌, ◌≤◌, ℕ, IfOk, length, map};
ghost use Rattle.topo_check.specs.declared.limits.TheConstants.{MOST_COMPARED};
ghost use Rattle.topo_check.specs.Changes.{AreAllComparable, piece_at};
ghost use Rattle.topo_check.specs.InsideKinds.{AreKindsOf, at, of_firsts};
ghost use Rattle.topo_check.specs.InsidePairs.{AreCollected, AreInRange};

use crate::changed_pairs::changed_pairs;
use crate::comparisons::ChangedPair;
use crate::crowds::may_have_copies;
use crate::kinds::{Kinds, kinds_of};
use crate::members::{members_of, spread};
use std::alloc::{AllocError, Global};
use tin_base::{Piece, SoundTin};

/// The pairs of pieces that have changed, each once, in no order. It stops once there are more than `most`.
/// Where many pieces may be copies of others, the first pieces of their kinds are compared for all.
pub(crate) fn changed_pairs_by_kinds(
    alloc: Global,
    tin: &SoundTin,
    pieces: &[Piece],
    most: u32,
) -> Result<Vec<ChangedPair>, AllocError>
    requires comparable { AreAllComparable tin.now pieces.now }
    requires count { length pieces.now ≤ MOST_COMPARED }
    ensures { IfOk result (λ pairs. AreCollected tin.now pieces.now most pairs.items) }
{
    if may_have_copies(alloc, pieces)? {
        let kinds = kinds_of(alloc, tin, pieces)?;
        if kinds.firsts.len() < pieces.len() {
            return pairs_of_kinds(alloc, tin, pieces, &kinds, most);
        }
    }
    changed_pairs(alloc, tin, pieces, most)
}

// The changed pairs where pieces are of these kinds.
fn pairs_of_kinds(
    alloc: Global,
    tin: &SoundTin,
    pieces: &[Piece],
    kinds: &Kinds,
    most: u32,
) -> Result<Vec<ChangedPair>, AllocError>
    requires comparable { AreAllComparable tin.now pieces.now }
    requires count { length pieces.now ≤ MOST_COMPARED }
    requires kinds { AreKindsOf tin.now pieces.now (length pieces.now) kinds.now.firsts.items kinds.now.kinds.items }
    ensures { IfOk result (λ pairs. AreCollected tin.now pieces.now most pairs.items) }
{
    let found = found_pairs(alloc, tin, pieces, &kinds.firsts, most)?;
    if found.len() > most as usize {
        let more = pairs_of_firsts(alloc, &kinds.firsts, &found)?;
        return Ok(more);
    }
    let members = members_of(alloc, &kinds.kinds, kinds.firsts.len() as u32)?;
    let pairs = spread(alloc, tin, pieces, &members, &found, most)?;
    Ok(pairs)
}

// The changed pairs of the first pieces of kinds.
fn found_pairs(
    alloc: Global,
    tin: &SoundTin,
    pieces: &[Piece],
    firsts: &[u32],
    most: u32,
) -> Result<Vec<ChangedPair>, AllocError>
    requires comparable { AreAllComparable tin.now pieces.now }
    requires few { length firsts.now ≤ MOST_COMPARED }
    requires firsts { (k : ℕ) → k < length firsts.now → at firsts.now k < length pieces.now }
    ensures { IfOk result (λ found. AreCollected tin.now (map (piece_at pieces.now) firsts.now) most found.items) }
{
    let leads = leads_of(alloc, pieces, firsts)?;
    changed_pairs(alloc, tin, &leads, most)
}

// The pieces of these numbers.
fn leads_of(alloc: Global, pieces: &[Piece], firsts: &[u32]) -> Result<Vec<Piece>, AllocError>
    requires { (k : ℕ) → k < length firsts.now → at firsts.now k < length pieces.now }
    ensures { IfOk result (λ leads. leads.items ≡ map (piece_at pieces.now) firsts.now) }
{
    let mut leads = Vec::with_capacity(alloc, firsts.len())?;
    for number in firsts {
        leads.push(pieces[*number as usize])?;
    }
    Ok(leads)
}

// The pairs of the first pieces of kinds, by the numbers of the pieces.
fn pairs_of_firsts(
    alloc: Global,
    firsts: &[u32],
    found: &[ChangedPair],
) -> Result<Vec<ChangedPair>, AllocError>
    requires { AreInRange (length firsts.now) found.now }
    ensures { IfOk result (λ pairs. pairs.items ≡ map (of_firsts firsts.now) found.now) }
{
    let mut pairs = Vec::with_capacity(alloc, found.len())?;
    for pair in found {
        pairs.push(pair_of_firsts(firsts, *pair))?;
    }
    Ok(pairs)
}

fn pair_of_firsts(firsts: &[u32], pair: ChangedPair) -> ChangedPair
    requires first { pair.first < length firsts.now }
    requires second { pair.second < length firsts.now }
    ensures { result ≡ of_firsts firsts.now pair }
{
    ChangedPair {
        first: firsts[pair.first as usize],
        second: firsts[pair.second as usize],
        was: pair.was,
        now: pair.now,
    }
}
