//! The list of changes.
ghost use Rattle.std.specs.Prelude.{◌≡◌, ◌<◌, ◌≤◌, map, All, IfOk, IsErrOf, length, vec_len};
ghost use Rattle.std.specs.List.Sorted.{IsPermutation};
ghost use Rattle.topo_check.specs.declared.limits.TheConstants.{MOST_COMPARED};
ghost use Rattle.topo_check.specs.Changes.{AreAllComparable, AreChanges, HasMoreThan};
ghost use Rattle.topo_check.specs.InsidePairs.{AreDifferentPairs, AreAscending, AreInRange, change_of};
ghost use Rattle.topo_check.specs.declared.faults.ChangesFault.TheVariants.{TooMany};

use crate::ChangesFault;
use crate::comparisons::ChangedPair;
use crate::leads::changed_pairs_by_kinds;
use std::alloc::{AllocError, Global};
use tin_base::{Change, Piece, SoundTin};

/// The changes of each two pieces, the earlier first, in the order of the pairs: by the first piece, and then by the
/// second. It stops at the first change over `most`. It takes memory for changes, for one grid at a time of a box of
/// each piece, with a list of these boxes, and for the numbers of the pieces that are near one. Where pieces are copies
/// of others, it takes memory for the first piece of each kind, too.
pub fn changes(
    alloc: Global,
    tin: &SoundTin,
    pieces: &[Piece],
    most: u32,
) -> Result<Vec<Change>, ChangesFault>
    requires comparable { AreAllComparable tin.now pieces.now }
    requires count { length pieces.now ≤ MOST_COMPARED }
    ensures ok { IfOk result (λ changes. AreChanges tin.now pieces.now changes.items) }
    ensures within { IfOk result (λ changes. vec_len changes ≤ most) }
    ensures too_many { IsErrOf result TooMany → HasMoreThan tin.now pieces.now most }
{
    let mut pairs = changed_pairs_by_kinds(alloc, tin, pieces, most)?;
    sort(&mut pairs);
    if pairs.len() > most as usize {
        return Err(ChangesFault::TooMany);
    }
    let changes = list(alloc, pieces, &pairs)?;
    Ok(changes)
}

// Sorts pairs by the first piece, and then by the second.
fn sort(pairs: &mut Vec<ChangedPair>)
    requires { AreDifferentPairs pairs.old.items }
    ensures ascending { AreAscending pairs.new.items }
    ensures same { IsPermutation pairs.old.items pairs.new.items }
{
    pairs.sort_unstable_by_key(|pair| (pair.first, pair.second));
}

// The changes of pairs, in their order.
fn list(alloc: Global, pieces: &[Piece], pairs: &[ChangedPair]) -> Result<Vec<Change>, AllocError>
    requires { AreInRange (length pieces.now) pairs.now }
    ensures { IfOk result (λ changes. changes.items ≡ map (change_of pieces.now) pairs.now) }
{
    let mut changes = Vec::with_capacity(alloc, pairs.len())?;
    for pair in pairs {
        changes.push(change(pieces, *pair))?;
    }
    Ok(changes)
}

// The change of a pair, with the places of its pieces.
fn change(pieces: &[Piece], pair: ChangedPair) -> Change
    requires first { pair.first < length pieces.now }
    requires second { pair.second < length pieces.now }
    ensures { result ≡ change_of pieces.now pair }
{
    Change {
        first: pieces[pair.first as usize].from,
        second: pieces[pair.second as usize].from,
        was: pair.was,
        now: pair.now,
    }
}
