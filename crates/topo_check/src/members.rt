//! The pieces of each kind, and the pairs of pieces of two kinds.
ghost use Rattle.std.specs.Prelude.{◌≡◌, ◌≢◌, ◌<◌, ◌≤◌, ◌⊎◌, ℕ, [], IfOk, OnOk, All, Contains, length, nat_eq};
ghost use Rattle.std.specs.List.{IsDistinct};
ghost use Rattle.topo_check.specs.declared.limits.TheConstants.{MOST_COMPARED};
ghost use Rattle.topo_check.specs.Changes.{AreAllComparable};
ghost use Rattle.topo_check.specs.InsideKinds.{AreMembersOf, AreSortsOf, ArePairsOfKinds, IsPairAcross, IsFoundOf};
ghost use Rattle.topo_check.specs.InsideKinds.{numbered_entries};
ghost use Rattle.topo_check.specs.InsidePairs.{DoesCollect};

use crate::changed_pairs::collect_with;
use crate::comparisons::ChangedPair;
use number_groups::{Entry, Groups, group};
use std::alloc::{AllocError, Global};
use tin_base::{Frame, Piece, SoundTin};

/// The pieces of each kind.
pub(crate) fn members_of(alloc: Global, kinds: &[u32], count: u32) -> Result<Groups, AllocError>
    requires kinds { All (λ kind. kind < count) kinds.now }
    requires few { length kinds.now ≤ MOST_COMPARED }
    requires count { count ≤ MOST_COMPARED }
    ensures { IfOk result (λ members. AreMembersOf kinds.now count members) }
{
    let entries = entries_of(alloc, kinds)?;
    let members = group(alloc, &entries, count)?;
    Ok(members)
}

// Each number from 0 under its kind.
fn entries_of(alloc: Global, kinds: &[u32]) -> Result<Vec<Entry>, AllocError>
    requires { length kinds.now ≤ MOST_COMPARED }
    ensures { IfOk result (λ entries. entries.items ≡ numbered_entries 0 kinds.now) }
{
    let mut entries = Vec::with_capacity(alloc, kinds.len())?;
    let mut number = 0;
    while number < kinds.len() as u32 {
        entries.push(Entry {
            key: kinds[number as usize],
            number,
        })?;
        number += 1;
    }
    Ok(entries)
}

/// The changed pairs of pieces whose kinds are a pair that was found. It stops once there are more than `most`.
pub(crate) fn spread(
    alloc: Global,
    tin: &SoundTin,
    pieces: &[Piece],
    members: &Groups,
    found: &[ChangedPair],
    most: u32,
) -> Result<Vec<ChangedPair>, AllocError>
    requires comparable { AreAllComparable tin.now pieces.now }
    requires members { AreSortsOf (length pieces.now) members.now }
    requires found { ArePairsOfKinds (length members.now) found.now }
    ensures { IfOk result (λ pairs. DoesCollect tin.now pieces.now most (IsFoundOf members.now found.now) [] pairs.items) }
{
    let mut pairs = Vec::new(alloc);
    let mut place = 0;
    while place < found.len() && pairs.len() <= most as usize {
        let pair = found[place];
        spread_pair(
            tin,
            pieces,
            members.at(pair.first),
            members.at(pair.second),
            most,
            &mut pairs,
        )?;
        place += 1;
    }
    Ok(pairs)
}

// Collects the changed pairs of one piece of the first sort and one of the second.
fn spread_pair(
    tin: &SoundTin,
    pieces: &[Piece],
    numbers: &[u32],
    others: &[u32],
    most: u32,
    pairs: &mut Vec<ChangedPair>,
) -> Result<(), AllocError>
    requires comparable { AreAllComparable tin.now pieces.now }
    requires numbers_once { IsDistinct nat_eq numbers.now }
    requires others_once { IsDistinct nat_eq others.now }
    requires numbers { (n : ℕ) → Contains numbers.now n → n < length pieces.now }
    requires others { (n : ℕ) → Contains others.now n → n < length pieces.now }
    requires different { (m n : ℕ) → Contains numbers.now m → Contains others.now n → n ≢ m }
    ensures { OnOk result (DoesCollect tin.now pieces.now most
        (IsPairAcross (Contains numbers.now) (Contains others.now)) pairs.old.items pairs.new.items) }
{
    let mut place = 0;
    while place < numbers.len() && pairs.len() <= most as usize {
        collect_with(
            tin,
            pieces,
            Frame::Target,
            numbers[place],
            others,
            most,
            pairs,
        )?;
        place += 1;
    }
    Ok(())
}
