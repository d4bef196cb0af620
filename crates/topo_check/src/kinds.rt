//! Kinds of pieces, each of copies of one piece, by one pass over them.
ghost use Rattle.std.specs.Prelude.{◌≡◌, ◌<◌, ◌≤◌, ◌+◌, ◌++◌, ◌∷◌, [], IfOk, OnOk, length};
ghost use Rattle.topo_check.specs.declared.limits.TheConstants.{MOST_COMPARED};
ghost use Rattle.topo_check.specs.declared.kinds.TheConstants.{WINDOW};
ghost use Rattle.topo_check.specs.Changes.{AreAllComparable};
ghost use Rattle.topo_check.specs.InsideKinds.{AreKindsOf};

use crate::copies::kind_among;
use crate::marks::{mark, seed_of, tag_of};
use std::alloc::{AllocError, Global};
use tin_base::{Piece, SoundTin};

/// Kinds of pieces: each piece is a copy of the first of its kind, and pieces of one kind do not change to each other.
/// Copies of one piece can be of several kinds, which costs only time.
#[derive(Debug, Drop)]
pub(crate) struct Kinds {
    // the first piece of each kind
    pub(crate) firsts: Vec<u32>,
    // the kind of each piece
    pub(crate) kinds: Vec<u32>,
}

/// A kind in the table, with a part of the mark of its pieces, by which most others are told apart.
#[derive(Clone, Copy, PartialEq, Eq, Debug)]
pub(crate) struct Seat {
    pub(crate) tag: u32,
    pub(crate) kind: u32,
}

// How many places are looked at for a kind.
const WINDOW: usize = 8;

// What stands for no kind.
const NO_KIND: u32 = u32::MAX;

/// The kinds of the pieces, by one pass over them. A kind is in a table at a place by the mark of its pieces, or a few
/// places after that.
pub(crate) fn kinds_of(alloc: Global, tin: &SoundTin, pieces: &[Piece]) -> Result<Kinds, AllocError>
    requires comparable { AreAllComparable tin.now pieces.now }
    requires count { length pieces.now ≤ MOST_COMPARED }
    ensures { IfOk result (λ kinds. AreKindsOf tin.now pieces.now (length pieces.now) kinds.firsts.items kinds.kinds.items) }
{
    let seed = seed_of(pieces);
    let places = 2 * pieces.len() + 1;
    let mut table = vec![in alloc; no_seat(); places + WINDOW]?;
    let mut firsts = Vec::new(alloc);
    let mut kinds = Vec::with_capacity(alloc, pieces.len())?;
    let mut number = 0;
    while number < pieces.len() as u32 {
        let mark = mark(&pieces[number as usize], seed);
        let place = (mark % places as u64) as usize;
        let tag = tag_of(mark);
        let near = &table[place..place + WINDOW];
        let kind = kind_among(tin, pieces, &firsts, near, tag, number);
        begin_if_new(&mut firsts, &mut table, place, Seat { tag, kind }, number)?;
        kinds.push(kind)?;
        number += 1;
    }
    Ok(Kinds { firsts, kinds })
}

// Begins a kind with the piece, if the kind is not there yet.
fn begin_if_new(
    firsts: &mut Vec<u32>,
    table: &mut Vec<Seat>,
    place: usize,
    seat: Seat,
    number: u32,
) -> Result<(), AllocError>
    requires { place + WINDOW ≤ length table.old.items }
    ensures there { OnOk result (seat.kind < length firsts.old.items → firsts.new.items ≡ firsts.old.items) }
    ensures new { OnOk result (length firsts.old.items ≤ seat.kind → firsts.new.items ≡ firsts.old.items ++ number ∷ []) }
    ensures table { length table.new.items ≡ length table.old.items }
{
    if (seat.kind as usize) < firsts.len() {
        return Ok(());
    }
    enter(table, place, seat);
    firsts.push(number)?;
    Ok(())
}

// Enters a kind at the place, or at the first of those after it that has none, if one of these has none.
fn enter(table: &mut Vec<Seat>, place: usize, seat: Seat)
    requires { place + WINDOW ≤ length table.old.items }
    ensures { length table.new.items ≡ length table.old.items }
{
    let behind = free_among(&table[place..place + WINDOW]);
    table[place + behind] = seat;
}

// The first place that has no kind, or else the first of all.
fn free_among(near: &[Seat]) -> usize
    requires { 0 < length near.now }
    ensures { result < length near.now }
{
    near.iter()
        .position(|other| other.kind == NO_KIND)
        .unwrap_or(0)
}

fn no_seat() -> Seat {
    Seat {
        tag: 0,
        kind: NO_KIND,
    }
}
