//! Whether a piece is a copy of another one, in its direction or turned.
ghost use Rattle.std.specs.Prelude.{◌<◌, ◌≤◌, ℕ, IsTrue, None, length};
ghost use Rattle.meet_rel.specs.Near.{AreNear};
ghost use Rattle.tin_base.specs.Pieces.{IsPieceInside};
ghost use Rattle.topo_check.specs.declared.limits.TheConstants.{MOST_COMPARED};
ghost use Rattle.topo_check.specs.Changes.{AreAllComparable, IsChangeOf, piece_at};
ghost use Rattle.topo_check.specs.InsideKinds.{IsAsOrTurned, AreSameOrTurned, IsSteadyCopy, at};

use crate::kinds::Seat;
use meet_rel::{piece_rel, rel};
use plane_base::{Pt, is_same};
use tin_base::{Piece, SoundTin};

/// The first of the kinds near a place whose first piece the piece is a copy of, where copies of it do not change to
/// each other, or else the number of all kinds.
pub(crate) fn kind_among(
    tin: &SoundTin,
    pieces: &[Piece],
    firsts: &[u32],
    near: &[Seat],
    tag: u32,
    number: u32,
) -> u32
    requires comparable { AreAllComparable tin.now pieces.now }
    requires firsts { (k : ℕ) → k < length firsts.now → at firsts.now k < length pieces.now }
    requires few { length firsts.now ≤ MOST_COMPARED }
    requires number { number < length pieces.now }
    ensures within { result ≤ length firsts.now }
    ensures copy { result < length firsts.now
        → IsSteadyCopy tin.now (piece_at pieces.now number) (piece_at pieces.now (at firsts.now result)) }
{
    for seat in near {
        if is_of_kind(tin, pieces, firsts, seat, tag, number) {
            return seat.kind;
        }
    }
    firsts.len() as u32
}

// Whether the piece can be of the kind of a seat. Where the tags differ it is no copy, so that no piece is read.
fn is_of_kind(
    tin: &SoundTin,
    pieces: &[Piece],
    firsts: &[u32],
    seat: &Seat,
    tag: u32,
    number: u32,
) -> bool
    requires comparable { AreAllComparable tin.now pieces.now }
    requires firsts { (k : ℕ) → k < length firsts.now → at firsts.now k < length pieces.now }
    requires number { number < length pieces.now }
    ensures within { IsTrue result → seat.now.kind < length firsts.now }
    ensures copy { IsTrue result → IsSteadyCopy tin.now (piece_at pieces.now number) (piece_at pieces.now (at firsts.now seat.now.kind)) }
{
    if seat.tag != tag {
        return false;
    }
    if seat.kind as usize >= firsts.len() {
        return false;
    }
    let first = firsts[seat.kind as usize];
    is_steady_copy(tin, &pieces[number as usize], &pieces[first as usize])
}

// Whether the piece is a copy of the other one, and copies of that do not change to each other.
fn is_steady_copy(tin: &SoundTin, piece: &Piece, other: &Piece) -> bool
    requires inside { IsPieceInside tin.now other.now }
    requires near { AreNear other.now.ia other.now.ib other.now.ia other.now.ib }
    ensures { IsTrue result → IsSteadyCopy tin.now piece.now other.now }
{
    if !are_same_or_turned(piece, other) {
        return false;
    }
    is_steady(tin, other)
}

// Whether copies of the piece do not change to each other.
fn is_steady(tin: &SoundTin, piece: &Piece) -> bool
    requires inside { IsPieceInside tin.now piece.now }
    requires near { AreNear piece.now.ia piece.now.ib piece.now.ia piece.now.ib }
    ensures { IsTrue result → IsChangeOf tin.now piece.now piece.now None }
{
    let was = piece_rel(piece, piece, tin);
    let now = rel(piece.ia, piece.ib, piece.ia, piece.ib);
    was == now
}

// Whether two pieces are of one segment and one triangle and have the same images, in one direction or turned.
fn are_same_or_turned(p: &Piece, q: &Piece) -> bool
    ensures { IsTrue result → AreSameOrTurned p.now q.now }
{
    if p.tri != q.tri {
        return false;
    }
    if !is_as_or_turned(p.a, p.b, q.a, q.b) {
        return false;
    }
    is_as_or_turned(p.ia, p.ib, q.ia, q.ib)
}

// Whether the segment from `a` to `b` is the one from `c` to `d`, in its direction or turned.
fn is_as_or_turned(a: Pt, b: Pt, c: Pt, d: Pt) -> bool
    ensures { IsTrue result → IsAsOrTurned a b c d }
{
    if is_same(a, c) && is_same(b, d) {
        return true;
    }
    is_same(a, d) && is_same(b, c)
}
