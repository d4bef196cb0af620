//! Two pieces before and after rounding.
ghost use Rattle.std.specs.Prelude.{◌≡◌, ◌↔◌, ◌<◌, length, IfSome, IfNone, IsTrue};
ghost use Rattle.tin_base.specs.declared.relations.Rel.{Rel};
ghost use Rattle.topo_check.specs.Changes.{AreAllComparable};
ghost use Rattle.topo_check.specs.InsidePairs.{AreComparedIn, IsComparedIn, IsChanged, IsUnchanged};

use crate::boxes::rounded_box;
use meet_rel::{piece_rel, rel};
use tin_base::{Frame, Piece, Rel, SoundTin};

/// Two pieces by their numbers, the earlier first, whose relation is another after rounding: `was` in the source, `now`
/// between the rounded segments.
#[derive(Clone, Copy, Debug)]
pub(crate) struct ChangedPair {
    pub(crate) first: u32,
    pub(crate) second: u32,
    pub(crate) was: Rel,
    pub(crate) now: Rel,
}

/// The pair of two pieces, if they have changed and are compared in this frame: in the target frame each two are, and
/// in the source frame those whose rounded boxes share no point.
pub(crate) fn changed_pair(
    tin: &SoundTin,
    pieces: &[Piece],
    frame: Frame,
    first: u32,
    second: u32,
) -> Option<ChangedPair>
    requires comparable { AreAllComparable tin.now pieces.now }
    requires earlier { first < second }
    requires second { second < length pieces.now }
    ensures numbers { IfSome result (λ pair. (pair.first ≡ first) × (pair.second ≡ second)) }
    ensures changed { IfSome result (λ pair. IsChanged tin.now pieces.now pair) }
    ensures compared { IfSome result (λ pair. IsComparedIn frame pieces.now first second) }
    ensures none { IfNone result (IsComparedIn frame pieces.now first second → IsUnchanged tin.now pieces.now first second) }
{
    let p = &pieces[first as usize];
    let q = &pieces[second as usize];
    if !are_compared_in(frame, p, q) {
        return None;
    }
    let was = piece_rel(p, q, tin);
    let now = rel(p.ia, p.ib, q.ia, q.ib);
    if was == now {
        return None;
    }
    Some(ChangedPair {
        first,
        second,
        was,
        now,
    })
}

// Whether two pieces are compared in this frame.
fn are_compared_in(frame: Frame, p: &Piece, q: &Piece) -> bool
    ensures { IsTrue result ↔ AreComparedIn frame p.now q.now }
{
    match frame {
        Frame::Source => rounded_box(p).is_apart_from(&rounded_box(q)),
        Frame::Target => true,
    }
}
