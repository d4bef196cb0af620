//! Boxes of whole sides round exact pieces and round their rounded segments.
ghost use Rattle.std.specs.Prelude.{◌≡◌, ◌≤ℤ◌, ℤ, ◌⊎◌, [], ◌∷◌};
ghost use Rattle.plane_base.specs.Boxes.{AreIn};
ghost use Rattle.plane_base.specs.Plane.{IsNear};
ghost use Rattle.plane_base.specs.Slices.{IsParam};
ghost use Rattle.tin_base.specs.Pieces.{IsPieceInside};
ghost use Rattle.meet_rel.specs.Clips.{at};
ghost use Rattle.topo_check.specs.InsideBoxes.{IsExactBox, IsRoundedBox};

use crate::shares::{high_at, low_at, share_of};
use meet_rel::{Span, piece_span};
use plane_base::{Pt, Rect};
use tin_base::{Frame, Piece, SoundTin};

/// A box of whole sides, in millimetres, that the exact piece is in: rounded outward from the piece's exact ends, and
/// no larger than `outer_box`.
pub(crate) fn exact_box(tin: &SoundTin, piece: &Piece) -> Rect
    requires { IsPieceInside tin.now piece.now }
    ensures { IsExactBox tin.now piece.now result }
{
    let outer = outer_box(tin, piece);
    if piece.a == piece.b {
        return outer;
    }
    let span = piece_span(piece, tin);
    around_span(piece.a, piece.b, span).common(&outer)
}

/// A box of whole sides, in millimetres, that the exact piece is in: what the boxes of its segment and of its triangle
/// have in common.
pub(crate) fn outer_box(tin: &SoundTin, piece: &Piece) -> Rect
    requires { IsPieceInside tin.now piece.now }
    ensures { IsExactBox tin.now piece.now result }
{
    let segment = Rect::of_segment(piece.a, piece.b);
    let triangle = Rect::of_triangle(&tin.tri(piece.tri, Frame::Source));
    segment.common(&triangle)
}

/// The box of the segment between the rounded images of a piece's ends, in millimetres.
pub(crate) fn rounded_box(piece: &Piece) -> Rect
    ensures { IsRoundedBox piece.now result }
{
    Rect::of_segment(piece.ia, piece.ib)
}

// The box of whole sides of two points of the segment from `a` to `b`, by their parameters, rounded outward.
fn around_span(a: Pt, b: Pt, span: Span) -> Rect
    requires near { IsNear a b }
    requires lo { IsParam span.lo.num span.lo.den }
    requires hi { IsParam span.hi.num span.hi.den }
    ensures { AreIn result (at a b span.lo ∷ at a b span.hi ∷ []) }
{
    let lo = share_of(span.lo);
    let hi = share_of(span.hi);
    Rect {
        x0: lesser(low_at(a.x, b.x, lo), low_at(a.x, b.x, hi)),
        y0: lesser(low_at(a.y, b.y, lo), low_at(a.y, b.y, hi)),
        x1: greater(high_at(a.x, b.x, lo), high_at(a.x, b.x, hi)),
        y1: greater(high_at(a.y, b.y, lo), high_at(a.y, b.y, hi)),
    }
}

// The lesser of two.
fn lesser(a: i64, b: i64) -> i64
    ensures one { (result ≡ a) ⊎ (result ≡ b) }
    ensures below { (result ≤ℤ a) × (result ≤ℤ b) }
    ensures greatest { (m : ℤ) → m ≤ℤ a → m ≤ℤ b → m ≤ℤ result }
{
    a.min(b)
}

// The greater of two.
fn greater(a: i64, b: i64) -> i64
    ensures one { (result ≡ a) ⊎ (result ≡ b) }
    ensures above { (a ≤ℤ result) × (b ≤ℤ result) }
    ensures least { (m : ℤ) → a ≤ℤ m → b ≤ℤ m → result ≤ℤ m }
{
    a.max(b)
}
