//! The relation of two pieces in the source frame, and the parameters of a piece's exact ends.

ghost use Rattle.std.specs.Prelude.{◌≡◌, ◌≢◌, ◌↔◌, pos, ◌<ℤ◌, IsTrue};
ghost use Rattle.plane_base.specs.Plane.{Point, IsNear};
ghost use Rattle.plane_base.specs.Slices.{IsParam};
ghost use Rattle.frac128.specs.Fractions.{IsAtMost};
ghost use Rattle.tin_base.specs.Segments.{Part};
ghost use Rattle.tin_base.specs.Relations.{HaveRelation, IsBetween};
ghost use Rattle.tin_base.specs.Pieces.{first_point, last_point, IsPieceOf, IsPieceInside};
ghost use Rattle.meet_rel.specs.Clips.{at};

use crate::clips::clip_of;
use crate::cuts::{Span, own_span, rel_on_one};
use crate::meetings::clip_rel;
use crate::segments::rel;
use plane_base::Pt;
use tin_base::{Piece, Rel, SoundTin};

/// The relation of two pieces in the source frame: of the segments between their exact first and last points.
pub fn piece_rel(p: &Piece, q: &Piece, tin: &SoundTin) -> Rel
    requires p { IsPieceInside tin.now p.now }
    requires q { IsPieceInside tin.now q.now }
    ensures { (s t : Part) → IsPieceOf tin.now p.now s → IsPieceOf tin.now q.now t
        → HaveRelation result (first_point p.now s) (last_point p.now s) (first_point q.now t) (last_point q.now t) }
{
    tin.show_soundness();
    if are_of_one(p.a, p.b, q.a, q.b) {
        return rel_on_one(&clip_of(p, tin), &clip_of(q, tin));
    }
    let relation = rel(p.a, p.b, q.a, q.b);
    if relation == Rel::Apart {
        return Rel::Apart;
    }
    clip_rel(&clip_of(p, tin), &clip_of(q, tin), relation)
}

// Whether both are the segment from one end to another.
fn are_of_one(a: Pt, b: Pt, c: Pt, d: Pt) -> bool
    ensures a { IsTrue result → a ≡ c }
    ensures b { IsTrue result → b ≡ d }
    ensures differ { IsTrue result → a ≢ b }
{
    if a == b || a != c || b != d {
        return false;
    }
    true
}

/// Where the exact first and last point of a piece lie on its segment, whose ends differ: by parameters that are 0 at
/// `a` and 1 at `b`.
pub fn piece_span(piece: &Piece, tin: &SoundTin) -> Span
    requires inside { IsPieceInside tin.now piece.now }
    requires differ { piece.now.a ≢ piece.now.b }
    ensures points { (part : Part) → IsPieceOf tin.now piece.now part → (r : Point) → pos 0 <ℤ r.w
        → IsBetween (first_point piece.now part) (last_point piece.now part) r
        ↔ IsBetween (at piece.now.a piece.now.b result.lo) (at piece.now.a piece.now.b result.hi) r }
    ensures order { IsAtMost result.lo result.hi }
    ensures lo { IsParam result.lo.num result.lo.den }
    ensures hi { IsParam result.hi.num result.hi.den }
    ensures near { IsNear piece.now.a piece.now.b }
{
    own_span(&clip_of(piece, tin))
}
