//! A segment with a triangle that has some of its points: the two that make a piece.

ghost use Rattle.std.specs.Prelude.{◌≡◌};
ghost use Rattle.plane_base.specs.Plane.{corners_of};
ghost use Rattle.tin_base.specs.Triangulation.{places, numbers_of};
ghost use Rattle.tin_base.specs.declared.frames.Frame.TheVariants.{Source};
ghost use Rattle.tin_base.specs.Limits.{IsWithinLimits};
ghost use Rattle.tin_base.specs.Pieces.{IsPieceInside};
ghost use Rattle.meet_rel.specs.Clips.{IsProper};

use plane_base::{Pt, Tri};
use tin_base::{Frame, Piece, SoundTin};

/// A segment and a triangle that has some of its points.
#[derive(Clone, Copy)]
pub(crate) struct Clip {
    pub(crate) a: Pt,
    pub(crate) b: Pt,
    pub(crate) tri: Tri,
}

/// The segment and the source triangle of a piece.
pub(crate) fn clip_of(piece: &Piece, tin: &SoundTin) -> Clip
    requires { IsPieceInside tin.now piece.now }
    ensures a { result.a ≡ piece.now.a }
    ensures b { result.b ≡ piece.now.b }
    ensures tri { corners_of result.tri ≡ places tin.now Source (numbers_of tin.now piece.now.tri) }
    ensures proper { IsProper result }
    ensures limits { IsWithinLimits tin.now }
{
    Clip {
        a: piece.a,
        b: piece.b,
        tri: tin.tri(piece.tri, Frame::Source),
    }
}
