//! The weights of a triangle's corners: those of a point in it, and those of a point of its first side.

ghost use Rattle.std.specs.Prelude.{◌≡◌, pos, ◌+ℤ◌, ◌≤ℤ◌, ◌<ℤ◌};
ghost use Rattle.frac128.specs.Sizes.{IsSmall};
ghost use Rattle.plane_base.specs.Slices.{IsParam};
ghost use Rattle.plane_base.specs.Plane.{whole, turn_of, IsNearAll, holds_of};

use frac128::Frac;
use plane_base::{Pt, Tri, turn};

/// How much of the second and the third corner of a triangle a mix has, out of `whole`; the rest is of the first.
#[derive(Clone, Copy)]
pub(crate) struct Weights {
    pub(crate) second: i128,
    pub(crate) third: i128,
    pub(crate) whole: i128,
    pub(crate) ghost second_kept: { pos 0 ≤ℤ second },
    pub(crate) ghost third_kept: { pos 0 ≤ℤ third },
    pub(crate) ghost rest_kept: { (second +ℤ third) ≤ℤ whole },
    pub(crate) ghost positive: { pos 0 <ℤ whole },
    pub(crate) ghost small: { IsSmall whole },
}

/// The weights of a point of the triangle: its turns with the sides, as shares of the triangle's turn.
pub(crate) fn weights_at(t: &Tri, p: Pt) -> Weights
    requires near { IsNearAll t.now.a t.now.b t.now.c }
    requires positive { pos 0 <ℤ turn_of (whole t.now.a) (whole t.now.b) (whole t.now.c) }
    requires inside { holds_of t.now p }
    ensures second { result.second ≡ turn_of (whole t.now.c) (whole t.now.a) (whole p) }
    ensures third { result.third ≡ turn_of (whole t.now.a) (whole t.now.b) (whole p) }
    ensures whole { result.whole ≡ turn_of (whole t.now.a) (whole t.now.b) (whole t.now.c) }
{
    Weights {
        second: turn(t.c, t.a, p),
        third: turn(t.a, t.b, p),
        whole: turn(t.a, t.b, t.c),
    }
}

/// The weights of the point at `s` from the first corner to the second.
pub(crate) fn weights_between(s: Frac) -> Weights
    requires { IsParam s.num s.den }
    ensures second { result.second ≡ s.num }
    ensures third { result.third ≡ pos 0 }
    ensures whole { result.whole ≡ s.den }
{
    Weights {
        second: s.num,
        third: 0,
        whole: s.den,
    }
}
