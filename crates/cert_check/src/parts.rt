//! The part of a segment in one triangle.

ghost use Rattle.std.specs.Prelude.{◌≡◌, ◌↔◌, ◌<◌, length, IsTrue, IfSome, IfNone};
ghost use Rattle.frac128.specs.Fractions.{IsSameValue, IsBelow};
ghost use Rattle.plane_base.specs.Slices.{IsParam};
ghost use Rattle.tin_base.specs.Segments.{Spot, at_b, IsSameSpot, IsInside, IsShared};
ghost use Rattle.tin_base.specs.Slices.{spot_of, IsSliceIn, AreNearTriangle};
ghost use Rattle.cert_check.specs.InsideSlices.{spot_behind, IsPartAt, HasNoPartAt, EndsAtParam};

use crate::nearness::are_near;
use frac128::{Frac, order};
use plane_base::{Pt, Stretch, slice};
use std::cmp::Ordering;
use tin_base::{Frame, SoundTin};

/// What a segment and a triangle have in common. Where an end of the segment is far from the triangle, the segment is
/// not inside.
pub(crate) fn stretch_in(tin: &SoundTin, triangle: u32, a: Pt, b: Pt) -> Option<Stretch>
    requires in_range { triangle < length tin.now.triangles }
    ensures some { IfSome result (λ s. IsSliceIn tin.now a b triangle s) }
    ensures near { IfSome result (λ _. AreNearTriangle tin.now a b triangle) }
    ensures none { IfNone result (IsInside tin.now a b → (s : Spot) → IsShared tin.now a b triangle s → ⊥) }
{
    let corners = tin.tri(triangle, Frame::Source);
    if !are_near(&corners, a, b) {
        return None;
    }
    slice(a, b, &corners)
}

/// Whether the stretch begins at the parameter and ends after it.
fn goes_on_from(stretch: Stretch, at: Frac) -> bool
    ensures { IsTrue result ↔ (IsSameValue stretch.lo at × IsBelow stretch.lo stretch.hi) }
{
    if order(stretch.lo, stretch.hi) != Ordering::Less {
        return false;
    }
    order(stretch.lo, at) == Ordering::Equal
}

/// The part of a segment in a triangle, if it begins at the parameter.
fn part_from(tin: &SoundTin, triangle: u32, a: Pt, b: Pt, at: Frac) -> Option<Stretch>
    requires param { IsParam at.num at.den }
    ensures some { IfSome result (λ s. IsPartAt tin.now a b triangle (spot_of at) s) }
    ensures none { IfNone result (IsInside tin.now a b → HasNoPartAt tin.now a b triangle (spot_of at)) }
{
    if triangle >= tin.triangle_count() {
        return None;
    }
    tin.show_soundness();
    if let Some(stretch) = stretch_in(tin, triangle, a, b) {
        if goes_on_from(stretch, at) {
            return Some(stretch);
        }
    }
    None
}

/// Where the part before ends; at the segment's first end where there is none.
fn end_of(before: Option<Stretch>) -> Frac
    requires { EndsAtParam before }
    ensures param { IsParam result.num result.den }
    ensures spot { spot_of result ≡ spot_behind before }
{
    match before {
        Some(stretch) => stretch.hi,
        None => Frac { num: 0, den: 1 },
    }
}

/// The part of a segment in a triangle, if it begins where the part before ends.
pub(crate) fn part_behind(
    tin: &SoundTin,
    triangle: u32,
    a: Pt,
    b: Pt,
    before: Option<Stretch>,
) -> Option<Stretch>
    requires { EndsAtParam before }
    ensures some { IfSome result (λ s. IsPartAt tin.now a b triangle (spot_behind before) s) }
    ensures none { IfNone result (IsInside tin.now a b → HasNoPartAt tin.now a b triangle (spot_behind before)) }
{
    part_from(tin, triangle, a, b, end_of(before))
}

fn is_one(at: Frac) -> bool
    ensures { IsTrue result ↔ (at.num ≡ at.den) }
{
    at.num == at.den
}

/// Whether the last part ends at the segment's last end.
pub(crate) fn is_at_end(last: Option<Stretch>) -> bool
    requires { EndsAtParam last }
    ensures { IsTrue result ↔ IsSameSpot (spot_behind last) at_b }
{
    is_one(end_of(last))
}
