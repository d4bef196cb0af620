//! The part of a segment in a triangle, and the least triangle with a part that begins at a parameter.

ghost use Rattle.std.specs.Prelude.{◌≡◌, ◌↔◌, ℕ, ◌<◌, length, All, Contains, IsTrue, IfSome, IfNone};
ghost use Rattle.std.specs.List.Sorted.{IsStrictlyIncreasing};
ghost use Rattle.frac128.specs.Fractions.{IsSameValue, IsBelow};
ghost use Rattle.plane_base.specs.Plane.{whole};
ghost use Rattle.plane_base.specs.Slices.{IsParam};
ghost use Rattle.tin_base.specs.declared.frames.Frame.TheVariants.{Source};
ghost use Rattle.tin_base.specs.Images.{IsInSome};
ghost use Rattle.tin_base.specs.Limits.{IsWithinLimits};
ghost use Rattle.tin_index.specs.Boxes.{IsNearCorners};
ghost use Rattle.tin_base.specs.Slices.{spot_of, IsSliceIn};
ghost use Rattle.seg_walk.specs.InsideStarts.{MissesTriangle, HasNoPartFrom, IsPartFrom, IsLeastAmong};

use crate::Step;
use frac128::{Frac, order};
use plane_base::{Pt, Stretch, slice};
use std::cmp::Ordering;
use tin_base::{Frame, SoundTin};

/// The part of the segment in a source triangle, or none where they have no common point.
pub fn slice_in(tin: &SoundTin, triangle: u32, a: Pt, b: Pt) -> Option<Stretch>
    requires in_range { triangle < length tin.now.triangles }
    requires limits { IsWithinLimits tin.now }
    requires has_a { IsInSome tin.now Source (whole a) }
    requires near_b { IsNearCorners tin.now b }
    ensures some { IfSome result (λ s. IsSliceIn tin.now a b triangle s) }
    ensures none { IfNone result (MissesTriangle tin.now a b triangle) }
{
    slice(a, b, &tin.tri(triangle, Frame::Source))
}

/// Whether the stretch begins at the parameter and ends after it.
fn goes_on_from(slice: Stretch, at: Frac) -> bool
    ensures { IsTrue result ↔ (IsSameValue slice.lo at × IsBelow slice.lo slice.hi) }
{
    if order(slice.lo, slice.hi) != Ordering::Less {
        return false;
    }
    order(slice.lo, at) == Ordering::Equal
}

/// The triangle's part, if it begins at the parameter.
pub fn step_in(tin: &SoundTin, triangle: u32, a: Pt, b: Pt, at: Frac) -> Option<Step>
    requires in_range { triangle < length tin.now.triangles }
    requires limits { IsWithinLimits tin.now }
    requires has_a { IsInSome tin.now Source (whole a) }
    requires near_b { IsNearCorners tin.now b }
    requires param { IsParam at.num at.den }
    ensures triangle { IfSome result (λ step. step.tri ≡ triangle) }
    ensures some { IfSome result (λ step. IsPartFrom tin.now a b (spot_of at) step) }
    ensures none { IfNone result (HasNoPartFrom tin.now a b (spot_of at) triangle) }
{
    if let Some(slice) = slice_in(tin, triangle, a, b) {
        if goes_on_from(slice, at) {
            return Some(Step {
                tri: triangle,
                slice,
            });
        }
    }
    None
}

/// The part that begins at the parameter, with the least of these triangles that has one.
pub fn least_from(tin: &SoundTin, numbers: &[u32], a: Pt, b: Pt, at: Frac) -> Option<Step>
    requires ascending { IsStrictlyIncreasing numbers.now }
    requires in_range { All (λ number. number < length tin.now.triangles) numbers.now }
    requires limits { IsWithinLimits tin.now }
    requires has_a { IsInSome tin.now Source (whole a) }
    requires near_b { IsNearCorners tin.now b }
    requires param { IsParam at.num at.den }
    ensures some { IfSome result (λ step. IsLeastAmong tin.now a b (spot_of at) numbers.now step) }
    ensures none { IfNone result ((u : ℕ) → Contains numbers.now u → HasNoPartFrom tin.now a b (spot_of at) u) }
{
    for place in 0..numbers.len() {
        if let Some(step) = step_in(tin, numbers[place], a, b, at) {
            return Some(step);
        }
    }
    None
}
