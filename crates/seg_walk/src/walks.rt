//! The first step of a segment through the triangles, and the step after each other one.

ghost use Rattle.std.specs.Prelude.{◌≡◌, ◌≢◌, ◌↔◌, ℕ, ◌<◌, ◌<ℤ◌, length, IsTrue};
ghost use Rattle.plane_base.specs.Plane.{whole};
ghost use Rattle.plane_base.specs.Slices.{IsParam};
ghost use Rattle.tin_base.specs.declared.frames.Frame.TheVariants.{Source};
ghost use Rattle.tin_base.specs.Images.{IsInSome};
ghost use Rattle.tin_base.specs.Limits.{IsWithinLimits};
ghost use Rattle.tin_base.specs.Segments.{at_a};
ghost use Rattle.tin_base.specs.Triangulation.{IsInTriangle};
ghost use Rattle.tin_index.specs.Boxes.{IsNearCorners};
ghost use Rattle.tin_index.specs.Sides.{corner_of, next_of};
ghost use Rattle.tin_base.specs.Slices.{spot_of, IsSliceIn};
ghost use Rattle.seg_walk.specs.InsideStarts.{GoesOn};
ghost use Rattle.seg_walk.specs.InsideExits.{IsOnLine, IsLeftAt};

use crate::Step;
use crate::slices::{least_from, slice_in, step_in};
use frac128::{Frac, is_below};
use plane_base::{End, Pt, turn};
use tin_base::{Frame, SoundTin};
use tin_index::TinIndex;

// Whether the line through `a` and `b` goes through the corner.
fn is_on_line(tin: &SoundTin, a: Pt, b: Pt, corner: u32) -> bool
    requires corner { corner < length tin.now.corners }
    requires limits { IsWithinLimits tin.now }
    requires has_a { IsInSome tin.now Source (whole a) }
    requires near_b { IsNearCorners tin.now b }
    ensures { IsTrue result ↔ IsOnLine tin.now a b corner }
{
    turn(a, b, tin.place(corner, Frame::Source)) == 0
}

// The number of a triangle's corner.
fn corner_of(tin: &SoundTin, triangle: u32, k: u8) -> u32
    requires triangle { triangle < length tin.now.triangles }
    requires k { k < 3 }
    ensures value { result ≡ corner_of tin.now triangle k }
    ensures in_range { result < length tin.now.corners }
{
    tin.triangles()[triangle as usize][k as usize]
}

// The corner after the k-th.
fn next_of(k: u8) -> u8
    requires { k < 3 }
    ensures value { result ≡ next_of k }
    ensures in_range { result < 3 }
{
    match k {
        0 => 1,
        1 => 2,
        _ => 0,
    }
}

// The next step where the segment leaves a triangle by a side. At a corner many triangles may go on; inside the side
// only the one across.
fn step_over(index: &TinIndex, a: Pt, b: Pt, triangle: u32, side: u8, at: Frac) -> Option<Step>
    requires differ { a ≢ b }
    requires has_a { IsInSome index.now Source (whole a) }
    requires near_b { IsNearCorners index.now b }
    requires param { IsParam at.num at.den }
    requires left { IsLeftAt index.now a b triangle side (spot_of at) }
    ensures { GoesOn index.now a b (spot_of at) result }
{
    let tin = index.tin();
    tin.show_soundness();
    let first = corner_of(tin, triangle, side);
    if is_on_line(tin, a, b, first) {
        return least_from(tin, index.around(first), a, b, at);
    }
    let second = corner_of(tin, triangle, next_of(side));
    if is_on_line(tin, a, b, second) {
        return least_from(tin, index.around(second), a, b, at);
    }
    let Some(other) = index.across(triangle, side) else {
        return None;
    };
    step_in(tin, other, a, b, at)
}

/// The next step after one that is not the last, or none where no triangle has a part that begins where this one ends.
pub fn step_after(index: &TinIndex, a: Pt, b: Pt, step: Step) -> Option<Step>
    requires differ { a ≢ b }
    requires has_a { IsInSome index.now Source (whole a) }
    requires near_b { IsNearCorners index.now b }
    requires in_range { step.tri < length index.now.triangles }
    requires slice { IsSliceIn index.now a b step.tri step.slice }
    requires before_end { step.slice.hi.num <ℤ step.slice.hi.den }
    ensures { GoesOn index.now a b (spot_of step.slice.hi) result }
{
    index.tin().show_soundness();
    match step.slice.leave {
        End::Vertex => None,
        End::Side(side) => step_over(index, a, b, step.tri, side, step.slice.hi),
    }
}

/// The first step, where `triangle` is the least that has the first point, or none where no triangle has a part that
/// begins at this point.
pub fn first_step(index: &TinIndex, a: Pt, b: Pt, triangle: u32) -> Option<Step>
    requires differ { a ≢ b }
    requires near_b { IsNearCorners index.now b }
    requires in_range { triangle < length index.now.triangles }
    requires has_point { IsInTriangle index.now Source triangle (whole a) }
    requires least { (other : ℕ) → other < triangle → IsInTriangle index.now Source other (whole a) → ⊥ }
    ensures { GoesOn index.now a b at_a result }
{
    let tin = index.tin();
    tin.show_soundness();
    let Some(slice) = slice_in(tin, triangle, a, b) else {
        return None;
    };
    let step = Step {
        tri: triangle,
        slice,
    };
    if is_below(slice.lo, slice.hi) {
        return Some(step);
    }
    step_after(index, a, b, step)
}
