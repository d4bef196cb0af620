//! The pieces of a segment, in order from its first end to its last.

ghost use Rattle.std.specs.Prelude.{◌≢◌, ◌↔◌, ℕ, ◌<◌, ◌<ℤ◌, length, IsTrue, IfOk, IsErrOf};
ghost use Rattle.plane_base.specs.Plane.{whole};
ghost use Rattle.tin_base.specs.declared.frames.Frame.TheVariants.{Source};
ghost use Rattle.tin_base.specs.Images.{IsInSome};
ghost use Rattle.tin_base.specs.Limits.{IsWithinLimits};
ghost use Rattle.tin_base.specs.Segments.{IsInside};
ghost use Rattle.tin_base.specs.Triangulation.{IsInTriangle};
ghost use Rattle.tin_index.specs.Boxes.{IsNearCorners};
ghost use Rattle.seg_walk.specs.declared.faults.WalkFault.TheVariants.{Outside};
ghost use Rattle.seg_walk.specs.InsidePointWays.{IsFromZeroToOne};
ghost use Rattle.seg_walk.specs.Steps.{AreSteps};

use crate::walks::{first_step, step_after};
use crate::{Step, Steps, WalkFault};
use frac128::Frac;
use plane_base::{End, Pt, Stretch, is_same};
use smallvec::SmallVec;
use std::alloc::Global;
use tin_base::SoundTin;
use tin_index::TinIndex;

/// The whole way from a point to itself.
fn point_way() -> Stretch
    ensures { IsFromZeroToOne result }
{
    Stretch {
        lo: Frac { num: 0, den: 1 },
        hi: Frac { num: 1, den: 1 },
        enter: End::Vertex,
        leave: End::Vertex,
    }
}

/// The one piece of a segment from a point to itself: the triangle has the whole way.
fn cut_point(alloc: Global, tin: &SoundTin, triangle: u32, p: Pt) -> Result<Steps, WalkFault>
    requires limits { IsWithinLimits tin.now }
    requires in_range { triangle < length tin.now.triangles }
    requires has_point { IsInTriangle tin.now Source triangle (whole p) }
    requires least { (other : ℕ) → other < triangle → IsInTriangle tin.now Source other (whole p) → ⊥ }
    ensures pieces { IfOk result (λ steps. AreSteps tin.now p p steps.items) }
    ensures outside { ¬ IsErrOf result Outside }
{
    let mut steps = SmallVec::new(alloc);
    steps.push(Step {
        tri: triangle,
        slice: point_way(),
    })?;
    Ok(steps)
}

fn is_before_end(at: Frac) -> bool
    ensures { IsTrue result ↔ (at.num <ℤ at.den) }
{
    at.num < at.den
}

/// The pieces one after the other: from the end of each, the piece that begins there. `triangle` is the least that
/// contains the first point.
fn cut_way(alloc: Global, index: &TinIndex, a: Pt, b: Pt, triangle: u32) -> Result<Steps, WalkFault>
    requires differ { a ≢ b }
    requires near_b { IsNearCorners index.now b }
    requires in_range { triangle < length index.now.triangles }
    requires has_point { IsInTriangle index.now Source triangle (whole a) }
    requires least { (other : ℕ) → other < triangle → IsInTriangle index.now Source other (whole a) → ⊥ }
    ensures pieces { IfOk result (λ steps. AreSteps index.now a b steps.items) }
    ensures inside { IfOk result (λ _. IsInside index.now a b) }
    ensures outside { IsErrOf result Outside → IsInside index.now a b → ⊥ }
{
    index.tin().show_soundness();
    let mut steps = SmallVec::new(alloc);
    let mut next = first_step(index, a, b, triangle);
    while let Some(step) = next {
        steps.push(step)?;
        if !is_before_end(step.slice.hi) {
            return Ok(steps);
        }
        next = step_after(index, a, b, step);
    }
    Err(WalkFault::Outside)
}

/// The pieces of the segment from `a` to `b`, in millimetres of the source frame, in order from `a` to `b`.
/// Each is the part of a triangle, with the least triangle that has it and the slice of that triangle.
/// Where `a` is `b`, the one piece is the point. The points may be anywhere.
/// `Outside` comes exactly where some point of the segment is in no triangle.
pub fn cut(alloc: Global, index: &TinIndex, a: Pt, b: Pt) -> Result<Steps, WalkFault>
    ensures pieces { IfOk result (λ steps. AreSteps index.now a b steps.items) }
    ensures inside { IfOk result (λ _. IsInside index.now a b) }
    ensures outside { IsErrOf result Outside → IsInside index.now a b → ⊥ }
{
    cut_from(alloc, index, a, b, 0)
}

/// As `cut`. It is quicker where `a` is inside of the triangle that is guessed, as that of the piece before; any number
/// will do.
pub fn cut_from(
    alloc: Global,
    index: &TinIndex,
    a: Pt,
    b: Pt,
    guess: u32,
) -> Result<Steps, WalkFault>
    ensures pieces { IfOk result (λ steps. AreSteps index.now a b steps.items) }
    ensures inside { IfOk result (λ _. IsInside index.now a b) }
    ensures outside { IsErrOf result Outside → IsInside index.now a b → ⊥ }
{
    let Some(triangle) = index.locate_near(a, guess) else {
        return Err(WalkFault::Outside);
    };
    cut_in(alloc, index, a, b, triangle)
}

/// As `cut`, where the least triangle that contains `a` is known.
pub fn cut_in(
    alloc: Global,
    index: &TinIndex,
    a: Pt,
    b: Pt,
    triangle: u32,
) -> Result<Steps, WalkFault>
    requires in_range { triangle < length index.now.triangles }
    requires has_point { IsInTriangle index.now Source triangle (whole a) }
    requires least { (other : ℕ) → other < triangle → IsInTriangle index.now Source other (whole a) → ⊥ }
    ensures pieces { IfOk result (λ steps. AreSteps index.now a b steps.items) }
    ensures inside { IfOk result (λ _. IsInside index.now a b) }
    ensures outside { IsErrOf result Outside → IsInside index.now a b → ⊥ }
{
    if !index.is_among_corners(b) {
        return Err(WalkFault::Outside);
    }
    let tin = index.tin();
    tin.show_soundness();
    if is_same(a, b) {
        return cut_point(alloc, tin, triangle, a);
    }
    cut_way(alloc, index, a, b, triangle)
}
