//! Whether border sides meet other triangles in common corners alone, by a tree of their boxes.

ghost use Rattle.std.specs.Prelude.{◌≡◌, ◌⊎◌, ◌<◌, ◌≤◌, pos, ◌<ℤ◌, IsTrue, IfOk, [], ◌∷◌, length};
ghost use Rattle.plane_base.specs.Plane.{whole, turn_of, IsNear, IsNearTri};
ghost use Rattle.tin_base.specs.Triangulation.{numbers_of, places};
ghost use Rattle.tin_base.specs.Limits.{IsWithinLimits};
ghost use Rattle.tin_base.specs.declared.frames.Frame.TheVariants.{Source, Target};
ghost use Rattle.tin_check.specs.CommonPoints.{HaveCommonPoint, MeetOnlyIn};
ghost use Rattle.tin_check.specs.InsideProgress.{ArePositive, DoAllFit};
ghost use Rattle.tin_check.specs.InsideBorders.{AreSides, IsSideIn, IsBorderOf, DoesMeet};
ghost use Rattle.tin_check.specs.InsideSideTrees.{IsTree, first_of, past_of, AreTrianglesIn, DoAllMeet, DoSomeMeet};

use crate::borders::BorderSide;
use crate::boxes::box_in;
use crate::pairs::{corners_from, is_among, tri_at};
use crate::separations::is_beyond;
use crate::side_orders::sides_in_order;
use crate::side_trees::{SideTree, is_far, meets_tree, tree_of};
use crate::triangle_fits::meets_side;
use border_law::bordered_triangles_fit;
use cell_grid::LIMIT;
use plane_base::{Pt, Rect, Tri, turn};
use std::alloc::{AllocError, Global};
use tin_base::{Frame, Tin};

/// How many triangles are first asked about together.
const BLOCK: u32 = 16;

/// Whether each of some border sides meets every triangle but its own in a common corner at most, in both frames. Then
/// all triangles fit together in both. `false` shows nothing.
pub(crate) fn does_border_fit(
    alloc: Global,
    tin: &Tin,
    sides: &[BorderSide],
) -> Result<bool, AllocError>
    requires positive { ArePositive tin.now (length tin.now.triangles) }
    requires border { IsBorderOf tin.now sides.now }
    ensures source { IfOk result (λ fits. IsTrue fits → DoAllFit tin.now Source) }
    ensures target { IfOk result (λ fits. IsTrue fits → DoAllFit tin.now Target) }
{
    bordered_triangles_fit();
    if sides.len() >= LIMIT {
        return Ok(false);
    }
    // Where most triangles share no side, their pairs are compared sooner.
    if sides.len() / 2 > tin.triangles().len() {
        return Ok(false);
    }
    // Sides that are near each other in the source mostly are in the target, too.
    let ordered = sides_in_order(alloc, tin, Frame::Source, sides)?;
    if ordered.is_empty() {
        return Ok(false);
    }
    let source = tree_of(alloc, tin, Frame::Source, &ordered, 0, ordered.len())?;
    let target = tree_of(alloc, tin, Frame::Target, &ordered, 0, ordered.len())?;
    Ok(do_all_meet(tin, &ordered, &source, &target))
}

/// Whether each triangle meets all sides of the trees of both frames but its own in a common corner at most. `false`
/// shows nothing. A triangle is looked at in both frames before the next ones, so that its corners are looked up once.
fn do_all_meet(tin: &Tin, sides: &[BorderSide], source: &SideTree, target: &SideTree) -> bool
    requires positive { ArePositive tin.now (length tin.now.triangles) }
    requires sides { AreSides tin.now sides.now }
    requires source { IsTree tin.now Source sides.now source.now }
    requires target { IsTree tin.now Target sides.now target.now }
    ensures source { IsTrue result → DoAllMeet tin.now Source sides.now (first_of source.now) (past_of source.now) }
    ensures target { IsTrue result → DoAllMeet tin.now Target sides.now (first_of target.now) (past_of target.now) }
{
    let triangles = tin.triangles();
    let count = triangles.len() as u32;
    let mut first = 0;
    while first < count {
        let past = first + (count - first).min(BLOCK);
        if !do_some_meet(tin, Frame::Source, sides, source, first, past) {
            return false;
        }
        if !do_some_meet(tin, Frame::Target, sides, target, first, past) {
            return false;
        }
        first = past;
    }
    true
}

/// Whether the triangles from one number to before another do. Where their box is apart from all sides, none is looked at.
fn do_some_meet(
    tin: &Tin,
    frame: Frame,
    sides: &[BorderSide],
    tree: &SideTree,
    first: u32,
    past: u32,
) -> bool
    requires some { first < past }
    requires within { past ≤ length tin.now.triangles }
    requires limits { IsWithinLimits tin.now }
    requires positive { ArePositive tin.now (length tin.now.triangles) }
    requires sides { AreSides tin.now sides.now }
    requires tree { IsTree tin.now frame sides.now tree.now }
    ensures { IsTrue result → DoSomeMeet tin.now frame sides.now (first_of tree.now) (past_of tree.now) first past }
{
    if is_far(tree, &around_triangles(tin, frame, first, past)) {
        return true;
    }
    let mut triangle = first;
    while triangle < past {
        let own = box_in(tin, triangle, frame);
        if !meets_tree(
            tin,
            frame,
            triangle,
            &tin.tri(triangle, frame),
            &own,
            sides,
            tree,
        ) {
            return false;
        }
        triangle += 1;
    }
    true
}

/// The box of the triangles from one number to before another in a frame.
fn around_triangles(tin: &Tin, frame: Frame, first: u32, past: u32) -> Rect
    requires some { first < past }
    requires within { past ≤ length tin.now.triangles }
    ensures { AreTrianglesIn tin.now frame first past result }
{
    let mut around = box_in(tin, first, frame);
    let mut triangle = first + 1;
    while triangle < past {
        around = around.with_box(&box_in(tin, triangle, frame));
        triangle += 1;
    }
    around
}

/// Whether a side meets a triangle in a common corner at most, or is the triangle's own. `false` shows nothing.
pub(crate) fn does_meet(tin: &Tin, frame: Frame, side: BorderSide, triangle: u32) -> bool
    requires side { IsSideIn tin.now side }
    requires triangle { triangle < length tin.now.triangles }
    requires positive { ArePositive tin.now (length tin.now.triangles) }
    ensures { IsTrue result → DoesMeet tin.now frame side triangle }
{
    if side.triangle == triangle {
        return true;
    }
    let numbers = &tin.triangles()[triangle as usize];
    let has_from = is_among(numbers, side.from);
    let has_to = is_among(numbers, side.to);
    match (has_from, has_to) {
        (true, true) => false,
        (true, false) => turns_away(tin, frame, triangle, side.from, side.to),
        (false, true) => turns_away(tin, frame, triangle, side.to, side.from),
        (false, false) => is_clear(tin, frame, side, triangle),
    }
}

/// Whether the segment from a corner of the triangle to another corner of the triangulation has no other point of the
/// triangle. `false` shows nothing.
fn turns_away(tin: &Tin, frame: Frame, triangle: u32, corner: u32, end: u32) -> bool
    requires triangle { triangle < length tin.now.triangles }
    requires corner { corner < length tin.now.corners }
    requires end { end < length tin.now.corners }
    requires positive { ArePositive tin.now (length tin.now.triangles) }
    ensures { IsTrue result → MeetOnlyIn (places tin.now frame (corner ∷ end ∷ []))
        (places tin.now frame (numbers_of tin.now triangle)) (places tin.now frame (corner ∷ [])) }
{
    match corners_from(&tin.triangles()[triangle as usize], corner) {
        Some(corners) => is_outside(&tri_at(tin, corners, frame), tin.place(end, frame)),
        None => false,
    }
}

/// Whether the point is to the right of one of the two sides at the first corner.
fn is_outside(t: &Tri, p: Pt) -> bool
    requires near { IsNearTri t.now p }
    requires ab { IsNear t.now.a t.now.b }
    requires ac { IsNear t.now.a t.now.c }
    ensures { IsTrue result → (turn_of (whole t.now.a) (whole t.now.b) (whole p) <ℤ pos 0)
        ⊎ (turn_of (whole t.now.a) (whole p) (whole t.now.c) <ℤ pos 0) }
{
    if turn(t.a, t.b, p) < 0 {
        return true;
    }
    turn(t.a, p, t.c) < 0
}

/// Whether a side has no point of the triangle. `false` may be wrong.
fn is_clear(tin: &Tin, frame: Frame, side: BorderSide, triangle: u32) -> bool
    requires side { IsSideIn tin.now side }
    requires triangle { triangle < length tin.now.triangles }
    requires positive { ArePositive tin.now (length tin.now.triangles) }
    ensures { IsTrue result → HaveCommonPoint (places tin.now frame (side.from ∷ side.to ∷ []))
        (places tin.now frame (numbers_of tin.now triangle)) → ⊥ }
{
    let t = tin.tri(triangle, frame);
    let p = tin.place(side.from, frame);
    let q = tin.place(side.to, frame);
    if is_beyond(&t, &Tri { a: p, b: q, c: q }) {
        return true;
    }
    !meets_side(p, q, &t)
}
