//! Border sides in a tree of boxes: a triangle is tested only with sides in boxes that it may meet.

ghost use Rattle.std.specs.Prelude.{◌≡◌, ◌+◌, ◌<◌, ◌≤◌, ℕ, pos, ◌<ℤ◌, ◌≤ℤ◌, ◌⊎◌, IsTrue, IfOk, List, length};
ghost use Rattle.plane_base.specs.Plane.{corners_of, whole, turn_of, IsNear, IsNearAll};
ghost use Rattle.plane_base.specs.Boxes.{AreIn};
ghost use Rattle.tin_base.specs.declared.frames.Frame.{Frame};
ghost use Rattle.tin_base.specs.Triangulation.{Triangulation, numbers_of, places};
ghost use Rattle.tin_check.specs.declared.borders.BorderSide.{BorderSide};
ghost use Rattle.tin_base.specs.Soundness.{turn_in};
ghost use Rattle.tin_base.specs.Limits.{IsWithinLimits};
ghost use Rattle.tin_check.specs.InsideProgress.{ArePositive};
ghost use Rattle.tin_check.specs.InsideBorders.{AreSides, IsSideIn, IsSideBox, DoesMeet, side_at};
ghost use Rattle.tin_check.specs.InsideSideTrees.{around_of, first_of, past_of, IsTree, IsAround, AreClear};
ghost use Rattle.tin_check.specs.InsideSideTrees.{IsBoxNear, IsNearBox, IsRight, AreFar, DoMeetFrom};

use crate::border_fits::does_meet;
use crate::borders::BorderSide;
use plane_base::{Pt, Rect, Tri, turn};
use std::alloc::{AllocError, Global};
use tin_base::{Frame, Tin};

/// A part of at most this many sides has no smaller parts.
const FEW: usize = 1;

/// A jump from one side to the next is more than this many times as long as that in the middle of a part.
const JUMP: u64 = 4;

/// Sides by their numbers, from `first` to before `past`, in a box round their ends. More than a few are two parts.
#[derive(Drop)]
pub(crate) enum SideTree {
    Few {
        around: Rect,
        first: usize,
        past: usize,
    },
    Parts {
        around: Rect,
        low: Box<SideTree>,
        high: Box<SideTree>,
    },
}

/// The box round the ends of all sides of the tree.
fn around_of(tree: &SideTree) -> Rect
    ensures { result ≡ around_of tree.now }
{
    match tree {
        SideTree::Few { around, .. } => *around,
        SideTree::Parts { around, .. } => *around,
    }
}

/// The tree of the sides from one number to before another, in a frame.
pub(crate) fn tree_of(
    alloc: Global,
    tin: &Tin,
    frame: Frame,
    sides: &[BorderSide],
    first: usize,
    past: usize,
) -> Result<SideTree, AllocError>
    requires some { first < past }
    requires within { past ≤ length sides.now }
    requires sides { AreSides tin.now sides.now }
    ensures tree { IfOk result (IsTree tin.now frame sides.now) }
    ensures first { IfOk result (λ tree. first_of tree ≡ first) }
    ensures past { IfOk result (λ tree. past_of tree ≡ past) }
{
    if past - first <= FEW {
        return Ok(SideTree::Few {
            around: around_sides(tin, frame, sides, first, past),
            first,
            past,
        });
    }
    let middle = middle_of(tin, frame, sides, first, past);
    let low = tree_of(alloc, tin, frame, sides, first, middle)?;
    let high = tree_of(alloc, tin, frame, sides, middle, past)?;
    let around = around_of(&low).with_box(&around_of(&high));
    let low = Box::new(alloc, low)?;
    let high = Box::new(alloc, high)?;
    Ok(SideTree::Parts { around, low, high })
}

/// Where the second of two parts of these sides begins: at a long jump, so that few boxes are round sides of two places
/// with nothing between them, or in the middle where there is none. Each part has at least an eighth of the sides.
fn middle_of(tin: &Tin, frame: Frame, sides: &[BorderSide], first: usize, past: usize) -> usize
    requires more { first + 1 < past }
    requires within { past ≤ length sides.now }
    requires sides { AreSides tin.now sides.now }
    ensures after { first < result }
    ensures before { result < past }
{
    let least = (past - first) / 8;
    let mut middle = first + (past - first) / 2;
    let mut longest = way_to(tin, frame, sides, middle).saturating_mul(JUMP);
    for number in first + 1 + least..past - least {
        let way = way_to(tin, frame, sides, number);
        if way > longest {
            longest = way;
            middle = number;
        }
    }
    middle
}

/// How far a side begins from where the side before it begins, in millimetres along both axes.
fn way_to(tin: &Tin, frame: Frame, sides: &[BorderSide], number: usize) -> u64
    requires some { 0 < number }
    requires within { number < length sides.now }
    requires sides { AreSides tin.now sides.now }
{
    let p = tin.place(sides[number - 1].from, frame);
    let q = tin.place(sides[number].from, frame);
    p.x.abs_diff(q.x).saturating_add(p.y.abs_diff(q.y))
}

/// The box of some sides in a frame.
fn around_sides(tin: &Tin, frame: Frame, sides: &[BorderSide], first: usize, past: usize) -> Rect
    requires some { first < past }
    requires within { past ≤ length sides.now }
    requires sides { AreSides tin.now sides.now }
    ensures { IsAround tin.now frame sides.now first past result }
{
    let mut around = side_box(tin, frame, sides[first]);
    let mut number = first + 1;
    while number < past {
        around = around.with_box(&side_box(tin, frame, sides[number]));
        number += 1;
    }
    around
}

/// The box of a side in a frame, in millimetres.
fn side_box(tin: &Tin, frame: Frame, side: BorderSide) -> Rect
    requires { IsSideIn tin.now side }
    ensures around { IsSideBox tin.now frame side result }
    ensures limits { IsWithinLimits tin.now }
{
    Rect::of_segment(tin.place(side.from, frame), tin.place(side.to, frame))
}

/// Whether the box is apart from the boxes of all parts of the tree. `false` shows nothing.
pub(crate) fn is_far(tree: &SideTree, map: &Rect) -> bool
    ensures { (tin : Triangulation) (frame : Frame) (sides : List BorderSide) → IsTree tin frame sides tree.now
        → IsTrue result → AreFar tin frame sides map.now (first_of tree.now) (past_of tree.now) }
{
    if map.is_apart_from(&around_of(tree)) {
        return true;
    }
    match tree {
        SideTree::Few { .. } => false,
        SideTree::Parts { low, high, .. } => {
            if !is_far(low, map) {
                return false;
            }
            is_far(high, map)
        }
    }
}

/// Whether each side of the tree meets the triangle, whose corners and box these are, in a common corner at most, or is
/// its own.
/// `false` shows nothing.
pub(crate) fn meets_tree(
    tin: &Tin,
    frame: Frame,
    triangle: u32,
    t: &Tri,
    own: &Rect,
    sides: &[BorderSide],
    tree: &SideTree,
) -> bool
    requires triangle { triangle < length tin.now.triangles }
    requires positive { ArePositive tin.now (length tin.now.triangles) }
    requires limits { IsWithinLimits tin.now }
    requires corners { corners_of t.now ≡ places tin.now frame (numbers_of tin.now triangle) }
    requires near { IsNearAll t.now.a t.now.b t.now.c }
    requires turn { turn_of (whole t.now.a) (whole t.now.b) (whole t.now.c) ≡ turn_in tin.now frame triangle }
    requires sides { AreSides tin.now sides.now }
    requires tree { IsTree tin.now frame sides.now tree.now }
    requires own { AreIn own.now (places tin.now frame (numbers_of tin.now triangle)) }
    ensures { IsTrue result → DoMeetFrom tin.now frame sides.now triangle (first_of tree.now) (past_of tree.now) }
{
    if is_clear_of(t, own, &around_of(tree)) {
        return true;
    }
    match tree {
        SideTree::Few { first, past, .. } => {
            meets_some(tin, frame, triangle, sides, *first, *past)
        }
        SideTree::Parts { low, high, .. } => {
            if !meets_tree(tin, frame, triangle, t, own, sides, low) {
                return false;
            }
            meets_tree(tin, frame, triangle, t, own, sides, high)
        }
    }
}

/// Whether each of the sides from one number to before another meets the triangle in a common corner at most, or is its
/// own. `false` shows nothing.
fn meets_some(
    tin: &Tin,
    frame: Frame,
    triangle: u32,
    sides: &[BorderSide],
    first: usize,
    past: usize,
) -> bool
    requires triangle { triangle < length tin.now.triangles }
    requires positive { ArePositive tin.now (length tin.now.triangles) }
    requires within { past ≤ length sides.now }
    requires sides { AreSides tin.now sides.now }
    ensures { IsTrue result → DoMeetFrom tin.now frame sides.now triangle first past }
{
    let mut number = first;
    while number < past {
        if !does_meet(tin, frame, sides[number], triangle) {
            return false;
        }
        number += 1;
    }
    true
}

/// Whether the triangle, whose box this is, has no point in the other box: the boxes are apart, or a side of the triangle
/// has the other box on its right. `false` shows nothing.
fn is_clear_of(t: &Tri, own: &Rect, around: &Rect) -> bool
    requires positive { pos 0 <ℤ turn_of (whole t.now.a) (whole t.now.b) (whole t.now.c) }
    requires ab { IsNear t.now.a t.now.b }
    requires bc { IsNear t.now.b t.now.c }
    requires ca { IsNear t.now.c t.now.a }
    requires own { AreIn own.now (corners_of t.now) }
    requires near { IsNearBox t.now around.now }
    ensures { IsTrue result → AreClear t.now around.now }
{
    if own.is_apart_from(around) {
        return true;
    }
    if around.has_point(t.a) {
        return false;
    }
    if is_box_right_of(t.a, t.b, around) {
        return true;
    }
    if is_box_right_of(t.b, t.c, around) {
        return true;
    }
    is_box_right_of(t.c, t.a, around)
}

/// Whether the box is to the right of the line from `p` to `q`, by the one of its corners that is furthest to the left.
fn is_box_right_of(p: Pt, q: Pt, around: &Rect) -> bool
    requires near { IsNear p q }
    requires near_p { IsBoxNear around.now p }
    requires near_q { IsBoxNear around.now q }
    ensures { IsTrue result → IsRight (whole p) (whole q) around.now }
{
    turns_right(p, q, leftmost_corner(p, q, around))
}

/// Whether the third point is to the right of the line from the first to the second.
fn turns_right(p: Pt, q: Pt, r: Pt) -> bool
    requires { IsNearAll p q r }
    ensures { IsTrue result → turn_of (whole p) (whole q) (whole r) <ℤ pos 0 }
{
    turn(p, q, r) < 0
}

/// The corner of the box that is furthest to the left of the line from `p` to `q`.
fn leftmost_corner(p: Pt, q: Pt, around: &Rect) -> Pt
    ensures x { ((p.y ≤ℤ q.y) × (result.x ≡ around.now.x0)) ⊎ ((q.y <ℤ p.y) × (result.x ≡ around.now.x1)) }
    ensures y { ((p.x ≤ℤ q.x) × (result.y ≡ around.now.y1)) ⊎ ((q.x <ℤ p.x) × (result.y ≡ around.now.y0)) }
{
    Pt {
        x: leftmost_x(p, q, around),
        y: leftmost_y(p, q, around),
    }
}

// Its x.
fn leftmost_x(p: Pt, q: Pt, around: &Rect) -> i64
    ensures { ((p.y ≤ℤ q.y) × (result ≡ around.now.x0)) ⊎ ((q.y <ℤ p.y) × (result ≡ around.now.x1)) }
{
    if p.y <= q.y { around.x0 } else { around.x1 }
}

// Its y.
fn leftmost_y(p: Pt, q: Pt, around: &Rect) -> i64
    ensures { ((p.x ≤ℤ q.x) × (result ≡ around.now.y1)) ⊎ ((q.x <ℤ p.x) × (result ≡ around.now.y0)) }
{
    if p.x <= q.x { around.y1 } else { around.y0 }
}
