//! Whether corners and triangles are within the limits of a triangulation.

ghost use Rattle.std.specs.Prelude.{◌≡◌, ◌↔◌, ◌<◌, ℕ, ◌-ℤ◌, ◌<ℤ◌, IsTrue, All, length};
ghost use Rattle.plane_base.specs.Plane.{IsNear};
ghost use Rattle.plane_base.specs.declared.shapes.TheConstants.{SPAN};
ghost use Rattle.tin_base.specs.declared.frames.Frame.{Frame};
ghost use Rattle.tin_base.specs.Triangulation.{triangulation};
ghost use Rattle.tin_base.specs.Limits.{IsInReach, IsCornerInReach, IsNotFarBelow, IsWithinLimits};
ghost use Rattle.tin_base.specs.InsideLimits.{AreBeside, IsBesideFirst, AreFirstFine, AreRowsBelow};

use crate::{Corner, Frame, MOST_CORNERS, MOST_TRIANGLES, REACH};
use plane_base::{Pt, SPAN};

/// Whether a triangulation can have these corners and these triangles. It compares each two corners, and takes no
/// memory.
pub fn are_within_limits(corners: &[Corner], triangles: &[[u32; 3]]) -> bool
    ensures { (inexact : ℕ) → IsTrue result ↔ IsWithinLimits (triangulation corners.now triangles.now inexact) }
{
    if corners.len() > MOST_CORNERS {
        return false;
    }
    if triangles.len() > MOST_TRIANGLES {
        return false;
    }
    if !are_rows_below(triangles, corners.len()) {
        return false;
    }
    are_all_fine(corners)
}

/// Whether each number of the rows is below the count.
fn are_rows_below(rows: &[[u32; 3]], count: usize) -> bool
    ensures { IsTrue result ↔ AreRowsBelow rows.now count (length rows.now) }
{
    for row in rows {
        if !is_row_below(row, count) {
            return false;
        }
    }
    true
}

fn is_row_below(row: &[u32; 3], count: usize) -> bool
    ensures { IsTrue result ↔ All (λ n. n < count) row.now }
{
    (row[0] as usize) < count && (row[1] as usize) < count && (row[2] as usize) < count
}

/// Whether each corner is in reach and beside those before it.
fn are_all_fine(corners: &[Corner]) -> bool
    ensures { IsTrue result ↔ AreFirstFine corners.now (length corners.now) }
{
    for n in 0..corners.len() {
        if !is_corner_in_reach(&corners[n]) {
            return false;
        }
        if !is_beside_earlier(corners, n) {
            return false;
        }
    }
    true
}

fn is_beside_earlier(corners: &[Corner], n: usize) -> bool
    requires { n < length corners.now }
    ensures { IsTrue result ↔ IsBesideFirst corners.now n n }
{
    for m in 0..n {
        if !are_beside(&corners[m], &corners[n]) {
            return false;
        }
    }
    true
}

fn are_beside(c: &Corner, d: &Corner) -> bool
    ensures { IsTrue result ↔ AreBeside c.now d.now }
{
    if is_same(c, d) {
        return false;
    }
    if !are_near(c, d, Frame::Source) {
        return false;
    }
    are_near(c, d, Frame::Target)
}

fn is_same(c: &Corner, d: &Corner) -> bool
    ensures { IsTrue result ↔ (c.now ≡ d.now) }
{
    c.sx == d.sx && c.sy == d.sy && c.tx == d.tx && c.ty == d.ty
}

fn are_near(c: &Corner, d: &Corner, frame: Frame) -> bool
    ensures { IsTrue result ↔ (IsNotFarBelow frame c.now d.now × IsNotFarBelow frame d.now c.now) }
{
    is_near(c.at(frame), d.at(frame))
}

fn is_near(p: Pt, q: Pt) -> bool
    ensures { IsTrue result ↔ IsNear p q }
{
    if !is_near_on(p.x, q.x) {
        return false;
    }
    is_near_on(p.y, q.y)
}

fn is_near_on(a: i64, b: i64) -> bool
    ensures { IsTrue result ↔ (((a -ℤ b) <ℤ SPAN) × ((b -ℤ a) <ℤ SPAN)) }
{
    a.abs_diff(b) < SPAN as u64
}

fn is_corner_in_reach(corner: &Corner) -> bool
    ensures { IsTrue result ↔ ((frame : Frame) → IsCornerInReach frame corner.now) }
{
    if !is_place_in_reach(corner, Frame::Source) {
        return false;
    }
    is_place_in_reach(corner, Frame::Target)
}

fn is_place_in_reach(corner: &Corner, frame: Frame) -> bool
    ensures { IsTrue result ↔ IsCornerInReach frame corner.now }
{
    let p = corner.at(frame);
    is_in_reach(p.x) && is_in_reach(p.y)
}

fn is_in_reach(number: i64) -> bool
    ensures { IsTrue result ↔ IsInReach number }
{
    -REACH <= number && number <= REACH
}
