//! Whether a list of triangles is right for a segment.

ghost use Rattle.std.specs.Prelude.{◌↔◌, ◌<◌, length, IsTrue};
ghost use Rattle.plane_base.specs.Plane.{whole};
ghost use Rattle.tin_base.specs.declared.frames.Frame.TheVariants.{Source};
ghost use Rattle.tin_base.specs.Segments.{at_a};
ghost use Rattle.tin_base.specs.Triangulation.{IsInTriangle};
ghost use Rattle.cert_check.specs.RightLists.{AreFollowing, IsOneWith, IsRightList};

use crate::nearness::is_near_corners;
use crate::parts::{is_at_end, part_behind};
use plane_base::{Pt, holds, is_same};
use tin_base::{Frame, SoundTin};

/// Whether the triangle of this number has the point; there may be no such triangle.
fn has_point(tin: &SoundTin, triangle: u32, p: Pt) -> bool
    ensures { IsTrue result ↔ ((triangle < length tin.now.triangles) × IsInTriangle tin.now Source triangle (whole p)) }
{
    if triangle >= tin.triangle_count() {
        return false;
    }
    let corners = tin.tri(triangle, Frame::Source);
    if !is_near_corners(&corners, p) {
        return false;
    }
    holds(&corners, p)
}

fn is_one_with(tin: &SoundTin, p: Pt, numbers: &[u32]) -> bool
    ensures { IsTrue result ↔ IsOneWith tin.now p numbers.now }
{
    match numbers {
        [triangle] => has_point(tin, *triangle, p),
        _ => false,
    }
}

/// Whether the parts of the triangles follow each other from the first end of the segment to its last.
fn are_following(tin: &SoundTin, a: Pt, b: Pt, numbers: &[u32]) -> bool
    ensures { IsTrue result ↔ AreFollowing tin.now a b at_a numbers.now }
{
    tin.show_soundness();
    let mut before = None;
    for number in numbers {
        let Some(part) = part_behind(tin, *number, a, b, before) else {
            return false;
        };
        before = Some(part);
    }
    is_at_end(before)
}

/// Whether the triangles of these numbers are a right list for the segment from `a` to `b`, in millimetres of the
/// source frame. Where `a` is `b` it is one triangle that contains the point. Else the parts of the segment in the
/// triangles follow each other without a gap: the first begins at `a`, each other one where the one before it ends, and
/// the last ends at `b`; none is one point. The points may be anywhere.
pub fn is_right(tin: &SoundTin, a: Pt, b: Pt, numbers: &[u32]) -> bool
    ensures { IsTrue result ↔ IsRightList tin.now a b numbers.now }
{
    if is_same(a, b) {
        is_one_with(tin, a, numbers)
    } else {
        are_following(tin, a, b, numbers)
    }
}
