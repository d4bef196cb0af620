//! Parts of one segment in two triangles on different sides of a common side.

ghost use Rattle.std.specs.Prelude.{◌≡◌, ◌⊎◌, IfSome, IsTrue};
ghost use Rattle.plane_base.specs.Plane.{Point};
ghost use Rattle.tin_base.specs.declared.relations.Rel.TheVariants.{Touching, Crossing};
ghost use Rattle.tin_base.specs.Relations.{HaveRelation};
ghost use Rattle.meet_rel.specs.Clips.{AreEnds, IsProper, IsSideFrom};

use crate::clips::Clip;
use crate::segments::rel;
use plane_base::{Pt, Tri, is_same};
use tin_base::Rel;

// A side of a triangle, from one corner to the next.
#[derive(Clone, Copy)]
struct TriangleSide {
    from: Pt,
    to: Pt,
}

/// Whether the parts of one segment touch where it meets a common side of their triangles. Where this says no they can
/// still touch.
pub(crate) fn touch_at_side(p: &Clip, q: &Clip) -> bool
    requires p { IsProper p.now }
    requires q { IsProper q.now }
    requires a { p.now.a ≡ q.now.a }
    requires b { p.now.b ≡ q.now.b }
    ensures { IsTrue result → (first last start end : Point) → AreEnds p.now first last → AreEnds q.now start end
        → HaveRelation Touching first last start end }
{
    match common_side(&p.tri, &q.tri) {
        Some(side) => is_of_one_point(rel(p.a, p.b, side.from, side.to)),
        None => false,
    }
}

// Whether segments of this relation have exactly one common point.
fn is_of_one_point(relation: Rel) -> bool
    ensures { IsTrue result → (relation ≡ Touching) ⊎ (relation ≡ Crossing) }
{
    match relation {
        Rel::Touching | Rel::Crossing => true,
        Rel::Apart | Rel::Overlapping => false,
    }
}

// A side of the first triangle that the second has in the other direction.
fn common_side(t: &Tri, u: &Tri) -> Option<TriangleSide>
    ensures first { IfSome result (λ side. IsSideFrom t.now side.from side.to) }
    ensures second { IfSome result (λ side. IsSideFrom u.now side.to side.from) }
{
    if has_side(u, t.b, t.a) {
        return Some(TriangleSide { from: t.a, to: t.b });
    }
    if has_side(u, t.c, t.b) {
        return Some(TriangleSide { from: t.b, to: t.c });
    }
    if has_side(u, t.a, t.c) {
        return Some(TriangleSide { from: t.c, to: t.a });
    }
    None
}

// Whether a side of the triangle goes from `c` to `d`.
fn has_side(t: &Tri, c: Pt, d: Pt) -> bool
    ensures { IsTrue result → IsSideFrom t.now c d }
{
    if is_same(c, t.a) && is_same(d, t.b) {
        return true;
    }
    if is_same(c, t.b) && is_same(d, t.c) {
        return true;
    }
    is_same(c, t.c) && is_same(d, t.a)
}
