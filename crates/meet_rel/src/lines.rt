//! The relation of two segments that are on one line.

ghost use Rattle.std.specs.Prelude.{◌≡◌, ◌↔◌, IsTrue};
ghost use Rattle.plane_base.specs.Plane.{whole};
ghost use Rattle.tin_base.specs.Relations.{HaveRelation};
ghost use Rattle.meet_rel.specs.Signs.{first_of, last_of, DoSpansMeet, AreOnOneLine};

use plane_base::Pt;
use tin_base::Rel;

/// The relation of two segments of one line, by their coordinates on the first axis on which not all four are the same.
pub(crate) fn rel_on_line(a: Pt, b: Pt, c: Pt, d: Pt) -> Rel
    requires { AreOnOneLine a b c d }
    ensures { HaveRelation result (whole a) (whole b) (whole c) (whole d) }
{
    if are_all_equal(a.x, b.x, c.x, d.x) {
        rel_on_axis(a.y, b.y, c.y, d.y)
    } else {
        rel_on_axis(a.x, b.x, c.x, d.x)
    }
}

fn are_all_equal(a: i64, b: i64, c: i64, d: i64) -> bool
    ensures { IsTrue result ↔ ((a ≡ b) × (b ≡ c) × (c ≡ d)) }
{
    a == b && b == c && c == d
}

// The relation of the numbers from `a` to `b` and those from `c` to `d`.
fn rel_on_axis(a: i64, b: i64, c: i64, d: i64) -> Rel
    ensures { DoSpansMeet result a b c d }
{
    let first = later_start(a, b, c, d);
    let last = earlier_end(a, b, c, d);
    if last < first {
        Rel::Apart
    } else if first < last {
        Rel::Overlapping
    } else {
        Rel::Touching
    }
}

fn later_start(a: i64, b: i64, c: i64, d: i64) -> i64
    ensures { result ≡ first_of a b c d }
{
    a.min(b).max(c.min(d))
}

fn earlier_end(a: i64, b: i64, c: i64, d: i64) -> i64
    ensures { result ≡ last_of a b c d }
{
    a.max(b).min(c.max(d))
}
