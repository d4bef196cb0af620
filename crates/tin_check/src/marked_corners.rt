//! The corners that two triangles have in common, and a triangle counted from one of them.

ghost use Rattle.std.specs.Prelude.{◌≡◌};
ghost use Rattle.tin_check.specs.Marks.{points_of, marked_of, IsAmong, next_of, IsCounted, IsMarked};

use plane_base::{Pt, Tri, is_same};

/// Which corners of two triangles are common to both.
#[derive(Clone, Copy, Debug)]
pub struct Common {
    pub of_t: [bool; 3],
    pub of_u: [bool; 3],
}

/// The marked corners of a triangle, which is counted so that these come first.
#[derive(Clone, Copy)]
pub(crate) enum Marked {
    Nothing,
    Corner(Tri),
    Side(Tri),
    All,
}

/// The triangle, counted from its second corner on.
pub(crate) fn next(t: Tri) -> Tri
    ensures { result ≡ next_of t }
{
    Tri {
        a: t.b,
        b: t.c,
        c: t.a,
    }
}

/// The triangle, counted from the corner `p` on.
pub(crate) fn counted_from(t: &Tri, p: Pt) -> Tri
    requires { IsAmong (points_of t.now) p }
    ensures counted { IsCounted t.now result }
    ensures first { result.a ≡ p }
{
    if is_same(t.a, p) {
        *t
    } else if is_same(t.b, p) {
        next(*t)
    } else {
        next(next(*t))
    }
}

/// The triangle, counted from its marked corners on.
pub(crate) fn read_marks(t: &Tri, marks: [bool; 3]) -> Marked
    ensures { IsMarked (marked_of marks (points_of t.now)) t.now result }
{
    match marks {
        [false, false, false] => Marked::Nothing,
        [true, false, false] => Marked::Corner(*t),
        [false, true, false] => Marked::Corner(next(*t)),
        [false, false, true] => Marked::Corner(next(next(*t))),
        [true, true, false] => Marked::Side(*t),
        [false, true, true] => Marked::Side(next(*t)),
        [true, false, true] => Marked::Side(next(next(*t))),
        [true, true, true] => Marked::All,
    }
}
