//! Points, triangles and boxes of whole millimetres, and the limit of their differences.

ghost use Rattle.std.specs.Prelude.{◌≡◌, ◌↔◌, IsTrue};

/// Points that one call speaks of differ by less than this on each axis, in millimetres.
pub const SPAN: i64 = 1 << 31;

/// A point of the plane, in whole millimetres.
#[derive(Clone, Copy, PartialEq, Eq, Debug)]
pub struct Pt {
    pub x: i64,
    pub y: i64,
}

/// Whether two points are one.
pub fn is_same(a: Pt, b: Pt) -> bool
    ensures { IsTrue result ↔ (a ≡ b) }
{
    a == b
}

/// Three corners. Where their turn is positive they are counterclockwise, and side k goes from corner k to the next.
#[derive(Clone, Copy, PartialEq, Eq, Debug)]
pub struct Tri {
    pub a: Pt,
    pub b: Pt,
    pub c: Pt,
}

/// The box of all points with x from `x0` to `x1` and y from `y0` to `y1`, its border included, in millimetres.
/// It has no point where `x1` is below `x0` or `y1` below `y0`.
#[derive(Clone, Copy, PartialEq, Eq, Debug)]
pub struct Rect {
    pub x0: i64,
    pub y0: i64,
    pub x1: i64,
    pub y1: i64,
}
