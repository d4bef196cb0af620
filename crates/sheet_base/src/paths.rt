//! The kinds of paths of a sheet, and the points of a path.

/// What the points of a path are.
#[derive(Clone, Copy, Debug, PartialEq, Eq)]
pub enum PathKind {
    /// One point.
    Dot,
    /// Points that are joined in order.
    Line,
    /// Points that are joined in order, and the last to the first; a ring's closing point is not kept.
    Loop,
}

/// A path of a sheet: the points from the number `first` to before the number `past`.
#[derive(Clone, Copy, Debug, PartialEq, Eq)]
pub struct PathRow {
    pub kind: PathKind,
    pub first: u32,
    pub past: u32,
}
