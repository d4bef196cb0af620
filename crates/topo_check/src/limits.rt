//! How many pieces are compared, when a segment has many, and when boxes of images are made.
/// The most pieces that can be compared in one call.
pub const MOST_COMPARED: usize = 1 << 22;

/// A piece with this many others of its segment before it or after it has a box by its exact ends.
pub(crate) const FEW_PIECES: usize = 8;

/// Boxes of images are made where the displacements of a triangle's corners differ by no more than this on each axis, in
/// millimetres, or for a large box by a quarter of its width and height together.
pub(crate) const MOST_SPREAD: i64 = 1 << 10;
