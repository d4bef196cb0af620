//! The most pieces of a run.

/// The most pieces of a run.
pub const MOST_PIECES: u32 = 1 << 22;
