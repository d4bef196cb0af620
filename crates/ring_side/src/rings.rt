//! How many points a ring has at most, and how many layers there are.

/// A ring whose direction is asked for has at most this many points.
pub const MOST_POINTS: usize = 1 << 24;

/// There are at most this many layers.
pub const MOST_LAYERS: usize = 1024;
