//! What bounds a layer.

/// This many collections may nest.
pub const DEEPEST: usize = 64;

/// What ends a line.
pub const LINE_FEED: u8 = b'\n';
