//! The byte that ends each line of a report.

/// The byte that ends each line.
pub const LINE_FEED: u8 = b'\n';
