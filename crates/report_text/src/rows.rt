//! What a report says of one layer.

use shelf_io::Name;

/// What a report says of one layer.
#[derive(Drop)]
pub struct LayerRow {
    pub paths: u32,
    pub segments: u32,
    pub pieces: u32,
    /// How many coordinate texts lost digits.
    pub inexact: u64,
    /// How many entities of other kinds are left out.
    pub dropped: u64,
    /// Whether it is a drawing, whose stated extents are not changed.
    pub drawing: bool,
    pub name: Name,
}
