//! The changes of a migration as they are put on the map.

use change_places::{PathSpot, RingSpot, Style};
use sheet_base::Listed;
use tin_base::{Change, Piece};

/// The changes that are printed, and what their features say of them. The text of a feature is made as it is printed.
#[derive(Drop)]
pub struct ChangeMap {
    /// How changes are printed.
    pub style: Style,
    /// The pieces of all layers.
    pub pieces: Vec<Piece>,
    /// Where the paths of each layer are written.
    pub places: Vec<Listed<PathSpot>>,
    /// The texts that parts of these are of.
    pub texts: Vec<Listed<u8>>,
    /// The changes of pieces that are printed.
    pub changes: Vec<Change>,
    /// The changes of sides that are printed, after these.
    pub rings: Vec<RingSpot>,
}
