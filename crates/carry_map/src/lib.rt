//! A layer through a triangulation: the images of its sheet, and the pieces into which the triangles cut its segments.
//! Each vertex and each crossing is mapped exactly and rounded once.
#![tactic(auto)]

mod faults;
mod guesses;
mod laws;
mod layers;
mod limits;
mod paths;
mod segments;
mod sheets;

pub use faults::CarryFault;
pub use laws::{layer_end_exists, layer_end_is_one, limits_are_stated, outcome_exists};
pub use layers::{Carried, Kept, carry_kept, carry_layer};
pub use limits::MOST_PIECES;
pub use sheets::carry;
