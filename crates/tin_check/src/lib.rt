//! Whether a triangulation is sound: whether two triangles meet in their common corners and nowhere else, and the first
//! fault of a triangulation. A sound one is handed on as a type that keeps this fact.
#![tactic(auto)]

mod border_fits;
mod borders;
mod boxes;
mod checks;
mod faults;
mod guesses;
mod laws;
mod marked_corners;
mod pairs;
mod searches;
mod separations;
mod side_orders;
mod side_trees;
mod triangle_fits;

pub use boxes::{box_in, grid_in};
pub use checks::check_tin;
pub use faults::CheckFault;
pub use laws::{faults_are_unsound, first_fault_is_one, outcome_exists};
pub use marked_corners::Common;
pub use triangle_fits::fits;
