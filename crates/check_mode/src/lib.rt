//! The mode that reads a triangulation and says whether it is sound.
#![tactic(auto)]

mod checks;
mod laws;

pub use checks::{Checked, prepare_check};
pub use laws::check_end_exists;
