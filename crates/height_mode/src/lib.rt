//! The mode that moves points with heights through a triangulation with a vertical component.
#![tactic(auto)]

mod heights;
mod laws;
mod moved_points;
mod tall_tins;

pub use heights::{HeightJob, prepare_heights};
pub use laws::{heights_are_one, heights_exist};
