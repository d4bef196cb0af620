//! All faults of a triangulation: the triangles that are flat or turn over in a frame, and the pairs of triangles that do
//! not fit together there.
#![tactic(auto)]

mod faults;
mod laws;
mod lists;
mod searches;
mod triangle_pairs;
mod turns;

pub use faults::{Fault, ListFault};
pub use laws::{
    faults_are_one, faults_exist, first_fault_is_listed, lists_are_counted, none_are_sound,
};
pub use searches::all_faults;
