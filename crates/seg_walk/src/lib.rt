//! The pieces of a segment: the parts of the triangles that it goes through, in order from its first end to its last.
//! Each comes with the exact slice of its triangle; a segment that leaves the triangles anywhere is refused.
#![tactic(auto)]

mod cuts;
mod faults;
mod laws;
mod slices;
mod steps;
mod walks;

pub use cuts::{cut, cut_from, cut_in};
pub use faults::WalkFault;
pub use laws::outcome_exists;
pub use steps::{Step, Steps};
