//! The pairs of pieces that have another relation after rounding than in the source frame, in order.
//! One grid of boxes, or two, report each pair that can have changed once; these are compared.
#![tactic(auto)]

mod boxes;
mod change_lists;
mod changed_pairs;
mod comparisons;
mod copies;
mod crowds;
mod faults;
mod grids;
mod image_boxes;
mod kinds;
mod laws;
mod leads;
mod limits;
mod marks;
mod members;
mod parts;
mod shares;

pub use change_lists::changes;
pub use faults::ChangesFault;
pub use laws::{
    changes_are_by_rounding, changes_are_one, changes_exist, limits_are_stated, more_stay_more,
    relation_exists,
};
pub use limits::MOST_COMPARED;
