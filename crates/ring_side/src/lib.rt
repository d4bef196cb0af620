//! Rings of whole points: the side of a ring that a point is on, the direction of a ring, and which of both changed when
//! the points were carried to another frame.
#![tactic(auto)]

mod changes;
mod clusters;
mod faults;
mod forms;
mod group_boxes;
mod groups;
mod kinds;
mod laws;
mod orders;
mod part_sides;
mod rings;
mod segments;
mod side_lists;
mod sides;
mod trees;
mod ways;

pub use changes::side_changes;
pub use faults::SidesFault;
pub use kinds::{Side, SideChange, Spot, Way};
pub use laws::{
    empty_lists_keep_sides, limits_are_stated, lists_are_all_side_changes,
    points_of_segments_are_mixes,
};
pub use rings::{MOST_LAYERS, MOST_POINTS};
pub use side_lists::SideList;
pub use sides::side_of;
pub use ways::way_of;
