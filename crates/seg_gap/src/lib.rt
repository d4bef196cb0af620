//! The distance of two segments of the plane in whole millimetres, rounded half up, exactly.
//! It is compared by squares of whole numbers, and no place between the ends is formed.
#![tactic(auto)]

mod end_squares;
mod ends;
mod gaps;
mod laws;
mod nearest;

pub use gaps::gap;
pub use laws::{
    gap_exists, gap_is_one, gap_is_symmetric, nearest_end_exists, nearest_end_is_one,
    segments_that_share_a_point_have_no_gap,
};
pub use nearest::nearest_end;
