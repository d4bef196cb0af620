//! Whole points of the plane, in millimetres: turns, triangles that hold points, and exact common parts of segments and
//! triangles. No product passes 128 bits, by the span of the points alone.
#![tactic(auto)]

mod boxes;
mod courses;
mod edges;
mod laws;
mod orientations;
mod ranges;
mod shapes;
mod stretches;

pub use edges::edge_param;
pub use laws::{
    boxes_share_a_point_or_are_apart, limits_are_stated, mixes_of_mixes_are_mixes,
    segments_have_parameters, segments_meet_in_intervals, triangles_are_convex,
    triangles_are_left_of_sides, weights_are_turns, weights_are_unique,
};
pub use orientations::{holds, turn};
pub use shapes::{Pt, Rect, SPAN, Tri, is_same};
pub use stretches::{End, Stretch, slice};
