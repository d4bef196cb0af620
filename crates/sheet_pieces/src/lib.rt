//! The pieces of a sheet's segments, and the images of its vertices and crossings with their heights, by definitions
//! and laws. The calls count points and segments, and give the heights of a segment's ends and of points between them.
#![tactic(auto)]

mod counts;
mod laws;
mod segment_heights;

pub use counts::{next_point, point_count, segment_count, segment_total};
pub use laws::{
    image_segments_are_pieces, images_exist, images_fit, piece_images_are_joined,
    piece_images_are_the_image, sheet_pieces_are_pieces,
};
pub use segment_heights::{EndHeights, end_heights, height_between};
