//! Images of points through a sound triangulation, rounded half up to whole millimetres: of a point in a triangle, and
//! of a point on an edge. Offsets are taken from a corner of the target frame, so that no product passes 128 bits.
#![tactic(auto)]

mod crossings;
mod heights;
mod images;
mod laws;
mod mixes;
mod quotients;
mod weights;

pub use crossings::end_image;
pub use heights::{ends_keep_heights, height_at, heights_agree, heights_are_between};
pub use images::{image_cut, image_of};
pub use laws::{
    cuts_are_images, doubled_numerators_are_small, rounded_images_agree,
    rounded_images_are_in_reach, rounded_images_are_near,
};
