//! What all formats of layers share: how a file is read, the sheet of paths and edits that is read of a layer, and the
//! images that take the place of its points.
#![tactic(auto)]

mod edits;
mod faults;
mod flags;
mod heights;
mod image_lists;
mod images;
mod layers;
mod lists;
mod numbers;
mod paths;
mod rings;
mod sheets;
mod splices;

pub use edits::{Edit, What};
pub use faults::LayerFault;
pub use flags::How;
pub use heights::Heights;
pub use image_lists::{ImageText, image_range, push_list, push_ring};
pub use images::Images;
pub use layers::Layer;
pub use lists::{Listed, between};
pub use numbers::push_mm;
pub use paths::{PathKind, PathRow};
pub use rings::{are_same_heights, is_closed};
pub use sheets::Sheet;
pub use splices::{EditTexts, splice, splices_keep_the_rest};
