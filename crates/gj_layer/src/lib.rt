//! Layers of GeoJSON (RFC 7946): one object, whose geometries have positions of two numbers in a
//! plane frame, and of a height where there is a third.
#![tactic(auto)]

mod boxes;
mod forms;
mod frames;
mod laws;
mod layer;
mod layer_documents;
mod nodes;
mod objects;
mod pass;
mod paths;
mod positions;
mod texts;

pub use laws::{boxes_are_least, read_sheets_are_sheets, sheet_is_one, text_outcome_exists};
pub use layer::GeoJson;
