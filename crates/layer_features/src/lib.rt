//! The features of a layer of GeoJSON and the entities of a drawing, and which of them has a place.
#![tactic(auto)]

mod documents;
mod drawings;
mod features;
mod laws;
mod nodes;

pub use documents::json_features;
pub use drawings::drawing_features;
pub use features::{Feature, Label, TextPart, feature_at};
pub use laws::{
    copies_are_values, drawing_features_are_one, features_are_one, features_exist,
    handles_are_hexadecimal,
};
