//! The formats of layers by the ends of their names: what each reads, refuses and writes, in one place for all modes,
//! and the laws that they keep.
#![tactic(auto)]

mod formats;
mod laws;

pub use dxf_layer::Dxf;
pub use formats::{features_of, is_drawing, known_format};
pub use gj_layer::GeoJson;
pub use job_words::Format;
pub use laws::{layer_outcomes_exist, layer_texts_are_one};
pub use wkt_layer::Wkt;
