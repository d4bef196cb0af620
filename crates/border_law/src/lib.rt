//! A triangulation is sound where its border sides meet other triangles in common corners alone. The crate has two laws,
//! and no code.
#![tactic(auto)]

mod laws;

pub use laws::{bordered_is_sound, bordered_triangles_fit};
