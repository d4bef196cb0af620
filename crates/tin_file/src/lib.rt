//! Triangulation files of PROJ's `tinshift` kind, formats 1.0 and 1.1, read from JSON text. Equal
//! vertex rows are one corner, and clockwise triangles are turned.
#![tactic(auto)]

mod columns;
mod elements;
mod faults;
mod hashes;
mod headings;
mod laws;
mod orientations;
mod spans;
mod tall_columns;
mod tall_files;
mod tall_headings;
mod tall_vertices;
mod tin_files;
mod triangles;
mod vertices;

pub use faults::{Nearest, Rows, TinFault, Top};
pub use laws::{
    answer_is_one, height_faults_are_of_heights, limits_are_stated, offsets_are_of_corners,
    outcome_exists, tall_answer_is_one, tall_outcome_exists,
};
pub use tall_files::{Tall, read_tall};
pub use tin_files::{MOST_BYTES, read_tin};
