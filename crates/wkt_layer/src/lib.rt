//! Layers of well-known text (OGC 06-103r4, seven kinds, in the plane or with Z), one geometry a line.
#![tactic(auto)]

mod laws;
mod layer;
mod limits;
mod lines;
mod pass;
mod places;
mod stack;
mod steps;
mod texts;
mod tokens;
mod words;

pub use laws::{
    fault_is_one, limits_are_stated, read_sheets_are_sheets, sheet_is_one, text_outcome_exists,
};
pub use layer::Wkt;
