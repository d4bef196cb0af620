//! JSON text read into flat nodes with their places; members and texts are compared with escapes
//! resolved.
#![tactic(auto)]

mod document;
mod json_texts;
mod lookup;
mod node_guesses;
mod number;
mod sameness;
mod signs;
mod stack;
mod steps;
mod text;
mod word;

pub use document::{Doc, Kind, Node, Nodes};
pub use json_texts::{
    DEEPEST, JsonFault, answers_exclude_each_other, limits_are_stated, outcome_exists, read_json,
    value_is_one,
};
pub use lookup::{Repeat, each_node_has_a_value, member, same_text};
