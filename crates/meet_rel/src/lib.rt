//! The relation of two segments between whole points, and of two pieces of segments in a sound triangulation.
//! Signs of turns and comparisons of fractions decide; no crossing's coordinates are formed.
#![tactic(auto)]

mod clips;
mod cuts;
mod laws;
mod lines;
mod meetings;
mod pieces;
mod segments;
mod sides;

pub use cuts::Span;
pub use laws::{pieces_keep_relations, relations_are_exclusive};
pub use pieces::{piece_rel, piece_span};
pub use segments::rel;
