//! Writing what a run makes, or the line of its refusal.
#![tactic(auto)]

mod outputs;
mod sure_outputs;

pub use outputs::{end, publish, refuse, say};
pub use sure_outputs::{publish_surely, refuse_surely};
