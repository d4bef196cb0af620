//! The whole program `tinmove` over the words, the shelf and the press that it is handed, and what is true of its
//! outcome.
#![tactic(auto)]

mod jobs;
mod laws;
mod run_ends;
mod sure_run;

pub use laws::{end_keeps_made_relations, end_keeps_relations, outcome_exists, outcome_is_one};
pub use run_ends::{RunEnd, run, run_to_end};
pub use sure_run::run_surely;
