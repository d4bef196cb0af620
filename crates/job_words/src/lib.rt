//! The words of the command line, read with `clap`, and the job that they give: those of `tinmove` and of `tinplaces`.
#![tactic(auto)]

mod checks;
mod clap_matches;
mod commands;
mod faults;
mod formats;
mod jobs;
mod laws;
mod limits;
mod modes;
mod names;
mod places;
mod sizes;
mod words;

pub use faults::{Which, WordsFault};
pub use formats::{Format, format_of};
pub use jobs::Job;
pub use laws::{jobs_are_kept, places_have_answers, places_jobs_are_kept, words_have_one_answer};
pub use limits::{MOST_LAYERS, MOST_SIZE, limits_are_stated};
pub use names::last_part;
pub use places::{PlacesJob, read_places};
pub use words::read_words;
