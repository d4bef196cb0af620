//! The whole program `tinplaces` over the words, the shelf and the press that it is handed, and what is true of its
//! outcome.
#![tactic(auto)]

mod change_maps;
mod laws;
mod layers;
mod output;
mod pieces;
mod places;
mod prints;
mod requests;
mod rooms;
mod run_ends;
mod sides;
mod views;

pub use laws::{outcome_exists, outcome_is_one, places_are_known};
pub use requests::{Request, read_request};
pub use run_ends::{PlaceRunEnd, run, run_to_end};
pub use views::View;
