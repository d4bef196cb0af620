//! The run that prints all faults of a triangulation as GeoJSON, over the words, the shelf and the press that it is
//! handed, and what is true of its outcome.
#![tactic(auto)]

mod features;
mod laws;
mod loads;
mod output;
mod premises;
mod refusals;
mod run_ends;
mod spots;
mod words;

pub use features::write_faults;
pub use laws::{faults_are_json, limits_are_stated, outcome_exists, outcome_is_one};
pub use loads::MOST_FAULTS;
pub use refusals::FaultRefusal;
pub use run_ends::{FaultRunEnd, run_to_end};
pub use spots::{FaultKind, FaultSpot, TriangleSpot, spot_of};
pub use words::{Wanted, asks_for_faults, check_words, read_wanted};
