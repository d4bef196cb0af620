//! A ledger of decisions: which changed pairs of each run were looked at, over any keeper of records.
#![tactic(auto)]

mod answers;
mod command_lists;
mod commands;
mod faults;
mod keepers;
mod laws;
mod limits;
mod mem_keeper;
mod mem_runs;
mod pairs;
mod replies;

pub use answers::obey;
pub use command_lists::obey_all;
pub use commands::{Command, Reply};
pub use faults::{KeepFault, Stop};
pub use keepers::Keeper;
pub use laws::{accepted_alone, clear_is_decided, decisions_stand, entered_once};
pub use limits::{MOST_COMMANDS, MOST_PAIRS, MOST_RUNS, limits_are_stated};
pub use mem_keeper::MemKeeper;
pub use pairs::{Mark, PairRow, Seal, Totals, Verdict};
pub use replies::{PairList, Replies};
