//! The whole run of a ledger's script over what it is handed: a shelf, a press and a keeper.
#![tactic(auto)]

mod commands;
mod laws;
mod refusals;
mod reply_lines;
mod run_ends;
mod scripts;
mod status;

pub use laws::limits_are_stated;
pub use refusals::LedgerRefusal;
pub use run_ends::{LedgerEnd, run_ledger, run_to_end, script_of};
pub use scripts::MOST_BYTES;
pub use status::LedgerStatus;
