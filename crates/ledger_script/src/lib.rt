//! The script of a ledger: its lines, and what each asks for.
#![tactic(auto)]

mod line_kinds;
mod script_lines;

pub use line_kinds::line_of;
pub use script_lines::{LineFault, ScriptLine};
