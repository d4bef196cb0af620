//! What standard error says beside a run of a ledger's script that is refused: the line, what is wrong with it, and what
//! helps.
#![tactic(auto)]

mod line_flaws;
mod remark_lines;

pub use line_flaws::{Finding, LineFlaw, finding_of};
pub use remark_lines::{
    flaw_lines, other_layers_lines, unread_lines, unread_script_lines, wrong_report_lines,
};
