//! What standard error says of a refusal: where it is, what was found there, and what helps.
#![tactic(auto)]

mod corner_lines;
mod excerpts;
mod file_lines;
mod flaw_lines;
mod layer_tables;
mod line_columns;
mod refusal_tables;
mod remark_lines;
mod sights;
mod spots;
mod stray_lines;
mod tin_tables;

pub use corner_lines::{border_line, corner_line, no_triangles_line, turned_line};
pub use excerpts::{MOST_SHOWN, limits_are_stated};
pub use file_lines::{
    KindCount, KindCounts, Meeting, blocks_line, degrees_line, frame_line, left_out_line,
    long_layer_lines, meeting_line, other_kinds_line, owner_line, rounded_line, unread_line,
    unwritten_lines,
};
pub use flaw_lines::{WordFlaw, word_lines};
pub use layer_tables::{cure, finding};
pub use line_columns::{LineColumn, behind_line, behind_lines, line_and_column};
pub use remark_lines::refusal_remarks;
pub use sights::Sight;
pub use spots::FilePlace;
pub use stray_lines::{Stray, outside_lines};
