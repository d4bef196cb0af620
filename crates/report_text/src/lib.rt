//! The report of a run as text, both ways: what was carried, which pairs of pieces have another
//! relation after rounding, and which points another side of a ring.
#![tactic(auto)]

mod drafts;
mod faults;
mod field_texts;
mod fields;
mod laws;
mod line_kinds;
mod lines;
mod readers;
mod report_texts;
mod reports;
mod rows;
mod side_kinds;
mod side_texts;

pub use faults::ReportFault;
pub use laws::{
    bad_lines_are_one, limits_are_stated, outcome_exists, read_is_written, texts_are_one,
    written_is_read,
};
pub use lines::LINE_FEED;
pub use readers::read_report;
pub use report_texts::{put_place, put_relation, write_report};
pub use reports::Report;
pub use rows::LayerRow;
