//! The texts that take the place of edits in an ASCII DXF drawing, with copies of its entities.
#![tactic(auto)]

mod copies;
mod handle_counts;
mod lengths;
mod pages;
mod rendering;
mod texts;

pub use pages::Page;
pub use rendering::render_page;
