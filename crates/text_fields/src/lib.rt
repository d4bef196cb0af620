//! Fields of lines: words, and numbers without leading zeros after them.
#![tactic(auto)]

mod fields;

pub use fields::{after, long_at, short_at};
