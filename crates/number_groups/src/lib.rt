//! Numbers in groups: the numbers of many entries, each under a key, so that the numbers of one key are together.
//! They are kept in one list, with the place where each group begins in another. And numbers as a set.
#![tactic(auto)]

mod groups;
mod sets;
mod sorts;

pub use groups::{Entry, Groups};
pub use sets::sort_once;
pub use sorts::group;
