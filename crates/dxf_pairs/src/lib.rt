//! The pairs of a drawing in ASCII DXF: group codes and values on alternating lines, with their
//! places in the bytes.
#![tactic(auto)]

mod blanks;
mod codes;
mod faults;
mod laws;
mod line_ends;
mod pair_lists;
mod pairs;
mod plain_codes;

pub use codes::MOST_CODE;
pub use faults::PairFault;
pub use laws::{
    codes_are_whole_numbers, limits_are_stated, lines_follow, pairs_are_in_lines,
    pairs_are_the_groups, pairs_tile,
};
pub use line_ends::LINE_FEED;
pub use pair_lists::{BINARY, LAST_VALUE, read_pairs};
pub use pairs::Pair;
