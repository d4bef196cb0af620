//! Boxes of whole points on a grid of cells, to be found by a point or by another box: which of them share a point with
//! it. They are kept on levels by size, in cells that are larger than they are, so that each is in at most four.
#![tactic(auto)]

mod blocks;
mod box_lists;
mod entries;
mod grids;
mod laws;
mod level_lists;
mod level_partners;
mod levels;
mod offsets;
mod rects;
mod searches;
mod widths;

pub use grids::{Grid, LIMIT};
pub use laws::{each_pair_is_told_once, limits_are_stated};
