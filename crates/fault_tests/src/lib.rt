//! The tests of the list of all faults and of its run, over files in memory. They are above both libraries, so that
//! these are proved without them, and once.
#![tactic(auto)]

#[cfg(test)]
mod whole_runs;
