//! A keeper of a ledger over a database: its two tables, and the statements that read and write them.
#![tactic(auto)]

mod columns;
mod keeper;
mod new_pairs;
mod pair_rows;
mod statements;
mod tables;

pub use keeper::SqlKeeper;
