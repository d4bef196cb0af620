//! What `tinmove` says of itself: the texts of its help and its version, and the words that ask for them.
#![tactic(auto)]

mod help;

pub use help::{CHECK, Help, MAKE, MIGRATE, USAGE, VERIFY, VERSION, WHOLE, help_of, usage_of};
