//! Digests of files of a shelf, which are read in pieces.
#![tactic(auto)]

mod digests;

pub use digests::{DigestFault, digest};
