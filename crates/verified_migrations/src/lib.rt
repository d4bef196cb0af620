//! What migrating and verifying have to do with each other.
#![tactic(auto)]

mod laws;

pub use laws::{migrations_are_verified, piece_certificates_certify, verified_layers_are_migrated};
