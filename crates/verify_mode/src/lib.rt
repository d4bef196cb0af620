//! The mode that verifies a written layer by its certificate.
#![tactic(auto)]

mod certificates;
mod files;
mod laws;
mod refusals;
mod verifications;

pub use laws::{verification_exists, verification_is_one};
pub use verifications::{Verification, prepare_verification};
