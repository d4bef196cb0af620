//! What is true of the definitions that the contracts cite.

ghost use Rattle.verify_mode.specs.Laws.{VerificationExists, VerificationIsOne};

use cert_check::{certificate_end_exists, certificates_end_once};
use layer_formats::in_each_format;
use runs::{tin_end_exists, tin_end_is_one};

/// A law: a verification of the same files ends in one way.
pub fn verification_is_one()
    ensures { VerificationIsOne }
{
    tin_end_is_one();
    in_each_format!(certificates_end_once());
}

/// A law: a verification ends, whatever the files are, where the name of the source has a format.
pub fn verification_exists()
    ensures { VerificationExists }
{
    tin_end_exists();
    in_each_format!(certificate_end_exists());
}
