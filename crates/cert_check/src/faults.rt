//! Why a certificate is refused.

ghost use Rattle.std.specs.Prelude.{◌≡◌};
ghost use Rattle.cert_check.specs.declared.faults.CertFault.TheVariants.{NoMemory};

use sheet_base::LayerFault;
use std::alloc::{AllocError, AllocFailed};
use thiserror::Error;

/// Why a migrated layer is not certified. Lines are counted from 1, paths and the segments of a path from 0, and places
/// in bytes from 0.
#[derive(Clone, Copy, Debug, PartialEq, Eq, Error)]
pub enum CertFault {
    /// The source layer is not read, for this reason.
    #[error("{0}")]
    Layer(LayerFault),
    /// The line is the first of the certificate that is not of the form.
    #[error("form at line {line}")]
    Form { line: u64 },
    /// The certificate has lines for another number of segments.
    #[error("{lines} lines for {segments} segments")]
    Count { segments: u32, lines: u32 },
    /// The segment is the first whose list is not right.
    #[error("segment {path}/{segment}")]
    Segment { path: u32, segment: u32 },
    /// The written layer is another from this place on.
    #[error("differs at {at}")]
    Differs { at: u64 },
    /// There was not enough memory. It says nothing of the layer.
    #[error("out of memory")]
    NoMemory,
}

impl From<AllocError> for CertFault {
    ghost from_gives = { λ _ e. e ≡ NoMemory };

    fn from(_: AllocError) -> Self {
        CertFault::NoMemory
    }
}

impl<T: Drop> From<AllocFailed<T>> for CertFault {
    ghost from_gives = { λ _ e. e ≡ NoMemory };

    fn from(_: AllocFailed<T>) -> Self {
        CertFault::NoMemory
    }
}
