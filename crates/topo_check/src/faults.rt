//! Why changes are not listed.
ghost use Rattle.std.specs.Prelude.{◌≡◌};
ghost use Rattle.topo_check.specs.declared.faults.ChangesFault.TheVariants.{NoMemory};

use std::alloc::{AllocError, AllocFailed};
use thiserror::Error;

/// Why the changes of some pieces are not listed.
#[derive(Clone, Copy, Debug, PartialEq, Eq, Error)]
pub enum ChangesFault {
    /// There are more of them than may be listed.
    #[error("too many changes")]
    TooMany,
    /// There was not enough memory. It says nothing of the pieces.
    #[error("out of memory")]
    NoMemory,
}

impl From<AllocError> for ChangesFault {
    ghost from_gives = { λ _ e. e ≡ NoMemory };

    fn from(_: AllocError) -> Self {
        ChangesFault::NoMemory
    }
}

impl<T: Drop> From<AllocFailed<T>> for ChangesFault {
    ghost from_gives = { λ _ e. e ≡ NoMemory };

    fn from(_: AllocFailed<T>) -> Self {
        ChangesFault::NoMemory
    }
}
