//! Why changes of sides are not listed.
ghost use Rattle.std.specs.Prelude.{◌≡◌};
ghost use Rattle.ring_side.specs.declared.faults.SidesFault.TheVariants.{NoMemory};

use std::alloc::{AllocError, AllocFailed};
use thiserror::Error;

/// Why the changes of directions and sides are not listed.
#[derive(Clone, Copy, Debug, PartialEq, Eq, Error)]
pub enum SidesFault {
    /// There are more of them than may be listed.
    #[error("too many sides")]
    TooMany,
    /// There was not enough memory. It says nothing of the layers.
    #[error("out of memory")]
    NoMemory,
}

impl From<AllocError> for SidesFault {
    ghost from_gives = { λ _ e. e ≡ NoMemory };

    fn from(_: AllocError) -> Self {
        SidesFault::NoMemory
    }
}

impl<T: Drop> From<AllocFailed<T>> for SidesFault {
    ghost from_gives = { λ _ e. e ≡ NoMemory };

    fn from(_: AllocFailed<T>) -> Self {
        SidesFault::NoMemory
    }
}
