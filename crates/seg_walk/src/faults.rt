//! Why a segment has no pieces.

ghost use Rattle.std.specs.Prelude.{◌≡◌};
ghost use Rattle.seg_walk.specs.declared.faults.WalkFault.TheVariants.{NoMemory};

use std::alloc::AllocFailed;
use thiserror::Error;

/// Why a segment has no pieces.
#[derive(Clone, Copy, Debug, PartialEq, Eq, Error)]
pub enum WalkFault {
    /// Some point of the segment is in no triangle.
    #[error("the segment has a point that is in no triangle")]
    Outside,
    /// There is no memory for the list.
    #[error("no memory")]
    NoMemory,
}

impl<T: Drop> From<AllocFailed<T>> for WalkFault {
    ghost from_gives = { λ _ e. e ≡ NoMemory };

    fn from(_failed: AllocFailed<T>) -> Self {
        WalkFault::NoMemory
    }
}
