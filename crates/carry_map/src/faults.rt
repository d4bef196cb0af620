//! Why a layer is not carried.

ghost use Rattle.std.specs.Prelude.{◌≡◌};
ghost use Rattle.carry_map.specs.declared.faults.CarryFault.TheVariants.{NoMemory};

use sheet_base::LayerFault;
use std::alloc::{AllocError, AllocFailed};
use thiserror::Error;

/// Why a layer is not carried. Paths, and the segments of a path, are counted from 0.
#[derive(Clone, Copy, Debug, PartialEq, Eq, Error)]
pub enum CarryFault {
    /// The layer is not read, for this reason.
    #[error("{0}")]
    Layer(LayerFault),
    /// The segment has a point that is in no triangle.
    #[error("segment {segment} of path {path} has a point that is in no triangle")]
    Outside { path: u32, segment: u32 },
    /// With the pieces of the segment there are more than there may be.
    #[error("there are too many pieces")]
    TooMany,
    /// There was not enough memory. It says nothing of the layer.
    #[error("out of memory")]
    NoMemory,
}

impl From<AllocError> for CarryFault {
    ghost from_gives = { λ _ e. e ≡ NoMemory };

    fn from(_: AllocError) -> Self {
        CarryFault::NoMemory
    }
}

impl<T: Drop> From<AllocFailed<T>> for CarryFault {
    ghost from_gives = { λ _ e. e ≡ NoMemory };

    fn from(_: AllocFailed<T>) -> Self {
        CarryFault::NoMemory
    }
}
