//! Why a keeper does not answer, and where a list of commands stops.

ghost use Rattle.std.specs.Prelude.{◌≡◌};
ghost use Rattle.ledger_core.specs.declared.faults.KeepFault.TheVariants.{NoMemory};

use std::alloc::{AllocError, AllocFailed};
use thiserror::Error;

/// Why a keeper does not answer.
#[derive(Clone, Copy, Debug, PartialEq, Eq, Error)]
pub enum KeepFault {
    /// A call of the outside failed.
    #[error("the keeper failed")]
    Failed,
    /// There was not enough memory.
    #[error("out of memory")]
    NoMemory,
}

impl From<AllocError> for KeepFault {
    ghost from_gives = { λ _ e. e ≡ NoMemory };

    fn from(_: AllocError) -> Self {
        KeepFault::NoMemory
    }
}

impl<T: Drop> From<AllocFailed<T>> for KeepFault {
    ghost from_gives = { λ _ e. e ≡ NoMemory };

    fn from(_: AllocFailed<T>) -> Self {
        KeepFault::NoMemory
    }
}

/// A list of commands was obeyed up to the one with this number, from 0, which gave no answer for this cause.
#[derive(Clone, Copy, Debug, PartialEq, Eq, Error)]
#[error("stopped at command {at}: {fault}")]
pub struct Stop {
    pub at: u32,
    pub fault: KeepFault,
}
