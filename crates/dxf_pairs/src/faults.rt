//! Why bytes are not read as pairs of group codes and values.

use std::alloc::{AllocError, AllocFailed};
use thiserror::Error;

/// Why bytes are not read as pairs. Lines are counted from 1.
#[derive(Clone, Copy, Debug, PartialEq, Eq, Drop, Error)]
pub enum PairFault {
    /// The bytes begin as a drawing in the binary form.
    #[error("binary drawing")]
    Binary,
    /// The first line where a group code is due that has none.
    #[error("group code at line {line}")]
    Code { line: u64 },
    /// The bytes end after the group code on this line.
    #[error("group code without a value at line {line}")]
    Odd { line: u64 },
    /// The bytes end after a whole pair, or are empty, and no pair ended the drawing.
    #[error("no end of file")]
    NoEof,
    /// Memory ran out.
    #[error("no memory")]
    NoMemory,
}

impl From<AllocError> for PairFault {
    ghost use Rattle.std.specs.Prelude.{◌≡◌};
    ghost use Rattle.dxf_pairs.specs.declared.faults.PairFault.TheVariants.{NoMemory};

    ghost from_gives = { λ _ fault. fault ≡ NoMemory };

    fn from(_: AllocError) -> Self {
        PairFault::NoMemory
    }
}

impl<T: Drop> From<AllocFailed<T>> for PairFault {
    ghost use Rattle.std.specs.Prelude.{◌≡◌};
    ghost use Rattle.dxf_pairs.specs.declared.faults.PairFault.TheVariants.{NoMemory};

    ghost from_gives = { λ _ fault. fault ≡ NoMemory };

    fn from(_: AllocFailed<T>) -> Self {
        PairFault::NoMemory
    }
}
