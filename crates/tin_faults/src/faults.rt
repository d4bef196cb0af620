//! A fault of a triangulation, and why the faults are not listed.

ghost use Rattle.std.specs.Prelude.{◌≡◌};
ghost use Rattle.tin_faults.specs.declared.faults.ListFault.TheVariants.{NoMemory};

use std::alloc::AllocError;
use thiserror::Error;
use tin_base::Frame;

/// What is wrong in a frame. Triangles are numbered from 0, in their order in the triangulation.
#[derive(Clone, Copy, Debug, PartialEq, Eq)]
pub enum Fault {
    /// The triangle's turn is 0.
    Flat {
        frame: Frame,
        triangle: u32,
    },
    /// The triangle's turn is negative.
    TurnsOver {
        frame: Frame,
        triangle: u32,
    },
    /// Two triangles, neither of them flat, have three common corners, or a common point that is no mix of their common
    /// corners. The first has the lower number.
    Overlap {
        frame: Frame,
        first: u32,
        second: u32,
    },
}

/// Why the faults are not listed.
#[derive(Clone, Copy, Debug, PartialEq, Eq, Error)]
pub enum ListFault {
    /// There are more of them than are wanted.
    #[error("too many faults")]
    TooMany,
    /// There was not enough memory. It says nothing of the triangulation.
    #[error("out of memory")]
    NoMemory,
}

impl From<AllocError> for ListFault {
    ghost from_gives = { λ _ e. e ≡ NoMemory };

    fn from(_: AllocError) -> Self {
        ListFault::NoMemory
    }
}
