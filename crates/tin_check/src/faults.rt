//! Why a triangulation is not known to be sound.

ghost use Rattle.std.specs.Prelude.{◌≡◌};
ghost use Rattle.tin_check.specs.declared.faults.CheckFault.TheVariants.{NoMemory};

use std::alloc::AllocError;
use thiserror::Error;
use tin_base::Frame;

/// Why a triangulation is not known to be sound. Triangles are numbered from 0, in their order in the triangulation.
#[derive(Clone, Copy, Debug, PartialEq, Eq, Error)]
pub enum CheckFault {
    /// The triangle's turn is 0 in the frame.
    #[error("triangle {triangle} is flat")]
    Flat {
        triangle: u32,
        frame: Frame,
    },
    /// The triangle's turn is negative in one of the frames, or in both.
    #[error("triangle {triangle} turns over")]
    TurnsOver {
        triangle: u32,
    },
    /// In the frame two triangles have three common corners, or a common point that is no mix of their common corners.
    /// The first has the lower number.
    #[error("triangles {first} and {second} meet")]
    Meets {
        first: u32,
        second: u32,
        frame: Frame,
    },
    /// There was not enough memory. It says nothing of the triangulation.
    #[error("out of memory")]
    NoMemory,
}

impl From<AllocError> for CheckFault {
    ghost from_gives = { λ _ e. e ≡ NoMemory };

    fn from(_: AllocError) -> Self {
        CheckFault::NoMemory
    }
}
