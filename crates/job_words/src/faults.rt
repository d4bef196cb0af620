//! Why the words of a command are refused.

ghost use Rattle.std.specs.Prelude.{◌≡◌};
ghost use Rattle.clap.specs.Values.{kind_of};
ghost use Rattle.job_words.specs.declared.faults.WordsFault.TheVariants.{NoMemory};
ghost use Rattle.job_words.specs.Faults.{fault_for};

use clap::Error as ParseError;
use clap::error::ErrorKind;
use std::alloc::{AllocError, AllocFailed};
use thiserror::Error;

/// Which name of a job.
#[derive(Clone, Copy, Debug, PartialEq, Eq)]
pub enum Which {
    /// That of the triangulation's file.
    Tin,
    /// That of the folder.
    Out,
    /// That of the layer of this number, counted from 0.
    Layer(u32),
    /// That of the layer that was carried.
    Source,
    /// That of the layer as it was written.
    Written,
    /// That of the certificate's file.
    Certificate,
}

/// Why the words of a command are refused. Layers are counted from 0.
#[derive(Clone, Copy, Debug, PartialEq, Eq, Drop, Error)]
pub enum WordsFault {
    /// There is no word, or the first word is none of the modes.
    #[error("no mode")]
    NoMode,
    /// The words are not those of the mode.
    #[error("not understood")]
    Parse,
    /// The size is not one from 1 to `MOST_SIZE`, written in digits without a leading zero.
    #[error("size")]
    Size,
    /// There are more than `MOST_LAYERS` layers.
    #[error("too many layers")]
    Many,
    /// This name is empty or has a byte below 32.
    #[error("a name that no file may have")]
    Name { which: Which },
    /// This layer's name ends as that of no format.
    #[error("suffix of layer {layer}")]
    Suffix { layer: u32 },
    /// The last part of this layer's name is that of an earlier one's.
    #[error("same name at layer {layer}")]
    SameName { layer: u32 },
    /// An allocation was refused.
    #[error("no memory")]
    NoMemory,
}

impl From<AllocError> for WordsFault {
    ghost from_gives = { λ _ fault. fault ≡ NoMemory };

    fn from(_: AllocError) -> WordsFault {
        WordsFault::NoMemory
    }
}

impl<T: Drop> From<AllocFailed<T>> for WordsFault {
    ghost from_gives = { λ _ fault. fault ≡ NoMemory };

    fn from(_: AllocFailed<T>) -> WordsFault {
        WordsFault::NoMemory
    }
}

impl From<ParseError> for WordsFault {
    ghost from_gives = { λ error fault. fault ≡ fault_for (kind_of error) };

    fn from(error: ParseError) -> WordsFault {
        match error.kind() {
            ErrorKind::OutOfMemory => WordsFault::NoMemory,
            _ => WordsFault::Parse,
        }
    }
}
