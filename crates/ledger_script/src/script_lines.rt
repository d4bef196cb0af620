//! What a line of a script asks for.

ghost use Rattle.std.specs.Prelude.{◌≡◌};
ghost use Rattle.ledger_script.specs.declared.script_lines.LineFault.TheVariants.{NoMemory};

use ledger_core::Mark;
use sheet_base::Listed;
use shelf_io::Name;
use std::alloc::{AllocError, AllocFailed};
use thiserror::Error;

/// What a line of a script asks for.
#[derive(Drop)]
pub enum ScriptLine {
    /// Enter the run whose report this is, with the layers that it wrote.
    Enter { report: Name, layers: Listed<Name> },
    /// Decide on a pair.
    Decide { run: u32, place: u32, mark: Mark },
    /// List the undecided pairs of a run.
    List { run: u32 },
    /// Say whether every pair of a run is decided.
    Clear { run: u32 },
}

/// Why a line is not read.
#[derive(Clone, Copy, Debug, PartialEq, Eq, Error)]
pub enum LineFault {
    /// It has none of the forms.
    #[error("a line of no form")]
    Bad,
    /// There was not enough memory. It says nothing of the line.
    #[error("out of memory")]
    NoMemory,
}

impl From<AllocError> for LineFault {
    ghost from_gives = { λ _ e. e ≡ NoMemory };

    fn from(_: AllocError) -> Self {
        LineFault::NoMemory
    }
}

impl<T: Drop> From<AllocFailed<T>> for LineFault {
    ghost from_gives = { λ _ e. e ≡ NoMemory };

    fn from(_: AllocFailed<T>) -> Self {
        LineFault::NoMemory
    }
}
