//! One call makes a whole file through a press.

ghost use Rattle.std.specs.Prelude.{◌≡◌, false, OnOk, OnErr, is_err};
ghost use Rattle.shelf_io.specs.Count.{HasCause};
ghost use Rattle.shelf_io.specs.Made.{Becomes, Lacks, PrintsFront, with_whole};
ghost use Rattle.shelf_io.specs.declared.prints.PrintFault.{PrintFault};

use crate::{Failed, Press, put};
use thiserror::Error;

/// Why a file was not made.
#[derive(Clone, Copy, Debug, PartialEq, Eq, Error)]
pub enum PrintFault {
    /// A call of the press failed.
    #[error("the file could not be written")]
    Failed,
}

impl From<Failed> for PrintFault {
    ghost from_gives = { λ _ e. e ≡ PrintFault.Failed };

    fn from(_: Failed) -> Self {
        PrintFault::Failed
    }
}

/// Makes a whole file of this name and these bytes. After `Failed` the file was not begun, or it
/// holds a first part of the bytes.
pub fn print<P: Press>(press: &mut P, name: &str, bytes: &[u8]) -> Result<(), PrintFault>
    requires free { P.at_hand press.old ≡ false }
    requires new { Lacks (P.made press.old) name.now }
    ensures ok { OnOk result (Becomes (with_whole name.now bytes.now) (P.made press.old) (P.made press.new)) }
    ensures ok_at_hand { OnOk result (P.at_hand press.new ≡ false) }
    ensures err { OnErr result (PrintsFront (P.made press.old) (P.made press.new) name.now bytes.now) }
    ensures cause { HasCause (P.faults press.old) (P.faults press.new) result }
    ensures broken { P.broken press.new ≡ is_err result }
{
    press.begin(name)?;
    put(press, bytes)?;
    press.end()?;
    Ok(())
}
