//! One call writes all bytes of a piece at the end of a press's file.

ghost use Rattle.std.specs.Prelude.{◌≡◌, true, OnOk, OnErr, IsTrue};
ghost use Rattle.shelf_io.specs.Count.{HasCause};
ghost use Rattle.shelf_io.specs.Made.{Appends, AppendsFront};

use crate::{Failed, Press};

/// How many bytes one write is given at most.
const PIECE: usize = 65_536;

/// Writes the whole piece at the end of the file at hand. After `Failed` a first part of it was written.
pub fn put<P: Press>(press: &mut P, piece: &[u8]) -> Result<(), Failed>
    requires { IsTrue (P.at_hand press.old) }
    ensures ok { OnOk result (Appends (P.made press.old) (P.made press.new) piece.now) }
    ensures err { OnErr result (AppendsFront (P.made press.old) (P.made press.new) piece.now) }
    ensures at_hand { P.at_hand press.new ≡ true }
    ensures cause { HasCause (P.faults press.old) (P.faults press.new) result }
    ensures broken { OnErr result (P.broken press.new ≡ true) }
{
    let mut written = 0;
    while written < piece.len() {
        let end = piece.len().min(written + PIECE);
        written += press.write(&piece[written..end])?;
    }
    Ok(())
}
