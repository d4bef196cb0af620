//! The sound triangulation of a text.

ghost use Rattle.std.specs.Prelude.{◌≤◌, length, IfOk, IfErr};
ghost use Rattle.runs.specs.Triangulations.{IsTin, IsTextRefused};

use crate::refusal::Refusal;
use sheet_base::How;
use std::alloc::Global;
use tin_base::SoundTin;
use tin_check::check_tin;
use tin_file::{MOST_BYTES, read_tin};

/// The triangulation of a text, where it is read and sound. The error is the first fault of reading it, or else of its
/// soundness.
pub fn sound_tin(alloc: Global, text: &[u8], how: How) -> Result<SoundTin, Refusal>
    requires { length text.now ≤ MOST_BYTES }
    ensures ok { IfOk result (λ tin. IsTin how text.now tin) }
    ensures refused { IfErr result (λ refusal. IsTextRefused how text.now refusal) }
{
    let tin = read_tin(alloc, text, how)?;
    let sound = check_tin(alloc, tin)?;
    Ok(sound)
}
