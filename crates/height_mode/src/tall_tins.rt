//! The sound triangulation of a file, with the offsets of its corners.

ghost use Rattle.std.specs.Prelude.{◌≡◌, ◌+◌, ◌≤◌, length, IfOk, IfErr};
ghost use Rattle.shelf_io.specs.Count.{Rose, count_after};
ghost use Rattle.runs.specs.declared.loads.TheConstants.{MOST_BYTES};
ghost use Rattle.runs.specs.Counts.{LeavesFaults};
ghost use Rattle.tin_height.specs.Offsets.{AreOffsets};
ghost use Rattle.height_mode.specs.Talls.{IsTall, IsTallTextRefused, HasTallOver, IsTallUnready, tall_of};

use runs::{MOST_BYTES, Refusal, load_file};
use sheet_base::{How, Listed};
use shelf_io::Shelf;
use std::alloc::Global;
use tin_check::check_tin;
use tin_file::{Tall, read_tall};
use tin_index::TinIndex;

/// The index of a sound triangulation, and of each of its corners the vertical offset, in millimetres.
#[derive(Drop)]
pub struct TallIndex {
    pub index: TinIndex,
    pub offsets: Listed<i64>,
}

/// The triangulation of a text, where it is read and sound, with its offsets. The error is the first fault of reading
/// it, or else of its soundness.
fn tall_index(alloc: Global, text: &[u8], how: How) -> Result<TallIndex, Refusal>
    requires { length text.now ≤ MOST_BYTES }
    ensures ok { IfOk result (λ loaded. IsTall how text.now (tall_of loaded)) }
    ensures offsets { IfOk result (λ loaded. AreOffsets loaded.index loaded.offsets) }
    ensures refused { IfErr result (λ refusal. IsTallTextRefused how text.now refusal) }
{
    let Tall { tin, offsets } = read_tall(alloc, text, how)?;
    let sound = check_tin(alloc, tin)?;
    let index = TinIndex::build(alloc, sound)?;
    Ok(TallIndex { index, offsets })
}

/// The sound triangulation of the file of this name, with its offsets; the file is at most `MOST_BYTES` long. The error
/// is that of the file, or of its text.
pub fn load_tall<S: Shelf>(
    alloc: Global,
    shelf: &mut S,
    name: &str,
    how: How,
) -> Result<TallIndex, Refusal>
    ensures files { S.files shelf.new ≡ S.files shelf.old }
    ensures ok { IfOk result (λ loaded. HasTallOver (S.files shelf.old) how name.now (tall_of loaded)) }
    ensures offsets { IfOk result (λ loaded. AreOffsets loaded.index loaded.offsets) }
    ensures refused { IfErr result (λ refusal. IsTallUnready (S.files shelf.old) how name.now
        (Rose (S.faults shelf.old) (S.faults shelf.new))
        (count_after (S.given shelf.old) (MOST_BYTES + 1) ≤ S.given shelf.new) refusal) }
    ensures given { S.given shelf.old ≤ S.given shelf.new }
    ensures faults { LeavesFaults (S.faults shelf.old) (S.faults shelf.new) result }
{
    let text = load_file(
        alloc,
        shelf,
        name,
        MOST_BYTES,
        Refusal::TinUnread,
        Refusal::TinLong,
    )?;
    tall_index(alloc, &text, how)
}
