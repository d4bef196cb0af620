//! The triangulation of a file, sound or not, and the text of its faults.

ghost use Rattle.std.specs.Prelude.{◌≡◌, ◌+◌, ◌≤◌, false, length, IfOk, IfErr};
ghost use Rattle.shelf_io.specs.Count.{Rose, count_after};
ghost use Rattle.shelf_io.specs.Load.{LacksName};
ghost use Rattle.tin_base.specs.Soundness.{IsSound};
ghost use Rattle.tin_faults.specs.Faults.{HasMoreFaults};
ghost use Rattle.tin_faults.specs.declared.faults.ListFault.TheVariants.{TooMany};
ghost use Rattle.runs.specs.declared.loads.TheConstants.{MOST_BYTES};
ghost use Rattle.runs.specs.Counts.{LeavesFaults, shelf_counts};
ghost use Rattle.runs.specs.Causes.{HasCauses};
ghost use Rattle.runs.specs.Loads.{IsTinUnready};
ghost use Rattle.runs.specs.Triangulations.{IsRead, IsTextRefused};
ghost use Rattle.fault_runs.specs.Outcome.{HasReadOver, IsNotChecked, IsSaidOf, has_some};
ghost use Rattle.fault_runs.specs.HandedOut.{IsSoundOf};
ghost use Rattle.fault_runs.specs.InsideTexts.{IsFaultsText};

use crate::features::write_faults;
use crate::premises::text_is_json;
use crate::spots::spots_of;
use runs::{MOST_BYTES, Refusal, load_file};
use sheet_base::{How, Listed};
use shelf_io::Shelf;
use std::alloc::Global;
use tin_base::{SoundTin, Tin};
use tin_faults::{Fault, ListFault, all_faults, none_are_sound};
use tin_file::read_tin;

/// The most faults that are printed.
pub const MOST_FAULTS: usize = 1 << 20;

/// The text of the faults of a triangulation, and whether there is one.
#[derive(Drop)]
pub(crate) struct FaultsSaid {
    pub(crate) text: Listed<u8>,
    pub(crate) some: bool,
}

/// The triangulation of a text. The error is the first fault of reading it.
fn read_text(alloc: Global, text: &[u8], how: How) -> Result<Tin, Refusal>
    requires { length text.now ≤ MOST_BYTES }
    ensures ok { IfOk result (λ tin. IsRead how text.now tin) }
    ensures refused { IfErr result (λ refusal. IsTextRefused how text.now refusal) }
    ensures not_checked { IfErr result IsNotChecked }
{
    let tin = read_tin(alloc, text, how)?;
    Ok(tin)
}

/// The triangulation of the file of this name, sound or not. The error is that of the file, at most `MOST_BYTES` long,
/// or the first fault of reading its text.
pub(crate) fn load_read<S: Shelf>(
    alloc: Global,
    shelf: &mut S,
    name: &str,
    how: How,
) -> Result<Tin, Refusal>
    ensures ok { IfOk result (λ tin. HasReadOver (S.files shelf.old) how name.now tin) }
    ensures refused { IfErr result (λ refusal. IsTinUnready (S.files shelf.old) how name.now
        (Rose (S.faults shelf.old) (S.faults shelf.new))
        (count_after (S.given shelf.old) (MOST_BYTES + 1) ≤ S.given shelf.new) refusal) }
    ensures not_checked { IfErr result IsNotChecked }
    ensures causes { IfErr result (HasCauses (LacksName (S.files shelf.old) name.now) (λ status. Unit {0})
        (shelf_counts (S.faults shelf.old) (S.faults shelf.new) (S.given shelf.old) (S.given shelf.new))) }
    ensures faults { LeavesFaults (S.faults shelf.old) (S.faults shelf.new) result }
{
    let text = load_file(
        alloc,
        shelf,
        name,
        MOST_BYTES,
        Refusal::TinUnread,
        Refusal::TinLong,
    )?;
    read_text(alloc, &text, how)
}

/// Whether there is a fault.
fn has_some(faults: &[Fault]) -> bool
    ensures { result ≡ has_some faults.now }
{
    !faults.is_empty()
}

/// The triangulation where it has no fault.
pub(crate) fn sound_of(tin: Tin, has_fault: bool) -> Option<SoundTin>
    requires { has_fault ≡ false → IsSound tin }
    ensures { IsSoundOf has_fault tin result }
{
    if has_fault {
        None
    } else {
        Some(SoundTin::of(tin))
    }
}

/// The text of all faults of a triangulation.
pub(crate) fn prepare_faults(alloc: Global, lines: bool, tin: &Tin) -> Result<FaultsSaid, ListFault>
    ensures ok { IfOk result (λ said. IsSaidOf lines tin.now said.text said.some) }
    ensures form { IfOk result (λ said. IsFaultsText lines said.text) }
    ensures sound { IfOk result (λ said. said.some ≡ false → IsSound tin.now) }
    ensures too_many { IfErr result (λ why. why ≡ TooMany → HasMoreFaults tin.now MOST_FAULTS) }
{
    let faults = all_faults(alloc, tin, MOST_FAULTS)?;
    none_are_sound();
    let spots = spots_of(alloc, tin, &faults)?;
    text_is_json(lines, &spots);
    let text = write_faults(alloc, lines, &spots)?;
    Ok(FaultsSaid {
        text: Listed::of(text),
        some: has_some(&faults),
    })
}
