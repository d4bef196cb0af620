//! What a check writes.

ghost use Rattle.std.specs.Prelude.{◌≡◌, IfOk, IfErr, IfSome, string_bytes, false};
ghost use Rattle.shelf_io.specs.Count.{Rose};
ghost use Rattle.shelf_io.specs.Load.{LacksName};
ghost use Rattle.tin_base.specs.Soundness.{IsSound};
ghost use Rattle.runs.specs.Status.{end_of};
ghost use Rattle.runs.specs.Counts.{LeavesFaults, shelf_counts};
ghost use Rattle.runs.specs.Output.{files_of, HasForm};
ghost use Rattle.runs.specs.Causes.{HasCauses};
ghost use Rattle.check_mode.specs.Checks.{sound_text, IsChecked, IsCheckWritten, IsEndOfCheck, IsTinOfCheck};
ghost use Rattle.check_mode.specs.Checks.{MayRefuseCheckOver};

use runs::{Refusal, RunOutput, load_tin};
use sheet_base::{How, Listed};
use shelf_io::{Name, Shelf};
use std::alloc::{AllocError, Global};
use tin_base::SoundTin;

/// What a check that refused nothing hands out.
#[derive(Drop)]
pub struct Checked {
    /// The line on standard output, and no layer.
    pub output: RunOutput,
    /// The sound triangulation whose line that is.
    pub tin: SoundTin,
}

/// The line of a triangulation that was found sound.
fn sound_line(alloc: Global, tin: &SoundTin) -> Result<String, AllocError>
    ensures text { IfOk result (λ text. string_bytes text ≡ sound_text tin.now) }
    ensures sound { IsSound tin.now }
{
    let corners = tin.corners().len();
    let triangles = tin.triangles().len();
    let inexact = tin.inexact();
    format!(in alloc; "sound: corners {corners} triangles {triangles} inexact {inexact}\n")
}

/// The output of a check of the triangulation of the file of this name: one line, and no file, with the triangulation.
/// The error says why the triangulation is refused; nothing is written by then.
pub fn prepare_check<S: Shelf>(
    alloc: Global,
    shelf: &mut S,
    name: &Name,
    how: How,
) -> Result<Checked, Refusal>
    ensures ok { IfOk result (λ done. IfSome (S.files shelf.old)
        (λ files. IsChecked files how name.now (end_of done.output.changed) (files_of done.output))) }
    ensures tin { IfOk result (λ done. IsTinOfCheck (S.files shelf.old) how name.now done.output.said done.tin) }
    ensures unchanged { IfOk result (λ done. done.output.changed ≡ false) }
    ensures form { IfOk result (λ done. HasForm IsCheckWritten done.output) }
    ensures refused { IfErr result (MayRefuseCheckOver (S.files shelf.old) how name.now (Rose (S.faults shelf.old) (S.faults shelf.new))) }
    ensures causes { IfErr result (HasCauses (LacksName (S.files shelf.old) name.now) IsEndOfCheck
        (shelf_counts (S.faults shelf.old) (S.faults shelf.new) (S.given shelf.old) (S.given shelf.new))) }
    ensures faults { LeavesFaults (S.faults shelf.old) (S.faults shelf.new) result }
{
    let tin = load_tin(alloc, shelf, name.text(), how)?;
    let line = sound_line(alloc, &tin)?;
    Ok(Checked {
        output: RunOutput {
            layers: Vec::new(alloc),
            said: Listed::of(line.into_bytes()),
            changed: false,
        },
        tin,
    })
}
