//! Writing what a run makes. It takes no memory.

ghost use Rattle.std.specs.Prelude.{◌≡◌, ◌≢◌, [], ◌∷◌, map, IfSome, OnOk, OnErr, false, true, codes};
ghost use Rattle.shelf_io.specs.Count.{HasCause};
ghost use Rattle.runs.specs.Counts.{LeavesPress};
ghost use Rattle.runs.specs.Status.{end_of};
ghost use Rattle.runs.specs.Refusals.{line_file, status_of};
ghost use Rattle.publication.specs.Fronts.{HasWritten, IsFrontOf};
ghost use Rattle.runs.specs.Output.{file_of, files_of, AreWritable};

use runs::{LayerFile, Refusal, RunOutput, Status};
use shelf_io::{Press, PrintFault, print};

/// Writes a text to standard output alone, after which the run ends so.
pub fn say<P: Press>(press: &mut P, said: &[u8], status: Status) -> Status
    requires free { P.at_hand press.old ≡ false }
    requires empty { IfSome (P.made press.old) (λ made. made ≡ []) }
    requires other { status ≢ Status.Write }
    ensures written { HasWritten ((codes "-", said.now) ∷ []) status result (P.made press.new) }
    ensures press { LeavesPress (P.faults press.old) (P.faults press.new) (P.broken press.new) (P.at_hand press.new) result }
{
    match print(press, "-", said) {
        Ok(()) => status,
        Err(_) => Status::Write,
    }
}

/// How a run ends that has written all.
pub fn end(changed: bool) -> Status
    ensures { result ≡ end_of changed }
{
    if changed {
        Status::Changed
    } else {
        Status::Same
    }
}

/// Writes the layers' files in order, none where one could not be written.
fn publish_layers<P: Press>(press: &mut P, layers: &[LayerFile]) -> Result<(), PrintFault>
    requires free { P.at_hand press.old ≡ false }
    requires empty { IfSome (P.made press.old) (λ made. made ≡ []) }
    requires writable { AreWritable (map file_of layers.now) }
    ensures whole { OnOk result (IfSome (P.made press.new) (λ made. made ≡ map file_of layers.now)) }
    ensures free { OnOk result (P.at_hand press.new ≡ false) }
    ensures front { OnErr result (IfSome (P.made press.new) (λ made. IsFrontOf made (map file_of layers.now))) }
    ensures cause { HasCause (P.faults press.old) (P.faults press.new) result }
    ensures last { OnErr result (P.broken press.new ≡ true) }
{
    for file in layers {
        print(press, file.name.as_str(), file.text.items())?;
    }
    Ok(())
}

/// Writes what a job makes, in order.
pub fn publish<P: Press>(press: &mut P, written: &RunOutput) -> Status
    requires free { P.at_hand press.old ≡ false }
    requires empty { IfSome (P.made press.old) (λ made. made ≡ []) }
    requires writable { AreWritable (map file_of written.now.layers.items) }
    ensures written { HasWritten (files_of written.now) (end_of written.now.changed) result (P.made press.new) }
    ensures press { LeavesPress (P.faults press.old) (P.faults press.new) (P.broken press.new) (P.at_hand press.new) result }
{
    match publish_layers(press, &written.layers) {
        Ok(()) => match print(press, "-", written.said.items()) {
            Ok(()) => end(written.changed),
            Err(_) => Status::Write,
        },
        Err(_) => Status::Write,
    }
}

/// Prints a refusal's line.
pub fn refuse<P: Press>(press: &mut P, refusal: Refusal) -> Status
    requires free { P.at_hand press.old ≡ false }
    requires empty { IfSome (P.made press.old) (λ made. made ≡ []) }
    ensures written { HasWritten (line_file refusal) (status_of refusal) result (P.made press.new) }
    ensures press { LeavesPress (P.faults press.old) (P.faults press.new) (P.broken press.new) (P.at_hand press.new) result }
{
    let line = refusal.line();
    say(press, line.as_bytes(), refusal.status())
}
