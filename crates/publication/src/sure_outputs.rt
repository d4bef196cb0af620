//! Writing what a run makes through a press in memory that never fails. It takes no memory.

ghost use Rattle.std.specs.Prelude.{◌≡◌, [], ◌∷◌, map, IfSome, IsTrue, false, true, codes};
ghost use Rattle.shelf_io.specs.Made.{Appends, Becomes, Lacks, with_whole};
ghost use Rattle.shelf_io.specs.ReservedPress.{AppendsWithin, made_of};
ghost use Rattle.runs.specs.Output.{file_of, files_of, AreWritable};
ghost use Rattle.runs.specs.Refusals.{line_file, status_of};
ghost use Rattle.runs.specs.Status.{end_of};
ghost use Rattle.publication.specs.Rooms.{IsStatedWhereItFits, MakesWhereItFits};

use crate::outputs::end;
use runs::{LayerFile, Refusal, RunOutput, Status};
use shelf_io::{Press, SurePress};

/// Writes all of these bytes at the end of the file at hand.
fn write_surely(press: &mut SurePress, bytes: &[u8])
    requires at_hand { IsTrue press.old.at_hand }
    ensures room { AppendsWithin press.old.store press.new.store bytes.now }
    ensures appends { Appends (made_of press.old) (made_of press.new) bytes.now }
    ensures at_hand { press.new.at_hand ≡ true }
{
    if bytes.is_empty() {
        return;
    }
    let _ = press.write(bytes);
}

/// Makes a whole file of this name and these bytes.
fn print_surely(press: &mut SurePress, name: &str, bytes: &[u8])
    requires free { press.old.at_hand ≡ false }
    requires new { Lacks (made_of press.old) name.now }
    ensures room { MakesWhereItFits ((name.now, bytes.now) ∷ []) press.old.store press.new.store }
    ensures becomes { Becomes (with_whole name.now bytes.now) (made_of press.old) (made_of press.new) }
    ensures at_hand { press.new.at_hand ≡ false }
{
    let _ = press.begin(name);
    write_surely(press, bytes);
    let _ = press.end();
}

/// Makes the layers' files in order.
fn publish_layers_surely(press: &mut SurePress, layers: &[LayerFile])
    requires free { press.old.at_hand ≡ false }
    requires empty { IfSome (made_of press.old) (λ made. made ≡ []) }
    requires writable { AreWritable (map file_of layers.now) }
    ensures room { MakesWhereItFits (map file_of layers.now) press.old.store press.new.store }
    ensures made { IfSome (made_of press.new) (λ made. made ≡ map file_of layers.now) }
    ensures at_hand { press.new.at_hand ≡ false }
{
    for file in layers {
        print_surely(press, file.name.as_str(), file.text.items());
    }
}

/// Makes the files of a job, in order. Where they fit the press's room, the press states them afterwards.
pub fn publish_surely(press: &mut SurePress, written: &RunOutput) -> Status
    requires free { press.old.at_hand ≡ false }
    requires empty { IfSome (made_of press.old) (λ made. made ≡ []) }
    requires writable { AreWritable (map file_of written.now.layers.items) }
    ensures status { result ≡ end_of written.now.changed }
    ensures made { IfSome (made_of press.new) (λ made. made ≡ files_of written.now) }
    ensures stated { IsStatedWhereItFits (files_of written.now) press.old.store (made_of press.new) }
    ensures at_hand { press.new.at_hand ≡ false }
{
    publish_layers_surely(press, &written.layers);
    print_surely(press, "-", written.said.items());
    end(written.changed)
}

/// Prints a refusal's line. Where it fits the press's room, the press states it afterwards.
pub fn refuse_surely(press: &mut SurePress, refusal: Refusal) -> Status
    requires free { press.old.at_hand ≡ false }
    requires empty { IfSome (made_of press.old) (λ made. made ≡ []) }
    ensures status { result ≡ status_of refusal }
    ensures made { IfSome (made_of press.new) (λ made. made ≡ line_file refusal) }
    ensures stated { IsStatedWhereItFits (line_file refusal) press.old.store (made_of press.new) }
    ensures at_hand { press.new.at_hand ≡ false }
{
    let line = refusal.line();
    print_surely(press, "-", line.as_bytes());
    refusal.status()
}
