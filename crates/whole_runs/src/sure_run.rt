//! A run over a shelf and a press in memory that never fail.

ghost use Rattle.std.specs.Prelude.{◌≡◌, ◌≢◌, [], Some, IfSome, false, map, string_bytes};
ghost use Rattle.shelf_io.specs.ReservedPress.{made_of};
ghost use Rattle.whole_runs.specs.Ends.{EndsTold, LacksWantedOf};
ghost use Rattle.whole_runs.specs.SureRuns.{IsStatedWhereItFits};

use crate::jobs::prepare;
use job_words::read_words;
use publication::{publish_surely, refuse_surely};
use runs::{Refusal, Status};
use shelf_io::{SurePress, SureShelf};
use std::alloc::Global;

/// Does what the words ask for, as `run` does. A run ends by its outcome, or because memory ran out: none with a write
/// fault, and one with a read fault only where a file that the words name is missing. No file stays at hand. Where what
/// it makes fits the press's room, the press states it afterwards.
pub fn run_surely(
    alloc: Global,
    words: &[String],
    shelf: &mut SureShelf,
    press: &mut SurePress,
) -> Status
    requires free { press.old.at_hand ≡ false }
    requires empty { IfSome (made_of press.old) (λ made. made ≡ []) }
    ensures ends { EndsTold (map string_bytes words.now) shelf.old.files ⊥ ⊥ result (made_of press.new) }
    ensures stated { IfSome press.old.store (IsStatedWhereItFits (map string_bytes words.now) shelf.old.files result (made_of press.new)) }
    ensures written { result ≢ Status.Write }
    ensures at_hand { press.new.at_hand ≡ false }
    ensures missing { result ≡ Status.Read → LacksWantedOf (map string_bytes words.now) (Some shelf.old.files) }
{
    let job = match read_words(alloc, words) {
        Ok(job) => job,
        Err(fault) => return refuse_surely(press, Refusal::Words(fault)),
    };
    match prepare(alloc, shelf, job) {
        Ok(done) => publish_surely(press, &done.output),
        Err(refusal) => refuse_surely(press, refusal),
    }
}
