//! The whole run over what it is handed.

ghost use Rattle.std.specs.Prelude.{◌≡◌, [], IfSome, false, map, string_bytes};
ghost use Rattle.shelf_io.specs.Count.{Rose};
ghost use Rattle.runs.specs.Counts.{LeavesPress, LeavesShelf, shelf_counts};
ghost use Rattle.publication.specs.RunEnds.{HasStatusCauses};
ghost use Rattle.fault_runs.specs.Words.{LacksCheck};
ghost use Rattle.fault_runs.specs.Ends.{EndsTold, LacksWantedOf};
ghost use Rattle.fault_runs.specs.HandedOut.{HandsOut};

use crate::loads::{load_read, prepare_faults, sound_of};
use crate::output::refuse;
use crate::refusals::FaultRefusal;
use crate::words::read_wanted;
use publication::{end, say};
use runs::{Refusal, Status};
use shelf_io::{Press, Shelf};
use std::alloc::Global;
use tin_base::SoundTin;
use tin_faults::ListFault;

/// How a run ended, the triangulation where it has no fault, and why nothing is listed where that is so.
#[derive(Drop)]
pub struct FaultRunEnd {
    /// How it ended.
    pub status: Status,
    /// The triangulation whose list of faults is empty, so that it is sound, also where that list could not be printed:
    /// then the status is `Write`. There is none after a fault or a refusal.
    pub sound: Option<SoundTin>,
    /// The refusal whose line was printed, or could not be printed: then the status is `Write`.
    pub refusal: Option<FaultRefusal>,
}

/// Prints all faults of the triangulation that the words name, and hands out the triangulation where it has none, or the
/// refusal where there is one.
pub fn run_to_end<S: Shelf, P: Press>(
    alloc: Global,
    words: &[String],
    shelf: &mut S,
    press: &mut P,
) -> FaultRunEnd
    requires free { P.at_hand press.old ≡ false }
    requires empty { IfSome (P.made press.old) (λ made. made ≡ []) }

    // Where the shelf states its files, a run ends in one of four ways: by its outcome, after a read fault,
    // because memory ran out, or after a write fault.
    ensures ends { IfSome (S.files shelf.old) (λ files. EndsTold (map string_bytes words.now) files
        (Rose (S.faults shelf.old) (S.faults shelf.new)) (Rose (P.faults press.old) (P.faults press.new))
        result.status (P.made press.new)) }
    ensures causes { HasStatusCauses (LacksCheck (map string_bytes words.now))
        (LacksWantedOf (map string_bytes words.now) (S.files shelf.old))
        (shelf_counts (S.faults shelf.old) (S.faults shelf.new) (S.given shelf.old) (S.given shelf.new))
        result.status (P.made press.new) }
    ensures shelf { LeavesShelf (S.faults shelf.old) (S.faults shelf.new) result.status }
    ensures press { LeavesPress (P.faults press.old) (P.faults press.new) (P.broken press.new) (P.at_hand press.new) result.status }
    ensures handed { HandsOut (map string_bytes words.now) (S.files shelf.old)
        (shelf_counts (S.faults shelf.old) (S.faults shelf.new) (S.given shelf.old) (S.given shelf.new))
        result.status (P.made press.new) result.refusal result.sound }
{
    let wanted = match read_wanted(alloc, words) {
        Ok(wanted) => wanted,
        Err(fault) => {
            let refusal = FaultRefusal::Run(Refusal::Words(fault));
            return FaultRunEnd {
                status: refuse(press, refusal),
                sound: None,
                refusal: Some(refusal),
            };
        }
    };
    let tin = match load_read(alloc, shelf, wanted.tin.text(), wanted.how) {
        Ok(tin) => tin,
        Err(refusal) => {
            return FaultRunEnd {
                status: refuse(press, FaultRefusal::Run(refusal)),
                sound: None,
                refusal: Some(FaultRefusal::Run(refusal)),
            };
        }
    };
    match prepare_faults(alloc, wanted.lines, &tin) {
        Ok(said) => FaultRunEnd {
            status: say(press, said.text.items(), end(said.some)),
            sound: sound_of(tin, said.some),
            refusal: None,
        },
        Err(ListFault::TooMany) => FaultRunEnd {
            status: refuse(press, FaultRefusal::TooManyFaults),
            sound: None,
            refusal: Some(FaultRefusal::TooManyFaults),
        },
        Err(ListFault::NoMemory) => FaultRunEnd {
            status: refuse(press, FaultRefusal::Run(Refusal::NoMemory)),
            sound: None,
            refusal: Some(FaultRefusal::Run(Refusal::NoMemory)),
        },
    }
}
