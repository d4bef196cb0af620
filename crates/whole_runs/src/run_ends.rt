//! The whole program over what it is handed.

ghost use Rattle.std.specs.Prelude.{◌≡◌, [], IfSome, false, map, string_bytes};
ghost use Rattle.shelf_io.specs.Count.{Rose};
ghost use Rattle.runs.specs.Counts.{LeavesPress, LeavesShelf, shelf_counts};
ghost use Rattle.publication.specs.RunEnds.{HasStatusCauses};
ghost use Rattle.whole_runs.specs.Ends.{LacksWantedOf};
ghost use Rattle.whole_runs.specs.HandedOut.{HandsOut};
ghost use Rattle.whole_runs.specs.Jobs.{LacksJob};
ghost use Rattle.whole_runs.specs.RunEnds.{HasJobCauses, HasRunMade};

use crate::jobs::prepare;
use job_words::read_words;
use publication::{publish, refuse};
use report_text::Report;
use runs::{Refusal, Status};
use shelf_io::{Press, Shelf};
use std::alloc::Global;
use tin_base::SoundTin;

/// How a run ended, the report on what was carried, the triangulation that was checked, and why nothing was carried where
/// that is so.
#[derive(Drop)]
pub struct RunEnd {
    /// How it ended.
    pub status: Status,
    /// The report whose text was printed, or could not be printed whole: then the status is `Write`. A check, a
    /// verification and a list of points have none, nor has a refused run.
    pub report: Option<Report>,
    /// The triangulation that a check found sound, also where its line could not be printed: then the status is `Write`.
    /// No other job has one, nor has a refused run.
    pub sound: Option<SoundTin>,
    /// The refusal whose line was printed, or could not be printed: then the status is `Write`.
    pub refusal: Option<Refusal>,
}

/// Does what the words ask for, and hands out the report, the triangulation of a check, or the refusal where there is one.
pub fn run_to_end<S: Shelf, P: Press>(
    alloc: Global,
    words: &[String],
    shelf: &mut S,
    press: &mut P,
) -> RunEnd
    requires free { P.at_hand press.old ≡ false }
    requires empty { IfSome (P.made press.old) (λ made. made ≡ []) }
    ensures made { HasRunMade (map string_bytes words.now) (S.files shelf.old) (Rose (S.faults shelf.old) (S.faults shelf.new))
        (Rose (P.faults press.old) (P.faults press.new)) result.status (P.made press.new) }
    ensures causes { HasStatusCauses (LacksJob (map string_bytes words.now)) (LacksWantedOf (map string_bytes words.now)
        (S.files shelf.old)) (shelf_counts (S.faults shelf.old) (S.faults shelf.new) (S.given shelf.old) (S.given shelf.new))
        result.status (P.made press.new) }
    ensures job { HasJobCauses (map string_bytes words.now)
        (shelf_counts (S.faults shelf.old) (S.faults shelf.new) (S.given shelf.old) (S.given shelf.new))
        result.status (P.made press.new) }
    ensures shelf { LeavesShelf (S.faults shelf.old) (S.faults shelf.new) result.status }
    ensures press { LeavesPress (P.faults press.old) (P.faults press.new) (P.broken press.new) (P.at_hand press.new) result.status }
    ensures handed { HandsOut (map string_bytes words.now) (S.files shelf.old)
        (shelf_counts (S.faults shelf.old) (S.faults shelf.new) (S.given shelf.old) (S.given shelf.new))
        result.status (P.made press.new) result.refusal result.report result.sound }
{
    let job = match read_words(alloc, words) {
        Ok(job) => job,
        Err(fault) => {
            return RunEnd {
                status: refuse(press, Refusal::Words(fault)),
                report: None,
                sound: None,
                refusal: Some(Refusal::Words(fault)),
            };
        }
    };
    match prepare(alloc, shelf, job) {
        Ok(done) => RunEnd {
            status: publish(press, &done.output),
            report: done.report,
            sound: done.sound,
            refusal: None,
        },
        Err(refusal) => RunEnd {
            status: refuse(press, refusal),
            report: None,
            sound: None,
            refusal: Some(refusal),
        },
    }
}

/// Does what the words ask for.
pub fn run<S: Shelf, P: Press>(
    alloc: Global,
    words: &[String],
    shelf: &mut S,
    press: &mut P,
) -> Status
    requires free { P.at_hand press.old ≡ false }
    requires empty { IfSome (P.made press.old) (λ made. made ≡ []) }
    ensures made { HasRunMade (map string_bytes words.now) (S.files shelf.old) (Rose (S.faults shelf.old) (S.faults shelf.new))
        (Rose (P.faults press.old) (P.faults press.new)) result (P.made press.new) }
    ensures causes { HasStatusCauses (LacksJob (map string_bytes words.now)) (LacksWantedOf (map string_bytes words.now)
        (S.files shelf.old)) (shelf_counts (S.faults shelf.old) (S.faults shelf.new) (S.given shelf.old) (S.given shelf.new))
        result (P.made press.new) }
    ensures job { HasJobCauses (map string_bytes words.now)
        (shelf_counts (S.faults shelf.old) (S.faults shelf.new) (S.given shelf.old) (S.given shelf.new))
        result (P.made press.new) }
    ensures shelf { LeavesShelf (S.faults shelf.old) (S.faults shelf.new) result }
    ensures press { LeavesPress (P.faults press.old) (P.faults press.new) (P.broken press.new) (P.at_hand press.new) result }
{
    run_to_end(alloc, words, shelf, press).status
}
