//! The whole program over what it is handed.

ghost use Rattle.std.specs.Prelude.{◌≡◌, [], IfSome, Some, false, map, string_bytes};
ghost use Rattle.shelf_io.specs.Count.{Rose};
ghost use Rattle.runs.specs.Counts.{LeavesPress, LeavesShelf, shelf_counts};
ghost use Rattle.runs.specs.Refusals.{line_file, status_of};
ghost use Rattle.publication.specs.Fronts.{HasWritten};
ghost use Rattle.publication.specs.RunEnds.{HasStatusCauses};
ghost use Rattle.place_runs.specs.Words.{LacksRequest};
ghost use Rattle.place_runs.specs.Ends.{EndsTold, LacksWantedOf};
ghost use Rattle.place_runs.specs.HandedOut.{HandsOut};

use crate::output::say_map;
use crate::places::{PreparedMap, prepare_places};
use crate::requests::read_request;
use publication::{end, refuse};
use report_text::LayerRow;
use runs::{Refusal, Status};
use shelf_io::{Press, Shelf};
use std::alloc::Global;

/// How a run ended, why nothing was carried where that is so, and what was carried.
#[derive(Drop)]
pub struct PlaceRunEnd {
    /// How it ended.
    pub status: Status,
    /// The refusal whose line was printed, or could not be printed: then the status is `Write`.
    pub refusal: Option<Refusal>,
    /// What a report would say of each layer, in order; nothing where there is a refusal.
    pub rows: Vec<LayerRow>,
}

/// Prints the line of a refusal, after which nothing was carried.
fn refused_end<P: Press>(alloc: Global, press: &mut P, refusal: Refusal) -> PlaceRunEnd
    requires free { P.at_hand press.old ≡ false }
    requires empty { IfSome (P.made press.old) (λ made. made ≡ []) }
    ensures refusal { result.refusal ≡ Some refusal }
    ensures rows { result.rows.items ≡ [] }
    ensures written { HasWritten (line_file refusal) (status_of refusal) result.status (P.made press.new) }
    ensures press { LeavesPress (P.faults press.old) (P.faults press.new) (P.broken press.new) (P.at_hand press.new) result.status }
{
    let status = refuse(press, refusal);
    let rows = Vec::new(alloc);
    PlaceRunEnd {
        status,
        refusal: Some(refusal),
        rows,
    }
}

/// Prints the changes of the migration that the words ask for, and hands out the refusal where there is one.
pub fn run_to_end<S: Shelf, P: Press>(
    alloc: Global,
    words: &[String],
    shelf: &mut S,
    press: &mut P,
) -> PlaceRunEnd
    requires free { P.at_hand press.old ≡ false }
    requires empty { IfSome (P.made press.old) (λ made. made ≡ []) }

    // Where the shelf states its files, a run ends in one of four ways: by its outcome, after a read fault,
    // because memory ran out, or after a write fault.
    ensures ends { IfSome (S.files shelf.old) (λ files. EndsTold (map string_bytes words.now) files
        (Rose (S.faults shelf.old) (S.faults shelf.new)) (Rose (P.faults press.old) (P.faults press.new))
        result.status (P.made press.new)) }
    ensures causes { HasStatusCauses (LacksRequest (map string_bytes words.now))
        (LacksWantedOf (map string_bytes words.now) (S.files shelf.old))
        (shelf_counts (S.faults shelf.old) (S.faults shelf.new) (S.given shelf.old) (S.given shelf.new))
        result.status (P.made press.new) }
    ensures shelf { LeavesShelf (S.faults shelf.old) (S.faults shelf.new) result.status }
    ensures press { LeavesPress (P.faults press.old) (P.faults press.new) (P.broken press.new) (P.at_hand press.new) result.status }
    ensures handed { HandsOut (map string_bytes words.now) (S.files shelf.old)
        (shelf_counts (S.faults shelf.old) (S.faults shelf.new) (S.given shelf.old) (S.given shelf.new))
        result.status (P.made press.new) result.refusal result.rows.items }
{
    let request = match read_request(alloc, words) {
        Ok(request) => request,
        Err(fault) => return refused_end(alloc, press, Refusal::Words(fault)),
    };
    match prepare_places(alloc, shelf, &request.migration, &request.view) {
        Ok(prepared) => {
            let PreparedMap {
                map,
                room,
                changed,
                rows,
            } = prepared;
            let names = request.migration.layers.items();
            let status = say_map(press, room, names, &map, end(changed));
            PlaceRunEnd {
                status,
                refusal: None,
                rows,
            }
        }
        Err(refusal) => refused_end(alloc, press, refusal),
    }
}

/// Prints the changes of the migration that the words ask for.
pub fn run<S: Shelf, P: Press>(
    alloc: Global,
    words: &[String],
    shelf: &mut S,
    press: &mut P,
) -> Status
    requires free { P.at_hand press.old ≡ false }
    requires empty { IfSome (P.made press.old) (λ made. made ≡ []) }

    // Where the shelf states its files, a run ends in one of four ways: by its outcome, after a read fault,
    // because memory ran out, or after a write fault.
    ensures ends { IfSome (S.files shelf.old) (λ files. EndsTold (map string_bytes words.now) files
        (Rose (S.faults shelf.old) (S.faults shelf.new)) (Rose (P.faults press.old) (P.faults press.new))
        result (P.made press.new)) }
    ensures causes { HasStatusCauses (LacksRequest (map string_bytes words.now))
        (LacksWantedOf (map string_bytes words.now) (S.files shelf.old))
        (shelf_counts (S.faults shelf.old) (S.faults shelf.new) (S.given shelf.old) (S.given shelf.new))
        result (P.made press.new) }
    ensures shelf { LeavesShelf (S.faults shelf.old) (S.faults shelf.new) result }
    ensures press { LeavesPress (P.faults press.old) (P.faults press.new) (P.broken press.new) (P.at_hand press.new) result }
{
    run_to_end(alloc, words, shelf, press).status
}
