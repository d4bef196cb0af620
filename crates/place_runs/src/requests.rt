//! What the words of the command line ask for.

ghost use Rattle.std.specs.Prelude.{◌≡◌, ◌≢◌, IfOk, IfErr, Ok as OkOf, map, string_bytes};
ghost use Rattle.job_words.specs.declared.faults.WordsFault.TheVariants.{NoMemory as NoRoom};
ghost use Rattle.job_words.specs.Faults.{IsAnswer};
ghost use Rattle.place_runs.specs.Words.{AsksPlaces, LacksPlaces, MayBeCarried, request_in};

use crate::views::View;
use job_words::{PlacesJob, WordsFault, read_places};
use migrate_mode::Migration;
use shelf_io::Name;
use std::alloc::Global;

/// The folder that the migration has, into which nothing is written.
const FOLDER: &str = ".";

/// What the words ask for.
#[derive(Drop)]
pub struct Request {
    /// The migration whose layers are not written.
    pub migration: Migration,
    /// How its changes are printed.
    pub view: View,
}

// What a job of words asks for.
fn request_in(alloc: Global, job: PlacesJob) -> Result<Request, WordsFault>
    ensures answer { IsAnswer (request_in (OkOf job)) result }
    ensures taken { IfOk result (λ request. (request.migration.tin ≡ job.tin) × (request.migration.layers ≡ job.layers)) }
{
    let out = Name::of(alloc, FOLDER)?;
    let view = View {
        lines: job.lines,
        across: job.across,
        member: job.member,
    };
    Ok(Request {
        migration: Migration {
            tin: job.tin,
            out,
            how: job.how,
            inverse: job.inverse,
            cert: false,
            sides: job.sides,
            layers: job.layers,
        },
        view,
    })
}

/// What the words ask for, or their first fault.
pub fn read_request(alloc: Global, words: &[String]) -> Result<Request, WordsFault>
    ensures asks { IfOk result (λ request. AsksPlaces (map string_bytes words.now) request) }
    ensures taken { IfOk result (λ request. MayBeCarried request.migration) }
    ensures refused { IfErr result (λ fault. fault ≢ NoRoom → LacksPlaces (map string_bytes words.now) fault) }
{
    let job = read_places(alloc, words)?;
    request_in(alloc, job)
}
