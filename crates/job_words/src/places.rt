//! What the words of `tinplaces` ask for.

ghost use Rattle.std.specs.Prelude.{◌≡◌, ◌≢◌, codes, map, string_bytes, IfOk, IsErrOf};
ghost use Rattle.clap.specs.Matches.{found_of};
ghost use Rattle.clap.specs.Walk.{first_of, rows_of};
ghost use Rattle.job_words.specs.declared.faults.WordsFault.{WordsFault as Fault};
ghost use Rattle.job_words.specs.declared.faults.WordsFault.TheVariants.{NoMemory};
ghost use Rattle.job_words.specs.Faults.{IsAnswer};
ghost use Rattle.job_words.specs.PlacesJobs.{IsPlacesFault, IsPlacesJobOf, IsPossiblePlacesJob, places_answer_in};

use crate::checks::check_places;
use crate::clap_matches::{is_set, read_places_matches, text_in};
use crate::faults::WordsFault;
use crate::words::{how_in, names_of};
use clap::ArgMatches;
use sheet_base::{How, Listed};
use shelf_io::Name;
use std::alloc::{AllocError, Global};

/// What the words of `tinplaces` ask for.
#[derive(Drop)]
pub struct PlacesJob {
    /// The name of the triangulation's file.
    pub tin: Name,
    /// How the files are read.
    pub how: How,
    /// The triangulation's frames are exchanged before layers are carried.
    pub inverse: bool,
    /// The sides of rings are printed, too.
    pub sides: bool,
    /// A change is drawn as its two written segments, and not as a point.
    pub lines: bool,
    /// A change within one layer is left out.
    pub across: bool,
    /// The member of a feature's properties whose value is printed for each side.
    pub member: Option<Name>,
    /// The names of the layers, at most `MOST_LAYERS`, in the order of the words. Several may have the same last part.
    pub layers: Listed<Name>,
}

/// The member that is to be printed.
fn member_in(alloc: Global, matches: &ArgMatches<'_>) -> Result<Option<Name>, AllocError>
    ensures { IfOk result (λ member. member ≡ first_of (codes "name") (rows_of (found_of matches.now))) }
{
    match matches.get_str("name") {
        Some(text) => Ok(Some(Name::of(alloc, text)?)),
        None => Ok(None),
    }
}

/// What the matches of the words of `tinplaces` ask for.
fn places_in(alloc: Global, matches: &ArgMatches<'_>) -> Result<PlacesJob, WordsFault>
    ensures { IsAnswer (places_answer_in (rows_of (found_of matches.now))) result }
{
    let tin = text_in("tin", matches);
    let layers = matches.get_strs("layer").unwrap_or(&[]);
    check_places(tin, layers)?;
    Ok(PlacesJob {
        tin: Name::of(alloc, tin)?,
        how: how_in(matches),
        inverse: is_set("inverse", matches),
        sides: is_set("sides", matches),
        lines: is_set("lines", matches),
        across: is_set("across", matches),
        member: member_in(alloc, matches)?,
        layers: names_of(alloc, layers)?,
    })
}

/// What the words of `tinplaces` ask for, without the program's name.
pub fn read_places(alloc: Global, words: &[String]) -> Result<PlacesJob, WordsFault>
    // The words ask for this.
    ensures job { IfOk result (λ job. IsPlacesJobOf (map string_bytes words.now) job) }

    // Its names may be taken, and each layer has a format.
    ensures kept { IfOk result IsPossiblePlacesJob }

    // Every refusal except `NoMemory` is the first fault of the words.
    ensures refused { (fault : Fault) → IsErrOf result fault → fault ≢ NoMemory → IsPlacesFault (map string_bytes words.now) fault }
{
    let matches = read_places_matches(alloc, words)?;
    places_in(alloc, &matches)
}
