//! The job of the words.

ghost use Rattle.std.specs.Prelude.{◌≡◌, ◌≢◌, Ok, Err, map, string_bytes, IfOk, IsErrOf};
ghost use Rattle.clap.specs.Matches.{found_of};
ghost use Rattle.clap.specs.Walk.{rows_of};
ghost use Rattle.job_words.specs.declared.faults.WordsFault.{WordsFault as Fault};
ghost use Rattle.job_words.specs.declared.faults.WordsFault.TheVariants.{NoMemory};
ghost use Rattle.job_words.specs.declared.modes.Mode.TheVariants.{Migrate, Check, Make, Verify, Heights};
ghost use Rattle.job_words.specs.Faults.{IsAnswer};
ghost use Rattle.job_words.specs.JobFields.{IsPossibleJob};
ghost use Rattle.job_words.specs.Jobs.{IsJobOf, IsWordsFault, how_in, job_in};

use crate::checks::{check_heights, check_migration, check_name, check_verification};
use crate::clap_matches::{is_set, read_matches, text_in};
use crate::faults::{Which, WordsFault};
use crate::jobs::Job;
use crate::modes::Mode;
use crate::sizes::size_of;
use clap::ArgMatches;
use sheet_base::{How, Listed};
use shelf_io::Name;
use std::alloc::{AllocError, Global};

/// How the flags want files to be read.
pub fn how_in(matches: &ArgMatches<'_>) -> How
    ensures { result ≡ how_in (rows_of (found_of matches.now)) }
{
    How {
        exact: is_set("exact", matches),
        drop_other: is_set("drop-other", matches),
        inside_only: is_set("inside-only", matches),
    }
}

/// Names of these texts.
pub fn names_of(alloc: Global, texts: &[&str]) -> Result<Listed<Name>, AllocError>
    ensures { IfOk result (λ names. names ≡ map (λ text. text.now) texts.now) }
{
    let mut names = Vec::with_capacity(alloc, texts.len())?;
    for text in texts {
        names.push(Name::of(alloc, text)?)?;
    }
    Ok(Listed::of(names))
}

/// The migration that its matches ask for.
fn migration_in(alloc: Global, matches: &ArgMatches<'_>) -> Result<Job, WordsFault>
    ensures { IsAnswer (job_in Migrate (rows_of (found_of matches.now))) result }
{
    let tin = text_in("tin", matches);
    let out = text_in("out", matches);
    let layers = matches.get_strs("layer").unwrap_or(&[]);
    check_migration(alloc, tin, out, layers)?;
    Ok(Job::Migrate {
        tin: Name::of(alloc, tin)?,
        out: Name::of(alloc, out)?,
        how: how_in(matches),
        inverse: is_set("inverse", matches),
        cert: is_set("cert", matches),
        sides: is_set("sides", matches),
        layers: names_of(alloc, layers)?,
    })
}

/// The check that its matches ask for.
fn check_in(alloc: Global, matches: &ArgMatches<'_>) -> Result<Job, WordsFault>
    ensures { IsAnswer (job_in Check (rows_of (found_of matches.now))) result }
{
    let tin = text_in("tin", matches);
    check_name(Which::Tin, tin)?;
    Ok(Job::Check {
        tin: Name::of(alloc, tin)?,
        how: how_in(matches),
    })
}

/// The size that its matches ask for.
fn make_in(matches: &ArgMatches<'_>) -> Result<Job, WordsFault>
    ensures { result ≡ job_in Make (rows_of (found_of matches.now)) }
{
    match size_of(text_in("n", matches)) {
        Some(n) => Ok(Job::Make { n }),
        None => Err(WordsFault::Size),
    }
}

/// The verification that its matches ask for.
fn verification_in(alloc: Global, matches: &ArgMatches<'_>) -> Result<Job, WordsFault>
    ensures { IsAnswer (job_in Verify (rows_of (found_of matches.now))) result }
{
    let tin = text_in("tin", matches);
    let source = text_in("source", matches);
    let written = text_in("written", matches);
    let cert = text_in("cert", matches);
    check_verification(tin, source, written, cert)?;
    Ok(Job::Verify {
        tin: Name::of(alloc, tin)?,
        source: Name::of(alloc, source)?,
        written: Name::of(alloc, written)?,
        cert: Name::of(alloc, cert)?,
        how: how_in(matches),
        inverse: is_set("inverse", matches),
    })
}

/// The points with heights that its matches ask for.
fn heights_in(alloc: Global, matches: &ArgMatches<'_>) -> Result<Job, WordsFault>
    ensures { IsAnswer (job_in Heights (rows_of (found_of matches.now))) result }
{
    let tin = text_in("tin", matches);
    let out = text_in("out", matches);
    let points = text_in("points", matches);
    check_heights(tin, out, points)?;
    Ok(Job::Heights {
        tin: Name::of(alloc, tin)?,
        out: Name::of(alloc, out)?,
        how: how_in(matches),
        points: Name::of(alloc, points)?,
    })
}

/// The job that the matches of a mode ask for.
fn job_of(alloc: Global, mode: Mode, matches: &ArgMatches<'_>) -> Result<Job, WordsFault>
    ensures { IsAnswer (job_in mode (rows_of (found_of matches.now))) result }
{
    match mode {
        Mode::Migrate => migration_in(alloc, matches),
        Mode::Check => check_in(alloc, matches),
        Mode::Make => make_in(matches),
        Mode::Verify => verification_in(alloc, matches),
        Mode::Heights => heights_in(alloc, matches),
    }
}

/// The job of the words of the command line, without the program's name.
pub fn read_words(alloc: Global, words: &[String]) -> Result<Job, WordsFault>
    // The words give this job.
    ensures job { IfOk result (λ job. IsJobOf (map string_bytes words.now) job) }

    // Its names may be taken, no two layers are written into one file, and its size may be made.
    ensures kept { IfOk result IsPossibleJob }

    // Every refusal except `NoMemory` is the first fault of the words.
    ensures refused { (fault : Fault) → IsErrOf result fault → fault ≢ NoMemory → IsWordsFault (map string_bytes words.now) fault }
{
    let Some(word) = words.first() else {
        return Err(WordsFault::NoMode);
    };
    let Some(mode) = Mode::of(word.as_str()) else {
        return Err(WordsFault::NoMode);
    };
    let matches = read_matches(alloc, mode, words)?;
    job_of(alloc, mode, &matches)
}
