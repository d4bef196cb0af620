//! What `clap` reads of words.

ghost use Rattle.std.specs.Prelude.{◌≡◌, ◌⊎◌, Some, None, IfOk, IfErr, map, string_bytes, true};
ghost use Rattle.clap.specs.Matches.{found_of};
ghost use Rattle.clap.specs.Walk.{rows_of};
ghost use Rattle.clap.specs.Simple.{app_of};
ghost use Rattle.clap.specs.Faults.{is_simple_and_free};
ghost use Rattle.job_words.specs.declared.faults.WordsFault.TheVariants.{NoMemory, Parse};
ghost use Rattle.job_words.specs.Commands.{places_command};
ghost use Rattle.job_words.specs.Readings.{is_set, reading_by, reading_of, text_in};

use crate::commands::{command_of, places_command};
use crate::faults::WordsFault;
use crate::modes::Mode;
use clap::{ArgMatches, Command};
use std::alloc::Global;

/// The matches of words by a command.
fn matches_by<'a>(command: Command<'a>, words: &'a [String]) -> Result<ArgMatches<'a>, WordsFault>
    requires { is_simple_and_free (app_of command) ≡ true }
    ensures read { IfOk result (λ matches. reading_by (app_of command.entry) (map string_bytes words.entry.now)
        ≡ Some (rows_of (found_of matches))) }
    ensures refused { IfErr result (λ fault. (fault ≡ NoMemory)
        ⊎ ((fault ≡ Parse) × (reading_by (app_of command.entry) (map string_bytes words.entry.now) ≡ None))) }
{
    let matches = command.try_get_matches_from(words)?;
    Ok(matches)
}

/// The matches of the words of a mode. The mode is in the place of a program's name.
pub fn read_matches<'a>(
    alloc: Global,
    mode: Mode,
    words: &'a [String],
) -> Result<ArgMatches<'a>, WordsFault>
    ensures read { IfOk result (λ matches. reading_of mode (map string_bytes words.entry.now)
        ≡ Some (rows_of (found_of matches))) }
    ensures refused { IfErr result (λ fault. (fault ≡ NoMemory)
        ⊎ ((fault ≡ Parse) × (reading_of mode (map string_bytes words.entry.now) ≡ None))) }
{
    let command = command_of(alloc, mode)?;
    matches_by(command, words)
}

/// The matches of the words of `tinplaces`, without the program's name.
pub fn read_places_matches<'a>(
    alloc: Global,
    words: &'a [String],
) -> Result<ArgMatches<'a>, WordsFault>
    ensures read { IfOk result (λ matches. reading_by places_command (map string_bytes words.entry.now)
        ≡ Some (rows_of (found_of matches))) }
    ensures refused { IfErr result (λ fault. (fault ≡ NoMemory)
        ⊎ ((fault ≡ Parse) × (reading_by places_command (map string_bytes words.entry.now) ≡ None))) }
{
    let command = places_command(alloc)?;
    matches_by(command, words)
}

/// The text of an option or of a word, empty where it is missing.
pub fn text_in<'a>(id: &str, matches: &ArgMatches<'a>) -> &'a str
    ensures { result.now ≡ text_in id.now (rows_of (found_of matches.now)) }
{
    matches.get_str(id).unwrap_or("")
}

/// Whether the flag is among the words.
pub fn is_set(id: &str, matches: &ArgMatches<'_>) -> bool
    ensures { result ≡ is_set id.now (rows_of (found_of matches.now)) }
{
    matches.get_one::<bool>(id).unwrap_or(false)
}
