//! What the names of a job must meet.

ghost use Rattle.std.specs.Prelude.{◌≡◌, ◌≤◌, ◌<◌, [], length, map, not, is_some, position, IfSome, OnOk};
ghost use Rattle.job_words.specs.declared.limits.TheConstants.{MOST_LAYERS as most_layers};
ghost use Rattle.job_words.specs.Faults.{Checks};
ghost use Rattle.job_words.specs.Names.{is_name};
ghost use Rattle.job_words.specs.Formats.{format_by_name};
ghost use Rattle.job_words.specs.Jobs.{layer_fault, many_fault, migration_fault, name_fault, same_fault, suffix_fault};
ghost use Rattle.job_words.specs.Jobs.{verification_fault, heights_fault};
ghost use Rattle.job_words.specs.PlacesJobs.{places_fault};

use crate::faults::{Which, WordsFault};
use crate::formats::format_of;
use crate::limits::MOST_LAYERS;
use crate::names::{is_name, last_part};
use indexmap::IndexSet;
use std::alloc::Global;

/// Refuses too many layers.
fn check_count(layers: &[&str]) -> Result<(), WordsFault>
    ensures fault { Checks (many_fault (map (λ layer. layer.now) layers.now)) result }
    ensures few { OnOk result (length layers.now ≤ most_layers) }
{
    if layers.len() > MOST_LAYERS {
        return Err(WordsFault::Many);
    }
    Ok(())
}

/// Refuses a name that may not be taken.
pub fn check_name(which: Which, name: &str) -> Result<(), WordsFault>
    ensures { Checks (name_fault which name.now) result }
{
    if is_name(name) {
        Ok(())
    } else {
        Err(WordsFault::Name { which })
    }
}

/// The number of the first layer whose name may not be taken.
fn first_unnamed(layers: &[&str]) -> Option<usize>
    ensures first { result ≡ position (λ layer. not (is_name layer.now)) layers.now }
    ensures within { IfSome result (λ number. number < length layers.now) }
{
    layers.iter().position(|layer| !is_name(layer))
}

/// The number of the first layer whose name ends as that of no format.
fn first_formless(layers: &[&str]) -> Option<usize>
    ensures first { result ≡ position (λ layer. not (is_some (format_by_name layer.now))) layers.now }
    ensures within { IfSome result (λ number. number < length layers.now) }
{
    layers.iter().position(|layer| format_of(layer).is_none())
}

/// Refuses the first layer's name that may not be taken.
fn check_layers(layers: &[&str]) -> Result<(), WordsFault>
    requires { length layers.now ≤ most_layers }
    ensures { Checks (layer_fault (map (λ layer. layer.now) layers.now)) result }
{
    match first_unnamed(layers) {
        Some(number) => Err(WordsFault::Name {
            which: Which::Layer(number as u32),
        }),
        None => Ok(()),
    }
}

/// Refuses the first layer whose name ends as that of no format.
fn check_suffixes(layers: &[&str]) -> Result<(), WordsFault>
    requires { length layers.now ≤ most_layers }
    ensures { Checks (suffix_fault (map (λ layer. layer.now) layers.now)) result }
{
    match first_formless(layers) {
        Some(number) => Err(WordsFault::Suffix {
            layer: number as u32,
        }),
        None => Ok(()),
    }
}

/// Puts the last parts of layers into a set, and refuses the first layer whose part is there.
fn put_last_parts<'a>(parts: &mut IndexSet<&'a str>, layers: &[&'a str]) -> Result<(), WordsFault>
    requires none { parts.old.keys ≡ [] }
    requires few { length layers.now ≤ most_layers }
    ensures { Checks (same_fault (map (λ layer. layer.now) layers.now)) result }
{
    for (number, layer) in layers.iter().enumerate() {
        let part = last_part(layer);
        let is_new = parts.insert(part)?;
        if !is_new {
            return Err(WordsFault::SameName {
                layer: number as u32,
            });
        }
    }
    Ok(())
}

/// Refuses the first layer whose last part is that of an earlier one.
fn check_last_parts(alloc: Global, layers: &[&str]) -> Result<(), WordsFault>
    requires { length layers.now ≤ most_layers }
    ensures { Checks (same_fault (map (λ layer. layer.now) layers.now)) result }
{
    let mut parts = IndexSet::with_capacity(alloc, layers.len())?;
    put_last_parts(&mut parts, layers)
}

/// Refuses the first fault of the names of a migration.
pub fn check_migration(
    alloc: Global,
    tin: &str,
    out: &str,
    layers: &[&str],
) -> Result<(), WordsFault>
    ensures { Checks (migration_fault tin.now out.now (map (λ layer. layer.now) layers.now)) result }
{
    check_count(layers)?;
    check_name(Which::Tin, tin)?;
    check_name(Which::Out, out)?;
    check_layers(layers)?;
    check_suffixes(layers)?;
    check_last_parts(alloc, layers)?;
    Ok(())
}

/// Refuses the first fault of the names of a triangulation and of layers that are not written.
pub fn check_places(tin: &str, layers: &[&str]) -> Result<(), WordsFault>
    ensures { Checks (places_fault tin.now (map (λ layer. layer.now) layers.now)) result }
{
    check_count(layers)?;
    check_name(Which::Tin, tin)?;
    check_layers(layers)?;
    check_suffixes(layers)?;
    Ok(())
}

/// Refuses the first fault of the names of a list of points with heights; the list is layer 0.
pub fn check_heights(tin: &str, folder: &str, points: &str) -> Result<(), WordsFault>
    ensures { Checks (heights_fault tin.now folder.now points.now) result }
{
    check_name(Which::Tin, tin)?;
    check_name(Which::Out, folder)?;
    check_name(Which::Layer(0), points)?;
    Ok(())
}

/// Refuses the first fault of the names of a verification.
pub fn check_verification(
    tin: &str,
    source: &str,
    written: &str,
    cert: &str,
) -> Result<(), WordsFault>
    ensures { Checks (verification_fault tin.now source.now written.now cert.now) result }
{
    check_name(Which::Tin, tin)?;
    check_name(Which::Source, source)?;
    check_name(Which::Written, written)?;
    check_name(Which::Certificate, cert)?;
    check_suffixes(&[source])?;
    Ok(())
}
