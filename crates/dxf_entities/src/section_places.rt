//! Sections of a drawing, pair by pair, and its next handle.

ghost use Rattle.std.specs.Prelude.{◌≡◌};
ghost use Rattle.dxf_entities.specs.Sections.{is_end_of_section};
ghost use Rattle.dxf_entities.specs.SectionPlaces.{section_behind_outside, section_by_name};
ghost use Rattle.dxf_entities.specs.SectionPlaces.{section_behind, names_seed};
ghost use Rattle.dxf_entities.specs.Seeds.{as_seed, seed_of};

use crate::entities::{has_code, is_pair, value_in};
use crate::handles::is_handle;
use dxf_pairs::Pair;

/// Where a pair is: in no section, directly after the pair that begins one, or in a section.
#[derive(Clone, Copy)]
pub enum Where {
    Outside,
    Begun,
    Header,
    Entities,
    Other,
}

/// Whether the pair ends a section.
#[inline(always)]
pub fn ends_section(bytes: &[u8], pair: &Pair) -> bool
    ensures { result ≡ is_end_of_section bytes.now pair.now }
{
    // most pairs are of another code
    has_code(0, pair)
        && (is_pair(bytes, 0, b"ENDSEC".as_slice(), pair)
            || is_pair(bytes, 0, b"EOF".as_slice(), pair))
}

/// Where the pair after one outside all sections is.
fn behind_outside(bytes: &[u8], pair: &Pair) -> Where
    ensures { result ≡ section_behind_outside bytes.now pair.now }
{
    if is_pair(bytes, 0, b"SECTION".as_slice(), pair) {
        Where::Begun
    } else {
        Where::Outside
    }
}

/// The section of this name.
fn section(name: &[u8]) -> Where
    ensures { result ≡ section_by_name name.now }
{
    if name == b"ENTITIES".as_slice() {
        Where::Entities
    } else if name == b"HEADER".as_slice() {
        Where::Header
    } else {
        Where::Other
    }
}

/// Where the pair after this one is.
#[inline(always)]
pub fn behind(bytes: &[u8], place: Where, pair: &Pair) -> Where
    ensures { result ≡ section_behind bytes.now place pair.now }
{
    match place {
        Where::Outside => behind_outside(bytes, pair),
        Where::Begun => {
            if has_code(2, pair) {
                section(value_in(bytes, pair))
            } else {
                behind_outside(bytes, pair)
            }
        }
        Where::Header | Where::Entities | Where::Other => {
            if ends_section(bytes, pair) {
                Where::Outside
            } else {
                place
            }
        }
    }
}

/// Whether the pair names the next handle.
fn names_seed(bytes: &[u8], place: Where, pair: &Pair) -> bool
    ensures { result ≡ names_seed bytes.now place pair.now }
{
    match place {
        Where::Header => is_pair(bytes, 9, b"$HANDSEED".as_slice(), pair),
        _ => false,
    }
}

/// The first of the pairs, where it is a next handle.
fn as_seed(bytes: &[u8], pairs: &[Pair]) -> Option<Pair>
    ensures { result ≡ as_seed bytes.now pairs.now }
{
    match pairs {
        [pair, ..] if has_code(5, pair) && is_handle(value_in(bytes, pair)) => Some(*pair),
        _ => None,
    }
}

/// The pair of the next handle: the one of code 5 directly after the first pair `9 $HANDSEED` of a
/// section HEADER, where it is one.
pub fn seed_of(bytes: &[u8], pairs: &[Pair]) -> Option<Pair>
    ensures { result ≡ seed_of bytes.now pairs.now }
{
    let mut place = Where::Outside;
    for (number, pair) in pairs.iter().enumerate() {
        if names_seed(bytes, place, pair) {
            return as_seed(bytes, &pairs[number + 1..]);
        }
        place = behind(bytes, place, pair);
    }
    None
}
