//! How many bytes a feature has at most.

ghost use Rattle.std.specs.Prelude.{ℕ, ◌+◌, ◌<◌, ◌^◌, ◌≤◌, List, length, Option};
ghost use Rattle.std.specs.Option.{option_map};
ghost use Rattle.layer_features.specs.Laws.{part_text};
ghost use Rattle.change_places.specs.declared.spots.Style.{Style as StyleOf};
ghost use Rattle.change_places.specs.Words.{label_words, path_words, change_words, ring_words};
ghost use Rattle.change_places.specs.PlacesText.{label_text, copied_text, change_entry, ring_entry};
ghost use Rattle.change_places.specs.InsidePlaces.{copied_length};

use crate::limits::MOST_UNCOPIED;
use crate::premises::{change_fits, ring_fits};
use crate::spots::{ChangeSpot, PathSpot, RingSpot};
use layer_features::{Label, TextPart};
use sheet_base::Listed;

// How many bytes a part has at most.
fn part_length(part: TextPart) -> usize
    ensures most { (text : List ℕ) → length (part_text text part) ≤ result }
    ensures fits { result < 2 ^ 32 }
{
    (part.past as usize).saturating_sub(part.start as usize)
}

// How many bytes are written at most of what a feature is called.
fn label_length(label: Option<Label>) -> usize
    ensures most { (text : List ℕ) → length (label_text (option_map (label_words text) label)) ≤ result }
    ensures fits { result < 2 ^ 33 }
{
    match label {
        Some(Label::Number { .. }) => 10,
        Some(Label::Handle { part }) => 2 + part_length(part),
        None => 4,
    }
}

// How many bytes are written at most of a text that is copied.
fn copied_length(part: Option<TextPart>) -> usize
    ensures most { (text : List ℕ) → length (copied_text (option_map (part_text text) part)) ≤ result }
    ensures fits { result < 2 ^ 33 }
{
    match part {
        Some(part) => part_length(part).max(4),
        None => 4,
    }
}

// How many bytes are copied at most into what is said of a path.
fn path_length(spot: PathSpot) -> usize
    ensures most { (text : List ℕ) → copied_length (path_words text spot) ≤ result }
    ensures fits { result < 2 ^ 35 }
{
    label_length(spot.feature) + copied_length(spot.id) + copied_length(spot.name)
}

/// How many bytes the feature of a change has at most, with the mark before it. `texts` are the texts that are kept of
/// the layers.
pub fn most_bytes(texts: &[Listed<u8>], change: ChangeSpot) -> usize
    ensures most { (style : StyleOf) (names : List (List ℕ)) (number : ℕ) → number < 2 ^ 64
        → length (change_entry style names number (change_words texts.now change)) ≤ result }
    ensures fits { result < 2 ^ 40 }
{
    change_fits(texts, change);
    MOST_UNCOPIED + path_length(change.first.spot) + path_length(change.second.spot)
}

/// How many bytes the feature of a change of sides has at most, with the mark before it.
pub fn most_ring_bytes(texts: &[Listed<u8>], ring: RingSpot) -> usize
    ensures most { (style : StyleOf) (names : List (List ℕ)) (changes number : ℕ) → number < 2 ^ 64
        → length (ring_entry style names changes number (ring_words texts.now ring)) ≤ result }
    ensures fits { result < 2 ^ 40 }
{
    ring_fits(texts, ring);
    MOST_UNCOPIED + path_length(ring.ring) + path_length(ring.point)
}
