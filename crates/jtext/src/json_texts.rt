//! Reading a JSON text.

ghost use Rattle.std.specs.Prelude.{◌≡◌, ℕ, ◌^◌, ◌<◌, List, length, IfOk, IsErrOf};
ghost use Rattle.jtext.specs.Texts.{Whole, IsWhole, IsText, IsBad, IsDeep, HasOutcome};
ghost use Rattle.jtext.specs.Places.{IsReadFrom, whole_start};
ghost use Rattle.jtext.specs.InsideStates.{GoesIn};

use crate::document::{Doc, Nodes};
use crate::node_guesses::guess_nodes;
use crate::steps::{Expectation, Pass, is_end, step};
use crate::word::word_end;
use std::alloc::{AllocError, AllocFailed, Global};
use thiserror::Error;

/// This many arrays and objects may nest.
pub const DEEPEST: usize = 64;

/// Why bytes are not read as a JSON text. Places are in bytes from 0.
#[derive(Clone, Copy, Debug, PartialEq, Eq, Drop, Error)]
pub enum JsonFault {
    /// The bytes are no JSON text. The first `at` bytes begin one, and no longer front does.
    #[error("bad at {at}")]
    Bad { at: u64 },
    /// An array or object too deep begins at `at`; all up to and with it begins a JSON text.
    #[error("deep at {at}")]
    Deep { at: u64 },
    /// Memory ran out.
    #[error("no memory")]
    NoMemory,
}

impl From<AllocError> for JsonFault {
    ghost use Rattle.jtext.specs.declared.json_texts.JsonFault.TheVariants.{NoMemory};

    ghost from_gives = { λ _ e. e ≡ NoMemory };

    fn from(_e: AllocError) -> JsonFault {
        JsonFault::NoMemory
    }
}

impl<T: Drop> From<AllocFailed<T>> for JsonFault {
    ghost use Rattle.jtext.specs.declared.json_texts.JsonFault.TheVariants.{NoMemory};

    ghost from_gives = { λ _ e. e ≡ NoMemory };

    fn from(_e: AllocFailed<T>) -> JsonFault {
        JsonFault::NoMemory
    }
}

/// Reads a JSON text (RFC 8259 in UTF-8, with a byte order mark in front or without) in which arrays
/// and objects nest at most `DEEPEST` deep. An escape of a single surrogate is accepted. Of two
/// faults the first is reported.
pub fn read_json(alloc: Global, bytes: &[u8]) -> Result<Doc, JsonFault>
    requires { length bytes.now < 2 ^ 32 }
    ensures ok { IfOk result (λ doc. IsReadFrom doc bytes.now) }
    ensures bad { (at : ℕ) → IsErrOf result (JsonFault.Bad at) → IsBad bytes.now at }
    ensures deep { (at : ℕ) → IsErrOf result (JsonFault.Deep at) → IsDeep bytes.now at }
{
    let mut pass = Pass::with_room(alloc, guess_nodes(bytes));
    let mut place = Expectation::Value;
    let mut at = mark_end(bytes)?;
    while at < bytes.len() {
        let (next, end) = step(&mut pass, bytes, at, place)?;
        place = next;
        at = end;
    }
    if is_end(&pass, place) {
        Ok(Doc {
            nodes: Nodes::of(pass.nodes),
        })
    } else {
        Err(JsonFault::Bad { at: at as u64 })
    }
}

/// The place after a byte order mark in front, or 0.
fn mark_end(bytes: &[u8]) -> Result<usize, JsonFault>
    ensures { GoesIn bytes.now result }
{
    if bytes.len() == 0 {
        return Ok(0);
    }
    if bytes[0] != 0xEF {
        return Ok(0);
    }
    match word_end(bytes, 1, &[0xBB, 0xBF]) {
        Ok(end) => Ok(end),
        Err(wrong) => Err(JsonFault::Bad { at: wrong as u64 }),
    }
}

/// No bytes have two of the answers, so each comes exactly where its cause holds, except for lack of
/// memory.
pub fn answers_exclude_each_other()
    ensures bad_once { (bytes : List ℕ) → (at other : ℕ) → IsBad bytes at → IsBad bytes other → at ≡ other }
    ensures deep_once { (bytes : List ℕ) → (at other : ℕ) → IsDeep bytes at → IsDeep bytes other → at ≡ other }
    ensures bad_or_deep { (bytes : List ℕ) → (at other : ℕ) → IsBad bytes at → IsDeep bytes other → ⊥ }
    ensures text_or_bad { (bytes : List ℕ) → (at : ℕ) → IsText DEEPEST bytes → IsBad bytes at → ⊥ }
    ensures text_or_deep { (bytes : List ℕ) → (at : ℕ) → IsText DEEPEST bytes → IsDeep bytes at → ⊥ }
{}

/// A text has one value, and the value has one place.
pub fn value_is_one()
    ensures value { (bytes : List ℕ) → (whole other : Whole) → IsWhole DEEPEST whole bytes
        → IsWhole DEEPEST other bytes → whole.value ≡ other.value }
    ensures place { (bytes : List ℕ) → (whole other : Whole) → IsWhole DEEPEST whole bytes
        → IsWhole DEEPEST other bytes → whole_start whole ≡ whole_start other }
{}

/// Any bytes are a text of the allowed depth, or have one of the faults. With the laws above, what
/// bytes say is one function of them.
pub fn outcome_exists()
    ensures { (bytes : List ℕ) → HasOutcome bytes }
{}

/// A law: the limit is this number.
pub fn limits_are_stated()
    ensures deepest { DEEPEST ≡ 64 }
{}
