//! The millimetres that a numeral of metres is worth.

ghost use Rattle.std.specs.Prelude.{◌≡◌, ◌^◌, ◌<◌, ◌≤◌, ◌↔◌, List, length, ℕ, ℤ};
ghost use Rattle.std.specs.Prelude.{IsErrOf, MatchOption, Result};
ghost use Rattle.text_places.specs.Places.{IsFirstFault};
ghost use Rattle.mm_decimal.specs.Numerals.{Value, IsNumeral, HasValue};
ghost use Rattle.mm_decimal.specs.Millimetres.{mm_of, IsNearest, IsRead, IsOutOfRange};
ghost use Rattle.mm_decimal.specs.Answers.{Reads, Answers, loss_of};
ghost use Rattle.mm_decimal.specs.AnswerValues.{millimetres_of};
ghost use Rattle.mm_decimal.specs.InsideScans.{Read, IsView, value_read};

use crate::limits::{HIGHEST, LONGEST};
use crate::plain::plain;
use crate::rounding::{apply_sign, places_of, shift, zeros_of};
use crate::scan::Scan;
use thiserror::Error;

/// Whole millimetres, and whether the numeral is exactly that long.
#[derive(Clone, Copy, Debug, PartialEq, Eq)]
pub struct MmRead {
    pub mm: i64,
    pub exact: bool,
}

/// Why a text is not read.
#[derive(Clone, Copy, Debug, PartialEq, Eq, Error)]
pub enum NumFault {
    /// The text is no numeral: its first `at` bytes begin some numeral, and no more of its first
    /// bytes do.
    #[error("no numeral goes on so at byte {at}")]
    Form { at: u64 },
    /// The text has more than 64 bytes.
    #[error("the numeral has more than {LONGEST} bytes")]
    Long,
    /// The power of ten is outside -99 to 99, or the length outside ±10^15 millimetres.
    #[error("the numeral is out of range")]
    Range,
}

/// 1 where the numeral lost digits, else 0: what a layer and a triangulation count.
pub fn loss(read: MmRead) -> u64
    ensures value { result ≡ loss_of read }
    ensures few { result ≤ 1 }
{
    if read.exact { 0 } else { 1 }
}

/// The millimetres of what was read.
fn millimetres(scan: Scan) -> Option<MmRead>
    requires top { scan.kept.top < 10 ^ 18 }
    requires dropped { scan.kept.dropped ≤ LONGEST }
    requires places { scan.places ≤ LONGEST }
    ensures { (count : ℕ) → (read : Read) → IsView scan count read → MatchOption result
        (IsOutOfRange (value_read read)) (IsRead (value_read read)) }
{
    if scan.power > HIGHEST {
        return None;
    }
    let up = scan.kept.dropped + 3 + zeros_of(scan.lowered, scan.power);
    let down = scan.places + places_of(scan.lowered, scan.power);
    match shift(scan.kept, up, down, scan.negative) {
        Some(size) => Some(MmRead {
            mm: apply_sign(scan.negative, size.size),
            exact: size.exact,
        }),
        None => None,
    }
}

/// One of the answers to a text.
fn answer(text: &[u8]) -> Result<MmRead, NumFault>
    ensures { Answers text.now result }
{
    if let Some(read) = plain(text) {
        return Ok(read);
    }
    if text.len() > LONGEST {
        return Err(NumFault::Long);
    }
    match Scan::of(text) {
        Ok(scan) => match millimetres(scan) {
            Some(read) => Ok(read),
            None => Err(NumFault::Range),
        },
        Err(at) => Err(NumFault::Form { at }),
    }
}

/// Reads a numeral of metres: an optional `+` or `-`, digits with an optional point and optional
/// further digits, or a point and digits, and optionally `e` or `E`, an optional sign and digits.
/// Halves of a millimetre are rounded up. Errors in this order: `Long`, `Form`, `Range`.
pub fn read_mm(text: &[u8]) -> Result<MmRead, NumFault>
    ensures long { IsErrOf result NumFault.Long ↔ (LONGEST < length text.now) }
    ensures form { (at : ℕ) → IsErrOf result (NumFault.Form at)
        ↔ ((length text.now ≤ LONGEST) × IsFirstFault IsNumeral text.now at) }
    ensures range { IsErrOf result NumFault.Range
        ↔ ((length text.now ≤ LONGEST) × ((value : Value) × HasValue text.now value × IsOutOfRange value)) }
    ensures read { (read : MmRead) → (result ≡ Ok read) ↔ Reads text.now read }

    // The answer as a function of the text.
    ensures measured { result ≡ millimetres_of text.now }
{
    answer(text)
}

/// The millimetres of a value v are the one whole number m with 2m - 1 ≤ 2000 v < 2m + 1.
pub fn mm_is_nearest()
    ensures nearest { (value : Value) → IsNearest value (mm_of value) }
    ensures only { (value : Value) → (mm : ℤ) → IsNearest value mm → mm ≡ mm_of value }
{}

/// Each text has one answer, and `millimetres_of` is it.
pub fn measured_is_the_answer()
    ensures answers { (text : List ℕ) → Answers text (millimetres_of text) }
    ensures only { (text : List ℕ) → (answer : Result MmRead NumFault)
        → Answers text answer → answer ≡ millimetres_of text }
{}

/// A text has one value.
pub fn value_is_one()
    ensures { (text : List ℕ) → (value other : Value)
        → HasValue text value → HasValue text other → value ≡ other }
{}
