//! Numerals of digits, and perhaps a point and up to three digits, as most files have them. They are read without a
//! scan.

ghost use Rattle.std.specs.Prelude.{◌≡◌, ◌*◌, ◌^◌, ◌<◌, ◌≤◌, ◌++◌, ◌∷◌, ℕ, List, length, take, drop, IfSome, IsTrue};
ghost use Rattle.std.specs.Prelude.{true};
ghost use Rattle.mm_decimal.specs.Millimetres.{signed_of};
ghost use Rattle.mm_decimal.specs.Answers.{Reads};
ghost use Rattle.mm_decimal.specs.InsidePlainNumerals.{Write, IsPlain};

use crate::limits::LIMIT;
use crate::numerals::MmRead;
use crate::rounding::apply_sign;

/// No longer text is read here, in bytes, without its sign.
const LONGEST_PLAIN: usize = 16;

/// Digits at the start of a text: how many there are, and the number that they write.
#[derive(Clone, Copy)]
struct PlainDigits {
    number: u64,
    count: usize,
}

/// The digits at the front.
#[inline(always)]
fn front_of(text: &[u8]) -> PlainDigits
    requires { length text.now ≤ LONGEST_PLAIN }
    ensures within { result.count ≤ length text.now }
    ensures digits { Write (take result.count text.now) result.number }
    ensures small { result.number < 10 ^ result.count }
{
    let mut number: u64 = 0;
    let mut count = 0;
    while count < text.len() && text[count].is_ascii_digit() {
        number = number * 10 + u64::from(text[count] - b'0');
        count += 1;
    }
    PlainDigits { number, count }
}

/// The thousandths that up to three digits after a point are worth.
#[inline(always)]
fn thousandths_of(fraction: PlainDigits) -> Option<u64>
    requires { fraction.number < 10 ^ fraction.count }
    ensures size { IfSome result (λ rest. 1000 * fraction.number ≡ rest * 10 ^ fraction.count) }
    ensures small { IfSome result (λ rest. rest < 1000) }
{
    match fraction.count {
        0 => Some(0),
        1 => Some(fraction.number * 100),
        2 => Some(fraction.number * 10),
        3 => Some(fraction.number),
        _ => None,
    }
}

/// The text begins with this byte.
#[inline(always)]
fn begins_with(text: &[u8], byte: u8) -> bool
    ensures some { IsTrue result → 0 < length text.now }
    ensures first { IsTrue result → text.now ≡ byte ∷ drop 1 text.now }
{
    if text.is_empty() {
        return false;
    }
    text[0] == byte
}

/// The thousandths of a plain numeral whose whole digits were read, and which continues with these bytes.
#[inline(always)]
fn size_with(whole: PlainDigits, behind: &[u8]) -> Option<u64>
    requires short { length behind.now ≤ LONGEST_PLAIN }
    requires small { whole.number < 10 ^ 16 }
    requires some { 0 < whole.count }
    ensures { IfSome result (λ size. (digits : List ℕ) → length digits ≡ whole.count → Write digits whole.number
        → IsPlain (digits ++ behind.now) size) }
{
    if behind.is_empty() {
        return Some(whole.number * 1000);
    }
    if !begins_with(behind, b'.') {
        return None;
    }
    let digits = &behind[1..];
    let fraction = front_of(digits);
    if fraction.count < digits.len() {
        return None;
    }
    match thousandths_of(fraction) {
        Some(rest) => Some(whole.number * 1000 + rest),
        None => None,
    }
}

/// The thousandths of a plain numeral without a sign.
#[inline(always)]
fn size_of(text: &[u8]) -> Option<u64>
    ensures plain { IfSome result (λ size. IsPlain text.now size) }
    ensures short { IfSome result (λ size. length text.now ≤ LONGEST_PLAIN) }
{
    if text.len() > LONGEST_PLAIN {
        return None;
    }
    let whole = front_of(text);
    if whole.count == 0 {
        return None;
    }
    size_with(whole, &text[whole.count..])
}

/// What is read of this many thousandths, where they are in range.
#[inline(always)]
fn read_of(size: u64, negative: bool) -> Option<MmRead>
    ensures limit { IfSome result (λ read. size ≤ LIMIT) }
    ensures read { IfSome result (λ read. read ≡ record { mm = signed_of negative size; exact = true }) }
{
    if size > LIMIT {
        return None;
    }
    Some(MmRead {
        mm: apply_sign(negative, size),
        exact: true,
    })
}

/// What is read of a plain numeral.
#[inline(always)]
pub fn plain(text: &[u8]) -> Option<MmRead>
    ensures { IfSome result (λ read. Reads text.now read) }
{
    if begins_with(text, b'-') {
        match size_of(&text[1..]) {
            Some(size) => read_of(size, true),
            None => None,
        }
    } else {
        match size_of(text) {
            Some(size) => read_of(size, false),
            None => None,
        }
    }
}
