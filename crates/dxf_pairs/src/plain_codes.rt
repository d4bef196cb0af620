//! Lines of group codes as most writers lay them out, one to three digits in three places, or one to
//! four digits between blanks. They are read in front of the search for the line's end.

ghost use Rattle.std.specs.Prelude.{◌≡◌, ◌<◌, ◌≤◌, ◌+◌, ◌∷◌, ◌-◌, length, take, drop, IfSome, IsTrue, Some};
ghost use Rattle.std.specs.Str.Parse.{AllDigits, digits_value};
ghost use Rattle.dxf_pairs.specs.Lines.{lines_of};
ghost use Rattle.dxf_pairs.specs.Codes.{code_of};
ghost use Rattle.dxf_pairs.specs.InsidePlainCodes.{AreInThree};

use crate::blanks::blanks_before;
use crate::line_ends::LINE_FEED;

/// The most digits that are read here; no number of this many is too great for a group code.
const MOST_DIGITS: usize = 4;

/// Digits at the start of a text: how many there are, and the number that they write.
#[derive(Clone, Copy)]
struct FirstDigits {
    number: u32,
    count: usize,
}

/// A line's group code, and how many bytes come before its line feed.
#[derive(Clone, Copy)]
pub struct PlainCode {
    pub code: i32,
    pub end: usize,
}

/// The digits at the front, `MOST_DIGITS` at most.
#[inline(always)]
fn front_of(text: &[u8]) -> FirstDigits
    ensures few { result.count ≤ MOST_DIGITS }
    ensures within { result.count ≤ length text.now }
    ensures digits { AllDigits 10 (take result.count text.now) }
    ensures number { result.number ≡ digits_value 10 (take result.count text.now) }
{
    let mut number: u32 = 0;
    let mut count = 0;
    while count < MOST_DIGITS && count < text.len() && text[count].is_ascii_digit() {
        number = number * 10 + u32::from(text[count] - b'0');
        count += 1;
    }
    FirstDigits { number, count }
}

/// The group code of the first line, where the line is one to four digits between blanks and ends at
/// a line feed.
#[inline(never)]
fn plain_code(text: &[u8]) -> Option<PlainCode>
    ensures within { IfSome result (λ plain. plain.end < length text.now) }
    ensures line { IfSome result (λ plain. lines_of text.now ≡ take plain.end text.now ∷ lines_of (drop (plain.end + 1) text.now)) }
    ensures code { IfSome result (λ plain. code_of (take plain.end text.now) ≡ Some plain.code) }
{
    let before = blanks_before(text);
    let front = front_of(&text[before..]);
    let behind = before + front.count;
    let end = behind + blanks_before(&text[behind..]);
    if front.count == 0 || end == text.len() || text[end] != LINE_FEED {
        return None;
    }
    Some(PlainCode {
        code: front.number as i32,
        end,
    })
}

/// Whether three bytes are one to three digits behind spaces.
#[inline(always)]
fn are_in_three(a: u8, b: u8, c: u8) -> bool
    ensures { IsTrue result → AreInThree a b c }
{
    if !c.is_ascii_digit() {
        return false;
    }
    if b.is_ascii_digit() {
        return a == b' ' || a.is_ascii_digit();
    }
    a == b' ' && b == b' '
}

/// What a digit is worth, and a space 0.
#[inline(always)]
fn worth(byte: u8) -> u32
    ensures value { result ≡ byte - 48 }
    ensures few { result < 256 }
{
    u32::from(byte.saturating_sub(b'0'))
}

/// The group code of the first line, where the line is one to three digits behind spaces in three
/// places, and ends at a carriage return and a line feed.
#[inline(always)]
fn padded_code(text: &[u8]) -> Option<PlainCode>
    ensures within { IfSome result (λ plain. plain.end < length text.now) }
    ensures line { IfSome result (λ plain. lines_of text.now ≡ take plain.end text.now ∷ lines_of (drop (plain.end + 1) text.now)) }
    ensures code { IfSome result (λ plain. code_of (take plain.end text.now) ≡ Some plain.code) }
{
    if text.len() < 5 || text[3] != b'\r' || text[4] != LINE_FEED {
        return None;
    }
    if !are_in_three(text[0], text[1], text[2]) {
        return None;
    }
    let number = 100 * worth(text[0]) + 10 * worth(text[1]) + worth(text[2]);
    Some(PlainCode {
        code: number as i32,
        end: 4,
    })
}

/// The group code of the first line, where the line is laid out in one of these two ways.
#[inline(always)]
pub fn short_code(text: &[u8]) -> Option<PlainCode>
    ensures within { IfSome result (λ plain. plain.end < length text.now) }
    ensures line { IfSome result (λ plain. lines_of text.now ≡ take plain.end text.now ∷ lines_of (drop (plain.end + 1) text.now)) }
    ensures code { IfSome result (λ plain. code_of (take plain.end text.now) ≡ Some plain.code) }
{
    match padded_code(text) {
        Some(plain) => Some(plain),
        None => plain_code(text),
    }
}
