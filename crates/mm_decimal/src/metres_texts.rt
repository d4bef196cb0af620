//! The text of a number of millimetres.

ghost use Rattle.std.specs.Prelude.{◌≡◌, ◌+◌, ◌/◌, ◌^◌, ◌<◌, ◌≤◌, [], ◌∷◌, ◌++◌, length, take, drop, decimal};
ghost use Rattle.std.specs.Prelude.{ℤ, unsigned_abs, true};
ghost use Rattle.mm_decimal.specs.Numerals.{HasValue};
ghost use Rattle.mm_decimal.specs.Answers.{Reads};
ghost use Rattle.mm_decimal.specs.declared.limits.TheConstants.{LIMIT};
ghost use Rattle.mm_decimal.specs.MetresTexts.{mm_text, thousandths, digit_text, sign_part, Puts};

/// Puts one byte.
#[inline(always)]
fn put_byte(out: &mut [u8; 24], at: usize, byte: u8) -> usize
    requires { at < 24 }
    ensures { Puts out.old out.new at result (byte ∷ []) }
{
    out[at] = byte;
    at + 1
}

/// The decimal digits of 0 to 99, two each.
static PAIRS: [u8; 200] = *b"\
    00010203040506070809\
    10111213141516171819\
    20212223242526272829\
    30313233343536373839\
    40414243444546474849\
    50515253545556575859\
    60616263646566676869\
    70717273747576777879\
    80818283848586878889\
    90919293949596979899";

/// Puts the last decimal digit of the number.
#[inline(always)]
fn put_digit(out: &mut [u8; 24], at: usize, number: u64) -> usize
    requires { at < 24 }
    ensures { Puts out.old out.new at result (digit_text number) }
{
    put_byte(out, at, b'0' + (number % 10) as u8)
}

/// Puts the last two decimal digits of the number.
#[inline(always)]
fn put_pair(out: &mut [u8; 24], at: usize, number: u64) -> usize
    requires { at + 2 ≤ 24 }
    ensures { Puts out.old out.new at result (digit_text (number / 10) ++ digit_text number) }
{
    let from = (number % 100) as usize * 2;
    let (ten, one) = (PAIRS[from], PAIRS[from + 1]);
    let at = put_byte(out, at, ten);
    put_byte(out, at, one)
}

/// Puts the last four decimal digits of the number.
#[inline(always)]
fn put_four(out: &mut [u8; 24], at: usize, number: u64) -> usize
    requires { at + 4 ≤ 24 }
    ensures { Puts out.old out.new at result
        (digit_text (number / 1000) ++ (digit_text (number / 100) ++ (digit_text (number / 10) ++ digit_text number))) }
{
    let at = put_pair(out, at, number / 100);
    put_pair(out, at, number)
}

/// Puts the decimal digits of a number below 100, without leading zeros, at least one.
#[inline(always)]
fn put_upto_two(out: &mut [u8; 24], at: usize, number: u64) -> usize
    requires few { number < 100 }
    requires room { at + length (decimal number) ≤ 24 }
    ensures { Puts out.old out.new at result (decimal number) }
{
    if number < 10 {
        put_digit(out, at, number)
    } else {
        put_pair(out, at, number)
    }
}

/// Puts the decimal digits of a number below 10,000, without leading zeros, at least one.
#[inline(always)]
fn put_upto_four(out: &mut [u8; 24], at: usize, number: u64) -> usize
    requires few { number < 10000 }
    requires room { at + length (decimal number) ≤ 24 }
    ensures { Puts out.old out.new at result (decimal number) }
{
    if number < 100 {
        put_upto_two(out, at, number)
    } else {
        let at = put_upto_two(out, at, number / 100);
        put_pair(out, at, number)
    }
}

/// Puts the decimal digits of the number, without leading zeros, at least one.
fn put_decimal(out: &mut [u8; 24], at: usize, number: u64) -> usize
    requires { at + length (decimal number) ≤ 24 }
    ensures { Puts out.old out.new at result (decimal number) }
{
    if number < 10_000 {
        return put_upto_four(out, at, number);
    }
    let at = put_decimal(out, at, number / 10_000);
    put_four(out, at, number)
}

/// Puts a minus, or nothing.
#[inline(always)]
fn put_sign(out: &mut [u8; 24], negative: bool) -> usize
    ensures puts { Puts out.old out.new 0 result (sign_part negative) }
    ensures short { result ≤ 1 }
{
    if negative { put_byte(out, 0, b'-') } else { 0 }
}

/// Writes millimetres as metres: an optional `-`, the whole metres without leading zeros, at least
/// one digit, a point and three digits. Answers the length of the text; the bytes after it stay.
#[tactic(auto, using(crate::proofs::TextJoins::metres_short))]
pub fn write_mm(mm: i64, out: &mut [u8; 24]) -> usize
    ensures within { result ≤ 24 }
    ensures text { take result out.new ≡ mm_text mm }
    ensures rest { drop result out.new ≡ drop result out.old }
{
    let size = mm.unsigned_abs();
    let at = put_sign(out, mm < 0);
    let at = put_decimal(out, at, size / 1000);
    let at = put_byte(out, at, b'.');
    let at = put_digit(out, at, size / 100);
    put_pair(out, at, size)
}

/// What is written is a numeral of just as many thousandths; and it is read back, exactly. With
/// the clause `read` of `read_mm` this says that `read_mm` gives the number back as exact.
pub fn written_is_read()
    ensures value { (mm : ℤ) → unsigned_abs mm < 2 ^ 64 → HasValue (mm_text mm) (thousandths mm) }
    ensures read { (mm : ℤ) → unsigned_abs mm ≤ LIMIT
        → Reads (mm_text mm) (record { mm = mm; exact = true }) }
{}
