//! Numbers in digits without leading zeros, at the start of a text.

ghost use Rattle.std.specs.Prelude.{◌≡◌, ◌↔◌, ℕ, ◌<◌, ◌^◌, Bool, List, true, length, slice_index, decimal, IsTrue};
ghost use Rattle.std.specs.Prelude.{IfSome, IfNone};
ghost use Rattle.std.specs.Char.{is_ascii_digit};
ghost use Rattle.std.specs.List.{prefix_len};
ghost use Rattle.std.specs.Str.{all_ascii_digits};
ghost use Rattle.cert_check.specs.Certificates.{separator};
ghost use Rattle.cert_check.specs.InsideNumbers.{HasLeadingZero, IsNumber, IsEnded};

/// Whether the first of several digits is 0.
fn has_leading_zero(digits: &[u8]) -> bool
    ensures { IsTrue result ↔ HasLeadingZero digits.now }
{
    digits.len() > 1 && digits[0] == b'0'
}

/// The number below 2^32 that some digits write without leading zeros.
fn number_of(digits: &[u8]) -> Option<u32>
    requires { all_ascii_digits digits.now ≡ true }
    ensures some { IfSome result (λ number. (digits.now ≡ decimal number) × (number < 2 ^ 32)) }
    ensures none { IfNone result ((number : ℕ) → number < 2 ^ 32 → digits.now ≡ decimal number → ⊥) }
{
    if has_leading_zero(digits) {
        return None;
    }
    let Ok(text) = str::from_utf8(digits) else {
        return None;
    };
    text.parse().ok()
}

fn digit_count(text: &[u8]) -> usize
    ensures { result ≡ prefix_len is_ascii_digit text.now }
{
    text.iter().take_while(|byte| byte.is_ascii_digit()).count()
}

/// A number at the start of a text, and the text after it.
#[derive(Clone, Copy)]
struct LeadingNumber<'a> {
    number: u32,
    rest: &'a [u8],
}

/// The number at the start of a text: as many digits as there are.
fn number_at(text: &[u8]) -> Option<LeadingNumber<'_>>
    ensures some { IfSome result (λ front. IsNumber text.now front.number front.rest.now) }
    ensures none { IfNone result ((number : ℕ) (rest : List ℕ) → IsNumber text.now number rest → ⊥) }
{
    let (digits, rest) = text.split_at(digit_count(text));
    match number_of(digits) {
        Some(number) => Some(LeadingNumber { number, rest }),
        None => None,
    }
}

/// Whether the byte ends the last number of a line, or one with another after it.
fn ends_line(byte: u8) -> Option<bool>
    ensures some { IfSome result (λ last. byte ≡ separator last) }
    ensures none { IfNone result ((last : Bool) → byte ≡ separator last → ⊥) }
{
    match byte {
        b' ' => Some(false),
        b'\n' => Some(true),
        _ => None,
    }
}

/// A number of a line, whether it is the line's last one, and the text after the byte that ends it.
#[derive(Clone, Copy)]
pub(crate) struct Ended<'a> {
    pub(crate) number: u32,
    pub(crate) last: bool,
    pub(crate) rest: &'a [u8],
}

/// The number at the start of a text, where a blank or a line feed ends it.
pub(crate) fn ended_number(text: &[u8]) -> Option<Ended<'_>>
    ensures some { IfSome result (λ ended. IsEnded text.now ended.number ended.last ended.rest.now) }
    ensures none { IfNone result ((number : ℕ) (last : Bool) (rest : List ℕ) → IsEnded text.now number last rest → ⊥) }
{
    let Some(front) = number_at(text) else {
        return None;
    };
    let [byte, rest @ ..] = front.rest else {
        return None;
    };
    match ends_line(*byte) {
        Some(last) => Some(Ended {
            number: front.number,
            last,
            rest,
        }),
        None => None,
    }
}
