//! Fields of a line: a word and the number after it.

ghost use Rattle.std.specs.Prelude.{◌≡◌, true};
ghost use Rattle.std.specs.Char.{is_ascii_digit};
ghost use Rattle.std.specs.List.{prefix_len};
ghost use Rattle.std.specs.Str.{all_ascii_digits};
ghost use Rattle.text_fields.specs.Fields.{Gives, after_word, has_leading_zero};
ghost use Rattle.text_fields.specs.Fields.{number_of_digits};
ghost use Rattle.text_fields.specs.Fields.{number_front, long_field};
ghost use Rattle.text_fields.specs.Fields.{short_field};

/// What comes after a word at the start of a text.
pub fn after<'a>(text: &'a [u8], word: &[u8]) -> Option<&'a [u8]>
    ensures { Gives (λ rest. rest.now) result (after_word word.now text.now) }
{
    text.strip_prefix(word)
}

// Whether the first of several digits is 0.
fn begins_with_zero(digits: &[u8]) -> bool
    ensures { result ≡ has_leading_zero digits.now }
{
    digits.len() > 1 && digits[0] == b'0'
}

// The number that some digits write without leading zeros, where it fits.
#[tactic(auto, unfolding(crate::specs::Fields::number_of_digits))]
fn number_of(digits: &[u8]) -> Option<u64>
    requires { all_ascii_digits digits.now ≡ true }
    ensures { result ≡ number_of_digits digits.now }
{
    if begins_with_zero(digits) {
        return None;
    }
    let Ok(text) = str::from_utf8(digits) else {
        return None;
    };
    text.parse().ok()
}

fn digit_count(text: &[u8]) -> usize
    ensures { result ≡ prefix_len is_ascii_digit text.now }
{
    text.iter().take_while(|byte| byte.is_ascii_digit()).count()
}

// The number at the start of a text, up to the first byte that is no digit, and what comes after it.
#[tactic(auto, unfolding(crate::specs::Fields::number_front))]
fn number_at(text: &[u8]) -> Option<(u64, &[u8])>
    ensures { Gives (λ found. (found.0, found.1.now)) result (number_front text.now) }
{
    let (digits, rest) = text.split_at(digit_count(text));
    let number = number_of(digits)?;
    Some((number, rest))
}

/// The number of 64 bits after a word at the start of a text, and what comes after it.
#[tactic(auto, unfolding(crate::specs::Fields::long_field))]
pub fn long_at<'a>(text: &'a [u8], word: &[u8]) -> Option<(u64, &'a [u8])>
    ensures { Gives (λ found. (found.0, found.1.now)) result (long_field word.now text.now) }
{
    let rest = after(text, word)?;
    number_at(rest)
}

/// The number of 32 bits after a word at the start of a text, and what comes after it.
#[tactic(auto, unfolding(crate::specs::Fields::short_field))]
pub fn short_at<'a>(text: &'a [u8], word: &[u8]) -> Option<(u32, &'a [u8])>
    ensures { Gives (λ found. (found.0, found.1.now)) result (short_field word.now text.now) }
{
    let (number, rest) = long_at(text, word)?;
    let short = u32::try_from(number).ok()?;
    Some((short, rest))
}
