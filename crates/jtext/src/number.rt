//! Where a number ends.

ghost use Rattle.std.specs.Prelude.{◌≡◌, ◌≤◌, ◌<◌, ◌↔◌, length, slice_range, slice_index, Some, None, IsTrue};
ghost use Rattle.text_places.specs.Machine.{run};
ghost use Rattle.std.specs.List.{AllByRecursion};
ghost use Rattle.jtext.specs.Numbers.{IsDigit};
ghost use Rattle.jtext.specs.InsideTokens.{number_step, is_last_place, IsDigits};

/// What was read last of a number.
#[derive(Clone, Copy)]
pub enum NumberPlace {
    Minus,
    /// The zero that is all of the whole number.
    Zero,
    Whole,
    Point,
    Fraction,
    /// e or E.
    Mark,
    /// The sign after e or E.
    MarkSign,
    Exponent,
}

impl NumberPlace {
    /// Whether a number can end here.
    pub fn is_last(self) -> bool
        ensures { result ≡ is_last_place self }
    {
        match self {
            NumberPlace::Zero
            | NumberPlace::Whole
            | NumberPlace::Fraction
            | NumberPlace::Exponent => true,
            NumberPlace::Minus | NumberPlace::Point | NumberPlace::Mark | NumberPlace::MarkSign =>
                false,
        }
    }

    /// Whether a digit was read last, after which any number of digits may come.
    #[inline(always)]
    fn is_in_digits(self) -> bool
        ensures { IsTrue result ↔ IsDigits self }
    {
        match self {
            NumberPlace::Whole | NumberPlace::Fraction | NumberPlace::Exponent => true,
            NumberPlace::Minus
            | NumberPlace::Zero
            | NumberPlace::Point
            | NumberPlace::Mark
            | NumberPlace::MarkSign => false,
        }
    }

    /// The place after one more byte, where the number goes on with it.
    #[inline(always)]
    fn after(self, byte: u8) -> Option<NumberPlace>
        ensures { result ≡ number_step self byte }
    {
        match self {
            NumberPlace::Minus => match byte {
                b'0' => Some(NumberPlace::Zero),
                b'1'..=b'9' => Some(NumberPlace::Whole),
                _ => None,
            },
            NumberPlace::Zero => match byte {
                b'.' => Some(NumberPlace::Point),
                b'e' | b'E' => Some(NumberPlace::Mark),
                _ => None,
            },
            NumberPlace::Whole => match byte {
                b'.' => Some(NumberPlace::Point),
                b'e' | b'E' => Some(NumberPlace::Mark),
                b'0'..=b'9' => Some(NumberPlace::Whole),
                _ => None,
            },
            NumberPlace::Point => match byte {
                b'0'..=b'9' => Some(NumberPlace::Fraction),
                _ => None,
            },
            NumberPlace::Fraction => match byte {
                b'e' | b'E' => Some(NumberPlace::Mark),
                b'0'..=b'9' => Some(NumberPlace::Fraction),
                _ => None,
            },
            NumberPlace::Mark => match byte {
                b'+' | b'-' => Some(NumberPlace::MarkSign),
                b'0'..=b'9' => Some(NumberPlace::Exponent),
                _ => None,
            },
            NumberPlace::MarkSign | NumberPlace::Exponent => match byte {
                b'0'..=b'9' => Some(NumberPlace::Exponent),
                _ => None,
            },
        }
    }
}

/// The first place from this one on where no digit is.
#[inline(always)]
fn digits_end(bytes: &[u8], from: usize) -> usize
    requires { from ≤ length bytes.now }
    ensures within { (from ≤ result) × (result ≤ length bytes.now) }
    ensures digits { AllByRecursion IsDigit (slice_range bytes.now from result) }
{
    let mut at = from;
    while at < bytes.len() && is_digit(bytes[at]) {
        at += 1;
    }
    at
}

#[inline(always)]
fn is_digit(byte: u8) -> bool
    ensures { IsTrue result ↔ IsDigit byte }
{
    byte >= b'0' && byte <= b'9'
}

/// Is the byte a comma or the end of an array? No number goes on with it.
#[inline(always)]
fn is_comma_or_end(byte: u8) -> bool
    ensures { IsTrue result → (place : NumberPlace) → number_step place byte ≡ None }
{
    byte == b',' || byte == b']'
}

/// The place after the digits from this place on, where any number of them may be.
#[inline(always)]
fn digits_behind(bytes: &[u8], from: usize, place: NumberPlace) -> usize
    requires { from ≤ length bytes.now }
    ensures within { (from ≤ result) × (result ≤ length bytes.now) }
    ensures passes { run number_step place (slice_range bytes.now from result) ≡ Some place }
{
    if place.is_in_digits() {
        digits_end(bytes, from)
    } else {
        from
    }
}

/// Where a number ends that is at this place after the bytes before `from`, and its last place:
/// it does not go on with the byte there.
#[inline(always)]
pub fn number_end(bytes: &[u8], from: usize, first: NumberPlace) -> (usize, NumberPlace)
    requires { from ≤ length bytes.now }
    ensures within { (from ≤ result.0) × (result.0 ≤ length bytes.now) }
    ensures passes { run number_step first (slice_range bytes.now from result.0) ≡ Some result.1 }
    ensures stops { result.0 < length bytes.now → number_step result.1 (slice_index bytes.now result.0) ≡ None }
{
    let mut at = digits_behind(bytes, from, first);
    let mut place = first;
    while at < bytes.len() {
        // Most numbers end here: no table is asked.
        if is_comma_or_end(bytes[at]) {
            return (at, place);
        }
        match place.after(bytes[at]) {
            Some(next) => place = next,
            None => return (at, place),
        }
        at = digits_behind(bytes, at + 1, place);
    }
    (at, place)
}
