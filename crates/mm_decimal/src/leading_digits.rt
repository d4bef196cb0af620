//! The leading digits of a whole number of any length.

ghost use Rattle.std.specs.Prelude.{◌≡◌, ℕ, ◌+◌, ◌*◌, ◌^◌, ◌<◌, ◌≤◌, ◌⊎◌, ◌↔◌, IsTrue};
ghost use Rattle.mm_decimal.specs.InsideLeadingDigits.{IsCut};

/// With less than this in front one digit more is kept.
const ROOM: u64 = 100_000_000_000_000_000;

/// A whole number's digits: up to 18 leading ones as a number, how many digits follow these, and
/// whether one that follows is not 0.
#[derive(Clone, Copy)]
pub struct LeadingDigits {
    pub top: u64,
    pub dropped: u64,
    pub lost: bool,
}

impl LeadingDigits {
    /// No digits.
    pub fn none() -> LeadingDigits
        ensures cut { IsCut result 0 }
        ensures dropped { result.dropped ≡ 0 }
    {
        LeadingDigits {
            top: 0,
            dropped: 0,
            lost: false,
        }
    }

    /// One digit more, after the others.
    #[inline(always)]
    pub fn with(self, digit: u8) -> LeadingDigits
        requires digit { digit < 10 }
        requires top { self.top < 10 ^ 18 }
        requires dropped { self.dropped < 64 }
        ensures cut { (number : ℕ) → IsCut self number → IsCut result (10 * number + digit) }
        ensures dropped { result.dropped ≤ self.dropped + 1 }
    {
        let digit = u64::from(digit);
        if self.top < ROOM {
            LeadingDigits {
                top: self.top * 10 + digit,
                dropped: self.dropped,
                lost: self.lost,
            }
        } else {
            LeadingDigits {
                top: self.top,
                dropped: self.dropped + 1,
                lost: is_lost(self.lost, digit),
            }
        }
    }
}

/// Whether a digit that is not 0 is lost, before or now.
#[inline(always)]
fn is_lost(before: bool, digit: u64) -> bool
    ensures { IsTrue result ↔ (IsTrue before ⊎ (0 < digit)) }
{
    before || digit > 0
}
