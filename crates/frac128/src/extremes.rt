//! The greater and the lesser of two fractions.

ghost use Rattle.std.specs.Prelude.{◌≡◌, ◌↔◌, ◌⊎◌, ℤ, pos, ◌<ℤ◌};
ghost use Rattle.frac128.specs.Fractions.{IsAtMost, IsFrom, IsUpTo};

use crate::{Frac, is_below};

/// The greater of two, by value. Where these are equal it is the first.
pub fn later(a: Frac, b: Frac) -> Frac
    ensures one { (result ≡ a) ⊎ (result ≡ b) }
    ensures first { IsAtMost b a → result ≡ a }
    ensures from_a { IsAtMost a result }
    ensures from_b { IsAtMost b result }
    ensures bound { (n d : ℤ) → pos 0 <ℤ d → (IsFrom result n d ↔ (IsFrom a n d × IsFrom b n d)) }
{
    if is_below(a, b) { b } else { a }
}

/// The lesser of two, by value. Where these are equal it is the second.
pub fn earlier(a: Frac, b: Frac) -> Frac
    ensures one { (result ≡ a) ⊎ (result ≡ b) }
    ensures second { IsAtMost b a → result ≡ b }
    ensures to_a { IsAtMost result a }
    ensures to_b { IsAtMost result b }
    ensures bound { (n d : ℤ) → pos 0 <ℤ d → (IsUpTo result n d ↔ (IsUpTo a n d × IsUpTo b n d)) }
{
    if is_below(a, b) { a } else { b }
}
