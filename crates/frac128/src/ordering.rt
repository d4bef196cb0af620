//! The order of two fractions by value.

ghost use Rattle.std.specs.Prelude.{◌≡◌, ◌↔◌, ◌*ℤ◌, IsTrue};
ghost use Rattle.std.specs.Ordering.{MatchOrdering};
ghost use Rattle.frac128.specs.Fractions.{order_of, IsBelow, IsSameValue};
ghost use Rattle.frac128.specs.Sizes.{IsSmall};

use crate::Frac;
use std::cmp::Ordering;

/// The product of two numbers that are below `TURN` in magnitude.
fn product(a: i128, b: i128) -> i128
    requires a_small { IsSmall a }
    requires b_small { IsSmall b }
    ensures { result ≡ a *ℤ b }
{
    a * b
}

/// How the value of `a` compares with the value of `b`.
pub fn order(a: Frac, b: Frac) -> Ordering
    ensures value { result ≡ order_of a b }
    ensures cases { MatchOrdering result (IsBelow a b) (IsSameValue a b) (IsBelow b a) }
{
    product(a.num, b.den).cmp(&product(b.num, a.den))
}

/// Whether the value of `a` is below that of `b`.
pub fn is_below(a: Frac, b: Frac) -> bool
    ensures { IsTrue result ↔ IsBelow a b }
{
    order(a, b) == Ordering::Less
}
