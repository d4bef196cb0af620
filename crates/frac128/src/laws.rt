//! Laws of fractions: their order, their rounding, and the size of the products that compare them.

ghost use Rattle.std.specs.Prelude.{◌≡◌, ◌^◌, pos};
ghost use Rattle.std.specs.Cmp.{IsTotalOrder};
ghost use Rattle.frac128.specs.declared.frac.TheConstants.{TURN};
ghost use Rattle.frac128.specs.Fractions.{order_of, ComparedProductsAreSmall};
ghost use Rattle.frac128.specs.Rounding.{HalfUpIsNearest, HalfUpIsWithinHalf};

/// The values of fractions are in a total order, whatever their spelling.
pub fn values_are_in_total_order()
    ensures { IsTotalOrder order_of }
{}

/// No whole number is nearer to a fraction than the one that it is rounded to, and none as near is greater.
pub fn half_up_is_nearest()
    ensures { HalfUpIsNearest }
{}

/// A fraction is rounded to the one whole number r with r - 1/2 at most the fraction and r + 1/2 above it.
pub fn half_up_is_within_half()
    ensures { HalfUpIsWithinHalf }
{}

/// The two products by which two fractions are compared are below 2^126 in magnitude: 128 bits hold them with a bit to
/// spare.
pub fn compared_products_are_small()
    ensures { ComparedProductsAreSmall }
{}

/// A law: the limit on numerators and denominators is this number.
pub fn limits_are_stated()
    ensures turn { TURN ≡ pos (2 ^ 63) }
{}
