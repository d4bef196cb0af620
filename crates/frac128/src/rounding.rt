//! Rounding of a fraction half up to a whole number.

ghost use Rattle.std.specs.Prelude.{◌≡◌, ◌<◌, ◌^◌, pos, ◌<ℤ◌, ◌*ℤ◌, unsigned_abs};
ghost use Rattle.frac128.specs.Rounding.{half_up_of};
ghost use Rattle.frac128.specs.declared.frac.TheConstants.{TURN};

/// `num / den` as a whole number: the nearest one, and the greater of two that are equally near. The denominator is
/// below 2^64.
pub fn half_up(num: i128, den: i128) -> i128
    requires den_positive { pos 0 <ℤ den }
    requires den_small { den <ℤ (pos 2 *ℤ TURN) }
    requires num_small { unsigned_abs num < 2 ^ 120 }
    ensures { result ≡ half_up_of num den }
{
    (2 * num + den).div_euclid(2 * den)
}
