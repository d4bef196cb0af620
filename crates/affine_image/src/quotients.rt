//! Rounding half up, in 64 bits where they suffice.

ghost use Rattle.std.specs.Prelude.{◌≡◌, ◌<◌, ◌^◌, pos, ◌<ℤ◌, ◌*ℤ◌, unsigned_abs};
ghost use Rattle.frac128.specs.Rounding.{half_up_of};
ghost use Rattle.frac128.specs.declared.frac.TheConstants.{TURN};
ghost use Rattle.affine_image.specs.declared.quotients.TheConstants.{SHORT};

use frac128::half_up;

/// Twice a number below this magnitude, and another such number, fit 64 bits.
const SHORT: i128 = 1 << 61;

/// `num / den`, rounded half up, without a number of more than 64 bits.
fn round_short(num: i64, den: i64) -> i64
    requires den_positive { pos 0 <ℤ den }
    requires den_short { den <ℤ SHORT }
    requires num_short { pos (unsigned_abs num) <ℤ SHORT }
    ensures { result ≡ half_up_of num den }
{
    (2 * num + den).div_euclid(2 * den)
}

/// `num / den`, rounded half up.
pub(crate) fn round_half_up(num: i128, den: i128) -> i128
    requires den_positive { pos 0 <ℤ den }
    requires den_small { den <ℤ (pos 2 *ℤ TURN) }
    requires num_small { unsigned_abs num < 2 ^ 120 }
    ensures { result ≡ half_up_of num den }
{
    if den < SHORT && -SHORT < num && num < SHORT {
        i128::from(round_short(num as i64, den as i64))
    } else {
        half_up(num, den)
    }
}
