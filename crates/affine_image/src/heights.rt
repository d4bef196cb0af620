//! The height of a point of a segment, between those of its ends.

ghost use Rattle.std.specs.Prelude.{◌≡◌, ◌≤◌, ◌<◌, ◌*◌, ◌^◌, pos, ◌+ℤ◌, ◌-ℤ◌, ◌*ℤ◌, unsigned_abs};
ghost use Rattle.frac128.specs.Rounding.{half_up_of};
ghost use Rattle.frac128.specs.Sizes.{IsSmall};
ghost use Rattle.mm_decimal.specs.declared.limits.TheConstants.{LIMIT};
ghost use Rattle.plane_base.specs.Slices.{IsParam};
ghost use Rattle.affine_image.specs.Heights.{height_of, EndsKeepHeights, HeightsAreBetween, HeightsAgree};

use crate::quotients::round_half_up;
use frac128::Frac;

// A share of the rise from one end to the other: 128 bits hold it.
fn share(weight: i128, rise: i64) -> i128
    requires weight { IsSmall weight }
    requires rise { unsigned_abs rise ≤ 2 * LIMIT }
    ensures value { result ≡ weight *ℤ rise }
    ensures size { unsigned_abs result < 2 ^ 114 }
{
    weight * i128::from(rise)
}

// The rise at `s`, from 0 to 1, of the rise from one end to the other.
fn rise_at(rise: i64, s: Frac) -> i64
    requires rise { unsigned_abs rise ≤ 2 * LIMIT }
    requires between { IsParam s.num s.den }
    ensures value { result ≡ half_up_of (s.num *ℤ rise) s.den }
    ensures size { unsigned_abs result ≤ 2 * LIMIT }
{
    round_half_up(share(s.num, rise), s.den) as i64
}

/// The height, in millimetres, of the point at `s`, from 0 to 1, between two ends of the heights `za` and `zb`, rounded
/// half up. It takes no memory.
pub fn height_at(za: i64, zb: i64, s: Frac) -> i64
    requires first { unsigned_abs za ≤ LIMIT }
    requires second { unsigned_abs zb ≤ LIMIT }
    requires between { IsParam s.num s.den }
    ensures mix { result ≡ height_of (s.den -ℤ s.num) s.num za zb }
    ensures rise { result ≡ za +ℤ half_up_of (s.num *ℤ (zb -ℤ za)) s.den }
{
    za + rise_at(zb - za, s)
}

/// A law: at an end the height is that of the end.
pub fn ends_keep_heights()
    ensures { EndsKeepHeights }
{}

/// A law: a height is from the lesser to the greater of those of the ends.
pub fn heights_are_between()
    ensures { HeightsAreBetween }
{}

/// A law: a point has one height, by whatever weights it is the mix of the ends.
pub fn heights_agree()
    ensures { HeightsAgree }
{}
