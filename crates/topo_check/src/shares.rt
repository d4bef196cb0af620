//! Shares of a way, rounded down and up.
ghost use Rattle.std.specs.Int.{int_div_euclid};
ghost use Rattle.std.specs.Prelude.{◌≡◌, ◌⊎◌, ℤ, pos, ◌+ℤ◌, ◌-ℤ◌, ◌*ℤ◌, ◌≤ℤ◌};
ghost use Rattle.frac128.specs.declared.frac.Frac.{Frac};
ghost use Rattle.plane_base.specs.Plane.{IsShort};
ghost use Rattle.plane_base.specs.Slices.{IsParam};
ghost use Rattle.topo_check.specs.declared.parts.TheConstants.{PARTS};
ghost use Rattle.topo_check.specs.InsideBoxes.{IsUpToPlace, IsFromPlace};
ghost use Rattle.topo_check.specs.InsideShares.{IsShareOf};

use crate::parts::{PARTS, Share};
use frac128::Frac;

/// A share of a way in parts.
pub(crate) fn share_of(share: Frac) -> Share
    requires { IsParam share.num share.den }
    ensures { IsShareOf result share }
{
    let down = parts_in(share);
    Share {
        down,
        up: next_part(down),
    }
}

// How many whole parts a share has.
fn parts_in(share: Frac) -> i64
    requires { IsParam share.num share.den }
    ensures { result ≡ int_div_euclid (share.num *ℤ PARTS) share.den }
{
    quotient(share) as i64
}

// One part more, but no more than all.
fn next_part(down: i64) -> i64
    requires { down ≤ℤ PARTS }
    ensures from { down ≤ℤ result }
    ensures most { result ≤ℤ PARTS }
    ensures next { (result ≡ down +ℤ pos 1) ⊎ (result ≡ PARTS) }
{
    if down < PARTS { down + 1 } else { PARTS }
}

// The share in parts, rounded down, in the wide type that the product takes.
fn quotient(share: Frac) -> i128
    ensures { result ≡ int_div_euclid (share.num *ℤ PARTS) share.den }
{
    (share.num * i128::from(PARTS)).div_euclid(share.den)
}

/// A number that is no greater than the one at a share of the way from one number to another, and less by two at most.
pub(crate) fn low_at(from: i64, to: i64, share: Share) -> i64
    requires { IsShort (to -ℤ from) }
    ensures { (of : Frac) → IsShareOf share of → IsUpToPlace from to of result }
{
    from + down(to - from, share)
}

/// A number that is no less, and greater by two at most.
pub(crate) fn high_at(from: i64, to: i64, share: Share) -> i64
    requires { IsShort (to -ℤ from) }
    ensures { (of : Frac) → IsShareOf share of → IsFromPlace from to of result }
{
    from - down(from - to, share)
}

// A number that is no greater than a share of a way, but not beyond the way.
fn down(way: i64, share: Share) -> i64
    requires short { IsShort way }
    ensures below { (of : Frac) → IsShareOf share of → (result *ℤ of.den) ≤ℤ (of.num *ℤ way) }
    ensures low { (m : ℤ) → m ≤ℤ pos 0 → m ≤ℤ way → m ≤ℤ result }
    ensures high { (m : ℤ) → pos 0 ≤ℤ m → way ≤ℤ m → result ≤ℤ m }
{
    if way < 0 {
        part_of(way, share.up)
    } else {
        part_of(way, share.down)
    }
}

// This many parts of a way, rounded down.
fn part_of(way: i64, count: i64) -> i64
    requires short { IsShort way }
    requires some { pos 0 ≤ℤ count }
    requires most { count ≤ℤ PARTS }
    ensures { result ≡ int_div_euclid (count *ℤ way) PARTS }
{
    (count * way).div_euclid(PARTS)
}
