//! Ranges of parameters, and the common part of two.

ghost use Rattle.std.specs.Prelude.{◌≡◌, ◌↔◌, ◌⊎◌, ℤ, pos, ◌<ℤ◌, ◌≤ℤ◌};
ghost use Rattle.plane_base.specs.Slices.{IsWithin};

use frac128::{Frac, earlier, later};

/// The values from `lo` to `hi`. There is none where `hi` is below `lo`.
#[derive(Clone, Copy)]
pub(crate) struct Range {
    pub(crate) lo: Frac,
    pub(crate) hi: Frac,
}

/// The parameter of a segment's first point.
pub(crate) fn at_start() -> Frac
    ensures { result.num ≡ pos 0 }
{
    Frac { num: 0, den: 1 }
}

/// The parameter of a segment's last point.
pub(crate) fn at_end() -> Frac
    ensures { result.num ≡ result.den }
{
    Frac { num: 1, den: 1 }
}

/// All parameters, from 0 to 1.
pub(crate) fn whole_way() -> Range
    ensures start { result.lo.num ≡ pos 0 }
    ensures end { result.hi.num ≡ result.hi.den }
    ensures within { (n d : ℤ) → pos 0 <ℤ d → (IsWithin result.lo result.hi n d ↔ ((pos 0 ≤ℤ n) × (n ≤ℤ d))) }
{
    Range {
        lo: at_start(),
        hi: at_end(),
    }
}

/// What two ranges have in common.
pub(crate) fn both(s: Range, t: Range) -> Range
    ensures lo { (result.lo ≡ s.lo) ⊎ (result.lo ≡ t.lo) }
    ensures hi { (result.hi ≡ s.hi) ⊎ (result.hi ≡ t.hi) }
    ensures within { (n d : ℤ) → pos 0 <ℤ d → (IsWithin result.lo result.hi n d ↔ (IsWithin s.lo s.hi n d × IsWithin t.lo t.hi n d)) }
{
    Range {
        lo: later(s.lo, t.lo),
        hi: earlier(s.hi, t.hi),
    }
}
