//! A share of a way in whole parts.
ghost use Rattle.std.specs.Prelude.{pos, ◌≤ℤ◌};
ghost use Rattle.topo_check.specs.declared.parts.TheConstants.{PARTS};

/// Into how many parts a way is cut. A part of a way between two corners is no more than a millimetre.
pub(crate) const PARTS: i64 = 1 << 31;

/// A share of a way in whole parts, rounded down and up: so the way itself is multiplied and not divided.
#[derive(Clone, Copy)]
pub(crate) struct Share {
    pub(crate) down: i64,
    pub(crate) up: i64,
    ghost some: { pos 0 ≤ℤ down },
    ghost order: { down ≤ℤ up },
    ghost most: { up ≤ℤ PARTS },
}
