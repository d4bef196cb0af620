//! An end of a segment with the square of its distance from another segment.
ghost use Rattle.std.specs.Prelude.{◌<◌, ◌^◌};

use plane_base::Pt;

/// An end of a segment, and the square of its distance from the other one, as a fraction, in square millimetres.
#[derive(Clone, Copy)]
pub(crate) struct EndSquare {
    pub end: Pt,
    pub num: u128,
    pub den: u128,
    ghost some: { 0 < den },
    ghost small: { den < 2 ^ 64 },
}
