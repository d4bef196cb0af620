//! Fractions of whole numbers below `TURN` in magnitude: their order, the greater and the lesser of two, and rounding
//! half up. Fractions are compared by value, and no product passes 128 bits.
#![tactic(auto)]

mod extremes;
mod frac;
mod laws;
mod ordering;
mod rounding;

pub use extremes::{earlier, later};
pub use frac::{Frac, TURN};
pub use laws::{
    compared_products_are_small, half_up_is_nearest, half_up_is_within_half, limits_are_stated,
    values_are_in_total_order,
};
pub use ordering::{is_below, order};
pub use rounding::half_up;
