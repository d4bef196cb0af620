//! Closed rings, as all formats ask for them.

ghost use Rattle.std.specs.Prelude.{◌≡◌};
ghost use Rattle.sheet_base.specs.Rings.{is_same_height, is_closed};

use plane_base::Pt;

/// Whether the heights of two points are one, to the millimetre, or neither has one.
pub fn are_same_heights(y: Option<i64>, z: Option<i64>) -> bool
    ensures { result ≡ is_same_height y z }
{
    match (y, z) {
        (None, None) => true,
        (Some(y), Some(z)) => y == z,
        _ => false,
    }
}

/// Whether a ring of these points, with its closing point, is closed: it has at least four points, whose last one is
/// the first again, to the millimetre.
pub fn is_closed(points: &[Pt]) -> bool
    ensures { result ≡ is_closed points.now }
{
    if points.len() < 4 {
        return false;
    }
    points[0] == points[points.len() - 1]
}
