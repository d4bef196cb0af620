//! Points with heights through a triangulation.

ghost use Rattle.std.specs.Prelude.{ℕ, ◌≡◌, ◌<◌, ◌≤◌, ◌*◌, ◌^◌, length, unsigned_abs, IfOk, IsErrOf, All};
ghost use Rattle.mm_decimal.specs.declared.limits.TheConstants.{LIMIT};
ghost use Rattle.plane_base.specs.Plane.{whole};
ghost use Rattle.tin_base.specs.declared.frames.Frame.TheVariants.{Source};
ghost use Rattle.tin_base.specs.Triangulation.{IsInTriangle};
ghost use Rattle.tin_height.specs.Offsets.{AreOffsets};
ghost use Rattle.tin_height.specs.Raises.{IsRaised, AreRaised, IsFirstOutside};

use crate::offsets::offset_of;
use crate::points::{PointRow, Points};
use affine_image::image_of;
use plane_base::Pt;
use std::alloc::{AllocError, AllocFailed, Global};
use thiserror::Error;
use tin_index::TinIndex;

/// The image of a point, and its height there, in millimetres.
#[derive(Clone, Copy, Debug, PartialEq, Eq)]
pub struct Raised {
    pub p: Pt,
    pub z: i64,
}

/// Why points are not raised. Points are counted from 0.
#[derive(Clone, Copy, Debug, PartialEq, Eq, Error)]
pub enum RaiseFault {
    /// The point is in no triangle.
    #[error("point {point} is in no triangle")]
    Outside { point: u32 },
    /// Memory ran out.
    #[error("out of memory")]
    NoMemory,
}

impl From<AllocError> for RaiseFault {
    ghost use Rattle.std.specs.Prelude.{◌≡◌};
    ghost use Rattle.tin_height.specs.declared.raises.RaiseFault.TheVariants.{NoMemory};

    ghost from_gives = { λ _ fault. fault ≡ NoMemory };

    fn from(_: AllocError) -> Self {
        RaiseFault::NoMemory
    }
}

impl<T: Drop> From<AllocFailed<T>> for RaiseFault {
    ghost use Rattle.std.specs.Prelude.{◌≡◌};
    ghost use Rattle.tin_height.specs.declared.raises.RaiseFault.TheVariants.{NoMemory};

    ghost from_gives = { λ _ fault. fault ≡ NoMemory };

    fn from(_: AllocFailed<T>) -> Self {
        RaiseFault::NoMemory
    }
}

/// A point of this triangle, with its height, at its image.
fn raise_in(index: &TinIndex, offsets: &[i64], triangle: u32, row: PointRow) -> Raised
    requires offsets { AreOffsets index.now offsets.now }
    requires in_range { triangle < length index.now.triangles }
    requires inside { IsInTriangle index.now Source triangle (whole row.p) }
    requires height { unsigned_abs row.z ≤ LIMIT }
    ensures { IsRaised index.now offsets.now row result }
{
    Raised {
        p: image_of(index.tin(), triangle, row.p),
        z: row.z + offset_of(index.tin(), offsets, triangle, row.p),
    }
}

/// The points at their images, each with its height raised by the offset at it. The error is the first point that is in
/// no triangle.
pub fn raise(
    alloc: Global,
    index: &TinIndex,
    offsets: &[i64],
    points: &Points,
) -> Result<Vec<Raised>, RaiseFault>
    requires offsets { AreOffsets index.now offsets.now }
    requires heights { All (λ row. unsigned_abs row.z ≤ LIMIT) points.now.rows }
    requires few { length points.now.rows < 2 ^ 32 }
    ensures raised { IfOk result (λ raised. AreRaised index.now offsets.now points.now.rows raised.items) }
    ensures each { IfOk result (λ raised. length raised.items ≡ length points.now.rows) }
    ensures outside { (point : ℕ) → IsErrOf result (RaiseFault.Outside point) → IsFirstOutside index.now points.now.rows point }
{
    let rows = points.rows.items();
    let mut raised = Vec::with_capacity(alloc, rows.len())?;
    // where a point is, the next one is looked for first
    let mut guess = 0;
    for (point, row) in rows.iter().enumerate() {
        let Some(triangle) = index.locate_near(row.p, guess) else {
            return Err(RaiseFault::Outside {
                point: point as u32,
            });
        };
        raised.push(raise_in(index, offsets, triangle, *row))?;
        guess = triangle;
    }
    Ok(raised)
}
