//! The bytes of a list of points with other numbers.

ghost use Rattle.std.specs.Prelude.{◌≡◌, ◌++◌, length, IfOk, OnOk};
ghost use Rattle.tin_height.specs.PointTexts.{point_text, raised_text, text_with_heights, ArePlaced};

use crate::points::Points;
use crate::raises::Raised;
use plane_base::Pt;
use sheet_base::push_mm;
use std::alloc::{AllocError, Global};

/// No point is longer, in bytes, than this.
const POINT_ROOM: usize = 64;

/// Appends two numbers with a space between them.
fn push_point(out: &mut Vec<u8>, point: Pt) -> Result<(), AllocError>
    ensures { OnOk result (out.new.items ≡ out.old.items ++ point_text point) }
{
    push_mm(out, point.x)?;
    out.push(b' ')?;
    push_mm(out, point.y)?;
    Ok(())
}

/// Appends a point and its height, with a space between two numbers.
fn push_raised(out: &mut Vec<u8>, raised: Raised) -> Result<(), AllocError>
    ensures { OnOk result (out.new.items ≡ out.old.items ++ raised_text raised) }
{
    push_point(out, raised.p)?;
    out.push(b' ')?;
    push_mm(out, raised.z)?;
    Ok(())
}

/// How many bytes to reserve. Another number costs time and nothing else.
fn room_for(bytes: &[u8], points: usize) -> usize {
    points
        .saturating_mul(POINT_ROOM)
        .saturating_add(bytes.len())
        / 2
}

/// The bytes with the numbers of each point replaced by those that were raised; all bytes between them are kept.
pub fn render_points(
    alloc: Global,
    bytes: &[u8],
    points: &Points,
    out: &[Raised],
) -> Result<Vec<u8>, AllocError>
    requires placed { ArePlaced 0 (length bytes.now) points.now.rows }
    requires each { length out.now ≡ length points.now.rows }
    ensures { IfOk result (λ text. text.items ≡ text_with_heights bytes.now 0 points.now.rows out.now) }
{
    let rows = points.rows.items();
    let mut text = Vec::with_capacity(alloc, room_for(bytes, rows.len()))?;
    let mut from = 0;
    for (number, row) in rows.iter().enumerate() {
        text.extend_from_slice(&bytes[from..row.start as usize])?;
        push_raised(&mut text, out[number])?;
        from = row.end as usize;
    }
    text.extend_from_slice(&bytes[from..])?;
    Ok(text)
}
