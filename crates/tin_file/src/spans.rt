//! Spans of the corners in both frames.

ghost use Rattle.std.specs.Prelude.{◌≡◌};
ghost use Rattle.tin_file.specs.Corners.{is_wide, spans};
ghost use Rattle.tin_file.specs.RowContents.{AreInReach, coordinate_of};

use crate::faults::TinFault;
use plane_base::SPAN;
use tin_base::{Axis, Corner, Frame};

/// A corner's number on an axis of a frame, in millimetres.
fn coordinate(corner: Corner, frame: Frame, axis: Axis) -> i64
    ensures { result ≡ coordinate_of frame axis corner }
{
    match frame {
        Frame::Source => match axis {
            Axis::X => corner.sx,
            Axis::Y => corner.sy,
        },
        Frame::Target => match axis {
            Axis::X => corner.tx,
            Axis::Y => corner.ty,
        },
    }
}

/// Whether two corners are `SPAN` or more apart on this axis.
fn is_too_wide(corners: &[Corner], frame: Frame, axis: Axis) -> bool
    requires { AreInReach corners.now }
    ensures { result ≡ is_wide (coordinate_of frame axis) corners.now }
{
    if corners.is_empty() {
        return false;
    }
    let mut least = coordinate(corners[0], frame, axis);
    let mut greatest = least;
    for corner in corners {
        let here = coordinate(*corner, frame, axis);
        least = least.min(here);
        greatest = greatest.max(here);
    }
    greatest - least >= SPAN
}

/// The first axis on which two corners are too far apart.
pub fn check_spans(corners: &[Corner]) -> Result<(), TinFault>
    requires { AreInReach corners.now }
    ensures { result ≡ spans corners.now }
{
    if is_too_wide(corners, Frame::Source, Axis::X) {
        return Err(TinFault::Span {
            frame: Frame::Source,
            axis: Axis::X,
        });
    }
    if is_too_wide(corners, Frame::Source, Axis::Y) {
        return Err(TinFault::Span {
            frame: Frame::Source,
            axis: Axis::Y,
        });
    }
    if is_too_wide(corners, Frame::Target, Axis::X) {
        return Err(TinFault::Span {
            frame: Frame::Target,
            axis: Axis::X,
        });
    }
    if is_too_wide(corners, Frame::Target, Axis::Y) {
        return Err(TinFault::Span {
            frame: Frame::Target,
            axis: Axis::Y,
        });
    }
    Ok(())
}
