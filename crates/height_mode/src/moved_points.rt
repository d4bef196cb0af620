//! The text of a list of points, moved.

ghost use Rattle.std.specs.Prelude.{◌≡◌, ◌≤◌, length, IfOk, IfErr};
ghost use Rattle.runs.specs.declared.loads.TheConstants.{MOST_BYTES};
ghost use Rattle.tin_height.specs.Offsets.{AreOffsets};
ghost use Rattle.tin_height.specs.Points.{ArePointsOf, reading};
ghost use Rattle.tin_height.specs.Raises.{AreRaised};
ghost use Rattle.height_mode.specs.Talls.{tall_of};
ghost use Rattle.height_mode.specs.Heights.{IsMoved, IsUnmoved};
ghost use Rattle.height_mode.specs.InsideMoves.{refusal_of_reading, refusal_of_raising};

use crate::tall_tins::TallIndex;
use runs::Refusal;
use sheet_base::{How, LayerFault, Listed};
use std::alloc::Global;
use tin_height::{RaiseFault, raise, read_points, render_points};

/// A list of points, moved: its text, and how many points and inexact numbers were read.
#[derive(Drop)]
pub struct MovedPoints {
    pub text: Listed<u8>,
    pub count: usize,
    pub inexact: u64,
}

/// The refusal of a list of points, which is layer 0.
fn unread(fault: LayerFault) -> Refusal
    ensures { result ≡ refusal_of_reading fault }
{
    match fault {
        LayerFault::NoMemory => Refusal::NoMemory,
        _ => Refusal::Layer { layer: 0, fault },
    }
}

/// The refusal of points that are not raised: a point is a path of one segment.
fn refuse_points(fault: RaiseFault) -> Refusal
    ensures { result ≡ refusal_of_raising fault }
{
    match fault {
        RaiseFault::Outside { point } => Refusal::Outside {
            layer: 0,
            path: point,
            segment: 0,
        },
        RaiseFault::NoMemory => Refusal::NoMemory,
    }
}

/// The list of points of these bytes, moved. The error is its first token that does not fit, or its first point that is
/// in no triangle.
pub fn move_points(
    alloc: Global,
    tall: &TallIndex,
    bytes: &[u8],
    how: How,
) -> Result<MovedPoints, Refusal>
    requires offsets { AreOffsets tall.now.index tall.now.offsets }
    requires small { length bytes.now ≤ MOST_BYTES }
    ensures ok { IfOk result (λ moved. IsMoved how (tall_of tall.now) bytes.now moved.text moved.count moved.inexact) }
    ensures refused { IfErr result (λ refusal. IsUnmoved how (tall_of tall.now) bytes.now refusal) }
{
    let points = match read_points(alloc, bytes, how) {
        Ok(points) => points,
        Err(fault) => return Err(unread(fault)),
    };
    let raised = match raise(alloc, &tall.index, tall.offsets.items(), &points) {
        Ok(raised) => raised,
        Err(fault) => return Err(refuse_points(fault)),
    };
    let text = render_points(alloc, bytes, &points, &raised)?;
    Ok(MovedPoints {
        text: Listed::of(text),
        count: points.rows.items().len(),
        inexact: points.inexact,
    })
}
