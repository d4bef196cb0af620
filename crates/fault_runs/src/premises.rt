//! What the law of the text asks of faults: their numbers fit their fields.

ghost use Rattle.std.specs.Prelude.{◌<◌, ◌^◌, length, Option, None, Some, unsigned_abs};
ghost use Rattle.std.specs.List.{AllByRecursion};
ghost use Rattle.fault_runs.specs.Laws.{IsTriangleHeld, IsOtherHeld, IsFaultHeld, IsFaultsJson};

use crate::laws::faults_are_json;
use crate::spots::{FaultSpot, TriangleSpot};

// The numbers of a triangle fit their fields.
fn triangle_fits(spot: TriangleSpot)
    ensures { IsTriangleHeld spot }
{
    let _ = spot;
}

// Those of the other triangle of a pair do.
fn other_fits(spot: Option<TriangleSpot>)
    ensures { IsOtherHeld spot }
{
    match spot {
        Some(spot) => triangle_fits(spot),
        None => {}
    }
}

// The numbers of a fault do.
fn fault_fits(fault: FaultSpot)
    ensures { IsFaultHeld fault }
{
    triangle_fits(fault.first);
    other_fits(fault.second)
}

// The numbers of faults do.
fn faults_fit(faults: &[FaultSpot])
    ensures { AllByRecursion IsFaultHeld faults.now }
{
    for fault in faults {
        fault_fits(*fault);
    }
}

/// The text of these faults is JSON (RFC 8259).
pub(crate) fn text_is_json(lines: bool, faults: &[FaultSpot])
    ensures { IsFaultsJson lines faults.now }
{
    let _ = lines;
    faults_fit(faults);
    faults_are_json()
}
