//! A fault with the triangles that it is of, as they are printed.

ghost use Rattle.std.specs.Prelude.{◌≡◌, ◌<◌, length, map, IfOk};
ghost use Rattle.tin_faults.specs.Faults.{IsFaultOf, AreFaults};
ghost use Rattle.fault_runs.specs.Spots.{pt_in, triangle_spot, spot_of, least_place};

use plane_base::Pt;
use std::alloc::{AllocError, Global};
use tin_base::{Frame, Tin};
use tin_faults::Fault;

/// What is wrong.
#[derive(Clone, Copy, PartialEq, Eq, Debug)]
pub enum FaultKind {
    Flat,
    TurnsOver,
    Overlap,
}

/// A triangle as it is printed.
#[derive(Clone, Copy, PartialEq, Eq, Debug)]
pub struct TriangleSpot {
    /// Its number, from 0.
    pub triangle: u32,
    /// The numbers of its corners, from 0.
    pub a: u32,
    pub b: u32,
    pub c: u32,
    /// Where the corners are in the frame, in millimetres.
    pub at_a: Pt,
    pub at_b: Pt,
    pub at_c: Pt,
}

/// A fault as it is printed.
#[derive(Clone, Copy, PartialEq, Eq, Debug)]
pub struct FaultSpot {
    pub kind: FaultKind,
    pub frame: Frame,
    pub first: TriangleSpot,
    /// The other triangle of a pair.
    pub second: Option<TriangleSpot>,
}

// Where a corner is in a frame.
fn pt_in(tin: &Tin, frame: Frame, number: u32) -> Pt
    requires { number < length tin.now.corners }
    ensures { result ≡ pt_in tin.now frame number }
{
    tin.place(number, frame)
}

// A triangle as it is printed.
fn triangle_spot(tin: &Tin, frame: Frame, triangle: u32) -> TriangleSpot
    requires { triangle < length tin.now.triangles }
    ensures { result ≡ triangle_spot tin.now frame triangle }
{
    let numbers = &tin.triangles()[triangle as usize];
    TriangleSpot {
        triangle,
        a: numbers[0],
        b: numbers[1],
        c: numbers[2],
        at_a: pt_in(tin, frame, numbers[0]),
        at_b: pt_in(tin, frame, numbers[1]),
        at_c: pt_in(tin, frame, numbers[2]),
    }
}

/// A fault of the triangulation as it is printed.
pub fn spot_of(tin: &Tin, fault: Fault) -> FaultSpot
    requires { IsFaultOf tin.now fault }
    ensures { result ≡ spot_of tin.now fault }
{
    match fault {
        Fault::Flat { frame, triangle } => FaultSpot {
            kind: FaultKind::Flat,
            frame,
            first: triangle_spot(tin, frame, triangle),
            second: None,
        },
        Fault::TurnsOver { frame, triangle } => FaultSpot {
            kind: FaultKind::TurnsOver,
            frame,
            first: triangle_spot(tin, frame, triangle),
            second: None,
        },
        Fault::Overlap {
            frame,
            first,
            second,
        } => FaultSpot {
            kind: FaultKind::Overlap,
            frame,
            first: triangle_spot(tin, frame, first),
            second: Some(triangle_spot(tin, frame, second)),
        },
    }
}

/// Where the corner with the least number is, in millimetres.
pub(crate) fn least_place(spot: TriangleSpot) -> Pt
    ensures { result ≡ least_place spot }
{
    if spot.a <= spot.b && spot.a <= spot.c {
        return spot.at_a;
    }
    if spot.b <= spot.c {
        return spot.at_b;
    }
    spot.at_c
}

/// The faults of a triangulation as they are printed.
pub(crate) fn spots_of(
    alloc: Global,
    tin: &Tin,
    faults: &[Fault],
) -> Result<Vec<FaultSpot>, AllocError>
    requires { AreFaults tin.now faults.now }
    ensures { IfOk result (λ spots. spots.items ≡ map (spot_of tin.now) faults.now) }
{
    let mut spots = Vec::with_capacity(alloc, faults.len())?;
    for fault in faults {
        spots.push(spot_of(tin, *fault))?;
    }
    Ok(spots)
}
