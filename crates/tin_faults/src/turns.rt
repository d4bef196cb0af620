//! Which triangles are flat or turn over in a frame.

ghost use Rattle.std.specs.Prelude.{◌≡◌, ◌↔◌, ◌<◌, length, pos, ◌<ℤ◌, IsTrue};
ghost use Rattle.tin_base.specs.Soundness.{turn_in};
ghost use Rattle.tin_faults.specs.InsideProgress.{IsTurnFault};

use crate::Fault;
use plane_base::turn;
use tin_base::{Frame, Tin};

/// Twice the signed area of a triangle in a frame, in square millimetres.
pub(crate) fn turn_in(tin: &Tin, triangle: u32, frame: Frame) -> i128
    requires { triangle < length tin.now.triangles }
    ensures { result ≡ turn_in tin.now frame triangle }
{
    let corners = tin.tri(triangle, frame);
    turn(corners.a, corners.b, corners.c)
}

/// Whether the triangle is flat in the frame.
pub(crate) fn is_flat(tin: &Tin, triangle: u32, frame: Frame) -> bool
    requires { triangle < length tin.now.triangles }
    ensures { IsTrue result ↔ (turn_in tin.now frame triangle ≡ pos 0) }
{
    turn_in(tin, triangle, frame) == 0
}

/// Whether the triangle turns to the left in the frame.
pub(crate) fn turns_left(tin: &Tin, triangle: u32, frame: Frame) -> bool
    requires { triangle < length tin.now.triangles }
    ensures { IsTrue result ↔ (pos 0 <ℤ turn_in tin.now frame triangle) }
{
    turn_in(tin, triangle, frame) > 0
}

/// What is wrong with the triangle in the frame, if it is flat or turns over.
pub(crate) fn turn_fault(tin: &Tin, triangle: u32, frame: Frame) -> Option<Fault>
    requires { triangle < length tin.now.triangles }
    ensures { IsTurnFault tin.now frame triangle result }
{
    let turn = turn_in(tin, triangle, frame);
    if turn == 0 {
        return Some(Fault::Flat { frame, triangle });
    }
    if turn < 0 {
        return Some(Fault::TurnsOver { frame, triangle });
    }
    None
}
