//! Whether two triangles fit together in a frame where neither is flat.

ghost use Rattle.std.specs.Prelude.{◌≡◌, ◌≢◌, ◌↔◌, ◌<◌, length, pos, IsTrue, map};
ghost use Rattle.tin_base.specs.Limits.{IsWithinLimits};
ghost use Rattle.tin_base.specs.Soundness.{has, turn_in, DoFit};
ghost use Rattle.tin_faults.specs.Faults.{IsFaultOf};
ghost use Rattle.tin_faults.specs.InsidePairs.{IsLeftTurned};
ghost use Rattle.tin_faults.specs.declared.faults.Fault.TheVariants.{Overlap};

use crate::turns::{is_flat, turns_left};
use plane_base::Tri;
use tin_base::{Frame, Tin};
use tin_check::{Common, fits};

/// A triangle that turns to the left: its corners and their numbers, from the first corner on.
#[derive(Clone, Copy)]
struct LeftTurned {
    corners: Tri,
    numbers: [u32; 3],
}

/// The triangle in a frame in which it is not flat, with the last two corners exchanged where it turns over.
fn left_turned(tin: &Tin, triangle: u32, frame: Frame) -> LeftTurned
    requires in_range { triangle < length tin.now.triangles }
    requires not_flat { turn_in tin.now frame triangle ≢ pos 0 }
    ensures turned { IsLeftTurned tin.now frame triangle result.corners result.numbers }
    ensures limits { IsWithinLimits tin.now }
{
    let corners = tin.tri(triangle, frame);
    let numbers = tin.triangles()[triangle as usize];
    if turns_left(tin, triangle, frame) {
        return LeftTurned { corners, numbers };
    }
    LeftTurned {
        corners: Tri {
            a: corners.a,
            b: corners.c,
            c: corners.b,
        },
        numbers: [numbers[0], numbers[2], numbers[1]],
    }
}

/// Whether the number is one of three.
fn is_among(numbers: &[u32; 3], number: u32) -> bool
    ensures { result ≡ has numbers.now number }
{
    numbers[0] == number || numbers[1] == number || numbers[2] == number
}

/// Which of the first numbers are among the second.
fn marks(first: &[u32; 3], second: &[u32; 3]) -> [bool; 3]
    ensures { result ≡ map (has second.now) first.now }
{
    [
        is_among(second, first[0]),
        is_among(second, first[1]),
        is_among(second, first[2]),
    ]
}

/// Whether two triangles, neither of them flat, fit together in the frame.
fn do_fit(tin: &Tin, first: u32, second: u32, frame: Frame) -> bool
    requires first { first < length tin.now.triangles }
    requires second { second < length tin.now.triangles }
    requires first_not_flat { turn_in tin.now frame first ≢ pos 0 }
    requires second_not_flat { turn_in tin.now frame second ≢ pos 0 }
    ensures { IsTrue result ↔ DoFit tin.now frame first second }
{
    let t = left_turned(tin, first, frame);
    let u = left_turned(tin, second, frame);
    let common = Common {
        of_t: marks(&t.numbers, &u.numbers),
        of_u: marks(&u.numbers, &t.numbers),
    };
    fits(&t.corners, &u.corners, common)
}

/// Whether the first triangle has the lower number, neither is flat, and they do not fit together in the frame.
pub(crate) fn do_overlap(tin: &Tin, first: u32, second: u32, frame: Frame) -> bool
    requires first { first < length tin.now.triangles }
    requires second { second < length tin.now.triangles }
    ensures { IsTrue result ↔ IsFaultOf tin.now (Overlap frame first second) }
{
    if second <= first {
        return false;
    }
    if is_flat(tin, first, frame) {
        return false;
    }
    if is_flat(tin, second, frame) {
        return false;
    }
    !do_fit(tin, first, second, frame)
}
