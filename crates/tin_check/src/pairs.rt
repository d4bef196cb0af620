//! Whether two triangles of a triangulation fit together, by the numbers of their corners first.

ghost use Rattle.std.specs.Prelude.{◌≡◌, ◌↔◌, ◌<◌, pos, ◌<ℤ◌, IsTrue, IfSome, [], ◌∷◌, map, length};
ghost use Rattle.plane_base.specs.Plane.{corners_of};
ghost use Rattle.tin_base.specs.Triangulation.{numbers_of, places};
ghost use Rattle.tin_base.specs.Limits.{IsWithinLimits};
ghost use Rattle.tin_base.specs.Soundness.{turn_in, has, DoFit};
ghost use Rattle.tin_check.specs.CommonPoints.{MeetOnlyIn};
ghost use Rattle.tin_check.specs.InsideNumbers.{AreCounted, AreFrom, AreUnmarked, IsMarkedCorner, IsMarkedSide};

use crate::separations::are_parted;
use crate::triangle_fits::are_apart;
use crate::{Common, fits};
use plane_base::Tri;
use tin_base::{Frame, Tin};

/// Two triangles by their numbers, the lower one first.
#[derive(Clone, Copy)]
pub(crate) struct TrianglePair {
    pub(crate) first: u32,
    pub(crate) second: u32,
}

/// Whether the number is one of three.
pub(crate) fn is_among(numbers: &[u32; 3], number: u32) -> bool
    ensures { result ≡ has numbers.now number }
{
    numbers[0] == number || numbers[1] == number || numbers[2] == number
}

/// Which of the first numbers are among the second.
fn marks(first: &[u32; 3], second: &[u32; 3]) -> [bool; 3]
    ensures { result ≡ map (has second.now) first.now }
{
    [
        is_among(second, first[0]),
        is_among(second, first[1]),
        is_among(second, first[2]),
    ]
}

/// Whether no corner is marked.
fn are_unmarked(marks: [bool; 3]) -> bool
    ensures { IsTrue result → AreUnmarked marks }
{
    match marks {
        [false, false, false] => true,
        _ => false,
    }
}

/// A side of a triangle, in its direction, by the numbers of its corners.
#[derive(Clone, Copy)]
struct NumberedSide {
    from: u32,
    to: u32,
}

/// The side between the marked corners, where two are marked.
fn marked_side(numbers: &[u32; 3], marks: [bool; 3]) -> Option<NumberedSide>
    ensures { IfSome result (λ side. IsMarkedSide marks numbers.now side.from side.to) }
{
    match marks {
        [true, true, false] => Some(NumberedSide {
            from: numbers[0],
            to: numbers[1],
        }),
        [false, true, true] => Some(NumberedSide {
            from: numbers[1],
            to: numbers[2],
        }),
        [true, false, true] => Some(NumberedSide {
            from: numbers[2],
            to: numbers[0],
        }),
        _ => None,
    }
}

/// The corners of a triangle, counted from one of them on, by their numbers.
#[derive(Clone, Copy)]
pub(crate) struct Corners {
    pub(crate) first: u32,
    pub(crate) second: u32,
    pub(crate) third: u32,
}

/// The corners from the marked one on, where one is marked.
fn marked_corner(numbers: &[u32; 3], marks: [bool; 3]) -> Option<Corners>
    ensures { IfSome result (λ found. IsMarkedCorner marks numbers.now found.first found.second found.third) }
{
    match marks {
        [true, false, false] => Some(Corners {
            first: numbers[0],
            second: numbers[1],
            third: numbers[2],
        }),
        [false, true, false] => Some(Corners {
            first: numbers[1],
            second: numbers[2],
            third: numbers[0],
        }),
        [false, false, true] => Some(Corners {
            first: numbers[2],
            second: numbers[0],
            third: numbers[1],
        }),
        _ => None,
    }
}

/// The corners from this number on, where it is one of the three.
pub(crate) fn corners_from(numbers: &[u32; 3], number: u32) -> Option<Corners>
    ensures { IfSome result (λ found. AreFrom numbers.now number found.first found.second found.third) }
{
    if numbers[0] == number {
        return Some(Corners {
            first: numbers[0],
            second: numbers[1],
            third: numbers[2],
        });
    }
    if numbers[1] == number {
        return Some(Corners {
            first: numbers[1],
            second: numbers[2],
            third: numbers[0],
        });
    }
    if numbers[2] == number {
        return Some(Corners {
            first: numbers[2],
            second: numbers[0],
            third: numbers[1],
        });
    }
    None
}

/// Where the corners are in a frame.
pub(crate) fn tri_at(tin: &Tin, corners: Corners, frame: Frame) -> Tri
    requires first { corners.first < length tin.now.corners }
    requires second { corners.second < length tin.now.corners }
    requires third { corners.third < length tin.now.corners }
    ensures { corners_of result ≡ places tin.now frame (corners.first ∷ corners.second ∷ corners.third ∷ []) }
{
    Tri {
        a: tin.place(corners.first, frame),
        b: tin.place(corners.second, frame),
        c: tin.place(corners.third, frame),
    }
}

/// Whether turns at the first corner, which two triangles have in common, show that they meet nowhere else. `false`
/// shows nothing.
fn part_at(tin: &Tin, t: u32, u: u32, frame: Frame, corners: Corners, others: Corners) -> bool
    requires t_in_range { t < length tin.now.triangles }
    requires u_in_range { u < length tin.now.triangles }
    requires t_positive { pos 0 <ℤ turn_in tin.now frame t }
    requires u_positive { pos 0 <ℤ turn_in tin.now frame u }
    requires t_counted { AreCounted (numbers_of tin.now t) corners.first corners.second corners.third }
    requires u_counted { AreCounted (numbers_of tin.now u) others.first others.second others.third }
    requires same { corners.first ≡ others.first }
    requires limits { IsWithinLimits tin.now }
    ensures { IsTrue result → MeetOnlyIn
        (places tin.now frame (corners.first ∷ corners.second ∷ corners.third ∷ []))
        (places tin.now frame (others.first ∷ others.second ∷ others.third ∷ [])) (places tin.now frame (corners.first ∷ [])) }
{
    are_parted(&tri_at(tin, corners, frame), &tri_at(tin, others, frame))
}

/// Whether two triangles meet, in a frame, in their common corners and in what those span, and nowhere else.
#[inline(always)]
pub(crate) fn pair_fits(tin: &Tin, t: u32, u: u32, frame: Frame) -> bool
    requires t_in_range { t < length tin.now.triangles }
    requires u_in_range { u < length tin.now.triangles }
    requires t_positive { pos 0 <ℤ turn_in tin.now frame t }
    requires u_positive { pos 0 <ℤ turn_in tin.now frame u }
    ensures { IsTrue result ↔ DoFit tin.now frame t u }
{
    match frame {
        Frame::Source => fit_in(tin, t, u, Frame::Source),
        Frame::Target => fit_in(tin, t, u, Frame::Target),
    }
}

/// Whether two triangles meet so. It is compiled once for each frame, so that no corner asks which frame it is.
#[inline(always)]
fn fit_in(tin: &Tin, t: u32, u: u32, frame: Frame) -> bool
    requires t_in_range { t < length tin.now.triangles }
    requires u_in_range { u < length tin.now.triangles }
    requires t_positive { pos 0 <ℤ turn_in tin.now frame t }
    requires u_positive { pos 0 <ℤ turn_in tin.now frame u }
    ensures { IsTrue result ↔ DoFit tin.now frame t u }
{
    let triangles = tin.triangles();
    let first = &triangles[t as usize];
    let second = &triangles[u as usize];
    let of_t = marks(first, second);
    if let Some(corners) = marked_corner(first, of_t) {
        if let Some(others) = corners_from(second, corners.first) {
            if part_at(tin, t, u, frame, corners, others) {
                return true;
            }
        }
    }
    if are_unmarked(of_t) {
        return are_apart(&tin.tri(t, frame), &tin.tri(u, frame));
    }
    if let Some(side) = marked_side(first, of_t) {
        if let Some(others) = corners_from(second, side.to) {
            return others.second == side.from;
        }
    }
    let common = Common {
        of_t,
        of_u: marks(second, first),
    };
    fits(&tin.tri(t, frame), &tin.tri(u, frame), common)
}
