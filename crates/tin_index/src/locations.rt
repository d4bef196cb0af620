//! The least source triangle that has a point.

ghost use Rattle.std.specs.Prelude.{◌↔◌, ℕ, ◌<◌, ◌≤◌, length, All, Contains, IsTrue, IfSome, IfNone};
ghost use Rattle.std.specs.List.Sorted.{IsStrictlyIncreasing};
ghost use Rattle.plane_base.specs.Plane.{whole};
ghost use Rattle.tin_base.specs.declared.frames.Frame.TheVariants.{Source};
ghost use Rattle.tin_base.specs.Triangulation.{IsInTriangle};
ghost use Rattle.tin_base.specs.Images.{IsInSome};
ghost use Rattle.tin_index.specs.Boxes.{AreBoxesOf};
ghost use Rattle.tin_index.specs.InsideLocations.{IsOneOf, IsOnlyIn};

use crate::boxes::{has_inside, has_point};
use cell_grid::Grid;
use plane_base::Pt;
use tin_base::{Frame, SoundTin};

/// The least source triangle that has the point, by a grid of the triangles' boxes.
pub fn locate_in(tin: &SoundTin, grid: &Grid, p: Pt) -> Option<u32>
    requires { AreBoxesOf tin.now (length tin.now.triangles) grid.now.boxes }
    ensures found { IfSome result (λ triangle. (triangle < length tin.now.triangles) × IsInTriangle tin.now Source triangle (whole p)) }
    ensures least { IfSome result (λ triangle. (other : ℕ) → other < triangle → IsInTriangle tin.now Source other (whole p) → ⊥) }
    ensures outside { IfNone result (IsInSome tin.now Source (whole p) → ⊥) }
{
    let count = tin.triangle_count();
    let mut least = count;
    for level in 0..grid.levels() {
        least = least_of(tin, grid.cell(level, p), p, least);
    }
    if least == count {
        return None;
    }
    Some(least)
}

// The least of the triangle that was found before and of those of these numbers that have the point.
fn least_of(tin: &SoundTin, numbers: &[u32], p: Pt, found: u32) -> u32
    requires ascending { IsStrictlyIncreasing numbers.now }
    requires in_range { All (λ number. number < length tin.now.triangles) numbers.now }
    ensures to_found { result ≤ found }
    ensures one { IsOneOf tin.now p found result }
    ensures least { (number : ℕ) → Contains numbers.now number → IsInTriangle tin.now Source number (whole p) → result ≤ number }
{
    for place in 0..numbers.len() {
        let number = numbers[place];
        if number >= found {
            return found;
        }
        if is_in(tin, number, p) {
            return number;
        }
    }
    found
}

// Whether the source triangle contains the point.
fn is_in(tin: &SoundTin, triangle: u32, p: Pt) -> bool
    requires { triangle < length tin.now.triangles }
    ensures { IsTrue result ↔ IsInTriangle tin.now Source triangle (whole p) }
{
    has_point(&tin.tri(triangle, Frame::Source), p)
}

/// Whether the point is inside the source triangle of this number, if there is one, and so in no other.
pub fn is_inside(tin: &SoundTin, triangle: u32, p: Pt) -> bool
    ensures { IsTrue result → IsOnlyIn tin.now triangle p }
{
    tin.show_soundness();
    if triangle >= tin.triangle_count() {
        return false;
    }
    has_inside(&tin.tri(triangle, Frame::Source), p)
}
