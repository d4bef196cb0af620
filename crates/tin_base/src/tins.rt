//! A triangulation: corners with a place in each frame, and triangles over them.

ghost use Rattle.std.specs.Prelude.{◌≡◌, ◌<◌, length, map};
ghost use Rattle.plane_base.specs.Plane.{whole, turn_of, corners_of, IsNearAll};
ghost use Rattle.tin_base.specs.Triangulation.{triangulation, place, places, corner_at, numbers_of};
ghost use Rattle.tin_base.specs.Soundness.{turn_in};
ghost use Rattle.tin_base.specs.Limits.{IsWithinLimits};
ghost use Rattle.tin_base.specs.ExchangedFrames.{exchanged_corner, turned_of};

use crate::{Corner, Frame};
use plane_base::{Pt, Tri};
use std::marker::Model;

/// A triangulation: corners with a place in each frame, and triangles by the numbers of their corners.
#[derive(Debug, Drop)]
pub struct Tin {
    corners: Vec<Corner>,
    triangles: Vec<[u32; 3]>,
    inexact: u64,
}

impl Model for Tin {
    ghost use Rattle.tin_base.specs.Triangulation.{Triangulation};

    ghost Value = { Triangulation };

    ghost use Rattle.tin_base.specs.TinFields.{view_of, HasInvariant};

    ghost view = { view_of };

    ghost invariant = { HasInvariant };
}

impl Tin {
    /// A triangulation of these corners and triangles. It takes no memory.
    pub fn of(corners: Vec<Corner>, triangles: Vec<[u32; 3]>, inexact: u64) -> Self
        requires { IsWithinLimits (triangulation corners.items triangles.items inexact) }
        ensures { result ≡ triangulation corners.items triangles.items inexact }
    {
        Tin {
            corners,
            triangles,
            inexact,
        }
    }

    /// The corners, in order of their numbers.
    pub fn corners(&self) -> &[Corner]
        ensures corners { result.now ≡ self.now.corners }
        ensures limits { IsWithinLimits self.now }
    {
        &self.corners
    }

    /// The numbers of each triangle's corners, in order of the triangles' numbers.
    pub fn triangles(&self) -> &[[u32; 3]]
        ensures triangles { result.now ≡ self.now.triangles }
        ensures limits { IsWithinLimits self.now }
    {
        &self.triangles
    }

    /// How many triangles it has.
    pub fn triangle_count(&self) -> u32
        ensures { result ≡ length self.now.triangles }
    {
        self.triangles().len() as u32
    }

    /// How many of the numbers that it was read from lost digits.
    pub fn inexact(&self) -> u64
        ensures { result ≡ self.now.inexact }
    {
        self.inexact
    }

    /// Where a corner is in a frame.
    pub fn place(&self, number: u32, frame: Frame) -> Pt
        requires { number < length self.now.corners }
        ensures place { whole result ≡ place frame (corner_at self.now number) }
        ensures limits { IsWithinLimits self.now }
    {
        self.corners[number as usize].at(frame)
    }

    /// Where a triangle is in a frame.
    pub fn tri(&self, triangle: u32, frame: Frame) -> Tri
        requires { triangle < length self.now.triangles }
        ensures corners { corners_of result ≡ places self.now frame (numbers_of self.now triangle) }
        ensures near { IsNearAll result.a result.b result.c }
        ensures turn { turn_of (whole result.a) (whole result.b) (whole result.c) ≡ turn_in self.now frame triangle }
        ensures limits { IsWithinLimits self.now }
    {
        let numbers = &self.triangles[triangle as usize];
        Tri {
            a: self.corners[numbers[0] as usize].at(frame),
            b: self.corners[numbers[1] as usize].at(frame),
            c: self.corners[numbers[2] as usize].at(frame),
        }
    }

    /// The triangulation with its frames exchanged.
    pub fn turned(self) -> Self
        ensures { result ≡ turned_of self }
    {
        let Tin {
            mut corners,
            triangles,
            inexact,
        } = self;
        exchange_all(&mut corners);
        Tin {
            corners,
            triangles,
            inexact,
        }
    }
}

/// Exchanges the frames of each corner.
fn exchange_all(corners: &mut [Corner])
    ensures { corners.new ≡ map exchanged_corner corners.old }
{
    for corner in corners.iter_mut() {
        *corner = corner.with_frames_exchanged();
    }
}
