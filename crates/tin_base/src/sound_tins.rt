//! A triangulation that is sound, as a type that keeps this fact.

ghost use Rattle.std.specs.Prelude.{◌≡◌, ◌<◌, pos, ◌<ℤ◌, length};
ghost use Rattle.plane_base.specs.Plane.{whole, turn_of, corners_of, IsNearAll};
ghost use Rattle.tin_base.specs.Triangulation.{place, places, corner_at, numbers_of};
ghost use Rattle.tin_base.specs.Soundness.{turn_in, IsSound};
ghost use Rattle.tin_base.specs.Limits.{IsWithinLimits};
ghost use Rattle.tin_base.specs.ExchangedFrames.{turned_of};

use crate::{Corner, Frame, Tin};
use plane_base::{Pt, Tri};
use std::marker::Model;

/// A sound triangulation.
#[derive(Debug, Drop)]
pub struct SoundTin {
    tin: Tin,
}

impl Model for SoundTin {
    ghost use Rattle.tin_base.specs.Triangulation.{Triangulation};

    ghost Value = { Triangulation };

    ghost use Rattle.tin_base.specs.Soundness.{IsSound};

    ghost view = { λ sound. sound.tin };

    ghost invariant = { λ sound. IsSound sound.tin };
}

impl SoundTin {
    /// A triangulation that is known to be sound.
    pub fn of(tin: Tin) -> Self
        requires { IsSound tin }
        ensures { result ≡ tin }
    {
        SoundTin { tin }
    }

    /// Shows what the type keeps: the triangulation is within the limits, and sound.
    pub fn show_soundness(&self)
        ensures limits { IsWithinLimits self.now }
        ensures sound { IsSound self.now }
    {
        let _ = self.tin.triangles();
    }

    /// The corners, in order of their numbers.
    pub fn corners(&self) -> &[Corner]
        ensures corners { result.now ≡ self.now.corners }
        ensures limits { IsWithinLimits self.now }
        ensures sound { IsSound self.now }
    {
        self.tin.corners()
    }

    /// The numbers of each triangle's corners, in order of the triangles' numbers.
    pub fn triangles(&self) -> &[[u32; 3]]
        ensures triangles { result.now ≡ self.now.triangles }
        ensures limits { IsWithinLimits self.now }
        ensures sound { IsSound self.now }
    {
        self.tin.triangles()
    }

    /// How many triangles it has.
    pub fn triangle_count(&self) -> u32
        ensures { result ≡ length self.now.triangles }
    {
        self.tin.triangle_count()
    }

    /// How many of the numbers that it was read from lost digits.
    pub fn inexact(&self) -> u64
        ensures { result ≡ self.now.inexact }
    {
        self.tin.inexact()
    }

    /// Where a corner is in a frame.
    pub fn place(&self, number: u32, frame: Frame) -> Pt
        requires { number < length self.now.corners }
        ensures place { whole result ≡ place frame (corner_at self.now number) }
        ensures limits { IsWithinLimits self.now }
    {
        self.tin.place(number, frame)
    }

    /// Where a triangle is in a frame.
    pub fn tri(&self, triangle: u32, frame: Frame) -> Tri
        requires { triangle < length self.now.triangles }
        ensures corners { corners_of result ≡ places self.now frame (numbers_of self.now triangle) }
        ensures near { IsNearAll result.a result.b result.c }
        ensures turn { turn_of (whole result.a) (whole result.b) (whole result.c) ≡ turn_in self.now frame triangle }
        ensures positive { pos 0 <ℤ turn_of (whole result.a) (whole result.b) (whole result.c) }
        ensures limits { IsWithinLimits self.now }
    {
        self.tin.tri(triangle, frame)
    }
}

/// The triangulation with its frames exchanged: what was the target is then the source.
pub fn turned(tin: SoundTin) -> SoundTin
    ensures { result ≡ turned_of tin }
{
    let SoundTin { tin } = tin;
    SoundTin { tin: tin.turned() }
}
