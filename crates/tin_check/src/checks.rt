//! The check of a triangulation, with its first fault.

ghost use Rattle.std.specs.Prelude.{◌≡◌, ◌↔◌, ◌<◌, ◌+◌, length, IsTrue, IfOk, IfErr, OnOk};
ghost use Rattle.tin_base.specs.Soundness.{turn_in, IsSound};
ghost use Rattle.tin_base.specs.declared.frames.Frame.TheVariants.{Source, Target};
ghost use Rattle.tin_base.specs.Laws.{IsOneToOne};
ghost use Rattle.tin_check.specs.Faults.{IsFirstFault, IsCause};
ghost use Rattle.tin_check.specs.InsideProgress.{ArePositive, IsBeforePair, DoAllFit, IsFirstPair};
ghost use Rattle.tin_check.specs.declared.faults.CheckFault.TheVariants.{Meets, NoMemory};

use crate::CheckFault;
use crate::border_fits::does_border_fit;
use crate::borders::border_of;
use crate::pairs::TrianglePair;
use crate::searches::{first_unfit_pair, first_unfit_pair_below};
use plane_base::turn;
use std::alloc::Global;
use tin_base::{Frame, SoundTin, Tin};

/// The triangulation if it is sound, or else its first fault. Faults of triangles come first, in order: flat in the
/// source, flat in the target, turned over. Then come those of pairs, in order of the first and of the second number:
/// they do not fit in the source, or in the target.
pub fn check_tin(alloc: Global, tin: Tin) -> Result<SoundTin, CheckFault>
    ensures same { IfOk result (λ sound. sound ≡ tin) }
    ensures sound { OnOk result (IsSound tin) }
    ensures images { IfOk result (λ sound. IsOneToOne sound) }
    ensures first { IfErr result (λ fault. IsCause tin fault) }
    // So a sound triangulation is refused only when it runs out of memory.
    ensures accepted { IsSound tin → IfErr result (λ fault. fault ≡ NoMemory) }
{
    check_triangles(&tin)?;
    check_pairs(alloc, &tin)?;
    Ok(SoundTin::of(tin))
}

/// Looks at each triangle.
fn check_triangles(tin: &Tin) -> Result<(), CheckFault>
    ensures on { OnOk result (ArePositive tin.now (length tin.now.triangles)) }
    ensures first { IfErr result (λ fault. IsFirstFault tin.now fault) }
{
    for triangle in 0..tin.triangle_count() {
        check_turns(tin, triangle)?;
    }
    Ok(())
}

/// Looks at one triangle, after those before it.
fn check_turns(tin: &Tin, triangle: u32) -> Result<(), CheckFault>
    requires in_range { triangle < length tin.now.triangles }
    requires before { ArePositive tin.now triangle }
    ensures on { OnOk result (ArePositive tin.now (triangle + 1)) }
    ensures first { IfErr result (λ fault. IsFirstFault tin.now fault) }
{
    let source = turn_of(tin, triangle, Frame::Source);
    let target = turn_of(tin, triangle, Frame::Target);
    if source == 0 {
        return Err(CheckFault::Flat {
            triangle,
            frame: Frame::Source,
        });
    }
    if target == 0 {
        return Err(CheckFault::Flat {
            triangle,
            frame: Frame::Target,
        });
    }
    if source < 0 || target < 0 {
        return Err(CheckFault::TurnsOver { triangle });
    }
    Ok(())
}

/// Looks at the pairs of triangles, where the border does not show that all fit.
fn check_pairs(alloc: Global, tin: &Tin) -> Result<(), CheckFault>
    requires positive { ArePositive tin.now (length tin.now.triangles) }
    ensures source { OnOk result (DoAllFit tin.now Source) }
    ensures target { OnOk result (DoAllFit tin.now Target) }
    ensures first { IfErr result (λ fault. IsCause tin.now fault) }
{
    let border = border_of(alloc, tin)?;
    if does_border_fit(alloc, tin, &border)? {
        return Ok(());
    }
    compare_pairs(alloc, tin)?;
    Ok(())
}

/// Looks at the pairs of triangles, in one frame after the other.
fn compare_pairs(alloc: Global, tin: &Tin) -> Result<(), CheckFault>
    requires positive { ArePositive tin.now (length tin.now.triangles) }
    ensures source { OnOk result (DoAllFit tin.now Source) }
    ensures target { OnOk result (DoAllFit tin.now Target) }
    ensures first { IfErr result (λ fault. IsCause tin.now fault) }
{
    match first_unfit_pair(alloc, tin, Frame::Source)? {
        Some(pair) => Err(first_meeting(alloc, tin, pair)),
        None => match first_unfit_pair(alloc, tin, Frame::Target)? {
            Some(pair) => Err(meets(pair, Frame::Target)),
            None => Ok(()),
        },
    }
}

/// The first fault where this pair is the first that does not fit in the source. In the target only pairs up to it
/// matter.
fn first_meeting(alloc: Global, tin: &Tin, source: TrianglePair) -> CheckFault
    requires positive { ArePositive tin.now (length tin.now.triangles) }
    requires source { IsFirstPair tin.now Source source.first source.second }
    ensures { IsCause tin.now result }
{
    match first_unfit_pair_below(alloc, tin, Frame::Target, source.first + 1) {
        Ok(Some(target)) => earlier(tin, source, target),
        Ok(None) => meets(source, Frame::Source),
        Err(_) => CheckFault::NoMemory,
    }
}

/// The first fault where each frame has a first pair: that of the earlier pair, and the source's where they are one
/// pair.
fn earlier(tin: &Tin, source: TrianglePair, target: TrianglePair) -> CheckFault
    requires positive { ArePositive tin.now (length tin.now.triangles) }
    requires source { IsFirstPair tin.now Source source.first source.second }
    requires target { IsFirstPair tin.now Target target.first target.second }
    ensures { IsCause tin.now result }
{
    if is_before(target, source) {
        meets(target, Frame::Target)
    } else {
        meets(source, Frame::Source)
    }
}

/// The fault of a pair.
fn meets(pair: TrianglePair, frame: Frame) -> CheckFault
    ensures { result ≡ Meets pair.first pair.second frame }
{
    CheckFault::Meets {
        first: pair.first,
        second: pair.second,
        frame,
    }
}

/// Whether the one pair comes before the other.
fn is_before(pair: TrianglePair, other: TrianglePair) -> bool
    ensures { IsTrue result ↔ IsBeforePair pair.first pair.second other.first other.second }
{
    pair.first < other.first || (pair.first == other.first && pair.second < other.second)
}

/// Twice the signed area of a triangle in a frame.
fn turn_of(tin: &Tin, triangle: u32, frame: Frame) -> i128
    requires { triangle < length tin.now.triangles }
    ensures { result ≡ turn_in tin.now frame triangle }
{
    let corners = tin.tri(triangle, frame);
    turn(corners.a, corners.b, corners.c)
}
