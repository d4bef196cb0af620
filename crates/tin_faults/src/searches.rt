//! All faults of a triangulation, in order: of each frame its triangles, and then of each frame its pairs.

ghost use Rattle.std.specs.Prelude.{◌≡◌, ◌<◌, ◌≤◌, ◌+◌, length, vec_len, [], All, IfOk, IfErr, OnOk, IsTrue};
ghost use Rattle.std.specs.List.Sorted.{IsStrictlyIncreasing};
ghost use Rattle.tin_base.specs.Soundness.{IsSound};
ghost use Rattle.tin_check.specs.Faults.{frame_rank};
ghost use Rattle.tin_faults.specs.declared.faults.ListFault.TheVariants.{TooMany};
ghost use Rattle.tin_faults.specs.Faults.{AreFaults, HasMoreFaults};
ghost use Rattle.tin_faults.specs.InsideProgress.{HasFaultsBefore, IsPassed, triangle_key, pair_key, DoListOverlaps};

use crate::lists::add;
use crate::triangle_pairs::do_overlap;
use crate::turns::turn_fault;
use crate::{Fault, ListFault};
use plane_base::boxes_share_a_point_or_are_apart;
use std::alloc::{AllocError, Global};
use tin_base::{Frame, Tin};
use tin_check::{box_in, check_tin, grid_in};

/// All faults of a triangulation, each once. Those of triangles come first, in the source and then in the target, by
/// number. Those of pairs follow, in the same order of the frames, by the first and the second number. A sound
/// triangulation is found to be so by `check_tin`, of a copy, and nothing else is looked at.
pub fn all_faults(alloc: Global, tin: &Tin, most: usize) -> Result<Vec<Fault>, ListFault>
    ensures ok { IfOk result (λ faults. AreFaults tin.now faults.items) }
    ensures room { IfOk result (λ faults. vec_len faults ≤ most) }
    ensures too_many { IfErr result (λ why. why ≡ TooMany → HasMoreFaults tin.now most) }
{
    if is_sound(alloc, tin)? {
        return Ok(Vec::new(alloc));
    }
    list_faults(alloc, tin, most)
}

/// Whether the triangulation is sound. `false` shows nothing.
fn is_sound(alloc: Global, tin: &Tin) -> Result<bool, AllocError>
    ensures { IfOk result (λ sound. IsTrue sound → IsSound tin.now) }
{
    let corners = Vec::from_slice(alloc, tin.corners())?;
    let triangles = Vec::from_slice(alloc, tin.triangles())?;
    let copy = Tin::of(corners, triangles, tin.inexact());
    match check_tin(alloc, copy) {
        Ok(_) => Ok(true),
        Err(_) => Ok(false),
    }
}

/// All faults of a triangulation, sound or not: each triangle and each pair whose boxes share a point is
/// looked at.
fn list_faults(alloc: Global, tin: &Tin, most: usize) -> Result<Vec<Fault>, ListFault>
    ensures ok { IfOk result (λ faults. AreFaults tin.now faults.items) }
    ensures room { IfOk result (λ faults. vec_len faults ≤ most) }
    ensures too_many { IfErr result (λ why. why ≡ TooMany → HasMoreFaults tin.now most) }
{
    let mut found = Vec::new(alloc);
    list_turns(tin, Frame::Source, most, &mut found)?;
    list_turns(tin, Frame::Target, most, &mut found)?;
    list_overlaps(alloc, tin, Frame::Source, most, &mut found)?;
    list_overlaps(alloc, tin, Frame::Target, most, &mut found)?;
    Ok(found)
}

/// Lists the triangles that are flat or turn over in a frame.
fn list_turns(tin: &Tin, frame: Frame, most: usize, found: &mut Vec<Fault>) -> Result<(), ListFault>
    requires before { HasFaultsBefore tin.now (triangle_key (frame_rank frame) 0) found.old.items }
    requires room { vec_len found.old ≤ most }
    ensures after { OnOk result (HasFaultsBefore tin.now (triangle_key (frame_rank frame + 1) 0) found.new.items) }
    ensures room { OnOk result (vec_len found.new ≤ most) }
    ensures too_many { IfErr result (λ why. why ≡ TooMany → HasMoreFaults tin.now most) }
{
    for triangle in 0..tin.triangle_count() {
        list_turn(tin, triangle, frame, most, found)?;
    }
    Ok(())
}

/// Lists a triangle if it is flat or turns over in the frame.
fn list_turn(
    tin: &Tin,
    triangle: u32,
    frame: Frame,
    most: usize,
    found: &mut Vec<Fault>,
) -> Result<(), ListFault>
    requires triangle { triangle < length tin.now.triangles }
    requires before { HasFaultsBefore tin.now (triangle_key (frame_rank frame) triangle) found.old.items }
    requires room { vec_len found.old ≤ most }
    ensures after { OnOk result (HasFaultsBefore tin.now (triangle_key (frame_rank frame) (triangle + 1)) found.new.items) }
    ensures room { OnOk result (vec_len found.new ≤ most) }
    ensures too_many { IfErr result (λ why. why ≡ TooMany → HasMoreFaults tin.now most) }
{
    if let Some(fault) = turn_fault(tin, triangle, frame) {
        add(found, most, fault)?;
    }
    Ok(())
}

/// Lists the pairs of triangles that do not fit together in a frame. Only pairs whose boxes share a point are looked at.
fn list_overlaps(
    alloc: Global,
    tin: &Tin,
    frame: Frame,
    most: usize,
    found: &mut Vec<Fault>,
) -> Result<(), ListFault>
    requires before { HasFaultsBefore tin.now (pair_key (frame_rank frame) 0 0) found.old.items }
    requires room { vec_len found.old ≤ most }
    ensures after { OnOk result (HasFaultsBefore tin.now (pair_key (frame_rank frame + 1) 0 0) found.new.items) }
    ensures room { OnOk result (vec_len found.new ≤ most) }
    ensures too_many { IfErr result (λ why. why ≡ TooMany → HasMoreFaults tin.now most) }
{
    boxes_share_a_point_or_are_apart();
    let grid = grid_in(alloc, tin, frame)?;
    for first in 0..tin.triangle_count() {
        let near = grid.near(alloc, box_in(tin, first, frame))?;
        list_overlaps_of(tin, first, &near, frame, most, found)?;
    }
    Ok(())
}

/// Lists the pairs of one first triangle. All that do not fit it are among the second ones.
fn list_overlaps_of(
    tin: &Tin,
    first: u32,
    seconds: &[u32],
    frame: Frame,
    most: usize,
    found: &mut Vec<Fault>,
) -> Result<(), ListFault>
    requires first { first < length tin.now.triangles }
    requires in_range { All (λ second. second < length tin.now.triangles) seconds.now }
    requires in_order { IsStrictlyIncreasing seconds.now }
    requires others { DoListOverlaps tin.now frame first seconds.now }
    requires before { HasFaultsBefore tin.now (pair_key (frame_rank frame) first 0) found.old.items }
    requires room { vec_len found.old ≤ most }
    ensures after { OnOk result (HasFaultsBefore tin.now (pair_key (frame_rank frame) (first + 1) 0) found.new.items) }
    ensures room { OnOk result (vec_len found.new ≤ most) }
    ensures too_many { IfErr result (λ why. why ≡ TooMany → HasMoreFaults tin.now most) }
{
    for second in seconds {
        list_overlap(tin, first, *second, frame, most, found)?;
    }
    Ok(())
}

/// Lists a pair if it does not fit together in the frame.
fn list_overlap(
    tin: &Tin,
    first: u32,
    second: u32,
    frame: Frame,
    most: usize,
    found: &mut Vec<Fault>,
) -> Result<(), ListFault>
    requires first { first < length tin.now.triangles }
    requires second { second < length tin.now.triangles }
    requires before { HasFaultsBefore tin.now (pair_key (frame_rank frame) first second) found.old.items }
    requires room { vec_len found.old ≤ most }
    ensures after { OnOk result (HasFaultsBefore tin.now (pair_key (frame_rank frame) first (second + 1)) found.new.items) }
    ensures room { OnOk result (vec_len found.new ≤ most) }
    ensures too_many { IfErr result (λ why. why ≡ TooMany → HasMoreFaults tin.now most) }
{
    if do_overlap(tin, first, second, frame) {
        add(
            found,
            most,
            Fault::Overlap {
                frame,
                first,
                second,
            },
        )?;
    }
    Ok(())
}
