//! What moving a list of points is to do, and what it writes.

ghost use Rattle.std.specs.Prelude.{◌≡◌, ◌+◌, length, IfOk, IfErr, IfSome, string_bytes, false};
ghost use Rattle.shelf_io.specs.Count.{Rose};
ghost use Rattle.runs.specs.Status.{end_of};
ghost use Rattle.runs.specs.Counts.{LeavesFaults, shelf_counts};
ghost use Rattle.runs.specs.Output.{files_of, HasForm};
ghost use Rattle.runs.specs.Causes.{HasCauses};
ghost use Rattle.height_mode.specs.Heights.{heights_text, moved_files, AreMoved, IsHeightsWritten, IsEndOfHeights};
ghost use Rattle.height_mode.specs.Heights.{MayRefuseHeightsOver, LacksListed};

use crate::moved_points::{MovedPoints, move_points};
use crate::tall_tins::load_tall;
use runs::{LayerFile, MOST_BYTES, Refusal, RunOutput, load_file, output_name};
use sheet_base::{How, Listed};
use shelf_io::{Name, Shelf};
use std::alloc::{AllocError, Global};
use tin_base::SoundTin;

/// What moving a list of points is to do.
#[derive(Drop)]
pub struct HeightJob {
    /// The name of the triangulation's file.
    pub tin: Name,
    /// The name of the folder into which the points are written.
    pub out: Name,
    /// How the files are read.
    pub how: How,
    /// The name of the points' file.
    pub points: Name,
}

/// The line that says how much was moved. The sum of two counts may need more than 64 bits.
fn heights_line(
    alloc: Global,
    tin: &SoundTin,
    count: usize,
    inexact: u64,
) -> Result<String, AllocError>
    ensures { IfOk result (λ line. string_bytes line ≡ heights_text (length tin.now.corners) (length tin.now.triangles) count
        (tin.now.inexact + inexact)) }
{
    let corners = tin.corners().len();
    let triangles = tin.triangles().len();
    let inexact = u128::from(tin.inexact()) + u128::from(inexact);
    format!(in alloc;
        "heights: corners {corners} triangles {triangles} points {count} inexact {inexact}\n"
    )
}

/// What is written of points that were moved: one file, and the line.
fn moved_output(
    alloc: Global,
    heights: &HeightJob,
    tin: &SoundTin,
    moved: MovedPoints,
) -> Result<RunOutput, AllocError>
    ensures files { IfOk result (λ written. files_of written ≡ moved_files heights.now tin.now moved.text moved.count moved.inexact) }
    ensures unchanged { IfOk result (λ written. written.changed ≡ false) }
    ensures form { IfOk result (λ written. HasForm (IsHeightsWritten heights.now) written) }
{
    let line = heights_line(alloc, tin, moved.count, moved.inexact)?;
    let name = output_name(alloc, heights.out.text(), heights.points.text())?;
    let mut layers = Vec::new(alloc);
    layers.push(LayerFile {
        name,
        text: moved.text,
    })?;
    Ok(RunOutput {
        layers,
        said: Listed::of(line.into_bytes()),
        changed: false,
    })
}

/// The output of moving a list of points with heights: its file, and one line. The error says why it is refused: by the
/// triangulation, by the points' file, by its first token that is not read, or by its first point that is in no
/// triangle.
pub fn prepare_heights<S: Shelf>(
    alloc: Global,
    shelf: &mut S,
    heights: &HeightJob,
) -> Result<RunOutput, Refusal>
    ensures ok { IfOk result (λ written. IfSome (S.files shelf.old)
        (λ files. AreMoved files heights.now (end_of written.changed) (files_of written))) }
    ensures unchanged { IfOk result (λ written. written.changed ≡ false) }
    ensures form { IfOk result (λ written. HasForm (IsHeightsWritten heights.now) written) }
    ensures refused { IfErr result (MayRefuseHeightsOver (S.files shelf.old) heights.now (Rose (S.faults shelf.old) (S.faults shelf.new))) }
    ensures causes { IfErr result (HasCauses (LacksListed heights.now (S.files shelf.old)) IsEndOfHeights
        (shelf_counts (S.faults shelf.old) (S.faults shelf.new) (S.given shelf.old) (S.given shelf.new))) }
    ensures faults { LeavesFaults (S.faults shelf.old) (S.faults shelf.new) result }
{
    let tall = load_tall(alloc, shelf, heights.tin.text(), heights.how)?;
    let bytes = load_file(
        alloc,
        shelf,
        heights.points.text(),
        MOST_BYTES,
        Refusal::LayerUnread { layer: 0 },
        Refusal::LayersLong,
    )?;
    let moved = move_points(alloc, &tall, &bytes, heights.how)?;
    let written = moved_output(alloc, heights, tall.index.tin(), moved)?;
    Ok(written)
}
