//! A report as far as it is read, and the step that one line of its text makes.

ghost use Rattle.report_text.specs.InsideLineKinds.{tin_of};
ghost use Rattle.report_text.specs.InsideSteps.{Leads, state_of, step, behind_tin, step_of_layers, step_of_row};
ghost use Rattle.report_text.specs.InsideSteps.{step_of_changes, step_of_title, step_of_sides, behind_changes};

use crate::line_kinds::{change_line, count_line, is_extents, layer_line, tin_line};
use crate::side_kinds::{side_change_line, side_count_line};
use crate::{LayerRow, ReportFault};
use ring_side::{SideChange, SideList};
use shelf_io::Name;
use std::alloc::Global;
use tin_base::Change;

/// What the title and the line of the triangulation say.
#[derive(Drop)]
pub(crate) struct TinRow {
    /// Whether sides of rings are stated.
    pub sided: bool,
    pub corners: u32,
    pub triangles: u32,
    pub inexact: u64,
    pub name: Name,
}

/// What was read of a report, by what may come next.
#[derive(Drop)]
pub(crate) enum Draft {
    /// Nothing: the title comes.
    Title,
    /// The title, by whether it announces sides: the triangulation comes.
    Tin(bool),
    /// The triangulation and some layers: a layer or the number of changes comes.
    Layers(TinRow, Vec<LayerRow>),
    /// The triangulation, some layers and one more, which is a drawing if its extents come.
    Row(TinRow, Vec<LayerRow>, LayerRow),
    /// All layers and some changes; this many more come.
    Changes(TinRow, Vec<LayerRow>, Vec<Change>, u64),
    /// All changes and some of sides; this many more of these come.
    Sides(TinRow, Vec<LayerRow>, Vec<Change>, Vec<SideChange>, u64),
    /// A whole report.
    Whole(TinRow, Vec<LayerRow>, Vec<Change>, Option<SideList>),
}

// What follows the title.
#[tactic(auto, unfolding(crate::specs::ReportText::title))]
fn read_title(line: &[u8], number: u64) -> Result<Draft, ReportFault>
    ensures { Leads result number (step_of_title line.now) }
{
    if line == b"tinmove report 1".as_slice() {
        return Ok(Draft::Tin(false));
    }
    if line == b"tinmove report 2".as_slice() {
        return Ok(Draft::Tin(true));
    }
    Err(ReportFault::Bad { line: number })
}

// What follows the line of the triangulation.
fn read_tin(alloc: Global, sided: bool, line: &[u8], number: u64) -> Result<Draft, ReportFault>
    ensures { Leads result number (behind_tin (tin_of sided line.now)) }
{
    let Some((counts, name)) = tin_line(line) else {
        return Err(ReportFault::Bad { line: number });
    };
    let tin = TinRow {
        sided,
        corners: counts.corners,
        triangles: counts.triangles,
        inexact: counts.inexact,
        name: Name::of(alloc, name)?,
    };
    Ok(Draft::Layers(tin, Vec::new(alloc)))
}

// What follows a line after some layers.
fn read_layer(
    alloc: Global,
    tin: TinRow,
    rows: Vec<LayerRow>,
    line: &[u8],
    number: u64,
) -> Result<Draft, ReportFault>
    ensures { Leads result number (step_of_layers tin rows.items line.now) }
{
    if let Some((counts, name)) = layer_line(rows.len() as u64, line) {
        let row = LayerRow {
            paths: counts.paths,
            segments: counts.segments,
            pieces: counts.pieces,
            inexact: counts.inexact,
            dropped: counts.dropped,
            drawing: false,
            name: Name::of(alloc, name)?,
        };
        return Ok(Draft::Row(tin, rows, row));
    }
    match count_line(line) {
        Some(count) => Ok(Draft::Changes(tin, rows, Vec::new(alloc), count)),
        None => Err(ReportFault::Bad { line: number }),
    }
}

// What follows a line after a layer that may be a drawing.
fn read_behind_row(
    alloc: Global,
    tin: TinRow,
    rows: Vec<LayerRow>,
    row: LayerRow,
    line: &[u8],
    number: u64,
) -> Result<Draft, ReportFault>
    ensures { Leads result number (step_of_row tin rows.items row line.now) }
{
    let mut rows = rows;
    let mut row = row;
    if is_extents(rows.len() as u64, line) {
        row.drawing = true;
        rows.push(row)?;
        return Ok(Draft::Layers(tin, rows));
    }
    rows.push(row)?;
    read_layer(alloc, tin, rows, line, number)
}

// What follows the line after all changes: the report ends, or the number of changes of sides comes.
#[tactic(auto, unfolding(crate::specs::ReportText::end_line))]
fn read_behind_changes(
    alloc: Global,
    tin: TinRow,
    rows: Vec<LayerRow>,
    changes: Vec<Change>,
    line: &[u8],
    number: u64,
) -> Result<Draft, ReportFault>
    ensures { Leads result number (behind_changes tin.sided tin rows.items changes.items line.now) }
{
    if tin.sided {
        return match side_count_line(line) {
            Some(count) => Ok(Draft::Sides(tin, rows, changes, Vec::new(alloc), count)),
            None => Err(ReportFault::Bad { line: number }),
        };
    }
    if line == b"end".as_slice() {
        Ok(Draft::Whole(tin, rows, changes, None))
    } else {
        Err(ReportFault::Bad { line: number })
    }
}

// What follows a line after some changes of sides, where this many more come.
#[tactic(auto, unfolding(crate::specs::ReportText::end_line))]
fn read_side(
    tin: TinRow,
    rows: Vec<LayerRow>,
    changes: Vec<Change>,
    sides: Vec<SideChange>,
    left: u64,
    line: &[u8],
    number: u64,
) -> Result<Draft, ReportFault>
    ensures { Leads result number (step_of_sides tin rows.items changes.items sides.items left line.now) }
{
    if left == 0 {
        return if line == b"end".as_slice() {
            Ok(Draft::Whole(tin, rows, changes, Some(SideList::of(sides))))
        } else {
            Err(ReportFault::Bad { line: number })
        };
    }
    let Some(side) = side_change_line(line) else {
        return Err(ReportFault::Bad { line: number });
    };
    let mut sides = sides;
    sides.push(side)?;
    Ok(Draft::Sides(tin, rows, changes, sides, left - 1))
}

// What follows a line after some changes, where this many more come.
fn read_change(
    alloc: Global,
    tin: TinRow,
    rows: Vec<LayerRow>,
    changes: Vec<Change>,
    left: u64,
    line: &[u8],
    number: u64,
) -> Result<Draft, ReportFault>
    ensures { Leads result number (step_of_changes tin rows.items changes.items left line.now) }
{
    if left == 0 {
        return read_behind_changes(alloc, tin, rows, changes, line, number);
    }
    let Some(change) = change_line(line) else {
        return Err(ReportFault::Bad { line: number });
    };
    let mut changes = changes;
    changes.push(change)?;
    Ok(Draft::Changes(tin, rows, changes, left - 1))
}

impl Draft {
    /// What the draft becomes by the line of this number.
    pub(crate) fn read(self, alloc: Global, line: &[u8], number: u64) -> Result<Draft, ReportFault>
        ensures { Leads result number (step (state_of self) line.now) }
    {
        match self {
            Draft::Title => read_title(line, number),
            Draft::Tin(sided) => read_tin(alloc, sided, line, number),
            Draft::Layers(tin, rows) => read_layer(alloc, tin, rows, line, number),
            Draft::Row(tin, rows, row) => read_behind_row(alloc, tin, rows, row, line, number),
            Draft::Changes(tin, rows, changes, left) => {
                read_change(alloc, tin, rows, changes, left, line, number)
            }
            Draft::Sides(tin, rows, changes, sides, left) => {
                read_side(tin, rows, changes, sides, left, line, number)
            }
            Draft::Whole(..) => Err(ReportFault::Bad { line: number }),
        }
    }
}
