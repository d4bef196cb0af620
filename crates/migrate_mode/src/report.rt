//! The report of a run.

ghost use Rattle.std.specs.Prelude.{◌≡◌, IfOk};
ghost use Rattle.std.specs.List.{AllByRecursion};
ghost use Rattle.report_text.specs.Reports.{IsPrintable, IsChanged, DoSidesDiffer};
ghost use Rattle.migrate_mode.specs.Migrations.{report_of};
ghost use Rattle.migrate_mode.specs.RunContents.{row_with};

use carry_map::Carried;
use job_words::Format;
use layer_formats::is_drawing;
use report_text::{LayerRow, Report};
use ring_side::SideList;
use sheet_base::Listed;
use shelf_io::Name;
use std::alloc::{AllocError, Global};
use tin_base::{Change, SoundTin};

/// What the report says of a layer of this name and format that was carried.
pub fn layer_row(
    alloc: Global,
    name: &Name,
    format: Format,
    carried: &Carried,
) -> Result<LayerRow, AllocError>
    ensures { IfOk result (λ row. row ≡ row_with name.now format carried.now) }
{
    Ok(LayerRow {
        paths: carried.paths,
        segments: carried.segments,
        pieces: carried.pieces,
        inexact: carried.inexact,
        dropped: carried.dropped,
        drawing: is_drawing(format),
        name: Name::of(alloc, name.text())?,
    })
}

/// The report on layers that were carried through the triangulation of the file of this name.
pub fn report_on(
    alloc: Global,
    name: &str,
    tin: &SoundTin,
    layers: Vec<LayerRow>,
    changes: Vec<Change>,
    sides: Option<SideList>,
) -> Result<Report, AllocError>
    requires name { IsPrintable name.now }
    requires layers { AllByRecursion (λ row. IsPrintable row.name) layers.items }
    requires changes { AllByRecursion IsChanged changes.items }
    requires sides { DoSidesDiffer sides }
    ensures { IfOk result (λ report. report ≡ report_of name.now tin.now layers.items changes.items sides) }
{
    let corners = tin.corners().len() as u32;
    let triangles = tin.triangles().len() as u32;
    let name = Name::of(alloc, name)?;
    Ok(Report::of(
        corners,
        triangles,
        tin.inexact(),
        name,
        Listed::of(layers),
        Listed::of(changes),
        sides,
    ))
}
