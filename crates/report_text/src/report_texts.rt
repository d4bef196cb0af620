//! The text of a report.

ghost use Rattle.std.specs.Prelude.{◌≡◌, ◌<◌, ◌≤◌, ◌^◌, ◌++◌, length, IfOk, OnOk, IsUtf8, codes, map};
ghost use Rattle.std.specs.List.{AllByRecursion};
ghost use Rattle.report_text.specs.Beginnings.{IsReportText};
ghost use Rattle.report_text.specs.Reports.{AreCountsHeld, AreSizesHeld, AreLossesHeld, IsLayerHeld, IsPlaceHeld};
ghost use Rattle.report_text.specs.Reports.{IsChangeHeld};
ghost use Rattle.text_fields.specs.Fields.{field};
ghost use Rattle.report_text.specs.ReportText.{tin_counts, tin_line, sizes, losses, layer_line, extents_lines};
ghost use Rattle.report_text.specs.ReportText.{layer_lines, place_text, relation_word, change_line, count_line};
ghost use Rattle.report_text.specs.ReportText.{text_of_lines, report_text};

use crate::field_texts::{put, put_long, put_name, put_short};
use crate::side_texts::{put_sides, put_title};
use crate::{LayerRow, Report};
use std::alloc::{AllocError, Global};
use tin_base::{Change, Place, Rel};

fn put_tin_counts(out: &mut Vec<u8>, report: &Report) -> Result<(), AllocError>
    ensures text { OnOk result (out.new.items ≡ out.old.items ++ tin_counts report.now) }
    ensures held { OnOk result (AreCountsHeld report.now) }
{
    put_short(out, "triangulation corners ", report.corners())?;
    put_short(out, " triangles ", report.triangles())?;
    put_long(out, " inexact ", report.inexact())?;
    Ok(())
}

// Adds the line of the triangulation, without its line feed.
#[tactic(auto, unfolding(crate::specs::ReportText::tin_line))]
fn put_tin(out: &mut Vec<u8>, report: &Report) -> Result<(), AllocError>
    ensures text { OnOk result (out.new.items ≡ out.old.items ++ tin_line report.now) }
    ensures held { OnOk result (AreCountsHeld report.now × IsUtf8 report.now.name) }
{
    put_tin_counts(out, report)?;
    put_name(out, report.name().text())?;
    Ok(())
}

fn put_sizes(out: &mut Vec<u8>, row: &LayerRow) -> Result<(), AllocError>
    ensures text { OnOk result (out.new.items ≡ out.old.items ++ sizes row.now) }
    ensures held { OnOk result (AreSizesHeld row.now) }
{
    put_short(out, " paths ", row.paths)?;
    put_short(out, " segments ", row.segments)?;
    put_short(out, " pieces ", row.pieces)?;
    Ok(())
}

fn put_losses(out: &mut Vec<u8>, row: &LayerRow) -> Result<(), AllocError>
    ensures text { OnOk result (out.new.items ≡ out.old.items ++ losses row.now) }
    ensures held { OnOk result (AreLossesHeld row.now) }
{
    put_long(out, " inexact ", row.inexact)?;
    put_long(out, " dropped ", row.dropped)?;
    Ok(())
}

// Adds the line of a layer, without its line feed.
#[tactic(auto, unfolding(crate::specs::ReportText::layer_line))]
fn put_layer(out: &mut Vec<u8>, number: u64, row: &LayerRow) -> Result<(), AllocError>
    ensures text { OnOk result (out.new.items ≡ out.old.items ++ layer_line number row.now) }
    ensures held { OnOk result (IsLayerHeld row.now) }
{
    put_long(out, "layer ", number)?;
    put_sizes(out, row)?;
    put_losses(out, row)?;
    put_name(out, row.name.text())?;
    Ok(())
}

#[tactic(auto, unfolding(crate::specs::ReportText::extents_line))]
fn put_extents(out: &mut Vec<u8>, number: u64, drawing: bool) -> Result<(), AllocError>
    ensures { OnOk result (out.new.items ≡ out.old.items ++ text_of_lines (extents_lines number drawing)) }
{
    if drawing {
        put_long(out, "extents ", number)?;
        put(out, " as they were\n")?;
    }
    Ok(())
}

fn put_layers(out: &mut Vec<u8>, rows: &[LayerRow]) -> Result<(), AllocError>
    ensures text { OnOk result (out.new.items ≡ out.old.items ++ text_of_lines (layer_lines 0 rows.now)) }
    ensures held { OnOk result (AllByRecursion IsLayerHeld rows.now) }
    ensures few { length rows.now ≤ 2 ^ 64 }
{
    for (number, row) in rows.iter().enumerate() {
        put_layer(out, number as u64, row)?;
        put(out, "\n")?;
        put_extents(out, number as u64, row.drawing)?;
    }
    Ok(())
}

/// Adds the text of a place: the numbers of its layer, path, segment and piece.
pub fn put_place(out: &mut Vec<u8>, place: Place) -> Result<(), AllocError>
    ensures text { OnOk result (out.new.items ≡ out.old.items ++ place_text place) }
    ensures held { IsPlaceHeld place }
{
    put_short(out, "", place.layer)?;
    put_short(out, "/", place.path)?;
    put_short(out, "/", place.segment)?;
    put_short(out, "/", place.piece)?;
    Ok(())
}

// The word of a relation.
fn word_of(relation: Rel) -> &'static str
    ensures { result.now ≡ relation_word relation }
{
    match relation {
        Rel::Apart => "apart",
        Rel::Touching => "touching",
        Rel::Crossing => "crossing",
        Rel::Overlapping => "overlapping",
    }
}

/// Adds the word of a relation after a space.
pub fn put_relation(out: &mut Vec<u8>, relation: Rel) -> Result<(), AllocError>
    ensures { OnOk result (out.new.items ≡ out.old.items ++ (codes " " ++ relation_word relation)) }
{
    put(out, " ")?;
    put(out, word_of(relation))?;
    Ok(())
}

// Adds the line of a change, without its line feed.
#[tactic(auto, unfolding(crate::specs::ReportText::change_line))]
fn put_change(out: &mut Vec<u8>, change: Change) -> Result<(), AllocError>
    ensures text { OnOk result (out.new.items ≡ out.old.items ++ change_line change) }
    ensures held { IsChangeHeld change }
{
    put(out, "change ")?;
    put_place(out, change.first)?;
    put(out, " ")?;
    put_place(out, change.second)?;
    put_relation(out, change.was)?;
    put_relation(out, change.now)?;
    Ok(())
}

fn put_changes(out: &mut Vec<u8>, changes: &[Change]) -> Result<(), AllocError>
    ensures text { OnOk result (out.new.items ≡ out.old.items ++ text_of_lines (map change_line changes.now)) }
    ensures held { OnOk result (AllByRecursion IsChangeHeld changes.now) }
{
    for change in changes {
        put_change(out, *change)?;
        put(out, "\n")?;
    }
    Ok(())
}

#[tactic(auto, unfolding(crate::specs::ReportText::count_line))]
fn put_count(out: &mut Vec<u8>, count: u64) -> Result<(), AllocError>
    ensures text { OnOk result (out.new.items ≡ out.old.items ++ count_line count) }
    ensures fits { count < 2 ^ 64 }
{
    put_long(out, "changes ", count)?;
    Ok(())
}

/// The text of a report: its lines, each ended by a line feed. `read_report` reads it as that report.
pub fn write_report(alloc: Global, report: &Report) -> Result<Vec<u8>, AllocError>
    ensures text { IfOk result (λ text. text.items ≡ report_text report.now) }
    ensures read { IfOk result (λ text. IsReportText text.items report.now) }
{
    let mut out = Vec::new(alloc);
    put_title(&mut out, report)?;
    put_tin(&mut out, report)?;
    put(&mut out, "\n")?;
    put_layers(&mut out, report.layers())?;
    put_count(&mut out, report.changes().len() as u64)?;
    put(&mut out, "\n")?;
    put_changes(&mut out, report.changes())?;
    put_sides(&mut out, report)?;
    put(&mut out, "end\n")?;
    Ok(out)
}
