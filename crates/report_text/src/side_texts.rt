//! The lines of a report on sides of rings.

ghost use Rattle.std.specs.Prelude.{◌≡◌, ◌∷◌, [], ◌<◌, ◌^◌, ◌++◌, length, OnOk, codes, map};
ghost use Rattle.std.specs.List.{AllByRecursion};
ghost use Rattle.report_text.specs.declared.lines.TheConstants.{LINE_FEED};
ghost use Rattle.report_text.specs.Reports.{IsRingHeld, IsSpotHeld, IsSideHeld, AreSidesHeld};
ghost use Rattle.report_text.specs.ReportText.{title, are_told, ring_text, spot_text, way_word, side_word};
ghost use Rattle.report_text.specs.ReportText.{turn_line, point_line, side_line, side_count_line, side_lines};
ghost use Rattle.report_text.specs.ReportText.{text_of_lines};

use crate::Report;
use crate::field_texts::{put, put_long, put_short};
use ring_side::{Side, SideChange, Spot, Way};
use std::alloc::AllocError;

/// Adds the first line, by whether sides are stated.
#[tactic(auto, unfolding(crate::specs::ReportText::title))]
pub(crate) fn put_title(out: &mut Vec<u8>, report: &Report) -> Result<(), AllocError>
    ensures { OnOk result (out.new.items ≡ out.old.items ++ (title (are_told report.now.sides) ++ LINE_FEED ∷ [])) }
{
    match report.sides() {
        Some(_) => put(out, "tinmove report 2\n")?,
        None => put(out, "tinmove report 1\n")?,
    }
    Ok(())
}

// Adds a ring's layer and path.
fn put_ring(out: &mut Vec<u8>, layer: u32, path: u32) -> Result<(), AllocError>
    ensures text { OnOk result (out.new.items ≡ out.old.items ++ ring_text layer path) }
    ensures held { IsRingHeld layer path }
{
    put_short(out, "", layer)?;
    put_short(out, "/", path)?;
    Ok(())
}

// Adds a point's layer, path and vertex.
fn put_spot(out: &mut Vec<u8>, spot: Spot) -> Result<(), AllocError>
    ensures text { OnOk result (out.new.items ≡ out.old.items ++ spot_text spot) }
    ensures held { IsSpotHeld spot }
{
    put_short(out, "", spot.layer)?;
    put_short(out, "/", spot.path)?;
    put_short(out, "/", spot.vertex)?;
    Ok(())
}

// The word of a direction.
fn word_of_way(way: Way) -> &'static str
    ensures { result.now ≡ way_word way }
{
    match way {
        Way::Positive => "positive",
        Way::Negative => "negative",
        Way::Zero => "zero",
    }
}

// The word of a side.
fn word_of_side(side: Side) -> &'static str
    ensures { result.now ≡ side_word side }
{
    match side {
        Side::Inside => "inside",
        Side::Border => "border",
        Side::Outside => "outside",
    }
}

// Adds a direction after a space.
fn put_way(out: &mut Vec<u8>, way: Way) -> Result<(), AllocError>
    ensures { OnOk result (out.new.items ≡ out.old.items ++ (codes " " ++ way_word way)) }
{
    put(out, " ")?;
    put(out, word_of_way(way))?;
    Ok(())
}

// Adds a side after a space.
fn put_side(out: &mut Vec<u8>, side: Side) -> Result<(), AllocError>
    ensures { OnOk result (out.new.items ≡ out.old.items ++ (codes " " ++ side_word side)) }
{
    put(out, " ")?;
    put(out, word_of_side(side))?;
    Ok(())
}

// Adds the line of a ring that has another direction, without its line feed.
#[tactic(auto, unfolding(crate::specs::ReportText::turn_line))]
fn put_turn(out: &mut Vec<u8>, layer: u32, path: u32, was: Way, now: Way) -> Result<(), AllocError>
    ensures text { OnOk result (out.new.items ≡ out.old.items ++ turn_line layer path was now) }
    ensures held { IsRingHeld layer path }
{
    put(out, "turn ")?;
    put_ring(out, layer, path)?;
    put_way(out, was)?;
    put_way(out, now)?;
    Ok(())
}

// Adds the line of a point that is on another side of a ring, without its line feed.
#[tactic(auto, unfolding(crate::specs::ReportText::point_line))]
fn put_point(
    out: &mut Vec<u8>,
    layer: u32,
    path: u32,
    at: Spot,
    was: Side,
    now: Side,
) -> Result<(), AllocError>
    ensures text { OnOk result (out.new.items ≡ out.old.items ++ point_line layer path at was now) }
    ensures ring { IsRingHeld layer path }
    ensures spot { IsSpotHeld at }
{
    put(out, "side ")?;
    put_ring(out, layer, path)?;
    put(out, " ")?;
    put_spot(out, at)?;
    put_side(out, was)?;
    put_side(out, now)?;
    Ok(())
}

// Adds the line of a change of a side or a direction, without its line feed.
fn put_side_change(out: &mut Vec<u8>, change: SideChange) -> Result<(), AllocError>
    ensures text { OnOk result (out.new.items ≡ out.old.items ++ side_line change) }
    ensures held { OnOk result (IsSideHeld change) }
{
    match change {
        SideChange::Turn {
            layer,
            path,
            was,
            now,
        } => put_turn(out, layer, path, was, now)?,
        SideChange::Point {
            layer,
            path,
            at,
            was,
            now,
        } => put_point(out, layer, path, at, was, now)?,
    }
    Ok(())
}

fn put_side_changes(out: &mut Vec<u8>, sides: &[SideChange]) -> Result<(), AllocError>
    ensures text { OnOk result (out.new.items ≡ out.old.items ++ text_of_lines (map side_line sides.now)) }
    ensures held { OnOk result (AllByRecursion IsSideHeld sides.now) }
{
    for side in sides {
        put_side_change(out, *side)?;
        put(out, "\n")?;
    }
    Ok(())
}

#[tactic(auto, unfolding(crate::specs::ReportText::side_count_line))]
fn put_side_count(out: &mut Vec<u8>, count: u64) -> Result<(), AllocError>
    ensures text { OnOk result (out.new.items ≡ out.old.items ++ side_count_line count) }
    ensures fits { count < 2 ^ 64 }
{
    put_long(out, "sides ", count)?;
    Ok(())
}

/// Adds the lines of the changes of sides, where these are stated.
pub(crate) fn put_sides(out: &mut Vec<u8>, report: &Report) -> Result<(), AllocError>
    ensures text { OnOk result (out.new.items ≡ out.old.items ++ text_of_lines (side_lines report.now.sides)) }
    ensures held { OnOk result (AreSidesHeld report.now.sides) }
{
    if let Some(sides) = report.sides() {
        put_side_count(out, sides.len() as u64)?;
        put(out, "\n")?;
        put_side_changes(out, sides)?;
    }
    Ok(())
}
