//! The text of faults on the map: GeoJSON with a feature for each fault.

ghost use Rattle.std.specs.Prelude.{◌≡◌, ◌++◌, IfOk, OnOk, decimal, codes};
ghost use Rattle.change_places.specs.PlacesText.{separator_text};
ghost use Rattle.fault_runs.specs.FaultsText.{corners_text, outline_text, behind_text};
ghost use Rattle.fault_runs.specs.FaultsText.{other_outline_text, lines_text, geometry_text, kind_word, frame_word};
ghost use Rattle.fault_runs.specs.FaultsText.{fault_text, numbers_text, first_text, second_text, other_text};
ghost use Rattle.fault_runs.specs.FaultsText.{feature_text, features_text, faults_text};

use crate::spots::{FaultKind, FaultSpot, TriangleSpot, least_place};
use change_places::{put_point, put_position};
use itoa::Buffer;
use std::alloc::{AllocError, Global};
use tin_base::Frame;

/// How many bytes to reserve for a feature.
const FEATURE_ROOM: usize = 512;

// Adds a text at the end.
fn put(out: &mut Vec<u8>, text: &str) -> Result<(), AllocError>
    ensures { OnOk result (out.new.items ≡ out.old.items ++ text.now) }
{
    out.extend_from_slice(text.as_bytes())?;
    Ok(())
}

// Adds a number in digits.
fn put_number(out: &mut Vec<u8>, number: u64) -> Result<(), AllocError>
    ensures { OnOk result (out.new.items ≡ out.old.items ++ decimal number) }
{
    let mut digits = Buffer::new();
    put(out, digits.format(number))?;
    Ok(())
}

// Adds the number of a triangle or a corner.
fn put_own(out: &mut Vec<u8>, number: u32) -> Result<(), AllocError>
    ensures { OnOk result (out.new.items ≡ out.old.items ++ decimal number) }
{
    put_number(out, u64::from(number))?;
    Ok(())
}

// Adds the three corners of a triangle.
#[tactic(auto, unfolding(crate::specs::FaultsText::corners_text))]
fn put_corners(out: &mut Vec<u8>, spot: TriangleSpot) -> Result<(), AllocError>
    ensures { OnOk result (out.new.items ≡ out.old.items ++ corners_text spot) }
{
    put_position(out, spot.at_a)?;
    put(out, ",")?;
    put_position(out, spot.at_b)?;
    put(out, ",")?;
    put_position(out, spot.at_c)?;
    Ok(())
}

// Adds the outline of a triangle.
#[tactic(auto, unfolding(crate::specs::FaultsText::outline_text))]
fn put_outline(out: &mut Vec<u8>, spot: TriangleSpot) -> Result<(), AllocError>
    ensures { OnOk result (out.new.items ≡ out.old.items ++ outline_text spot) }
{
    put(out, "[")?;
    put_corners(out, spot)?;
    put(out, ",")?;
    put_position(out, spot.at_a)?;
    put(out, "]")?;
    Ok(())
}

// Adds the outline of the other triangle after a comma.
#[tactic(auto, unfolding(crate::specs::FaultsText::behind_text))]
fn put_behind(out: &mut Vec<u8>, spot: TriangleSpot) -> Result<(), AllocError>
    ensures { OnOk result (out.new.items ≡ out.old.items ++ behind_text spot) }
{
    put(out, ",")?;
    put_outline(out, spot)?;
    Ok(())
}

// Adds the outline of the other triangle, where there is one.
fn put_other_outline(out: &mut Vec<u8>, spot: Option<TriangleSpot>) -> Result<(), AllocError>
    ensures { OnOk result (out.new.items ≡ out.old.items ++ other_outline_text spot) }
{
    if let Some(spot) = spot {
        put_behind(out, spot)?;
    }
    Ok(())
}

// Adds the outlines of the triangles.
#[tactic(auto, unfolding(crate::specs::FaultsText::lines_text))]
fn put_lines(out: &mut Vec<u8>, fault: FaultSpot) -> Result<(), AllocError>
    ensures { OnOk result (out.new.items ≡ out.old.items ++ lines_text fault) }
{
    put(out, "{\"type\":\"MultiLineString\",\"coordinates\":[")?;
    put_outline(out, fault.first)?;
    put_other_outline(out, fault.second)?;
    put(out, "]}")?;
    Ok(())
}

// Adds the outlines, or the corner with the least number.
fn put_geometry(out: &mut Vec<u8>, lines: bool, fault: FaultSpot) -> Result<(), AllocError>
    ensures { OnOk result (out.new.items ≡ out.old.items ++ geometry_text lines fault) }
{
    if lines {
        put_lines(out, fault)?;
    } else {
        put_point(out, least_place(fault.first))?;
    }
    Ok(())
}

// The word of a kind.
fn kind_word(kind: FaultKind) -> &'static str
    ensures { result.now ≡ kind_word kind }
{
    match kind {
        FaultKind::Flat => "flat",
        FaultKind::TurnsOver => "turns over",
        FaultKind::Overlap => "overlap",
    }
}

// The word of a frame.
fn frame_word(frame: Frame) -> &'static str
    ensures { result.now ≡ frame_word frame }
{
    match frame {
        Frame::Source => "source",
        Frame::Target => "target",
    }
}

// Adds the number of a fault, what it is, and where.
#[tactic(auto, unfolding(crate::specs::FaultsText::fault_text))]
fn put_fault(out: &mut Vec<u8>, number: u64, fault: FaultSpot) -> Result<(), AllocError>
    ensures { OnOk result (out.new.items ≡ out.old.items ++ fault_text number fault) }
{
    put(out, "\"fault\":")?;
    put_number(out, number)?;
    put(out, ",\"kind\":\"")?;
    put(out, kind_word(fault.kind))?;
    put(out, "\",\"frame\":\"")?;
    put(out, frame_word(fault.frame))?;
    put(out, "\"")?;
    Ok(())
}

// Adds the numbers of a triangle's corners.
#[tactic(auto, unfolding(crate::specs::FaultsText::numbers_text))]
fn put_numbers(out: &mut Vec<u8>, spot: TriangleSpot) -> Result<(), AllocError>
    ensures { OnOk result (out.new.items ≡ out.old.items ++ numbers_text spot) }
{
    put(out, "[")?;
    put_own(out, spot.a)?;
    put(out, ",")?;
    put_own(out, spot.b)?;
    put(out, ",")?;
    put_own(out, spot.c)?;
    put(out, "]")?;
    Ok(())
}

// Adds the properties of the first triangle.
#[tactic(auto, unfolding(crate::specs::FaultsText::first_text))]
fn put_first(out: &mut Vec<u8>, spot: TriangleSpot) -> Result<(), AllocError>
    ensures { OnOk result (out.new.items ≡ out.old.items ++ first_text spot) }
{
    put(out, ",\"first_triangle\":")?;
    put_own(out, spot.triangle)?;
    put(out, ",\"first_corners\":")?;
    put_numbers(out, spot)?;
    put(out, ",\"first_places\":[")?;
    put_corners(out, spot)?;
    put(out, "]")?;
    Ok(())
}

// Adds the properties of the second triangle.
#[tactic(auto, unfolding(crate::specs::FaultsText::second_text))]
fn put_second(out: &mut Vec<u8>, spot: TriangleSpot) -> Result<(), AllocError>
    ensures { OnOk result (out.new.items ≡ out.old.items ++ second_text spot) }
{
    put(out, ",\"second_triangle\":")?;
    put_own(out, spot.triangle)?;
    put(out, ",\"second_corners\":")?;
    put_numbers(out, spot)?;
    put(out, ",\"second_places\":[")?;
    put_corners(out, spot)?;
    put(out, "]")?;
    Ok(())
}

// Adds the properties of the other triangle, which are null where there is none.
fn put_other(out: &mut Vec<u8>, spot: Option<TriangleSpot>) -> Result<(), AllocError>
    ensures { OnOk result (out.new.items ≡ out.old.items ++ other_text spot) }
{
    match spot {
        Some(spot) => put_second(out, spot)?,
        None => put(
            out,
            ",\"second_triangle\":null,\"second_corners\":null,\"second_places\":null",
        )?,
    }
    Ok(())
}

// Adds the fault of this number.
#[tactic(auto, unfolding(crate::specs::FaultsText::feature_text))]
fn put_feature(
    out: &mut Vec<u8>,
    lines: bool,
    number: u64,
    fault: FaultSpot,
) -> Result<(), AllocError>
    ensures { OnOk result (out.new.items ≡ out.old.items ++ feature_text lines number fault) }
{
    put(out, "{\"type\":\"Feature\",\"geometry\":")?;
    put_geometry(out, lines, fault)?;
    put(out, ",\"properties\":{")?;
    put_fault(out, number, fault)?;
    put_first(out, fault.first)?;
    put_other(out, fault.second)?;
    put(out, "}}")?;
    Ok(())
}

// What is before the feature of this number.
fn separator(number: u64) -> &'static str
    ensures { result.now ≡ separator_text number }
{
    if number == 0 { "\n" } else { ",\n" }
}

// Adds all faults, numbered from 0.
fn put_features(out: &mut Vec<u8>, lines: bool, faults: &[FaultSpot]) -> Result<(), AllocError>
    ensures { OnOk result (out.new.items ≡ out.old.items ++ features_text lines 0 faults.now) }
{
    for (number, fault) in faults.iter().enumerate() {
        put(out, separator(number as u64))?;
        put_feature(out, lines, number as u64, *fault)?;
    }
    Ok(())
}

/// The GeoJSON text of faults: one object with a feature for each, in order. A feature is a point at the corner of the
/// first triangle with the least number or, where lines are wanted, the outlines of the triangles, in the frame of the
/// fault and in metres with three digits. It says which fault it is, and of each triangle the number, the numbers of
/// its corners and where these are.
#[tactic(auto, unfolding(crate::specs::FaultsText::opening_text))]
pub fn write_faults(alloc: Global, lines: bool, faults: &[FaultSpot]) -> Result<Vec<u8>, AllocError>
    ensures text { IfOk result (λ text. text.items ≡ faults_text lines faults.now) }
{
    let mut out = Vec::with_capacity(alloc, faults.len().saturating_mul(FEATURE_ROOM))?;
    put(
        &mut out,
        "{\"type\":\"FeatureCollection\",\"crs\":null,\"features\":[",
    )?;
    put_features(&mut out, lines, faults)?;
    put(&mut out, "]}\n")?;
    Ok(out)
}
