//! Geometries of features.

ghost use Rattle.std.specs.Prelude.{◌≡◌, ◌<◌, ◌≤◌, ◌+◌, ◌++◌, OnOk, OnErr, length, vec_len, vec_capacity};
ghost use Rattle.mm_decimal.specs.MetresTexts.{mm_text};
ghost use Rattle.change_places.specs.PlacesText.{position_text, point_text, line_text, lines_text, dot_text};
ghost use Rattle.change_places.specs.PlacesText.{geometry_text, spot_geometry};
ghost use Rattle.change_places.specs.Words.{change_words};

use crate::spots::{ChangeSpot, Style};
use crate::texts::put;
use mm_decimal::write_mm;
use plane_base::Pt;
use sheet_base::Listed;
use std::alloc::AllocError;

// Adds a number of millimetres as metres.
fn put_metres(out: &mut Vec<u8>, mm: i64) -> Result<(), AllocError>
    ensures text { OnOk result (out.new.items ≡ out.old.items ++ mm_text mm) }
    ensures capacity { vec_capacity out.old ≤ vec_capacity out.new }
    ensures full { OnErr result (vec_capacity out.old < vec_len out.old + length (mm_text mm)) }
{
    let mut digits = [0; 24];
    let count = write_mm(mm, &mut digits);
    out.extend_from_slice(&digits[..count])?;
    Ok(())
}

/// Adds a position, in metres with three digits.
#[tactic(auto, unfolding(crate::specs::PlacesText::position_text))]
pub fn put_position(out: &mut Vec<u8>, point: Pt) -> Result<(), AllocError>
    ensures text { OnOk result (out.new.items ≡ out.old.items ++ position_text point) }
    ensures capacity { vec_capacity out.old ≤ vec_capacity out.new }
    ensures full { OnErr result (vec_capacity out.old < vec_len out.old + length (position_text point)) }
{
    put(out, "[")?;
    put_metres(out, point.x)?;
    put(out, ",")?;
    put_metres(out, point.y)?;
    put(out, "]")?;
    Ok(())
}

/// Adds a position as a geometry.
#[tactic(auto, unfolding(crate::specs::PlacesText::point_text))]
pub fn put_point(out: &mut Vec<u8>, point: Pt) -> Result<(), AllocError>
    ensures text { OnOk result (out.new.items ≡ out.old.items ++ point_text point) }
    ensures capacity { vec_capacity out.old ≤ vec_capacity out.new }
    ensures full { OnErr result (vec_capacity out.old < vec_len out.old + length (point_text point)) }
{
    put(out, "{\"type\":\"Point\",\"coordinates\":")?;
    put_position(out, point)?;
    put(out, "}")?;
    Ok(())
}

// Adds the two positions of a line.
#[tactic(auto, unfolding(crate::specs::PlacesText::line_text))]
fn put_line(out: &mut Vec<u8>, a: Pt, b: Pt) -> Result<(), AllocError>
    ensures text { OnOk result (out.new.items ≡ out.old.items ++ line_text a b) }
    ensures capacity { vec_capacity out.old ≤ vec_capacity out.new }
    ensures full { OnErr result (vec_capacity out.old < vec_len out.old + length (line_text a b)) }
{
    put(out, "[")?;
    put_position(out, a)?;
    put(out, ",")?;
    put_position(out, b)?;
    put(out, "]")?;
    Ok(())
}

// Adds two written segments.
#[tactic(auto, unfolding(crate::specs::PlacesText::lines_text))]
fn put_lines(out: &mut Vec<u8>, a: Pt, b: Pt, c: Pt, d: Pt) -> Result<(), AllocError>
    ensures text { OnOk result (out.new.items ≡ out.old.items ++ lines_text a b c d) }
    ensures capacity { vec_capacity out.old ≤ vec_capacity out.new }
    ensures full { OnErr result (vec_capacity out.old < vec_len out.old + length (lines_text a b c d)) }
{
    put(out, "{\"type\":\"MultiLineString\",\"coordinates\":[")?;
    put_line(out, a, b)?;
    put(out, ",")?;
    put_line(out, c, d)?;
    put(out, "]}")?;
    Ok(())
}

// Adds a line of two equal positions.
#[tactic(auto, unfolding(crate::specs::PlacesText::dot_text))]
fn put_dot(out: &mut Vec<u8>, point: Pt) -> Result<(), AllocError>
    ensures text { OnOk result (out.new.items ≡ out.old.items ++ dot_text point) }
    ensures capacity { vec_capacity out.old ≤ vec_capacity out.new }
    ensures full { OnErr result (vec_capacity out.old < vec_len out.old + length (dot_text point)) }
{
    put(out, "{\"type\":\"MultiLineString\",\"coordinates\":[")?;
    put_line(out, point, point)?;
    put(out, "]}")?;
    Ok(())
}

/// Adds the two written segments, or the place of the change.
pub(crate) fn put_geometry(
    out: &mut Vec<u8>,
    style: Style,
    texts: &[Listed<u8>],
    change: ChangeSpot,
) -> Result<(), AllocError>
    ensures text { OnOk result (out.new.items ≡ out.old.items ++ geometry_text style (change_words texts.now change)) }
    ensures capacity { vec_capacity out.old ≤ vec_capacity out.new }
    ensures full { OnErr result (vec_capacity out.old < vec_len out.old + length (geometry_text style (change_words texts.now change))) }
{
    let _ = texts;
    if style.lines {
        put_lines(
            out,
            change.first.a,
            change.first.b,
            change.second.a,
            change.second.b,
        )?;
    } else {
        put_point(out, change.place)?;
    }
    Ok(())
}

/// Adds the place of a change of sides, as a point or as a line.
pub(crate) fn put_spot(out: &mut Vec<u8>, style: Style, place: Pt) -> Result<(), AllocError>
    ensures text { OnOk result (out.new.items ≡ out.old.items ++ spot_geometry style place) }
    ensures capacity { vec_capacity out.old ≤ vec_capacity out.new }
    ensures full { OnErr result (vec_capacity out.old < vec_len out.old + length (spot_geometry style place)) }
{
    if style.lines {
        put_dot(out, place)?;
    } else {
        put_point(out, place)?;
    }
    Ok(())
}
