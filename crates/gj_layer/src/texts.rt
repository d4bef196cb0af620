//! The texts that take the place of edits.

ghost use Rattle.std.specs.Prelude.{◌≡◌, ◌++◌, Option, codes, OnOk};
ghost use Rattle.gj_layer.specs.Texts.{height_text, numbers_text, lowest_of, highest_of, box_text, geojson_edit_text};
ghost use Rattle.gj_layer.specs.InsideBoxes.{bounded_text};

use crate::boxes::{BoundingBox, Levels, bounds_of};
use plane_base::Pt;
use sheet_base::{
    Edit, EditTexts, ImageText, Images, Sheet, What, between, push_list, push_mm, push_ring,
};
use std::alloc::AllocError;

/// No image without a height is longer, in bytes, with its brackets and commas, nor is any but a far one with a height.
const IMAGE_ROOM: usize = 52;

/// The images of a layer, as texts.
#[derive(Clone, Copy)]
pub struct GeoJsonTexts<'a> {
    pub sheet: &'a Sheet,
    pub images: &'a Images,
}

/// Appends a comma and the height in metres, where there is one.
fn push_height(out: &mut Vec<u8>, height: Option<i64>) -> Result<(), AllocError>
    ensures { OnOk result (out.new.items ≡ out.old.items ++ height_text height) }
{
    match height {
        Some(z) => {
            out.push(b',')?;
            push_mm(out, z)?;
            Ok(())
        }
        None => Ok(()),
    }
}

/// Appends two numbers of millimetres as metres, and a height where there is one, with commas
/// between them.
fn push_numbers(out: &mut Vec<u8>, x: i64, y: i64, height: Option<i64>) -> Result<(), AllocError>
    ensures { OnOk result (out.new.items ≡ out.old.items ++ numbers_text x y height) }
{
    push_mm(out, x)?;
    out.push(b',')?;
    push_mm(out, y)?;
    push_height(out, height)?;
    Ok(())
}

/// Positions.
struct PositionText;

impl ImageText for PositionText {
    ghost use Rattle.std.specs.Prelude.{◌∷◌, []};
    ghost use Rattle.gj_layer.specs.Texts.{image_text};

    ghost separator = { 44 ∷ [] };

    ghost text = { image_text };

    fn push_separator(out: &mut Vec<u8>) -> Result<(), AllocError> {
        out.push(b',')?;
        Ok(())
    }

    fn push_image(out: &mut Vec<u8>, image: Pt, height: Option<i64>) -> Result<(), AllocError> {
        out.push(b'[')?;
        push_numbers(out, image.x, image.y, height)?;
        out.push(b']')?;
        Ok(())
    }
}

/// The least height, where there is one.
fn lowest_of(levels: Option<Levels>) -> Option<i64>
    ensures { result ≡ lowest_of levels }
{
    match levels {
        Some(levels) => Some(levels.z0),
        None => None,
    }
}

/// The greatest height, where there is one.
fn highest_of(levels: Option<Levels>) -> Option<i64>
    ensures { result ≡ highest_of levels }
{
    match levels {
        Some(levels) => Some(levels.z1),
        None => None,
    }
}

/// Appends a box.
fn push_box(out: &mut Vec<u8>, bounds: BoundingBox) -> Result<(), AllocError>
    ensures { OnOk result (out.new.items ≡ out.old.items ++ box_text bounds) }
{
    let plane = bounds.plane;
    out.push(b'[')?;
    push_numbers(out, plane.x0, plane.y0, lowest_of(bounds.levels))?;
    out.push(b',')?;
    push_numbers(out, plane.x1, plane.y1, highest_of(bounds.levels))?;
    out.push(b']')?;
    Ok(())
}

/// Appends a box, or null.
fn push_bounds(out: &mut Vec<u8>, bounds: Option<BoundingBox>) -> Result<(), AllocError>
    ensures { OnOk result (out.new.items ≡ out.old.items ++ bounded_text bounds) }
{
    match bounds {
        Some(bounds) => push_box(out, bounds),
        None => push_null(out),
    }
}

/// Appends the word null.
fn push_null(out: &mut Vec<u8>) -> Result<(), AllocError>
    ensures { OnOk result (out.new.items ≡ out.old.items ++ codes "null") }
{
    out.extend_from_slice(b"null")?;
    Ok(())
}

impl<'a> EditTexts for GeoJsonTexts<'a> {
    ghost text = { λ texts. geojson_edit_text texts.sheet.now texts.images.now };

    fn room(&self, edit: Edit) -> usize {
        let path = match edit.what {
            What::GeoList { path } => path,
            What::GeoRing { path } => path,
            _ => return 2 * IMAGE_ROOM,
        };
        let images = self.images.of_path(self.sheet.paths(), path);
        images.len().saturating_add(1).saturating_mul(IMAGE_ROOM)
    }

    fn push(&self, edit: Edit, out: &mut Vec<u8>) -> Result<(), AllocError> {
        match edit.what {
            What::GeoList { path } => {
                push_list::<PositionText>(out, self.images, self.sheet.paths(), path)
            }
            What::GeoRing { path } => {
                push_ring::<PositionText>(out, self.images, self.sheet.paths(), path)
            }
            What::Bounds { first, past } => push_bounds(
                out,
                bounds_of(
                    self.images,
                    between(self.sheet.paths(), first as usize, past as usize),
                ),
            ),
            What::Null => push_null(out),
            _ => Ok(()),
        }
    }
}
