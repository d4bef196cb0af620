//! The texts that take the place of edits.

ghost use Rattle.std.specs.Prelude.{◌≡◌, ◌∷◌, ◌++◌, OnOk};
ghost use Rattle.mm_decimal.specs.MetresTexts.{mm_text};
ghost use Rattle.wkt_layer.specs.Texts.{height_text, wkt_edit_text};

use plane_base::Pt;
use sheet_base::{Edit, EditTexts, ImageText, Images, Sheet, What, push_list, push_mm, push_ring};
use std::alloc::AllocError;

/// No image without a height is longer, in bytes, with the comma and the spaces between two.
const IMAGE_ROOM: usize = 52;

/// The images of a layer, as texts.
#[derive(Clone, Copy)]
pub struct WktTexts<'a> {
    pub sheet: &'a Sheet,
    pub images: &'a Images,
}

/// Points of well-known text.
struct PointText;

/// Appends two numbers with a space between them.
fn push_point(out: &mut Vec<u8>, point: Pt) -> Result<(), AllocError>
    ensures { OnOk result (out.new.items ≡ out.old.items ++ (mm_text point.x ++ (32 ∷ mm_text point.y))) }
{
    push_mm(out, point.x)?;
    out.push(b' ')?;
    push_mm(out, point.y)?;
    Ok(())
}

/// Appends a space and the height, where there is one.
fn push_height(out: &mut Vec<u8>, height: Option<i64>) -> Result<(), AllocError>
    ensures { OnOk result (out.new.items ≡ out.old.items ++ height_text height) }
{
    if let Some(height) = height {
        out.push(b' ')?;
        push_mm(out, height)?;
    }
    Ok(())
}

impl ImageText for PointText {
    ghost use Rattle.std.specs.Prelude.{codes};
    ghost use Rattle.wkt_layer.specs.Texts.{image_text};

    ghost separator = { codes ", " };

    ghost text = { image_text };

    fn push_separator(out: &mut Vec<u8>) -> Result<(), AllocError> {
        out.extend_from_slice(b", ")?;
        Ok(())
    }

    fn push_image(out: &mut Vec<u8>, image: Pt, height: Option<i64>) -> Result<(), AllocError> {
        push_point(out, image)?;
        push_height(out, height)?;
        Ok(())
    }
}

impl<'a> EditTexts for WktTexts<'a> {
    ghost text = { λ texts. wkt_edit_text texts.sheet.now texts.images.now };

    fn room(&self, edit: Edit) -> usize {
        let path = match edit.what {
            What::WktList { path } => path,
            What::WktRing { path } => path,
            _ => return 0,
        };
        let images = self.images.of_path(self.sheet.paths(), path);
        images.len().saturating_add(1).saturating_mul(IMAGE_ROOM)
    }

    fn push(&self, edit: Edit, out: &mut Vec<u8>) -> Result<(), AllocError> {
        match edit.what {
            What::WktList { path } => {
                push_list::<PointText>(out, self.images, self.sheet.paths(), path)
            }
            What::WktRing { path } => {
                push_ring::<PointText>(out, self.images, self.sheet.paths(), path)
            }
            _ => Ok(()),
        }
    }
}
