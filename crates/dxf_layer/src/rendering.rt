//! The bytes of a carried drawing.

ghost use Rattle.std.specs.Prelude.{◌≡◌, ◌≤◌, ◌^◌, length, Ok, IfOk};
ghost use Rattle.sheet_base.specs.ImageFits.{DoFit};
ghost use Rattle.sheet_base.specs.Splices.{splice_of, DoKeep};
ghost use Rattle.dxf_layer.specs.Drawings.{drawing_sheet};
ghost use Rattle.dxf_copies.specs.Rendering.{drawing_text};

use dxf_copies::{Page, render_page};
use dxf_pairs::read_pairs;
use sheet_base::{How, Images, Sheet};
use std::alloc::{AllocError, Global};

/// The drawing's bytes with the images in place of its points.
pub fn render_drawing(
    alloc: Global,
    bytes: &[u8],
    how: How,
    sheet: &Sheet,
    images: &Images,
) -> Result<Vec<u8>, AllocError>
    requires small { length bytes.now ≤ 2 ^ 26 }
    requires sheet { drawing_sheet how bytes.now ≡ Ok sheet.now }
    requires fits { DoFit sheet.now images.now }
    ensures spliced { IfOk result (λ out. out.items ≡ splice_of bytes.now (drawing_text bytes.now sheet.now images.now) sheet.now.edits) }
    ensures rest { IfOk result (λ out. DoKeep bytes.now 0 sheet.now.edits out.items) }
{
    let _ = how;
    match read_pairs(alloc, bytes) {
        Ok(pairs) => {
            let page = Page {
                bytes,
                pairs: &pairs,
                sheet,
                images,
            };
            render_page(alloc, &page)
        }
        Err(_) => Err(AllocError),
    }
}
