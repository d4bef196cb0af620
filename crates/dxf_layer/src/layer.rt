//! The format.

use crate::drawing_texts::read_drawing;
use crate::laws::{drawings_read_back, read_sheets_are_sheets};
use crate::rendering::render_drawing;
use sheet_base::{How, Images, Layer, LayerFault, Sheet};
use std::alloc::{AllocError, Global};

/// Layers in ASCII DXF: points, inserts, texts, lines and polylines of the sections ENTITIES.
pub struct Dxf;

impl Layer for Dxf {
    ghost use Rattle.std.specs.Prelude.{◌≡◌, Ok, Err};
    ghost use Rattle.dxf_layer.specs.Drawings.{drawing_sheet};
    ghost use Rattle.dxf_layer.specs.ReadBack.{DoesReadBack};
    ghost use Rattle.dxf_copies.specs.LevelEnds.{AreReadAgain};
    ghost use Rattle.dxf_copies.specs.Rendering.{drawing_text};

    ghost reads = { λ how bytes sheet. drawing_sheet how bytes ≡ Ok sheet };

    ghost refuses = { λ how bytes fault. drawing_sheet how bytes ≡ Err fault };

    ghost text = { λ bytes how sheet images. drawing_text bytes sheet images };

    ghost reads_back = { λ how bytes sheet images. DoesReadBack how bytes sheet images };

    ghost reads_heights = { AreReadAgain };

    fn read(alloc: Global, bytes: &[u8], how: How) -> Result<Sheet, LayerFault> {
        read_drawing(alloc, bytes, how)
    }

    fn outcome_is_one() {}

    fn outcome_exists() {}

    fn memory_is_no_fault() {}

    fn sheets_are_of_bytes() {
        read_sheets_are_sheets();
        drawings_read_back();
    }

    fn render(
        alloc: Global,
        bytes: &[u8],
        how: How,
        sheet: &Sheet,
        images: &Images,
    ) -> Result<Vec<u8>, AllocError> {
        drawings_read_back();
        render_drawing(alloc, bytes, how, sheet, images)
    }
}
