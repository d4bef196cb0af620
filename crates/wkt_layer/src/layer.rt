//! The format.

use crate::laws::{fault_is_one, read_sheets_are_sheets, sheet_is_one, text_outcome_exists};
use crate::lines::read;
use crate::texts::WktTexts;
use sheet_base::{How, Images, Layer, LayerFault, Sheet, splice};
use std::alloc::{AllocError, Global};

/// Layers of well-known text: each line is one geometry, or blanks alone.
pub struct Wkt;

impl Layer for Wkt {
    ghost use Rattle.sheet_base.specs.ReadBack.{AreTheSame};
    ghost use Rattle.wkt_layer.specs.Layers.{IsWktReadAs, IsWktRefusedBy};
    ghost use Rattle.wkt_layer.specs.Texts.{wkt_edit_text};

    ghost reads = { λ how bytes sheet. IsWktReadAs how.exact bytes sheet };

    ghost refuses = { λ how bytes fault. IsWktRefusedBy how.exact bytes fault };

    ghost text = { λ bytes how sheet images. wkt_edit_text sheet images };

    ghost reads_back = { λ how bytes sheet images. Unit {0} };

    ghost reads_heights = { AreTheSame };

    fn read(alloc: Global, bytes: &[u8], how: How) -> Result<Sheet, LayerFault> {
        read(alloc, bytes, how.exact)
    }

    fn outcome_is_one() {
        sheet_is_one();
        fault_is_one();
    }

    fn outcome_exists() {
        text_outcome_exists();
    }

    fn memory_is_no_fault() {}

    fn sheets_are_of_bytes() {
        read_sheets_are_sheets();
    }

    fn render(
        alloc: Global,
        bytes: &[u8],
        how: How,
        sheet: &Sheet,
        images: &Images,
    ) -> Result<Vec<u8>, AllocError> {
        let _ = how;
        splice(alloc, bytes, sheet.edits(), &WktTexts { sheet, images })
    }
}
