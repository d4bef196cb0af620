//! The format.

use crate::laws::{read_sheets_are_sheets, sheet_is_one, text_outcome_exists};
use crate::layer_documents::read;
use crate::texts::GeoJsonTexts;
use sheet_base::{How, Images, Layer, LayerFault, Sheet, splice};
use std::alloc::{AllocError, Global};

/// Layers of GeoJSON.
pub struct GeoJson;

impl Layer for GeoJson {
    ghost use Rattle.sheet_base.specs.ReadBack.{AreTheSame};
    ghost use Rattle.gj_layer.specs.Layers.{IsGeoJsonReadAs, IsGeoJsonRefusedBy};
    ghost use Rattle.gj_layer.specs.Texts.{geojson_edit_text};

    ghost reads = { λ how bytes sheet. IsGeoJsonReadAs how.exact bytes sheet };

    ghost refuses = { λ how bytes fault. IsGeoJsonRefusedBy how.exact bytes fault };

    ghost text = { λ bytes how sheet images. geojson_edit_text sheet images };

    ghost reads_back = { λ how bytes sheet images. Unit {0} };

    ghost reads_heights = { AreTheSame };

    fn read(alloc: Global, bytes: &[u8], how: How) -> Result<Sheet, LayerFault> {
        read(alloc, bytes, how.exact)
    }

    fn outcome_is_one() {
        sheet_is_one();
    }

    fn outcome_exists() {
        text_outcome_exists();
    }

    fn memory_is_no_fault() {}

    fn sheets_are_of_bytes() {
        read_sheets_are_sheets();
    }

    fn render(
        alloc: Global,
        bytes: &[u8],
        how: How,
        sheet: &Sheet,
        images: &Images,
    ) -> Result<Vec<u8>, AllocError> {
        let _ = how;
        splice(alloc, bytes, sheet.edits(), &GeoJsonTexts { sheet, images })
    }
}
