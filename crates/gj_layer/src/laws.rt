//! Laws of GeoJSON layers: bytes have one sheet or one fault, and one of the two.

ghost use Rattle.std.specs.Prelude.{◌≡◌, ℕ, List, Bool};
ghost use Rattle.sheet_base.specs.Sheets.{Contents};
ghost use Rattle.sheet_base.specs.ReadSheets.{IsSheetOf};
ghost use Rattle.sheet_base.specs.Outcomes.{HasOutcome};
ghost use Rattle.sheet_base.specs.declared.faults.LayerFault.{LayerFault};
ghost use Rattle.gj_layer.specs.Layers.{IsGeoJsonReadAs, IsGeoJsonRefusedBy};
ghost use Rattle.gj_layer.specs.Texts.{BoxesAreLeast};

/// A layer is read as one sheet, or refused by one fault.
pub fn sheet_is_one()
    ensures one { (exact : Bool) → (bytes : List ℕ) → (sheet other : Contents) → IsGeoJsonReadAs exact bytes sheet
        → IsGeoJsonReadAs exact bytes other → sheet ≡ other }
    ensures apart { (exact : Bool) → (bytes : List ℕ) → (sheet : Contents) → (fault : LayerFault)
        → IsGeoJsonReadAs exact bytes sheet → IsGeoJsonRefusedBy exact bytes fault → ⊥ }
    ensures first { (exact : Bool) → (bytes : List ℕ) → (fault other : LayerFault) → IsGeoJsonRefusedBy exact bytes fault
        → IsGeoJsonRefusedBy exact bytes other → fault ≡ other }
{}

/// Each text is a layer of some sheet, or has a fault.
pub fn text_outcome_exists()
    ensures { (exact : Bool) → (bytes : List ℕ) → HasOutcome (IsGeoJsonReadAs exact bytes) (IsGeoJsonRefusedBy exact bytes) }
{
    jtext::outcome_exists();
}

/// What is read of a text has paths that follow each other without a gap, no more points than the text has bytes, and
/// edits that are in order inside the text.
pub fn read_sheets_are_sheets()
    ensures { (exact : Bool) → (bytes : List ℕ) → (sheet : Contents) → IsGeoJsonReadAs exact bytes sheet → IsSheetOf bytes sheet }
{}

/// The box that is written of some images has on each axis the least and the greatest of their numbers.
pub fn boxes_are_least()
    ensures { BoxesAreLeast }
{}
