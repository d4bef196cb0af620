//! Laws of layers of well-known text: bytes have one sheet or one first fault, and one of the two.

ghost use Rattle.std.specs.Prelude.{◌≡◌, ℕ, List, Bool};
ghost use Rattle.sheet_base.specs.Sheets.{Contents};
ghost use Rattle.sheet_base.specs.ReadSheets.{IsSheetOf};
ghost use Rattle.sheet_base.specs.Outcomes.{HasOutcome};
ghost use Rattle.sheet_base.specs.declared.faults.LayerFault.{LayerFault};
ghost use Rattle.wkt_layer.specs.declared.limits.TheConstants.{DEEPEST, LINE_FEED};
ghost use Rattle.wkt_layer.specs.Layers.{IsWktReadAs, IsWktRefusedBy};

/// A layer is read as one sheet, and none that is read is refused.
pub fn sheet_is_one()
    ensures one { (exact : Bool) → (bytes : List ℕ) → (sheet other : Contents) → IsWktReadAs exact bytes sheet
        → IsWktReadAs exact bytes other → sheet ≡ other }
    ensures apart { (exact : Bool) → (bytes : List ℕ) → (sheet : Contents) → (fault : LayerFault)
        → IsWktReadAs exact bytes sheet → IsWktRefusedBy exact bytes fault → ⊥ }
{}

/// A layer that is refused has one first fault.
pub fn fault_is_one()
    ensures { (exact : Bool) → (bytes : List ℕ) → (fault other : LayerFault) → IsWktRefusedBy exact bytes fault
        → IsWktRefusedBy exact bytes other → fault ≡ other }
{}

/// Each text is a layer of some sheet, or has a first fault.
pub fn text_outcome_exists()
    ensures { (exact : Bool) → (bytes : List ℕ) → HasOutcome (IsWktReadAs exact bytes) (IsWktRefusedBy exact bytes) }
{}

/// What is read of a text has paths that follow each other without a gap, no more points than the text has bytes, and
/// edits that are in order inside the text.
pub fn read_sheets_are_sheets()
    ensures { (exact : Bool) → (bytes : List ℕ) → (sheet : Contents) → IsWktReadAs exact bytes sheet → IsSheetOf bytes sheet }
{}

/// Laws: collections nest at most so deep, and a line ends with this byte.
pub fn limits_are_stated()
    ensures deepest { DEEPEST ≡ 64 }
    ensures line_feed { LINE_FEED ≡ 10 }
{}
