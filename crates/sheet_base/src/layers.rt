//! What a format of layers is: how its bytes are read and written, and what is read back.

ghost use Rattle.std.specs.Prelude.{◌≡◌, ◌≢◌, ◌≤◌, ◌^◌, List, ℕ, length, IfOk, IsErrOf};
ghost use Rattle.sheet_base.specs.declared.edits.Edit.{Edit};
ghost use Rattle.sheet_base.specs.declared.faults.LayerFault.{LayerFault};
ghost use Rattle.sheet_base.specs.declared.faults.LayerFault.TheVariants.{NoMemory};
ghost use Rattle.sheet_base.specs.declared.flags.How.{How};
ghost use Rattle.sheet_base.specs.Sheets.{Contents};
ghost use Rattle.sheet_base.specs.ImageFits.{Runs, DoFit};
ghost use Rattle.sheet_base.specs.Splices.{AreInOrder, splice_of, DoKeep};
ghost use Rattle.sheet_base.specs.PointHeights.{Height};
ghost use Rattle.sheet_base.specs.ReadBack.{Ends, IsReadBack};
ghost use Rattle.sheet_base.specs.Outcomes.{OutcomeIsOne, OutcomeExists, MemoryIsNoFault};
ghost use Rattle.sheet_base.specs.ReadSheets.{SheetsAreOfBytes, SheetsReadBack};

use crate::{How, Images, LayerFault, Sheet};
use std::alloc::{AllocError, Global};

/// A format of layers.
pub trait Layer {
    /// The bytes are a layer of this sheet.
    ghost reads: { How → List ℕ → Contents → Type 0 };

    /// The bytes are no layer, and this is their first fault.
    ghost refuses: { How → List ℕ → LayerFault → Type 0 };

    /// The text that takes the place of an edit's bytes.
    ghost text: { List ℕ → How → Contents → Runs → Edit → List ℕ };

    /// What is written of the bytes' sheet with these images can be read back. A format may except some.
    ghost reads_back: { How → List ℕ → Contents → Runs → Type 0 };

    /// Whether heights of a segment's ends, written as the first, are read again as the second.
    ghost reads_heights: { Ends Height → Ends Height → Type 0 };

    /// The sheet of a layer, with its edits in order and apart from each other; or the layer's first
    /// fault, except where memory runs out.
    fn read(alloc: Global, bytes: &[u8], how: How) -> Result<Sheet, LayerFault>
        requires { length bytes.now ≤ 2 ^ 26 }
        ensures sheet { IfOk result (λ sheet. reads how bytes.now sheet) }
        ensures edits { IfOk result (λ sheet. AreInOrder 0 sheet.edits (length bytes.now)) }
        ensures refused { (fault : LayerFault) → IsErrOf result fault → fault ≢ NoMemory → refuses how bytes.now fault };

    /// A law: bytes are a layer of one sheet, or have one first fault, and not both.
    fn outcome_is_one()
        ensures { OutcomeIsOne reads refuses };

    /// A law: any bytes are a layer of some sheet, or have a first fault.
    fn outcome_exists()
        ensures { OutcomeExists reads refuses };

    /// A law: that memory runs out is no fault of bytes.
    fn memory_is_no_fault()
        ensures { MemoryIsNoFault refuses };

    /// A law: the paths of what is read follow each other without a gap, it has no more points than there are bytes,
    /// and its edits are in order inside the bytes. What is written of it, with images that fit it, is read back,
    /// unless the format excepts it.
    fn sheets_are_of_bytes()
        ensures sheets { SheetsAreOfBytes reads }
        ensures back { SheetsReadBack reads text reads_back reads_heights };

    /// The layer's bytes with the images in place of its points: each edit's bytes are replaced by
    /// its text, and all other bytes are kept. It is a layer again, unless the format excepts it, and its
    /// segments in order are those from image to image, with the heights of the images as the format reads them again.
    fn render(
        alloc: Global,
        bytes: &[u8],
        how: How,
        sheet: &Sheet,
        images: &Images,
    ) -> Result<Vec<u8>, AllocError>
        requires small { length bytes.now ≤ 2 ^ 26 }
        requires sheet { reads how bytes.now sheet.now }
        requires fits { DoFit sheet.now images.now }
        ensures spliced { IfOk result (λ out. out.items ≡ splice_of bytes.now (text bytes.now how sheet.now images.now) sheet.now.edits) }
        ensures rest { IfOk result (λ out. DoKeep bytes.now 0 sheet.now.edits out.items) }
        ensures back { IfOk result (λ out. reads_back how bytes.now sheet.now images.now
            → IsReadBack (reads how) reads_heights sheet.now images.now out.items) };
}
