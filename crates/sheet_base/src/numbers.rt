//! Millimetres written as metres.

ghost use Rattle.std.specs.Prelude.{◌≡◌, ◌++◌, OnOk};
ghost use Rattle.mm_decimal.specs.MetresTexts.{mm_text};

use mm_decimal::write_mm;
use std::alloc::AllocError;

/// Appends a number of millimetres as metres.
pub fn push_mm(out: &mut Vec<u8>, mm: i64) -> Result<(), AllocError>
    ensures { OnOk result (out.new.items ≡ out.old.items ++ mm_text mm) }
{
    let mut digits = [0; 24];
    let count = write_mm(mm, &mut digits);
    out.extend_from_slice(&digits[..count])?;
    Ok(())
}
