//! Words, numbers and names at the end of a text.

ghost use Rattle.std.specs.Prelude.{◌≡◌, ◌<◌, ◌^◌, ◌++◌, OnOk, IsUtf8, codes};
ghost use Rattle.text_fields.specs.Fields.{field};

use itoa::Buffer;
use std::alloc::AllocError;

/// Adds a text at the end.
pub(crate) fn put(out: &mut Vec<u8>, text: &str) -> Result<(), AllocError>
    ensures { OnOk result (out.new.items ≡ out.old.items ++ text.now) }
{
    out.extend_from_slice(text.as_bytes())?;
    Ok(())
}

/// Adds a word, and a number in digits after it.
pub(crate) fn put_long(out: &mut Vec<u8>, word: &str, number: u64) -> Result<(), AllocError>
    ensures text { OnOk result (out.new.items ≡ out.old.items ++ field word.now number) }
    ensures fits { number < 2 ^ 64 }
{
    let mut digits = Buffer::new();
    put(out, word)?;
    put(out, digits.format(number))?;
    Ok(())
}

/// Adds a word, and a number of 32 bits in digits after it.
pub(crate) fn put_short(out: &mut Vec<u8>, word: &str, number: u32) -> Result<(), AllocError>
    ensures text { OnOk result (out.new.items ≡ out.old.items ++ field word.now number) }
    ensures fits { number < 2 ^ 32 }
{
    put_long(out, word, u64::from(number))
}

/// Adds a name with its word.
pub(crate) fn put_name(out: &mut Vec<u8>, name: &str) -> Result<(), AllocError>
    ensures text { OnOk result (out.new.items ≡ out.old.items ++ (codes " name " ++ name.now)) }
    ensures utf8 { IsUtf8 name.now }
{
    put(out, " name ")?;
    put(out, name)?;
    Ok(())
}
