//! Parts of the text: numbers and names. Where one does not fit, the text has too little room for it.

ghost use Rattle.std.specs.Prelude.{◌≡◌, ◌<◌, ◌≤◌, ◌+◌, ◌++◌, OnOk, OnErr, length, vec_len, vec_capacity, decimal, Option};
ghost use Rattle.change_places.specs.PlacesText.{escaped_byte, name_text, quoted_text, shown_text, comma_text, names_text};
ghost use Rattle.change_places.specs.PlacesText.{at_text};

use crate::limits::MOST_NAMED;
use itoa::Buffer;
use shelf_io::Name;
use std::alloc::AllocError;

/// Adds a text at the end.
pub(crate) fn put(out: &mut Vec<u8>, text: &str) -> Result<(), AllocError>
    ensures text { OnOk result (out.new.items ≡ out.old.items ++ text.now) }
    ensures capacity { vec_capacity out.old ≤ vec_capacity out.new }
    ensures full { OnErr result (vec_capacity out.old < vec_len out.old + length (text.now)) }
{
    out.extend_from_slice(text.as_bytes())?;
    Ok(())
}

/// Adds bytes at the end.
pub(crate) fn put_bytes(out: &mut Vec<u8>, text: &[u8]) -> Result<(), AllocError>
    ensures text { OnOk result (out.new.items ≡ out.old.items ++ text.now) }
    ensures capacity { vec_capacity out.old ≤ vec_capacity out.new }
    ensures full { OnErr result (vec_capacity out.old < vec_len out.old + length (text.now)) }
{
    out.extend_from_slice(text)?;
    Ok(())
}

/// Adds a number in digits.
pub(crate) fn put_number(out: &mut Vec<u8>, number: u64) -> Result<(), AllocError>
    ensures text { OnOk result (out.new.items ≡ out.old.items ++ decimal number) }
    ensures capacity { vec_capacity out.old ≤ vec_capacity out.new }
    ensures full { OnErr result (vec_capacity out.old < vec_len out.old + length (decimal number)) }
{
    let mut digits = Buffer::new();
    put(out, digits.format(number))?;
    Ok(())
}

// Adds a byte of a name, after a reverse solidus where it needs one.
fn put_byte(out: &mut Vec<u8>, byte: u8) -> Result<(), AllocError>
    ensures text { OnOk result (out.new.items ≡ out.old.items ++ escaped_byte byte) }
    ensures capacity { vec_capacity out.old ≤ vec_capacity out.new }
    ensures full { OnErr result (vec_capacity out.old < vec_len out.old + length (escaped_byte byte)) }
{
    if byte == b'"' || byte == b'\\' {
        out.push(b'\\')?;
    }
    out.push(byte)?;
    Ok(())
}

// Adds a name as it is between quotation marks.
fn put_name(out: &mut Vec<u8>, name: &str) -> Result<(), AllocError>
    ensures text { OnOk result (out.new.items ≡ out.old.items ++ name_text name.now) }
    ensures capacity { vec_capacity out.old ≤ vec_capacity out.new }
    ensures full { OnErr result (vec_capacity out.old < vec_len out.old + length (name_text name.now)) }
{
    for byte in name.as_bytes() {
        put_byte(out, *byte)?;
    }
    Ok(())
}

// Adds a name between quotation marks.
fn put_quoted(out: &mut Vec<u8>, name: &str) -> Result<(), AllocError>
    ensures text { OnOk result (out.new.items ≡ out.old.items ++ quoted_text name.now) }
    ensures capacity { vec_capacity out.old ≤ vec_capacity out.new }
    ensures full { OnErr result (vec_capacity out.old < vec_len out.old + length (quoted_text name.now)) }
{
    put(out, "\"")?;
    put_name(out, name)?;
    put(out, "\"")?;
    Ok(())
}

/// Adds a layer's name in a feature.
pub(crate) fn put_shown(out: &mut Vec<u8>, name: &str) -> Result<(), AllocError>
    ensures text { OnOk result (out.new.items ≡ out.old.items ++ shown_text name.now) }
    ensures capacity { vec_capacity out.old ≤ vec_capacity out.new }
    ensures full { OnErr result (vec_capacity out.old < vec_len out.old + length (shown_text name.now)) }
{
    if name.len() > MOST_NAMED {
        put(out, "null")?;
    } else {
        put_quoted(out, name)?;
    }
    Ok(())
}

// The mark before the name of this number.
fn comma(number: u64) -> &'static str
    ensures { result.now ≡ comma_text number }
{
    if number == 0 { "" } else { "," }
}

/// Adds the names of layers, numbered from 0.
pub(crate) fn put_names(out: &mut Vec<u8>, names: &[Name]) -> Result<(), AllocError>
    ensures text { OnOk result (out.new.items ≡ out.old.items ++ names_text 0 names.now) }
    ensures capacity { vec_capacity out.old ≤ vec_capacity out.new }
    ensures full { OnErr result (vec_capacity out.old < vec_len out.old + length (names_text 0 names.now)) }
{
    for (number, name) in names.iter().enumerate() {
        put(out, comma(number as u64))?;
        put_quoted(out, name.text())?;
    }
    Ok(())
}

/// Adds a place in a layer's text.
pub(crate) fn put_at(out: &mut Vec<u8>, at: Option<u32>) -> Result<(), AllocError>
    ensures text { OnOk result (out.new.items ≡ out.old.items ++ at_text at) }
    ensures capacity { vec_capacity out.old ≤ vec_capacity out.new }
    ensures full { OnErr result (vec_capacity out.old < vec_len out.old + length (at_text at)) }
{
    match at {
        Some(at) => put_number(out, u64::from(at))?,
        None => put(out, "null")?,
    }
    Ok(())
}
