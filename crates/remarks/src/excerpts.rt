//! What is at a place, as far as it can be shown in a line.

ghost use Rattle.std.specs.Prelude.{◌≡◌, ◌<◌, true, false, take, length};
ghost use Rattle.std.specs.List.{prefix_len};
ghost use Rattle.remarks.specs.declared.excerpts.TheConstants.{MOST_SHOWN};
ghost use Rattle.remarks.specs.Excerpts.{is_bracket_byte, is_shown_byte, excerpt_of};

use crate::line_columns::{before, from_place};

/// The most bytes that are shown of what is at a place.
pub const MOST_SHOWN: u64 = 24;

/// A law: at most 24 bytes are shown.
pub fn limits_are_stated()
    ensures shown { MOST_SHOWN ≡ 24 }
{}

/// Whether the byte is a comma or a bracket.
fn is_bracket(byte: u8) -> bool
    ensures { result ≡ is_bracket_byte byte }
{
    matches!(byte, b',' | b'(' | b')' | b'[' | b']' | b'{' | b'}')
}

/// Whether the byte is shown: a printable one that is no blank, comma or bracket.
fn is_shown(byte: u8) -> bool
    ensures { result ≡ is_shown_byte byte }
{
    byte.is_ascii_graphic() && !is_bracket(byte)
}

/// How many bytes at the front are shown.
fn shown_count(bytes: &[u8]) -> usize
    ensures { result ≡ prefix_len is_shown_byte bytes.now }
{
    bytes.iter().take_while(|byte| is_shown(**byte)).count()
}

/// What is at a place: at most `MOST_SHOWN` bytes, up to the first that is not shown.
pub(crate) fn excerpt(bytes: &[u8], at: u64) -> &str
    ensures { result.now ≡ excerpt_of bytes.now at }
{
    let front = before(from_place(bytes, at), MOST_SHOWN);
    match str::from_utf8(&front[..shown_count(front)]) {
        Ok(text) => text,
        Err(_) => "",
    }
}
