//! One character, as it is shown.

ghost use Rattle.std.specs.Prelude.{◌≡◌, ◌<◌, ◌∷◌, []};
ghost use Rattle.std.specs.Char.{digit_char};
ghost use Rattle.std.specs.Fmt.{WritesOnOk};
ghost use Rattle.shown_text.specs.Characters.{is_order, escape_of, shown_character, size_of};

use std::fmt;
use std::fmt::Formatter;

/// Whether the character is an order to a terminal or to the line that it is in. Such are control characters,
/// separators of lines or paragraphs, and marks, overrides or isolates of the direction of text (Unicode Standard
/// Annex 9).
fn is_order(character: char) -> bool
    ensures { result ≡ is_order character }
{
    matches!(
        character as u32,
        0..=31 | 127..=159 | 0x61c | 0x200e..=0x200f | 0x2028..=0x202e | 0x2066..=0x2069
    )
}

/// How many bytes the character takes as it is shown.
pub(crate) fn shown_size(character: char) -> u64
    ensures { result ≡ size_of character }
{
    if !is_order(character) {
        return character.len_utf8() as u64;
    }
    if (character as u32) < 256 { 4 } else { 6 }
}

/// Writes a digit of base 16.
fn write_digit<W: fmt::Write>(f: &mut Formatter<W>, digit: u32) -> fmt::Result
    requires { digit < 16 }
    ensures { WritesOnOk W.write_str_gives f.old result (digit_char digit ∷ []) f.new }
{
    f.write_char(char::from_digit(digit, 16).unwrap_or('0'))
}

/// Writes the escape of an order.
fn write_escape<W: fmt::Write>(f: &mut Formatter<W>, code: u32) -> fmt::Result
    requires { code < 65536 }
    ensures { WritesOnOk W.write_str_gives f.old result (escape_of code) f.new }
{
    if code < 256 {
        f.write_str("\\x")?;
    } else {
        f.write_str("\\u")?;
        write_digit(f, code / 4096)?;
        write_digit(f, code / 256 % 16)?;
    }
    write_digit(f, code / 16 % 16)?;
    write_digit(f, code % 16)
}

/// Writes the character as it is shown: an order as its escape, any other as it is.
pub(crate) fn write_character<W: fmt::Write>(f: &mut Formatter<W>, character: char) -> fmt::Result
    ensures { WritesOnOk W.write_str_gives f.old result (shown_character character) f.new }
{
    if is_order(character) {
        write_escape(f, character as u32)
    } else {
        f.write_char(character)
    }
}
