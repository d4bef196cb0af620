//! A whole text, as it is shown.

ghost use Rattle.std.specs.Prelude.{◌≡◌, ◌++◌, OnOk, Some, string_bytes};
ghost use Rattle.std.specs.Fmt.{WritesOnOk};
ghost use Rattle.shown_text.specs.Texts.{shown_of};

use crate::characters::{shown_size, write_character};
use std::alloc::AllocError;
use std::fmt;
use std::fmt::{Display, Formatter, Write};

/// The most bytes that are shown of one text.
pub const MOST_SHOWN: u64 = 200;

/// A text of somebody else's. It is displayed as it is shown: each order as an escape, as `\x1b` or `\u202e`, any other
/// character as it is, and at most `MOST_SHOWN` bytes of it, and two dots where there is more.
#[derive(Clone, Copy)]
pub struct Shown<'a> {
    pub text: &'a str,
}

/// Writes the text as it is shown.
fn write_shown<W: fmt::Write>(f: &mut Formatter<W>, text: &str) -> fmt::Result
    ensures { WritesOnOk W.write_str_gives f.old result (shown_of text.now) f.new }
{
    let mut room = MOST_SHOWN;
    for character in text.chars() {
        let size = shown_size(character);
        if room < size {
            return f.write_str("..");
        }
        write_character(f, character)?;
        room -= size;
    }
    Ok(())
}

impl Display for Shown<'_> {
    ghost output = { λ shown. Some (shown_of shown.text.now) };

    fn fmt<W: fmt::Write>(&self, f: &mut Formatter<W>) -> fmt::Result {
        write_shown(f, self.text)
    }
}

/// Puts a text of somebody else's after another, as it is shown.
pub fn put_shown(text: &mut String, foreign: &str) -> Result<(), AllocError>
    ensures { OnOk result (string_bytes text.new ≡ string_bytes text.old ++ shown_of foreign.now) }
{
    let shown = Shown { text: foreign };
    write!(text, "{shown}")
}
