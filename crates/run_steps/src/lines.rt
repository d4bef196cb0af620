//! One line of a terminal that is written again, and a text for it.

ghost use Rattle.std.specs.Prelude.{◌≡◌, ◌++◌, decimal, string_bytes, IfOk, IfSome, IsNone, IsOk, OnOk};
ghost use Rattle.run_steps.specs.Heard.{IsHeard};
ghost use Rattle.run_steps.specs.Lines.{line_of, making_text_of};

use std::alloc::{AllocError, Global};
use std::fmt;
use std::fmt::Display;
use std::io::Write;

/// What brings a terminal back to the beginning of a line, and clears it.
pub(crate) const CLEAR: &str = "\r\u{1b}[K";

/// Writes a text after what is there, where it is heard.
pub(crate) fn put<W: Write + Drop, D: Display + Drop>(to: &mut Option<W>, text: D) -> fmt::Result
    ensures heard { OnOk result (IfSome (D.output text) (IsHeard W.contents to.old to.new)) }
    ensures unheard { IsNone to.old → IsOk result }
{
    match to {
        Some(to) => match to.write_fmt(text) {
            Ok(()) => Ok(()),
            Err(_) => Err(fmt::Error),
        },
        None => Ok(()),
    }
}

/// Writes a line in place of the one at hand, with the program's name before the text, where it is heard. After an
/// error a first part of it may be written.
pub fn say_line<W: Write + Drop>(to: &mut Option<W>, text: &str) -> fmt::Result
    ensures heard { OnOk result (IsHeard W.contents to.old to.new (line_of text.now)) }
    ensures unheard { IsNone to.old → IsOk result }
{
    put(to, format_args!("{CLEAR}tinmove: {text}"))
}

/// Puts a text and a number in digits after what is there.
fn put_number(text: &mut String, before: &str, number: u32) -> Result<(), AllocError>
    ensures { OnOk result (string_bytes text.new ≡ string_bytes text.old ++ before.now ++ decimal number) }
{
    write!(text, "{before}{number}")
}

/// What a line says of a map of `n` by `n` cells that is made and carried. The one error is that memory runs out.
pub fn making_text(alloc: Global, n: u32) -> Result<String, AllocError>
    ensures { IfOk result (λ text. string_bytes text ≡ making_text_of n) }
{
    let mut text = String::new(alloc);
    put_number(&mut text, "making and carrying a map of ", n)?;
    put_number(&mut text, " by ", n)?;
    text.push_str(" cells")?;
    Ok(text)
}
