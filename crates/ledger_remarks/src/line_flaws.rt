//! What is wrong with a line of a script that has none of the forms.

ghost use Rattle.std.specs.Prelude.{◌≡◌, ◌≤◌, ◌<◌, ◌+◌, ◌^◌, length, IfSome};

use memchr::memchr;
use std::str::from_utf8;
use text_fields::{after, short_at};

/// What is wrong with a line.
#[derive(Clone, Copy, Debug, PartialEq, Eq)]
pub enum LineFlaw {
    /// It begins with a byte order mark.
    ByteOrderMark,
    /// It ends with a carriage return.
    CarriageReturn,
    /// It has a tab or another control character.
    Control,
    /// Two spaces are in a row, or one is at an end.
    Space,
    /// It is no UTF-8.
    Utf8,
    /// Its first word is none of a line.
    Word,
    /// A run or a place is no number.
    Number,
    /// What is decided is neither `kept` nor `mended`.
    Mark,
    /// It ends too early.
    Missing,
    /// It goes on after its last field.
    Further,
}

/// A flaw, the column of the byte at which it begins, from 1, and the field there, or nothing where none is shown.
#[derive(Clone, Copy)]
pub struct Finding<'a> {
    pub flaw: LineFlaw,
    pub column: usize,
    pub found: &'a str,
}

// The first field of a text, and what comes after the space that ends it, where there is one.
fn first_field(text: &[u8]) -> (&[u8], Option<&[u8]>)
    ensures rest { IfSome result.1 (λ rest. length rest.now < length text.now) }
{
    match memchr(b' ', text) {
        Some(end) => (&text[..end], Some(&text[end + 1..])),
        None => (text, None),
    }
}

// Whether a field is a number of 32 bits in digits without leading zeros.
fn is_number(field: &[u8]) -> bool {
    match short_at(field, b"") {
        Some((_, rest)) => rest.is_empty(),
        None => false,
    }
}

// Where the space is that begins a text, ends it, or follows another one.
fn spare_space(text: &[u8]) -> Option<usize>
    ensures { IfSome result (λ at. at ≤ length text.now) }
{
    match text {
        [b' ', ..] => return Some(0),
        [.., b' '] => return Some(text.len() - 1),
        _ => {}
    }
    text.windows(2).position(|pair| pair == b"  ".as_slice())
}

// Where the first control character is.
fn control(text: &[u8]) -> Option<usize>
    ensures { IfSome result (λ at. at ≤ length text.now) }
{
    text.iter().position(|byte| *byte < 32)
}

// What is wrong with what follows a run alone, and the rest of the text from there on.
fn flaw_behind_run(text: &[u8]) -> (LineFlaw, &[u8])
    ensures { length result.1.now ≤ length text.now }
{
    match first_field(text) {
        (run, _) if !is_number(run) => (LineFlaw::Number, text),
        (_, Some(rest)) => (LineFlaw::Further, rest),
        (_, None) => (LineFlaw::Missing, &[]),
    }
}

// What is wrong with the mark of a decision, and the rest of the text from there on.
fn flaw_of_mark(text: &[u8]) -> (LineFlaw, &[u8])
    ensures { length result.1.now ≤ length text.now }
{
    match first_field(text) {
        (b"kept" | b"mended", Some(rest)) => (LineFlaw::Further, rest),
        _ => (LineFlaw::Mark, text),
    }
}

// What is wrong with a decision after its run, and the rest of the text from there on.
fn flaw_behind_place(text: &[u8]) -> (LineFlaw, &[u8])
    ensures { length result.1.now ≤ length text.now }
{
    match first_field(text) {
        (place, _) if !is_number(place) => (LineFlaw::Number, text),
        (_, Some(rest)) => flaw_of_mark(rest),
        (_, None) => (LineFlaw::Missing, &[]),
    }
}

// What is wrong with a decision, and the rest of the text from there on.
fn flaw_of_decision(text: &[u8]) -> (LineFlaw, &[u8])
    ensures { length result.1.now ≤ length text.now }
{
    match first_field(text) {
        (run, _) if !is_number(run) => (LineFlaw::Number, text),
        (_, Some(rest)) => flaw_behind_place(rest),
        (_, None) => (LineFlaw::Missing, &[]),
    }
}

// What is wrong with the fields of a line, and the rest of the line from there on.
fn flaw_of_fields(line: &[u8]) -> (LineFlaw, &[u8])
    ensures { length result.1.now ≤ length line.now }
{
    match first_field(line) {
        (b"decide", Some(rest)) => flaw_of_decision(rest),
        (b"list" | b"clear", Some(rest)) => flaw_behind_run(rest),
        (b"enter" | b"decide" | b"list" | b"clear", None) => (LineFlaw::Missing, &[]),
        _ => (LineFlaw::Word, line),
    }
}

// The first field of a text, or nothing where there is none.
fn shown_field(text: &[u8]) -> &str {
    let (field, _) = first_field(text);
    match from_utf8(field) {
        Ok(shown) => shown,
        Err(_) => "",
    }
}

// A flaw after this many bytes, shown without a field.
fn bare(flaw: LineFlaw, at: usize) -> Finding<'static>
    requires { at < 2 ^ 63 }
    ensures { result.column ≡ at + 1 }
{
    Finding {
        flaw,
        column: at + 1,
        found: "",
    }
}

/// What is wrong with a line that has none of the forms of a script's lines.
pub fn finding_of(line: &[u8]) -> Finding<'_>
    ensures first { 0 < result.column }
    ensures last { result.column ≤ length line.now + 1 }
{
    if after(line, b"\xef\xbb\xbf").is_some() {
        return bare(LineFlaw::ByteOrderMark, 0);
    }
    if let [.., b'\r'] = line {
        return bare(LineFlaw::CarriageReturn, line.len() - 1);
    }
    if let Some(at) = control(line) {
        return bare(LineFlaw::Control, at);
    }
    if let Some(at) = spare_space(line) {
        return bare(LineFlaw::Space, at);
    }
    if let Err(error) = from_utf8(line) {
        return bare(LineFlaw::Utf8, error.valid_up_to());
    }
    let (flaw, rest) = flaw_of_fields(line);
    Finding {
        flaw,
        column: line.len() - rest.len() + 1,
        found: shown_field(rest),
    }
}
