//! A list of points with heights, as lines of three numbers.

ghost use Rattle.std.specs.Prelude.{◌≡◌, ◌+◌, ◌≤◌, ◌<◌, ◌*◌, ◌^◌, length, drop, IfOk, IsTrue, OnOk, unsigned_abs, All, ◌++◌, ◌∷◌, []};
ghost use Rattle.std.specs.List.{prefix_len};
ghost use Rattle.mm_decimal.specs.declared.limits.TheConstants.{LIMIT};
ghost use Rattle.text_places.specs.Blanks.{is_blank_byte};
ghost use Rattle.tin_height.specs.Points.{is_numeric, number_length, past_blanks, numeral_or_fault, number_at, next_number};
ghost use Rattle.tin_height.specs.PointTexts.{ArePlaced};
ghost use Rattle.tin_height.specs.Points.{is_line_end, line_end, row_at, reading, ArePointsOf};

use mm_decimal::{MmRead, NumFault, loss, read_mm};
use plane_base::Pt;
use sheet_base::{How, LayerFault, Listed};
use std::alloc::Global;
use text_places::is_blank;

/// A point of a line with its height, in millimetres, and the places, in bytes from 0, of its first number's first byte
/// and after its third number's last.
#[derive(Clone, Copy, Debug, PartialEq, Eq)]
pub struct PointRow {
    pub p: Pt,
    pub z: i64,
    pub start: u32,
    pub end: u32,
}

/// The points of a list, in order of the text, and how many of their numbers lost digits.
#[derive(Debug, Drop)]
pub struct Points {
    pub rows: Listed<PointRow>,
    pub inexact: u64,
}

/// A number of a line, and the place after it.
#[derive(Clone, Copy)]
struct Numeral {
    mm: i64,
    inexact: u64,
    end: usize,
}

/// A row, how many of its numbers lost digits, and the place of the end of its line.
#[derive(Clone, Copy)]
struct LineRow {
    row: PointRow,
    inexact: u64,
    line_end: usize,
}

/// A byte of a number.
fn is_numeric(byte: u8) -> bool
    ensures { result ≡ is_numeric byte }
{
    byte.is_ascii_digit()
        || byte == b'+'
        || byte == b'-'
        || byte == b'.'
        || byte == b'e'
        || byte == b'E'
}

/// How many bytes at the front are blanks.
fn blanks(text: &[u8]) -> usize
    ensures { result ≡ prefix_len is_blank_byte text.now }
{
    text.iter().take_while(|byte| is_blank(**byte)).count()
}

/// How many bytes at the front are those of a number.
fn numerics(text: &[u8]) -> usize
    ensures { result ≡ prefix_len is_numeric text.now }
{
    text.iter().take_while(|byte| is_numeric(**byte)).count()
}

/// The first place from `from` on whose byte is no blank; the end of the bytes where there is none.
fn past_blanks(bytes: &[u8], from: usize) -> usize
    requires { from ≤ length bytes.now }
    ensures place { result ≡ past_blanks bytes.now from }
    ensures onward { from ≤ result }
    ensures within { result ≤ length bytes.now }
{
    from + blanks(&bytes[from..])
}

/// How many bytes at the front are a number, which begins with no letter.
fn number_length(text: &[u8]) -> usize
    ensures count { result ≡ number_length text.now }
    ensures within { result ≤ length text.now }
{
    match text.first() {
        Some(byte) => {
            if byte.is_ascii_alphabetic() {
                0
            } else {
                numerics(text)
            }
        }
        None => 0,
    }
}

/// What is read of a number text, where it is accepted.
fn accept(
    how: How,
    at: u64,
    end: usize,
    answer: Result<MmRead, NumFault>,
) -> Result<Numeral, LayerFault>
    ensures { result ≡ numeral_or_fault how at end answer }
{
    match answer {
        Ok(read) => {
            if how.exact && !read.exact {
                Err(LayerFault::Inexact { at })
            } else {
                Ok(Numeral {
                    mm: read.mm,
                    inexact: loss(read),
                    end,
                })
            }
        }
        Err(fault) => Err(LayerFault::Number { at, fault }),
    }
}

/// The number that begins at this place.
fn read_number(bytes: &[u8], how: How, from: usize) -> Result<Numeral, LayerFault>
    requires { from ≤ length bytes.now }
    ensures number { result ≡ number_at how bytes.now from }
    ensures onward { IfOk result (λ numeral. from < numeral.end) }
    ensures within { IfOk result (λ numeral. numeral.end ≤ length bytes.now) }
    ensures small { IfOk result (λ numeral. numeral.inexact ≤ 1) }
    ensures reach { IfOk result (λ numeral. unsigned_abs numeral.mm ≤ LIMIT) }
{
    let at = from as u64;
    let text = &bytes[from..];
    let length = number_length(text);
    if length == 0 {
        return Err(LayerFault::Bad { at });
    }
    accept(how, at, from + length, read_mm(&text[..length]))
}

/// The next number after blanks.
fn read_next(bytes: &[u8], how: How, from: usize) -> Result<Numeral, LayerFault>
    requires { from ≤ length bytes.now }
    ensures number { result ≡ next_number how bytes.now from }
    ensures onward { IfOk result (λ numeral. from < numeral.end) }
    ensures within { IfOk result (λ numeral. numeral.end ≤ length bytes.now) }
    ensures small { IfOk result (λ numeral. numeral.inexact ≤ 1) }
    ensures reach { IfOk result (λ numeral. unsigned_abs numeral.mm ≤ LIMIT) }
{
    read_number(bytes, how, past_blanks(bytes, from))
}

/// Whether a line ends at this place.
fn ends_line(bytes: &[u8], place: usize) -> bool
    ensures { result ≡ is_line_end bytes.now place }
{
    if place < bytes.len() {
        bytes[place] == b'\n'
    } else {
        true
    }
}

/// The place of the end of a line, after blanks.
fn find_line_end(bytes: &[u8], from: usize) -> Result<usize, LayerFault>
    requires { from ≤ length bytes.now }
    ensures end { result ≡ line_end bytes.now from }
    ensures onward { IfOk result (λ end. from ≤ end) }
    ensures within { IfOk result (λ end. end ≤ length bytes.now) }
{
    let place = past_blanks(bytes, from);
    if ends_line(bytes, place) {
        Ok(place)
    } else {
        Err(LayerFault::Bad { at: place as u64 })
    }
}

/// The row of a line whose first byte that is no blank is at this place.
fn read_row(bytes: &[u8], how: How, from: usize) -> Result<LineRow, LayerFault>
    requires from { from ≤ length bytes.now }
    requires small { length bytes.now ≤ 2 ^ 26 }
    ensures row { result ≡ row_at how bytes.now from }
    ensures onward { IfOk result (λ line. from ≤ line.line_end) }
    ensures within { IfOk result (λ line. line.line_end ≤ length bytes.now) }
    ensures few { IfOk result (λ line. line.inexact ≤ 3) }
    ensures start { IfOk result (λ line. line.row.start ≡ from) }
    ensures order { IfOk result (λ line. line.row.start ≤ line.row.end) }
    ensures end { IfOk result (λ line. line.row.end ≤ line.line_end) }
    ensures reach { IfOk result (λ line. unsigned_abs line.row.z ≤ LIMIT) }
{
    let x = read_number(bytes, how, from)?;
    let y = read_next(bytes, how, x.end)?;
    let z = read_next(bytes, how, y.end)?;
    let line_end = find_line_end(bytes, z.end)?;
    Ok(LineRow {
        row: PointRow {
            p: Pt { x: x.mm, y: y.mm },
            z: z.mm,
            start: from as u32,
            end: z.end as u32,
        },
        inexact: x.inexact + y.inexact + z.inexact,
        line_end,
    })
}

/// Reads the points of lines, each ended by a line feed or by the end of the bytes. A line is blanks alone, or three
/// numbers with blanks between, before and after. The error is the first token that does not fit.
pub fn read_points(alloc: Global, bytes: &[u8], how: How) -> Result<Points, LayerFault>
    requires { length bytes.now ≤ 2 ^ 26 }
    ensures points { ArePointsOf result (reading how bytes.now) }
    ensures placed { IfOk result (λ points. ArePlaced 0 (length bytes.now) points.rows) }
    ensures heights { IfOk result (λ points. All (λ row. unsigned_abs row.z ≤ LIMIT) points.rows) }
    ensures few { IfOk result (λ points. length points.rows ≤ length bytes.now) }
{
    let mut rows = Vec::new(alloc);
    let mut inexact = 0;
    let mut from = 0;
    while from < bytes.len() {
        let first = past_blanks(bytes, from);
        if ends_line(bytes, first) {
            from = first + 1;
        } else {
            let line = read_row(bytes, how, first)?;
            rows.push(line.row)?;
            inexact += line.inexact;
            from = line.line_end + 1;
        }
    }
    Ok(Points {
        rows: Listed::of(rows),
        inexact,
    })
}
