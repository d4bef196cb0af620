//! Reading the pairs of a drawing.

ghost use Rattle.std.specs.Prelude.{◌≡◌, ◌≤◌, ◌<◌, ◌+◌, ◌^◌, ◌∷◌, ℕ, length, IfOk, IfErr, Ok, Err, All, map};
ghost use Rattle.std.specs.List.{prefix_len};
ghost use Rattle.dxf_pairs.specs.Lines.{lines, lines_from, line_at, between};
ghost use Rattle.text_places.specs.Blanks.{is_blank_byte};
ghost use Rattle.dxf_pairs.specs.Values.{value_of};
ghost use Rattle.dxf_pairs.specs.Codes.{code_of};
ghost use Rattle.dxf_pairs.specs.Pairs.{reading, first_pair, ends_drawing, drawing, Stops};
ghost use Rattle.dxf_pairs.specs.Groups.{value_in, group_in, groups_of};
ghost use Rattle.dxf_pairs.specs.Laws.{Tile, IsWithin};

use crate::blanks::value_in_line;
use crate::codes::code_in;
use crate::faults::PairFault;
use crate::line_ends::{LineEnds, line_from};
use crate::pairs::Pair;
use crate::plain_codes::short_code;
use std::alloc::Global;

/// What the binary form of a drawing begins with.
pub const BINARY: &[u8] = b"AutoCAD Binary DXF";

/// The value under the group code 0 that ends a drawing.
pub const LAST_VALUE: &[u8] = b"EOF";

/// The fewest bytes of a usual pair: room for as many pairs as there can be of these is reserved.
const USUAL_PAIR: usize = 12;

/// Where the value of a line starts, and the place past it.
#[inline(always)]
fn value_places(bytes: &[u8], line: LineEnds) -> (usize, usize)
    requires order { line.start ≤ line.end }
    requires within { line.end ≤ length bytes.now }
    ensures value { between result.0 result.1 bytes.now ≡ value_of (between line.start line.end bytes.now) }
    ensures start { result.0 ≡ line.start + prefix_len is_blank_byte (between line.start line.end bytes.now) }
    ensures end { result.1 ≡ result.0 + length (value_of (between line.start line.end bytes.now)) }
    ensures within { result.1 ≤ line.end }
{
    let (before, length) = value_in_line(&bytes[line.start..line.end]);
    let start = line.start + before;
    (start, start + length)
}

/// The line that starts at a place before the end of the bytes, and its group code, where it has one.
#[inline(always)]
fn code_line(bytes: &[u8], start: usize) -> (LineEnds, Option<i32>)
    requires { start < length bytes.now }
    ensures first { (number : ℕ) → lines_from bytes.now start number
        ≡ line_at bytes.now result.0 number ∷ lines_from bytes.now result.0.past (number + 1) }
    ensures start { result.0.start ≡ start }
    ensures forward { start < result.0.past }
    ensures within { result.0.past ≤ length bytes.now }
    ensures code { result.1 ≡ code_of (between start result.0.end bytes.now) }
{
    if let Some(plain) = short_code(&bytes[start..]) {
        let end = start + plain.end;
        let past = end + 1;
        return (LineEnds { start, end, past }, Some(plain.code));
    }
    let line = line_from(bytes, start);
    let text = &bytes[start..line.end];
    let (before, length) = value_in_line(text);
    (line, code_in(&text[before..before + length]))
}

/// The pair whose code's line starts at the place and has the number.
#[inline(always)]
fn read_pair(bytes: &[u8], start: usize, line: u64) -> Result<Pair, PairFault>
    requires within { start < length bytes.now }
    requires few { length bytes.now < 2 ^ 32 }
    requires numbered { line ≤ start + 1 }
    ensures ok { IfOk result (λ pair. reading (lines_from bytes.now start line)
        ≡ first_pair pair (ends_drawing pair.code (value_in bytes.now pair)) (reading (lines_from bytes.now pair.end (line + 2)))) }
    ensures err { IfErr result (λ fault. reading (lines_from bytes.now start line) ≡ Err fault) }
    ensures forward { IfOk result (λ pair. start + 2 ≤ pair.end) }
    ensures order { IfOk result (λ pair. pair.value ≤ pair.value_end) }
    ensures value { IfOk result (λ pair. pair.value_end ≤ pair.end) }
    ensures within { IfOk result (λ pair. pair.end ≤ length bytes.now) }
{
    let (first, code) = code_line(bytes, start);
    let Some(code) = code else {
        return Err(PairFault::Code { line });
    };
    if first.past == bytes.len() {
        return Err(PairFault::Odd { line });
    }
    let second = line_from(bytes, first.past);
    let (value, value_end) = value_places(bytes, second);
    Ok(Pair {
        code,
        start: start as u32,
        value: value as u32,
        value_end: value_end as u32,
        end: second.past as u32,
        line: line as u32,
    })
}

/// Whether the pair ends a drawing.
fn is_last(bytes: &[u8], pair: &Pair) -> bool
    requires order { pair.now.value ≤ pair.now.value_end }
    requires within { pair.now.value_end ≤ length bytes.now }
    ensures { result ≡ ends_drawing pair.now.code (value_in bytes.now pair.now) }
{
    pair.code == 0 && &bytes[pair.value as usize..pair.value_end as usize] == LAST_VALUE
}

/// The pairs of the lines of the bytes, up to the one that ends a drawing.
fn read_lines(alloc: Global, bytes: &[u8]) -> Result<Vec<Pair>, PairFault>
    requires { length bytes.now < 2 ^ 32 }
    ensures ok { IfOk result (λ pairs. reading (lines bytes.now) ≡ Ok pairs.items) }
    ensures err { IfErr result (λ fault. Stops (reading (lines bytes.now)) fault) }
{
    let mut pairs = Vec::with_capacity(alloc, bytes.len() / USUAL_PAIR)?;
    let mut start = 0;
    let mut line = 1;
    while start < bytes.len() {
        let pair = read_pair(bytes, start, line)?;
        pairs.push(pair)?;
        if is_last(bytes, &pair) {
            return Ok(pairs);
        }
        start = pair.end as usize;
        line += 2;
    }
    Err(PairFault::NoEof)
}

/// Reads the pairs of a drawing in ASCII DXF, up to and with the first pair of code 0 and value
/// `EOF`; the bytes after it are not read. Lines end at line feeds, and the blanks are spaces, tabs
/// and carriage returns. A group code is a whole number from -9999 to 9999 with blanks round it, and
/// a value is what is between the blanks at the ends of its line. Of several faults the first is
/// reported. (AutoCAD DXF reference, ASCII form.)
pub fn read_pairs(alloc: Global, bytes: &[u8]) -> Result<Vec<Pair>, PairFault>
    requires { length bytes.now < 2 ^ 32 }
    ensures ok { IfOk result (λ pairs. drawing bytes.now ≡ Ok pairs.items) }
    ensures err { IfErr result (λ fault. Stops (drawing bytes.now) fault) }
    ensures tile { IfOk result (λ pairs. Tile bytes.now pairs.items) }
    ensures within { IfOk result (λ pairs. All (IsWithin (length bytes.now)) pairs.items) }
    // without their places they are the groups of the lines
    ensures groups { IfOk result (λ pairs. map (group_in bytes.now) pairs.items ≡ groups_of bytes.now) }
{
    if bytes.starts_with(BINARY) {
        return Err(PairFault::Binary);
    }
    let pairs = read_lines(alloc, bytes)?;
    Ok(pairs)
}
