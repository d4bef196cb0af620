//! Where lines end.

ghost use Rattle.std.specs.Prelude.{◌≡◌, ◌≤◌, ◌<◌, ◌∷◌, ◌+◌, ℕ, length};
ghost use Rattle.memchr.specs.Find.{IsFirstByte, is_byte};
ghost use Rattle.dxf_pairs.specs.Lines.{lines_from, line_at};

use memchr::memchr_iter;

/// What ends a line.
pub const LINE_FEED: u8 = b'\n';

/// A line's places in the bytes, from 0: its bytes without the line feed are those from `start` to
/// before `end`, and the next line starts at `past`.
#[derive(Clone, Copy)]
pub struct LineEnds {
    pub start: usize,
    pub end: usize,
    pub past: usize,
}

/// How many bytes come before the first line feed, where there is one. It is mostly near, and there
/// an iterator looks first.
#[inline(always)]
fn count_to_feed(text: &[u8]) -> Option<usize>
    ensures { IsFirstByte (is_byte LINE_FEED) text.now result }
{
    memchr_iter(LINE_FEED, text).next()
}

/// The line that starts at a place before the end of the bytes.
#[inline(always)]
pub fn line_from(bytes: &[u8], start: usize) -> LineEnds
    requires { start < length bytes.now }
    ensures first { (number : ℕ) → lines_from bytes.now start number
        ≡ line_at bytes.now result number ∷ lines_from bytes.now result.past (number + 1) }
    ensures start { result.start ≡ start }
    ensures end { start ≤ result.end }
    ensures past { result.end ≤ result.past }
    ensures forward { start < result.past }
    ensures within { result.past ≤ length bytes.now }
{
    match count_to_feed(&bytes[start..]) {
        Some(count) => LineEnds {
            start,
            end: start + count,
            past: start + count + 1,
        },
        None => LineEnds {
            start,
            end: bytes.len(),
            past: bytes.len(),
        },
    }
}
