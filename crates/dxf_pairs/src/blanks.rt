//! Blanks at the ends of a line.

ghost use Rattle.std.specs.Prelude.{◌≡◌, ◌≤◌, ◌+◌, length, take, drop};
ghost use Rattle.std.specs.List.{prefix_len, suffix_len};
ghost use Rattle.text_places.specs.Blanks.{is_blank_byte};
ghost use Rattle.dxf_pairs.specs.Values.{value_of};

use text_places::is_blank;

/// How many blanks come before the other bytes.
#[inline(always)]
pub fn blanks_before(text: &[u8]) -> usize
    ensures count { result ≡ prefix_len is_blank_byte text.now }
    ensures bound { result ≤ length text.now }
{
    let mut count = 0;
    while count < text.len() && is_blank(text[count]) {
        count += 1;
    }
    count
}

/// How many bytes come before the blanks at the end.
#[inline(always)]
pub fn length_before_blanks(text: &[u8]) -> usize
    ensures count { result + suffix_len is_blank_byte text.now ≡ length text.now }
    ensures bound { result ≤ length text.now }
{
    let mut count = text.len();
    while count > 0 && is_blank(text[count - 1]) {
        count -= 1;
    }
    count
}

/// How many blanks come before the value on a line, and how many bytes the value has.
#[inline(always)]
pub fn value_in_line(line: &[u8]) -> (usize, usize)
    ensures value { take result.1 (drop result.0 line.now) ≡ value_of line.now }
    ensures before { result.0 ≡ prefix_len is_blank_byte line.now }
    ensures length { result.1 ≡ length (value_of line.now) }
    ensures within { result.0 + result.1 ≤ length line.now }
{
    let before = blanks_before(line);
    let length = length_before_blanks(&line[before..]);
    (before, length)
}
