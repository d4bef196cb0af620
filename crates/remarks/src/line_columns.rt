//! The line and the column of a place in bytes.

ghost use Rattle.std.specs.Prelude.{◌≡◌, ◌+◌, ◌≤◌, take, drop, length, count_by};
ghost use Rattle.std.specs.List.{after_first, prefix_len, suffix_len};
ghost use Rattle.remarks.specs.LineColumns.{is_feed, is_in_line, line_at, column_at, behind_lines};

/// A place in a text: its line, and its column in bytes, each counted from 1.
#[derive(Clone, Copy, Debug, PartialEq, Eq)]
pub struct LineColumn {
    pub line: u64,
    pub column: u64,
}

/// Whether the byte ends a line.
fn is_line_feed(byte: u8) -> bool
    ensures { result ≡ is_feed byte }
{
    byte == b'\n'
}

/// Whether the byte goes on with a line.
fn goes_on(byte: u8) -> bool
    ensures { result ≡ is_in_line byte }
{
    byte != b'\n'
}

/// The first `at` bytes, or all where there are fewer.
pub(crate) fn before(bytes: &[u8], at: u64) -> &[u8]
    ensures { result.now ≡ take at bytes.now }
{
    match bytes.get(..at as usize) {
        Some(front) => front,
        None => bytes,
    }
}

/// The bytes after the first `at`.
pub(crate) fn from_place(bytes: &[u8], at: u64) -> &[u8]
    ensures { result.now ≡ drop at bytes.now }
{
    match bytes.get(at as usize..) {
        Some(rest) => rest,
        None => &[],
    }
}

/// How many bytes are before the first line feed, or all where there is none.
fn first_line_length(bytes: &[u8]) -> usize
    ensures count { result ≡ prefix_len is_in_line bytes.now }
    ensures within { result ≤ length bytes.now }
{
    bytes.iter().take_while(|byte| goes_on(**byte)).count()
}

/// The bytes after the first line of a text.
pub fn behind_line(bytes: &[u8]) -> &[u8]
    ensures { result.now ≡ after_first is_feed bytes.now }
{
    from_place(bytes, first_line_length(bytes) as u64 + 1)
}

/// The bytes after the first `count` lines of a text.
pub fn behind_lines(bytes: &[u8], count: u64) -> &[u8]
    ensures { result.now ≡ behind_lines count bytes.now }
{
    let mut rest = bytes;
    for _ in 0..count {
        rest = behind_line(rest);
    }
    rest
}

/// How many line feeds are among the bytes.
fn line_feed_count(bytes: &[u8]) -> usize
    ensures { result ≡ count_by is_feed bytes.now }
{
    bytes.iter().filter(|byte| is_line_feed(**byte)).count()
}

/// How many bytes are after the last line feed.
fn last_line_length(bytes: &[u8]) -> usize
    ensures count { result ≡ suffix_len is_in_line bytes.now }
    ensures short { result ≤ length bytes.now }
{
    bytes
        .iter()
        .rev()
        .take_while(|byte| goes_on(**byte))
        .count()
}

/// The line and the column of the place after the first `at` bytes.
pub fn line_and_column(bytes: &[u8], at: u64) -> LineColumn
    ensures line { result.line ≡ line_at bytes.now at }
    ensures column { result.column ≡ column_at bytes.now at }
{
    let front = before(bytes, at);
    LineColumn {
        line: line_feed_count(front) as u64 + 1,
        column: last_line_length(front) as u64 + 1,
    }
}
