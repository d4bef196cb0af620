//! A group code and its value, with their places in the bytes.

/// A group code and its value, which are on two lines. Places are in bytes from 0.
#[derive(Clone, Copy, Debug, PartialEq, Eq)]
pub struct Pair {
    /// The group code, from -9999 to 9999.
    pub code: i32,
    /// Where the code's line starts.
    pub start: u32,
    /// Where the value starts, without blanks at its ends. A value of blanks alone is empty and
    /// is at the end of its line.
    pub value: u32,
    /// The place past the value.
    pub value_end: u32,
    /// The place past the line feed of the value's line, or the end of the bytes.
    pub end: u32,
    /// The number of the code's line, from 1.
    pub line: u32,
}
