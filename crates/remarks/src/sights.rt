//! What the bytes show at the place of a layer's fault, beyond the fault itself.

ghost use Rattle.std.specs.Prelude.{◌≡◌, ◌≤◌, length, take, option_copied};
ghost use Rattle.std.specs.List.{prefix_len, suffix_len};
ghost use Rattle.std.specs.Char.{is_ascii_alphabetic};
ghost use Rattle.remarks.specs.Sights.{has_mark, is_of_number};
ghost use Rattle.remarks.specs.Sights.{is_blank_byte, is_first, without_blanks_of};
ghost use Rattle.remarks.specs.Sights.{is_behind_bracket, is_second};
ghost use Rattle.remarks.specs.Sights.{is_space_byte, without_spaces_of, is_object_behind, first_word_of, has_glued_mark, sight_of_kind};
ghost use Rattle.remarks.specs.Sights.{has_drawing_mark, is_packed, is_two_byte_text, sight_of_head, sight_of_text};
ghost use Rattle.remarks.specs.Sights.{sight_of_bad, sight_of_code, sight_of_height, sight_inside};
ghost use Rattle.remarks.specs.Sights.{sight_of, seen_finding_of, seen_cure_of};

use crate::layer_tables::{cure, finding};
use crate::line_columns::{before, from_place};
use sheet_base::LayerFault;

/// What the bytes show at the place of a layer's fault.
#[derive(Clone, Copy)]
pub enum Sight {
    /// No more than the fault says.
    Plain,
    /// The byte order mark of UTF-8 at the head of the file.
    ByteOrderMark,
    /// A word after the closing bracket of a geometry on the same line.
    SecondGeometry,
    /// A digit, sign or point where a position has all its numbers.
    NumberTooMany,
    /// Nothing: the file ends here.
    FileEnd,
    /// The head of a packed file.
    Packed,
    /// The head of a text in UTF-16.
    TwoByteText,
    /// The head of a drawing in DWG form.
    Dwg,
    /// A kind of geometry and the mark of its heights or measures, in one word.
    GluedMark,
    /// The number of a frame before a geometry, as PostGIS and SpatiaLite write it.
    FrameNumber,
    /// A TopoJSON object.
    Topology,
    /// A second object after the first one.
    SecondObject,
}

/// Whether the bytes begin with the byte order mark of UTF-8.
fn begins_with_mark(bytes: &[u8]) -> bool
    ensures { result ≡ has_mark bytes.now }
{
    bytes.starts_with(b"\xEF\xBB\xBF")
}

/// Whether the bytes begin as a file that gzip packed (RFC 1952, section 2.3.1).
fn begins_packed(bytes: &[u8]) -> bool
    ensures { result ≡ is_packed bytes.now }
{
    bytes.starts_with(b"\x1F\x8B")
}

/// Whether the bytes begin with a byte order mark of UTF-16.
fn begins_two_byte_text(bytes: &[u8]) -> bool
    ensures { result ≡ is_two_byte_text bytes.now }
{
    bytes.starts_with(b"\xFF\xFE") || bytes.starts_with(b"\xFE\xFF")
}

/// Whether the bytes begin as a drawing in DWG form does.
fn begins_dwg(bytes: &[u8]) -> bool
    ensures { result ≡ has_drawing_mark bytes.now }
{
    bytes.starts_with(b"AC10")
}

/// Whether the byte can begin a number.
fn begins_number(byte: u8) -> bool
    ensures { result ≡ is_of_number byte }
{
    byte.is_ascii_digit() || byte == b'+' || byte == b'-' || byte == b'.'
}

/// Whether the byte is a blank or a tab.
fn is_blank(byte: u8) -> bool
    ensures { result ≡ is_blank_byte byte }
{
    byte == b' ' || byte == b'\t'
}

/// How many blanks and tabs are at the end.
fn blank_count(bytes: &[u8]) -> usize
    ensures count { result ≡ suffix_len is_blank_byte bytes.now }
{
    bytes
        .iter()
        .rev()
        .take_while(|byte| is_blank(**byte))
        .count()
}

/// The bytes without the blanks and tabs at their end.
fn without_blanks(bytes: &[u8]) -> &[u8]
    ensures { result.now ≡ without_blanks_of bytes.now }
{
    before(bytes, bytes.len().saturating_sub(blank_count(bytes)) as u64)
}

/// Whether the last byte that is no blank is a closing bracket.
fn ends_with_bracket(bytes: &[u8]) -> bool
    ensures { result ≡ is_behind_bracket bytes.now }
{
    without_blanks(bytes).ends_with(b")")
}

/// Whether the first byte is a letter.
fn begins_with_letter(bytes: &[u8]) -> bool
    ensures { result ≡ is_first is_ascii_alphabetic bytes.now }
{
    match bytes {
        [] => false,
        [byte, ..] => byte.is_ascii_alphabetic(),
    }
}

/// Whether the first byte can begin a number.
fn begins_with_number(bytes: &[u8]) -> bool
    ensures { result ≡ is_first is_of_number bytes.now }
{
    match bytes {
        [] => false,
        [byte, ..] => begins_number(*byte),
    }
}

/// Whether a word begins at the place, after the closing bracket of a geometry.
fn is_second_geometry(bytes: &[u8], at: u64) -> bool
    ensures { result ≡ is_second bytes.now at }
{
    begins_with_letter(from_place(bytes, at)) && ends_with_bracket(before(bytes, at))
}

/// Whether the byte is a blank, a tab or one that ends a line.
fn is_space(byte: u8) -> bool
    ensures { result ≡ is_space_byte byte }
{
    byte == b' ' || byte == b'\t' || byte == b'\n' || byte == b'\r'
}

/// How many blanks and line ends are at the end.
fn space_count(bytes: &[u8]) -> usize
    ensures count { result ≡ suffix_len is_space_byte bytes.now }
{
    bytes
        .iter()
        .rev()
        .take_while(|byte| is_space(**byte))
        .count()
}

/// The bytes without the blanks and line ends at their end.
fn without_spaces(bytes: &[u8]) -> &[u8]
    ensures { result.now ≡ without_spaces_of bytes.now }
{
    before(bytes, bytes.len().saturating_sub(space_count(bytes)) as u64)
}

/// Whether an object begins at the place, after the end of another.
fn is_second_object(bytes: &[u8], at: u64) -> bool
    ensures { result ≡ is_object_behind bytes.now at }
{
    from_place(bytes, at).starts_with(b"{") && without_spaces(before(bytes, at)).ends_with(b"}")
}

/// How many letters are at the front.
fn letter_count(bytes: &[u8]) -> usize
    ensures { result ≡ prefix_len is_ascii_alphabetic bytes.now }
{
    bytes
        .iter()
        .take_while(|byte| byte.is_ascii_alphabetic())
        .count()
}

/// The letters at the front.
fn first_word(bytes: &[u8]) -> &[u8]
    ensures { result.now ≡ first_word_of bytes.now }
{
    before(bytes, letter_count(bytes) as u64)
}

/// Whether the word ends with a mark of heights or measures.
fn ends_with_mark(word: &[u8]) -> bool
    ensures { result ≡ has_glued_mark word.now }
{
    word.ends_with(b"Z") || word.ends_with(b"z") || word.ends_with(b"M") || word.ends_with(b"m")
}

/// What is seen where a text is no geometry of a kind that is read.
fn kind_sight(text: &[u8]) -> Sight
    ensures { result ≡ sight_of_kind text.now }
{
    if ends_with_mark(first_word(text)) {
        return Sight::GluedMark;
    }
    if text.starts_with(b"SRID=") {
        return Sight::FrameNumber;
    }
    if text.starts_with(b"\"Topology\"") {
        return Sight::Topology;
    }
    Sight::Plain
}

/// What is seen at the head of a file.
fn head_sight(bytes: &[u8]) -> Sight
    ensures { result ≡ sight_of_head bytes.now }
{
    if begins_with_mark(bytes) {
        return Sight::ByteOrderMark;
    }
    if begins_packed(bytes) {
        return Sight::Packed;
    }
    if begins_two_byte_text(bytes) {
        return Sight::TwoByteText;
    }
    if begins_dwg(bytes) {
        return Sight::Dwg;
    }
    Sight::Plain
}

/// What is seen where a text is refused.
pub(crate) fn text_sight(bytes: &[u8], at: u64) -> Sight
    ensures { result ≡ sight_of_text bytes.now at }
{
    if bytes.len() as u64 <= at {
        return Sight::FileEnd;
    }
    if at == 0 {
        return head_sight(bytes);
    }
    Sight::Plain
}

/// What is seen at text that may not be there.
fn bad_sight(bytes: &[u8], at: u64) -> Sight
    ensures { result ≡ sight_of_bad bytes.now at }
{
    if is_second_geometry(bytes, at) {
        return Sight::SecondGeometry;
    }
    if is_second_object(bytes, at) {
        return Sight::SecondObject;
    }
    text_sight(bytes, at)
}

/// What is seen on a line that is no group code.
fn code_sight(bytes: &[u8], line: u64) -> Sight
    ensures { result ≡ sight_of_code bytes.now line }
{
    if line == 1 {
        head_sight(bytes)
    } else {
        Sight::Plain
    }
}

/// What is seen where a position has all its numbers.
fn height_sight(bytes: &[u8], at: u64) -> Sight
    ensures { result ≡ sight_of_height bytes.now at }
{
    if begins_with_number(from_place(bytes, at)) {
        Sight::NumberTooMany
    } else {
        Sight::Plain
    }
}

/// What these bytes show at the place of the fault.
fn sight_in(fault: LayerFault, bytes: &[u8]) -> Sight
    ensures { result ≡ sight_inside fault bytes.now }
{
    match fault {
        LayerFault::Bad { at } => bad_sight(bytes, at),
        LayerFault::Code { line } => code_sight(bytes, line),
        LayerFault::Kind { at } => kind_sight(from_place(bytes, at)),
        LayerFault::Height { at } => height_sight(bytes, at),
        _ => Sight::Plain,
    }
}

/// What the bytes show at the place of the fault, where they are known.
pub(crate) fn sight_for(fault: LayerFault, bytes: Option<&[u8]>) -> Sight
    ensures { result ≡ sight_of fault (option_copied bytes.entry) }
{
    match bytes {
        None => Sight::Plain,
        Some(text) => sight_in(fault, text),
    }
}

/// What is at the place of a layer's fault, where this is seen there.
pub(crate) fn seen_finding(fault: LayerFault, seen: Sight) -> &'static str
    ensures { result.now ≡ seen_finding_of fault seen }
{
    match seen {
        Sight::Plain => finding(fault),
        Sight::ByteOrderMark => "a byte order mark",
        Sight::SecondGeometry => "a second geometry on one line",
        Sight::NumberTooMany => "a number too many",
        Sight::FileEnd => "the file ends here",
        Sight::Packed => "a packed file",
        Sight::TwoByteText => "a text in UTF-16",
        Sight::Dwg => "a drawing in DWG form",
        Sight::GluedMark => "a kind and its mark in one word",
        Sight::FrameNumber => "the number of a frame before a geometry",
        Sight::Topology => "a TopoJSON object",
        Sight::SecondObject => "a second object",
    }
}

/// What helps it, where something is known that does.
pub(crate) fn seen_cure(fault: LayerFault, seen: Sight) -> Option<&'static str>
    ensures { option_copied result ≡ seen_cure_of fault seen }
{
    match seen {
        Sight::Plain | Sight::NumberTooMany => cure(fault),
        Sight::ByteOrderMark => Some("save the file without it"),
        Sight::SecondGeometry => Some("write one geometry a line"),
        Sight::FileEnd => Some("it is empty or cut off: write it again"),
        Sight::Packed => Some("unpack it by: gunzip"),
        Sight::TwoByteText => Some("save it as UTF-8"),
        Sight::Dwg => Some("save it as ASCII DXF"),
        Sight::GluedMark => Some("write a blank between them"),
        Sight::FrameNumber => Some("it is left out by: sed 's/SRID=[0-9]*;//'"),
        Sight::Topology => Some("GeoJSON is made of it by: ogr2ogr -f GeoJSON"),
        Sight::SecondObject => Some("one feature a line becomes one object by: ogr2ogr -f GeoJSON"),
    }
}
