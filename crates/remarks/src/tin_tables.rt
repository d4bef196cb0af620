//! What the fault of a triangulation is, and what helps.

ghost use Rattle.std.specs.Prelude.{◌≡◌, option_copied};
ghost use Rattle.remarks.specs.TinTables.{tin_finding_of, tin_cure_of};
ghost use Rattle.remarks.specs.TinTables.{check_finding_of, check_cure_of};
ghost use Rattle.remarks.specs.TinTables.{member_finding_of, span_finding_of};
ghost use Rattle.remarks.specs.TinTables.{tin_sight_of, tin_seen_finding_of, tin_seen_cure_of};

use crate::layer_tables::{number_cure, number_finding};
use crate::sights::{Sight, text_sight};
use tin_base::{Axis, Frame};
use tin_check::CheckFault;
use tin_file::{Nearest, Rows, TinFault, Top};

/// What is wrong with a member of the triangulation's file.
fn member_finding(which: Top) -> &'static str
    ensures { result.now ≡ member_finding_of which }
{
    match which {
        Top::Whole => "the text is no JSON object",
        Top::FileType => {
            "the member file_type is missing, stands twice, or is not triangulation_file"
        }
        Top::FormatVersion => "the member format_version is missing, stands twice, or is no text",
        Top::Strategy => "the member fallback_strategy stands twice, or is none of the known words",
        Top::Components => {
            "the member transformed_components is missing, stands twice, or is no list of horizontal and vertical"
        }
        Top::VerticesColumns => {
            "the member vertices_columns is missing, stands twice, or does not have each column once"
        }
        Top::TrianglesColumns => {
            "the member triangles_columns is missing, stands twice, or does not have each column once"
        }
        Top::Vertices => "the member vertices is missing, stands twice, or is no list",
        Top::Triangles => "the member triangles is missing, stands twice, or is no list",
    }
}

/// Which span is too large.
fn span_finding(frame: Frame, axis: Axis) -> &'static str
    ensures { result.now ≡ span_finding_of frame axis }
{
    match (frame, axis) {
        (Frame::Source, Axis::X) => {
            "the source corners span 2,147.483648 km or more from west to east"
        }
        (Frame::Source, Axis::Y) => {
            "the source corners span 2,147.483648 km or more from south to north"
        }
        (Frame::Target, Axis::X) => {
            "the target corners span 2,147.483648 km or more from west to east"
        }
        (Frame::Target, Axis::Y) => {
            "the target corners span 2,147.483648 km or more from south to north"
        }
    }
}

/// What is wrong with a triangulation's text.
fn tin_finding(fault: TinFault) -> &'static str
    ensures { result.now ≡ tin_finding_of fault }
{
    match fault {
        TinFault::Json { .. } => "text that may not stand here",
        TinFault::Deep { .. } => "nested more than 64 deep",
        TinFault::Key { which } => member_finding(which),
        TinFault::Version => "the version of the format is neither 1.0 nor 1.1",
        TinFault::Fallback {
            which: Nearest::Side,
        } => { "points outside are to take the nearest side's triangle" }
        TinFault::Fallback {
            which: Nearest::Centroid,
        } => { "points outside are to take the triangle of the nearest centroid" }
        TinFault::NoHorizontal => "the file moves heights alone",
        TinFault::NoVertical => "the file moves no heights",
        TinFault::Offset { .. } => "an earlier row is the same corner with another offset",
        TinFault::TooMany {
            list: Rows::Vertices,
        } => { "more than 1,048,576 rows of vertices" }
        TinFault::TooMany {
            list: Rows::Triangles,
        } => { "more than 2,097,152 rows of triangles" }
        TinFault::Row {
            list: Rows::Vertices,
            ..
        } => { "not as many values as columns, or one that is no number" }
        TinFault::Row {
            list: Rows::Triangles,
            ..
        } => { "not as many values as columns, or one that is not digits alone" }
        TinFault::Number { fault, .. } => number_finding(fault),
        TinFault::Inexact { .. } => "a number with digits past the millimetre",
        TinFault::Index { .. } => {
            "the number of a corner is not below the number of rows of vertices"
        }
        TinFault::Span { frame, axis } => span_finding(frame, axis),
        TinFault::NoMemory => "memory ran out",
    }
}

/// What helps it, where something is known that does.
fn tin_cure(fault: TinFault) -> Option<&'static str>
    ensures { option_copied result ≡ tin_cure_of fault }
{
    match fault {
        TinFault::Json { .. } => Some("recipes/triangulate.py makes a triangulation of a table"),
        TinFault::Deep { .. } => None,
        TinFault::Key { .. } => None,
        TinFault::Version => Some("ask for a file of version 1.0 or 1.1"),
        TinFault::Fallback {
            which: Nearest::Side,
        } => { Some("--inside-only takes the file, and does not apply that") }
        TinFault::Fallback {
            which: Nearest::Centroid,
        } => { Some("--inside-only takes the file, and does not apply that") }
        TinFault::NoHorizontal => Some("'tinmove heights' moves points with heights by it"),
        TinFault::NoVertical => Some("'tinmove migrate' carries layers by it"),
        TinFault::Offset { .. } => Some("ask for a file in which each corner has one offset"),
        TinFault::TooMany {
            list: Rows::Vertices,
        } => { Some("cut the triangulation in parts") }
        TinFault::TooMany {
            list: Rows::Triangles,
        } => { Some("cut the triangulation in parts") }
        TinFault::Row {
            list: Rows::Vertices,
            ..
        } => None,
        TinFault::Row {
            list: Rows::Triangles,
            ..
        } => None,
        TinFault::Number { fault, .. } => number_cure(fault),
        TinFault::Inexact { .. } => Some("without --exact such a number is rounded"),
        TinFault::Index { .. } => Some("rows are counted from 0"),
        TinFault::Span { .. } => Some("cut the triangulation in parts"),
        TinFault::NoMemory => Some("carry with a smaller triangulation"),
    }
}

/// What the bytes show where a triangulation's text is refused, where they are known.
fn tin_sight(fault: TinFault, bytes: Option<&[u8]>) -> Sight
    ensures { result ≡ tin_sight_of fault (option_copied bytes.entry) }
{
    match (fault, bytes) {
        (TinFault::Json { at }, Some(text)) => text_sight(text, at),
        _ => Sight::Plain,
    }
}

/// What is at the place where a triangulation's text is refused, where the file has these bytes.
pub(crate) fn tin_seen_finding(fault: TinFault, bytes: Option<&[u8]>) -> &'static str
    ensures { result.now ≡ tin_seen_finding_of fault (tin_sight_of fault (option_copied bytes.entry)) }
{
    match tin_sight(fault, bytes) {
        Sight::FileEnd => "the file ends here",
        Sight::ByteOrderMark => "a byte order mark",
        Sight::Packed => "a packed file",
        Sight::TwoByteText => "a text in UTF-16",
        _ => tin_finding(fault),
    }
}

/// What helps it, where something is known that does.
pub(crate) fn tin_seen_cure(fault: TinFault, bytes: Option<&[u8]>) -> Option<&'static str>
    ensures { option_copied result ≡ tin_seen_cure_of fault (tin_sight_of fault (option_copied bytes.entry)) }
{
    match tin_sight(fault, bytes) {
        Sight::FileEnd => Some("it is empty or cut off: write it again"),
        Sight::ByteOrderMark => Some("save the file without it"),
        Sight::Packed => Some("unpack it by: gunzip"),
        Sight::TwoByteText => Some("save it as UTF-8"),
        _ => tin_cure(fault),
    }
}

/// What is wrong with the triangles of a triangulation that is not sound.
pub(crate) fn check_finding(fault: CheckFault) -> &'static str
    ensures { result.now ≡ check_finding_of fault }
{
    match fault {
        CheckFault::Flat {
            frame: Frame::Source,
            ..
        } => { "its corners are on one line in the source frame" }
        CheckFault::Flat {
            frame: Frame::Target,
            ..
        } => { "its corners are on one line in the target frame" }
        CheckFault::TurnsOver { .. } => "it is turned over in the target frame",
        CheckFault::Meets {
            frame: Frame::Source,
            ..
        } => { "they overlap in the source frame, or a corner of one is on a side of the other" }
        CheckFault::Meets {
            frame: Frame::Target,
            ..
        } => { "they overlap in the target frame, or a corner of one is on a side of the other" }
        CheckFault::NoMemory => "memory ran out",
    }
}

/// What helps it, where something is known that does.
pub(crate) fn check_cure(fault: CheckFault) -> Option<&'static str>
    ensures { option_copied result ≡ check_cure_of fault }
{
    match fault {
        CheckFault::Flat {
            frame: Frame::Source,
            ..
        } => { Some("remove the triangle") }
        CheckFault::Flat {
            frame: Frame::Target,
            ..
        } => { Some("look for a wrong target place") }
        CheckFault::TurnsOver { .. } => {
            Some("look for a wrong target place, or for two that are exchanged")
        }
        CheckFault::Meets {
            frame: Frame::Source,
            ..
        } => { Some("split the triangle at that corner") }
        CheckFault::Meets {
            frame: Frame::Target,
            ..
        } => { Some("look for a wrong target place") }
        CheckFault::NoMemory => Some("carry with a smaller triangulation"),
    }
}
