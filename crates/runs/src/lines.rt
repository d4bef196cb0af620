//! The lines that say why words or a triangulation are refused, built without taking memory.

ghost use Rattle.std.specs.Prelude.{◌≡◌, ◌≤◌, ◌+◌, ◌++◌, length, codes, decimal};
ghost use Rattle.tin_file.specs.Keys.{key_of};
ghost use Rattle.runs.specs.Lines.{tin_line_of, check_line_of, number_line_of};
ghost use Rattle.runs.specs.Lines.{rows_end_of, frame_end_of, words_line_of};
ghost use Rattle.runs.specs.Lines.{which_line_of};

use arrayvec::ArrayString;
use itoa::Buffer;
use job_words::{Which, WordsFault};
use mm_decimal::NumFault;
use tin_base::{Axis, Frame};
use tin_check::CheckFault;
use tin_file::{Nearest, Rows, TinFault, Top};

/// The room for a line, in bytes.
pub const LINE_ROOM: usize = 96;

/// A line with its line feed.
pub type Line = ArrayString<LINE_ROOM>;

/// A line of this text.
pub fn text_line(text: &str) -> Line
    requires { length text.now ≤ LINE_ROOM }
    ensures { result.bytes ≡ text.now }
{
    let mut line = Line::new();
    line.push_str(text);
    line
}

/// A line with a number in digits between two texts.
pub fn line_with_number(before: &str, number: u64, behind: &str) -> Line
    requires { length before.now + (20 + length behind.now) ≤ LINE_ROOM }
    ensures { result.bytes ≡ before.now ++ decimal number ++ behind.now }
{
    let mut digits = Buffer::new();
    let mut line = Line::new();
    line.push_str(before);
    line.push_str(digits.format(number));
    line.push_str(behind);
    line
}

/// A line with two numbers in digits between three texts.
pub fn line_with_numbers(before: &str, first: u64, between: &str, second: u64, behind: &str) -> Line
    requires { length before.now + (20 + (length between.now + (20 + length behind.now))) ≤ LINE_ROOM }
    ensures { result.bytes ≡ before.now ++ decimal first ++ between.now ++ decimal second ++ behind.now }
{
    let mut first_digits = Buffer::new();
    let mut second_digits = Buffer::new();
    let mut line = Line::new();
    line.push_str(before);
    line.push_str(first_digits.format(first));
    line.push_str(between);
    line.push_str(second_digits.format(second));
    line.push_str(behind);
    line
}

/// The line of a member of the triangulation's file.
fn key_line(which: Top) -> Line
    ensures { result.bytes ≡ codes "triangulation: key " ++ key_of which ++ codes "\n" }
{
    text_line(match which {
        Top::Whole => "triangulation: key top\n",
        Top::FileType => "triangulation: key file_type\n",
        Top::FormatVersion => "triangulation: key format_version\n",
        Top::Strategy => "triangulation: key fallback_strategy\n",
        Top::Components => "triangulation: key transformed_components\n",
        Top::VerticesColumns => "triangulation: key vertices_columns\n",
        Top::TrianglesColumns => "triangulation: key triangles_columns\n",
        Top::Vertices => "triangulation: key vertices\n",
        Top::Triangles => "triangulation: key triangles\n",
    })
}

/// The line of a number text of a vertex row.
fn number_line(row: u32, fault: NumFault) -> Line
    ensures { result.bytes ≡ number_line_of row fault }
{
    let row = u64::from(row);
    match fault {
        NumFault::Form { at } => line_with_numbers(
            "triangulation: number form in row ",
            row,
            " place ",
            at,
            "\n",
        ),
        NumFault::Long => line_with_number("triangulation: number long in row ", row, "\n"),
        NumFault::Range => line_with_number("triangulation: number range in row ", row, "\n"),
    }
}

/// How the line of a row ends.
fn rows_end(list: Rows) -> &'static str
    ensures end { result.now ≡ rows_end_of list }
    ensures short { length result.now ≤ 14 }
{
    match list {
        Rows::Vertices => " of vertices\n",
        Rows::Triangles => " of triangles\n",
    }
}

/// How a line ends that names a frame.
fn frame_end(frame: Frame) -> &'static str
    ensures end { result.now ≡ frame_end_of frame }
    ensures short { length result.now ≤ 8 }
{
    match frame {
        Frame::Source => " source\n",
        Frame::Target => " target\n",
    }
}

/// The line of a span that is too large.
fn span_line(frame: Frame, axis: Axis) -> Line
    ensures { result.bytes ≡ tin_line_of (TinFault.Span frame axis) }
{
    text_line(match (frame, axis) {
        (Frame::Source, Axis::X) => "triangulation: span source x\n",
        (Frame::Source, Axis::Y) => "triangulation: span source y\n",
        (Frame::Target, Axis::X) => "triangulation: span target x\n",
        (Frame::Target, Axis::Y) => "triangulation: span target y\n",
    })
}

/// The line of a triangulation's text that is not read.
pub fn tin_line(fault: TinFault) -> Line
    ensures { result.bytes ≡ tin_line_of fault }
{
    match fault {
        TinFault::Json { at } => line_with_number("triangulation: json at ", at, "\n"),
        TinFault::Deep { at } => line_with_number("triangulation: deep at ", at, "\n"),
        TinFault::Key { which } => key_line(which),
        TinFault::Version => text_line("triangulation: version\n"),
        TinFault::Fallback {
            which: Nearest::Side,
        } => text_line("triangulation: fallback nearest_side\n"),
        TinFault::Fallback {
            which: Nearest::Centroid,
        } => text_line("triangulation: fallback nearest_centroid\n"),
        TinFault::NoHorizontal => text_line("triangulation: no horizontal\n"),
        TinFault::NoVertical => text_line("triangulation: no vertical\n"),
        TinFault::Offset { row } => {
            line_with_number("triangulation: offset in row ", u64::from(row), "\n")
        }
        TinFault::TooMany {
            list: Rows::Vertices,
        } => text_line("limit: vertices\n"),
        TinFault::TooMany {
            list: Rows::Triangles,
        } => text_line("limit: triangles\n"),
        TinFault::Row { list, row } => {
            line_with_number("triangulation: row ", u64::from(row), rows_end(list))
        }
        TinFault::Number { row, fault } => number_line(row, fault),
        TinFault::Inexact { row } => {
            line_with_number("triangulation: inexact in row ", u64::from(row), "\n")
        }
        TinFault::Index { triangle } => line_with_number(
            "triangulation: index in triangle ",
            u64::from(triangle),
            "\n",
        ),
        TinFault::Span { frame, axis } => span_line(frame, axis),
        TinFault::NoMemory => text_line("no memory\n"),
    }
}

/// The line of a triangulation that is not sound.
pub fn check_line(fault: CheckFault) -> Line
    ensures { result.bytes ≡ check_line_of fault }
{
    match fault {
        CheckFault::Flat { triangle, frame } => line_with_number(
            "triangulation: flat ",
            u64::from(triangle),
            frame_end(frame),
        ),
        CheckFault::TurnsOver { triangle } => {
            line_with_number("triangulation: turns over ", u64::from(triangle), "\n")
        }
        CheckFault::Meets {
            first,
            second,
            frame,
        } => line_with_numbers(
            "triangulation: meets ",
            u64::from(first),
            " ",
            u64::from(second),
            frame_end(frame),
        ),
        CheckFault::NoMemory => text_line("no memory\n"),
    }
}

/// A line with three numbers in digits, each between two texts.
pub fn said_three(
    before: &str,
    first: u64,
    between: &str,
    second: u64,
    then: &str,
    third: u64,
    behind: &str,
) -> Line
    requires { length before.now + (20 + (length between.now + (20 + (length then.now + (20 + length behind.now))))) ≤ LINE_ROOM }
    ensures { result.bytes ≡ before.now ++ decimal first ++ between.now ++ decimal second ++ then.now ++ decimal third ++ behind.now }
{
    let mut first_digits = Buffer::new();
    let mut second_digits = Buffer::new();
    let mut third_digits = Buffer::new();
    let mut line = Line::new();
    line.push_str(before);
    line.push_str(first_digits.format(first));
    line.push_str(between);
    line.push_str(second_digits.format(second));
    line.push_str(then);
    line.push_str(third_digits.format(third));
    line.push_str(behind);
    line
}

/// The line of a name that may not be taken.
fn which_line(which: Which) -> Line
    ensures { result.bytes ≡ which_line_of which }
{
    match which {
        Which::Tin => text_line("words: name of triangulation\n"),
        Which::Out => text_line("words: name of folder\n"),
        Which::Layer(layer) => line_with_number("words: name of layer ", u64::from(layer), "\n"),
        Which::Source => text_line("words: name of source\n"),
        Which::Written => text_line("words: name of written\n"),
        Which::Certificate => text_line("words: name of certificate\n"),
    }
}

/// The line of words that are not understood.
pub fn words_line(fault: WordsFault) -> Line
    ensures { result.bytes ≡ words_line_of fault }
{
    match fault {
        WordsFault::NoMode => text_line("words: no mode\n"),
        WordsFault::Parse => text_line("words: not understood\n"),
        WordsFault::Size => text_line("words: size\n"),
        WordsFault::Many => text_line("words: too many layers\n"),
        WordsFault::Name { which } => which_line(which),
        WordsFault::Suffix { layer } => {
            line_with_number("words: suffix of layer ", u64::from(layer), "\n")
        }
        WordsFault::SameName { layer } => {
            line_with_number("words: same name at layer ", u64::from(layer), "\n")
        }
        WordsFault::NoMemory => text_line("no memory\n"),
    }
}
