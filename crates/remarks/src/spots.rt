//! Where in a run, a file or a triangulation a refusal comes from.

ghost use Rattle.std.specs.Prelude.{◌≡◌};
ghost use Rattle.remarks.specs.Spots.{spot_of_words, spot_of_tin};
ghost use Rattle.remarks.specs.Spots.{spot_of_check, spot_of_layer};
ghost use Rattle.remarks.specs.Spots.{spot_of_cert, spot_of};

use cert_check::CertFault;
use job_words::{Which, WordsFault};
use runs::Refusal;
use sheet_base::LayerFault;
use tin_check::CheckFault;
use tin_file::{Rows, TinFault};

/// Where a refusal comes from. Layers, rows, triangles, paths and segments are counted from 0.
#[derive(Clone, Copy)]
pub enum FilePlace {
    /// The run as a whole, or its words.
    Run,
    /// The word that names this layer.
    LayerWord(u32),
    /// A file as a whole.
    File,
    /// A place of the file, in bytes from 0.
    Byte(u64),
    /// A line of the file, counted from 1.
    Line(u64),
    /// The entity of a drawing that begins on this line, counted from 1.
    Entity(u64),
    /// A row of a list of the triangulation's file.
    Row(Rows, u32),
    /// A triangle.
    Triangle(u32),
    /// Two triangles.
    TrianglePair(u32, u32),
    /// A path of the layer, and a segment of this path.
    Segment(u32, u32),
}

/// Where words are refused.
fn words_spot(fault: WordsFault) -> FilePlace
    ensures { result ≡ spot_of_words fault }
{
    match fault {
        WordsFault::Name {
            which: Which::Layer(layer),
        } => FilePlace::LayerWord(layer),
        WordsFault::Suffix { layer } => FilePlace::LayerWord(layer),
        WordsFault::SameName { layer } => FilePlace::LayerWord(layer),
        _ => FilePlace::Run,
    }
}

/// Where a triangulation's text is refused.
fn tin_spot(fault: TinFault) -> FilePlace
    ensures { result ≡ spot_of_tin fault }
{
    match fault {
        TinFault::Json { at } => FilePlace::Byte(at),
        TinFault::Deep { at } => FilePlace::Byte(at),
        TinFault::Row { list, row } => FilePlace::Row(list, row),
        TinFault::Number { row, .. } => FilePlace::Row(Rows::Vertices, row),
        TinFault::Inexact { row } => FilePlace::Row(Rows::Vertices, row),
        TinFault::Offset { row } => FilePlace::Row(Rows::Vertices, row),
        TinFault::Index { triangle } => FilePlace::Row(Rows::Triangles, triangle),
        _ => FilePlace::File,
    }
}

/// Where a triangulation is not sound.
fn check_spot(fault: CheckFault) -> FilePlace
    ensures { result ≡ spot_of_check fault }
{
    match fault {
        CheckFault::Flat { triangle, .. } => FilePlace::Triangle(triangle),
        CheckFault::TurnsOver { triangle } => FilePlace::Triangle(triangle),
        CheckFault::Meets { first, second, .. } => FilePlace::TrianglePair(first, second),
        CheckFault::NoMemory => FilePlace::File,
    }
}

/// Where a layer is not read.
fn layer_spot(fault: LayerFault) -> FilePlace
    ensures { result ≡ spot_of_layer fault }
{
    match fault {
        LayerFault::Bad { at } => FilePlace::Byte(at),
        LayerFault::Deep { at } => FilePlace::Byte(at),
        LayerFault::Repeat { at } => FilePlace::Byte(at),
        LayerFault::Shape { at } => FilePlace::Byte(at),
        LayerFault::Kind { at } => FilePlace::Byte(at),
        LayerFault::Height { at } => FilePlace::Byte(at),
        LayerFault::Number { at, .. } => FilePlace::Byte(at),
        LayerFault::Inexact { at } => FilePlace::Byte(at),
        LayerFault::Ring { at } => FilePlace::Byte(at),
        LayerFault::Binary | LayerFault::NoEof | LayerFault::NoMemory => FilePlace::File,
        LayerFault::Code { line } => FilePlace::Line(line),
        LayerFault::Odd { line } => FilePlace::Line(line),
        LayerFault::Entity { line } => FilePlace::Entity(line),
        LayerFault::Extrusion { line } => FilePlace::Line(line),
        LayerFault::Flags { line } => FilePlace::Line(line),
        LayerFault::Count { line } => FilePlace::Line(line),
        LayerFault::Bulge { line } => FilePlace::Line(line),
        LayerFault::Width { line } => FilePlace::Line(line),
        LayerFault::Attribs { line } => FilePlace::Line(line),
        LayerFault::Seed { line } => FilePlace::Line(line),
    }
}

/// Where a written layer is not verified.
fn cert_spot(fault: CertFault) -> FilePlace
    ensures { result ≡ spot_of_cert fault }
{
    match fault {
        CertFault::Layer(fault) => layer_spot(fault),
        CertFault::Form { line } => FilePlace::Line(line),
        CertFault::Segment { path, segment } => FilePlace::Segment(path, segment),
        CertFault::Differs { at } => FilePlace::Byte(at),
        CertFault::Count { .. } | CertFault::NoMemory => FilePlace::File,
    }
}

/// Where a refusal comes from.
pub(crate) fn spot_for(refusal: Refusal) -> FilePlace
    ensures { result ≡ spot_of refusal }
{
    match refusal {
        Refusal::Words(fault) => words_spot(fault),
        Refusal::Tin(fault) => tin_spot(fault),
        Refusal::Check(fault) => check_spot(fault),
        Refusal::Layer { fault, .. } => layer_spot(fault),
        Refusal::Outside { path, segment, .. } => FilePlace::Segment(path, segment),
        Refusal::Certificate(fault) => cert_spot(fault),
        Refusal::TinUnread
        | Refusal::TinLong
        | Refusal::LayerUnread { .. }
        | Refusal::WrittenUnread
        | Refusal::WrittenLong
        | Refusal::CertUnread
        | Refusal::CertLong => FilePlace::File,
        Refusal::LayersLong
        | Refusal::TooManyPieces
        | Refusal::TooManyChanges
        | Refusal::TooManySides
        | Refusal::NoMemory => FilePlace::Run,
    }
}
