//! The lines that say why a layer or a certificate is refused, built without taking memory.

ghost use Rattle.std.specs.Prelude.{◌≡◌, ◌≤◌, length};
ghost use Rattle.runs.specs.Lines.{layer_line_of, layer_number_line_of, at_place};
ghost use Rattle.runs.specs.Lines.{at_line, cert_line_of};
ghost use Rattle.runs.specs.Refusals.{line_of};
ghost use Rattle.runs.specs.declared.refusal.Refusal.TheVariants.{Outside};

use crate::lines::{Line, line_with_number, line_with_numbers, said_three, text_line};
use cert_check::CertFault;
use itoa::Buffer;
use mm_decimal::NumFault;
use sheet_base::LayerFault;

/// The line of a fault of a layer with this word, at a place of its bytes.
fn place_line(layer: u32, word: &str, at: u64) -> Line
    requires { length word.now ≤ 9 }
    ensures { result.bytes ≡ at_place layer word.now at }
{
    let mut number = Buffer::new();
    let mut digits = Buffer::new();
    let mut line = Line::new();
    line.push_str("layer ");
    line.push_str(number.format(layer));
    line.push_str(": ");
    line.push_str(word);
    line.push_str(" at ");
    line.push_str(digits.format(at));
    line.push_str("\n");
    line
}

/// The line of a fault of a layer with this word, at a line of a drawing.
fn drawing_line(layer: u32, word: &str, place: u64) -> Line
    requires { length word.now ≤ 9 }
    ensures { result.bytes ≡ at_line layer word.now place }
{
    let mut number = Buffer::new();
    let mut digits = Buffer::new();
    let mut line = Line::new();
    line.push_str("layer ");
    line.push_str(number.format(layer));
    line.push_str(": ");
    line.push_str(word);
    line.push_str(" at line ");
    line.push_str(digits.format(place));
    line.push_str("\n");
    line
}

/// The line of a number text of a layer.
fn layer_number_line(layer: u32, at: u64, fault: NumFault) -> Line
    ensures { result.bytes ≡ layer_number_line_of layer at fault }
{
    let layer = u64::from(layer);
    match fault {
        NumFault::Form { at: place } => said_three(
            "layer ",
            layer,
            ": number form at ",
            at,
            " place ",
            place,
            "\n",
        ),
        NumFault::Long => line_with_numbers("layer ", layer, ": number long at ", at, "\n"),
        NumFault::Range => line_with_numbers("layer ", layer, ": number range at ", at, "\n"),
    }
}

/// The line of a layer that is not read.
pub fn layer_line(layer: u32, fault: LayerFault) -> Line
    ensures { result.bytes ≡ layer_line_of layer fault }
{
    match fault {
        LayerFault::Bad { at } => place_line(layer, "bad", at),
        LayerFault::Deep { at } => place_line(layer, "deep", at),
        LayerFault::Repeat { at } => place_line(layer, "repeat", at),
        LayerFault::Shape { at } => place_line(layer, "shape", at),
        LayerFault::Kind { at } => place_line(layer, "kind", at),
        LayerFault::Height { at } => place_line(layer, "height", at),
        LayerFault::Inexact { at } => place_line(layer, "inexact", at),
        LayerFault::Ring { at } => place_line(layer, "ring", at),
        LayerFault::Number { at, fault } => layer_number_line(layer, at, fault),
        LayerFault::Binary => line_with_number("layer ", u64::from(layer), ": binary\n"),
        LayerFault::NoEof => line_with_number("layer ", u64::from(layer), ": no eof\n"),
        LayerFault::Code { line } => drawing_line(layer, "code", line),
        LayerFault::Odd { line } => drawing_line(layer, "odd", line),
        LayerFault::Entity { line } => drawing_line(layer, "entity", line),
        LayerFault::Extrusion { line } => drawing_line(layer, "extrusion", line),
        LayerFault::Flags { line } => drawing_line(layer, "flags", line),
        LayerFault::Count { line } => drawing_line(layer, "count", line),
        LayerFault::Bulge { line } => drawing_line(layer, "bulge", line),
        LayerFault::Width { line } => drawing_line(layer, "width", line),
        LayerFault::Attribs { line } => drawing_line(layer, "attribs", line),
        LayerFault::Seed { line } => drawing_line(layer, "seed", line),
        LayerFault::NoMemory => text_line("no memory\n"),
    }
}

/// The line of a certificate by which a written layer is not verified.
pub fn cert_line(fault: CertFault) -> Line
    ensures { result.bytes ≡ cert_line_of fault }
{
    match fault {
        CertFault::Layer(fault) => layer_line(0, fault),
        CertFault::Form { line } => line_with_number("certificate: form at line ", line, "\n"),
        CertFault::Count { .. } => text_line("certificate: count\n"),
        CertFault::Segment { path, segment } => line_with_numbers(
            "certificate: segment ",
            u64::from(path),
            "/",
            u64::from(segment),
            "\n",
        ),
        CertFault::Differs { at } => line_with_number("certificate: differs at ", at, "\n"),
        CertFault::NoMemory => text_line("no memory\n"),
    }
}

/// The line of a segment that is outside.
pub fn outside_line(layer: u32, path: u32, segment: u32) -> Line
    ensures { result.bytes ≡ line_of (Outside layer path segment) }
{
    said_three(
        "outside: layer ",
        u64::from(layer),
        " path ",
        u64::from(path),
        " segment ",
        u64::from(segment),
        "\n",
    )
}
