//! Drawings with each kind of entity that are carried through the square and written. What is expected is worked out by
//! hand, by the AutoCAD DXF reference and docs/guide.md.

use crate::moves::is_moved_to;
use crate::sheets::PLAIN;
use dxf_layer::{Dxf, read_drawing};
use sheet_base::LayerFault;
use std::alloc::{AllocError, Global};
use tin_texts::SQUARE;

/// A point, an insert with a scale, a text with a second place, and one without.
const DOTS: &[u8] =
    b"0\nSECTION\n2\nENTITIES\n0\nPOINT\n5\nA1\n8\nWELL\n10\n6\n20\n4\n30\n1.5\n50\n45.0\n0\nINSERT\n2\nTREE\n10\n5\n\
     20\n0\n41\n2.0\n0\nTEXT\n10\n4\n20\n6\n40\n2.5\n1\nNORTH\n72\n1\n11\n6\n21\n4\n0\nTEXT\n10\n5\n20\n0\n1\nWEST\n\
     11\n9\n21\n9\n0\nENDSEC\n0\nEOF\n";

/// Those entities with all places moved. Height, angle, scale and size stay, and the second place of the last text.
const DOTS_CARRIED: &[u8] =
    b"0\nSECTION\n2\nENTITIES\n0\nPOINT\n5\nA1\n8\nWELL\n10\n106.001\n20\n104.001\n30\n1.5\n50\n45.0\n0\nINSERT\n2\n\
     TREE\n10\n105.000\n20\n100.000\n41\n2.0\n0\nTEXT\n10\n104.001\n20\n106.001\n40\n2.5\n1\nNORTH\n72\n1\n11\n\
     106.001\n21\n104.001\n0\nTEXT\n10\n105.000\n20\n100.000\n1\nWEST\n11\n9\n21\n9\n0\nENDSEC\n0\nEOF\n";

/// A closed polyline of two vertices that are entities, one with extended data.
const RING: &[u8] =
    b"0\nSECTION\n2\nHEADER\n9\n$HANDSEED\n5\n2F\n0\nENDSEC\n0\nSECTION\n2\nENTITIES\n0\nPOLYLINE\n5\n2A\n66\n1\n10\n\
     0.0\n20\n0.0\n30\n2.0\n70\n1\n0\nVERTEX\n5\n2B\n8\nWALL\n10\n10\n20\n0\n30\n7.5\n70\n0\n1001\nSURVEY\n1000\n\
     kerb\n1010\n10\n1020\n0\n0\nVERTEX\n5\n2C\n8\nWALL\n10\n0\n20\n10\n0\nSEQEND\n5\n2D\n0\nENDSEC\n0\nEOF\n";

/// That polyline with a copy of each vertex for the crossing after it, extended data included.
const RING_CARRIED: &[u8] =
    b"0\nSECTION\n2\nHEADER\n9\n$HANDSEED\n5\n31\n0\nENDSEC\n0\nSECTION\n2\nENTITIES\n0\nPOLYLINE\n5\n2A\n66\n1\n10\n\
     0.0\n20\n0.0\n30\n2.0\n70\n1\n0\nVERTEX\n5\n2B\n8\nWALL\n10\n110.000\n20\n100.000\n30\n7.5\n70\n0\n1001\n\
     SURVEY\n1000\nkerb\n1010\n10\n1020\n0\n0\nVERTEX\n5\n2F\n8\nWALL\n10\n105.002\n20\n105.002\n30\n7.5\n70\n0\n\
     1001\nSURVEY\n1000\nkerb\n1010\n10\n1020\n0\n0\nVERTEX\n5\n2C\n8\nWALL\n10\n100.000\n20\n110.000\n0\nVERTEX\n5\n\
     30\n8\nWALL\n10\n105.002\n20\n105.002\n0\nSEQEND\n5\n2D\n0\nENDSEC\n0\nEOF\n";

/// A polyline whose first vertex has widths, a bulge and a number of its own.
const WIDE: &[u8] =
    b"0\nSECTION\n2\nENTITIES\n0\nLWPOLYLINE\n90\n2\n70\n128\n10\n10\n20\n0\n40\n0\n41\n0.0\n42\n0\n91\n7\n10\n0\n\
     20\n10\n40\n0\n0\nENDSEC\n0\nEOF\n";

/// That polyline with a vertex after these fields.
const WIDE_CARRIED: &[u8] =
    b"0\nSECTION\n2\nENTITIES\n0\nLWPOLYLINE\n90\n3\n70\n128\n10\n110.000\n20\n100.000\n40\n0\n41\n0.0\n42\n0\n91\n\
     7\n10\n105.002\n20\n105.002\n10\n100.000\n20\n110.000\n40\n0\n0\nENDSEC\n0\nEOF\n";

/// Drawings, and what is written of them.
const WRITTEN: &[(&[u8], &[u8])] = &[
    (DOTS, DOTS_CARRIED),
    (RING, RING_CARRIED),
    (WIDE, WIDE_CARRIED),
    // Lines across the diagonal: one that rises, with extended data, and what is written of it; one that rises from
    // zero by three millimetres; one whose heights are the same; and one without heights.
    (
        b"0\nSECTION\n2\nENTITIES\n0\nLINE\n10\n10\n20\n0\n30\n1\n11\n0\n21\n10\n31\n2\n1001\nSURVEY\n1000\nkerb\n0\nENDSEC\n0\nEOF",
        b"0\nSECTION\n2\nENTITIES\n0\nLINE\n10\n110.000\n20\n100.000\n30\n1.000\n11\n105.002\n21\n105.002\n31\n\
         1.500\n1001\nSURVEY\n1000\nkerb\n0\nLINE\n10\n105.002\n20\n105.002\n30\n1.500\n11\n100.000\n21\n110.000\n\
         31\n2.000\n1001\nSURVEY\n1000\nkerb\n0\nENDSEC\n0\nEOF",
    ),
    (
        b"0\nSECTION\n2\nENTITIES\n0\nLINE\n31\n-0.003\n30\n0\n10\n10\n20\n0\n11\n0\n21\n10\n0\nENDSEC\n0\nEOF",
        b"0\nSECTION\n2\nENTITIES\n0\nLINE\n31\n-0.001\n30\n0.000\n10\n110.000\n20\n100.000\n11\n105.002\n21\n\
         105.002\n0\nLINE\n31\n-0.003\n30\n-0.001\n10\n105.002\n20\n105.002\n11\n100.000\n21\n110.000\n0\nENDSEC\n0\n\
         EOF",
    ),
    (
        b"0\nSECTION\n2\nENTITIES\n0\nLINE\n10\n10\n20\n0\n30\n1.50\n11\n0\n21\n10\n31\n1.5000\n0\nENDSEC\n0\nEOF",
        b"0\nSECTION\n2\nENTITIES\n0\nLINE\n10\n110.000\n20\n100.000\n30\n1.50\n11\n105.002\n21\n105.002\n31\n\
         1.5000\n0\nLINE\n10\n105.002\n20\n105.002\n30\n1.50\n11\n100.000\n21\n110.000\n31\n1.5000\n0\nENDSEC\n0\nEOF",
    ),
    (
        b"0\nSECTION\n2\nENTITIES\n0\nLINE\n10\n10\n20\n0\n31\n0.0\n11\n0\n21\n10\n0\nENDSEC\n0\nEOF",
        b"0\nSECTION\n2\nENTITIES\n0\nLINE\n10\n110.000\n20\n100.000\n31\n0.0\n11\n105.002\n21\n105.002\n0\nLINE\n\
         10\n105.002\n20\n105.002\n31\n0.0\n11\n100.000\n21\n110.000\n0\nENDSEC\n0\nEOF",
    ),
];

/// Whether the drawing, carried through the square, is written as the other.
fn is_written_as(alloc: Global, text: &[u8], wanted: &[u8]) -> bool {
    is_moved_to::<Dxf>(alloc, SQUARE, text, PLAIN, wanted)
}

/// The number of the first drawing that, carried through the square, is written otherwise, or none.
fn first_other_written(alloc: Global, rows: &[(&[u8], &[u8])]) -> Option<usize> {
    for (number, &(text, wanted)) in rows.iter().enumerate() {
        if !is_written_as(alloc, text, wanted) {
            return Some(number);
        }
    }
    None
}

#[test]
fn writes_each_kind_of_entity(rt: HostRuntime) {
    assert_eq!(rt; first_other_written(rt.alloc(), WRITTEN), None);
}

/// A line with a handle across the diagonal, and a header after it with this next handle.
fn line_and_header(alloc: Global, next: &str) -> Result<String, AllocError> {
    let mut text = String::new(alloc);
    text.push_str(
        "0\nSECTION\n2\nENTITIES\n0\nLINE\n5\n2E\n10\n10\n20\n0\n11\n0\n21\n10\n0\nENDSEC\n0\nSECTION\n2\nHEADER\n9\n$HANDSEED\n5\n",
    )?;
    text.push_str(next)?;
    text.push_str("\n0\nENDSEC\n0\nEOF\n")?;
    Ok(text)
}

/// The same line in two pieces, whose second one has this handle, and the next one.
fn two_lines_and_header(alloc: Global, handle: &str, next: &str) -> Result<String, AllocError> {
    let mut text = String::new(alloc);
    text.push_str(
        "0\nSECTION\n2\nENTITIES\n0\nLINE\n5\n2E\n10\n110.000\n20\n100.000\n11\n105.002\n21\n105.002\n0\nLINE\n5\n",
    )?;
    text.push_str(handle)?;
    text.push_str(
        "\n10\n105.002\n20\n105.002\n11\n100.000\n21\n110.000\n0\nENDSEC\n0\nSECTION\n2\nHEADER\n9\n$HANDSEED\n5\n",
    )?;
    text.push_str(next)?;
    text.push_str("\n0\nENDSEC\n0\nEOF\n")?;
    Ok(text)
}

/// A next handle, the handle that is taken, and the next one then.
type HandleRow = (&'static str, &'static str, &'static str);

/// The first of the next handles with which the line is written otherwise, or none.
fn first_other(alloc: Global, rows: &[HandleRow]) -> Result<Option<&'static str>, AllocError> {
    for &(seed, handle, next) in rows {
        let text = line_and_header(alloc, seed)?;
        let wanted = two_lines_and_header(alloc, handle, next)?;
        if !is_written_as(alloc, text.as_bytes(), wanted.as_bytes()) {
            return Ok(Some(seed));
        }
    }
    Ok(None)
}

const HANDLES: &[HandleRow] = &[
    ("2F", "2F", "30"),
    ("9", "9", "A"),
    // Fifteen digits: with zeros in front, and the greatest, after which the next handle has sixteen.
    ("00000000000002f", "2F", "30"),
    ("FFFFFFFFFFFFFFF", "FFFFFFFFFFFFFFF", "1000000000000000"),
];

#[test]
fn gives_handles_from_a_header_behind_the_entities(rt: HostRuntime) {
    assert_eq!(rt; first_other(rt.alloc(), HANDLES), Ok(None));
}

/// The first of the next handles with which the line is not refused at the line of its handle, or none.
fn first_accepted(
    alloc: Global,
    seeds: &[&'static str],
) -> Result<Option<&'static str>, AllocError> {
    for &seed in seeds {
        let text = line_and_header(alloc, seed)?;
        if text.len() >= 1 << 16 {
            return Ok(Some(seed));
        }
        let read = read_drawing(alloc, text.as_bytes(), PLAIN);
        if read.err() != Some(LayerFault::Seed { line: 7 }) {
            return Ok(Some(seed));
        }
    }
    Ok(None)
}

/// Sixteen digits are no next handle, so a line with a handle is refused.
const NO_HANDLES: &[&str] = &["1000000000000000", "000000000000002F", "", "2G"];

#[test]
fn refuses_a_next_handle_of_sixteen_digits(rt: HostRuntime) {
    assert_eq!(rt; first_accepted(rt.alloc(), NO_HANDLES), Ok(None));
}
