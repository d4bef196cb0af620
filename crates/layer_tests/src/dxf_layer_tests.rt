//! Drawings whose sheets, faults and texts were worked out by hand.

use crate::moves::is_moved_to;
use crate::sheets::{LONGEST, PLAIN, WantedSheet, is_sheet};
use dxf_layer::{Dxf, read_drawing, written_pairs};
use mm_decimal::NumFault;
use sheet_base::{How, LayerFault, PathKind, What};
use std::alloc::Global;
use tin_texts::SQUARE;

/// A line with a handle, and one on a layout of paper.
const LINES: &[u8] =
    b"0\nSECTION\n2\nHEADER\n9\n$HANDSEED\n5\n2F\n0\nENDSEC\n0\nSECTION\n2\nTABLES\n0\nENDSEC\n0\nSECTION\n2\n\
     BLOCKS\n0\nENDSEC\n0\nSECTION\n2\nENTITIES\n0\nLINE\n5\n2E\n8\nPARCEL\n10\n10.0\n20\n0.0\n30\n0.0\n11\n0.0\n21\n\
     10.0\n31\n0.0\n0\nLINE\n67\n1\n8\nSHEET\n10\n-500.0\n20\n0.0\n11\n-400.0\n21\n0.0\n0\nARC\n10\n5.0\n20\n5.0\n\
     40\n1.0\n0\nENDSEC\n0\nEOF";

/// A closed polyline of two vertices, whose lines end in a carriage return and a line feed.
const LOOP: &[u8] =
    b"0\r\nSECTION\r\n2\r\nENTITIES\r\n0\r\nLWPOLYLINE\r\n90\r\n2\r\n70\r\n1\r\n10\r\n10\r\n20\r\n0\r\n10\r\n0\r\n\
     20\r\n10\r\n0\r\nENDSEC\r\n0\r\nEOF\r\n";

/// The same polyline, whose lines end in a line feed alone.
const LOOP_OF_LINE_FEEDS: &[u8] =
    b"0\nSECTION\n2\nENTITIES\n0\nLWPOLYLINE\n90\n2\n70\n1\n10\n10\n20\n0\n10\n0\n20\n10\n0\nENDSEC\n0\nEOF\n";

/// The fault of a short drawing.
fn fault(alloc: Global, text: &[u8], how: How) -> Option<LayerFault> {
    if text.len() > LONGEST {
        return None;
    }
    read_drawing(alloc, text, how).err()
}

/// Drawings with a fault, or with several, and the fault that is reported.
const REFUSED: &[(&[u8], LayerFault)] = &[
    (
        b"0\nSECTION\n2\nENTITIES\n0\nLWPOLYLINE\n90\n2\n70\n0\n10\n0\n20\n0\n42\n1\n10\n1\n20\n1\n0\nENDSEC\n0\nEOF",
        LayerFault::Bulge { line: 15 },
    ),
    (
        b"0\nSECTION\n2\nENTITIES\n0\nLWPOLYLINE\n90\n3\n10\n0\n20\n0\n10\n1\n20\n1\n0\nENDSEC\n0\nEOF",
        LayerFault::Count { line: 7 },
    ),
    (
        b"0\nSECTION\n2\nENTITIES\n0\nLWPOLYLINE\n90\n0\n70\n2\n0\nENDSEC\n0\nEOF",
        LayerFault::Flags { line: 9 },
    ),
    (
        b"0\nSECTION\n2\nENTITIES\n0\nLINE\n10\n10\n20\n0\n11\n0\n21\n10\n31\n2\n0\nENDSEC\n0\nEOF",
        LayerFault::Count { line: 5 },
    ),
    (
        b"0\nSECTION\n2\nENTITIES\n0\nLINE\n5\n1A\n10\n0\n20\n0\n11\n1\n21\n1\n0\nENDSEC\n0\nEOF",
        LayerFault::Seed { line: 7 },
    ),
    (
        b"0\nSECTION\n2\nENTITIES\n0\nLINE\n10\n0\n20\n0\n11\n1\n0\nENDSEC\n0\nEOF",
        LayerFault::Count { line: 5 },
    ),
    (
        b"0\nSECTION\n2\nENTITIES\n0\nPOINT\n10\n0\n20\n0\n230\n-1\n0\nENDSEC\n0\nEOF",
        LayerFault::Extrusion { line: 5 },
    ),
    (
        b"0\nSECTION\n2\nENTITIES\n0\nINSERT\n2\nB\n66\n1\n10\n0\n20\n0\n0\nENDSEC\n0\nEOF",
        LayerFault::Attribs { line: 9 },
    ),
    (
        b"0\nSECTION\n2\nENTITIES\n0\nLWPOLYLINE\n90\n1\n10\n0\n20\n0\n40\n1\n0\nENDSEC\n0\nEOF",
        LayerFault::Width { line: 13 },
    ),
    (
        b"0\nSECTION\n2\nENTITIES\n0\nARC\n10\n0\n0\nENDSEC\n0\nEOF",
        LayerFault::Entity { line: 5 },
    ),
    (
        b"0\nSECTION\n2\nENTITIES\n0\nVERTEX\n10\n0\n20\n0\n0\nENDSEC\n0\nEOF",
        LayerFault::Entity { line: 5 },
    ),
    (
        b"0\nSECTION\n2\nENTITIES\n0\nSEQEND\n0\nENDSEC\n0\nEOF",
        LayerFault::Entity { line: 5 },
    ),
    (
        b"0\nSECTION\n2\nENTITIES\n0\nPOINT\n10\n0\n0\nENDSEC\n0\nEOF",
        LayerFault::Count { line: 5 },
    ),
    (
        b"0\nSECTION\n2\nENTITIES\n0\nPOINT\n10\n0\n20\n0\n10\n1\n0\nENDSEC\n0\nEOF",
        LayerFault::Count { line: 11 },
    ),
    (
        b"0\nSECTION\n2\nENTITIES\n0\nPOINT\n67\n0\n67\n0\n10\n0\n20\n0\n0\nENDSEC\n0\nEOF",
        LayerFault::Count { line: 9 },
    ),
    (
        b"0\nSECTION\n2\nENTITIES\n0\nARC\n67\n0\n67\n0\n0\nENDSEC\n0\nEOF",
        LayerFault::Count { line: 9 },
    ),
    (
        b"0\nSECTION\n2\nENTITIES\n0\nPOINT\n10\nx\n20\n0\n0\nENDSEC\n0\nEOF",
        LayerFault::Number {
            at: 32,
            fault: NumFault::Form { at: 0 },
        },
    ),
    (
        b"0\nSECTION\n2\nENTITIES\n0\nPOINT\n20\n0\n10\nx\n0\nENDSEC\n0\nEOF",
        LayerFault::Number {
            at: 37,
            fault: NumFault::Form { at: 0 },
        },
    ),
    (
        b"0\nSECTION\n2\nENTITIES\n0\nPOINT\n220\n1\n10\n0\n20\n0\n0\nENDSEC\n0\nEOF",
        LayerFault::Extrusion { line: 5 },
    ),
    (
        b"0\nSECTION\n2\nENTITIES\n0\nPOINT\n210\n0\n210\n0\n10\n0\n20\n0\n0\nENDSEC\n0\nEOF",
        LayerFault::Count { line: 9 },
    ),
    (
        b"0\nSECTION\n2\nENTITIES\n0\nPOINT\n230\n1\n230\n2\n10\n0\n20\n0\n0\nENDSEC\n0\nEOF",
        LayerFault::Extrusion { line: 5 },
    ),
    (
        b"0\nSECTION\n2\nENTITIES\n0\nINSERT\n66\n0\n66\n0\n10\n0\n20\n0\n0\nENDSEC\n0\nEOF",
        LayerFault::Count { line: 9 },
    ),
    (
        b"0\nSECTION\n2\nENTITIES\n0\nINSERT\n66\nx\n10\n0\n20\n0\n0\nENDSEC\n0\nEOF",
        LayerFault::Attribs { line: 7 },
    ),
    (
        b"0\nSECTION\n2\nENTITIES\n0\nINSERT\n66\n0.0001\n10\n0\n20\n0\n0\nENDSEC\n0\nEOF",
        LayerFault::Attribs { line: 7 },
    ),
    (
        b"0\nSECTION\n2\nENTITIES\n0\nINSERT\n66\n0\n10\n0\n0\nENDSEC\n0\nEOF",
        LayerFault::Count { line: 5 },
    ),
    (
        b"0\nSECTION\n2\nENTITIES\n0\nTEXT\n10\n0\n20\n0\n72\n1\n0\nENDSEC\n0\nEOF",
        LayerFault::Count { line: 5 },
    ),
    (
        b"0\nSECTION\n2\nENTITIES\n0\nTEXT\n10\n0\n20\n0\n73\n2\n11\n0\n0\nENDSEC\n0\nEOF",
        LayerFault::Count { line: 5 },
    ),
    (
        b"0\nSECTION\n2\nENTITIES\n0\nTEXT\n10\n0\n20\n0\n72\n0\n72\n0\n0\nENDSEC\n0\nEOF",
        LayerFault::Count { line: 13 },
    ),
    (
        b"0\nSECTION\n2\nENTITIES\n0\nTEXT\n72\n0\n73\n0\n73\n0\n10\n0\n20\n0\n0\nENDSEC\n0\nEOF",
        LayerFault::Count { line: 11 },
    ),
    (
        b"0\nSECTION\n2\nENTITIES\n0\nLINE\n5\n1\n5\n2\n10\n0\n20\n0\n11\n1\n21\n1\n0\nENDSEC\n0\nEOF",
        LayerFault::Count { line: 9 },
    ),
    (
        b"0\nSECTION\n2\nENTITIES\n0\nLINE\n10\n0\n20\n0\n11\n1\n21\n1\n30\n1\n0\nENDSEC\n0\nEOF",
        LayerFault::Count { line: 5 },
    ),
    (
        b"0\nSECTION\n2\nENTITIES\n0\nLINE\n10\n0\n20\n0\n11\n1\n21\n1\n30\nx\n0\nENDSEC\n0\nEOF",
        LayerFault::Count { line: 5 },
    ),
    (
        b"0\nSECTION\n2\nENTITIES\n0\nLINE\n10\n0\n20\n0\n11\n1\n21\n1\n30\nx\n31\nx\n0\nENDSEC\n0\nEOF",
        LayerFault::Number {
            at: 51,
            fault: NumFault::Form { at: 0 },
        },
    ),
    (
        b"0\nSECTION\n2\nENTITIES\n0\nLINE\n10\n0\n20\n0\n11\n1\n21\n1\n31\ny\n30\n1\n0\nENDSEC\n0\nEOF",
        LayerFault::Number {
            at: 51,
            fault: NumFault::Form { at: 0 },
        },
    ),
    (
        b"0\nSECTION\n2\nENTITIES\n0\nLINE\n10\n0\n20\n0\n11\n1\n21\n1\n30\n1\n31\n1\n31\n1\n0\nENDSEC\n0\nEOF",
        LayerFault::Count { line: 19 },
    ),
    (
        b"0\nSECTION\n2\nENTITIES\n0\nLINE\n10\n0\n20\n0\n11\n1\n21\n1\n30\n0\n30\n0\n0\nENDSEC\n0\nEOF",
        LayerFault::Count { line: 17 },
    ),
    (
        b"0\nSECTION\n2\nENTITIES\n0\nLWPOLYLINE\n90\n1\n70\nx\n10\n0\n20\n0\n0\nENDSEC\n0\nEOF",
        LayerFault::Flags { line: 9 },
    ),
    (
        b"0\nSECTION\n2\nENTITIES\n0\nLWPOLYLINE\n90\n1\n10\n0\n30\n0\n20\n0\n0\nENDSEC\n0\nEOF",
        LayerFault::Count { line: 9 },
    ),
    (
        b"0\nSECTION\n2\nENTITIES\n0\nLWPOLYLINE\n90\n1\n20\n0\n10\n0\n0\nENDSEC\n0\nEOF",
        LayerFault::Count { line: 9 },
    ),
    (
        b"0\nSECTION\n2\nENTITIES\n0\nLWPOLYLINE\n90\n1\n10\nx\n30\n0\n0\nENDSEC\n0\nEOF",
        LayerFault::Count { line: 9 },
    ),
    (
        b"0\nSECTION\n2\nENTITIES\n0\nLWPOLYLINE\n10\n0\n20\n0\n0\nENDSEC\n0\nEOF",
        LayerFault::Count { line: 5 },
    ),
    (
        b"0\nSECTION\n2\nENTITIES\n0\nLWPOLYLINE\n90\n0\n90\n0\n0\nENDSEC\n0\nEOF",
        LayerFault::Count { line: 9 },
    ),
    (
        b"0\nSECTION\n2\nENTITIES\n0\nLWPOLYLINE\n90\n1\n10\n0\n20\n0\n91\n5\n41\n1\n0\nENDSEC\n0\nEOF",
        LayerFault::Width { line: 15 },
    ),
    (
        b"0\nSECTION\n2\nENTITIES\n0\nLWPOLYLINE\n90\n1\n10\n0\n20\n0\n42\n0\n40\nx\n0\nENDSEC\n0\nEOF",
        LayerFault::Width { line: 15 },
    ),
    (
        b"0\nSECTION\n2\nENTITIES\n0\nPOLYLINE\n70\n4\n0\nENDSEC\n0\nEOF",
        LayerFault::Flags { line: 7 },
    ),
    (
        b"0\nSECTION\n2\nENTITIES\n0\nPOLYLINE\n70\n0\n0\nENDSEC\n0\nEOF",
        LayerFault::Count { line: 9 },
    ),
    (
        b"0\nSECTION\n2\nENTITIES\n0\nPOLYLINE\n0\nVERTEX\n10\n0\n20\n0\n42\n1\n0\nENDSEC\n0\nEOF",
        LayerFault::Bulge { line: 13 },
    ),
    (
        b"0\nSECTION\n2\nENTITIES\n0\nPOLYLINE\n0\nVERTEX\n10\n0\n0\nENDSEC\n0\nEOF",
        LayerFault::Count { line: 7 },
    ),
    (
        b"0\nSECTION\n2\nENTITIES\n0\nPOLYLINE\n0\nVERTEX\n10\n0\n20\n0\n70\n16\n0\nENDSEC\n0\nEOF",
        LayerFault::Flags { line: 13 },
    ),
    (
        b"0\nSECTION\n2\nENTITIES\n0\nPOLYLINE\n0\nVERTEX\n5\n1\n10\n0\n20\n0\n0\nENDSEC\n0\nEOF",
        LayerFault::Seed { line: 9 },
    ),
    (
        b"0\nSECTION\n2\nENTITIES\n0\nPOLYLINE\n0\nPOINT\n10\n0\n20\n0\n0\nENDSEC\n0\nEOF",
        LayerFault::Count { line: 7 },
    ),
    (
        b"0\nSECTION\n2\nENTITIES\n0\nPOLYLINE\n230\n-1\n70\n2\n0\nENDSEC\n0\nEOF",
        LayerFault::Extrusion { line: 5 },
    ),
    // what is no pair is refused first
    (b"AutoCAD Binary DXF", LayerFault::Binary),
    (b"0\nSECTION", LayerFault::NoEof),
    (
        b"0\nSECTION\nx\nENTITIES\n0\nARC",
        LayerFault::Code { line: 3 },
    ),
    (b"0\nSECTION\n2\nENTITIES\n0", LayerFault::Odd { line: 5 }),
    // another entity
    (LINES, LayerFault::Entity { line: 59 }),
];

/// The number of the first drawing with another fault, or none.
fn first_other(alloc: Global, rows: &[(&[u8], LayerFault)], how: How) -> Option<usize> {
    for (number, &(text, wanted)) in rows.iter().enumerate() {
        if fault(alloc, text, how) != Some(wanted) {
            return Some(number);
        }
    }
    None
}

#[test]
fn refuses_by_the_order(rt: HostRuntime) {
    assert_eq!(rt; first_other(rt.alloc(), REFUSED, PLAIN), None);
}

const LOST_DIGITS: &[u8] =
    b"0\nSECTION\n2\nENTITIES\n0\nPOINT\n10\n0.0004\n20\n0\n0\nENDSEC\n0\nEOF";

const EXACT: How = How {
    exact: true,
    ..PLAIN
};

#[test]
fn refuses_lost_digits(rt: HostRuntime) {
    let refused = fault(rt.alloc(), LOST_DIGITS, EXACT);
    assert_eq!(rt; refused, Some(LayerFault::Inexact { at: 32 }));
}

#[test]
fn rounds_lost_digits(rt: HostRuntime) {
    assert_eq!(rt; fault(rt.alloc(), LOST_DIGITS, PLAIN), None);
}

/// Other entities are left out.
const LOOSE: How = How {
    drop_other: true,
    ..PLAIN
};

/// The fault of a drawing that is cut directly before the end of this line: it ends with a code without a value, or
/// before its end of file.
fn fault_of_cut(line: u64) -> LayerFault {
    if line % 2 == 1 {
        LayerFault::Odd { line }
    } else {
        LayerFault::NoEof
    }
}

/// How many lines the drawing has, where each of its cuts has its fault.
fn refused_cuts(alloc: Global, drawing: &[u8]) -> Option<u64> {
    let mut line = 0u64;
    for (place, byte) in drawing.iter().enumerate() {
        if *byte == b'\n' {
            line = line.saturating_add(1);
            if fault(alloc, drawing.get(..place)?, LOOSE) != Some(fault_of_cut(line)) {
                return None;
            }
        }
    }
    Some(line)
}

#[test]
fn refuses_each_drawing_that_is_cut(rt: HostRuntime) {
    assert_eq!(rt; refused_cuts(rt.alloc(), LINES), Some(69));
}

/// Drawings, how they are read, and the sheets that are read of them.
const READ: &[(&[u8], How, WantedSheet)] = &[
    // a line on paper stays, and an arc is left out
    (
        LINES,
        LOOSE,
        (
            &[(PathKind::Line, 0, 2)],
            &[(10000, 0), (0, 10000)],
            &[
                (33, 35, What::NextHandle),
                (122, 187, What::Lines { path: 0 }),
                (241, 268, What::Drop),
            ],
            (0, 1),
        ),
    ),
    // a polyline on paper takes its vertices along
    (
        b"0\nSECTION\n2\nENTITIES\n0\nPOLYLINE\n67\n1\n0\nVERTEX\n0\nVERTEX\n0\nSEQEND\n0\nPOINT\n10\n1\n20\n2\n0\nENDSEC\n0\nEOF",
        PLAIN,
        (
            &[(PathKind::Dot, 0, 1)],
            &[(1000, 2000)],
            &[
                (75, 76, What::X { point: 0 }),
                (80, 81, What::Y { point: 0 }),
            ],
            (0, 0),
        ),
    ),
    (
        b"0\nSECTION\n2\nENTITIES\n0\nPOLYLINE\n70\n1\n10\n0\n0\nVERTEX\n10\n1\n20\n2\n0\nVERTEX\n10\n3.0005\n20\n4\n\
         0\nSEQEND\n0\nTEXT\n11\n7\n21\n8\n20\n6\n10\n5\n72\n1\n0\nENDSEC\n0\nEOF",
        PLAIN,
        (
            &[
                (PathKind::Loop, 0, 2),
                (PathKind::Dot, 2, 3),
                (PathKind::Dot, 3, 4),
            ],
            &[(1000, 2000), (3001, 4000), (5000, 6000), (7000, 8000)],
            &[
                (42, 61, What::Vertex { point: 0 }),
                (61, 85, What::Vertex { point: 1 }),
                (104, 105, What::X { point: 3 }),
                (109, 110, What::Y { point: 3 }),
                (114, 115, What::Y { point: 2 }),
                (119, 120, What::X { point: 2 }),
            ],
            (1, 0),
        ),
    ),
    (
        LOOP,
        PLAIN,
        (
            &[(PathKind::Loop, 0, 2)],
            &[(10000, 0), (0, 10000)],
            &[
                (44, 45, What::Tally { first: 0, past: 2 }),
                (58, 60, What::X { point: 0 }),
                (66, 67, What::Y { point: 0 }),
                (69, 69, What::Vertices { point: 0 }),
                (73, 74, What::X { point: 1 }),
                (80, 82, What::Y { point: 1 }),
                (84, 84, What::Vertices { point: 1 }),
            ],
            (0, 0),
        ),
    ),
];

/// Whether the drawing is read so.
fn is_read(alloc: Global, text: &[u8], how: How, wanted: &WantedSheet) -> bool {
    if text.len() > LONGEST {
        return false;
    }
    is_sheet(read_drawing(alloc, text, how), wanted)
}

/// The number of the first drawing that is read otherwise, or none.
fn first_other_sheet(alloc: Global, rows: &[(&[u8], How, WantedSheet)]) -> Option<usize> {
    for (number, (text, how, wanted)) in rows.iter().enumerate() {
        if !is_read(alloc, text, *how, wanted) {
            return Some(number);
        }
    }
    None
}

#[test]
fn reads_sheets(rt: HostRuntime) {
    assert_eq!(rt; first_other_sheet(rt.alloc(), READ), None);
}

/// `LINES` with the line split, a new handle for its second piece, and the arc left out.
const LINES_CARRIED: &[u8] =
    b"0\nSECTION\n2\nHEADER\n9\n$HANDSEED\n5\n30\n0\nENDSEC\n0\nSECTION\n2\nTABLES\n0\nENDSEC\n0\nSECTION\n2\n\
     BLOCKS\n0\nENDSEC\n0\nSECTION\n2\nENTITIES\n0\nLINE\n5\n2E\n8\nPARCEL\n10\n110.000\n20\n100.000\n30\n0.0\n11\n\
     105.002\n21\n105.002\n31\n0.0\n0\nLINE\n5\n2F\n8\nPARCEL\n10\n105.002\n20\n105.002\n30\n0.0\n11\n100.000\n21\n\
     110.000\n31\n0.0\n0\nLINE\n67\n1\n8\nSHEET\n10\n-500.0\n20\n0.0\n11\n-400.0\n21\n0.0\n0\nENDSEC\n0\nEOF";

const LOOP_CARRIED: &[u8] =
    b"0\r\nSECTION\r\n2\r\nENTITIES\r\n0\r\nLWPOLYLINE\r\n90\r\n4\r\n70\r\n1\r\n10\r\n110.000\r\n20\r\n100.000\r\n\
     10\r\n105.002\r\n20\r\n105.002\r\n10\r\n100.000\r\n20\r\n110.000\r\n10\r\n105.002\r\n20\r\n105.002\r\n0\r\n\
     ENDSEC\r\n0\r\nEOF\r\n";

const LOOP_OF_LINE_FEEDS_CARRIED: &[u8] =
    b"0\nSECTION\n2\nENTITIES\n0\nLWPOLYLINE\n90\n4\n70\n1\n10\n110.000\n20\n100.000\n10\n105.002\n20\n105.002\n10\n\
     100.000\n20\n110.000\n10\n105.002\n20\n105.002\n0\nENDSEC\n0\nEOF\n";

/// Drawings, how they are read, and what is written of them once they are carried through the square. A closed polyline
/// of two vertices has both of its segments split.
const WRITTEN: &[(&[u8], How, &[u8])] = &[
    (LINES, LOOSE, LINES_CARRIED),
    (LOOP, PLAIN, LOOP_CARRIED),
    (LOOP_OF_LINE_FEEDS, PLAIN, LOOP_OF_LINE_FEEDS_CARRIED),
];

/// The number of the first drawing that is written otherwise, or none.
fn first_other_written(alloc: Global, rows: &[(&[u8], How, &[u8])]) -> Option<usize> {
    for (number, &(text, how, wanted)) in rows.iter().enumerate() {
        if !is_moved_to::<Dxf>(alloc, SQUARE, text, how, wanted) {
            return Some(number);
        }
    }
    None
}

#[test]
fn writes_split_lines_and_loops(rt: HostRuntime) {
    assert_eq!(rt; first_other_written(rt.alloc(), WRITTEN), None);
    written_pairs();
}
