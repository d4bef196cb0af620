//! Lines of well-known text. The expected places, sheets and texts are worked out by hand.

use crate::moves::{HINGE, is_moved_to};
use crate::sheets::{LONGEST, WantedSheet, how, is_sheet};
use mm_decimal::NumFault;
use plane_base::Pt;
use sheet_base::{Layer, LayerFault, PathKind, Sheet, What};
use std::alloc::{AllocError, Global};
use tin_texts::{SQUARE, TRIANGLE};
use wkt_layer::Wkt;

const ZEROS: &str = "POINT (00000000000000000000000000000000000000000000000000000000000000000 1)";

/// The text is not longer than `LONGEST`.
fn read(alloc: Global, text: &[u8], exact: bool) -> Result<Sheet, LayerFault> {
    if text.len() > LONGEST {
        return Err(LayerFault::NoMemory);
    }
    Wkt::read(alloc, text, how(exact))
}

/// The number of the first text with another fault, or none.
fn first_other(alloc: Global, rows: &[(&str, LayerFault)], exact: bool) -> Option<usize> {
    for (number, &(text, fault)) in rows.iter().enumerate() {
        if read(alloc, text.as_bytes(), exact).err() != Some(fault) {
            return Some(number);
        }
    }
    None
}

/// Lines that are refused, at places that were counted by hand from the grammar.
const BAD_LINES: &[(&str, LayerFault)] = &[
    ("CIRCLE (0 0)", LayerFault::Kind { at: 0 }),
    ("EMPTY", LayerFault::Kind { at: 0 }),
    ("Z", LayerFault::Kind { at: 0 }),
    ("POINTZ (1 2 3)", LayerFault::Kind { at: 0 }),
    ("SRID=4326;POINT (1 2)", LayerFault::Kind { at: 0 }),
    ("GEOMETRYCOLLECTION (EMPTY)", LayerFault::Kind { at: 20 }),
    (
        "GEOMETRYCOLLECTION (POINT (1 2), Z)",
        LayerFault::Kind { at: 33 },
    ),
    ("POINT (1 2)\n\n  \r\nCIRCLE", LayerFault::Kind { at: 17 }),
    ("POINT (5 0 1)", LayerFault::Height { at: 11 }),
    ("POINT ZM (1 2 3 4)", LayerFault::Height { at: 6 }),
    ("POINT M (5 0 1)", LayerFault::Height { at: 6 }),
    ("POINT zm(1 2)", LayerFault::Height { at: 6 }),
    ("POINT Z (1 2 3 4)", LayerFault::Height { at: 15 }),
    ("POINT Z (1 2 3 4-)", LayerFault::Height { at: 15 }),
    ("LINESTRING (1 2 3 4)", LayerFault::Height { at: 16 }),
    ("LINESTRING (1 2 3x)", LayerFault::Height { at: 16 }),
    ("MULTIPOINT (1 2 3)", LayerFault::Height { at: 16 }),
    ("MULTIPOINT Z (1 2 3 4)", LayerFault::Height { at: 20 }),
    ("GEOMETRYCOLLECTION M EMPTY", LayerFault::Height { at: 19 }),
    (
        "GEOMETRYCOLLECTION Z (POINT (5 0 1))",
        LayerFault::Height { at: 33 },
    ),
    ("POINT (1 2 1e)", LayerFault::Height { at: 11 }),
    ("POLYGON ((0 0, 1 0, 0 0))", LayerFault::Ring { at: 9 }),
    ("POLYGON ((0 0, 1 0, 1 1, 0 1))", LayerFault::Ring { at: 9 }),
    (
        "POLYGON ((0 0, 1 0, 1 1, 0 0.001))",
        LayerFault::Ring { at: 9 },
    ),
    (
        "POLYGON ((0 0, 1 0, 1 1, 0 0), (0 0, 1 0, 0 0))",
        LayerFault::Ring { at: 31 },
    ),
    (
        "POLYGON Z ((0 0 1, 1 0 1, 1 1 1, 0 0 2))",
        LayerFault::Ring { at: 11 },
    ),
    (
        "POLYGON Z ((0 0 1, 1 0 1, 0 0 1))",
        LayerFault::Ring { at: 11 },
    ),
    (
        "MULTIPOLYGON (((0 0, 1 0, 0 1, 0 0)), ((0 0, 1 0, 0 1)))",
        LayerFault::Ring { at: 39 },
    ),
];

#[test]
fn refuses_lines(rt: HostRuntime) {
    assert_eq!(rt; first_other(rt.alloc(), BAD_LINES, false), None);
}

/// Texts, whether lost digits are refused, and the number that is.
const BAD_NUMBERS: &[(&str, bool, u64, NumFault)] = &[
    ("POINT (5 0-)", false, 9, NumFault::Form { at: 1 }),
    ("5EMPTY", false, 0, NumFault::Form { at: 2 }),
    ("POINT 5EMPTY", false, 6, NumFault::Form { at: 2 }),
    ("POINT (5E 0)", false, 7, NumFault::Form { at: 2 }),
    ("POINT (+ 1)", false, 7, NumFault::Form { at: 1 }),
    ("POINT Z (1 2 3-)", false, 13, NumFault::Form { at: 1 }),
    ("MULTIPOINT Z (1 2 +)", false, 18, NumFault::Form { at: 1 }),
    ("POINT (1e100 0)", true, 7, NumFault::Range),
    (ZEROS, true, 7, NumFault::Long),
];

/// The number of the first text with another number that is refused, or none.
fn first_other_number(alloc: Global, rows: &[(&str, bool, u64, NumFault)]) -> Option<usize> {
    for (number, &(text, exact, at, fault)) in rows.iter().enumerate() {
        if read(alloc, text.as_bytes(), exact).err() != Some(LayerFault::Number { at, fault }) {
            return Some(number);
        }
    }
    None
}

#[test]
fn refuses_numbers(rt: HostRuntime) {
    assert_eq!(rt; first_other_number(rt.alloc(), BAD_NUMBERS), None);
}

const LOST_DIGITS: &[(&str, LayerFault)] = &[
    ("POINT (5 0.0004)", LayerFault::Inexact { at: 9 }),
    ("POINT 0.0004", LayerFault::Inexact { at: 6 }),
    ("POINT (5 0 0.0004)", LayerFault::Height { at: 11 }),
    ("POINT Z (5 0 0.0004)", LayerFault::Inexact { at: 13 }),
    ("MULTIPOINT (0.0004 1)", LayerFault::Inexact { at: 12 }),
    (
        "POLYGON ((0 0, 1 0, 1 1, 0 0.0004))",
        LayerFault::Inexact { at: 27 },
    ),
];

#[test]
fn refuses_lost_digits(rt: HostRuntime) {
    assert_eq!(rt; first_other(rt.alloc(), LOST_DIGITS, true), None);
}

/// Texts, and the place of the first token that does not belong there.
const BAD_TOKENS: &[(&str, u64)] = &[
    ("POINT", 5),
    ("POINT (5", 8),
    ("POINT EMPTY EMPTY", 12),
    ("POINT ()", 7),
    ("POINT (5 0", 10),
    ("POINT (5 0) x", 12),
    ("POINT (5 0))", 11),
    ("POINT (5 0)\tPOINT (5 0)", 12),
    ("POINT POINT (1 2)", 6),
    ("(5 0)", 0),
    ("5 0", 0),
    ("POINT 0.0004", 6),
    ("POINT ZZ (1 2)", 6),
    ("POINT Z", 7),
    ("POINT Z Z (1 2 3)", 8),
    ("POINT Z M (1 2 3)", 8),
    ("POINT Z 1 2 3", 8),
    ("POINT Z (1 2)", 12),
    ("POINT (Z 1 2 3)", 7),
    ("POLYGON Z ((0 0))", 15),
    ("MULTIPOINT Z (1 2)", 17),
    ("MULTIPOINT Z ((1 2))", 18),
    ("POINT (1, 2)", 8),
    ("POINT (1 2, 3 4)", 10),
    ("POINT (EMPTY)", 7),
    ("POINT (E5 1)", 7),
    ("POINT (1e5 e)", 11),
    ("POINT [1 2]", 6),
    ("\u{FEFF}POINT (1 2)", 0),
    ("LINESTRING (1 2, )", 17),
    ("LINESTRING (1 2,, 3 4)", 16),
    ("LINESTRING ((1 2))", 12),
    ("LINESTRING (1 2; 3 4)", 15),
    ("LINESTRING 1 2", 11),
    ("LINESTRING (1 2", 15),
    ("LINESTRING (1 2,", 16),
    ("LINESTRING EMPTY (1 2)", 17),
    ("POLYGON (0 0, 1 0, 1 1, 0 0)", 9),
    ("POLYGON (()", 10),
    ("POLYGON ((0 0, 1 0, 1 1, 0 0)", 29),
    ("POLYGON (Z", 9),
    ("MULTIPOINT ((1 2) (3 4))", 18),
    ("MULTIPOINT (1 2, (3 4, 5 6))", 21),
    ("MULTIPOINT (1)", 13),
    ("MULTIPOINT (EMPTY 1 2)", 18),
    ("MULTIPOINT (1 2 EMPTY)", 16),
    ("MULTILINESTRING (1 2)", 17),
    ("MULTILINESTRING ((1 2), EMPTY, (3 4)", 36),
    ("MULTIPOLYGON ((0 0))", 15),
    ("GEOMETRYCOLLECTION (1 2)", 20),
    ("GEOMETRYCOLLECTION (POINT (1 2) Z)", 32),
    ("GEOMETRYCOLLECTION (POINT (1 2),)", 32),
    ("GEOMETRYCOLLECTION EMPTY)", 24),
    ("GEOMETRYCOLLECTION (GEOMETRYCOLLECTION (POINT (1 2))", 52),
    ("POINT (1 2)\nPOINT (1", 20),
    ("POINT (5 0\n)", 10),
];

/// The number of the first text that is bad at another place, or none.
fn first_other_token(alloc: Global, rows: &[(&str, u64)]) -> Option<usize> {
    for (number, &(text, at)) in rows.iter().enumerate() {
        if read(alloc, text.as_bytes(), false).err() != Some(LayerFault::Bad { at }) {
            return Some(number);
        }
    }
    None
}

#[test]
fn refuses_other_tokens(rt: HostRuntime) {
    assert_eq!(rt; first_other_token(rt.alloc(), BAD_TOKENS), None);
}

/// This many collections in each other, each begun so, the innermost with this point.
fn nested_text(alloc: Global, depth: u64, begin: &str, point: &str) -> Result<String, AllocError> {
    let mut text = String::new(alloc);
    for _ in 0..depth {
        text.push_str(begin)?;
    }
    text.push_str(point)?;
    for _ in 0..depth {
        text.push(')')?;
    }
    Ok(text)
}

/// How many collections, how each begins, the point, and the fault.
type Nested = (u64, &'static str, &'static str, Option<LayerFault>);

/// The number of the first row with another fault, or none.
fn first_other_nested(alloc: Global, rows: &[Nested]) -> Result<Option<usize>, AllocError> {
    for (number, &(depth, begin, point, fault)) in rows.iter().enumerate() {
        let text = nested_text(alloc, depth, begin, point)?;
        if read(alloc, text.as_bytes(), false).err() != fault {
            return Ok(Some(number));
        }
    }
    Ok(None)
}

const NESTED: &[Nested] = &[
    (64, "geometrycollection(", "POINT EMPTY", None),
    (
        65,
        "geometrycollection(",
        "POINT EMPTY",
        Some(LayerFault::Deep { at: 1216 }),
    ),
    (64, "GEOMETRYCOLLECTION (", "POINT (5 0)", None),
    (
        65,
        "GEOMETRYCOLLECTION (",
        "POINT (5 0)",
        Some(LayerFault::Deep { at: 1280 }),
    ),
];

#[test]
fn refuses_deep_collections(rt: HostRuntime) -> Result<(), AllocError> {
    assert_eq!(rt; first_other_nested(rt.alloc(), NESTED)?, None);
    Ok(())
}

/// Texts, and the sheets that are read of them.
const READ: &[(&str, WantedSheet)] = &[
    (
        "MULTIPOINT (5 0, (0 0), EMPTY)",
        (
            &[(PathKind::Dot, 0, 1), (PathKind::Dot, 1, 2)],
            &[(5000, 0), (0, 0)],
            &[
                (12, 15, What::WktList { path: 0 }),
                (18, 21, What::WktList { path: 1 }),
            ],
            (0, 0),
        ),
    ),
    (
        "LINESTRING (1 1, 1 1, 2 1)",
        (
            &[(PathKind::Line, 0, 3)],
            &[(1000, 1000), (1000, 1000), (2000, 1000)],
            &[(12, 25, What::WktList { path: 0 })],
            (0, 0),
        ),
    ),
    (
        "LINESTRING (10 0, 0 10)\nPOINT (6 4)",
        (
            &[(PathKind::Line, 0, 2), (PathKind::Dot, 2, 3)],
            &[(10000, 0), (0, 10000), (6000, 4000)],
            &[
                (12, 22, What::WktList { path: 0 }),
                (31, 34, What::WktList { path: 1 }),
            ],
            (0, 0),
        ),
    ),
    (
        "polygon(( 0 0,1 0 , 1 1, 0 0.0004\t))\r\n",
        (
            &[(PathKind::Loop, 0, 3)],
            &[(0, 0), (1000, 0), (1000, 1000)],
            &[(10, 33, What::WktRing { path: 0 })],
            (1, 0),
        ),
    ),
    (
        "GEOMETRYCOLLECTION (MULTIPOLYGON (((0 0, 1 0, 0 1, 0 0))), MULTILINESTRING ((7 8, 9 1)))",
        (
            &[(PathKind::Loop, 0, 3), (PathKind::Line, 3, 5)],
            &[(0, 0), (1000, 0), (0, 1000), (7000, 8000), (9000, 1000)],
            &[
                (36, 54, What::WktRing { path: 0 }),
                (77, 85, What::WktList { path: 1 }),
            ],
            (0, 0),
        ),
    ),
];

/// The number of the first text that is read otherwise, or none.
fn first_other_sheet(alloc: Global, rows: &[(&str, WantedSheet)]) -> Option<usize> {
    for (number, (text, wanted)) in rows.iter().enumerate() {
        if !is_sheet(read(alloc, text.as_bytes(), false), wanted) {
            return Some(number);
        }
    }
    None
}

#[test]
fn reads_sheets(rt: HostRuntime) {
    assert_eq!(rt; first_other_sheet(rt.alloc(), READ), None);
}

/// Whether a sheet of these points was read, and each has the height of the same place.
fn has_heights(read: Result<Sheet, LayerFault>, points: &[Pt], heights: &[Option<i64>]) -> bool {
    match read {
        Ok(sheet) => {
            for (number, height) in heights.iter().enumerate() {
                if sheet.heights().at(number) != *height {
                    return false;
                }
            }
            sheet.points() == points && heights.len() == points.len()
        }
        Err(_) => false,
    }
}

/// Texts, the points that are read, and their heights; `None` is no height.
type TextHeights = (&'static str, [Pt; 2], [Option<i64>; 2]);

const HEIGHTS: &[TextHeights] = &[
    (
        "LINESTRING Z (10 0 1, 0 10 2)",
        [Pt { x: 10000, y: 0 }, Pt { x: 0, y: 10000 }],
        [Some(1000), Some(2000)],
    ),
    (
        "MULTIPOINT z(1 2 -0.0016, (3 4 0))",
        [Pt { x: 1000, y: 2000 }, Pt { x: 3000, y: 4000 }],
        [Some(-2), Some(0)],
    ),
    (
        "GEOMETRYCOLLECTION Z (POINT (1 2), POINT Z (3 4 5))",
        [Pt { x: 1000, y: 2000 }, Pt { x: 3000, y: 4000 }],
        [None, Some(5000)],
    ),
];

/// The number of the first text that has other points or heights, or none.
fn first_other_heights(alloc: Global, rows: &[TextHeights]) -> Option<usize> {
    for (number, row) in rows.iter().enumerate() {
        let read = read(alloc, row.0.as_bytes(), false);
        if !has_heights(read, &row.1, &row.2) {
            return Some(number);
        }
    }
    None
}

#[test]
fn reads_heights(rt: HostRuntime) {
    assert_eq!(rt; first_other_heights(rt.alloc(), HEIGHTS), None);
}

const EMPTY: &[&str] = &[
    "",
    "\n \n\t\r\n",
    "POLYGON (EMPTY, EMPTY)",
    "MultiPolygon ((EMPTY), EMPTY)",
    "MULTILINESTRING(EMPTY)",
    "GEOMETRYCOLLECTION Z EMPTY",
    "POINT z EMPTY",
    "GEOMETRYCOLLECTION (POINT EMPTY, MULTIPOINT (EMPTY), GEOMETRYCOLLECTION EMPTY)",
];

/// A sheet without content.
const NOTHING: WantedSheet = (&[], &[], &[], (0, 0));

/// The first of the texts that has some content, or none.
fn first_with_content(alloc: Global, texts: &[&'static str]) -> Option<&'static str> {
    for &text in texts {
        if !is_sheet(read(alloc, text.as_bytes(), false), &NOTHING) {
            return Some(text);
        }
    }
    None
}

#[test]
fn reads_empty_contents(rt: HostRuntime) {
    assert_eq!(rt; first_with_content(rt.alloc(), EMPTY), None);
}

/// Triangulations, texts, and what is written of them.
const MOVED: &[(&str, &str, &str)] = &[
    (
        SQUARE,
        "LINESTRING (10 0, 0 10)",
        "LINESTRING (110.000 100.000, 105.002 105.002, 100.000 110.000)",
    ),
    (
        TRIANGLE,
        "MULTIPOINT (5 0, (0 0), EMPTY)",
        "MULTIPOINT (105.001 100.000, (100.000 100.000), EMPTY)",
    ),
    (TRIANGLE, "Point(5 0)", "Point(105.001 100.000)"),
    (
        TRIANGLE,
        "POINT Z (5 0 1)",
        "POINT Z (105.001 100.000 1.000)",
    ),
    (
        TRIANGLE,
        "Multipoint z(5 0 1,  (0 0 -2), EMPTY)",
        "Multipoint z(105.001 100.000 1.000,  (100.000 100.000 -2.000), EMPTY)",
    ),
    (
        SQUARE,
        "LINESTRING Z (10 0 1, 0 10 2)",
        "LINESTRING Z (110.000 100.000 1.000, 105.002 105.002 1.500, 100.000 110.000 2.000)",
    ),
    // The middle's height is half a millimetre below zero, and is rounded up.
    (
        SQUARE,
        "LINESTRING Z (10 0 0, 0 10 -0.001)",
        "LINESTRING Z (110.000 100.000 0.000, 105.002 105.002 0.000, 100.000 110.000 -0.001)",
    ),
    // The first side is cut where the middle corner is on it.
    (
        HINGE,
        "\t\nPOLYGON (( 0 0,1 0,1 1,0 0 ) )\n",
        "\t\nPOLYGON (( 0.000 0.000, 0.500 -0.005, 1.000 0.000, 1.000 1.000, 0.000 0.000 ) )\n",
    ),
    // Under the diagonal (x, y) goes to (100 + x + 0.0003 y, 100 + 1.0003 y). The sides cross it at u = 81/17 and
    // u = 9/10, which go to 104.76613.. and 100.90027.
    (
        SQUARE,
        "POLYGON ((1 0, 9 1, 0 9, 1 0))",
        "POLYGON ((101.000 100.000, 109.000 101.000, 104.766 104.766, 100.000 109.000, 100.900 100.900, 101.000 100.000))",
    ),
    // The same ring with heights: the sides cross at 8/17 and 9/10 of their lengths, at heights of 1 + 16/17 and 1.2.
    (
        SQUARE,
        "POLYGON Z ((1 0 1, 9 1 1, 0 9 3, 1 0 1))",
        "POLYGON Z ((101.000 100.000 1.000, 109.000 101.000 1.000, 104.766 104.766 1.941, 100.000 109.000 3.000, \
         100.900 100.900 1.200, 101.000 100.000 1.000))",
    ),
];

/// The number of the first text that is written otherwise, or none.
fn first_other_moved(alloc: Global, rows: &[(&str, &str, &str)]) -> Option<usize> {
    for (number, &(tin, text, wanted)) in rows.iter().enumerate() {
        if !is_moved_to::<Wkt>(alloc, tin, text.as_bytes(), how(true), wanted.as_bytes()) {
            return Some(number);
        }
    }
    None
}

#[test]
fn puts_images(rt: HostRuntime) {
    assert_eq!(rt; first_other_moved(rt.alloc(), MOVED), None);
}
