//! Lines for standard error after a refusal, and the places that they name.

use job_words::WordsFault;
use mm_decimal::NumFault;
use remarks::{LineColumn, cure, finding, line_and_column, refusal_remarks};
use runs::Refusal;
use sheet_base::LayerFault;
use std::alloc::{AllocError, Global};
use tin_base::Frame;
use tin_check::CheckFault;
use tin_file::{Rows, TinFault};

/// Bytes, a place, and its line and column.
const PLACES: &[(&[u8], u64, u64, u64)] = &[
    (b"", 0, 1, 1),
    (b"ab\ncd", 0, 1, 1),
    (b"ab\ncd", 2, 1, 3),
    (b"ab\ncd", 3, 2, 1),
    (b"ab\ncd", 5, 2, 3),
    (b"ab\ncd", 99, 2, 3),
    (b"\n\n", 1, 2, 1),
    (b"\n\n", 2, 3, 1),
    (b"a\r\n\xC3\xA4b", 5, 2, 3),
];

/// The number of the first row with another line or column, or none.
fn first_other_place(rows: &[(&[u8], u64, u64, u64)]) -> Option<usize> {
    for (number, &(bytes, at, line, column)) in rows.iter().enumerate() {
        if line_and_column(bytes, at) != (LineColumn { line, column }) {
            return Some(number);
        }
    }
    None
}

#[test]
fn counts_lines_and_columns(rt: HostRuntime) {
    assert_eq!(rt; first_other_place(PLACES), None);
}

/// The wanted lines, where other lines come after the refusal, or none.
fn if_other(
    alloc: Global,
    refusal: Refusal,
    name: &str,
    bytes: Option<&[u8]>,
    wanted: &'static str,
) -> Result<Option<&'static str>, AllocError> {
    let text = refusal_remarks(alloc, &refusal, name, bytes, true)?;
    if text.as_str() == wanted {
        return Ok(None);
    }
    Ok(Some(wanted))
}

/// Faults of layers with a name and its bytes, and what is said.
const OF_LAYERS: &[(LayerFault, &str, &[u8], &str)] = &[
    (
        LayerFault::Height { at: 51 },
        "com/c3.geojson",
        b"{\n \"coordinates\": [2600000.125, 1200000.5, 484.91, 7]}",
        "tinmove: com/c3.geojson:2:50: a number too many: 7
tinmove: nothing was written; heights are marked and measures left out by: ogr2ogr -dim XYZ
",
    ),
    (
        LayerFault::Height { at: 6 },
        "a.wkt",
        b"POINT M (1 2 3)\n",
        "tinmove: a.wkt:1:7: a measure, or the mark of one: M
tinmove: nothing was written; heights are marked and measures left out by: ogr2ogr -dim XYZ
",
    ),
    (
        LayerFault::Bad { at: 0 },
        "a.wkt",
        b"\xEF\xBB\xBFPOINT(1 2)\n",
        "tinmove: a.wkt:1:1: a byte order mark
tinmove: nothing was written; save the file without it
",
    ),
    (
        LayerFault::Code { line: 1 },
        "a.dxf",
        b"\xEF\xBB\xBF0\nSECTION\n",
        "tinmove: a.dxf:1: a byte order mark
tinmove: nothing was written; save the file without it
",
    ),
    (
        LayerFault::Code { line: 1 },
        "a.dxf",
        b"AC1027\x00\x00",
        "tinmove: a.dxf:1: a drawing in DWG form
tinmove: nothing was written; save it as ASCII DXF
",
    ),
    (
        LayerFault::Bad { at: 0 },
        "a.geojson",
        b"\x1F\x8B\x08\x00",
        "tinmove: a.geojson:1:1: a packed file
tinmove: nothing was written; unpack it by: gunzip
",
    ),
    (
        LayerFault::Bad { at: 0 },
        "a.wkt",
        b"\xFF\xFEP\x00",
        "tinmove: a.wkt:1:1: a text in UTF-16
tinmove: nothing was written; save it as UTF-8
",
    ),
    (
        LayerFault::Bad { at: 9 },
        "a.wkt",
        b"POINT(1 2",
        "tinmove: a.wkt:1:10: the file ends here
tinmove: nothing was written; it is empty or cut off: write it again
",
    ),
    (
        LayerFault::Bad { at: 0 },
        "a.geojson",
        b"",
        "tinmove: a.geojson:1:1: the file ends here
tinmove: nothing was written; it is empty or cut off: write it again
",
    ),
    (
        LayerFault::Code { line: 2 },
        "a.dxf",
        b"\xEF\xBB\xBF0\nSECTION\n",
        "tinmove: a.dxf:2: a line that is no group code
tinmove: nothing was written; save the drawing again
",
    ),
    (
        LayerFault::Bad { at: 22 },
        "a.wkt",
        b"POINT(0 0)\nPOINT(1 2) POINT(3 4)\n",
        "tinmove: a.wkt:2:12: a second geometry on one line: POINT
tinmove: nothing was written; write one geometry a line
",
    ),
    (
        LayerFault::Bad { at: 7 },
        "a.wkt",
        b"POINT(1;2)\n",
        "tinmove: a.wkt:1:8: text that may not stand here: ;2
tinmove: nothing was written; a WKT file has one geometry a line, a GeoJSON file one object, a list of points three numbers a line
",
    ),
    (
        LayerFault::Kind { at: 0 },
        "a.wkt",
        b"AREA=2056;POINTXXXXXXXXXXXXXXXXX(1 2)",
        "tinmove: a.wkt:1:1: a geometry of another kind: AREA=2056;POINTXXXXXXXXX
tinmove: nothing was written; curves are made straight by: ogr2ogr -nlt CONVERT_TO_LINEAR
",
    ),
    (
        LayerFault::Number {
            at: 6,
            fault: NumFault::Form { at: 4 },
        },
        "a.wkt",
        b"POINT(12.3m 4)",
        "tinmove: a.wkt:1:7: a number that is no numeral: 12.3m
tinmove: nothing was written
",
    ),
    (
        LayerFault::Ring { at: 8 },
        "a.wkt",
        b"POLYGON((0 0, 1 0, 1 1))",
        "tinmove: a.wkt:1:9: a ring that is not closed, or has fewer than four points
tinmove: nothing was written; close it; or try: ogr2ogr -makevalid
",
    ),
];

/// The wanted lines of the first fault of a layer with other lines, or none.
fn first_other_layer(
    alloc: Global,
    rows: &[(LayerFault, &str, &[u8], &'static str)],
) -> Result<Option<&'static str>, AllocError> {
    for &(fault, name, bytes, wanted) in rows {
        let refusal = Refusal::Layer { layer: 0, fault };
        if let Some(lines) = if_other(alloc, refusal, name, Some(bytes), wanted)? {
            return Ok(Some(lines));
        }
    }
    Ok(None)
}

#[test]
fn says_what_is_wrong_with_layers(rt: HostRuntime) {
    assert_eq!(rt; first_other_layer(rt.alloc(), OF_LAYERS), Ok(None));
}

/// Other refusals with a name and the bytes where they are known, and what is said.
const OF_RUNS: &[(Refusal, &str, Option<&[u8]>, &str)] = &[
    (
        Refusal::Layer {
            layer: 0,
            fault: LayerFault::Bad { at: 22 },
        },
        "a.wkt",
        None,
        "tinmove: a.wkt: at byte 22: text that may not stand here
tinmove: nothing was written; a WKT file has one geometry a line, a GeoJSON file one object, a list of points three numbers a line
",
    ),
    (
        Refusal::Layer {
            layer: 0,
            fault: LayerFault::Entity { line: 120 },
        },
        "p.dxf",
        None,
        "tinmove: p.dxf:120: an entity of a kind that is not carried
tinmove: nothing was written; see recipes/readable_drawing.py, or leave such entities out by: --drop-other
",
    ),
    (
        Refusal::Outside {
            layer: 1,
            path: 3,
            segment: 4,
        },
        "roads.wkt",
        None,
        "tinmove: roads.wkt: path 3 segment 4: not wholly inside the triangles
tinmove: nothing was written; recipes/outside.sh lists all that is outside
",
    ),
    (
        Refusal::Tin(TinFault::Row {
            list: Rows::Vertices,
            row: 5,
        }),
        "t.json",
        None,
        "tinmove: t.json: row 5 of vertices: not as many values as columns, or one that is no number
tinmove: nothing was written
",
    ),
    (
        Refusal::Tin(TinFault::Index { triangle: 8 }),
        "t.json",
        None,
        "tinmove: t.json: row 8 of triangles: the number of a corner is not below the number of rows of vertices
tinmove: nothing was written; rows are counted from 0
",
    ),
    (
        Refusal::Check(CheckFault::Meets {
            first: 3,
            second: 7,
            frame: Frame::Target,
        }),
        "t.json",
        None,
        "tinmove: t.json: triangles 3 and 7: they overlap in the target frame, or a corner of one is on a side of the other
tinmove: nothing was written; look for a wrong target place
",
    ),
    (
        Refusal::Check(CheckFault::TurnsOver { triangle: 9 }),
        "t.json",
        None,
        "tinmove: t.json: triangle 9: it is turned over in the target frame
tinmove: nothing was written; look for a wrong target place, or for two that are exchanged
",
    ),
    (
        Refusal::TinUnread,
        "t.json",
        None,
        "tinmove: t.json: the file is missing or could not be read
tinmove: nothing was written; look at its name, and at who may read it
",
    ),
    (
        Refusal::Words(WordsFault::Suffix { layer: 2 }),
        "",
        None,
        "tinmove: layer 2: its name ends in none of .wkt, .geojson, .json and .dxf
tinmove: nothing was written; convert it by ogr2ogr, or rename it
",
    ),
    (
        Refusal::Words(WordsFault::NoMode),
        "",
        None,
        "tinmove: no mode: the first word is to be migrate, check, make, verify or heights
tinmove: nothing was written; 'tinmove --help' explains the words
",
    ),
    (
        Refusal::NoMemory,
        "a.wkt",
        None,
        "tinmove: memory ran out
tinmove: nothing was written; carry smaller layers, or one a run
",
    ),
    (
        Refusal::Check(CheckFault::NoMemory),
        "t.json",
        None,
        "tinmove: t.json: memory ran out
tinmove: nothing was written; carry with a smaller triangulation
",
    ),
    (
        Refusal::Check(CheckFault::NoMemory),
        "",
        None,
        "tinmove: memory ran out
tinmove: nothing was written; carry with a smaller triangulation
",
    ),
    (
        Refusal::Tin(TinFault::NoHorizontal),
        "t.json",
        None,
        "tinmove: t.json: the file moves heights alone
tinmove: nothing was written; 'tinmove heights' moves points with heights by it
",
    ),
    (
        Refusal::Tin(TinFault::Json { at: 6 }),
        "t.json",
        Some(b"{\"a\": x}"),
        "tinmove: t.json:1:7: text that may not stand here: x
tinmove: nothing was written; recipes/triangulate.py makes a triangulation of a table
",
    ),
    (
        Refusal::Tin(TinFault::Json { at: 6 }),
        "t.json",
        Some(b"{\"a\": "),
        "tinmove: t.json:1:7: the file ends here
tinmove: nothing was written; it is empty or cut off: write it again
",
    ),
    (
        Refusal::Tin(TinFault::Json { at: 0 }),
        "t.json",
        Some(b"\x1F\x8B\x08\x00"),
        "tinmove: t.json:1:1: a packed file
tinmove: nothing was written; unpack it by: gunzip
",
    ),
];

/// The wanted lines of the first refusal with other lines, or none.
fn first_other(
    alloc: Global,
    rows: &[(Refusal, &str, Option<&[u8]>, &'static str)],
) -> Result<Option<&'static str>, AllocError> {
    for &(refusal, name, bytes, wanted) in rows {
        if let Some(lines) = if_other(alloc, refusal, name, bytes, wanted)? {
            return Ok(Some(lines));
        }
    }
    Ok(None)
}

#[test]
fn says_what_is_wrong_with_runs(rt: HostRuntime) {
    assert_eq!(rt; first_other(rt.alloc(), OF_RUNS), Ok(None));
}

#[test]
fn knows_faults_of_layers(rt: HostRuntime) {
    let height = LayerFault::Height { at: 7 };
    assert_eq!(rt; finding(height), "a measure, or the mark of one");
    assert_eq!(rt;
        cure(height),
        Some("heights are marked and measures left out by: ogr2ogr -dim XYZ")
    );
    assert_eq!(rt; cure(LayerFault::Shape { at: 7 }), None);
}
