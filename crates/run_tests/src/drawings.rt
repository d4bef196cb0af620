//! Runs over whole drawings, in memory. The expected texts and lines are worked out by hand.

use crate::memory_runs::{Made, MemoryJob, makes, other_job};
use runs::Status;
use std::alloc::{AllocError, Global};
use tin_texts::SQUARE;

/// A drawing up to the end of its entities: a line across the diagonal, and a line on a layout of paper.
const FRONT: &str =
    "  0\nSECTION\n  2\nHEADER\n  9\n$HANDSEED\n  5\n2F\n  0\nENDSEC\n  0\nSECTION\n  2\nTABLES\n  0\nENDSEC\n  0\n\
     SECTION\n  2\nBLOCKS\n  0\nENDSEC\n  0\nSECTION\n  2\nENTITIES\n  0\nLINE\n  5\n2E\n  8\nPARCEL\n 10\n\
     10.0\n 20\n0.0\n 30\n0.0\n 11\n0.0\n 21\n10.0\n 31\n0.0\n  0\nLINE\n 67\n1\n  8\nSHEET\n 10\n-500.0\n 20\n\
     0.0\n 11\n-400.0\n 21\n0.0\n";

/// An arc, which is no entity that is carried.
const ARC: &str = "  0\nARC\n 10\n5.0\n 20\n5.0\n 40\n1.0\n";

/// What ends the drawing.
const BACK: &str = "  0\nENDSEC\n  0\nEOF\n";

/// The drawing without an arc, carried through the square.
const CARRIED: &str =
    "  0\nSECTION\n  2\nHEADER\n  9\n$HANDSEED\n  5\n30\n  0\nENDSEC\n  0\nSECTION\n  2\nTABLES\n  0\nENDSEC\n  0\n\
     SECTION\n  2\nBLOCKS\n  0\nENDSEC\n  0\nSECTION\n  2\nENTITIES\n  0\nLINE\n  5\n2E\n  8\nPARCEL\n 10\n\
     110.000\n 20\n100.000\n 30\n0.0\n 11\n105.002\n 21\n105.002\n 31\n0.0\n  0\nLINE\n  5\n2F\n  8\nPARCEL\n 10\n\
     105.002\n 20\n105.002\n 30\n0.0\n 11\n100.000\n 21\n110.000\n 31\n0.0\n  0\nLINE\n 67\n1\n  8\nSHEET\n 10\n\
     -500.0\n 20\n0.0\n 11\n-400.0\n 21\n0.0\n  0\nENDSEC\n  0\nEOF\n";

/// What is said of it.
const REPORT: &str = "tinmove report 1
triangulation corners 4 triangles 2 inexact 0 name s.json
layer 0 paths 1 segments 1 pieces 2 inexact 0 dropped 0 name p.dxf
extents 0 as they were
changes 0
end
";

/// The texts one after the other.
fn joined_text(alloc: Global, texts: &[&str]) -> Result<String, AllocError> {
    let mut all = String::new(alloc);
    for text in texts {
        all.push_str(text)?;
    }
    Ok(all)
}

/// The text with a carriage return in front of each line feed.
fn with_returns(alloc: Global, text: &str) -> Result<String, AllocError> {
    let mut all = String::new(alloc);
    for letter in text.chars() {
        if letter == '\n' {
            all.push('\r')?;
        }
        all.push(letter)?;
    }
    Ok(all)
}

const MIGRATE: [&str; 6] = ["migrate", "--tin", "s.json", "--out", "o", "p.dxf"];

/// The texts that make up a drawing, words, how a run of them ends, and files that it makes.
type Row = (
    &'static [&'static str],
    &'static [&'static str],
    Status,
    Made,
);

/// Whether a run that carries the drawing through the square ends so, and makes these files.
fn migrates(alloc: Global, row: &Row) -> bool {
    match joined_text(alloc, row.0) {
        Ok(drawing) => {
            let files = [("s.json", SQUARE), ("p.dxf", drawing.as_str())];
            makes(alloc, row.1, &files, row.2, row.3)
        }
        Err(_) => false,
    }
}

/// The number of the first drawing whose run ends otherwise or makes other files, or none.
fn first_other(alloc: Global, rows: &[Row]) -> Option<usize> {
    for (number, row) in rows.iter().enumerate() {
        if !migrates(alloc, row) {
            return Some(number);
        }
    }
    None
}

/// The line across the diagonal becomes two, and another entity is left out where that is asked.
const DRAWINGS: &[Row] = &[
    (
        &[FRONT, BACK],
        &MIGRATE,
        Status::Same,
        &[("o/p.dxf", Some(CARRIED)), ("-", Some(REPORT))],
    ),
    (
        &[FRONT, ARC, BACK],
        &[
            "migrate",
            "--tin",
            "s.json",
            "--out",
            "o",
            "p.dxf",
            "--drop-other",
        ],
        Status::Same,
        &[
            ("o/p.dxf", Some(CARRIED)),
            (
                "-",
                Some(
                    "tinmove report 1
triangulation corners 4 triangles 2 inexact 0 name s.json
layer 0 paths 1 segments 1 pieces 2 inexact 0 dropped 1 name p.dxf
extents 0 as they were
changes 0
end
",
                ),
            ),
        ],
    ),
    // Refused drawings have one line.
    (
        &[FRONT, ARC, BACK],
        &MIGRATE,
        Status::Layer,
        &[
            ("o/p.dxf", None),
            ("-", Some("layer 0: entity at line 59\n")),
        ],
    ),
    (
        &[
            "0\nSECTION\n2\nENTITIES\n0\nLINE\n5\n1A\n10\n0\n20\n0\n11\n1\n21\n1\n0\nENDSEC\n0\nEOF\n",
        ],
        &MIGRATE,
        Status::Layer,
        &[("-", Some("layer 0: seed at line 7\n")), ("o/p.dxf", None)],
    ),
    (
        &["0\nSECTION\n2\nENTITIES\n0\nLINE\n10\n0\n20\n0\n11\n1\n0\nENDSEC\n0\nEOF\n"],
        &MIGRATE,
        Status::Layer,
        &[("-", Some("layer 0: count at line 5\n")), ("o/p.dxf", None)],
    ),
    (
        &["0\nSECTION\n"],
        &MIGRATE,
        Status::Layer,
        &[("-", Some("layer 0: no eof\n")), ("o/p.dxf", None)],
    ),
    (
        &["AutoCAD Binary DXF"],
        &MIGRATE,
        Status::Layer,
        &[("-", Some("layer 0: binary\n")), ("o/p.dxf", None)],
    ),
];

#[test]
fn drawings_are_carried_or_refused(rt: HostRuntime) {
    assert_eq!(rt; first_other(rt.alloc(), DRAWINGS), None);
}

/// The drawing without an arc, with carriage returns.
fn drawing_with_returns(alloc: Global) -> Result<String, AllocError> {
    let drawing = joined_text(alloc, &[FRONT, BACK])?;
    with_returns(alloc, &drawing)
}

/// Whether the drawing, carried through the square, is written so.
fn is_carried_so(alloc: Global, drawing: &str, written: &str) -> bool {
    let files = [("s.json", SQUARE), ("p.dxf", drawing)];
    let made = [("o/p.dxf", Some(written)), ("-", Some(REPORT))];
    makes(alloc, &MIGRATE, &files, Status::Same, &made)
}

/// Whether the drawing with carriage returns is written with them.
fn keeps_returns(alloc: Global) -> Result<bool, AllocError> {
    let drawing = drawing_with_returns(alloc)?;
    let written = with_returns(alloc, CARRIED)?;
    Ok(is_carried_so(alloc, &drawing, &written))
}

#[test]
fn carriage_returns_are_kept_in_copies_too(rt: HostRuntime) {
    assert_eq!(rt; keeps_returns(rt.alloc()), Ok(true));
}

/// How a row of squares begins: with its first two corners.
const ROW_FRONT: &str = concat!(
    r#"{"file_type":"triangulation_file","format_version":"1.1","transformed_components":["horizontal"],"#,
    r#""vertices_columns":["source_x","source_y","target_x","target_y"],"#,
    r#""triangles_columns":["idx_vertex1","idx_vertex2","idx_vertex3"],"vertices":[[0,0,100,100],[0,10,100,110]"#
);

/// The two corners after the square of this number.
fn corners_text(alloc: Global, square: u32) -> Result<String, AllocError> {
    let x = 10 * u64::from(square) + 10;
    let there = x + 100;
    format!(in alloc; ",[{x},0,{there},100],[{x},10,{there},110]")
}

/// The two triangles of the square of this number.
fn triangles_text(alloc: Global, square: u32) -> Result<String, AllocError> {
    let low = 2 * u64::from(square);
    let high = low + 1;
    let (next, behind) = (low + 2, high + 2);
    let comma = if square == 0 { "" } else { "," };
    format!(in alloc; "{comma}[{low},{next},{behind}],[{low},{behind},{high}]")
}

/// A row of this many squares of 10 m, each of two triangles, which goes 100 m further on both axes.
fn row_of_squares(alloc: Global, count: u32) -> Result<String, AllocError> {
    let mut text = String::from_str(alloc, ROW_FRONT)?;
    for square in 0..count {
        text.push_str(&corners_text(alloc, square)?)?;
    }
    text.push_str("],\"triangles\":[")?;
    for square in 0..count {
        text.push_str(&triangles_text(alloc, square)?)?;
    }
    text.push_str("]}")?;
    Ok(text)
}

/// A line through the middle of 256 such squares with this many bytes of extended data.
fn line_with_data(alloc: Global, count: u32) -> Result<String, AllocError> {
    let mut text = String::from_str(
        alloc,
        "0\nSECTION\n2\nENTITIES\n0\nLINE\n10\n0\n20\n5\n11\n2560\n21\n5\n1000\n",
    )?;
    for _ in 0..count {
        text.push('x')?;
    }
    text.push_str("\n0\nENDSEC\n0\nEOF\n")?;
    Ok(text)
}

/// How many bytes of extended data the line has, how a run that carries it ends, and what it says.
const LENGTHS: &[(u32, Status, &str)] = &[
    (
        100,
        Status::Same,
        "tinmove report 1
triangulation corners 514 triangles 512 inexact 0 name s.json
layer 0 paths 1 segments 1 pieces 512 inexact 0 dropped 0 name p.dxf
extents 0 as they were
changes 0
end
",
    ),
    (1 << 22, Status::Memory, "no memory\n"),
];

/// Whether a run that carries the line with this many bytes of extended data through the squares ends so and says this.
fn ends_with_data(
    alloc: Global,
    count: u32,
    wanted: Status,
    line: &str,
) -> Result<bool, AllocError> {
    let tin = row_of_squares(alloc, 256)?;
    let drawing = line_with_data(alloc, count)?;
    let files = [("s.json", tin.as_str()), ("p.dxf", drawing.as_str())];
    let made = [("-", Some(line))];
    Ok(makes(alloc, &MIGRATE, &files, wanted, &made))
}

/// The first of the lengths with which a run ends otherwise, or none.
fn first_other_length(
    alloc: Global,
    rows: &[(u32, Status, &str)],
) -> Result<Option<u32>, AllocError> {
    for &(count, wanted, line) in rows {
        if !ends_with_data(alloc, count, wanted, line)? {
            return Ok(Some(count));
        }
    }
    Ok(None)
}

/// The line becomes 512, each with all of the extended data: with 2^22 bytes of it these are more than the 2^31 bytes
/// that a written drawing may have, and no memory is asked for.
#[test]
fn a_drawing_that_would_be_too_long_is_not_written(rt: HostRuntime) {
    assert_eq!(rt; first_other_length(rt.alloc(), LENGTHS), Ok(None));
}

const OF_THREE_FORMATS: &[MemoryJob] = &[(
    &[
        "migrate",
        "--tin",
        "s.json",
        "--out",
        "o",
        "lines.wkt",
        "wells.geojson",
        "walls.dxf",
    ],
    &[
        ("s.json", SQUARE),
        ("lines.wkt", "LINESTRING (10 0, 0 10)\nPOINT (6 4)\n"),
        (
            "wells.geojson",
            r#"{"type":"Feature","properties":{"id":1},"geometry":{"type":"Point","coordinates":[ 3.0, 1.0 ]}}"#,
        ),
        (
            "walls.dxf",
            "  0\nSECTION\n  2\nHEADER\n  9\n$HANDSEED\n  5\n2F\n  0\nENDSEC\n  0\nSECTION\n  2\nENTITIES\n  0\n\
             LINE\n  5\n2E\n  8\nWALL\n 10\n0.0\n 20\n5.0\n 11\n10.0\n 21\n5.0\n  0\nENDSEC\n  0\nEOF\n",
        ),
    ],
    Status::Changed,
    &[
        (
            "o/lines.wkt",
            Some(
                "LINESTRING (110.000 100.000, 105.002 105.002, 100.000 110.000)\nPOINT (106.001 104.001)\n",
            ),
        ),
        (
            "o/wells.geojson",
            Some(
                r#"{"type":"Feature","properties":{"id":1},"geometry":{"type":"Point","coordinates":[103.000,101.000]}}"#,
            ),
        ),
        (
            "o/walls.dxf",
            Some(
                "  0\nSECTION\n  2\nHEADER\n  9\n$HANDSEED\n  5\n30\n  0\nENDSEC\n  0\nSECTION\n  2\nENTITIES\n  0\n\
                 LINE\n  5\n2E\n  8\nWALL\n 10\n100.000\n 20\n105.000\n 11\n105.002\n 21\n105.002\n  0\nLINE\n  5\n\
                 2F\n  8\nWALL\n 10\n105.002\n 20\n105.002\n 11\n110.002\n 21\n105.002\n  0\nENDSEC\n  0\nEOF\n",
            ),
        ),
        (
            "-",
            Some(
                "tinmove report 1
triangulation corners 4 triangles 2 inexact 0 name s.json
layer 0 paths 2 segments 2 pieces 3 inexact 0 dropped 0 name lines.wkt
layer 1 paths 1 segments 1 pieces 1 inexact 0 dropped 0 name wells.geojson
layer 2 paths 1 segments 1 pieces 2 inexact 0 dropped 0 name walls.dxf
extents 2 as they were
changes 1
change 0/0/0/0 0/1/0/0 touching apart
end
",
            ),
        ),
    ],
)];

#[test]
fn layers_of_three_formats_are_carried(rt: HostRuntime) {
    assert_eq!(rt;
        other_job(rt.alloc(), &[("three formats", OF_THREE_FORMATS)]),
        None
    );
}
