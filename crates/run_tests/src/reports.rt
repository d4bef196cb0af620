//! What runs report, in memory. The expected relations are worked out by hand, in fractions.

use crate::memory_runs::{CarriedRow, CarriedTable, NEVER, other_carried, shelf_of, words_of};
use report_text::LayerRow;
use runs::Status;
use shelf_io::MemPress;
use std::alloc::{AllocError, Global};
use std::test::Fail;
use tin_texts::SQUARE;
use whole_runs::run_to_end;

/// Nine corners 10 km apart, in the old and the new frame of Switzerland, with shifts of some decimetres.
const NATION: &str = concat!(
    r#"{"file_type":"triangulation_file","format_version":"1.1","transformed_components":["horizontal"],"#,
    r#""vertices_columns":["source_x","source_y","target_x","target_y"],"#,
    r#""triangles_columns":["idx_vertex1","idx_vertex2","idx_vertex3"],"#,
    r#""vertices":[[590000,190000,2589999.8,1190000.1],[600000,190000,2600000,1190000.05],"#,
    "[610000,190000,2610000.25,1189999.85],[590000,200000,2589999.7,1200000.2],",
    "[600000,200000,2600000,1200000],[610000,200000,2610000.3,1200000.1],",
    "[590000,210000,2589999.75,1210000.3],[600000,210000,2599999.9,1210000.25],",
    "[610000,210000,2610000.4,1209999.8]],",
    r#""triangles":[[0,1,4],[0,4,3],[1,2,5],[1,5,4],[3,4,7],[3,7,6],[4,5,8],[4,8,7]]}"#
);

/// The names of the triangulation and of the layer.
const NAMES: (&str, &str) = ("s.json", "nine.wkt");

const TAKEN_APART: &[CarriedRow] = &[
    (
        SQUARE,
        "LINESTRING (10 0, 0 10)\nPOINT (6 4)",
        Status::Changed,
        &[
            (
                "o/nine.wkt",
                Some(
                    "LINESTRING (110.000 100.000, 105.002 105.002, 100.000 110.000)\nPOINT (106.001 104.001)",
                ),
            ),
            (
                "-",
                Some(
                    "tinmove report 1
triangulation corners 4 triangles 2 inexact 0 name s.json
layer 0 paths 2 segments 2 pieces 3 inexact 0 dropped 0 name nine.wkt
changes 1
change 0/0/0/0 0/1/0/0 touching apart
end
",
                ),
            ),
        ],
    ),
    // two lines to the diagonal, and twice a point of them that rounding takes off
    (
        SQUARE,
        "LINESTRING (10 0, 5 5)\nLINESTRING (10 0, 5 5)\nPOINT (6 4)\nPOINT (6 4)\n",
        Status::Changed,
        &[(
            "-",
            Some(
                "tinmove report 1
triangulation corners 4 triangles 2 inexact 0 name s.json
layer 0 paths 4 segments 4 pieces 4 inexact 0 dropped 0 name nine.wkt
changes 4
change 0/0/0/0 0/2/0/0 touching apart
change 0/0/0/0 0/3/0/0 touching apart
change 0/1/0/0 0/2/0/0 touching apart
change 0/1/0/0 0/3/0/0 touching apart
end
",
            ),
        )],
    ),
];

#[test]
fn changes_have_a_code_of_their_own(rt: HostRuntime) {
    assert_eq!(rt; Status::Changed.code(), 1);
}

const PARCELS: &[CarriedRow] = &[(
    NATION,
    "POLYGON ((600100 200050, 600200 200050, 600200 200150, 600100 200150, 600100 200050))
POLYGON ((600200 200050, 600300 200050, 600300 200150, 600200 200150, 600200 200050))
",
    Status::Same,
    &[
        (
            "o/nine.wkt",
            Some(concat!(
                "POLYGON ((2600100.004 1200050.000, 2600200.007 1200050.001, 2600200.008 1200149.998, ",
                "2600150.006 1200149.997, 2600100.004 1200149.999, 2600100.004 1200099.998, 2600100.004 1200050.000))
POLYGON ((2600200.007 1200050.001, 2600300.010 1200050.002, 2600300.011 1200149.999, ",
                "2600200.008 1200149.998, 2600200.007 1200050.001))
"
            )),
        ),
        (
            "-",
            Some(
                "tinmove report 1
triangulation corners 9 triangles 8 inexact 0 name s.json
layer 0 paths 2 segments 8 pieces 10 inexact 0 dropped 0 name nine.wkt
changes 0
end
",
            ),
        ),
    ],
)];

/// The tables of this file.
const TABLES: &[CarriedTable] = &[
    (
        NAMES,
        "each touch that rounding takes apart is listed",
        TAKEN_APART,
    ),
    (NAMES, "parcels with a common side keep it", PARCELS),
];

#[test]
fn reports_list_what_rounding_changes(rt: HostRuntime) {
    assert_eq!(rt; other_carried(rt.alloc(), TABLES), None);
}

/// How many numbers of each layer lost digits, and how many of its entities are left out.
fn counts_of(alloc: Global, rows: &[LayerRow]) -> Result<Vec<(u64, u64)>, AllocError> {
    let mut counts = Vec::new(alloc);
    for row in rows {
        counts.push((row.inexact, row.dropped))?;
    }
    Ok(counts)
}

const ROUNDED: &str = r#"{"type":"Point","coordinates":[6.0004,4]}"#;

const HATCH: &str = "  0\nSECTION\n  2\nENTITIES\n  0\nHATCH\n  8\n0\n  0\nENDSEC\n  0\nEOF\n";

/// How a run through the file of this name ends where the call of this number of the press fails, and the counts in the
/// report that it hands out: none without one.
fn report_of(alloc: Global, tin: &str, fail: u64) -> Result<(Status, Vec<(u64, u64)>), AllocError> {
    let words = words_of(
        alloc,
        &[
            "migrate",
            "--tin",
            tin,
            "--out",
            "o",
            "--drop-other",
            "a.json",
            "d.dxf",
        ],
    )?;
    let files = [("s.json", SQUARE), ("a.json", ROUNDED), ("d.dxf", HATCH)];
    let mut shelf = shelf_of(alloc, &files)?;
    let mut press = MemPress::new(alloc, 4096);
    press.fail_at(fail)?;
    let end = run_to_end(alloc, &words, &mut shelf, &mut press);
    let counts = match &end.report {
        Some(report) => counts_of(alloc, report.layers())?,
        None => Vec::new(alloc),
    };
    Ok((end.status, counts))
}

/// Whether such a run ends so, and hands out a report with these counts.
fn hands_out(alloc: Global, tin: &str, fail: u64, status: Status, counts: &[(u64, u64)]) -> bool {
    match report_of(alloc, tin, fail) {
        Ok((ended, found)) => ended == status && found.as_slice() == counts,
        Err(_) => false,
    }
}

/// How a check of the file of this name ends where the call of this number of the press fails, and how many triangles the
/// triangulation has that it hands out.
fn checked_of(alloc: Global, tin: &str, fail: u64) -> Result<(Status, Option<u32>), AllocError> {
    let words = words_of(alloc, &["check", "--tin", tin])?;
    let mut shelf = shelf_of(alloc, &[("s.json", SQUARE), ("a.json", ROUNDED)])?;
    let mut press = MemPress::new(alloc, 4096);
    press.fail_at(fail)?;
    let end = run_to_end(alloc, &words, &mut shelf, &mut press);
    let count = end.sound.map(|tin| tin.triangle_count());
    Ok((end.status, count))
}

#[test]
fn a_check_hands_out_its_triangulation(rt: HostRuntime) -> Result<(), Fail> {
    let (status, count) = checked_of(rt.alloc(), "s.json", NEVER)?;
    assert!(rt; status == Status::Same && count == Some(2));
    let (status, count) = checked_of(rt.alloc(), "s.json", 1)?;
    assert!(rt; status == Status::Write && count == Some(2));
    let (status, count) = checked_of(rt.alloc(), "a.json", NEVER)?;
    assert!(rt; status == Status::Tin && count.is_none());
    Ok(())
}

#[test]
fn a_run_hands_out_its_report(rt: HostRuntime) -> Result<(), Fail> {
    let both = [(1, 0), (0, 1)];
    assert!(rt; hands_out(rt.alloc(), "s.json", NEVER, Status::Same, &both));
    assert!(rt; hands_out(rt.alloc(), "s.json", 7, Status::Write, &both));
    assert!(rt; hands_out(rt.alloc(), "t.json", NEVER, Status::Read, &[]));
    Ok(())
}
