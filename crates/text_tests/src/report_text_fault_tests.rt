//! Bytes that are no report, and the first line of each that is bad.

use crate::report_text_tests::SQUARE;
use report_text::{ReportFault, read_report};
use std::alloc::{AllocError, Global};

// The fault of these bytes; a report that is read has none.
fn fault_of(alloc: Global, bytes: &[u8]) -> Option<ReportFault> {
    read_report(alloc, bytes).err()
}

/// This many bytes of a report, and the line that is missed or not whole.
const SHORT: &[(usize, u64)] = &[
    (0, 1),
    (16, 1),
    (17, 2),
    (30, 2),
    (75, 3),
    (145, 4),
    (153, 4),
    (155, 5),
    (193, 6),
    (196, 6),
];

/// The first of the sizes whose first bad line is another, or none.
fn first_other_size(alloc: Global, rows: &[(usize, u64)]) -> Option<usize> {
    for &(size, line) in rows {
        let Some(front) = SQUARE.get(..size) else {
            return Some(size);
        };
        if fault_of(alloc, front) != Some(ReportFault::Bad { line }) {
            return Some(size);
        }
    }
    None
}

#[test]
fn ends_too_early(rt: HostRuntime) {
    assert_eq!(rt; first_other_size(rt.alloc(), SHORT), None);
}

/// Reports whose first or second line is bad, and which.
const BAD_FRONTS: &[(&[u8], u64)] = &[
    (b"tinmove report 3\n", 1),
    (b"\ntinmove report 1\n", 1),
    (b"tinmove report 1\r\n", 1),
    (b"tinmove report 1\n\n", 2),
    (
        b"tinmove report 1\ntriangulation corners 04 triangles 2 inexact 0 name s\n",
        2,
    ),
    (
        b"tinmove report 1\ntriangulation corners +4 triangles 2 inexact 0 name s\n",
        2,
    ),
    (
        b"tinmove report 1\ntriangulation corners  triangles 2 inexact 0 name s\n",
        2,
    ),
    (
        b"tinmove report 1\ntriangulation corners 4294967296 triangles 2 inexact 0 name s\n",
        2,
    ),
    (
        b"tinmove report 1\ntriangulation corners 4 triangles 2 inexact 18446744073709551616 name s\n",
        2,
    ),
    (
        b"tinmove report 1\ntriangulation corners 4 triangles 2 inexact 0 name a\tb\n",
        2,
    ),
    (
        b"tinmove report 1\ntriangulation corners 4 triangles 2 inexact 0 name \xFF\n",
        2,
    ),
    (
        b"tinmove report 1\ntriangulation corners 4 triangles 2 inexact 0 name\n",
        2,
    ),
];

/// The number of the first report whose first bad line is another, or none.
fn first_other(alloc: Global, rows: &[(&[u8], u64)]) -> Option<usize> {
    for (number, &(bytes, line)) in rows.iter().enumerate() {
        if fault_of(alloc, bytes) != Some(ReportFault::Bad { line }) {
            return Some(number);
        }
    }
    None
}

#[test]
fn names_the_first_line_that_is_bad(rt: HostRuntime) {
    assert_eq!(rt; first_other(rt.alloc(), BAD_FRONTS), None);
}

const FRONT: &[u8] = b"tinmove report 1\ntriangulation corners 4 triangles 2 inexact 0 name s\n";

const LAYER: &[u8] = b"layer 0 paths 0 segments 0 pieces 0 inexact 0 dropped 0 name a\n";

// The fault of the triangulation's line and these after it.
fn fault_behind(
    alloc: Global,
    layer: &[u8],
    lines: &[u8],
) -> Result<Option<ReportFault>, AllocError> {
    let mut bytes = Vec::from_slice(alloc, FRONT)?;
    bytes.extend_from_slice(layer)?;
    bytes.extend_from_slice(lines)?;
    Ok(fault_of(alloc, &bytes))
}

/// The number of the first row whose first bad line, after this layer, is another, or none.
fn first_other_behind(
    alloc: Global,
    layer: &[u8],
    rows: &[(&[u8], u64)],
) -> Result<Option<usize>, AllocError> {
    for (number, &(lines, line)) in rows.iter().enumerate() {
        if fault_behind(alloc, layer, lines)? != Some(ReportFault::Bad { line }) {
            return Ok(Some(number));
        }
    }
    Ok(None)
}

/// Lines after that of the triangulation, and the number of the first bad one.
const BAD_BEHIND_FRONT: &[(&[u8], u64)] = &[
    (
        b"layer 1 paths 0 segments 0 pieces 0 inexact 0 dropped 0 name a\n",
        3,
    ),
    (
        b"layer 00 paths 0 segments 0 pieces 0 inexact 0 dropped 0 name a\n",
        3,
    ),
    (b"extents 0 as they were\n", 3),
    (b"changes 00\n", 3),
    (b"changes 0 \n", 3),
    (b"changes 18446744073709551616\n", 3),
    (b"changes 18446744073709551615\nend\n", 4),
    (b"changes 1\nend\n", 4),
    (
        b"changes 0\nchange 0/0/0/0 0/1/0/0 touching apart\nend\n",
        4,
    ),
    (b"changes 1\nchange 0/0/0/0 0/1/0/0 touching aloof\n", 4),
    (b"changes 1\nchange 0/0/0/0 0/1/0/0 touching touching\n", 4),
    (b"changes 1\nchange 0/0/0/0 0/1/0 touching apart\n", 4),
    (b"changes 1\nchange 0/0/0/0 0/1/0/00 touching apart\n", 4),
    (
        b"changes 1\nchange 0/0/0/0 0/1/0/0 touching apart\nchange 0/0/0/0 0/1/0/0 touching apart\n",
        5,
    ),
    (b"changes 0\nEND\n", 4),
    (b"changes 0\nend\n\n", 5),
    (b"changes 0\nend\nend\n", 5),
    (b"changes 0\nend\nx", 5),
];

#[test]
fn names_the_first_bad_line_behind_the_triangulation(rt: HostRuntime) {
    assert_eq!(rt;
        first_other_behind(rt.alloc(), b"", BAD_BEHIND_FRONT),
        Ok(None)
    );
}

#[test]
fn reads_a_report_without_a_layer(rt: HostRuntime) {
    assert_eq!(rt;
        fault_behind(rt.alloc(), b"", b"changes 0\nend\n"),
        Ok(None)
    );
}

/// Lines after that of a layer, and the number of the first bad one.
const BAD_BEHIND_LAYER: &[(&[u8], u64)] = &[
    (b"extents 1 as they were\n", 4),
    (b"extents 0 as they are\n", 4),
    (b"extents 0 as they were\nextents 0 as they were\n", 5),
    (
        b"layer 0 paths 0 segments 0 pieces 0 inexact 0 dropped 0 name a\n",
        4,
    ),
    (
        b"layer 1 paths 0 segments 0 pieces 0 inexact 0 dropped 0 name a\nextents 0 as they were\n",
        5,
    ),
    (b"end\n", 4),
];

#[test]
fn names_the_first_bad_line_behind_a_layer(rt: HostRuntime) {
    assert_eq!(rt;
        first_other_behind(rt.alloc(), LAYER, BAD_BEHIND_LAYER),
        Ok(None)
    );
}

#[test]
fn reads_a_report_of_a_drawing(rt: HostRuntime) {
    let drawing = b"extents 0 as they were\nchanges 0\nend\n";
    assert_eq!(rt; fault_behind(rt.alloc(), LAYER, drawing), Ok(None));
}
