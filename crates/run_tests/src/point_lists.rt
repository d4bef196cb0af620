//! Runs in memory that move points with heights. What is expected is worked out by hand.

use crate::memory_runs::{MemoryJob, Table, other_job};
use runs::Status;
use tin_texts::{MOVED, STILL, TRIANGLE, TWOFOLD};

const HEIGHTS: [&str; 6] = ["heights", "--tin", "t.json", "--out", "o", "in/list"];

const RAISED: &[MemoryJob] = &[
    (
        &HEIGHTS,
        &[
            ("t.json", STILL),
            ("in/list", "5 0 10\n\n2.5 2.5 0.0004\r\n"),
        ],
        Status::Same,
        &[
            (
                "o/list",
                Some("5.000 0.000 11.500\n\n2.500 2.500 0.750\r\n"),
            ),
            (
                "-",
                Some("heights: corners 3 triangles 1 points 2 inexact 1\n"),
            ),
        ],
    ),
    (
        &HEIGHTS,
        &[("t.json", MOVED), ("in/list", "5 0 10")],
        Status::Same,
        &[
            ("o/list", Some("105.001 100.000 11.500")),
            (
                "-",
                Some("heights: corners 3 triangles 1 points 1 inexact 0\n"),
            ),
        ],
    ),
];

/// Runs that are refused, each for another cause. The last but one is a migration by a file of heights alone.
const REFUSED: &[MemoryJob] = &[
    (
        &HEIGHTS,
        &[("t.json", TRIANGLE), ("in/list", "5 0 10")],
        Status::Tin,
        &[
            ("-", Some("triangulation: no vertical\n")),
            ("o/list", None),
        ],
    ),
    (
        &HEIGHTS,
        &[("t.json", TWOFOLD), ("in/list", "5 0 10")],
        Status::Tin,
        &[("-", Some("triangulation: offset in row 3\n"))],
    ),
    (
        &HEIGHTS,
        &[("t.json", STILL), ("in/list", "5 0")],
        Status::Layer,
        &[("-", Some("layer 0: bad at 3\n")), ("o/list", None)],
    ),
    (
        &HEIGHTS,
        &[("t.json", STILL), ("in/list", "5 0 10 1")],
        Status::Layer,
        &[("-", Some("layer 0: bad at 7\n")), ("o/list", None)],
    ),
    // a token that does not fit is reported before a point outside that is on an earlier line
    (
        &HEIGHTS,
        &[("t.json", STILL), ("in/list", "9 9 0\n5 x 10\n")],
        Status::Layer,
        &[("-", Some("layer 0: bad at 8\n")), ("o/list", None)],
    ),
    (
        &[
            "heights", "--exact", "--tin", "t.json", "--out", "o", "in/list",
        ],
        &[("t.json", STILL), ("in/list", "5 0 10\n2.5 2.5 0.0004")],
        Status::Layer,
        &[("-", Some("layer 0: inexact at 15\n")), ("o/list", None)],
    ),
    (
        &HEIGHTS,
        &[("t.json", STILL), ("in/list", "5 0 10\n9 9 0\n8 8 0")],
        Status::Outside,
        &[
            ("-", Some("outside: layer 0 path 1 segment 0\n")),
            ("o/list", None),
        ],
    ),
    (
        &HEIGHTS,
        &[("t.json", STILL)],
        Status::Read,
        &[("-", Some("read fault: layer 0\n"))],
    ),
    (
        &["migrate", "--tin", "t.json", "--out", "o", "p.wkt"],
        &[("t.json", STILL), ("p.wkt", "POINT (5 0)")],
        Status::Tin,
        &[("-", Some("triangulation: no horizontal\n"))],
    ),
    (
        &["heights", "--tin", "t.json", "--out", "o"],
        &[("t.json", STILL)],
        Status::Words,
        &[("-", Some("words: not understood\n"))],
    ),
];

#[test]
fn moves_points_with_heights(rt: HostRuntime) {
    let tables: &[Table<MemoryJob>] = &[("raised", RAISED), ("refused", REFUSED)];
    assert_eq!(rt; other_job(rt.alloc(), tables), None);
}
