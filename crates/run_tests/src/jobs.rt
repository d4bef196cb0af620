//! Runs in memory over the words of whole jobs: several layers and the options.

use crate::memory_runs::{
    Failing, FailingTable, Files, Made, MemoryJob, NEVER, Table, other_fault, other_job,
};
use runs::Status;
use tin_texts::{SQUARE, TRIANGLE};

/// The triangle with a fallback.
const NEAREST: &str = concat!(
    r#"{"file_type":"triangulation_file","format_version":"1.1","fallback_strategy":"nearest_side","#,
    r#""transformed_components":["horizontal"],"#,
    r#""vertices_columns":["source_x","source_y","target_x","target_y"],"#,
    r#""triangles_columns":["idx_vertex1","idx_vertex2","idx_vertex3"],"#,
    r#""vertices":[[0,0,100,100],[10,0,110.002,100],[0,10,100,110]],"triangles":[[0,1,2]]}"#
);

/// A line across the diagonal, and a point of it.
const LINE_AND_DOT: Files = &[
    ("s.json", SQUARE),
    ("line.wkt", "LINESTRING (10 0, 0 10)"),
    ("dot.wkt", "POINT (6 4)"),
];

const LINE_AND_DOT_CARRIED: Made = &[
    (
        "-",
        Some(
            "tinmove report 1
triangulation corners 4 triangles 2 inexact 0 name s.json
layer 0 paths 1 segments 1 pieces 2 inexact 0 dropped 0 name line.wkt
layer 1 paths 1 segments 1 pieces 1 inexact 0 dropped 0 name dot.wkt
changes 1
change 0/0/0/0 1/0/0/0 touching apart
end
",
        ),
    ),
    (
        "o/line.wkt",
        Some("LINESTRING (110.000 100.000, 105.002 105.002, 100.000 110.000)"),
    ),
    ("o/dot.wkt", Some("POINT (106.001 104.001)")),
];

const OF_TWO_LAYERS: &[MemoryJob] = &[
    (
        &[
            "migrate", "--tin", "s.json", "--out", "o", "line.wkt", "dot.wkt",
        ],
        LINE_AND_DOT,
        Status::Changed,
        LINE_AND_DOT_CARRIED,
    ),
    (
        &[
            "migrate",
            "--tin=s.json",
            "line.wkt",
            "--out",
            "o",
            "dot.wkt",
        ],
        LINE_AND_DOT,
        Status::Changed,
        LINE_AND_DOT_CARRIED,
    ),
    // of two formats
    (
        &[
            "migrate", "--tin", "t.json", "--out", "o", "in/a.WKT", "b.json",
        ],
        &[
            ("t.json", TRIANGLE),
            ("in/a.WKT", "POINT (5 1)"),
            ("b.json", r#"{"type":"Point","coordinates":[5,0]}"#),
        ],
        Status::Same,
        &[
            (
                "-",
                Some(
                    "tinmove report 1
triangulation corners 3 triangles 1 inexact 0 name t.json
layer 0 paths 1 segments 1 pieces 1 inexact 0 dropped 0 name in/a.WKT
layer 1 paths 1 segments 1 pieces 1 inexact 0 dropped 0 name b.json
changes 0
end
",
                ),
            ),
            ("o/a.WKT", Some("POINT (105.001 101.000)")),
            (
                "o/b.json",
                Some(r#"{"type":"Point","coordinates":[105.001,100.000]}"#),
            ),
        ],
    ),
];

const TWO_LAYERS: [&str; 7] = ["migrate", "--tin", "t.json", "--out", "o", "a.wkt", "b.wkt"];

/// No file is begun before the last layer is carried.
const OF_A_SECOND_LAYER: &[MemoryJob] = &[
    (
        &TWO_LAYERS,
        &[
            ("t.json", TRIANGLE),
            ("a.wkt", "POINT (5 0)"),
            ("b.wkt", "POINT (5 0)\nPOINT (6 6)"),
        ],
        Status::Outside,
        &[
            ("-", Some("outside: layer 1 path 1 segment 0\n")),
            ("o/a.wkt", None),
        ],
    ),
    (
        &TWO_LAYERS,
        &[
            ("t.json", TRIANGLE),
            ("a.wkt", "POINT (5 0)"),
            ("b.wkt", "POINT (5"),
        ],
        Status::Layer,
        &[("-", Some("layer 1: bad at 8\n")), ("o/a.wkt", None)],
    ),
    (
        &TWO_LAYERS,
        &[
            ("t.json", TRIANGLE),
            ("a.wkt", "POINT (5 0)"),
            ("b.wkt", "POINT (5 0-)"),
        ],
        Status::Layer,
        &[
            ("-", Some("layer 1: number form at 9 place 1\n")),
            ("o/a.wkt", None),
        ],
    ),
    // a missing layer is named
    (
        &TWO_LAYERS,
        &[("t.json", TRIANGLE), ("a.wkt", "POINT (5 0)")],
        Status::Read,
        &[("-", Some("read fault: layer 1\n"))],
    ),
];

const WITH_OPTIONS: &[MemoryJob] = &[
    (
        &[
            "migrate",
            "--tin",
            "t.json",
            "--out",
            "o",
            "--inverse",
            "p.wkt",
        ],
        &[("t.json", TRIANGLE), ("p.wkt", "POINT (105.001 100)")],
        Status::Same,
        &[("o/p.wkt", Some("POINT (5.000 0.000)"))],
    ),
    (
        &[
            "migrate",
            "--tin",
            "t.json",
            "--out",
            "o",
            "--inverse",
            "p.wkt",
        ],
        &[("t.json", TRIANGLE), ("p.wkt", "POINT (5 0)")],
        Status::Outside,
        &[("-", Some("outside: layer 0 path 0 segment 0\n"))],
    ),
    (
        &[
            "migrate", "--tin", "t.json", "--out", "o", "--exact", "p.wkt",
        ],
        &[("t.json", TRIANGLE), ("p.wkt", "POINT (5 0.0004)")],
        Status::Layer,
        &[("-", Some("layer 0: inexact at 9\n"))],
    ),
    (
        &[
            "migrate",
            "--tin",
            "t.json",
            "--out",
            "o",
            "--inside-only",
            "p.wkt",
        ],
        &[("t.json", NEAREST), ("p.wkt", "POINT (5 0)")],
        Status::Same,
        &[("o/p.wkt", Some("POINT (105.001 100.000)"))],
    ),
    (
        &[
            "migrate", "--tin", "t.json", "--out", "o", "--exact", "p.wkt",
        ],
        &[("t.json", NEAREST), ("p.wkt", "POINT (5 0)")],
        Status::Tin,
        &[("-", Some("triangulation: fallback nearest_side\n"))],
    ),
];

/// The triangle and two layers of a point in it.
const TWO_POINTS: Files = &[
    ("t.json", TRIANGLE),
    ("a.wkt", "POINT (5 0)"),
    ("b.wkt", "POINT (5 0)"),
];

/// With writes of 4 bytes each layer's 23 bytes are begun by one call, written by six and ended by one.
const IN_THE_SECOND_LAYER: &[Failing] = &[(
    (NEVER, 10),
    Status::Write,
    &[
        ("o/a.wkt", Some("POINT (105.001 100.000)")),
        ("o/b.wkt", Some("POIN")),
        ("-", None),
    ],
)];

/// The tables of jobs with no failing call.
const TABLES: &[Table<MemoryJob>] = &[
    ("layers are carried and compared", OF_TWO_LAYERS),
    (
        "no file is begun before the last layer is carried",
        OF_A_SECOND_LAYER,
    ),
    ("the options are honoured", WITH_OPTIONS),
];

#[test]
fn jobs_are_done_or_refused(rt: HostRuntime) {
    assert_eq!(rt; other_job(rt.alloc(), TABLES), None);
}

/// The one table of calls that fail.
const FAILING: &[FailingTable] = &[(
    &TWO_LAYERS,
    TWO_POINTS,
    4,
    "a write fault in the second layer",
    IN_THE_SECOND_LAYER,
)];

#[test]
fn a_layer_stands_whole_behind_a_write_fault_in_the_next(rt: HostRuntime) {
    assert_eq!(rt; other_fault(rt.alloc(), FAILING), None);
}
