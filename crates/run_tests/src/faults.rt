//! Runs over one triangle and a layer of points: worked examples, and calls of the outside that fail.

use crate::memory_runs::{
    CarriedRow, CarriedTable, Failing, FailingTable, Files, MIGRATE, MemoryJob, NEVER,
    other_carried, other_fault, other_job,
};
use runs::Status;
use tin_texts::TRIANGLE;

/// The same triangle with targets around zero.
const TRIANGLE_AT_ZERO: &str = concat!(
    r#"{"file_type":"triangulation_file","format_version":"1.1","transformed_components":["horizontal"],"#,
    r#""vertices_columns":["source_x","source_y","target_x","target_y"],"#,
    r#""triangles_columns":["idx_vertex1","idx_vertex2","idx_vertex3"],"#,
    r#""vertices":[[0,0,-110,0],[10,0,-99.998,0],[0,10,-110,10]],"triangles":[[0,1,2]]}"#
);

/// The names of the triangulation and of the layer.
const NAMES: (&str, &str) = ("t.json", "p.wkt");

const POINTS: &[CarriedRow] = &[
    (
        TRIANGLE,
        "POINT (5 0)",
        Status::Same,
        &[("o/p.wkt", Some("POINT (105.001 100.000)"))],
    ),
    (
        TRIANGLE,
        "POINT (5 0)\n",
        Status::Same,
        &[("o/p.wkt", Some("POINT (105.001 100.000)\n"))],
    ),
    (
        TRIANGLE_AT_ZERO,
        "POINT (2.5 2.5)",
        Status::Same,
        &[("o/p.wkt", Some("POINT (-107.499 2.500)"))],
    ),
    (
        TRIANGLE,
        "POINT (2.5 2.5)",
        Status::Same,
        &[("o/p.wkt", Some("POINT (102.501 102.500)"))],
    ),
    (TRIANGLE, "", Status::Same, &[("o/p.wkt", Some(""))]),
    (TRIANGLE, "\n\n", Status::Same, &[("o/p.wkt", Some("\n\n"))]),
    (
        TRIANGLE,
        "\nPOINT (0 0)\n\nPOINT (0 10)",
        Status::Same,
        &[(
            "o/p.wkt",
            Some("\nPOINT (100.000 100.000)\n\nPOINT (100.000 110.000)"),
        )],
    ),
    (
        TRIANGLE,
        "POINT (5 0.0004)",
        Status::Same,
        &[("o/p.wkt", Some("POINT (105.001 100.000)"))],
    ),
    (
        TRIANGLE,
        "POINT (5. +05)",
        Status::Same,
        &[("o/p.wkt", Some("POINT (105.001 105.000)"))],
    ),
    (
        TRIANGLE,
        "POINT (+.5E1 -0e0)",
        Status::Same,
        &[("o/p.wkt", Some("POINT (105.001 100.000)"))],
    ),
];

const REPORTS: &[CarriedRow] = &[
    (
        TRIANGLE,
        "POINT (5 0)",
        Status::Same,
        &[(
            "-",
            Some(
                "tinmove report 1\ntriangulation corners 3 triangles 1 inexact 0 name t.json\n\
                 layer 0 paths 1 segments 1 pieces 1 inexact 0 dropped 0 name p.wkt\nchanges 0\nend\n",
            ),
        )],
    ),
    (
        TRIANGLE,
        "",
        Status::Same,
        &[(
            "-",
            Some(
                "tinmove report 1\ntriangulation corners 3 triangles 1 inexact 0 name t.json\n\
                 layer 0 paths 0 segments 0 pieces 0 inexact 0 dropped 0 name p.wkt\nchanges 0\nend\n",
            ),
        )],
    ),
    (
        TRIANGLE,
        "POINT (5 0.0004)",
        Status::Same,
        &[(
            "-",
            Some(
                "tinmove report 1\ntriangulation corners 3 triangles 1 inexact 0 name t.json\n\
                 layer 0 paths 1 segments 1 pieces 1 inexact 1 dropped 0 name p.wkt\nchanges 0\nend\n",
            ),
        )],
    ),
];

const REFUSED: &[CarriedRow] = &[
    (
        TRIANGLE,
        "POINT (6 6)",
        Status::Outside,
        &[
            ("-", Some("outside: layer 0 path 0 segment 0\n")),
            ("o/p.wkt", None),
        ],
    ),
    (
        TRIANGLE,
        "POINT (0 0)\n\nPOINT (-1 0)",
        Status::Outside,
        &[
            ("-", Some("outside: layer 0 path 1 segment 0\n")),
            ("o/p.wkt", None),
        ],
    ),
    (
        TRIANGLE,
        "POINT (999999999999 0)",
        Status::Outside,
        &[
            ("-", Some("outside: layer 0 path 0 segment 0\n")),
            ("o/p.wkt", None),
        ],
    ),
    (
        TRIANGLE,
        "POINT (5 0)x",
        Status::Layer,
        &[("-", Some("layer 0: bad at 11\n")), ("o/p.wkt", None)],
    ),
    (
        TRIANGLE,
        "POINT (5 .)",
        Status::Layer,
        &[
            ("-", Some("layer 0: number form at 9 place 1\n")),
            ("o/p.wkt", None),
        ],
    ),
    (
        TRIANGLE,
        "POINT (5 )",
        Status::Layer,
        &[("-", Some("layer 0: bad at 9\n")), ("o/p.wkt", None)],
    ),
    (
        TRIANGLE,
        "POINT (e5 0)",
        Status::Layer,
        &[("-", Some("layer 0: bad at 7\n")), ("o/p.wkt", None)],
    ),
    (
        TRIANGLE,
        "POINT (5 0x)",
        Status::Layer,
        &[("-", Some("layer 0: bad at 10\n")), ("o/p.wkt", None)],
    ),
];

const NO_LAYER: &[MemoryJob] = &[(
    &MIGRATE,
    &[("t.json", TRIANGLE)],
    Status::Read,
    &[("-", Some("read fault: layer 0\n"))],
)];

/// The triangle and a point in it.
const FILES: Files = &[("t.json", TRIANGLE), ("p.wkt", "POINT (5 0)")];

/// With reads of 4096 bytes: the triangulation is begun, read and ended by three calls, and so is the layer.
const FAILED_READS: &[Failing] = &[
    (
        (0, NEVER),
        Status::Read,
        &[("-", Some("read fault: triangulation\n"))],
    ),
    (
        (1, NEVER),
        Status::Read,
        &[("-", Some("read fault: triangulation\n"))],
    ),
    (
        (2, NEVER),
        Status::Read,
        &[("-", Some("read fault: triangulation\n"))],
    ),
    (
        (3, NEVER),
        Status::Read,
        &[("-", Some("read fault: layer 0\n"))],
    ),
    (
        (4, NEVER),
        Status::Read,
        &[("-", Some("read fault: layer 0\n"))],
    ),
    (
        (5, NEVER),
        Status::Read,
        &[("-", Some("read fault: layer 0\n"))],
    ),
];

/// With writes of 4 bytes: the layer's 23 bytes are begun by call 0, written by six and ended by call 7.
const FAILED_WRITES: &[Failing] = &[
    ((NEVER, 0), Status::Write, &[("o/p.wkt", None), ("-", None)]),
    (
        (NEVER, 1),
        Status::Write,
        &[("o/p.wkt", Some("")), ("-", None)],
    ),
    (
        (NEVER, 3),
        Status::Write,
        &[("o/p.wkt", Some("POINT (1")), ("-", None)],
    ),
    (
        (NEVER, 7),
        Status::Write,
        &[("o/p.wkt", Some("POINT (105.001 100.000)")), ("-", None)],
    ),
    (
        (NEVER, 8),
        Status::Write,
        &[("o/p.wkt", Some("POINT (105.001 100.000)")), ("-", None)],
    ),
    (
        (NEVER, 9),
        Status::Write,
        &[
            ("o/p.wkt", Some("POINT (105.001 100.000)")),
            ("-", Some("")),
        ],
    ),
    (
        (NEVER, 10),
        Status::Write,
        &[
            ("o/p.wkt", Some("POINT (105.001 100.000)")),
            ("-", Some("tinm")),
        ],
    ),
];

/// The tables of layers that are carried or refused.
const LAYERS: &[CarriedTable] = &[
    (NAMES, "layers of points are carried", POINTS),
    (NAMES, "reports say what was carried", REPORTS),
    (NAMES, "refusals print their line", REFUSED),
];

#[test]
fn layers_of_points_are_carried_or_refused(rt: HostRuntime) {
    assert_eq!(rt; other_carried(rt.alloc(), LAYERS), None);
}

#[test]
fn a_missing_layer(rt: HostRuntime) {
    assert_eq!(rt;
        other_job(rt.alloc(), &[("a missing layer", NO_LAYER)]),
        None
    );
}

/// The tables of calls that fail.
const FAILING: &[FailingTable] = &[
    (&MIGRATE, FILES, 4096, "each read fails once", FAILED_READS),
    (&MIGRATE, FILES, 4, "each write fails once", FAILED_WRITES),
];

#[test]
fn each_read_and_each_write_fails_once(rt: HostRuntime) {
    assert_eq!(rt; other_fault(rt.alloc(), FAILING), None);
}
