//! Runs over whole layers, in memory. The expected texts and lines are worked out by hand.

use crate::memory_runs::{CarriedRow, CarriedTable, other_carried};
use runs::Status;
use tin_texts::{SQUARE, TRIANGLE};

/// Triangles in the shape of the letter L.
const CORNER: &str = concat!(
    r#"{"file_type":"triangulation_file","format_version":"1.1","transformed_components":["horizontal"],"#,
    r#""vertices_columns":["source_x","source_y","target_x","target_y"],"#,
    r#""triangles_columns":["idx_vertex1","idx_vertex2","idx_vertex3"],"#,
    r#""vertices":[[0,0,100,100],[10,0,110,100],[20,0,120,100],[20,10,120,110],[10,10,110,110],[10,20,110,120],"#,
    r#"[0,20,100,120],[0,10,100,110]],"triangles":[[0,1,4],[0,4,7],[1,2,3],[1,3,4],[7,4,5],[7,5,6]]}"#
);

/// Six triangles round a corner in the middle.
const WHEEL: &str = concat!(
    r#"{"file_type":"triangulation_file","format_version":"1.1","transformed_components":["horizontal"],"#,
    r#""vertices_columns":["source_x","source_y","target_x","target_y"],"#,
    r#""triangles_columns":["idx_vertex1","idx_vertex2","idx_vertex3"],"#,
    r#""vertices":[[0,0,100,100],[10,0,110,100],[10,10,110,110],[0,10,100,110],[-10,0,90,100],[-10,-10,90,90],"#,
    r#"[0,-10,100,90]],"triangles":[[0,1,2],[0,2,3],[0,3,4],[0,4,5],[0,5,6],[0,6,1]]}"#
);

/// Two triangles that have a corner in common and no more.
const BOW: &str = concat!(
    r#"{"file_type":"triangulation_file","format_version":"1.1","transformed_components":["horizontal"],"#,
    r#""vertices_columns":["source_x","source_y","target_x","target_y"],"#,
    r#""triangles_columns":["idx_vertex1","idx_vertex2","idx_vertex3"],"#,
    r#""vertices":[[0,0,100,100],[10,0,110,100],[10,10,110,110],[-10,0,90,100],[-10,-10,90,90]],"#,
    r#""triangles":[[0,1,2],[0,3,4]]}"#
);

/// The names of the triangulation and of the layer.
const NAMES: (&str, &str) = ("a/s.json", "in/nine.wkt");

const SPLIT: &[CarriedRow] = &[
    // across the diagonal, along it, and twice at one point
    (
        SQUARE,
        "LINESTRING (10 0, 0 10)",
        Status::Same,
        &[(
            "o/nine.wkt",
            Some("LINESTRING (110.000 100.000, 105.002 105.002, 100.000 110.000)"),
        )],
    ),
    (
        SQUARE,
        "LINESTRING (0 0, 10 10)",
        Status::Same,
        &[(
            "o/nine.wkt",
            Some("LINESTRING (100.000 100.000, 110.003 110.003)"),
        )],
    ),
    (
        SQUARE,
        "LINESTRING (1 1, 1 1, 2 1)",
        Status::Same,
        &[(
            "o/nine.wkt",
            Some("LINESTRING (101.000 101.000, 101.000 101.000, 102.000 101.000)"),
        )],
    ),
    // through the corner in the middle, and along the outer edge
    (
        WHEEL,
        "LINESTRING (-4 -2, 4 2)",
        Status::Same,
        &[(
            "o/nine.wkt",
            Some("LINESTRING (96.000 98.000, 100.000 100.000, 104.000 102.000)"),
        )],
    ),
    (
        BOW,
        "LINESTRING (-8 -4, 8 4)",
        Status::Same,
        &[(
            "o/nine.wkt",
            Some("LINESTRING (92.000 96.000, 100.000 100.000, 108.000 104.000)"),
        )],
    ),
    (
        WHEEL,
        "LINESTRING (0 5, -5 5)",
        Status::Same,
        &[(
            "o/nine.wkt",
            Some("LINESTRING (100.000 105.000, 95.000 105.000)"),
        )],
    ),
];

const TEXTS: &[CarriedRow] = &[
    (
        TRIANGLE,
        "Point(5 0)",
        Status::Same,
        &[("o/nine.wkt", Some("Point(105.001 100.000)"))],
    ),
    (
        TRIANGLE,
        "MULTIPOINT (5 0, (0 0), EMPTY)",
        Status::Same,
        &[(
            "o/nine.wkt",
            Some("MULTIPOINT (105.001 100.000, (100.000 100.000), EMPTY)"),
        )],
    ),
    (
        TRIANGLE,
        "POINT EMPTY\npolygon empty",
        Status::Same,
        &[("o/nine.wkt", Some("POINT EMPTY\npolygon empty"))],
    ),
    (
        TRIANGLE,
        "  POINT (0 0)\t\r\n\r\n \nPOINT (0 10)\r\n",
        Status::Same,
        &[(
            "o/nine.wkt",
            Some("  POINT (100.000 100.000)\t\r\n\r\n \nPOINT (100.000 110.000)\r\n"),
        )],
    ),
    (
        TRIANGLE,
        "GEOMETRYCOLLECTION (POINT (0 0), LINESTRING EMPTY)",
        Status::Same,
        &[(
            "o/nine.wkt",
            Some("GEOMETRYCOLLECTION (POINT (100.000 100.000), LINESTRING EMPTY)"),
        )],
    ),
    (
        TRIANGLE,
        "POLYGON ((0 0, 0 10, 0 5, 0 0))",
        Status::Same,
        &[(
            "o/nine.wkt",
            Some("POLYGON ((100.000 100.000, 100.000 110.000, 100.000 105.000, 100.000 100.000))"),
        )],
    ),
];

const COUNTED: &[CarriedRow] = &[
    // a line of one segment in two pieces
    (
        SQUARE,
        "LINESTRING (10 0, 0 10)",
        Status::Same,
        &[
            (
                "o/nine.wkt",
                Some("LINESTRING (110.000 100.000, 105.002 105.002, 100.000 110.000)"),
            ),
            (
                "-",
                Some(
                    "tinmove report 1\ntriangulation corners 4 triangles 2 inexact 0 name a/s.json\n\
                     layer 0 paths 1 segments 1 pieces 2 inexact 0 dropped 0 name in/nine.wkt\nchanges 0\nend\n",
                ),
            ),
        ],
    ),
    // a line of three points, whose last segment ends at x 2.0004
    (
        SQUARE,
        "LINESTRING (1 1, 1 1, 2.0004 1)",
        Status::Same,
        &[
            (
                "o/nine.wkt",
                Some("LINESTRING (101.000 101.000, 101.000 101.000, 102.000 101.000)"),
            ),
            (
                "-",
                Some(
                    "tinmove report 1\ntriangulation corners 4 triangles 2 inexact 0 name a/s.json\n\
                     layer 0 paths 1 segments 2 pieces 2 inexact 1 dropped 0 name in/nine.wkt\nchanges 0\nend\n",
                ),
            ),
        ],
    ),
    (
        SQUARE,
        "",
        Status::Same,
        &[
            ("o/nine.wkt", Some("")),
            (
                "-",
                Some(
                    "tinmove report 1\ntriangulation corners 4 triangles 2 inexact 0 name a/s.json\n\
                     layer 0 paths 0 segments 0 pieces 0 inexact 0 dropped 0 name in/nine.wkt\nchanges 0\nend\n",
                ),
            ),
        ],
    ),
];

const REFUSED: &[CarriedRow] = &[
    (
        TRIANGLE,
        "POINT M (5 0 1)",
        Status::Layer,
        &[("-", Some("layer 0: height at 6\n")), ("o/nine.wkt", None)],
    ),
    (
        TRIANGLE,
        "POINT (5 0 1)",
        Status::Layer,
        &[("-", Some("layer 0: height at 11\n")), ("o/nine.wkt", None)],
    ),
    (
        TRIANGLE,
        "POLYGON ((0 0, 1 0, 0 0))",
        Status::Layer,
        &[("-", Some("layer 0: ring at 9\n")), ("o/nine.wkt", None)],
    ),
    (
        TRIANGLE,
        "CIRCLE (0 0)",
        Status::Layer,
        &[("-", Some("layer 0: kind at 0\n")), ("o/nine.wkt", None)],
    ),
    (
        TRIANGLE,
        "POINT (5",
        Status::Layer,
        &[("-", Some("layer 0: bad at 8\n")), ("o/nine.wkt", None)],
    ),
    (
        TRIANGLE,
        "POINT (5 0-)",
        Status::Layer,
        &[
            ("-", Some("layer 0: number form at 9 place 1\n")),
            ("o/nine.wkt", None),
        ],
    ),
    (
        TRIANGLE,
        "POINT (5 1e100)",
        Status::Layer,
        &[
            ("-", Some("layer 0: number range at 9\n")),
            ("o/nine.wkt", None),
        ],
    ),
    (
        TRIANGLE,
        "POINT (5 00000000000000000000000000000000000000000000000000000000000000000)",
        Status::Layer,
        &[
            ("-", Some("layer 0: number long at 9\n")),
            ("o/nine.wkt", None),
        ],
    ),
    (
        TRIANGLE,
        "POINT (0 0)\r\nPOINT (5\n",
        Status::Layer,
        &[("-", Some("layer 0: bad at 21\n")), ("o/nine.wkt", None)],
    ),
    // a segment outside comes before a fault of the text, and yields to it
    (
        TRIANGLE,
        "POINT (-1 0)\nCIRCLE (0 0)",
        Status::Layer,
        &[("-", Some("layer 0: kind at 13\n")), ("o/nine.wkt", None)],
    ),
];

const OUTSIDE: &[CarriedRow] = &[
    // both ends are inside, and the middle is not
    (
        CORNER,
        "LINESTRING (18 9, 9 18)",
        Status::Outside,
        &[
            ("-", Some("outside: layer 0 path 0 segment 0\n")),
            ("o/nine.wkt", None),
        ],
    ),
    (
        SQUARE,
        "POINT (1 1)\nLINESTRING (1 1, 2 1, 3 1, 11 1)\nPOINT (-1 0)",
        Status::Outside,
        &[
            ("-", Some("outside: layer 0 path 1 segment 2\n")),
            ("o/nine.wkt", None),
        ],
    ),
    (
        SQUARE,
        "POLYGON EMPTY\nPOINT (11 0)",
        Status::Outside,
        &[
            ("-", Some("outside: layer 0 path 0 segment 0\n")),
            ("o/nine.wkt", None),
        ],
    ),
];

/// The tables of this file.
const TABLES: &[CarriedTable] = &[
    (NAMES, "segments are split at the edges of triangles", SPLIT),
    (NAMES, "texts keep all but their points", TEXTS),
    (
        NAMES,
        "the report counts paths, segments and pieces",
        COUNTED,
    ),
    (NAMES, "refused layers have one line", REFUSED),
    (NAMES, "segments outside are named", OUTSIDE),
];

#[test]
fn layers_are_carried_or_refused(rt: HostRuntime) {
    assert_eq!(rt; other_carried(rt.alloc(), TABLES), None);
}
