//! Runs over triangulations of all kinds, in memory. The expected lines and images are worked out by hand.

use crate::memory_runs::{
    CarriedRow, Failing, FailingTable, Files, MIGRATE, Made, MemoryJob, NEVER, makes, migrates,
    other_carried, other_fault, other_job,
};
use runs::Status;
use std::alloc::{AllocError, Global};

/// The vertices of two triangles that make a square, whose diagonal is longer in the target.
const SQUARE: &str = "[0,0,100,100],[10,0,110,100],[10,10,110.003,110.003],[0,10,100,110]";

/// The text of a triangulation with these rows.
fn tin_text(alloc: Global, vertices: &str, triangles: &str) -> Result<String, AllocError> {
    let mut text = String::from_str(
        alloc,
        concat!(
            r#"{"file_type":"triangulation_file","format_version":"1.1","transformed_components":["horizontal"],"#,
            r#""vertices_columns":["source_x","source_y","target_x","target_y"],"#,
            r#""triangles_columns":["idx_vertex1","idx_vertex2","idx_vertex3"],"vertices":["#
        ),
    )?;
    text.push_str(vertices)?;
    text.push_str(r#"],"triangles":["#)?;
    text.push_str(triangles)?;
    text.push_str("]}")?;
    Ok(text)
}

/// Whether a check of this triangulation ends so, and prints this line.
fn checks(alloc: Global, tin: &str, wanted: Status, line: &str) -> bool {
    let made = [("-", Some(line))];
    makes(alloc, &CHECK, &[("t.json", tin)], wanted, &made)
}

/// Whether a check of a triangulation of these rows ends so, and prints this line.
fn checks_rows(alloc: Global, vertices: &str, triangles: &str, wanted: Status, line: &str) -> bool {
    match tin_text(alloc, vertices, triangles) {
        Ok(tin) => checks(alloc, &tin, wanted, line),
        Err(_) => false,
    }
}

const CHECK: [&str; 3] = ["check", "--tin", "t.json"];

/// Three vertices as far apart as they may be on both axes of the source, and each 100 m further on both axes of the
/// target.
const LARGEST: &str =
    "[0,0,100,100],[2147483.647,0,2147583.647,100],[0,2147483.647,100,2147583.647]";

/// Vertices and triangles, and how a check of them ends.
const CHECKED_ROWS: &[(&str, &str, Status, &str)] = &[
    (
        SQUARE,
        "[0,1,2],[0,2,3]",
        Status::Same,
        "sound: corners 4 triangles 2 inexact 0\n",
    ),
    (
        SQUARE,
        "[0,1,2],[0,2,3],[2,0,1]",
        Status::Tin,
        "triangulation: meets 0 2 source\n",
    ),
    (
        "[0,0,100,100],[10,0,110,100],[5,8,105,108],[5,0,105,100],[2,-8,102,92],[8,-8,108,92]",
        "[0,1,2],[3,4,5]",
        Status::Tin,
        "triangulation: meets 0 1 source\n",
    ),
    (
        "[0,0,0,0],[10,0,10,0],[0,10,0,10],[20,0,10,0],[30,0,20,0],[20,10,10,10]",
        "[0,1,2],[3,4,5]",
        Status::Tin,
        "triangulation: meets 0 1 target\n",
    ),
    (
        "[0,0,0,0],[10,0,10,0],[0,10,20,0]",
        "[0,1,2]",
        Status::Tin,
        "triangulation: flat 0 target\n",
    ),
    (
        "[0,0,0,0],[10,10,10,0],[20,20,0,10]",
        "[0,1,2]",
        Status::Tin,
        "triangulation: flat 0 source\n",
    ),
    (
        "[0,0,0,0],[10,0,0,10],[0,10,10,0]",
        "[0,1,2]",
        Status::Tin,
        "triangulation: turns over 0\n",
    ),
    (
        "[0,0,0,0],[0,10,0,10],[10,0,10,0]",
        "[0,1,2]",
        Status::Same,
        "sound: corners 3 triangles 1 inexact 0\n",
    ),
    (
        "[0,0,100,100],[10,0,110.002,100],[0,10,100,110],[0,0,100,100]",
        "[3,1,2]",
        Status::Same,
        "sound: corners 3 triangles 1 inexact 0\n",
    ),
    (
        "[0,0.0004,0,0],[10,0,10,1e-4],[0,10,0,10]",
        "[0,1,2]",
        Status::Same,
        "sound: corners 3 triangles 1 inexact 2\n",
    ),
    (
        "",
        "",
        Status::Same,
        "sound: corners 0 triangles 0 inexact 0\n",
    ),
    (
        "[0,0,0,0],[2147483.648,0,10,0],[0,10,0,10]",
        "[0,1,2]",
        Status::Tin,
        "triangulation: span source x\n",
    ),
    (
        "[0,0,0,0],[0,2147483.648,10,0],[10,0,0,10]",
        "[0,1,2]",
        Status::Tin,
        "triangulation: span source y\n",
    ),
    (
        "[0,0,0,0],[0,10,2147483.648,0],[10,0,0,10]",
        "[0,1,2]",
        Status::Tin,
        "triangulation: span target x\n",
    ),
    (
        "[0,0,0,0],[0,10,0,-2147483.648],[10,0,0,10]",
        "[0,1,2]",
        Status::Tin,
        "triangulation: span target y\n",
    ),
    (
        "[0,0,0]",
        "",
        Status::Tin,
        "triangulation: row 0 of vertices\n",
    ),
    (
        "[0,0,0,0]",
        "[0,0,0],[0,0]",
        Status::Tin,
        "triangulation: row 1 of triangles\n",
    ),
    (
        "[0,0,0,0]",
        "[0,0,1]",
        Status::Tin,
        "triangulation: index in triangle 0\n",
    ),
    (
        "[0,0,0,0],[0,0,0,1e13]",
        "",
        Status::Tin,
        "triangulation: number range in row 1\n",
    ),
    (
        "[0,0,0,0.00000000000000000000000000000000000000000000000000000000000000000]",
        "",
        Status::Tin,
        "triangulation: number long in row 0\n",
    ),
];

/// The number of the first row whose check ends otherwise, or none.
fn first_other_rows(alloc: Global, rows: &[(&str, &str, Status, &str)]) -> Option<usize> {
    for (number, &(vertices, triangles, wanted, line)) in rows.iter().enumerate() {
        if !checks_rows(alloc, vertices, triangles, wanted, line) {
            return Some(number);
        }
    }
    None
}

#[test]
fn rows_are_checked(rt: HostRuntime) {
    assert_eq!(rt; first_other_rows(rt.alloc(), CHECKED_ROWS), None);
}

/// Texts that are no triangulation file, and what is said of each.
const CHECKED_TEXTS: &[(&str, &str)] = &[
    (r#"{"file_type":"#, "triangulation: json at 13\n"),
    (
        "[[[[[[[[[[[[[[[[[[[[[[[[[[[[[[[[[[[[[[[[[[[[[[[[[[[[[[[[[[[[[[[[[",
        "triangulation: deep at 64\n",
    ),
    ("", "triangulation: json at 0\n"),
    ("[]", "triangulation: key top\n"),
    ("{}", "triangulation: key file_type\n"),
    (
        r#"{"file_type":"triangulation_file"}"#,
        "triangulation: key format_version\n",
    ),
    (
        r#"{"file_type":"triangulation_file","format_version":"2.0"}"#,
        "triangulation: version\n",
    ),
    (
        r#"{"file_type":"triangulation_file","format_version":"1.1","fallback_strategy":1}"#,
        "triangulation: key fallback_strategy\n",
    ),
    (
        r#"{"file_type":"triangulation_file","format_version":"1.1","fallback_strategy":"nearest_side"}"#,
        "triangulation: fallback nearest_side\n",
    ),
    (
        r#"{"file_type":"triangulation_file","format_version":"1.1","fallback_strategy":"nearest_centroid"}"#,
        "triangulation: fallback nearest_centroid\n",
    ),
    (
        r#"{"file_type":"triangulation_file","format_version":"1.1"}"#,
        "triangulation: key transformed_components\n",
    ),
    (
        r#"{"file_type":"triangulation_file","format_version":"1.1","transformed_components":["vertical"]}"#,
        "triangulation: no horizontal\n",
    ),
    (
        r#"{"file_type":"triangulation_file","format_version":"1.1","transformed_components":["horizontal"]}"#,
        "triangulation: key vertices_columns\n",
    ),
    (
        concat!(
            r#"{"file_type":"triangulation_file","format_version":"1.1","transformed_components":["horizontal"],"#,
            r#""vertices_columns":["source_x","source_y","target_x","target_y"]}"#
        ),
        "triangulation: key triangles_columns\n",
    ),
    (
        concat!(
            r#"{"file_type":"triangulation_file","format_version":"1.1","transformed_components":["horizontal"],"#,
            r#""vertices_columns":["source_x","source_y","target_x","target_y"],"#,
            r#""triangles_columns":["idx_vertex1","idx_vertex2","idx_vertex3"]}"#
        ),
        "triangulation: key vertices\n",
    ),
    (
        concat!(
            r#"{"file_type":"triangulation_file","format_version":"1.1","transformed_components":["horizontal"],"#,
            r#""vertices_columns":["source_x","source_y","target_x","target_y"],"#,
            r#""triangles_columns":["idx_vertex1","idx_vertex2","idx_vertex3"],"vertices":[]}"#
        ),
        "triangulation: key triangles\n",
    ),
];

/// Whether a check of this text, and a run that carries a layer through it, end with this line and without a layer.
fn is_refused(alloc: Global, text: &str, line: &str) -> bool {
    let files = [("t.json", text), ("p.wkt", "")];
    let made = [("-", Some(line)), ("o/p.wkt", None)];
    checks(alloc, text, Status::Tin, line) && makes(alloc, &MIGRATE, &files, Status::Tin, &made)
}

/// The first of the texts that is not refused so, or none.
fn first_other_text(alloc: Global, rows: &[(&'static str, &'static str)]) -> Option<&'static str> {
    for &(text, line) in rows {
        if !is_refused(alloc, text, line) {
            return Some(text);
        }
    }
    None
}

#[test]
fn texts_are_checked(rt: HostRuntime) {
    assert_eq!(rt; first_other_text(rt.alloc(), CHECKED_TEXTS), None);
}

/// As many elements as these of a list.
fn push_many(text: &mut String, element: &str, count: u32) -> Result<(), AllocError> {
    for _ in 0..count {
        text.push_str(element)?;
    }
    Ok(())
}

/// A list: its first element, each further one with a comma in front, and how many these are.
type List = (&'static str, &'static str, u32);

/// The text of a list.
fn text_of(alloc: Global, list: List) -> Result<String, AllocError> {
    let mut text = String::from_str(alloc, list.0)?;
    push_many(&mut text, list.1, list.2)?;
    Ok(text)
}

/// Lists of vertices and of triangles, how a check of them ends, and what it prints.
type Lists = (List, List, Status, &'static str);

/// Whether a check of these lists ends so.
fn checks_lists(alloc: Global, row: &Lists) -> bool {
    let Ok(vertices) = text_of(alloc, row.0) else {
        return false;
    };
    match text_of(alloc, row.1) {
        Ok(triangles) => checks_rows(alloc, &vertices, &triangles, row.2, row.3),
        Err(_) => false,
    }
}

/// The number of the first row whose check ends otherwise, or none.
fn first_other_lists(alloc: Global, rows: &[Lists]) -> Option<usize> {
    for (number, row) in rows.iter().enumerate() {
        if !checks_lists(alloc, row) {
            return Some(number);
        }
    }
    None
}

/// One row more than there may be.
const TOO_MANY: &[Lists] = &[
    (
        ("0", ",0", 1 << 20),
        ("", "", 0),
        Status::Limit,
        "limit: vertices\n",
    ),
    (
        ("", "", 0),
        ("0", ",0", 1 << 21),
        Status::Limit,
        "limit: triangles\n",
    ),
];

#[test]
fn too_many_rows_pass_a_limit(rt: HostRuntime) {
    assert_eq!(rt; first_other_lists(rt.alloc(), TOO_MANY), None);
}

/// As many rows as there may be. Equal vertices are one corner, and a triangle of one corner is flat.
const MOST: &[Lists] = &[
    (
        ("[0,0,0,0]", ",[0,0,0,0]", (1 << 20) - 1),
        ("", "", 0),
        Status::Same,
        "sound: corners 1 triangles 0 inexact 0\n",
    ),
    (
        ("[0,0,100,100],[10,0,110.002,100],[0,10,100,110]", "", 0),
        ("[0,0,0]", ",[0,0,0]", (1 << 21) - 1),
        Status::Tin,
        "triangulation: flat 0 source\n",
    ),
];

#[test]
fn the_most_rows_are_read(rt: HostRuntime) {
    assert_eq!(rt; first_other_lists(rt.alloc(), MOST), None);
}

/// As many spaces as a file may have bytes, after this text.
fn spaces_behind(alloc: Global, front: &str) -> Result<String, AllocError> {
    let block = text_of(alloc, ("", " ", 1 << 12))?;
    let mut spaces = String::with_capacity(alloc, (1 << 26) + 1)?;
    spaces.push_str(front)?;
    push_many(&mut spaces, &block, 1 << 14)?;
    Ok(spaces)
}

/// The first of the texts before spaces whose check ends otherwise, or none.
fn first_other_spaces(
    alloc: Global,
    rows: &[(&'static str, Status, &'static str)],
) -> Result<Option<&'static str>, AllocError> {
    for &(front, wanted, line) in rows {
        let spaces = spaces_behind(alloc, front)?;
        if !checks(alloc, &spaces, wanted, line) {
            return Ok(Some(front));
        }
    }
    Ok(None)
}

/// A file of as many spaces as it may have bytes lacks a value after them; with one more it is too long.
const SPACES: &[(&str, Status, &str)] = &[
    ("", Status::Tin, "triangulation: json at 67108864\n"),
    (" ", Status::Limit, "limit: bytes of triangulation\n"),
];

#[test]
fn a_file_of_spaces_passes_a_limit(rt: HostRuntime) {
    assert_eq!(rt; first_other_spaces(rt.alloc(), SPACES), Ok(None));
}

/// The names of the triangulation and of the layer.
const NAMES: (&str, &str) = ("t.json", "p.wkt");

/// Vertices and triangles, a layer, how a run that carries it ends, and files that it makes.
type Through = (&'static str, &'static str, &'static str, Status, Made);

/// Whether a run that carries the layer through a triangulation of these rows ends so, and makes these files.
fn migrates_through(alloc: Global, row: &Through) -> bool {
    match tin_text(alloc, row.0, row.1) {
        Ok(tin) => migrates(alloc, NAMES, (&tin, row.2), row.3, row.4),
        Err(_) => false,
    }
}

/// The number of the first row that ends otherwise or makes other files, or none.
fn first_other_through(alloc: Global, rows: &[Through]) -> Option<usize> {
    for (number, row) in rows.iter().enumerate() {
        if !migrates_through(alloc, row) {
            return Some(number);
        }
    }
    None
}

const CARRIED: &[Through] = &[
    (
        SQUARE,
        "[0,1,2],[0,2,3]",
        "POINT (6 4)",
        Status::Same,
        &[("o/p.wkt", Some("POINT (106.001 104.001)"))],
    ),
    (
        SQUARE,
        "[0,1,2],[0,2,3]",
        "POINT (0 10)",
        Status::Same,
        &[("o/p.wkt", Some("POINT (100.000 110.000)"))],
    ),
    (
        SQUARE,
        "[0,1,2],[0,2,3]",
        "POINT (5 5)",
        Status::Same,
        &[("o/p.wkt", Some("POINT (105.002 105.002)"))],
    ),
    (
        "[0,0,0,0],[2147483.647,0,10,0],[0,10,0,10]",
        "[0,1,2]",
        "POINT (2147483.647 0)",
        Status::Same,
        &[("o/p.wkt", Some("POINT (10.000 0.000)"))],
    ),
    (
        LARGEST,
        "[0,1,2]",
        "LINESTRING (2147483.647 0, 0 2147483.647)",
        Status::Same,
        &[(
            "o/p.wkt",
            Some("LINESTRING (2147583.647 100.000, 100.000 2147583.647)"),
        )],
    ),
    (
        LARGEST,
        "[0,1,2]",
        "POINT (1000000 1000000)",
        Status::Same,
        &[("o/p.wkt", Some("POINT (1000100.000 1000100.000)"))],
    ),
    (
        "[0,0,100,100],[10,0,110.002,100],[0,10,100,110],[0,0,100,100]",
        "[3,1,2]",
        "POINT (5 0)",
        Status::Same,
        &[("o/p.wkt", Some("POINT (105.001 100.000)"))],
    ),
    ("", "", "\n", Status::Same, &[("o/p.wkt", Some("\n"))]),
    (
        "",
        "",
        "POINT (0 0)",
        Status::Outside,
        &[
            ("-", Some("outside: layer 0 path 0 segment 0\n")),
            ("o/p.wkt", None),
        ],
    ),
    (
        "[0,0,100,100],[10,0,110,100],[20,0,120,100],[20,10,120,110],[10,10,110,110],[10,20,110,120],[0,20,100,120],[0,10,100,110]",
        "[0,1,4],[0,4,7],[1,2,3],[1,3,4],[7,4,5],[7,5,6]",
        "POINT (18 9)\nPOINT (9 18)\nPOINT (13.5 13.5)",
        Status::Outside,
        &[
            ("-", Some("outside: layer 0 path 2 segment 0\n")),
            ("o/p.wkt", None),
        ],
    ),
];

#[test]
fn layers_are_carried_through_triangulations_or_outside(rt: HostRuntime) {
    assert_eq!(rt; first_other_through(rt.alloc(), CARRIED), None);
}

/// The example of PROJ's manual of tinshift, with the members that its files have.
const KKJ: &str = concat!(
    r#"{
  "file_type": "triangulation_file",
  "format_version": "1.0",
  "name": "Name",
  "version": "Version",
  "publication_date": "2018-07-01T00:00:00Z",
  "license": "Creative Commons Attribution 4.0 International",
  "description": "Test triangulation",
  "authority": { "name": "Authority name", "url": "http://example.com", "address": "Adress", "email": "test@example.com" },
  "links": [ { "href": "https://example.com/about.html", "rel": "about", "type": "text/html", "title": "About" } ],
  "input_crs": "EPSG:2393",
  "target_crs": "EPSG:3067",
  "transformed_components": [ "horizontal" ],
  "vertices_columns": [ "source_x", "source_y", "target_x", "target_y" ],
  "triangles_columns": [ "idx_vertex1", "idx_vertex2", "idx_vertex3" ],
  "vertices": [ [3244102.707, 6693710.937, 244037.137, 6690900.686], "#,
    "[3205290.722, 6715311.822, 205240.895, 6712492.577], ",
    r#"[3218328.492, 6649538.429, 218273.648, 6646745.973] ],
  "triangles": [ [0, 1, 2] ]
}
"#
);

/// Another order of the columns, a column of another name, and members that are passed over.
const NAMED_ROWS: &str = concat!(
    r#"{"file_type":"triangulation_file","format_version":"1.0","name":"n","license":"l","input_crs":"EPSG:1","#,
    r#""output_crs":"EPSG:2","transformed_components":["horizontal"],"#,
    r#""vertices_columns":["name","target_x","target_y","source_x","source_y"],"#,
    r#""triangles_columns":["idx_vertex1","idx_vertex2","idx_vertex3"],"#,
    r#""vertices":[["A",100,100,0,0],["B",110.002,100,10,0],["C",100,110,0,10]],"triangles":[[0,1,2]]}"#
);

const LIKE_PROJ: &[CarriedRow] = &[
    // PROJ answers 209948.3217 6697187.0009.
    (
        KKJ,
        "POINT (3210000 6700000)",
        Status::Same,
        &[("o/p.wkt", Some("POINT (209948.322 6697187.001)"))],
    ),
    (
        NAMED_ROWS,
        "POINT (5 0)",
        Status::Same,
        &[("o/p.wkt", Some("POINT (105.001 100.000)"))],
    ),
];

/// What a check says of either.
const SOUND: &str = "sound: corners 3 triangles 1 inexact 0\n";

/// Files of the kind of PROJ, and none.
const CHECKED: &[MemoryJob] = &[
    (
        &CHECK,
        &[("t.json", KKJ)],
        Status::Same,
        &[("-", Some(SOUND))],
    ),
    (
        &CHECK,
        &[("t.json", NAMED_ROWS)],
        Status::Same,
        &[("-", Some(SOUND))],
    ),
    (
        &CHECK,
        &[],
        Status::Read,
        &[("-", Some("read fault: triangulation\n"))],
    ),
];

const ONE_FILE: Files = &[("t.json", KKJ)];

/// With writes of 4 bytes: standard output is begun by call 0, and its 39 bytes are written by ten.
const FAILED_WRITES: &[Failing] = &[
    ((NEVER, 0), Status::Write, &[("-", None)]),
    ((NEVER, 1), Status::Write, &[("-", Some(""))]),
    ((NEVER, 3), Status::Write, &[("-", Some("sound: c"))]),
    ((NEVER, 11), Status::Write, &[("-", Some(SOUND))]),
];

const FAILED_READS: &[Failing] = &[(
    (1, NEVER),
    Status::Read,
    &[("-", Some("read fault: triangulation\n"))],
)];

#[test]
fn files_of_the_kind_of_proj_are_carried_through(rt: HostRuntime) {
    assert_eq!(rt;
        other_carried(
            rt.alloc(),
            &[(NAMES, "files like those of PROJ", LIKE_PROJ)]
        ),
        None
    );
}

#[test]
fn files_are_checked(rt: HostRuntime) {
    assert_eq!(rt;
        other_job(rt.alloc(), &[("checks of files", CHECKED)]),
        None
    );
}

/// The tables of calls that fail.
const FAILING: &[FailingTable] = &[
    (
        &CHECK,
        ONE_FILE,
        4,
        "a check writes its line alone",
        FAILED_WRITES,
    ),
    (
        &CHECK,
        ONE_FILE,
        4096,
        "a check of a file that is not read",
        FAILED_READS,
    ),
];

#[test]
fn a_check_of_which_a_call_fails(rt: HostRuntime) {
    assert_eq!(rt; other_fault(rt.alloc(), FAILING), None);
}
