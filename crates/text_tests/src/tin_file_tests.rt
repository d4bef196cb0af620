//! Files that are read, and a file for each fault in each place of the order.

use mm_decimal::NumFault;
use sheet_base::How;
use std::alloc::Global;
use tin_base::{Axis, Corner, Frame, Tin};
use tin_file::{MOST_BYTES, Nearest, Rows, TinFault, Top, read_tin};
use tin_texts::TRIANGLE;

const PLAIN: How = How {
    exact: false,
    drop_other: false,
    inside_only: false,
};

const EXACT: How = How {
    exact: true,
    ..PLAIN
};

const INSIDE: How = How {
    inside_only: true,
    ..PLAIN
};

/// The same triangle in a file of version 1.0, with names and columns in another order.
const NAMED: &str = concat!(
    r#"{"name":"n","license":"l","input_crs":"EPSG:1","output_crs":"EPSG:2","file_type":"triangulation_file","#,
    r#""format_version":"1.0","transformed_components":["horizontal"],"#,
    r#""vertices_columns":["name","target_x","target_y","source_x","source_y"],"#,
    r#""triangles_columns":["idx_vertex1","idx_vertex2","idx_vertex3"],"#,
    r#""vertices":[["A",100,100,0,0],["B",110.002,100,10,0],["C",100,110,0,10]],"triangles":[[0,1,2]]}"#
);

/// The same triangle under columns in another order, with a note.
const NOTED: &str = concat!(
    r#"{"file_type":"triangulation_file","format_version":"1.1","#,
    r#""transformed_components":["vertical","horizontal","horizontal"],"#,
    r#""vertices_columns":["source_x","source_y","target_x","target_y"],"#,
    r#""triangles_columns":["idx_vertex3","note","idx_vertex1","idx_vertex2"],"#,
    r#""vertices":[[0,0,100,100],[10,0,110.002,100],[0,10,100,110]],"triangles":[[2,{"a":[1,2]},0,1]]}"#
);

/// The same triangle with a column that is not read.
const WEIGHTED: &str = concat!(
    r#"{"file_type":"triangulation_file","format_version":"1.1","transformed_components":["horizontal"],"#,
    r#""vertices_columns":["source_x","source_y","target_x","target_y","weight"],"#,
    r#""triangles_columns":["idx_vertex1","idx_vertex2","idx_vertex3"],"#,
    r#""vertices":[[0,0,100,100,0.00001],[10,0,110.002,100,1e999],[0,10,100,110,null]],"triangles":[[0,1,2]]}"#
);

/// The same triangle with all that PROJ's manual writes in front of it, the frames before all else.
const DESCRIBED: &str = r#"{
  "input_crs": "EPSG:2393",
  "target_crs": "EPSG:3067",
  "output_crs": "EPSG:3067",
  "extent": { "type": "bbox", "name": "Extent", "parameters": { "bbox": [ 20, 59, 32, 71 ] } },
  "file_type": "triangulation_file",
  "format_version": "1.0",
  "name": "Name",
  "version": "Version",
  "publication_date": "2018-07-01T00:00:00Z",
  "license": "Creative Commons Attribution 4.0 International",
  "description": "Test triangulation",
  "authority": { "name": "Authority name", "url": "http://example.com", "address": "Adress", "email": "test@example.com" },
  "links": [ { "href": "https://example.com/about.html", "rel": "about", "type": "text/html", "title": "About" } ],
  "transformed_components": [ "horizontal" ],
  "vertices_columns": [ "source_x", "source_y", "target_x", "target_y" ],
  "triangles_columns": [ "idx_vertex1", "idx_vertex2", "idx_vertex3" ],
  "vertices": [ [ 0, 0, 100, 100 ], [ 10, 0, 110.002, 100 ], [ 0, 10, 100, 110 ] ],
  "triangles": [ [ 0, 1, 2 ] ]
}
"#;

/// What is read of a short text.
fn read(alloc: Global, text: &str, how: How) -> Result<Tin, TinFault> {
    let bytes = text.as_bytes();
    if bytes.len() > MOST_BYTES {
        return Err(TinFault::NoMemory);
    }
    read_tin(alloc, bytes, how)
}

/// The triangle with the first such stretch of its text replaced, or none where it has none.
fn changed_file(alloc: Global, part: &str, by: &str) -> Option<String> {
    let (front, behind) = TRIANGLE.split_once(part)?;
    let mut text = String::new(alloc);
    text.push_str(front).ok()?;
    text.push_str(by).ok()?;
    text.push_str(behind).ok()?;
    Some(text)
}

/// The corners of the triangle.
const CORNERS: &[Corner] = &[
    Corner {
        sx: 0,
        sy: 0,
        tx: 100_000,
        ty: 100_000,
    },
    Corner {
        sx: 10_000,
        sy: 0,
        tx: 110_002,
        ty: 100_000,
    },
    Corner {
        sx: 0,
        sy: 10_000,
        tx: 100_000,
        ty: 110_000,
    },
];

/// The corners and triangles of a file, and how many of its numbers lose digits.
type ReadFile = (&'static [Corner], &'static [[u32; 3]], u64);

/// The triangle of the file, whose numbers lose no digits.
const SAME: ReadFile = (CORNERS, &[[0, 1, 2]], 0);

/// Whether the text is read so.
fn is_read(alloc: Global, text: &str, how: How, wanted: &ReadFile) -> bool {
    match read(alloc, text, how) {
        Ok(tin) => {
            tin.corners() == wanted.0 && tin.triangles() == wanted.1 && tin.inexact() == wanted.2
        }
        Err(_) => false,
    }
}

/// A stretch of the file and what is in its place, and how the file is read then.
type FileChange = (&'static str, &'static str, How, ReadFile);

/// Whether the file, with the stretch replaced, is read so.
fn is_changed(alloc: Global, row: &FileChange) -> bool {
    match changed_file(alloc, row.0, row.1) {
        Some(text) => is_read(alloc, text.as_str(), row.2, &row.3),
        None => false,
    }
}

/// What is in place of the first stretch with which the file is read otherwise, or none.
fn first_other_change(alloc: Global, rows: &[FileChange]) -> Option<&'static str> {
    for row in rows {
        if !is_changed(alloc, row) {
            return Some(row.1);
        }
    }
    None
}

/// Files of the same triangle.
const FILES: &[(&str, How)] = &[
    (TRIANGLE, PLAIN),
    (NAMED, PLAIN),
    (NOTED, PLAIN),
    (WEIGHTED, EXACT),
    (DESCRIBED, PLAIN),
];

/// The number of the first file that is not read as the triangle, or none.
fn first_other_file(alloc: Global, rows: &[(&str, How)]) -> Option<usize> {
    for (number, &(text, how)) in rows.iter().enumerate() {
        if !is_read(alloc, text, how, &SAME) {
            return Some(number);
        }
    }
    None
}

#[test]
fn reads_files(rt: HostRuntime) {
    assert_eq!(rt; first_other_file(rt.alloc(), FILES), None);
}

/// Changes of the file, and how it is read then.
const CHANGED: &[FileChange] = &[
    // Equal rows, a clockwise triangle, a strategy that asks for nothing, escapes, and a strategy that is passed over.
    (
        r#"[0,10,100,110]],"triangles":[[0,1,2]]"#,
        r#"[0,10,100,110],[0,0,100,100]],"triangles":[[3,1,2]]"#,
        PLAIN,
        SAME,
    ),
    ("[0,1,2]", "[0,2,1]", PLAIN, SAME),
    (
        r#""1.1""#,
        r#""1.1","fallback_strategy":"none""#,
        PLAIN,
        SAME,
    ),
    (
        r#""file_type":"triangulation_file""#,
        r#""\u0066ile_type":"triangulation\u005ffile""#,
        PLAIN,
        SAME,
    ),
    (
        r#""1.1""#,
        r#""1.1","fallback_strategy":"nearest_side""#,
        INSIDE,
        SAME,
    ),
    (
        "[0,1,2]",
        "[2,1,0],[0,1,2]",
        PLAIN,
        (CORNERS, &[[2, 0, 1], [0, 1, 2]], 0),
    ),
    (
        r#"[[0,0,100,100],[10,0,110.002,100],[0,10,100,110]],"triangles":[[0,1,2]]"#,
        r#"[],"triangles":[]"#,
        PLAIN,
        (&[], &[], 0),
    ),
    // Digits are lost, and the fourth row is the first again.
    (
        r#"[0,0,100,100],[10,0,110.002,100],[0,10,100,110]],"triangles":[[0,1,2]]"#,
        r#"[0.0004,0,100,100],[10,0,110.002,100],[0,10,100,110],[0.0001,0,1e2,100]],"triangles":[[3,1,2]]"#,
        PLAIN,
        (CORNERS, &[[0, 1, 2]], 2),
    ),
    // The corners are as far apart as they may be.
    (
        "[0,0,100,100],[10,0,110.002,100],[0,10,100,110]",
        "[0,0,0,0],[2147483.647,0,10,0],[0,10,0,10]",
        PLAIN,
        (
            &[
                Corner {
                    sx: 0,
                    sy: 0,
                    tx: 0,
                    ty: 0,
                },
                Corner {
                    sx: 2_147_483_647,
                    sy: 0,
                    tx: 10_000,
                    ty: 0,
                },
                Corner {
                    sx: 0,
                    sy: 10_000,
                    tx: 0,
                    ty: 10_000,
                },
            ],
            &[[0, 1, 2]],
            0,
        ),
    ),
];

#[test]
fn reads_changed_files(rt: HostRuntime) {
    assert_eq!(rt; first_other_change(rt.alloc(), CHANGED), None);
}

/// Texts that are no object of JSON.
const TEXTS: &[(&str, TinFault)] = &[
    (r#"{"file_type":"#, TinFault::Json { at: 13 }),
    (
        "[[[[[[[[[[[[[[[[[[[[[[[[[[[[[[[[[[[[[[[[[[[[[[[[[[[[[[[[[[[[[[[[[",
        TinFault::Deep { at: 64 },
    ),
    ("[1,]", TinFault::Json { at: 3 }),
    ("[]", TinFault::Key { which: Top::Whole }),
    (
        r#""triangulation_file""#,
        TinFault::Key { which: Top::Whole },
    ),
];

/// The first of the texts with another fault, or none.
fn first_other_text(alloc: Global, rows: &[(&'static str, TinFault)]) -> Option<&'static str> {
    for &(text, fault) in rows {
        if read(alloc, text, PLAIN).err() != Some(fault) {
            return Some(text);
        }
    }
    None
}

#[test]
fn refuses_other_texts(rt: HostRuntime) {
    assert_eq!(rt; first_other_text(rt.alloc(), TEXTS), None);
}

/// A fault, and changes of the file that have it: stretches, and what is in their place.
type Changes = (TinFault, &'static [(&'static str, &'static str)]);

/// What is in place of a stretch in the first of the files that has another fault than its own, or none.
fn first_other(alloc: Global, faults: &[Changes], how: How) -> Option<&'static str> {
    for &(fault, changes) in faults {
        for &(part, by) in changes {
            let Some(text) = changed_file(alloc, part, by) else {
                return Some(by);
            };
            if read(alloc, text.as_str(), how).err() != Some(fault) {
                return Some(by);
            }
        }
    }
    None
}

/// Faults of what comes before the columns.
const HEADINGS: &[Changes] = &[
    (
        TinFault::Key {
            which: Top::FileType,
        },
        &[
            (r#""file_type":"triangulation_file","#, ""),
            (r#""triangulation_file""#, r#""triangulation""#),
            (r#""triangulation_file""#, "1"),
            (
                r#""file_type""#,
                r#""file_type":"triangulation_file","file_type""#,
            ),
            (
                r#""triangulation_file","format_version":"1.1""#,
                r#""other","format_version":"2""#,
            ),
        ],
    ),
    (
        TinFault::Key {
            which: Top::FormatVersion,
        },
        &[
            (r#""format_version":"1.1","#, ""),
            (r#""1.1""#, "1.1"),
            (
                r#""format_version""#,
                r#""format_version":"1.1","format_version""#,
            ),
        ],
    ),
    (
        TinFault::Version,
        &[
            (r#""1.1""#, r#""1.2""#),
            (r#""1.1""#, r#""1.2","fallback_strategy":"nearest_side""#),
        ],
    ),
    (
        TinFault::Key {
            which: Top::Strategy,
        },
        &[
            (r#""1.1""#, r#""1.1","fallback_strategy":null"#),
            (r#""1.1""#, r#""1.1","fallback_strategy":"nearest""#),
            (
                r#""1.1""#,
                r#""1.1","fallback_strategy":"none","fallback_strategy":"none""#,
            ),
        ],
    ),
    (
        TinFault::Fallback {
            which: Nearest::Side,
        },
        &[(r#""1.1""#, r#""1.1","fallback_strategy":"nearest_side""#)],
    ),
    (
        TinFault::Fallback {
            which: Nearest::Centroid,
        },
        &[
            (
                r#""1.1""#,
                r#""1.1","fallback_strategy":"nearest_centroid""#,
            ),
            (
                r#""transformed_components":["horizontal"]"#,
                r#""fallback_strategy":"nearest_centroid""#,
            ),
        ],
    ),
    (
        TinFault::Key {
            which: Top::Components,
        },
        &[
            (r#"["horizontal"]"#, r#""horizontal""#),
            (r#""horizontal""#, r#""horizontal","depth""#),
            (r#""horizontal""#, r#""horizontal",1"#),
            (
                r#""transformed_components""#,
                r#""transformed_components":["horizontal"],"transformed_components""#,
            ),
            (
                r#"["horizontal"],"vertices_columns":["source_x","source_y","target_x","target_y"]"#,
                r#"["vertical","x"]"#,
            ),
        ],
    ),
    (
        TinFault::NoHorizontal,
        &[
            (r#""horizontal""#, r#""vertical""#),
            (r#""horizontal""#, ""),
            (
                r#"["horizontal"],"vertices_columns":["source_x","source_y","target_x","target_y"]"#,
                r#"["vertical"]"#,
            ),
        ],
    ),
];

/// Faults of the columns, and of members that are missing after them, too.
const COLUMNS: &[Changes] = &[
    (
        TinFault::Key {
            which: Top::VerticesColumns,
        },
        &[
            (
                r#""vertices_columns":["source_x","source_y","target_x","target_y"],"#,
                "",
            ),
            (r#"["source_x","source_y","target_x","target_y"]"#, "{}"),
            (r#","target_y""#, ""),
            (r#""target_y""#, r#""target_y","source_x""#),
            (r#""target_y""#, r#""target_y",null"#),
            (
                concat!(
                    r#""vertices_columns":["source_x","source_y","target_x","target_y"],"#,
                    r#""triangles_columns":["idx_vertex1","idx_vertex2","idx_vertex3"],"#
                ),
                "",
            ),
        ],
    ),
    (
        TinFault::Key {
            which: Top::TrianglesColumns,
        },
        &[
            (
                r#""triangles_columns":["idx_vertex1","idx_vertex2","idx_vertex3"],"#,
                "",
            ),
            (r#""idx_vertex3""#, r#""idx_vertex2""#),
            (r#""idx_vertex3""#, r#""idx_vertex3",3"#),
            (
                concat!(
                    r#""triangles_columns":["idx_vertex1","idx_vertex2","idx_vertex3"],"#,
                    r#""vertices":[[0,0,100,100],[10,0,110.002,100],[0,10,100,110]],"#
                ),
                "",
            ),
        ],
    ),
];

/// Faults of the vertices.
const VERTEX_ROWS: &[Changes] = &[
    (
        TinFault::Key {
            which: Top::Vertices,
        },
        &[
            (
                r#""vertices":[[0,0,100,100],[10,0,110.002,100],[0,10,100,110]],"#,
                "",
            ),
            ("[[0,0,100,100],[10,0,110.002,100],[0,10,100,110]]", "{}"),
            (
                "[[0,0,100,100],[10,0,110.002,100],[0,10,100,110]]",
                r#"[],"vertices":[]"#,
            ),
            (
                r#","vertices":[[0,0,100,100],[10,0,110.002,100],[0,10,100,110]],"triangles":[[0,1,2]]"#,
                "",
            ),
        ],
    ),
    (
        TinFault::Row {
            list: Rows::Vertices,
            row: 1,
        },
        &[
            ("[10,0,110.002,100]", "1"),
            ("[10,0,110.002,100]", "[10,0,110]"),
            ("[10,0,110.002,100]", "[10,0,110,100,1]"),
            ("[10,0,110.002,100]", r#"[10,"0",110,100]"#),
            ("[10,0,110.002,100]", "[10,null,1e13,100]"),
            (
                "[0,0,100,100],[10,0,110.002,100],[0,10,100,110]",
                "[0,0,100,100.0001],1",
            ),
            (
                r#"[10,0,110.002,100],[0,10,100,110]],"triangles":[[0,1,2]]"#,
                "1,[0,10,100,110]]",
            ),
        ],
    ),
    (
        TinFault::Number {
            row: 1,
            fault: NumFault::Range,
        },
        &[
            ("[10,0,110.002,100]", "[1e13,null,110,100]"),
            ("[10,0,110.002,100]", r#"[10,0,1e13,"100"]"#),
            ("[10,0,110.002,100]", "[10,0.0001,1e13,100]"),
        ],
    ),
    (
        TinFault::Number {
            row: 1,
            fault: NumFault::Long,
        },
        &[(
            "[10,0,110.002,100]",
            "[10,0,110,11111111111111111111111111111111111111111111111111111111111111111]",
        )],
    ),
];

/// Faults of the triangles; the last is also one of corners too far apart.
const TRIANGLE_ROWS: &[Changes] = &[
    (
        TinFault::Key {
            which: Top::Triangles,
        },
        &[
            (r#","triangles":[[0,1,2]]"#, ""),
            ("[[0,1,2]]", "3"),
            ("[[0,1,2]]", r#"[],"triangles":[]"#),
        ],
    ),
    (
        TinFault::Row {
            list: Rows::Triangles,
            row: 1,
        },
        &[
            ("[0,1,2]", "[0,1,2],1"),
            ("[0,1,2]", "[0,1,2],[0,1]"),
            ("[0,1,2]", "[0,1,2],[0,1,2,0]"),
            ("[0,1,2]", r#"[0,1,2],[0,1,"2"]"#),
            ("[0,1,2]", "[0,1,2],[0,1,-0]"),
            ("[0,1,2]", "[0,1,2],[0,1,1.0]"),
            ("[0,1,2]", "[0,1,2],[0,1,1e0]"),
            ("[0,1,2]", "[0,1,2],[9,1,1.0]"),
            ("[0,1,2]", "[0,1,2],7,[3,1,2]"),
        ],
    ),
    (
        TinFault::Index { triangle: 1 },
        &[
            ("[0,1,2]", "[0,1,2],[0,1,3]"),
            ("[0,1,2]", "[0,1,2],[3,1,2],7"),
            ("[0,1,2]", "[0,1,2],[0,1,18446744073709551616]"),
        ],
    ),
    (
        TinFault::Index { triangle: 0 },
        &[(
            r#"[10,0,110.002,100],[0,10,100,110]],"triangles":[[0,1,2]]"#,
            r#"[2147483.648,0,110,100],[0,2147483.648,2147583.648,2147583.648]],"triangles":[[0,1,3]]"#,
        )],
    ),
];

/// Faults of corners that are too far apart.
const SPANS: &[Changes] = &[
    (
        TinFault::Span {
            frame: Frame::Source,
            axis: Axis::X,
        },
        &[(
            "[10,0,110.002,100],[0,10,100,110]",
            "[2147483.648,0,110,100],[0,2147483.648,2147583.648,2147583.648]",
        )],
    ),
    (
        TinFault::Span {
            frame: Frame::Source,
            axis: Axis::Y,
        },
        &[(
            "[10,0,110.002,100],[0,10,100,110]",
            "[10,0,2147583.648,100],[0,2147483.648,100,2147583.648]",
        )],
    ),
    (
        TinFault::Span {
            frame: Frame::Target,
            axis: Axis::X,
        },
        &[(
            "[10,0,110.002,100],[0,10,100,110]",
            "[10,0,110,100],[0,10,-2147383.648,2147583.648]",
        )],
    ),
    (
        TinFault::Span {
            frame: Frame::Target,
            axis: Axis::Y,
        },
        &[(
            "[10,0,110.002,100],[0,10,100,110]",
            "[10,0,110,100],[0,10,100,2147583.648]",
        )],
    ),
];

/// Faults of a file whose numbers must be exact.
const LOST_DIGITS: &[Changes] = &[
    (
        TinFault::Inexact { row: 1 },
        &[("[10,0,110.002,100]", "[10,0.0001,1e13,100]")],
    ),
    (
        TinFault::Inexact { row: 0 },
        &[(
            "[0,0,100,100],[10,0,110.002,100],[0,10,100,110]",
            "[0,0,100,100.0001],1",
        )],
    ),
];

/// The strategy for points outside is no fault of a file that is read for what is inside.
const INSIDE_ONLY: &[Changes] = &[(
    TinFault::Key {
        which: Top::Components,
    },
    &[(
        r#""transformed_components":["horizontal"]"#,
        r#""fallback_strategy":"nearest_centroid""#,
    )],
)];

/// The tables of faults, each after how the file is read.
const FAULTS: &[(How, &[Changes])] = &[
    (PLAIN, HEADINGS),
    (PLAIN, COLUMNS),
    (PLAIN, VERTEX_ROWS),
    (PLAIN, TRIANGLE_ROWS),
    (PLAIN, SPANS),
    (EXACT, LOST_DIGITS),
    (INSIDE, INSIDE_ONLY),
];

/// The number of the first table with a file that has another fault than its own, with what is there in place of a
/// stretch, or none.
fn first_other_fault(alloc: Global, tables: &[(How, &[Changes])]) -> Option<(usize, &'static str)> {
    for (number, &(how, faults)) in tables.iter().enumerate() {
        if let Some(by) = first_other(alloc, faults, how) {
            return Some((number, by));
        }
    }
    None
}

#[test]
fn refuses_changed_files(rt: HostRuntime) {
    assert_eq!(rt; first_other_fault(rt.alloc(), FAULTS), None);
}
