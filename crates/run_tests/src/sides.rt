//! Runs in memory that state the sides of rings. What is expected is worked out by hand, in fractions.

use crate::memory_runs::{Files, Made, MemoryJob, Table, other_job};
use carry_map::{MOST_PIECES, carry_kept};
use ring_side::{Side, SideChange, SidesFault, Spot, side_changes};
use runs::Status;
use sheet_base::How;
use std::alloc::Global;
use tin_check::check_tin;
use tin_file::read_tin;
use tin_index::TinIndex;
use tin_texts::SQUARE;
use wkt_layer::Wkt;

/// A triangle whose frames differ by the half: each point goes to half of its coordinates.
const HALVED: &str = concat!(
    r#"{"file_type":"triangulation_file","format_version":"1.1","transformed_components":["horizontal"],"#,
    r#""vertices_columns":["source_x","source_y","target_x","target_y"],"#,
    r#""triangles_columns":["idx_vertex1","idx_vertex2","idx_vertex3"],"#,
    r#""vertices":[[0,0,0,0],[10,0,5,0],[0,10,0,5]],"triangles":[[0,1,2]]}"#
);

/// A ring with a side across the diagonal, and a point of that side.
const RING_AND_DOT: Files = &[
    ("s.json", SQUARE),
    (
        "r.wkt",
        "POLYGON ((10 0, 10 10, 0 10, 10 0))\nPOINT (6 4)\n",
    ),
];

const RING_LEFT: Made = &[(
    "-",
    Some(
        "tinmove report 2
triangulation corners 4 triangles 2 inexact 0 name s.json
layer 0 paths 2 segments 4 pieces 5 inexact 0 dropped 0 name r.wkt
changes 1
change 0/0/2/1 0/1/0/0 touching apart
sides 1
side 0/0 0/1/0 border outside
end
",
    ),
)];

/// A ring and a point as two layers: the point is in the second one.
const RING_THEN_DOT: Files = &[
    ("s.json", SQUARE),
    ("r.wkt", "POLYGON ((10 0, 10 10, 0 10, 10 0))\n"),
    ("p.wkt", "POINT (6 4)\n"),
];

const RING_LEFT_BY_ANOTHER: Made = &[(
    "-",
    Some(
        "tinmove report 2
triangulation corners 4 triangles 2 inexact 0 name s.json
layer 0 paths 1 segments 3 pieces 4 inexact 0 dropped 0 name r.wkt
layer 1 paths 1 segments 1 pieces 1 inexact 0 dropped 0 name p.wkt
changes 1
change 0/0/2/1 1/0/0/0 touching apart
sides 1
side 0/0 1/0/0 border outside
end
",
    ),
)];

/// A ring of three points a millimetre apart, which half the size makes flat.
const SMALL_RING: Files = &[
    ("t.json", HALVED),
    (
        "r.wkt",
        "POLYGON ((0.001 0, 0.002 0, 0.001 0.001, 0.001 0))",
    ),
];

const RING_FLAT: Made = &[
    (
        "o/r.wkt",
        Some("POLYGON ((0.001 0.000, 0.001 0.000, 0.001 0.001, 0.001 0.000))"),
    ),
    (
        "-",
        Some(
            "tinmove report 2
triangulation corners 3 triangles 1 inexact 0 name t.json
layer 0 paths 1 segments 3 pieces 3 inexact 0 dropped 0 name r.wkt
changes 1
change 0/0/1/0 0/0/2/0 touching overlapping
sides 1
turn 0/0 positive zero
end
",
        ),
    ),
];

/// Nothing changes: a line and a point of its own.
const NO_RING: Files = &[
    ("t.json", HALVED),
    ("l.wkt", "LINESTRING (0 0, 2 2)\nPOINT (4 2)\n"),
];

const NO_SIDES: Made = &[(
    "-",
    Some(
        "tinmove report 2
triangulation corners 3 triangles 1 inexact 0 name t.json
layer 0 paths 2 segments 2 pieces 2 inexact 0 dropped 0 name l.wkt
changes 0
sides 0
end
",
    ),
)];

const SIDES: &[MemoryJob] = &[
    (
        &[
            "migrate", "--tin", "s.json", "--out", "o", "--sides", "r.wkt",
        ],
        RING_AND_DOT,
        Status::Changed,
        RING_LEFT,
    ),
    (
        &[
            "migrate", "--tin", "s.json", "--out", "o", "--sides", "r.wkt", "p.wkt",
        ],
        RING_THEN_DOT,
        Status::Changed,
        RING_LEFT_BY_ANOTHER,
    ),
    (
        &[
            "migrate", "--tin", "t.json", "--out", "o", "r.wkt", "--sides",
        ],
        SMALL_RING,
        Status::Changed,
        RING_FLAT,
    ),
    (
        &[
            "migrate", "--tin", "t.json", "--out", "o", "--sides", "l.wkt",
        ],
        NO_RING,
        Status::Same,
        NO_SIDES,
    ),
];

/// The tables of this file.
const TABLES: &[Table<MemoryJob>] = &[(
    "points that leave a ring, and rings that turn, are listed",
    SIDES,
)];

#[test]
fn reports_tell_the_sides_of_rings(rt: HostRuntime) {
    assert_eq!(rt; other_job(rt.alloc(), TABLES), None);
}

/// The same ring and point.
const RING: &[u8] = b"POLYGON ((10 0, 10 10, 0 10, 10 0))\nPOINT (6 4)\n";

const PLAIN: How = How {
    exact: false,
    drop_other: false,
    inside_only: false,
};

fn index_of(alloc: Global) -> Option<TinIndex> {
    let tin = read_tin(alloc, SQUARE.as_bytes(), PLAIN).ok()?;
    TinIndex::build(alloc, check_tin(alloc, tin).ok()?).ok()
}

/// The changes of sides of that layer, where it is carried.
fn sides_of(alloc: Global, most: u32) -> Option<Result<Vec<SideChange>, SidesFault>> {
    let index = index_of(alloc)?;
    let mut pieces = Vec::new(alloc);
    match carry_kept::<Wkt>(alloc, &index, RING, PLAIN, 0, MOST_PIECES, &mut pieces) {
        Ok(kept) => {
            index.tin().show_soundness();
            Some(side_changes(alloc, &[kept.sheet], &[kept.images], most))
        }
        Err(_) => None,
    }
}

const LEFT: &[SideChange] = &[SideChange::Point {
    layer: 0,
    path: 0,
    at: Spot {
        layer: 0,
        path: 1,
        vertex: 0,
    },
    was: Side::Border,
    now: Side::Outside,
}];

#[test]
fn as_many_sides_as_allowed_are_listed(rt: HostRuntime) {
    let listed = match sides_of(rt.alloc(), 1) {
        Some(Ok(sides)) => sides.as_slice() == LEFT,
        _ => false,
    };
    assert!(rt; listed);
}

#[test]
fn one_more_is_too_many(rt: HostRuntime) {
    let refused = match sides_of(rt.alloc(), 0) {
        Some(Err(fault)) => fault == SidesFault::TooMany,
        _ => false,
    };
    assert!(rt; refused);
}
