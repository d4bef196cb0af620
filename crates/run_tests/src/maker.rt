//! Texts of the maker. The expected ones are made by a script from the rule of each row, except those of one cell,
//! which are worked out by hand.

use crate::memory_runs::{MemoryJob, other_job};
use migrate_mode::{make_layer, make_tin};
use runs::Status;
use std::alloc::{AllocError, Global};
use std::test::Fail;

const FRONT: &str = concat!(
    r#"{"file_type":"triangulation_file","format_version":"1.1","transformed_components":["horizontal"],"#,
    r#""vertices_columns":["source_x","source_y","target_x","target_y"],"#,
    r#""triangles_columns":["idx_vertex1","idx_vertex2","idx_vertex3"],"vertices":["#
);

/// How many cells are on each side, what comes after the first part of the triangulation, and the layer.
const TEXTS: &[(u32, &str, &str)] = &[
    (
        1,
        concat!(
            "[0,0,1000.000,2000.000],[10,0,1010.007,2000.011],[0,10,1000.013,2010.005],[10,10,1010.020,2010.016]],",
            r#""triangles":[[0,1,3],[0,3,2]]}"#
        ),
        "LINESTRING (0 2.5, 10 7.5)\n",
    ),
    (
        2,
        concat!(
            "[0,0,1000.000,2000.000],[10,0,1010.007,2000.011],[20,0,1020.014,2000.022],[0,10,1000.013,2010.005],",
            "[10,10,1010.020,2010.016],[20,10,1020.027,2010.027],[0,20,1000.026,2020.010],[10,20,1010.033,2020.021],",
            "[20,20,1020.040,2020.032]],",
            r#""triangles":[[0,1,4],[0,4,3],[1,2,5],[1,5,4],[3,4,7],[3,7,6],[4,5,8],[4,8,7]]}"#
        ),
        "LINESTRING (0 2.5, 20 7.5)\nLINESTRING (0 12.5, 20 17.5)\n",
    ),
    // targets and lines wrap around
    (
        3,
        concat!(
            "[0,0,1000.000,2000.000],[10,0,1010.007,2000.011],[20,0,1020.014,2000.022],[30,0,1030.021,2000.033],",
            "[0,10,1000.013,2010.005],[10,10,1010.020,2010.016],[20,10,1020.027,2010.027],[30,10,1030.034,2010.001],",
            "[0,20,1000.026,2020.010],[10,20,1010.033,2020.021],[20,20,1020.040,2020.032],[30,20,1030.006,2020.006],",
            "[0,30,1000.039,2030.015],[10,30,1010.005,2030.026],[20,30,1020.012,2030.000],[30,30,1030.019,2030.011]],",
            r#""triangles":[[0,1,5],[0,5,4],[1,2,6],[1,6,5],[2,3,7],[2,7,6],[4,5,9],[4,9,8],[5,6,10],[5,10,9],[6,7,11],"#,
            "[6,11,10],[8,9,13],[8,13,12],[9,10,14],[9,14,13],[10,11,15],[10,15,14]]}"
        ),
        "LINESTRING (0 2.5, 30 7.5)\nLINESTRING (0 12.5, 30 7.5)\nLINESTRING (0 22.5, 30 7.5)\n",
    ),
];

/// Whether these are the texts of this many cells on each side.
fn are_texts(alloc: Global, count: u32, behind: &str, wanted: &str) -> Result<bool, AllocError> {
    if count < 1 || count > 512 {
        return Ok(false);
    }
    let tin = make_tin(alloc, count)?;
    let layer = make_layer(alloc, count)?;
    Ok(
        tin.strip_prefix(FRONT.as_bytes()) == Some(behind.as_bytes())
            && layer.as_slice() == wanted.as_bytes(),
    )
}

/// The first of the counts whose texts are others, or none.
fn first_other(alloc: Global, rows: &[(u32, &str, &str)]) -> Result<Option<u32>, AllocError> {
    for &(count, behind, layer) in rows {
        if !are_texts(alloc, count, behind, layer)? {
            return Ok(Some(count));
        }
    }
    Ok(None)
}

#[test]
fn cells_are_written(rt: HostRuntime) {
    assert_eq!(rt; first_other(rt.alloc(), TEXTS), Ok(None));
}

#[test]
fn the_greatest_triangulation_is_written(rt: HostRuntime) -> Result<(), Fail> {
    let tin = make_tin(rt.alloc(), 512)?;
    let is_whole = tin.ends_with(b",[262654,262655,263168],[262654,263168,263167]]}");
    assert_eq!(rt; (tin.len(), is_whole), (19_179_634, true));
    Ok(())
}

#[test]
fn the_greatest_layer_is_written(rt: HostRuntime) -> Result<(), Fail> {
    let layer = make_layer(rt.alloc(), 512)?;
    let is_whole = layer.ends_with(b"\nLINESTRING (0 5112.5, 5120 5097.5)\n");
    assert_eq!(rt; (layer.len(), is_whole), (17_698, true));
    Ok(())
}

/// One cell, and many cells twice alike.
const MADE: &[MemoryJob] = &[
    (
        &["make", "1"],
        &[],
        Status::Same,
        &[
            (
                "-",
                Some(
                    "tinmove report 1
triangulation corners 4 triangles 2 inexact 0 name made.json
layer 0 paths 1 segments 1 pieces 2 inexact 0 dropped 0 name made.wkt
changes 0
end
",
                ),
            ),
            ("made.wkt", None),
        ],
    ),
    (&["make", "24"], &[], Status::Same, &[("-", Some(MANY))]),
    (&["make", "24"], &[], Status::Same, &[("-", Some(MANY))]),
];

const MANY: &str = "tinmove report 1
triangulation corners 625 triangles 1152 inexact 0 name made.json
layer 0 paths 24 segments 24 pieces 1304 inexact 0 dropped 0 name made.wkt
changes 0
end
";

#[test]
fn cells_are_made(rt: HostRuntime) {
    assert_eq!(rt;
        other_job(rt.alloc(), &[("maps that are made", MADE)]),
        None
    );
}
