//! Runs that put the changes of sides of rings on the map. The expected texts are worked out by hand.

use crate::memory_runs::{shelf_of, words_of};
use place_runs::run;
use runs::Status;
use shelf_io::MemPress;
use std::alloc::{AllocError, Global};
use tin_texts::SQUARE;

/// A triangle whose frames differ by the half: each point goes to half of its coordinates.
const HALVED: &str = concat!(
    r#"{"file_type":"triangulation_file","format_version":"1.1","transformed_components":["horizontal"],"#,
    r#""vertices_columns":["source_x","source_y","target_x","target_y"],"#,
    r#""triangles_columns":["idx_vertex1","idx_vertex2","idx_vertex3"],"#,
    r#""vertices":[[0,0,0,0],[10,0,5,0],[0,10,0,5]],"triangles":[[0,1,2]]}"#
);

/// The triangulations, and layers: a ring with a side across the diagonal and a point of that side; the point alone; and
/// the ring as a feature with an id and a property. The last layer is a ring of three points a millimetre apart, which
/// half the size makes flat.
const FILES: &[(&str, &str)] = &[
    ("s.json", SQUARE),
    ("t.json", HALVED),
    (
        "r.wkt",
        "POLYGON ((10 0, 10 10, 0 10, 10 0))\nPOINT (6 4)\n",
    ),
    ("p.wkt", "POINT (6 4)\n"),
    (
        "c.json",
        concat!(
            r#"{"type":"Feature","id":"a-7","#,
            r#""geometry":{"type":"Polygon","coordinates":[[[10,0],[10,10],[0,10],[10,0]]]},"#,
            r#""properties":{"egrid":"CH 1"}}"#
        ),
    ),
    (
        "flat.wkt",
        "POLYGON ((0.001 0.001, 0.001 0, 0.002 0, 0.001 0.001))",
    ),
];

/// Words, how a run of them ends, and what it prints.
type Row = (&'static [&'static str], Status, &'static str);

/// Whether a run of these words over these files ends and prints so.
fn is_printed(alloc: Global, row: &Row) -> Result<bool, AllocError> {
    let words = words_of(alloc, row.0)?;
    let mut shelf = shelf_of(alloc, FILES)?;
    let mut press = MemPress::new(alloc, 64);
    let status = run(alloc, &words, &mut shelf, &mut press);
    Ok(status == row.1 && press.made_bytes("-") == Some(row.2.as_bytes()))
}

/// The number of the first row that goes otherwise, or none.
fn first_other(alloc: Global, rows: &[Row]) -> Option<usize> {
    for (number, row) in rows.iter().enumerate() {
        if is_printed(alloc, row) != Ok(true) {
            return Some(number);
        }
    }
    None
}

const ROWS: &[Row] = &[
    // The point leaves the border of the ring: its feature comes after that of the change.
    (
        &["--tin", "s.json", "--sides", "r.wkt"],
        Status::Changed,
        concat!(
            r#"{"type":"FeatureCollection","crs":null,"layers":["r.wkt"],"features":[
{"type":"Feature","geometry":{"type":"Point","coordinates":[106.001,104.001]},"#,
            r#""properties":{"change":0,"was":"touching","now":"apart","gap_mm":1,"first_layer":"r.wkt","#,
            r#""first":"0/0/2/1","first_at":10,"first_feature":1,"first_id":null,"#,
            r#""second_layer":"r.wkt","second":"0/1/0/0","second_at":43,"second_feature":2,"second_id":null}},
{"type":"Feature","geometry":{"type":"Point","coordinates":[106.001,104.001]},"#,
            r#""properties":{"side":0,"was":"border","now":"outside","ring_layer":"r.wkt","ring":"0/0","ring_at":10,"#,
            r#""ring_feature":1,"ring_id":null,"#,
            r#""point_layer":"r.wkt","point":"0/1/0","point_at":43,"point_feature":2,"point_id":null}}]}
"#
        ),
    ),
    // Where lines are wanted it is a line of two equal positions.
    (
        &["--lines", "--tin", "s.json", "r.wkt", "--sides"],
        Status::Changed,
        concat!(
            r#"{"type":"FeatureCollection","crs":null,"layers":["r.wkt"],"features":[
{"type":"Feature","geometry":{"type":"MultiLineString","#,
            r#""coordinates":[[[105.002,105.002],[110.000,100.000]],[[106.001,104.001],[106.001,104.001]]]},"#,
            r#""properties":{"change":0,"was":"touching","now":"apart","gap_mm":1,"first_layer":"r.wkt","#,
            r#""first":"0/0/2/1","first_at":10,"first_feature":1,"first_id":null,"#,
            r#""second_layer":"r.wkt","second":"0/1/0/0","second_at":43,"second_feature":2,"second_id":null}},
{"type":"Feature","geometry":{"type":"MultiLineString","#,
            r#""coordinates":[[[106.001,104.001],[106.001,104.001]]]},"#,
            r#""properties":{"side":0,"was":"border","now":"outside","ring_layer":"r.wkt","ring":"0/0","ring_at":10,"#,
            r#""ring_feature":1,"ring_id":null,"#,
            r#""point_layer":"r.wkt","point":"0/1/0","point_at":43,"point_feature":2,"point_id":null}}]}
"#
        ),
    ),
    // Sides of one layer are left out where changes across layers alone are wanted.
    (
        &["--tin", "s.json", "--sides", "--across", "r.wkt"],
        Status::Same,
        "{\"type\":\"FeatureCollection\",\"crs\":null,\"layers\":[\"r.wkt\"],\"features\":[]}\n",
    ),
    (
        &["--tin", "s.json", "--sides", "--across", "r.wkt", "p.wkt"],
        Status::Changed,
        concat!(
            r#"{"type":"FeatureCollection","crs":null,"layers":["r.wkt","p.wkt"],"features":[
{"type":"Feature","geometry":{"type":"Point","coordinates":[106.001,104.001]},"#,
            r#""properties":{"change":0,"was":"touching","now":"apart","gap_mm":1,"first_layer":"r.wkt","#,
            r#""first":"0/0/2/1","first_at":10,"first_feature":1,"first_id":null,"#,
            r#""second_layer":"p.wkt","second":"1/0/0/0","second_at":7,"second_feature":1,"second_id":null}},
{"type":"Feature","geometry":{"type":"Point","coordinates":[106.001,104.001]},"#,
            r#""properties":{"side":0,"was":"border","now":"outside","ring_layer":"r.wkt","ring":"0/0","ring_at":10,"#,
            r#""ring_feature":1,"ring_id":null,"#,
            r#""point_layer":"p.wkt","point":"1/0/0","point_at":7,"point_feature":1,"point_id":null}}]}
"#
        ),
    ),
    // A member of the properties of the ring's feature, and of those of the point's.
    (
        &[
            "--tin", "s.json", "--name", "egrid", "p.wkt", "--sides", "c.json",
        ],
        Status::Changed,
        concat!(
            r#"{"type":"FeatureCollection","crs":null,"layers":["p.wkt","c.json"],"features":[
{"type":"Feature","geometry":{"type":"Point","coordinates":[106.001,104.001]},"#,
            r#""properties":{"change":0,"was":"touching","now":"apart","gap_mm":1,"first_layer":"p.wkt","#,
            r#""first":"0/0/0/0","first_at":7,"first_feature":1,"first_id":null,"first_name":null,"#,
            r#""second_layer":"c.json","second":"1/0/2/1","second_at":74,"second_feature":0,"second_id":"a-7","#,
            r#""second_name":"CH 1"}},
{"type":"Feature","geometry":{"type":"Point","coordinates":[106.001,104.001]},"#,
            r#""properties":{"side":0,"was":"border","now":"outside","ring_layer":"c.json","ring":"1/0","ring_at":74,"#,
            r#""ring_feature":0,"ring_id":"a-7","ring_name":"CH 1","#,
            r#""point_layer":"p.wkt","point":"0/0/0","point_at":7,"point_feature":1,"point_id":null,"#,
            r#""point_name":null}}]}
"#
        ),
    ),
    // The ring gets flat: its feature is at its first vertex, and has no point.
    (
        &["--tin", "t.json", "--sides", "flat.wkt"],
        Status::Changed,
        concat!(
            r#"{"type":"FeatureCollection","crs":null,"layers":["flat.wkt"],"features":[
{"type":"Feature","geometry":{"type":"Point","coordinates":[0.001,0.001]},"#,
            r#""properties":{"change":0,"was":"touching","now":"overlapping","gap_mm":0,"first_layer":"flat.wkt","#,
            r#""first":"0/0/0/0","first_at":10,"first_feature":1,"first_id":null,"#,
            r#""second_layer":"flat.wkt","second":"0/0/2/0","second_at":10,"second_feature":1,"second_id":null}},
{"type":"Feature","geometry":{"type":"Point","coordinates":[0.001,0.001]},"#,
            r#""properties":{"side":0,"was":"positive","now":"zero","ring_layer":"flat.wkt","ring":"0/0","ring_at":10,"#,
            r#""ring_feature":1,"ring_id":null,"#,
            r#""point_layer":null,"point":null,"point_at":null,"point_feature":null,"point_id":null}}]}
"#
        ),
    ),
    (
        &["--tin", "t.json", "--sides", "--across", "flat.wkt"],
        Status::Same,
        "{\"type\":\"FeatureCollection\",\"crs\":null,\"layers\":[\"flat.wkt\"],\"features\":[]}\n",
    ),
    // Nothing changes.
    (
        &["--tin", "s.json", "--sides", "p.wkt"],
        Status::Same,
        "{\"type\":\"FeatureCollection\",\"crs\":null,\"layers\":[\"p.wkt\"],\"features\":[]}\n",
    ),
    // Sides are not asked for.
    (
        &["--tin", "s.json", "r.wkt"],
        Status::Changed,
        concat!(
            r#"{"type":"FeatureCollection","crs":null,"layers":["r.wkt"],"features":[
{"type":"Feature","geometry":{"type":"Point","coordinates":[106.001,104.001]},"#,
            r#""properties":{"change":0,"was":"touching","now":"apart","gap_mm":1,"first_layer":"r.wkt","#,
            r#""first":"0/0/2/1","first_at":10,"first_feature":1,"first_id":null,"#,
            r#""second_layer":"r.wkt","second":"0/1/0/0","second_at":43,"second_feature":2,"second_id":null}}]}
"#
        ),
    ),
];

#[test]
fn changes_of_sides_have_features_where_they_are_asked_for(rt: HostRuntime) {
    assert_eq!(rt; first_other(rt.alloc(), ROWS), None);
}
