//! Runs over whole layers of GeoJSON, in memory. The expected texts and lines are worked out by hand.

use crate::memory_runs::{CarriedRow, CarriedTable, other_carried};
use runs::Status;
use tin_texts::{SQUARE, TRIANGLE};

/// A line across the diagonal and a feature without a place, laid out as ogr2ogr lays them out.
const PARCELS: &str = concat!(
    r#"{
"type": "FeatureCollection",
"name": "parcels",
"crs": { "type": "name", "properties": { "name": "urn:ogc:def:crs:EPSG::21781" } },
"bbox": [ 0.0, 0.0, 10.0, 10.0 ],
"features": [
{ "type": "Feature", "properties": { "n": "B\u00e4r" }, "#,
    r#""geometry": { "type": "LineString", "coordinates": [ [ 10.0, 0.0 ], [ 0.0, 10.0 ] ] } },
{ "type": "Feature", "properties": { "n": null }, "geometry": null }
]
}"#
);

/// Those two features, carried through the square.
const CARRIED_PARCELS: &str = concat!(
    r#"{
"type": "FeatureCollection",
"name": "parcels",
"crs": null,
"bbox": [100.000,100.000,110.000,110.000],
"features": [
{ "type": "Feature", "properties": { "n": "B\u00e4r" }, "#,
    r#""geometry": { "type": "LineString", "#,
    r#""coordinates": [ [110.000,100.000],[105.002,105.002],[100.000,110.000] ] } },
{ "type": "Feature", "properties": { "n": null }, "geometry": null }
]
}"#
);

/// The names of the triangulation and of the layer.
const NAMES: (&str, &str) = ("s.json", "p.geojson");

const IN_FOLDER: (&str, &str) = ("s.json", "in/p.json");

const COLLECTION: &[CarriedRow] = &[(
    SQUARE,
    PARCELS,
    Status::Same,
    &[
        ("o/p.geojson", Some(CARRIED_PARCELS)),
        (
            "-",
            Some(
                "tinmove report 1
triangulation corners 4 triangles 2 inexact 0 name s.json
layer 0 paths 1 segments 1 pieces 2 inexact 0 dropped 0 name p.geojson
changes 0
end
",
            ),
        ),
    ],
)];

const POINT: &str = r#"{"type":"Point","coordinates":[5,0]}"#;

const POINT_CARRIED: &str = r#"{"type":"Point","coordinates":[105.001,100.000]}"#;

const NO_POINT: &str = r#"{"coordinates":[],"bbox":[1],"type":"Point"}"#;

const NO_POINT_CARRIED: &str = r#"{"coordinates":[],"bbox":null,"type":"Point"}"#;

const POLYGON: &str = r#"{"type":"Polygon","coordinates":[[[0,0],[10,0],[0,10],[0,0]]]}"#;

const POLYGON_CARRIED: &str =
    r#"{"type":"Polygon","coordinates":[[[100.000,100.000],[110.002,100.000],[100.000,110.000],[100.000,100.000]]]}"#;

const OBJECTS: &[CarriedRow] = &[
    (
        TRIANGLE,
        POINT,
        Status::Same,
        &[("o/p.geojson", Some(POINT_CARRIED))],
    ),
    (
        TRIANGLE,
        NO_POINT,
        Status::Same,
        &[("o/p.geojson", Some(NO_POINT_CARRIED))],
    ),
    (
        TRIANGLE,
        POLYGON,
        Status::Same,
        &[("o/p.geojson", Some(POLYGON_CARRIED))],
    ),
];

/// The same objects, and two that are apart after rounding.
const OBJECTS_IN_FOLDER: &[CarriedRow] = &[
    (
        TRIANGLE,
        POINT,
        Status::Same,
        &[("o/p.json", Some(POINT_CARRIED))],
    ),
    (
        TRIANGLE,
        NO_POINT,
        Status::Same,
        &[("o/p.json", Some(NO_POINT_CARRIED))],
    ),
    (
        TRIANGLE,
        POLYGON,
        Status::Same,
        &[("o/p.json", Some(POLYGON_CARRIED))],
    ),
    (
        SQUARE,
        concat!(
            r#"{"type":"GeometryCollection","geometries":"#,
            r#"[{"type":"LineString","coordinates":[[10,0],[0,10]]},{"type":"Point","coordinates":[6,4]}]}"#
        ),
        Status::Changed,
        &[
            (
                "o/p.json",
                Some(concat!(
                    r#"{"type":"GeometryCollection","geometries":"#,
                    r#"[{"type":"LineString","coordinates":[[110.000,100.000],[105.002,105.002],[100.000,110.000]]},"#,
                    r#"{"type":"Point","coordinates":[106.001,104.001]}]}"#
                )),
            ),
            (
                "-",
                Some(
                    "tinmove report 1
triangulation corners 4 triangles 2 inexact 0 name s.json
layer 0 paths 2 segments 2 pieces 3 inexact 0 dropped 0 name in/p.json
changes 1
change 0/0/0/0 0/1/0/0 touching apart
end
",
                ),
            ),
        ],
    ),
    // an object outside is named
    (
        TRIANGLE,
        r#"{"type":"MultiPoint","coordinates":[[1,1],[-1,0]]}"#,
        Status::Outside,
        &[("-", Some("outside: layer 0 path 1 segment 0\n"))],
    ),
];

const REFUSED: &[CarriedRow] = &[
    (
        TRIANGLE,
        r#"{"type":"Point","coordinates":[5,0,1,1]}"#,
        Status::Layer,
        &[
            ("-", Some("layer 0: height at 37\n")),
            ("o/p.geojson", None),
        ],
    ),
    (
        TRIANGLE,
        r#"{"type":"Point","type":"Point"}"#,
        Status::Layer,
        &[
            ("-", Some("layer 0: repeat at 16\n")),
            ("o/p.geojson", None),
        ],
    ),
    (
        TRIANGLE,
        r#"{"type":"Arc"}"#,
        Status::Layer,
        &[("-", Some("layer 0: kind at 8\n")), ("o/p.geojson", None)],
    ),
    (
        TRIANGLE,
        r#"{"type":"Point""#,
        Status::Layer,
        &[("-", Some("layer 0: bad at 15\n")), ("o/p.geojson", None)],
    ),
    (
        TRIANGLE,
        "[]",
        Status::Layer,
        &[("-", Some("layer 0: shape at 0\n")), ("o/p.geojson", None)],
    ),
    (
        TRIANGLE,
        "[[[[[[[[[[[[[[[[[[[[[[[[[[[[[[[[[[[[[[[[[[[[[[[[[[[[[[[[[[[[[[[[[",
        Status::Layer,
        &[("-", Some("layer 0: deep at 64\n")), ("o/p.geojson", None)],
    ),
    (
        TRIANGLE,
        r#"{"type":"Point","coordinates":[5,1e100]}"#,
        Status::Layer,
        &[
            ("-", Some("layer 0: number range at 33\n")),
            ("o/p.geojson", None),
        ],
    ),
    (
        TRIANGLE,
        r#"{"type":"Polygon","coordinates":[[[0,0],[1,0],[0,0]]]}"#,
        Status::Layer,
        &[("-", Some("layer 0: ring at 33\n")), ("o/p.geojson", None)],
    ),
    // well-known text under this name is no JSON text
    (
        TRIANGLE,
        "POINT (5 0)",
        Status::Layer,
        &[("-", Some("layer 0: bad at 0\n")), ("o/p.geojson", None)],
    ),
];

const UNDER_ANOTHER_NAME: &[CarriedRow] = &[(
    TRIANGLE,
    POINT,
    Status::Layer,
    &[("-", Some("layer 0: bad at 0\n"))],
)];

/// The tables of this file.
const TABLES: &[CarriedTable] = &[
    (NAMES, "a collection of features is carried", COLLECTION),
    (NAMES, "objects keep all but their positions", OBJECTS),
    (
        IN_FOLDER,
        "objects of files in folders are carried or named",
        OBJECTS_IN_FOLDER,
    ),
    (NAMES, "refused objects have one line", REFUSED),
    (
        ("s.json", "p.wkt"),
        "an object under the name of well-known text is refused",
        UNDER_ANOTHER_NAME,
    ),
];

#[test]
fn objects_are_carried_or_refused(rt: HostRuntime) {
    assert_eq!(rt; other_carried(rt.alloc(), TABLES), None);
}
