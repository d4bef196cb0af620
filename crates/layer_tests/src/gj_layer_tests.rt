//! Objects of GeoJSON. The expected places, sheets and texts are worked out by hand.

use crate::moves::{HINGE, is_moved_to};
use crate::sheets::{LONGEST, WantedSheet, how, is_sheet};
use gj_layer::GeoJson;
use mm_decimal::NumFault;
use sheet_base::{Layer, LayerFault, PathKind, Sheet, What};
use std::alloc::Global;
use tin_texts::{SQUARE, TRIANGLE};

/// The text is not longer than `LONGEST`.
fn read(alloc: Global, text: &[u8], exact: bool) -> Result<Sheet, LayerFault> {
    if text.len() > LONGEST {
        return Err(LayerFault::NoMemory);
    }
    GeoJson::read(alloc, text, how(exact))
}

/// The number of the first text with another fault, or none.
fn first_other(alloc: Global, rows: &[(&str, LayerFault)], exact: bool) -> Option<usize> {
    for (number, &(text, fault)) in rows.iter().enumerate() {
        if read(alloc, text.as_bytes(), exact).err() != Some(fault) {
            return Some(number);
        }
    }
    None
}

/// Objects with faults in their members, and the first one. The places were counted from marks in the texts.
const BAD_OBJECTS: &[(&str, LayerFault)] = &[
    ("5", LayerFault::Shape { at: 0 }),
    ("null", LayerFault::Shape { at: 0 }),
    (
        r#" [{"type":"Point","coordinates":[]}]"#,
        LayerFault::Shape { at: 1 },
    ),
    ("\t\"Point\"", LayerFault::Shape { at: 1 }),
    (
        r#"{"type":"Point","type":"Point"}"#,
        LayerFault::Repeat { at: 16 },
    ),
    (
        r#"{"type":"Arc","t\u0079pe":5}"#,
        LayerFault::Repeat { at: 14 },
    ),
    (
        r#"{"bbox":1,"type":5,"bbox":2,"type":6}"#,
        LayerFault::Repeat { at: 28 },
    ),
    (
        r#"{"bbox":1, "bb\u006Fx":2,"type":5}"#,
        LayerFault::Repeat { at: 11 },
    ),
    (
        r#"{"crs":1,"bbox":1,"crs":2,"bbox":2}"#,
        LayerFault::Repeat { at: 26 },
    ),
    (
        r#"{"crs":1,"crs":2,"type":5}"#,
        LayerFault::Repeat { at: 9 },
    ),
    (
        r#"{"type":"Feature","geometry":{"bbox":[],"bbox":[],"type":"Arc"}}"#,
        LayerFault::Repeat { at: 40 },
    ),
    ("{}", LayerFault::Shape { at: 0 }),
    (
        r#"{"Type":"Point","coordinates":[]}"#,
        LayerFault::Shape { at: 0 },
    ),
    (r#" {"type":null}"#, LayerFault::Shape { at: 1 }),
    (
        r#"{"type":["Point"],"coordinates":[]}"#,
        LayerFault::Shape { at: 0 },
    ),
    (
        r#"{"type":"Feature","geometry":{"coordinates":[]}}"#,
        LayerFault::Shape { at: 29 },
    ),
    (r#"{"type":"Arc"}"#, LayerFault::Kind { at: 8 }),
    (
        r#"{"type":"point","coordinates":[]}"#,
        LayerFault::Kind { at: 8 },
    ),
    (
        r#"{"type": "Point ","coordinates":[]}"#,
        LayerFault::Kind { at: 9 },
    ),
    (
        r#"{"type":"Feature","geometry":{"type":"Feature","geometry":null}}"#,
        LayerFault::Kind { at: 37 },
    ),
    (
        r#"{"type":"Feature","geometry":{"type":"FeatureCollection","features":[]}}"#,
        LayerFault::Kind { at: 37 },
    ),
    (
        r#"{"type":"FeatureCollection","features":[{"type":"Point","coordinates":[]}]}"#,
        LayerFault::Kind { at: 48 },
    ),
    (
        r#"{"type":"FeatureCollection","features":[{"type":"Feature"},{"type":"FeatureCollection","features":[]}]}"#,
        LayerFault::Kind { at: 67 },
    ),
    (
        r#"{"type":"GeometryCollection","geometries":[{"type":"Feature","geometry":null}]}"#,
        LayerFault::Kind { at: 51 },
    ),
    (
        r#"{"type":"Point","coordinates":[1,2],"coordinates":[1]}"#,
        LayerFault::Repeat { at: 36 },
    ),
];

/// Objects with faults in what they hold, and the first one. The places were counted from marks in the texts.
const BAD_CONTENTS: &[(&str, LayerFault)] = &[
    (
        r#"{"type":"Feature","geometry":null,"geom\u0065try":null}"#,
        LayerFault::Repeat { at: 34 },
    ),
    (
        r#"{"features":1,"features":2,"type":"FeatureCollection"}"#,
        LayerFault::Repeat { at: 14 },
    ),
    (
        r#"{"geometries":[],"type":"GeometryCollection", "geometries":[]}"#,
        LayerFault::Repeat { at: 46 },
    ),
    (r#"{"type":"Point"}"#, LayerFault::Shape { at: 0 }),
    (
        r#"{"type":"FeatureCollection","geometries":[]}"#,
        LayerFault::Shape { at: 0 },
    ),
    (
        r#" {"type":"GeometryCollection","features":[]}"#,
        LayerFault::Shape { at: 1 },
    ),
    (
        r#"{"type":"FeatureCollection","features":{}}"#,
        LayerFault::Shape { at: 39 },
    ),
    (
        r#"{"type":"FeatureCollection","features":null}"#,
        LayerFault::Shape { at: 39 },
    ),
    (
        r#"{"type":"FeatureCollection","features":[null]}"#,
        LayerFault::Shape { at: 40 },
    ),
    (
        r#"{"type":"Feature","geometry":[]}"#,
        LayerFault::Shape { at: 29 },
    ),
    (
        r#"{"type":"GeometryCollection","geometries":[null]}"#,
        LayerFault::Shape { at: 43 },
    ),
    (
        r#"{"type":"GeometryCollection","geometries":7}"#,
        LayerFault::Shape { at: 42 },
    ),
    (
        r#"{"type":"Point","coordinates":null}"#,
        LayerFault::Shape { at: 30 },
    ),
    (
        r#"{"type":"Point","coordinates":{}}"#,
        LayerFault::Shape { at: 30 },
    ),
    (
        r#"{"type":"MultiPoint","coordinates":"x"}"#,
        LayerFault::Shape { at: 35 },
    ),
    (
        r#"{"type":"MultiPoint","coordinates":[5,0]}"#,
        LayerFault::Shape { at: 36 },
    ),
    (
        r#"{"type":"MultiPoint","coordinates":[[5,0],[]]}"#,
        LayerFault::Shape { at: 42 },
    ),
    (
        r#"{"type":"LineString","coordinates":5}"#,
        LayerFault::Shape { at: 35 },
    ),
    (
        r#"{"type":"LineString","coordinates":[[1,2],[3]]}"#,
        LayerFault::Shape { at: 42 },
    ),
    (
        r#"{"type":"MultiLineString","coordinates":[[1,2]]}"#,
        LayerFault::Shape { at: 42 },
    ),
    (
        r#"{"type":"MultiLineString","coordinates":[null]}"#,
        LayerFault::Shape { at: 41 },
    ),
    (
        r#"{"type":"Polygon","coordinates":[5]}"#,
        LayerFault::Shape { at: 33 },
    ),
    (
        r#"{"type":"Polygon","coordinates":true}"#,
        LayerFault::Shape { at: 32 },
    ),
    (
        r#"{"type":"MultiPolygon","coordinates":[[[[0,0],[1,0],[1,1],[0,0]]],6]}"#,
        LayerFault::Shape { at: 66 },
    ),
    (
        r#"{"type":"MultiPolygon","coordinates":[[6]]}"#,
        LayerFault::Shape { at: 39 },
    ),
];

/// Objects with faults in positions and rings, and the first one. The places were counted from marks in the texts.
const BAD_POSITIONS: &[(&str, LayerFault)] = &[
    (
        r#"{"type":"Point","coordinates":[5]}"#,
        LayerFault::Shape { at: 30 },
    ),
    (
        r#"{"type":"Point","coordinates":[5,0,1,1]}"#,
        LayerFault::Height { at: 37 },
    ),
    (
        r#"{"type":"Point","coordinates":["a",null, null, 4]}"#,
        LayerFault::Height { at: 47 },
    ),
    (
        r#"{"type":"Point","coordinates":["a",0,1,2,3]}"#,
        LayerFault::Height { at: 39 },
    ),
    (
        r#"{"type":"LineString","coordinates":[[0,0],[1,2,3,[]]]}"#,
        LayerFault::Height { at: 49 },
    ),
    (
        r#"{"type":"LineString","coordinates":[[0,0],[1,2,[]]]}"#,
        LayerFault::Shape { at: 47 },
    ),
    (
        r#"{"type":"Point","coordinates":[5,0,"1"]}"#,
        LayerFault::Shape { at: 35 },
    ),
    (
        r#"{"type":"Point","coordinates":["a",null, null]}"#,
        LayerFault::Shape { at: 31 },
    ),
    (
        r#"{"type":"Point","coordinates":[1,2,1e100]}"#,
        LayerFault::Number {
            at: 35,
            fault: NumFault::Range,
        },
    ),
    (
        r#"{"type":"Point","coordinates":["5",0]}"#,
        LayerFault::Shape { at: 31 },
    ),
    (
        r#"{"type":"Point","coordinates":[5,null]}"#,
        LayerFault::Shape { at: 33 },
    ),
    (
        r#"{"type":"Point","coordinates":[[5,0],1]}"#,
        LayerFault::Shape { at: 31 },
    ),
    (
        r#"{"type":"Point","coordinates":[1e100,null]}"#,
        LayerFault::Number {
            at: 31,
            fault: NumFault::Range,
        },
    ),
    (
        r#"{"type":"LineString","coordinates":[[0,0],[1, 1000000000000.0005],[2]]}"#,
        LayerFault::Number {
            at: 46,
            fault: NumFault::Range,
        },
    ),
    (
        r#"{"type":"Point","coordinates":[5,11111111111111111111111111111111111111111111111111111111111111111]}"#,
        LayerFault::Number {
            at: 33,
            fault: NumFault::Long,
        },
    ),
    (
        r#"{"type":"Polygon","coordinates":[[]]}"#,
        LayerFault::Ring { at: 33 },
    ),
    (
        r#"{"type":"Polygon","coordinates":[[[0,0],[1,0],[0,0]]]}"#,
        LayerFault::Ring { at: 33 },
    ),
    (
        r#"{"type":"Polygon","coordinates":[ [[0,0],[1,0],[1,1],[0,1]]]}"#,
        LayerFault::Ring { at: 34 },
    ),
    (
        r#"{"type":"Polygon","coordinates":[[[0,0],[1,0],[1,1],[0,0.001]]]}"#,
        LayerFault::Ring { at: 33 },
    ),
    (
        r#"{"type":"Polygon","coordinates":[[[0,0],[1,0],[1,1],[0,0]],[[0,0],[1,0],[0,0]]]}"#,
        LayerFault::Ring { at: 59 },
    ),
    (
        r#"{"type":"MultiPolygon","coordinates":[[[[0,0],[1,0],[1,1],[0,0]]],[[[0,0],[1,0],[1,1],[1,0]]]]}"#,
        LayerFault::Ring { at: 67 },
    ),
    (
        r#"{"type":"Polygon","coordinates":[[[0,0,1],[1,0,1],[1,1,1],[0,0,2]]]}"#,
        LayerFault::Ring { at: 33 },
    ),
    (
        r#"{"type":"Polygon","coordinates":[[[0,0],[1,0],[1,1],[0,0,0]]]}"#,
        LayerFault::Ring { at: 33 },
    ),
    (
        r#"{"type":"Polygon","coordinates":[[[0,0,0],[1,0],[1,1],[0,0]]]}"#,
        LayerFault::Ring { at: 33 },
    ),
    (
        r#"{"type":"Polygon","coordinates":[[[0,0,5],[1,0],[1,1],[0,0,5]],[[0,0,5],[1,0],[1,1],[0,0,5.001]]]}"#,
        LayerFault::Ring { at: 63 },
    ),
    (
        r#"{"type":"Polygon","coordinates":[[[0,0],[1,0,5,6]]]}"#,
        LayerFault::Height { at: 47 },
    ),
    (
        concat!(
            r#"{"type":"FeatureCollection","features":[{"type":"Feature","#,
            r#""geometry":{"type":"Point","coordinates":[1,2,3,4]}},{"type":"Arc"}]}"#
        ),
        LayerFault::Height { at: 106 },
    ),
    (
        r#"{"type":"FeatureCollection","features":[{"type":"Feature","geometry":null},5,{"type":"Arc"}]}"#,
        LayerFault::Shape { at: 75 },
    ),
    (
        concat!(
            r#"{"type":"GeometryCollection","geometries":"#,
            r#"[{"type":"GeometryCollection","geometries":[{"type":"Point","coordinates":[]},{"type":"Arc"}]},6]}"#
        ),
        LayerFault::Kind { at: 128 },
    ),
    ("", LayerFault::Bad { at: 0 }),
    (
        r#"{"type":"Point","coordinates":[5,0]}x"#,
        LayerFault::Bad { at: 36 },
    ),
    (
        r#"{"type":"Arc","coordinates":[+5,0]}"#,
        LayerFault::Bad { at: 29 },
    ),
    (
        "[[[[[[[[[[[[[[[[[[[[[[[[[[[[[[[[[[[[[[[[[[[[[[[[[[[[[[[[[[[[[[[[[",
        LayerFault::Deep { at: 64 },
    ),
];

const LOST_DIGITS: &[(&str, LayerFault)] = &[
    (
        r#"{"type":"Point","coordinates":[5,0.0004]}"#,
        LayerFault::Inexact { at: 33 },
    ),
    (
        r#"{"type":"Point","coordinates":[0.0004,1e100]}"#,
        LayerFault::Inexact { at: 31 },
    ),
    (
        r#"{"type":"Polygon","coordinates":[[[0,0],[1,0],[1,1],[0,0.0004]]]}"#,
        LayerFault::Inexact { at: 55 },
    ),
    (
        r#"{"type":"Point","coordinates":[5,0,0.0004]}"#,
        LayerFault::Inexact { at: 35 },
    ),
    (
        r#"{"type":"Point","coordinates":[0,0.0004,0.0004]}"#,
        LayerFault::Inexact { at: 33 },
    ),
    (
        r#"{"type":"Point","coordinates":[0.0004,5,6,7]}"#,
        LayerFault::Height { at: 42 },
    ),
];

/// The tables of faults, each after whether lost digits are refused.
const FAULTS: &[(bool, &[(&str, LayerFault)])] = &[
    (false, BAD_OBJECTS),
    (false, BAD_CONTENTS),
    (false, BAD_POSITIONS),
    (true, LOST_DIGITS),
];

/// The number of the first table with a text that has another fault, with the number of the text, or none.
fn first_other_fault(
    alloc: Global,
    tables: &[(bool, &[(&str, LayerFault)])],
) -> Option<(usize, usize)> {
    for (table, &(exact, rows)) in tables.iter().enumerate() {
        if let Some(number) = first_other(alloc, rows, exact) {
            return Some((table, number));
        }
    }
    None
}

#[test]
fn refuses_objects(rt: HostRuntime) {
    assert_eq!(rt; first_other_fault(rt.alloc(), FAULTS), None);
}

const PARCELS: &str = concat!(
    r#"{
"type": "FeatureCollection",
"name": "parcels",
"crs": { "type": "name", "properties": { "name": "urn:ogc:def:crs:EPSG::21781" } },
"bbox": [ 0.0, 0.0, 10.0, 10.0 ],
"features": [
{ "type": "Feature", "properties": { "n": "B\u00e4r" }, "#,
    r#""geometry": { "type": "LineString", "coordinates": [ [ 10.0, 0.0 ], [ 0.0, 10.0 ] ] } },
{ "type": "Feature", "properties": { "n": null }, "geometry": null }
]
}
"#
);

const MOVED_PARCELS: &str = concat!(
    r#"{
"type": "FeatureCollection",
"name": "parcels",
"crs": null,
"bbox": [100.000,100.000,110.000,110.000],
"features": [
{ "type": "Feature", "properties": { "n": "B\u00e4r" }, "#,
    r#""geometry": { "type": "LineString", "#,
    r#""coordinates": [ [110.000,100.000],[105.002,105.002],[100.000,110.000] ] } },
{ "type": "Feature", "properties": { "n": null }, "geometry": null }
]
}
"#
);

/// Triangulations, texts, and what is written of them.
const MOVED: &[(&str, &str, &str)] = &[
    (
        TRIANGLE,
        r#"{"type":"Point","coordinates":[5,0]}"#,
        r#"{"type":"Point","coordinates":[105.001,100.000]}"#,
    ),
    (
        TRIANGLE,
        r#" {"coordinates": [[ 5 , 0 ] ], "x": [1], "type": "MultiPoint"}"#,
        r#" {"coordinates": [[105.001,100.000] ], "x": [1], "type": "MultiPoint"}"#,
    ),
    (
        TRIANGLE,
        r#"{"type":"Point","coordinates":[5,0,1]}"#,
        r#"{"type":"Point","coordinates":[105.001,100.000,1.000]}"#,
    ),
    (
        TRIANGLE,
        r#"{"type":"MultiPoint","coordinates":[[5,0,-0.5], [5,0],[5,0, 2e-3]]}"#,
        r#"{"type":"MultiPoint","coordinates":[[105.001,100.000,-0.500], [105.001,100.000],[105.001,100.000,0.002]]}"#,
    ),
    (
        SQUARE,
        r#"{"coordinates":[],"bbox":[1],"type":"Point"}"#,
        r#"{"coordinates":[],"bbox":null,"type":"Point"}"#,
    ),
    (
        SQUARE,
        r#"{"type":"Feature","crs":{"a":[]},"bbox":"b"}"#,
        r#"{"type":"Feature","crs":null,"bbox":null}"#,
    ),
    (
        SQUARE,
        r#"{"type":"FeatureCollection","features":[{"type":"Feature","crs":7,"geometry":null}]}"#,
        r#"{"type":"FeatureCollection","features":[{"type":"Feature","crs":7,"geometry":null}]}"#,
    ),
    // The first side is cut where the middle corner is on it.
    (
        HINGE,
        r#"{"type":"Polygon","coordinates":[[ [0,0],[1,0],[1,1],[0,0] ]],"bbox":0}"#,
        concat!(
            r#"{"type":"Polygon","coordinates":"#,
            "[[ [0.000,0.000],[0.500,-0.005],[1.000,0.000],[1.000,1.000],[0.000,0.000] ]],",
            r#""bbox":[0.000,-0.005,1.000,1.000]}"#
        ),
    ),
    // Under the diagonal (x, y) goes to (100 + x + 0.0003 y, 100 + 1.0003 y). The sides cross it at u = 81/17 and u =
    // 9/10, which go to 104.76613.. and 100.90027.
    (
        SQUARE,
        r#"{"bbox":[],"type":"Polygon","coordinates":[[[1,0],[9,1],[0,9],[1,0]]]}"#,
        concat!(
            r#"{"bbox":[100.000,100.000,109.000,109.000],"type":"Polygon","#,
            r#""coordinates":[[[101.000,100.000],[109.000,101.000],[104.766,104.766],[100.000,109.000],"#,
            "[100.900,100.900],[101.000,100.000]]]}"
        ),
    ),
    // Objects with heights, and what is written of them. The line is cut at (5, 5), half way. A box has heights only where
    // each image has one.
    (
        SQUARE,
        r#"{"type":"LineString","bbox":[0],"coordinates":[[10,0,1],[0,10,2]]}"#,
        concat!(
            r#"{"type":"LineString","bbox":[100.000,100.000,1.000,110.000,110.000,2.000],"#,
            r#""coordinates":[[110.000,100.000,1.000],[105.002,105.002,1.500],[100.000,110.000,2.000]]}"#
        ),
    ),
    (
        SQUARE,
        r#"{"type":"LineString","bbox":[0],"coordinates":[[10,0,1],[0,10]]}"#,
        concat!(
            r#"{"type":"LineString","bbox":[100.000,100.000,110.000,110.000],"#,
            r#""coordinates":[[110.000,100.000,1.000],[105.002,105.002],[100.000,110.000]]}"#
        ),
    ),
    (
        SQUARE,
        r#"{"type":"LineString","bbox":[0],"coordinates":[[10,0],[0,10,2]]}"#,
        concat!(
            r#"{"type":"LineString","bbox":[100.000,100.000,110.000,110.000],"#,
            r#""coordinates":[[110.000,100.000],[105.002,105.002],[100.000,110.000,2.000]]}"#
        ),
    ),
    (
        SQUARE,
        r#"{"type":"LineString","coordinates":[[10,0,0],[0,10,-0.001]]}"#,
        r#"{"type":"LineString","coordinates":[[110.000,100.000,0.000],[105.002,105.002,0.000],[100.000,110.000,-0.001]]}"#,
    ),
    (
        SQUARE,
        r#"{"bbox":0,"type":"MultiPoint","coordinates":[[0,0,7],[10,0,-3],[0,10,2]]}"#,
        concat!(
            r#"{"bbox":[100.000,100.000,-3.000,110.000,110.000,7.000],"type":"MultiPoint","#,
            r#""coordinates":[[100.000,100.000,7.000],[110.000,100.000,-3.000],[100.000,110.000,2.000]]}"#
        ),
    ),
    (
        SQUARE,
        r#"{"bbox":0,"type":"MultiPoint","coordinates":[[0,0,7],[10,0],[0,10,2]]}"#,
        concat!(
            r#"{"bbox":[100.000,100.000,110.000,110.000],"type":"MultiPoint","#,
            r#""coordinates":[[100.000,100.000,7.000],[110.000,100.000],[100.000,110.000,2.000]]}"#
        ),
    ),
    // The ring is closed at the height of its first corner; its first side is cut half way.
    (
        HINGE,
        r#"{"type":"Polygon","coordinates":[[[0,0,4],[1,0,5],[1,1],[0,0,4.0001]]],"bbox":0}"#,
        concat!(
            r#"{"type":"Polygon","coordinates":"#,
            "[[[0.000,0.000,4.000],[0.500,-0.005,4.500],[1.000,0.000,5.000],[1.000,1.000],[0.000,0.000,4.000]]],",
            r#""bbox":[0.000,-0.005,1.000,1.000]}"#
        ),
    ),
    // the layout of ogr2ogr is kept
    (SQUARE, PARCELS, MOVED_PARCELS),
];

/// The number of the first text that is written otherwise, or none.
fn first_other_moved(alloc: Global, rows: &[(&str, &str, &str)]) -> Option<usize> {
    for (number, &(tin, text, wanted)) in rows.iter().enumerate() {
        if !is_moved_to::<GeoJson>(alloc, tin, text.as_bytes(), how(false), wanted.as_bytes()) {
            return Some(number);
        }
    }
    None
}

#[test]
fn puts_images(rt: HostRuntime) {
    assert_eq!(rt; first_other_moved(rt.alloc(), MOVED), None);
}

/// The first length below this one at which the first part of the text is not bad at its end, or none.
fn first_other_front(alloc: Global, text: &[u8], past: usize) -> Option<usize> {
    for length in 0..past {
        let Some(front) = text.get(..length) else {
            return Some(length);
        };
        if read(alloc, front, false).err() != Some(LayerFault::Bad { at: length as u64 }) {
            return Some(length);
        }
    }
    None
}

/// A text that ends before its last brace is bad at its end.
#[test]
fn refuses_each_prefix(rt: HostRuntime) {
    let text = PARCELS.as_bytes();
    let past = text.len().saturating_sub(1);
    assert_eq!(rt; first_other_front(rt.alloc(), text, past), None);
}

/// Boxes of objects in objects, before their contents and after them.
const NESTED: &str = concat!(
    r#"{"type":"FeatureCollection","features":[{"bbox":1,"type":"Feature","#,
    r#""geometry":{"type":"GeometryCollection","#,
    r#""geometries":[{"type":"Point","coordinates":[1,2]},"#,
    r#"{"type":"MultiLineString","coordinates":[[],[[3,4]],[[5,6],[7,8]]],"bbox":2}]}},{"type":"Feature"}],"#,
    r#""bbox":3,"crs":4}"#
);

/// Texts, and the sheets that are read of them.
const READ: &[(&str, WantedSheet)] = &[
    (
        NESTED,
        (
            &[
                (PathKind::Dot, 0, 1),
                (PathKind::Line, 1, 2),
                (PathKind::Line, 2, 4),
            ],
            &[(1000, 2000), (3000, 4000), (5000, 6000), (7000, 8000)],
            &[
                (48, 49, What::Bounds { first: 0, past: 3 }),
                (151, 156, What::GeoList { path: 0 }),
                (203, 208, What::GeoList { path: 1 }),
                (211, 222, What::GeoList { path: 2 }),
                (232, 233, What::Bounds { first: 1, past: 3 }),
                (265, 266, What::Bounds { first: 0, past: 3 }),
                (273, 274, What::Null),
            ],
            (0, 0),
        ),
    ),
    // The closing position of a ring counts, and members that are not read do not.
    (
        r#"{"type":"Polygon","coordinates":[[[0.0001,0],[1,0.00001],[1,1],[0.0002,0]]],"properties":[0.00001],"bbox":[0.00001]}"#,
        (
            &[(PathKind::Loop, 0, 3)],
            &[(0, 0), (1000, 0), (1000, 1000)],
            &[
                (34, 73, What::GeoRing { path: 0 }),
                (106, 115, What::Bounds { first: 0, past: 1 }),
            ],
            (3, 0),
        ),
    ),
    // A byte order mark, names with escapes, and blanks.
    (
        "\u{FEFF} {\"t\\u0079pe\" : \"Po\\u0069nt\",\t\"\\u0063oordinates\":[1,\r\n2]}",
        (
            &[(PathKind::Dot, 0, 1)],
            &[(1000, 2000)],
            &[(52, 59, What::GeoList { path: 0 })],
            (0, 0),
        ),
    ),
];

/// The number of the first text that is read otherwise, or none.
fn first_other_sheet(alloc: Global, rows: &[(&str, WantedSheet)]) -> Option<usize> {
    for (number, (text, wanted)) in rows.iter().enumerate() {
        if !is_sheet(read(alloc, text.as_bytes(), false), wanted) {
            return Some(number);
        }
    }
    None
}

#[test]
fn reads_sheets(rt: HostRuntime) {
    assert_eq!(rt; first_other_sheet(rt.alloc(), READ), None);
}

/// Whether the text is read, and its points have these heights in order; `None` is no height.
fn has_heights(alloc: Global, text: &str, heights: &[Option<i64>]) -> bool {
    let Ok(sheet) = read(alloc, text.as_bytes(), false) else {
        return false;
    };
    for (number, height) in heights.iter().enumerate() {
        if sheet.heights().at(number) != *height {
            return false;
        }
    }
    sheet.points().len() == heights.len()
}

/// Dots, a ring whose closing position is dropped, and one more dot.
#[test]
fn reads_heights(rt: HostRuntime) {
    let text = concat!(
        r#"{"type":"GeometryCollection","geometries":"#,
        r#"[{"type":"MultiPoint","coordinates":[[0,0],[1,0,1.5]]},"#,
        r#"{"type":"Polygon","coordinates":[[[0,0,2],[1,0],[1,1,-0.0004],[0,0,2]]]},"#,
        r#"{"type":"Point","coordinates":[3,4,5]}]}"#
    );
    let heights = [None, Some(1500), Some(2000), None, Some(0), Some(5000)];
    assert!(rt; has_heights(rt.alloc(), text, &heights));
}
