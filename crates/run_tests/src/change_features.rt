//! Features of changes: their ids and handles. The expected texts are worked out by hand.

use crate::places::{PlacesLayer, first_other_layer, prints, text_of};
use runs::Status;
use std::test::Fail;

/// A line and a point of it in two features after a polygon with a hole: a text with escapes and a number are ids.
const IDS: &str = concat!(
    r#"{"type":"FeatureCollection","features":[{"type":"Feature","id":7,"#,
    r#""geometry":{"type":"Polygon","coordinates":"#,
    r#"[[[1,3],[2,3],[2,4],[1,4],[1,3]],[[1.2,3.2],[1.4,3.4],[1.4,3.2],[1.2,3.2]]]},"properties":{"id":1}},"#,
    r#"{"type":"Feature","id":"a\"\u00e4","geometry":{"type":"LineString","coordinates":[[10,0],[0,10]]},"#,
    r#""properties":{"id":2}},"#,
    r#"{"type":"Feature","properties":{"id":3},"geometry":{"type":"Point","coordinates":[6,4]},"id": 12.50E1}]}"#
);

/// The line with two ids, and the point with one that is no text and no number.
const ODD: &str = concat!(
    r#"{"type":"FeatureCollection","features":[{"type":"Feature","id":1,"id":2,"#,
    r#""geometry":{"type":"LineString","coordinates":[[10,0],[0,10]]},"properties":{}},"#,
    r#"{"type":"Feature","id":{"n":[1, null]},"geometry":{"type":"Point","coordinates":[6,4]},"#,
    r#""properties":null}]}"#
);

/// The line as a polyline with a handle, whose vertices have their own, and the point without one.
const POLYLINE: &str =
    "  0\nSECTION\n  2\nHEADER\n  9\n$HANDSEED\n  5\n2F\n  0\nENDSEC\n  0\nSECTION\n  2\nENTITIES\n  0\n\
     POLYLINE\n  5\n1a\n 66\n1\n 70\n0\n  0\nVERTEX\n  5\nA2\n 10\n10.0\n 20\n0.0\n  0\nVERTEX\n  5\nA3\n 10\n\
     0.0\n 20\n10.0\n  0\nSEQEND\n  5\nA4\n  0\nPOINT\n  8\nWELL\n 10\n6.0\n 20\n4.0\n  0\nENDSEC\n  0\nEOF\n";

/// The polyline, and the point with a handle that is not hexadecimal.
const WORD: &str =
    "  0\nSECTION\n  2\nHEADER\n  9\n$HANDSEED\n  5\n2F\n  0\nENDSEC\n  0\nSECTION\n  2\nENTITIES\n  0\n\
     POLYLINE\n  5\n1a\n 66\n1\n 70\n0\n  0\nVERTEX\n  5\nA2\n 10\n10.0\n 20\n0.0\n  0\nVERTEX\n  5\nA3\n 10\n\
     0.0\n 20\n10.0\n  0\nSEQEND\n  5\nA4\n  0\nPOINT\n  5\n1G\n  8\nWELL\n 10\n6.0\n 20\n4.0\n  0\nENDSEC\n  0\n\
     EOF\n";

/// The polyline, and the point with two handles.
const TWO: &str =
    "  0\nSECTION\n  2\nHEADER\n  9\n$HANDSEED\n  5\n2F\n  0\nENDSEC\n  0\nSECTION\n  2\nENTITIES\n  0\n\
     POLYLINE\n  5\n1a\n 66\n1\n 70\n0\n  0\nVERTEX\n  5\nA2\n 10\n10.0\n 20\n0.0\n  0\nVERTEX\n  5\nA3\n 10\n\
     0.0\n 20\n10.0\n  0\nSEQEND\n  5\nA4\n  0\nPOINT\n  5\n2D\n  5\n2E\n  8\nWELL\n 10\n6.0\n 20\n4.0\n  0\n\
     ENDSEC\n  0\nEOF\n";

const LAYERS: &[PlacesLayer] = &[
    (
        "ids.geojson",
        IDS,
        r#""ids.geojson""#,
        concat!(
            r#"ids.geojson","first":"0/2/0/0","first_at":290,"first_feature":1,"first_id":"a\"\u00e4","#,
            r#""second_layer":"ids.geojson","second":"0/3/0/0","second_at":410,"second_feature":2,"second_id":12.50E1"#
        ),
    ),
    (
        "odd.geojson",
        ODD,
        r#""odd.geojson""#,
        concat!(
            r#"odd.geojson","first":"0/0/0/0","first_at":119,"first_feature":0,"first_id":null,"#,
            r#""second_layer":"odd.geojson","second":"0/1/0/0","second_at":232,"second_feature":1,"#,
            r#""second_id":{"n":[1, null]}"#
        ),
    ),
    (
        "polyline.dxf",
        POLYLINE,
        r#""polyline.dxf""#,
        concat!(
            r#"polyline.dxf","first":"0/0/0/0","first_at":23,"first_feature":"1a","first_id":null,"#,
            r#""second_layer":"polyline.dxf","second":"0/1/0/0","second_at":48,"second_feature":43,"second_id":null"#
        ),
    ),
    (
        "word.dxf",
        WORD,
        r#""word.dxf""#,
        concat!(
            r#"word.dxf","first":"0/0/0/0","first_at":23,"first_feature":"1a","first_id":null,"#,
            r#""second_layer":"word.dxf","second":"0/1/0/0","second_at":50,"second_feature":43,"second_id":null"#
        ),
    ),
    (
        "two.dxf",
        TWO,
        r#""two.dxf""#,
        concat!(
            r#"two.dxf","first":"0/0/0/0","first_at":23,"first_feature":"1a","first_id":null,"#,
            r#""second_layer":"two.dxf","second":"0/1/0/0","second_at":52,"second_feature":43,"second_id":null"#
        ),
    ),
];

#[test]
fn ids_and_handles_are_copied(rt: HostRuntime) {
    assert_eq!(rt; first_other_layer(rt.alloc(), LAYERS), None);
}

/// What the text says of both sides where the member `id` of properties is asked for: it is not the feature's own.
const NAMED: &str = concat!(
    r#"ids.geojson","first":"0/2/0/0","first_at":290,"first_feature":1,"first_id":"a\"\u00e4","first_name":2,"#,
    r#""second_layer":"ids.geojson","second":"0/3/0/0","second_at":410,"second_feature":2,"second_id":12.50E1,"#,
    r#""second_name":3"#
);

/// What the text says of both sides where properties, an object and null, lack the member that is asked for.
const UNNAMED: &str = concat!(
    r#"odd.geojson","first":"0/0/0/0","first_at":119,"first_feature":0,"first_id":null,"first_name":null,"#,
    r#""second_layer":"odd.geojson","second":"0/1/0/0","second_at":232,"second_feature":1,"#,
    r#""second_id":{"n":[1, null]},"second_name":null"#
);

#[test]
fn a_member_of_properties_is_copied(rt: HostRuntime) -> Result<(), Fail> {
    let text = text_of(rt.alloc(), r#""ids.geojson""#, NAMED)?;
    let words = ["--tin", "s.json", "--name", "id", "ids.geojson"];
    assert!(rt;
        prints(
            rt.alloc(),
            &words,
            &[("ids.geojson", IDS)],
            Status::Changed,
            &text
        )
    );
    let other = text_of(rt.alloc(), r#""odd.geojson""#, UNNAMED)?;
    let last = ["--tin", "s.json", "odd.geojson", "--name", "id"];
    assert!(rt;
        prints(
            rt.alloc(),
            &last,
            &[("odd.geojson", ODD)],
            Status::Changed,
            &other
        )
    );
    Ok(())
}
