//! Runs of the program that puts changes on the map, over files in memory. The expected texts are worked out by hand.

use crate::memory_runs::{NEVER, add_file, words_of};
use place_runs::{run, run_to_end};
use report_text::LayerRow;
use run_steps::{ToldPress, ToldShelf, Work};
use runs::Status;
use shelf_io::{MemPress, MemShelf};
use std::alloc::{AllocError, Global};
use std::test::Fail;
use tin_texts::SQUARE;

/// A line across the diagonal, and a point of it.
const LINES: &str = "LINESTRING (10 0, 0 10)\nPOINT (6 4)\n";

/// That line and point as GeoJSON.
const COLLECTION: &str = concat!(
    r#"{"type":"GeometryCollection","geometries":"#,
    r#"[{"type":"LineString","coordinates":[[10,0],[0,10]]},{"type":"Point","coordinates":[6,4]}]}"#
);

/// That line and point as a drawing.
const DRAWING: &str =
    "  0\nSECTION\n  2\nHEADER\n  9\n$HANDSEED\n  5\n2F\n  0\nENDSEC\n  0\nSECTION\n  2\nENTITIES\n  0\nLINE\n  5\n\
     2E\n  8\nWALL\n 10\n10.0\n 20\n0.0\n 11\n0.0\n 21\n10.0\n  0\nPOINT\n  5\n2D\n  8\nWELL\n 10\n6.0\n 20\n\
     4.0\n  0\nENDSEC\n  0\nEOF\n";

/// That line and point in two features, after polygons, one with a hole, and a feature without a geometry.
const MANY: &str = concat!(
    r#"{"type":"FeatureCollection","features":[{"type":"Feature","#,
    r#""geometry":{"type":"MultiPolygon","#,
    r#""coordinates":[[[[1,3],[2,3],[2,4],[1,4],[1,3]],[[1.2,3.2],[1.4,3.4],[1.4,3.2],[1.2,3.2]]],"#,
    r#"[[[1,5],[2,5],[2,6],[1,5]]]]},"properties":{}},{"type":"Feature","geometry":null,"properties":{}},"#,
    r#"{"type":"Feature","properties":null,"#,
    r#""geometry":{"type":"GeometryCollection","#,
    r#""geometries":[{"type":"LineString","coordinates":[[10,0],[0,10]]}]}},"#,
    r#"{"type":"Feature","geometry":{"type":"Point","coordinates":[6,4]},"properties":{}}]}"#
);

/// That line and point as one feature.
const SINGLE: &str = concat!(
    r#"{"type":"Feature","geometry":{"type":"GeometryCollection","#,
    r#""geometries":[{"type":"LineString","coordinates":[[10,0],[0,10]]},"#,
    r#"{"type":"Point","coordinates":[6,4]}]},"properties":{}}"#
);

/// That line and point after a polygon with a hole and between blank lines.
const BLANK: &str =
    "\nPOLYGON ((1 3, 2 3, 2 4, 1 4, 1 3), (1.2 3.2, 1.4 3.4, 1.4 3.2, 1.2 3.2))\n\nLINESTRING (10 0, 0 10)\n\n\nPOINT (6 4)\n";

/// How a text begins, up to the names of layers.
const HEAD: &str = r#"{"type":"FeatureCollection","crs":null,"layers":["#;

/// What comes after them, up to the name of the first layer of the one change.
const FRONT: &str = concat!(
    r#"],"features":[
{"type":"Feature","geometry":{"type":"Point","coordinates":[106.001,104.001]},"#,
    r#""properties":{"change":0,"was":"touching","now":"apart","gap_mm":1,"first_layer":""#
);

/// How it ends.
const BACK: &str = "}}]}\n";

/// The text of no change in the layer `p.wkt`.
const NO_CHANGE: &str =
    "{\"type\":\"FeatureCollection\",\"crs\":null,\"layers\":[\"p.wkt\"],\"features\":[]}\n";

/// A shelf of the square and these files; the first of a name counts.
fn shelf_of(alloc: Global, files: &[(&str, &str)]) -> Result<MemShelf, AllocError> {
    let mut shelf = MemShelf::new(alloc, 64);
    shelf.add("s.json", SQUARE.as_bytes())?;
    for (name, text) in files {
        add_file(&mut shelf, name, text.as_bytes())?;
    }
    Ok(shelf)
}

/// How a run of these words over this square and these files ends, and what it makes, by writes of at most 64 bytes
/// where the call of this number fails.
fn ran(
    alloc: Global,
    texts: &[&str],
    files: &[(&str, &str)],
    fail: u64,
) -> Result<(Status, MemPress), AllocError> {
    let words = words_of(alloc, texts)?;
    let mut shelf = shelf_of(alloc, files)?;
    let mut press = MemPress::new(alloc, 64);
    press.fail_at(fail)?;
    let status = run(alloc, &words, &mut shelf, &mut press);
    Ok((status, press))
}

/// Whether a run of these words over the square and these files ends so, and prints this text.
pub(crate) fn prints(
    alloc: Global,
    texts: &[&str],
    files: &[(&str, &str)],
    wanted: Status,
    said: &str,
) -> bool {
    match ran(alloc, texts, files, NEVER) {
        Ok((status, press)) => {
            let made = press.made_bytes("-");
            status == wanted && made == Some(said.as_bytes())
        }
        Err(_) => false,
    }
}

/// The text of the one change: the names of layers, how it goes on, and what it says of the first layer's name and both
/// sides are handed in.
fn text_with(alloc: Global, names: &str, front: &str, sides: &str) -> Result<String, AllocError> {
    let mut text = String::from_str(alloc, HEAD)?;
    text.push_str(names)?;
    text.push_str(front)?;
    text.push_str(sides)?;
    text.push_str(BACK)?;
    Ok(text)
}

/// The text of one change that is a point, where the names and what is said of both sides are handed in.
pub(crate) fn text_of(alloc: Global, names: &str, sides: &str) -> Result<String, AllocError> {
    text_with(alloc, names, FRONT, sides)
}

/// A layer's name, its text, the name as the text has it, and what the text of its one change says of both sides.
pub(crate) type PlacesLayer = (&'static str, &'static str, &'static str, &'static str);

/// Whether a run with this layer prints its one change.
fn prints_change(alloc: Global, row: &PlacesLayer) -> bool {
    let words = ["--tin", "s.json", row.0];
    let files = [(row.0, row.1)];
    match text_of(alloc, row.2, row.3) {
        Ok(text) => prints(alloc, &words, &files, Status::Changed, &text),
        Err(_) => false,
    }
}

/// The name of the first layer for which another text is printed, or none.
pub(crate) fn first_other_layer(alloc: Global, rows: &[PlacesLayer]) -> Option<&'static str> {
    for row in rows {
        if !prints_change(alloc, row) {
            return Some(row.0);
        }
    }
    None
}

const LAYERS: &[PlacesLayer] = &[
    (
        "lines.wkt",
        LINES,
        r#""lines.wkt""#,
        concat!(
            r#"lines.wkt","first":"0/0/0/0","first_at":12,"first_feature":1,"first_id":null,"#,
            r#""second_layer":"lines.wkt","second":"0/1/0/0","second_at":31,"second_feature":2,"second_id":null"#
        ),
    ),
    (
        "in/both.json",
        COLLECTION,
        r#""in/both.json""#,
        concat!(
            r#"in/both.json","first":"0/0/0/0","first_at":79,"first_feature":null,"first_id":null,"#,
            r#""second_layer":"in/both.json","second":"0/1/0/0","second_at":125,"second_feature":null,"second_id":null"#
        ),
    ),
    (
        "walls.dxf",
        DRAWING,
        r#""walls.dxf""#,
        concat!(
            r#"walls.dxf","first":"0/0/0/0","first_at":15,"first_feature":"2E","first_id":null,"#,
            r#""second_layer":"walls.dxf","second":"0/1/0/0","second_at":36,"second_feature":"2D","second_id":null"#
        ),
    ),
    // The number of a path is not that of its feature: features before it have more paths, or none.
    (
        "many.geojson",
        MANY,
        r#""many.geojson""#,
        concat!(
            r#"many.geojson","first":"0/3/0/0","first_at":407,"first_feature":2,"first_id":null,"#,
            r#""second_layer":"many.geojson","second":"0/4/0/0","second_at":485,"second_feature":3,"second_id":null"#
        ),
    ),
    (
        "single.json",
        SINGLE,
        r#""single.json""#,
        concat!(
            r#"single.json","first":"0/0/0/0","first_at":108,"first_feature":0,"first_id":null,"#,
            r#""second_layer":"single.json","second":"0/1/0/0","second_at":154,"second_feature":0,"second_id":null"#
        ),
    ),
    (
        "blank.wkt",
        BLANK,
        r#""blank.wkt""#,
        concat!(
            r#"blank.wkt","first":"0/2/0/0","first_at":88,"first_feature":4,"first_id":null,"#,
            r#""second_layer":"blank.wkt","second":"0/3/0/0","second_at":109,"second_feature":7,"second_id":null"#
        ),
    ),
];

#[test]
fn a_change_has_a_feature_in_each_format(rt: HostRuntime) {
    assert_eq!(rt; first_other_layer(rt.alloc(), LAYERS), None);
}

const TWO: &str = r#""one.wkt","the \"second\".geojson""#;

const TWO_SIDES: &str = concat!(
    r#"one.wkt","first":"0/0/0/0","first_at":12,"first_feature":1,"first_id":null,"#,
    r#""second_layer":"the \"second\".geojson","second":"1/0/0/0","second_at":32,"second_feature":null,"#,
    r#""second_id":null"#
);

const TWO_WORDS: &[&str] = &["--tin", "s.json", "one.wkt", r#"the "second".geojson"#];

const TWO_LAYERS: &[(&str, &str)] = &[
    ("one.wkt", "LINESTRING (10 0, 0 10)"),
    (
        r#"the "second".geojson"#,
        r#"{"type":"Point", "coordinates": [6,4]}"#,
    ),
];

#[test]
fn a_change_of_two_layers_names_both(rt: HostRuntime) -> Result<(), Fail> {
    let text = text_of(rt.alloc(), TWO, TWO_SIDES)?;
    assert!(rt; prints(rt.alloc(), TWO_WORDS, TWO_LAYERS, Status::Changed, &text));
    Ok(())
}

/// That change as lines: the point is a line of two equal positions.
const LINES_FRONT: &str = concat!(
    r#"],"features":[
{"type":"Feature","geometry":{"type":"MultiLineString","#,
    r#""coordinates":[[[110.000,100.000],[105.002,105.002]],[[106.001,104.001],[106.001,104.001]]]},"#,
    r#""properties":{"change":0,"was":"touching","now":"apart","gap_mm":1,"first_layer":""#
);

/// Whether a run of these words over a line and a point in it prints its one change as lines.
fn prints_lines(alloc: Global, words: &[&str]) -> Result<bool, AllocError> {
    let text = text_with(alloc, LAYERS[0].2, LINES_FRONT, LAYERS[0].3)?;
    let files = [("lines.wkt", LINES)];
    Ok(prints(alloc, words, &files, Status::Changed, &text))
}

#[test]
fn lines_where_they_are_wanted_wherever_the_word_stands(rt: HostRuntime) {
    let last = ["--tin", "s.json", "lines.wkt", "--lines"];
    assert_eq!(rt; prints_lines(rt.alloc(), &last), Ok(true));
    let first = ["--lines", "--tin", "s.json", "lines.wkt"];
    assert_eq!(rt; prints_lines(rt.alloc(), &first), Ok(true));
}

#[test]
fn a_change_in_one_layer_is_left_out(rt: HostRuntime) -> Result<(), Fail> {
    let one = ["--tin", "s.json", "--across", "lines.wkt"];
    let files = [("lines.wkt", LINES)];
    let none =
        "{\"type\":\"FeatureCollection\",\"crs\":null,\"layers\":[\"lines.wkt\"],\"features\":[]}\n";
    assert!(rt; prints(rt.alloc(), &one, &files, Status::Same, none));
    let two = [
        "--tin",
        "s.json",
        "one.wkt",
        "--across",
        r#"the "second".geojson"#,
    ];
    let text = text_of(rt.alloc(), TWO, TWO_SIDES)?;
    assert!(rt; prints(rt.alloc(), &two, TWO_LAYERS, Status::Changed, &text));
    Ok(())
}

/// Words, how a run of them over two points ends, and what it prints.
type PlacesRun = (&'static [&'static str], Status, &'static str);

/// Two points, and one of them is outside.
const POINTS: &[(&str, &str)] = &[("p.wkt", "POINT (6 4)"), ("q.wkt", "POINT (6 11)")];

/// The number of the first run that ends or prints otherwise, or none.
fn first_other_run(alloc: Global, rows: &[PlacesRun]) -> Option<usize> {
    for (number, &(words, status, said)) in rows.iter().enumerate() {
        if !prints(alloc, words, POINTS, status, said) {
            return Some(number);
        }
    }
    None
}

/// Where nothing changes there is no feature.
const RUNS: &[PlacesRun] = &[
    (&["--tin", "s.json", "p.wkt"], Status::Same, NO_CHANGE),
    (
        &["--tin", "s.json", "--cert", "p.wkt"],
        Status::Same,
        NO_CHANGE,
    ),
    // What is refused has the line of a migration.
    (
        &["--tin", "s.json", "none.wkt"],
        Status::Read,
        "read fault: layer 0\n",
    ),
    (
        &["--tin", "s.json", "q.wkt"],
        Status::Outside,
        "outside: layer 0 path 0 segment 0\n",
    ),
    (
        &["--tin", "s.json", "p.txt"],
        Status::Words,
        "words: suffix of layer 0\n",
    ),
    (
        &["--out", "o", "p.wkt"],
        Status::Words,
        "words: not understood\n",
    ),
    (
        &["--tin", "s.json", "--line", "p.wkt"],
        Status::Words,
        "words: not understood\n",
    ),
];

#[test]
fn runs_without_a_change_or_refused(rt: HostRuntime) {
    assert_eq!(rt; first_other_run(rt.alloc(), RUNS), None);
}

/// How a run ends where the call after a first write of 64 bytes fails, and whether it leaves these bytes alone.
fn left_by_fault(alloc: Global) -> Result<(Status, bool), AllocError> {
    let words = ["--tin", "s.json", "lines.wkt"];
    let (status, press) = ran(alloc, &words, &[("lines.wkt", LINES)], 2)?;
    let text = text_of(alloc, LAYERS[0].2, LAYERS[0].3)?;
    let is_left = press.made_bytes("-") == text.as_bytes().get(..64);
    Ok((status, is_left && press.faults() == 1))
}

#[test]
fn a_write_that_fails_leaves_a_first_part(rt: HostRuntime) {
    assert_eq!(rt; left_by_fault(rt.alloc()), Ok((Status::Write, true)));
}

/// What was said.
fn said(to: &Option<Vec<u8>>) -> &[u8] {
    match to {
        Some(bytes) => bytes,
        None => b"",
    }
}

/// Whether a run over one point says what it is doing, and leaves nothing of it.
fn says_steps(alloc: Global, lines: &[u8]) -> Result<bool, AllocError> {
    let words = words_of(alloc, &["--tin", "s.json", "p.wkt"])?;
    let work = Work::CarryLayers {
        layers: 1,
        are_written: false,
    };
    let shelf = shelf_of(alloc, &[("p.wkt", "POINT (6 4)")])?;
    let mut shelf = ToldShelf::new(shelf, Some(Vec::new(alloc)), work);
    let mut press = ToldPress::new(MemPress::new(alloc, 64), Some(Vec::new(alloc)), work);
    let end = run_to_end(alloc, &words, &mut shelf, &mut press);
    Ok(end.status == Status::Same && said(&shelf.to) == lines && said(&press.to) == CLEARED)
}

/// What clears the line.
const CLEARED: &[u8] = b"\r\x1b[K";

const STEPS: &[u8] = b"\r\x1b[Ktinmove: step 1 of 4: reading s.json\r\x1b[Ktinmove: step 2 of 4: \
     checking the triangulation\r\x1b[Ktinmove: step 3 of 4: reading p.wkt\r\x1b[Ktinmove: step 4 of 4: \
     carrying layer 0 (1 of 1), then comparing";

#[test]
fn a_run_says_what_it_is_doing(rt: HostRuntime) {
    assert_eq!(rt; says_steps(rt.alloc(), STEPS), Ok(true));
}

/// How many paths each layer has, how many numbers lost digits, and how many entities are left out.
fn counts_of(alloc: Global, rows: &[LayerRow]) -> Result<Vec<(u32, u64, u64)>, AllocError> {
    let mut counts = Vec::new(alloc);
    for row in rows {
        counts.push((row.paths, row.inexact, row.dropped))?;
    }
    Ok(counts)
}

/// These counts of a run over a layer of GeoJSON and a drawing.
fn counts_of_run(
    alloc: Global,
    layer: &str,
    drawing: &str,
) -> Result<Vec<(u32, u64, u64)>, AllocError> {
    let words = words_of(
        alloc,
        &["--tin", "s.json", "--drop-other", "a.json", "d.dxf"],
    )?;
    let mut shelf = shelf_of(alloc, &[("a.json", layer), ("d.dxf", drawing)])?;
    let mut press = MemPress::new(alloc, 64);
    let end = run_to_end(alloc, &words, &mut shelf, &mut press);
    counts_of(alloc, &end.rows)
}

#[test]
fn a_run_has_a_row_for_each_layer(rt: HostRuntime) -> Result<(), Fail> {
    let drawing = "  0\nSECTION\n  2\nENTITIES\n  0\nHATCH\n  8\n0\n  0\nENDSEC\n  0\nEOF\n";
    let layer = r#"{"type":"Point","coordinates":[6.0004,4]}"#;
    let counts = counts_of_run(rt.alloc(), layer, drawing)?;
    assert_eq!(rt; counts.as_slice(), [(1, 1, 0), (0, 0, 1)].as_slice());
    Ok(())
}
