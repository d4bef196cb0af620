//! Words of the program that puts changes on the map, and what it hands out. The expected texts are worked out by hand.

use crate::memory_runs::{NEVER, add_file, words_of};
use place_runs::run_to_end;
use runs::{Refusal, Status};
use shelf_io::{MemPress, MemShelf};
use std::alloc::{AllocError, Global};
use tin_texts::SQUARE;

/// Files by their names and texts.
type Files = &'static [(&'static str, &'static str)];

/// How a run ends that prints by writes of at most 64 bytes, and the call of this number fails; the refusal that it hands
/// out, how many rows, and the press.
type Ran = (Status, Option<Refusal>, usize, MemPress);

/// A run of these words over the square and these files.
fn ran(alloc: Global, texts: &[&str], files: Files, fail: u64) -> Result<Ran, AllocError> {
    let words = words_of(alloc, texts)?;
    let mut shelf = MemShelf::new(alloc, 64);
    shelf.add("s.json", SQUARE.as_bytes())?;
    for (name, text) in files {
        add_file(&mut shelf, name, text.as_bytes())?;
    }
    let mut press = MemPress::new(alloc, 64);
    press.fail_at(fail)?;
    let end = run_to_end(alloc, &words, &mut shelf, &mut press);
    Ok((end.status, end.refusal, end.rows.len(), press))
}

/// Words, how a run of them ends, and what it prints.
type Row = (&'static [&'static str], Status, &'static str);

/// A line across the diagonal and a point of it, in two files of one last part.
const ONE_PART: Files = &[
    ("a/x.wkt", "LINESTRING (10 0, 0 10)"),
    ("b/x.wkt", "POINT (6 4)"),
    ("c.json", FEATURE),
];

/// The line as a feature with an id and properties.
const FEATURE: &str = concat!(
    r#"{"type":"Feature","id":"a-7","geometry":{"type":"LineString","coordinates":[[10,0],[0,10]]},"#,
    r#""properties":{"egrid":"CH\u0020\"1\"","area":1.50}}"#
);

/// Whether a run of these words prints this.
fn is_printed(alloc: Global, row: &Row) -> Result<bool, AllocError> {
    let (status, _, _, press) = ran(alloc, row.0, ONE_PART, NEVER)?;
    Ok(status == row.1 && press.made_bytes("-") == Some(row.2.as_bytes()))
}

/// The number of the first row that goes otherwise, or none.
fn first_other(alloc: Global, rows: &[Row]) -> Option<usize> {
    for (number, row) in rows.iter().enumerate() {
        if is_printed(alloc, row) != Ok(true) {
            return Some(number);
        }
    }
    None
}

const ROWS: &[Row] = &[
    (
        &["--tin", "s.json", "a/x.wkt", "b/x.wkt"],
        Status::Changed,
        concat!(
            r#"{"type":"FeatureCollection","crs":null,"layers":["a/x.wkt","b/x.wkt"],"features":["#,
            "\n",
            r#"{"type":"Feature","geometry":{"type":"Point","coordinates":[106.001,104.001]},"#,
            r#""properties":{"change":0,"was":"touching","now":"apart","gap_mm":1,"first_layer":"a/x.wkt","#,
            r#""first":"0/0/0/0","first_at":12,"first_feature":1,"first_id":null,"#,
            r#""second_layer":"b/x.wkt","second":"1/0/0/0","second_at":7,"second_feature":1,"second_id":null}}]}"#,
            "\n"
        ),
    ),
    // A member of properties is copied as it is written; where there is none it is null.
    (
        &["--tin", "s.json", "--name", "egrid", "c.json", "b/x.wkt"],
        Status::Changed,
        concat!(
            r#"{"type":"FeatureCollection","crs":null,"layers":["c.json","b/x.wkt"],"features":["#,
            "\n",
            r#"{"type":"Feature","geometry":{"type":"Point","coordinates":[106.001,104.001]},"#,
            r#""properties":{"change":0,"was":"touching","now":"apart","gap_mm":1,"first_layer":"c.json","#,
            r#""first":"0/0/0/0","first_at":76,"first_feature":0,"first_id":"a-7","first_name":"CH\u0020\"1\"","#,
            r#""second_layer":"b/x.wkt","second":"1/0/0/0","second_at":7,"second_feature":1,"second_id":null,"#,
            r#""second_name":null}}]}"#,
            "\n"
        ),
    ),
    (
        &["--tin", "s.json", "--name=area", "b/x.wkt", "c.json"],
        Status::Changed,
        concat!(
            r#"{"type":"FeatureCollection","crs":null,"layers":["b/x.wkt","c.json"],"features":["#,
            "\n",
            r#"{"type":"Feature","geometry":{"type":"Point","coordinates":[106.001,104.001]},"#,
            r#""properties":{"change":0,"was":"touching","now":"apart","gap_mm":1,"first_layer":"b/x.wkt","#,
            r#""first":"0/0/0/0","first_at":7,"first_feature":1,"first_id":null,"first_name":null,"#,
            r#""second_layer":"c.json","second":"1/0/0/0","second_at":76,"second_feature":0,"second_id":"a-7","#,
            r#""second_name":1.50}}]}"#,
            "\n"
        ),
    ),
    (
        &["--tin", "s.json", "--name", "a", "b/x.wkt", "--name", "b"],
        Status::Words,
        "words: not understood\n",
    ),
    (
        &["--tin", "s.json", "b/x.wkt", "--name"],
        Status::Words,
        "words: not understood\n",
    ),
    // A layer may be named twice: its point touches itself in both frames.
    (
        &["--tin", "s.json", "b/x.wkt", "b/x.wkt"],
        Status::Same,
        "{\"type\":\"FeatureCollection\",\"crs\":null,\"layers\":[\"b/x.wkt\",\"b/x.wkt\"],\"features\":[]}\n",
    ),
    (
        &["--tin", "s.json", "--lines", "a/x.wkt", "--lines"],
        Status::Words,
        "words: not understood\n",
    ),
    (
        &["--tin", "s.json", "--across=yes", "a/x.wkt"],
        Status::Words,
        "words: not understood\n",
    ),
    (
        &["--tin", "s.json", "a/x.wkt", "--tin"],
        Status::Words,
        "words: not understood\n",
    ),
    (
        &["--tin", "--lines", "a/x.wkt"],
        Status::Words,
        "words: not understood\n",
    ),
];

#[test]
fn words_are_read_as_those_of_a_migration(rt: HostRuntime) {
    assert_eq!(rt; first_other(rt.alloc(), ROWS), None);
}

/// Whether a run of these words hands out the refusal of this line, or none where the line is empty, and this many rows.
/// The call of this number fails that writes.
fn hands_out(
    alloc: Global,
    texts: &[&str],
    fail: u64,
    line: &str,
    rows: usize,
) -> Result<bool, AllocError> {
    let (status, refusal, count, _) = ran(alloc, texts, ONE_PART, fail)?;
    let is_said = match refusal {
        Some(refusal) => refusal.line().as_bytes() == line.as_bytes(),
        None => line.is_empty(),
    };
    Ok(status == Status::Write && is_said && count == rows)
}

#[test]
fn the_refusal_is_handed_out_also_after_a_write_fault(rt: HostRuntime) {
    let alloc = rt.alloc();
    let parse = "words: not understood\n";
    assert_eq!(rt;
        hands_out(alloc, &["--tin", "s.json"], 1, parse, 0),
        Ok(true)
    );
    let missing = ["--tin", "s.json", "b/x.wkt", "c.wkt"];
    assert_eq!(rt;
        hands_out(alloc, &missing, 2, "read fault: layer 1\n", 0),
        Ok(true)
    );
    let both = ["--tin", "s.json", "a/x.wkt", "b/x.wkt"];
    assert_eq!(rt; hands_out(alloc, &both, 2, "", 2), Ok(true));
}
