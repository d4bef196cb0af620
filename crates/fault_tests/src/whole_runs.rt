//! Runs over files in memory. The expected texts are worked out by hand.

use fault_runs::{FaultRunEnd, run_to_end};
use runs::Status;
use shelf_io::{MemPress, MemShelf, Shelf};
use std::alloc::{AllocError, Global};
use std::test::Fail;

/// Five triangles round the row 5, which is two metres below the side of the rows 0 and 1 in the target.
const WRONG: &str = concat!(
    r#"{"file_type":"triangulation_file","format_version":"1.1","transformed_components":["horizontal"],"#,
    r#""vertices_columns":["source_x","source_y","target_x","target_y"],"#,
    r#""triangles_columns":["idx_vertex1","idx_vertex2","idx_vertex3"],"#,
    r#""vertices":[[0,0,0,0],[10,0,10,0],[12,6,12,6],[5,10,5,10],[-2,6,-2,6],[5,4,5,-2]],"#,
    r#""triangles":[[5,0,1],[5,1,2],[5,2,3],[5,3,4],[5,4,0]]}"#
);

/// The five triangles with the row 5 where it belongs.
const RIGHT: &str = concat!(
    r#"{"file_type":"triangulation_file","format_version":"1.1","transformed_components":["horizontal"],"#,
    r#""vertices_columns":["source_x","source_y","target_x","target_y"],"#,
    r#""triangles_columns":["idx_vertex1","idx_vertex2","idx_vertex3"],"#,
    r#""vertices":[[0,0,0,0],[10,0,10,0],[12,6,12,6],[5,10,5,10],[-2,6,-2,6],[5,4,5,4]],"#,
    r#""triangles":[[5,0,1],[5,1,2],[5,2,3],[5,3,4],[5,4,0]]}"#
);

/// One triangle that is flat in the target: its third corner is between the others there.
const FLAT: &str = concat!(
    r#"{"file_type":"triangulation_file","format_version":"1.1","transformed_components":["horizontal"],"#,
    r#""vertices_columns":["source_x","source_y","target_x","target_y"],"#,
    r#""triangles_columns":["idx_vertex1","idx_vertex2","idx_vertex3"],"#,
    r#""vertices":[[0,0,0,0],[4,0,4,0],[0,3,2,0]],"triangles":[[0,1,2]]}"#
);

/// Two triangles, far from each other: one is flat in the source, and the other turns over in the target.
const BOTH: &str = concat!(
    r#"{"file_type":"triangulation_file","format_version":"1.1","transformed_components":["horizontal"],"#,
    r#""vertices_columns":["source_x","source_y","target_x","target_y"],"#,
    r#""triangles_columns":["idx_vertex1","idx_vertex2","idx_vertex3"],"#,
    r#""vertices":[[0,0,0,0],[4,0,4,0],[2,0,0,3],[14,0,14,0],[10,3,10,-3],[10,0,10,0]],"#,
    r#""triangles":[[0,1,2],[5,3,4]]}"#
);

/// The text of a triangulation without a fault.
const NONE: &str = "{\"type\":\"FeatureCollection\",\"crs\":null,\"features\":[]}\n";

/// The five faults. The triangle of the rows 5, 0 and 1 turns over, and lies over each of the other four.
const FIVE: &str = concat!(
    r#"{"type":"FeatureCollection","crs":null,"features":[
{"type":"Feature","geometry":{"type":"Point","coordinates":[0.000,0.000]},"#,
    r#""properties":{"fault":0,"kind":"turns over","frame":"target","first_triangle":0,"first_corners":[5,0,1],"#,
    r#""first_places":[[5.000,-2.000],[0.000,0.000],[10.000,0.000]],"#,
    r#""second_triangle":null,"second_corners":null,"second_places":null}},
{"type":"Feature","geometry":{"type":"Point","coordinates":[0.000,0.000]},"#,
    r#""properties":{"fault":1,"kind":"overlap","frame":"target","first_triangle":0,"first_corners":[5,0,1],"#,
    r#""first_places":[[5.000,-2.000],[0.000,0.000],[10.000,0.000]],"#,
    r#""second_triangle":1,"second_corners":[5,1,2],"#,
    r#""second_places":[[5.000,-2.000],[10.000,0.000],[12.000,6.000]]}},
{"type":"Feature","geometry":{"type":"Point","coordinates":[0.000,0.000]},"#,
    r#""properties":{"fault":2,"kind":"overlap","frame":"target","first_triangle":0,"first_corners":[5,0,1],"#,
    r#""first_places":[[5.000,-2.000],[0.000,0.000],[10.000,0.000]],"#,
    r#""second_triangle":2,"second_corners":[5,2,3],"#,
    r#""second_places":[[5.000,-2.000],[12.000,6.000],[5.000,10.000]]}},
{"type":"Feature","geometry":{"type":"Point","coordinates":[0.000,0.000]},"#,
    r#""properties":{"fault":3,"kind":"overlap","frame":"target","first_triangle":0,"first_corners":[5,0,1],"#,
    r#""first_places":[[5.000,-2.000],[0.000,0.000],[10.000,0.000]],"#,
    r#""second_triangle":3,"second_corners":[5,3,4],"#,
    r#""second_places":[[5.000,-2.000],[5.000,10.000],[-2.000,6.000]]}},
{"type":"Feature","geometry":{"type":"Point","coordinates":[0.000,0.000]},"#,
    r#""properties":{"fault":4,"kind":"overlap","frame":"target","first_triangle":0,"first_corners":[5,0,1],"#,
    r#""first_places":[[5.000,-2.000],[0.000,0.000],[10.000,0.000]],"#,
    r#""second_triangle":4,"second_corners":[5,4,0],"#,
    r#""second_places":[[5.000,-2.000],[-2.000,6.000],[0.000,0.000]]}}]}
"#
);

/// The flat triangle, as its outline.
const OUTLINE: &str = concat!(
    r#"{"type":"FeatureCollection","crs":null,"features":[
{"type":"Feature","geometry":{"type":"MultiLineString","#,
    r#""coordinates":[[[0.000,0.000],[4.000,0.000],[2.000,0.000],[0.000,0.000]]]},"#,
    r#""properties":{"fault":0,"kind":"flat","frame":"target","first_triangle":0,"first_corners":[0,1,2],"#,
    r#""first_places":[[0.000,0.000],[4.000,0.000],[2.000,0.000]],"#,
    r#""second_triangle":null,"second_corners":null,"second_places":null}}]}
"#
);

/// A fault in each frame. The point of the second one is at the row 3.
const TWO: &str = concat!(
    r#"{"type":"FeatureCollection","crs":null,"features":[
{"type":"Feature","geometry":{"type":"Point","coordinates":[0.000,0.000]},"#,
    r#""properties":{"fault":0,"kind":"flat","frame":"source","first_triangle":0,"first_corners":[0,1,2],"#,
    r#""first_places":[[0.000,0.000],[4.000,0.000],[2.000,0.000]],"#,
    r#""second_triangle":null,"second_corners":null,"second_places":null}},
{"type":"Feature","geometry":{"type":"Point","coordinates":[14.000,0.000]},"#,
    r#""properties":{"fault":1,"kind":"turns over","frame":"target","first_triangle":1,"first_corners":[5,3,4],"#,
    r#""first_places":[[10.000,0.000],[14.000,0.000],[10.000,-3.000]],"#,
    r#""second_triangle":null,"second_corners":null,"second_places":null}}]}
"#
);

/// Adds a file, unless there is one of its name.
fn add_file(shelf: &mut MemShelf, name: &str, bytes: &[u8]) -> Result<(), AllocError> {
    match shelf.begin(name) {
        Ok(false) => shelf.add(name, bytes),
        Ok(true) | Err(_) => Ok(()),
    }
}

/// How a run of these words over these files ends where the call of this number of the press fails, and what it makes.
fn ran(
    alloc: Global,
    texts: &[&str],
    files: &[(&str, &str)],
    fail: u64,
) -> Result<(FaultRunEnd, MemPress), AllocError> {
    let mut words = Vec::with_capacity(alloc, texts.len())?;
    for text in texts {
        words.push(String::from_str(alloc, text)?)?;
    }
    let mut shelf = MemShelf::new(alloc, 64);
    for (name, text) in files {
        add_file(&mut shelf, name, text.as_bytes())?;
    }
    let mut press = MemPress::new(alloc, 64);
    press.fail_at(fail)?;
    let end = run_to_end(alloc, &words, &mut shelf, &mut press);
    Ok((end, press))
}

/// The number of a call that is never reached.
const NEVER: u64 = u64::MAX;

/// Whether a run of these words over these files ends so, and prints this text.
fn prints(
    alloc: Global,
    texts: &[&str],
    files: &[(&str, &str)],
    wanted: Status,
    said: &str,
) -> bool {
    match ran(alloc, texts, files, NEVER) {
        Ok((end, press)) => {
            let made = press.made_bytes("-");
            end.status == wanted && made == Some(said.as_bytes())
        }
        Err(_) => false,
    }
}

/// How the list of all faults of this text ends where the call of this number of the press fails, and how many triangles
/// the triangulation has that is handed out.
fn handed_of(alloc: Global, text: &str, fail: u64) -> Result<(Status, Option<u32>), AllocError> {
    let words = ["--tin", "t.json", "--faults"];
    let (end, _) = ran(alloc, &words, &[("t.json", text)], fail)?;
    let count = end.sound.map(|tin| tin.triangle_count());
    Ok((end.status, count))
}

#[test]
fn a_wrong_corner_is_in_each_fault(rt: HostRuntime) {
    let words = ["--tin", "w.json", "--faults"];
    let files = [("w.json", WRONG)];
    assert!(rt; prints(rt.alloc(), &words, &files, Status::Changed, FIVE));
}

#[test]
fn a_sound_triangulation_has_none(rt: HostRuntime) {
    let words = ["--faults", "--lines", "--tin", "r.json"];
    let files = [("r.json", RIGHT)];
    assert!(rt; prints(rt.alloc(), &words, &files, Status::Same, NONE));
}

#[test]
fn a_flat_triangle_has_its_outline(rt: HostRuntime) {
    let words = ["--tin", "f.json", "--exact", "--faults", "--lines"];
    let files = [("f.json", FLAT)];
    assert!(rt; prints(rt.alloc(), &words, &files, Status::Changed, OUTLINE));
}

#[test]
fn each_fault_is_drawn_in_its_frame(rt: HostRuntime) {
    let words = ["--faults", "--tin", "b.json"];
    let files = [("b.json", BOTH)];
    assert!(rt; prints(rt.alloc(), &words, &files, Status::Changed, TWO));
}

#[test]
fn a_layer_beside_it_is_not_understood(rt: HostRuntime) {
    let words = ["--tin", "w.json", "--faults", "p.wkt"];
    let files = [("w.json", WRONG)];
    let line = "words: not understood\n";
    assert!(rt; prints(rt.alloc(), &words, &files, Status::Words, line));
}

#[test]
fn a_missing_file_is_refused(rt: HostRuntime) {
    let words = ["--tin", "x.json", "--faults"];
    let files = [("w.json", WRONG)];
    let line = "read fault: triangulation\n";
    assert!(rt; prints(rt.alloc(), &words, &files, Status::Read, line));
}

#[test]
fn a_text_that_is_no_triangulation_is_refused(rt: HostRuntime) {
    let words = ["--tin", "w.json", "--faults"];
    let files = [("w.json", "{}")];
    let line = "triangulation: key file_type\n";
    assert!(rt; prints(rt.alloc(), &words, &files, Status::Tin, line));
}

#[test]
fn a_sound_triangulation_is_handed_out(rt: HostRuntime) -> Result<(), Fail> {
    let (status, count) = handed_of(rt.alloc(), RIGHT, NEVER)?;
    assert!(rt; status == Status::Same && count == Some(5));
    let (status, count) = handed_of(rt.alloc(), RIGHT, 1)?;
    assert!(rt; status == Status::Write && count == Some(5));
    Ok(())
}

#[test]
fn one_with_a_fault_is_not_handed_out(rt: HostRuntime) -> Result<(), Fail> {
    let (status, count) = handed_of(rt.alloc(), WRONG, NEVER)?;
    assert!(rt; status == Status::Changed && count.is_none());
    let (status, count) = handed_of(rt.alloc(), FLAT, 1)?;
    assert!(rt; status == Status::Write && count.is_none());
    let (status, count) = handed_of(rt.alloc(), "{}", NEVER)?;
    assert!(rt; status == Status::Tin && count.is_none());
    Ok(())
}
