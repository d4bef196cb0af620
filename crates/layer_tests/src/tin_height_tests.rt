//! Tests of lists of points with heights: read, raised through a triangulation with offsets, and written.

ghost use Rattle.std.specs.Prelude.{IfOk};
ghost use Rattle.tin_height.specs.Offsets.{AreOffsets};

use sheet_base::{How, LayerFault, Listed};
use std::alloc::Global;
use tin_check::check_tin;
use tin_file::{MOST_BYTES, Tall, TinFault, read_tall};
use tin_height::{RaiseFault, raise, read_points, render_points};
use tin_index::TinIndex;
use tin_texts::{MOVED, STILL, TRIANGLE, TWOFOLD};

const PLAIN: How = How {
    exact: false,
    drop_other: false,
    inside_only: false,
};

/// A file that moves heights alone, with the offsets 0, 1 mm and 0.
const LOW: &str = concat!(
    r#"{"file_type":"triangulation_file","format_version":"1.1","transformed_components":["vertical"],"#,
    r#""vertices_columns":["source_x","source_y","offset_z"],"#,
    r#""triangles_columns":["idx_vertex1","idx_vertex2","idx_vertex3"],"#,
    r#""vertices":[[0,0,0],[10,0,0.001],[0,10,0]],"triangles":[[0,1,2]]}"#
);

/// The same offsets as those of the first, as the difference of two heights.
const HEIGHTS: &str = concat!(
    r#"{"file_type":"triangulation_file","format_version":"1.1","transformed_components":["vertical"],"#,
    r#""vertices_columns":["source_x","source_y","source_z","target_z"],"#,
    r#""triangles_columns":["idx_vertex1","idx_vertex2","idx_vertex3"],"#,
    r#""vertices":[[0,0,4,5],[10,0,-1,1],[0,10,0.5,-0.5]],"triangles":[[0,1,2]]}"#
);

/// Why a list of points is not moved. The last is want of memory, and what no row has.
#[derive(Clone, Copy, Debug, PartialEq, Eq)]
enum PointsStop {
    Tin(TinFault),
    Points(LayerFault),
    Outside(u32),
    Other,
}

/// A triangulation, and the offsets of its corners.
#[derive(Drop)]
struct TallGround {
    index: TinIndex,
    offsets: Listed<i64>,
}

/// The triangulation of a text.
fn ground_of(alloc: Global, text: &str) -> Result<TallGround, PointsStop>
    ensures { IfOk result (λ ground. AreOffsets ground.index ground.offsets) }
{
    let bytes = text.as_bytes();
    if bytes.len() > MOST_BYTES {
        return Err(PointsStop::Other);
    }
    let Tall { tin, offsets } = match read_tall(alloc, bytes, PLAIN) {
        Ok(tall) => tall,
        Err(fault) => return Err(PointsStop::Tin(fault)),
    };
    let Ok(sound) = check_tin(alloc, tin) else {
        return Err(PointsStop::Other);
    };
    match TinIndex::build(alloc, sound) {
        Ok(index) => Ok(TallGround { index, offsets }),
        Err(_) => Err(PointsStop::Other),
    }
}

/// The text of a list of points, moved.
fn moved_text(alloc: Global, tin: &str, list: &str) -> Result<Vec<u8>, PointsStop> {
    let ground = ground_of(alloc, tin)?;
    let bytes = list.as_bytes();
    if bytes.len() > MOST_BYTES {
        return Err(PointsStop::Other);
    }
    let points = match read_points(alloc, bytes, PLAIN) {
        Ok(points) => points,
        Err(fault) => return Err(PointsStop::Points(fault)),
    };
    let raised = match raise(alloc, &ground.index, ground.offsets.items(), &points) {
        Ok(raised) => raised,
        Err(RaiseFault::Outside { point }) => return Err(PointsStop::Outside(point)),
        Err(RaiseFault::NoMemory) => return Err(PointsStop::Other),
    };
    match render_points(alloc, bytes, &points, &raised) {
        Ok(text) => Ok(text),
        Err(_) => Err(PointsStop::Other),
    }
}

/// A triangulation, a list of points, and its text where it is moved, or why it is not.
type Row = (&'static str, &'static str, Result<&'static str, PointsStop>);

/// Whether the list is moved so, or not for this cause.
fn is_moved(alloc: Global, row: &Row) -> bool {
    match (moved_text(alloc, row.0, row.1), row.2) {
        (Ok(text), Ok(wanted)) => text.as_slice() == wanted.as_bytes(),
        (Err(stop), Err(wanted)) => stop == wanted,
        _ => false,
    }
}

/// The first list that is moved otherwise, or none.
fn first_other(alloc: Global, rows: &[Row]) -> Option<&'static str> {
    for row in rows {
        if !is_moved(alloc, row) {
            return Some(row.1);
        }
    }
    None
}

/// Worked by hand: (5, 0) has the offset 1.5 m, and (2.5, 2.5) that of 1/2, 1/4 and 1/4, 0.75 m.
const RAISED: &[Row] = &[
    (STILL, "5 0 10", Ok("5.000 0.000 11.500")),
    (STILL, "2.5 2.5 0", Ok("2.500 2.500 0.750")),
    (HEIGHTS, "2.5 2.5 0", Ok("2.500 2.500 0.750")),
    (LOW, "5 0 0", Ok("5.000 0.000 0.001")),
    (MOVED, "5 0 10", Ok("105.001 100.000 11.500")),
    (MOVED, "", Ok("")),
    (
        MOVED,
        " 5\t0 10 \n\n \r\n0 10 1e0\r\n",
        Ok(" 105.001 100.000 11.500 \n\n \r\n100.000 110.000 0.000\r\n"),
    ),
];

#[test]
fn raises_points(rt: HostRuntime) {
    assert_eq!(rt; first_other(rt.alloc(), RAISED), None);
}

/// Places are counted by hand.
const REFUSED: &[Row] = &[
    (
        TWOFOLD,
        "5 0 10",
        Err(PointsStop::Tin(TinFault::Offset { row: 3 })),
    ),
    (
        TRIANGLE,
        "5 0 10",
        Err(PointsStop::Tin(TinFault::NoVertical)),
    ),
    (
        STILL,
        "5 0",
        Err(PointsStop::Points(LayerFault::Bad { at: 3 })),
    ),
    (
        STILL,
        "5 0 10 1",
        Err(PointsStop::Points(LayerFault::Bad { at: 7 })),
    ),
    (
        STILL,
        "5 0 10\n1 nan 2",
        Err(PointsStop::Points(LayerFault::Bad { at: 9 })),
    ),
    (STILL, "9 9 0", Err(PointsStop::Outside(0))),
    (STILL, "5 0 10\n\n9 9 0\n8 8 0", Err(PointsStop::Outside(1))),
];

#[test]
fn refuses_points(rt: HostRuntime) {
    assert_eq!(rt; first_other(rt.alloc(), REFUSED), None);
}
