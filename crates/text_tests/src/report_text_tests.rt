//! Reports that are written, and read back.

use report_text::{LayerRow, Report, read_report, write_report};
use sheet_base::Listed;
use shelf_io::Name;
use std::alloc::{AllocError, Global};
use std::test::Fail;
use tin_base::{Change, Place, Rel};

pub(crate) const SQUARE: &[u8] = b"tinmove report 1
triangulation corners 4 triangles 2 inexact 0 name s.json
layer 0 paths 2 segments 2 pieces 3 inexact 0 dropped 0 name nine.wkt
changes 1
change 0/0/0/0 0/1/0/0 touching apart
end
";

const DRAWINGS: &[u8] = b"tinmove report 1
triangulation corners 3 triangles 1 inexact 18446744073709551615 name 
layer 0 paths 4294967295 segments 10 pieces 200 inexact 1 dropped 7 name a.dxf
extents 0 as they were
layer 1 paths 0 segments 0 pieces 0 inexact 0 dropped 0 name Z\xC3\xBCrich b.dxf
extents 1 as they were
changes 2
change 0/1/2/3 4294967295/5/6/7 apart crossing
change 0/0/0/0 1/0/0/0 crossing overlapping
end
";

const NOTHING: &[u8] = b"tinmove report 1
triangulation corners 0 triangles 0 inexact 0 name 
changes 0
end
";

fn place(layer: u32, path: u32, segment: u32, piece: u32) -> Place {
    Place {
        layer,
        path,
        segment,
        piece,
    }
}

fn square_report(alloc: Global) -> Result<Report, AllocError> {
    let name = Name::of(alloc, "s.json")?;
    let layer = LayerRow {
        paths: 2,
        segments: 2,
        pieces: 3,
        inexact: 0,
        dropped: 0,
        drawing: false,
        name: Name::of(alloc, "nine.wkt")?,
    };
    let change = Change {
        first: place(0, 0, 0, 0),
        second: place(0, 1, 0, 0),
        was: Rel::Touching,
        now: Rel::Apart,
    };
    let layers = Listed::of(vec![in alloc; layer]?);
    let changes = Listed::of(vec![in alloc; change]?);
    Ok(Report::of(4, 2, 0, name, layers, changes, None))
}

fn drawings_report(alloc: Global) -> Result<Report, AllocError> {
    let first = LayerRow {
        paths: 4_294_967_295,
        segments: 10,
        pieces: 200,
        inexact: 1,
        dropped: 7,
        drawing: true,
        name: Name::of(alloc, "a.dxf")?,
    };
    let second = LayerRow {
        paths: 0,
        segments: 0,
        pieces: 0,
        inexact: 0,
        dropped: 0,
        drawing: true,
        name: Name::of(alloc, "Zürich b.dxf")?,
    };
    let crosses = Change {
        first: place(0, 1, 2, 3),
        second: place(4_294_967_295, 5, 6, 7),
        was: Rel::Apart,
        now: Rel::Crossing,
    };
    let overlaps = Change {
        first: place(0, 0, 0, 0),
        second: place(1, 0, 0, 0),
        was: Rel::Crossing,
        now: Rel::Overlapping,
    };
    let layers = Listed::of(vec![in alloc; first, second]?);
    let changes = Listed::of(vec![in alloc; crosses, overlaps]?);
    let name = Name::of(alloc, "")?;
    Ok(Report::of(
        3,
        1,
        18_446_744_073_709_551_615,
        name,
        layers,
        changes,
        None,
    ))
}

#[test]
fn writes_the_square(rt: HostRuntime) -> Result<(), Fail> {
    let report = square_report(rt.alloc())?;
    let text = write_report(rt.alloc(), &report)?;
    assert_eq!(rt; text.as_slice(), SQUARE);
    Ok(())
}

#[test]
fn writes_drawings(rt: HostRuntime) -> Result<(), Fail> {
    let report = drawings_report(rt.alloc())?;
    let text = write_report(rt.alloc(), &report)?;
    assert_eq!(rt; text.as_slice(), DRAWINGS);
    Ok(())
}

/// Whether the text is read, and written again as it is.
fn is_kept(alloc: Global, text: &[u8]) -> bool {
    let Ok(report) = read_report(alloc, text) else {
        return false;
    };
    match write_report(alloc, &report) {
        Ok(again) => again.as_slice() == text,
        Err(_) => false,
    }
}

/// The number of the first text that is not written again as it is, or none.
fn first_changed(alloc: Global, texts: &[&[u8]]) -> Option<usize> {
    for (number, text) in texts.iter().enumerate() {
        if !is_kept(alloc, text) {
            return Some(number);
        }
    }
    None
}

/// A point on the border of a ring is outside of it after rounding, and a ring turns flat.
const SIDES: &[u8] = b"tinmove report 2
triangulation corners 4 triangles 2 inexact 0 name s.json
layer 0 paths 2 segments 4 pieces 5 inexact 0 dropped 0 name r.wkt
changes 1
change 0/0/2/1 0/1/0/0 touching apart
sides 2
side 0/0 0/1/0 border outside
turn 0/4294967295 positive zero
end
";

/// Sides were asked for, and none changed.
const NO_SIDES: &[u8] = b"tinmove report 2
triangulation corners 0 triangles 0 inexact 0 name 
changes 0
sides 0
end
";

const TEXTS: &[&[u8]] = &[SQUARE, DRAWINGS, NOTHING, SIDES, NO_SIDES];

#[test]
fn reads_what_is_written(rt: HostRuntime) {
    assert_eq!(rt; first_changed(rt.alloc(), TEXTS), None);
}

#[test]
fn reads_the_counts_of_the_square(rt: HostRuntime) -> Result<(), Fail> {
    let report = read_report(rt.alloc(), SQUARE)?;
    let counts = (report.corners(), report.triangles(), report.inexact());
    assert_eq!(rt; counts, (4, 2, 0));
    Ok(())
}

#[test]
fn reads_the_name_of_the_square(rt: HostRuntime) -> Result<(), Fail> {
    let report = read_report(rt.alloc(), SQUARE)?;
    assert_eq!(rt; report.name().text(), "s.json");
    Ok(())
}

/// Whether it is the one row of the layer.
fn is_layer(row: &LayerRow) -> bool {
    (row.paths, row.segments, row.pieces) == (2, 2, 3)
        && (row.inexact, row.dropped, row.drawing) == (0, 0, false)
        && row.name.text() == "nine.wkt"
}

#[test]
fn reads_the_layer_of_the_square(rt: HostRuntime) -> Result<(), Fail> {
    let report = read_report(rt.alloc(), SQUARE)?;
    let rows = report.layers();
    assert!(rt; rows.len() == 1 && rows.iter().all(is_layer));
    Ok(())
}

const FIRST: Place = Place {
    layer: 0,
    path: 0,
    segment: 0,
    piece: 0,
};

const SECOND: Place = Place {
    layer: 0,
    path: 1,
    segment: 0,
    piece: 0,
};

const CHANGES: &[Change] = &[Change {
    first: FIRST,
    second: SECOND,
    was: Rel::Touching,
    now: Rel::Apart,
}];

#[test]
fn reads_the_changes_of_the_square(rt: HostRuntime) -> Result<(), Fail> {
    let report = read_report(rt.alloc(), SQUARE)?;
    assert_eq!(rt; report.changes(), CHANGES);
    Ok(())
}

#[test]
fn reads_the_sides(rt: HostRuntime) -> Result<(), Fail> {
    let report = read_report(rt.alloc(), SIDES)?;
    let count = match report.sides() {
        Some(sides) => sides.len(),
        None => 0,
    };
    assert_eq!(rt; count, 2);
    Ok(())
}

#[test]
fn the_first_form_has_no_sides(rt: HostRuntime) -> Result<(), Fail> {
    let report = read_report(rt.alloc(), SQUARE)?;
    assert!(rt; report.sides().is_none());
    Ok(())
}
