//! What is read of a layer, as the tests of each format compare it.

use plane_base::Pt;
use sheet_base::{Edit, How, LayerFault, PathKind, PathRow, Sheet, What};

/// Lost digits are rounded, and other entities are refused.
pub const PLAIN: How = How {
    exact: false,
    drop_other: false,
    inside_only: false,
};

/// No layer and no triangulation here is longer.
pub const LONGEST: usize = 1 << 16;

/// As `PLAIN`; where `exact` is true, lost digits are refused.
pub fn how(exact: bool) -> How {
    How { exact, ..PLAIN }
}

/// The point of these coordinates, in millimetres.
pub fn pt(x: i64, y: i64) -> Pt {
    Pt { x, y }
}

/// What is wanted of a sheet. Its paths are given by kind, first point and the one past the last, its points in
/// millimetres, and its edits by the bytes from a place to before another. Then come counts of the numbers that lost
/// digits and of the entities that are left out.
pub type WantedSheet = (
    &'static [(PathKind, u32, u32)],
    &'static [(i64, i64)],
    &'static [(u32, u32, What)],
    (u64, u64),
);

/// Whether these are the paths.
fn are_paths(paths: &[PathRow], wanted: &[(PathKind, u32, u32)]) -> bool {
    for (path, &(kind, first, past)) in paths.iter().zip(wanted) {
        if *path != (PathRow { kind, first, past }) {
            return false;
        }
    }
    paths.len() == wanted.len()
}

/// Whether these are the points.
fn are_points(points: &[Pt], wanted: &[(i64, i64)]) -> bool {
    for (point, &(x, y)) in points.iter().zip(wanted) {
        if *point != (Pt { x, y }) {
            return false;
        }
    }
    points.len() == wanted.len()
}

/// Whether these are the edits.
fn are_edits(edits: &[Edit], wanted: &[(u32, u32, What)]) -> bool {
    for (edit, &(start, end, what)) in edits.iter().zip(wanted) {
        if *edit != (Edit { start, end, what }) {
            return false;
        }
    }
    edits.len() == wanted.len()
}

/// Whether a sheet was read, and is the wanted one.
pub fn is_sheet(read: Result<Sheet, LayerFault>, wanted: &WantedSheet) -> bool {
    match read {
        Ok(sheet) => {
            are_paths(sheet.paths(), wanted.0)
                && are_points(sheet.points(), wanted.1)
                && are_edits(sheet.edits(), wanted.2)
                && (sheet.inexact(), sheet.dropped()) == wanted.3
        }
        Err(_) => false,
    }
}
