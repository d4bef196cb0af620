//! How many points and segments paths and sheets have.

ghost use Rattle.std.specs.Prelude.{◌≡◌, ◌<◌, length, count_by};
ghost use Rattle.sheet_base.specs.Segments.{points_in, segments_in, next_in};
ghost use Rattle.sheet_pieces.specs.SheetSegments.{ends_open, sheet_segments};

use sheet_base::{PathKind, PathRow, Sheet};

/// How many points a path has.
pub fn point_count(row: PathRow) -> u32
    requires { row.first < row.past }
    ensures { result ≡ points_in row }
{
    row.past - row.first
}

/// How many segments it has.
pub fn segment_count(row: PathRow) -> u32
    requires { row.first < row.past }
    ensures { result ≡ segments_in row }
{
    match row.kind {
        PathKind::Dot => 1,
        PathKind::Line => (point_count(row) - 1).max(1),
        PathKind::Loop => point_count(row),
    }
}

/// The number of the point to which the segment goes that begins at this one.
pub fn next_point(row: PathRow, point: u32) -> u32
    requires { point < row.past }
    ensures { result ≡ next_in row point }
{
    if point + 1 < row.past {
        point + 1
    } else {
        row.first
    }
}

/// Whether the path's last point begins no segment, as that of a line of two points or more.
fn is_open(row: PathRow) -> bool
    ensures { result ≡ ends_open row }
{
    match row.kind {
        PathKind::Line => row.past.saturating_sub(row.first) > 1,
        PathKind::Dot | PathKind::Loop => false,
    }
}

fn open_count(rows: &[PathRow]) -> usize
    ensures { result ≡ count_by ends_open rows.now }
{
    rows.iter().filter(|row| is_open(**row)).count()
}

/// How many segments a sheet has: one for each of its points, except those at the ends of lines.
pub fn segment_total(sheet: &Sheet) -> u32
    ensures { result ≡ length (sheet_segments sheet.now) }
{
    (sheet.points().len() - open_count(sheet.paths())) as u32
}
