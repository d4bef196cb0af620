//! The lines of all cells, carried as a layer.

ghost use Rattle.std.specs.Prelude.{◌≤◌, ◌^◌, length};

use crate::largest_maps::{CELLS, lines_of_cells, scattered_lines_of_cells};
use carry_map::{Carried, MOST_PIECES, carry_layer};
use migrate_mode::make_tin;
use sheet_base::How;
use std::alloc::{AllocError, Global};
use tin_check::check_tin;
use tin_file::{MOST_BYTES, read_tin};
use tin_index::TinIndex;
use wkt_layer::Wkt;

const PLAIN: How = How {
    exact: false,
    drop_other: false,
    inside_only: false,
};

/// The index of the largest triangulation of the maker.
fn index_of_cells(alloc: Global) -> Option<TinIndex> {
    let text = make_tin(alloc, CELLS).ok()?;
    if text.len() > MOST_BYTES {
        return None;
    }
    let tin = read_tin(alloc, &text, PLAIN).ok()?;
    TinIndex::build(alloc, check_tin(alloc, tin).ok()?).ok()
}

/// The layer of these bytes, carried through it.
fn carry_lines(alloc: Global, bytes: &[u8]) -> Option<Carried>
    requires { length bytes.now ≤ 2 ^ 26 }
{
    let index = index_of_cells(alloc)?;
    let mut pieces = Vec::new(alloc);
    carry_layer::<Wkt>(alloc, &index, bytes, PLAIN, 0, MOST_PIECES, &mut pieces).ok()
}

/// How many paths, segments and pieces the lines of this layer have when they are carried.
fn counts(alloc: Global, layer: &str) -> Option<(u32, u32, u32)> {
    let bytes = layer.as_bytes();
    if bytes.len() > 1 << 26 {
        return None;
    }
    let carried = carry_lines(alloc, bytes)?;
    Some((carried.paths, carried.segments, carried.pieces))
}

/// Those of the lines of all cells.
fn counts_in_order(alloc: Global) -> Result<Option<(u32, u32, u32)>, AllocError> {
    let layer = lines_of_cells(alloc)?;
    Ok(counts(alloc, &layer))
}

/// Those of a line of each cell, the cells far from each other.
fn counts_scattered(alloc: Global) -> Result<Option<(u32, u32, u32)>, AllocError> {
    let layer = scattered_lines_of_cells(alloc)?;
    Ok(counts(alloc, &layer))
}

#[test]
fn half_a_million_lines_are_two_pieces_each(rt: HostRuntime) {
    assert_eq!(rt;
        counts_in_order(rt.alloc()),
        Ok(Some((524288, 524288, 1048576)))
    );
}

#[test]
fn scattered_lines_are_two_pieces_each(rt: HostRuntime) {
    assert_eq!(rt;
        counts_scattered(rt.alloc()),
        Ok(Some((262144, 262144, 524288)))
    );
}
