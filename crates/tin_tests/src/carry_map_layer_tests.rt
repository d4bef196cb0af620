//! Tests of a layer that is read, carried and written, in a format of one line.

ghost use Rattle.std.specs.Prelude.{◌≡◌, ◌<◌, ◌≤◌, [], length};
ghost use Rattle.sheet_base.specs.ReadBack.{AreTheSame};
ghost use Rattle.sheet_base.specs.declared.faults.LayerFault.TheVariants.{Bad};
ghost use Rattle.tin_tests.specs.Diagonals.{diagonal};

use crate::carry_map_tests::{Want, are_pieces};
use crate::made_tins::square;
use carry_map::{Carried, CarryFault, carry_layer};
use plane_base::Pt;
use sheet_base::{Heights, How, Images, Layer, LayerFault, Listed, PathKind, PathRow, Sheet};
use std::alloc::{AllocError, Global};
use tin_base::Piece;
use tin_index::TinIndex;

/// A format whose layers have one line each, from (10, 0) to (0, 10) metres, and keep their bytes, two or
/// more.
struct Diagonal;

impl Layer for Diagonal {
    ghost reads = { λ how bytes sheet. (2 ≤ length bytes) × (sheet ≡ diagonal) };

    ghost refuses = { λ how bytes fault. (length bytes < 2) × (fault ≡ Bad 0) };

    ghost text = { λ bytes how sheet images edit. [] };

    ghost reads_back = { λ how bytes sheet images. ⊥ };

    ghost reads_heights = { AreTheSame };

    fn read(alloc: Global, bytes: &[u8], how: How) -> Result<Sheet, LayerFault> {
        let _ = how;
        if bytes.len() < 2 {
            return Err(LayerFault::Bad { at: 0 });
        }
        let line = PathRow {
            kind: PathKind::Line,
            first: 0,
            past: 2,
        };
        let ends = [Pt { x: 10_000, y: 0 }, Pt { x: 0, y: 10_000 }];
        match (
            [line].as_slice().to_vec(alloc),
            ends.as_slice().to_vec(alloc),
        ) {
            (Ok(paths), Ok(points)) => Ok(Sheet::of(
                Listed::of(paths),
                Listed::of(points),
                Heights::none(alloc, 2),
                Listed::of(Vec::new(alloc)),
                5,
                7,
            )),
            _ => Err(LayerFault::NoMemory),
        }
    }

    fn outcome_is_one() {}

    fn outcome_exists() {}

    fn memory_is_no_fault() {}

    fn sheets_are_of_bytes() {}

    fn render(
        alloc: Global,
        bytes: &[u8],
        how: How,
        sheet: &Sheet,
        images: &Images,
    ) -> Result<Vec<u8>, AllocError> {
        let _ = how;
        let _ = sheet;
        let _ = images;
        bytes.to_vec(alloc)
    }
}

fn how() -> How {
    How {
        exact: false,
        drop_other: false,
        inside_only: false,
    }
}

/// Whether the bytes are kept, and the numbers are the sheet's and the pieces'.
fn is_whole(layer: &Carried) -> bool {
    layer.text.items() == b"kept".as_slice()
        && (layer.paths, layer.segments, layer.pieces) == (1, 1, 2)
        && (layer.inexact, layer.dropped) == (5, 7)
}

/// No layer here has more bytes.
const LONGEST: usize = 1000;

/// The bytes of a layer, its number, how many pieces there may be, and why it is refused.
type LayerStep = (&'static [u8], u32, u8, Option<CarryFault>);

/// Whether the layer is carried whole after these pieces, or refused so.
fn ends_so(alloc: Global, index: &TinIndex, step: &LayerStep, pieces: &mut Vec<Piece>) -> bool {
    let most = u32::from(step.2);
    if pieces.len() > most as usize {
        return false;
    }
    if step.0.len() > LONGEST {
        return false;
    }
    match carry_layer::<Diagonal>(alloc, index, step.0, how(), step.1, most, pieces) {
        Ok(layer) => step.3.is_none() && is_whole(&layer),
        Err(fault) => step.3 == Some(fault),
    }
}

/// The pieces of the layer, which meet at the image of (5, 5).
const PIECES: &[Want] = &[
    ((0, 0, 0), 0, (110_000, 100_000), (105_002, 105_002)),
    ((0, 0, 1), 1, (105_002, 105_002), (100_000, 110_000)),
];

/// Layers one after the other, and their pieces, all of layer 3.
type Row = (&'static [LayerStep], &'static [Want]);

/// Whether the layers end so one after the other, and the pieces are then these.
fn are_carried(alloc: Global, index: &TinIndex, row: &Row) -> bool {
    let mut pieces = Vec::new(alloc);
    for step in row.0 {
        if !ends_so(alloc, index, step, &mut pieces) {
            return false;
        }
    }
    are_pieces(&pieces, 3, row.1)
}

/// The number of the first row that is carried otherwise, or none.
fn first_other(alloc: Global, index: &TinIndex, rows: &[Row]) -> Option<usize> {
    for (number, row) in rows.iter().enumerate() {
        if !are_carried(alloc, index, row) {
            return Some(number);
        }
    }
    None
}

/// Whether each row over the square is carried so.
fn are_all_carried(alloc: Global, rows: &[Row]) -> bool {
    match square(alloc) {
        Some(index) => first_other(alloc, &index, rows).is_none(),
        None => false,
    }
}

const ROWS: &[Row] = &[
    (&[(b"kept", 3, 2, None)], PIECES),
    // Another layer finds no room after the first, and leaves its pieces as they are.
    (
        &[
            (b"kept", 3, 2, None),
            (b"kept", 4, 3, Some(CarryFault::TooMany)),
        ],
        PIECES,
    ),
    // Fewer bytes than two are refused by the format, and no piece is appended.
    (
        &[(
            b"k",
            0,
            2,
            Some(CarryFault::Layer(LayerFault::Bad { at: 0 })),
        )],
        &[],
    ),
];

#[test]
fn carries_layers_or_refuses_them(rt: HostRuntime) {
    assert!(rt; are_all_carried(rt.alloc(), ROWS));
}
