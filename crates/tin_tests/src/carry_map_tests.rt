//! Tests of paths that are carried: images, runs, pieces and refusals.

ghost use Rattle.std.specs.Prelude.{IsTrue};
ghost use Rattle.sheet_base.specs.Sheets.{IsPathFrom, AreTiled};

use crate::made_tins::{Shape, at, tin_of_shape};
use carry_map::{CarryFault, carry};
use plane_base::Pt;
use sheet_base::{Heights, Images, Listed, PathKind, PathRow, Sheet};
use std::alloc::Global;
use tin_base::Piece;
use tin_index::TinIndex;

/// Whether the path begins at this point and has some points, just one if it is a dot.
fn is_path_from(first: u32, row: PathRow) -> bool
    ensures { IsTrue result → IsPathFrom first row }
{
    if row.first != first {
        return false;
    }
    if row.past <= row.first {
        return false;
    }
    match row.kind {
        PathKind::Dot => row.past == row.first + 1,
        PathKind::Line => true,
        PathKind::Loop => true,
    }
}

/// Whether the paths follow each other without a gap from point 0 up to this one.
fn are_tiled(rows: &[PathRow], past: u32) -> bool
    ensures { IsTrue result → AreTiled rows.now 0 past }
{
    let mut first = 0;
    for row in rows {
        if !is_path_from(first, *row) {
            return false;
        }
        first = row.past;
    }
    first == past
}

/// A path's kind and its points.
type Drawn = (PathKind, &'static [(i32, i32)]);

/// A sheet of these rows and points, where the rows follow each other.
fn sheet_of_rows(alloc: Global, rows: Vec<PathRow>, points: Vec<Pt>) -> Option<Sheet> {
    let past = u32::try_from(points.len()).ok()?;
    if !are_tiled(&rows, past) {
        return None;
    }
    let count = points.len();
    Some(Sheet::of(
        Listed::of(rows),
        Listed::of(points),
        Heights::none(alloc, count),
        Listed::of(Vec::new(alloc)),
        0,
        0,
    ))
}

/// The sheet of these paths.
fn sheet_of(alloc: Global, paths: &[Drawn]) -> Option<Sheet> {
    let mut rows = Vec::new(alloc);
    let mut points = Vec::new(alloc);
    for (kind, places) in paths {
        let first = u32::try_from(points.len()).ok()?;
        for place in *places {
            points.push(at(*place)).ok()?;
        }
        let past = u32::try_from(points.len()).ok()?;
        rows.push(PathRow {
            kind: *kind,
            first,
            past,
        })
        .ok()?;
    }
    sheet_of_rows(alloc, rows, points)
}

/// Whether these are the images, in millimetres, and the places where the runs begin.
fn are_images(images: &Images, points: &[(i32, i32)], run: &[u32]) -> bool {
    if images.run() != run || images.points().len() != points.len() {
        return false;
    }
    for (image, point) in images.points().iter().zip(points) {
        if *image != at(*point) {
            return false;
        }
    }
    true
}

/// A piece's path, segment and number, its triangle, and the ends of its image.
pub type Want = ((u32, u32, u32), u32, (i32, i32), (i32, i32));

fn is_piece(piece: &Piece, layer: u32, want: &Want) -> bool {
    let from = piece.from;
    from.layer == layer
        && (from.path, from.segment, from.piece) == want.0
        && piece.tri == want.1
        && piece.ia == at(want.2)
        && piece.ib == at(want.3)
}

/// Whether these are the wanted pieces, in order, all of the one layer.
pub fn are_pieces(pieces: &[Piece], layer: u32, want: &[Want]) -> bool {
    for (piece, want) in pieces.iter().zip(want) {
        if !is_piece(piece, layer, want) {
            return false;
        }
    }
    pieces.len() == want.len()
}

/// The images of paths with the places where their runs begin, and their pieces.
struct WantedImages {
    points: &'static [(i32, i32)],
    run: &'static [u32],
    pieces: &'static [Want],
}

/// Paths over a triangulation, the number of their layer, how many pieces there may be, and how they are carried or why
/// not.
struct CarriedPaths {
    over: Shape,
    paths: &'static [Drawn],
    layer: u32,
    most: u8,
    wanted: Result<WantedImages, CarryFault>,
}

/// A triangulation, and a sheet over it.
#[derive(Drop)]
struct Ground {
    index: TinIndex,
    sheet: Sheet,
}

/// The triangulation of this shape and the sheet of these paths.
fn ground_of(alloc: Global, over: Shape, paths: &[Drawn]) -> Option<Ground> {
    let index = tin_of_shape(alloc, over)?;
    match sheet_of(alloc, paths) {
        Some(sheet) => Some(Ground { index, sheet }),
        None => None,
    }
}

/// Whether these are the images and the pieces of the row.
fn are_wanted(images: &Images, pieces: &[Piece], row: &CarriedPaths) -> bool {
    match &row.wanted {
        Ok(wanted) => {
            are_images(images, wanted.points, wanted.run)
                && are_pieces(pieces, row.layer, wanted.pieces)
        }
        Err(_) => false,
    }
}

/// Whether the row is refused so.
fn has_fault(row: &CarriedPaths, fault: CarryFault) -> bool {
    match &row.wanted {
        Ok(_) => false,
        Err(wanted) => *wanted == fault,
    }
}

/// Whether the sheet, carried alone, has these images and these pieces, or is refused so with no piece.
fn is_sheet_carried(alloc: Global, ground: &Ground, row: &CarriedPaths) -> bool {
    let mut pieces = Vec::new(alloc);
    let most = u32::from(row.most);
    match carry(
        alloc,
        &ground.index,
        &ground.sheet,
        row.layer,
        most,
        &mut pieces,
    ) {
        Ok(images) => are_wanted(&images, &pieces, row),
        Err(fault) => has_fault(row, fault) && pieces.is_empty(),
    }
}

/// Whether the paths are carried so.
fn is_carried(alloc: Global, row: &CarriedPaths) -> bool {
    match ground_of(alloc, row.over, row.paths) {
        Some(ground) => is_sheet_carried(alloc, &ground, row),
        None => false,
    }
}

/// The number of the first row that is carried otherwise, or none.
fn first_other(alloc: Global, rows: &[CarriedPaths]) -> Option<usize> {
    for (number, row) in rows.iter().enumerate() {
        if !is_carried(alloc, row) {
            return Some(number);
        }
    }
    None
}

const ACROSS: Drawn = (PathKind::Line, &[(10_000, 0), (0, 10_000)]);

/// Over the square: across the diagonal, along it, which is a side of both triangles, and through a point twice.
const OVER_THE_SQUARE: &[CarriedPaths] = &[
    CarriedPaths {
        over: Shape::Square,
        paths: &[ACROSS],
        layer: 3,
        most: 100,
        wanted: Ok(WantedImages {
            points: &[(110_000, 100_000), (105_002, 105_002), (100_000, 110_000)],
            run: &[0, 2],
            pieces: &[
                ((0, 0, 0), 0, (110_000, 100_000), (105_002, 105_002)),
                ((0, 0, 1), 1, (105_002, 105_002), (100_000, 110_000)),
            ],
        }),
    },
    CarriedPaths {
        over: Shape::Square,
        paths: &[(PathKind::Line, &[(0, 0), (10_000, 10_000)])],
        layer: 3,
        most: 100,
        wanted: Ok(WantedImages {
            points: &[(100_000, 100_000), (110_003, 110_003)],
            run: &[0, 1],
            pieces: &[((0, 0, 0), 0, (100_000, 100_000), (110_003, 110_003))],
        }),
    },
    CarriedPaths {
        over: Shape::Square,
        paths: &[(
            PathKind::Line,
            &[(1_000, 1_000), (1_000, 1_000), (2_000, 1_000)],
        )],
        layer: 3,
        most: 100,
        wanted: Ok(WantedImages {
            points: &[(101_000, 101_000), (101_000, 101_000), (102_000, 101_000)],
            run: &[0, 1, 2],
            pieces: &[
                ((0, 0, 0), 0, (101_000, 101_000), (101_000, 101_000)),
                ((0, 1, 0), 0, (101_000, 101_000), (102_000, 101_000)),
            ],
        }),
    },
];

#[test]
fn carries_lines(rt: HostRuntime) {
    assert_eq!(rt; first_other(rt.alloc(), OVER_THE_SQUARE), None);
}

/// A ring, which is carried to its first point, with a point.
const RING_AND_POINT: &[CarriedPaths] = &[CarriedPaths {
    over: Shape::Square,
    paths: &[
        (PathKind::Loop, &[(1_000, 0), (9_000, 1_000), (0, 9_000)]),
        (PathKind::Dot, &[(0, 0)]),
    ],
    layer: 3,
    most: 100,
    wanted: Ok(WantedImages {
        points: &[
            (101_000, 100_000),
            (109_000, 101_000),
            (104_766, 104_766),
            (100_000, 109_000),
            (100_900, 100_900),
            (100_000, 100_000),
        ],
        run: &[0, 1, 3, 5],
        pieces: &[
            ((0, 0, 0), 0, (101_000, 100_000), (109_000, 101_000)),
            ((0, 1, 0), 0, (109_000, 101_000), (104_766, 104_766)),
            ((0, 1, 1), 1, (104_766, 104_766), (100_000, 109_000)),
            ((0, 2, 0), 1, (100_000, 109_000), (100_900, 100_900)),
            ((0, 2, 1), 0, (100_900, 100_900), (101_000, 100_000)),
            ((1, 0, 0), 0, (100_000, 100_000), (100_000, 100_000)),
        ],
    }),
}];

#[test]
fn carries_a_ring_to_its_first_point(rt: HostRuntime) {
    assert_eq!(rt; first_other(rt.alloc(), RING_AND_POINT), None);
}

/// Through the corner of six triangles, and along their outer edge.
const OVER_SIX: &[CarriedPaths] = &[
    CarriedPaths {
        over: Shape::Six,
        paths: &[(PathKind::Line, &[(-4_000, -2_000), (4_000, 2_000)])],
        layer: 3,
        most: 100,
        wanted: Ok(WantedImages {
            points: &[(96_000, 98_000), (100_000, 100_000), (104_000, 102_000)],
            run: &[0, 2],
            pieces: &[
                ((0, 0, 0), 3, (96_000, 98_000), (100_000, 100_000)),
                ((0, 0, 1), 0, (100_000, 100_000), (104_000, 102_000)),
            ],
        }),
    },
    CarriedPaths {
        over: Shape::Six,
        paths: &[(PathKind::Line, &[(0, 5_000), (-5_000, 5_000)])],
        layer: 3,
        most: 100,
        wanted: Ok(WantedImages {
            points: &[(100_000, 105_000), (95_000, 105_000)],
            run: &[0, 1],
            pieces: &[((0, 0, 0), 2, (100_000, 105_000), (95_000, 105_000))],
        }),
    },
];

#[test]
fn carries_through_a_corner(rt: HostRuntime) {
    assert_eq!(rt; first_other(rt.alloc(), OVER_SIX), None);
}

const INSIDE: Drawn = (
    PathKind::Line,
    &[(1_000, 1_000), (2_000, 1_000), (3_000, 1_000)],
);

const OUTSIDE: Drawn = (PathKind::Line, &[(18_000, 9_000), (9_000, 18_000)]);

const DOT: Drawn = (PathKind::Dot, &[(6_000, 4_000)]);

/// The first segment outside is named, and with the pieces of a path before it there may be no room for more.
const REFUSED: &[CarriedPaths] = &[
    CarriedPaths {
        over: Shape::Notched,
        paths: &[OUTSIDE],
        layer: 0,
        most: 100,
        wanted: Err(CarryFault::Outside {
            path: 0,
            segment: 0,
        }),
    },
    CarriedPaths {
        over: Shape::Notched,
        paths: &[INSIDE, OUTSIDE, OUTSIDE],
        layer: 0,
        most: 100,
        wanted: Err(CarryFault::Outside {
            path: 1,
            segment: 0,
        }),
    },
    CarriedPaths {
        over: Shape::Notched,
        paths: &[INSIDE, OUTSIDE],
        layer: 0,
        most: 2,
        wanted: Err(CarryFault::Outside {
            path: 1,
            segment: 0,
        }),
    },
    CarriedPaths {
        over: Shape::Notched,
        paths: &[INSIDE, OUTSIDE],
        layer: 0,
        most: 1,
        wanted: Err(CarryFault::TooMany),
    },
    CarriedPaths {
        over: Shape::Square,
        paths: &[ACROSS, DOT],
        layer: 0,
        most: 2,
        wanted: Err(CarryFault::TooMany),
    },
];

#[test]
fn refuses_the_first_segment_that_is_outside(rt: HostRuntime) {
    assert_eq!(rt; first_other(rt.alloc(), REFUSED), None);
}

/// A layer's number, how many pieces there may be, why it is refused, and how many pieces there are then.
type CarryStep = (u32, u8, Option<CarryFault>, usize);

/// Whether the sheet as the layer of this number ends so after these pieces.
fn ends_so(alloc: Global, ground: &Ground, step: &CarryStep, pieces: &mut Vec<Piece>) -> bool {
    let most = u32::from(step.1);
    if pieces.len() > most as usize {
        return false;
    }
    if carry(alloc, &ground.index, &ground.sheet, step.0, most, pieces).err() != step.2 {
        return false;
    }
    pieces.len() == step.3
}

/// Layers of the same two paths one after the other.
const LAYERS: &[CarryStep] = &[
    (0, 3, None, 3),
    // Another layer finds no room, and leaves the first one as it is.
    (1, 4, Some(CarryFault::TooMany), 3),
    (1, 6, None, 6),
];

/// The pieces of each of the two layers.
const TWO_PATHS: &[Want] = &[
    ((0, 0, 0), 0, (110_000, 100_000), (105_002, 105_002)),
    ((0, 0, 1), 1, (105_002, 105_002), (100_000, 110_000)),
    ((1, 0, 0), 0, (106_001, 104_001), (106_001, 104_001)),
];

/// Whether these are the pieces of the two layers.
fn are_two_layers(pieces: &[Piece]) -> bool {
    match pieces.split_at_checked(3) {
        Some((first, second)) => {
            are_pieces(first, 0, TWO_PATHS) && are_pieces(second, 1, TWO_PATHS)
        }
        None => false,
    }
}

/// Whether the sheet as one layer after the other ends so, and the pieces are those of the two layers then.
fn are_sheets_carried(alloc: Global, ground: &Ground, steps: &[CarryStep]) -> bool {
    let mut pieces = Vec::new(alloc);
    for step in steps {
        if !ends_so(alloc, ground, step, &mut pieces) {
            return false;
        }
    }
    are_two_layers(&pieces)
}

/// Whether the two paths as one layer after the other are carried so.
fn are_layers_carried(alloc: Global, steps: &[CarryStep]) -> bool {
    match ground_of(alloc, Shape::Square, &[ACROSS, DOT]) {
        Some(ground) => are_sheets_carried(alloc, &ground, steps),
        None => false,
    }
}

#[test]
fn refuses_more_pieces_than_there_may_be(rt: HostRuntime) {
    assert!(rt; are_layers_carried(rt.alloc(), LAYERS));
}
