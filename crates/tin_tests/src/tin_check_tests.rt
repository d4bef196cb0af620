//! Tests of the check of a triangulation: sound ones, and the first fault of others.

use crate::made_tins::{corner, square_corners, tin_of};
use std::alloc::{AllocError, Global};
use std::test::Fail;
use tin_base::{Corner, Frame, SoundTin};
use tin_check::{CheckFault, check_tin};

/// What is found of corners and triangles within the limits. Of others it says that memory is short, which no test
/// wants.
fn fault_found(
    alloc: Global,
    corners: &[Corner],
    triangles: &[[u32; 3]],
) -> Result<SoundTin, CheckFault> {
    let corners = Vec::from_slice(alloc, corners)?;
    let triangles = Vec::from_slice(alloc, triangles)?;
    match tin_of(corners, triangles, 2) {
        Some(tin) => check_tin(alloc, tin),
        None => Err(CheckFault::NoMemory),
    }
}

/// A corner's source place and target place, in millimetres.
type Moved = ((i64, i64), (i64, i64));

/// What is wrong with a triangulation, its corners and triangles, and its first fault.
type Row = (
    &'static str,
    &'static [Moved],
    &'static [[u32; 3]],
    CheckFault,
);

/// Corners of these places.
fn corners_of(alloc: Global, places: &[Moved]) -> Result<Vec<Corner>, AllocError> {
    let mut corners = Vec::new(alloc);
    for &(source, target) in places {
        corners.push(corner(source, target))?;
    }
    Ok(corners)
}

/// What is wrong with the first row that has another first fault, or none.
fn first_other(alloc: Global, rows: &[Row]) -> Result<Option<&'static str>, AllocError> {
    for &(name, places, triangles, fault) in rows {
        let corners = corners_of(alloc, places)?;
        if fault_found(alloc, &corners, triangles).err() != Some(fault) {
            return Ok(Some(name));
        }
    }
    Ok(None)
}

/// The square of `square_corners`.
const SQUARE: &[Moved] = &[
    ((0, 0), (100_000, 100_000)),
    ((10_000, 0), (110_000, 100_000)),
    ((10_000, 10_000), (110_003, 110_003)),
    ((0, 10_000), (100_000, 110_000)),
];

/// Corners and triangles.
type Sound = (&'static [Moved], &'static [[u32; 3]]);

/// Whether these corners and triangles are sound, and given back.
fn is_given_back(alloc: Global, row: &Sound) -> Result<bool, AllocError> {
    let corners = corners_of(alloc, row.0)?;
    match fault_found(alloc, &corners, row.1) {
        Ok(sound) => Ok(
            sound.corners() == corners.as_slice()
                && sound.triangles() == row.1
                && sound.inexact() == 2,
        ),
        Err(_) => Ok(false),
    }
}

/// The number of the first row that is not given back, or none.
fn first_lost(alloc: Global, rows: &[Sound]) -> Result<Option<usize>, AllocError> {
    for (number, row) in rows.iter().enumerate() {
        if !is_given_back(alloc, row)? {
            return Ok(Some(number));
        }
    }
    Ok(None)
}

const SOUND: &[Sound] = &[(SQUARE, &[[0, 1, 2], [0, 2, 3]]), (SQUARE, &[]), (&[], &[])];

#[test]
fn gives_back_what_is_sound(rt: HostRuntime) {
    assert_eq!(rt; first_lost(rt.alloc(), SOUND), Ok(None));
}

/// Faults of one triangle.
const OF_A_TRIANGLE: &[Row] = &[
    (
        "flat in the target",
        &[
            ((0, 0), (0, 0)),
            ((10_000, 0), (10_000, 0)),
            ((0, 10_000), (20_000, 0)),
        ],
        &[[0, 1, 2]],
        CheckFault::Flat {
            triangle: 0,
            frame: Frame::Target,
        },
    ),
    (
        "turned over in the target",
        &[
            ((0, 0), (0, 0)),
            ((10_000, 0), (0, 10_000)),
            ((0, 10_000), (10_000, 0)),
        ],
        &[[0, 1, 2]],
        CheckFault::TurnsOver { triangle: 0 },
    ),
    (
        "clockwise in both",
        SQUARE,
        &[[0, 1, 2], [0, 3, 2]],
        CheckFault::TurnsOver { triangle: 1 },
    ),
    (
        "flat in both",
        &[((0, 0), (0, 0)), ((1, 1), (1, 1)), ((2, 2), (2, 2))],
        &[[0, 1, 2]],
        CheckFault::Flat {
            triangle: 0,
            frame: Frame::Source,
        },
    ),
];

#[test]
fn names_a_triangle(rt: HostRuntime) {
    assert_eq!(rt; first_other(rt.alloc(), OF_A_TRIANGLE), Ok(None));
}

/// Two triangles that are one on the other, with common corners and without.
const OF_A_PAIR: &[Row] = &[
    (
        "a triangle twice",
        SQUARE,
        &[[0, 1, 2], [0, 2, 3], [2, 0, 1]],
        CheckFault::Meets {
            first: 0,
            second: 2,
            frame: Frame::Source,
        },
    ),
    (
        "apart in the source alone",
        &[
            ((0, 0), (0, 0)),
            ((10_000, 0), (10_000, 0)),
            ((0, 10_000), (0, 10_000)),
            ((20_000, 0), (10_000, 0)),
            ((30_000, 0), (20_000, 0)),
            ((20_000, 10_000), (10_000, 10_000)),
        ],
        &[[0, 1, 2], [3, 4, 5]],
        CheckFault::Meets {
            first: 0,
            second: 1,
            frame: Frame::Target,
        },
    ),
    (
        "a corner on a side",
        &[
            ((0, 0), (0, 0)),
            ((10_000, 0), (10_000, 0)),
            ((5_000, 8_000), (5_000, 8_000)),
            ((5_000, 0), (5_000, 0)),
            ((2_000, -8_000), (2_000, -8_000)),
            ((8_000, -8_000), (8_000, -8_000)),
        ],
        &[[0, 1, 2], [3, 4, 5]],
        CheckFault::Meets {
            first: 0,
            second: 1,
            frame: Frame::Source,
        },
    ),
    (
        "one in the other",
        &[
            ((0, 0), (0, 0)),
            ((90, 0), (90, 0)),
            ((0, 90), (0, 90)),
            ((20, 20), (20, 20)),
            ((40, 20), (40, 20)),
            ((20, 40), (20, 40)),
        ],
        &[[0, 1, 2], [3, 4, 5]],
        CheckFault::Meets {
            first: 0,
            second: 1,
            frame: Frame::Source,
        },
    ),
    (
        "sides cross and no corner is inside",
        &[
            ((0, 0), (0, 0)),
            ((60, 0), (60, 0)),
            ((30, 60), (30, 60)),
            ((30, -20), (30, -20)),
            ((60, 40), (60, 40)),
            ((0, 40), (0, 40)),
        ],
        &[[0, 1, 2], [3, 4, 5]],
        CheckFault::Meets {
            first: 0,
            second: 1,
            frame: Frame::Source,
        },
    ),
];

#[test]
fn names_a_pair(rt: HostRuntime) {
    assert_eq!(rt; first_other(rt.alloc(), OF_A_PAIR), Ok(None));
}

// Many triangles over one another: the first pair is named as soon as it is met.
#[test]
fn names_the_first_of_many_pairs(rt: HostRuntime) -> Result<(), Fail> {
    let mut triangles = Vec::new(rt.alloc());
    for _ in 0..50_000u32 {
        triangles.push([0, 1, 2])?;
    }
    let got = fault_found(rt.alloc(), &square_corners(), &triangles);
    let want = CheckFault::Meets {
        first: 0,
        second: 1,
        frame: Frame::Source,
    };
    assert_eq!(rt; got.err(), Some(want));
    Ok(())
}

/// Two triangles that meet in the target alone, and two others that meet in the source.
const TWO_PAIRS: &[Moved] = &[
    ((0, 0), (0, 0)),
    ((10_000, 0), (10_000, 0)),
    ((0, 10_000), (0, 10_000)),
    ((20_000, 0), (1_000, 0)),
    ((30_000, 0), (11_000, 0)),
    ((20_000, 10_000), (1_000, 10_000)),
    ((50_000, 0), (50_000, 0)),
    ((60_000, 0), (60_000, 0)),
    ((50_000, 10_000), (50_000, 10_000)),
    ((51_000, 0), (71_000, 0)),
    ((61_000, 0), (81_000, 0)),
    ((51_000, 10_000), (71_000, 10_000)),
];

/// The pair with the earlier triangle is named, in whichever frame it meets.
const OF_TWO_PAIRS: &[Row] = &[
    (
        "an earlier pair of the target",
        TWO_PAIRS,
        &[[0, 1, 2], [6, 7, 8], [9, 10, 11], [3, 4, 5]],
        CheckFault::Meets {
            first: 0,
            second: 3,
            frame: Frame::Target,
        },
    ),
    (
        "an earlier pair of the source",
        TWO_PAIRS,
        &[[6, 7, 8], [9, 10, 11], [0, 1, 2], [3, 4, 5]],
        CheckFault::Meets {
            first: 0,
            second: 1,
            frame: Frame::Source,
        },
    ),
];

#[test]
fn names_an_earlier_pair(rt: HostRuntime) {
    assert_eq!(rt; first_other(rt.alloc(), OF_TWO_PAIRS), Ok(None));
}
