//! Tests of the rounded images of points and of points of sides.

ghost use Rattle.std.specs.Prelude.{◌≡◌, ◌<◌, length, IfSome};

use crate::made_tins::{corner, sound_of, tin_of};
use crate::nearness::is_near;
use affine_image::{image_cut, image_of};
use frac128::Frac;
use plane_base::{Pt, holds};
use std::alloc::Global;
use tin_base::{Frame, SoundTin};

// The image by triangle 0, or none where that does not hold the point.
fn image(tin: &SoundTin, p: Pt) -> Option<Pt>
    requires { 0 < length tin.now.triangles }
{
    let source = tin.tri(0, Frame::Source);
    if !is_near(source.a, p) || !is_near(source.b, p) || !is_near(source.c, p) {
        return None;
    }
    if !holds(&source, p) {
        return None;
    }
    Some(image_of(tin, 0, p))
}

/// A corner's source place and target place.
type Moved = ((i64, i64), (i64, i64));

/// The triangle of these corners, if it is neither flat nor turned over.
fn triangle_of(alloc: Global, places: [Moved; 3]) -> Option<SoundTin>
    ensures { IfSome result (λ tin. length tin.triangles ≡ 1) }
{
    let [a, b, c] = places;
    let corners = [corner(a.0, a.1), corner(b.0, b.1), corner(c.0, c.1)];
    let corners = Vec::from_slice(alloc, &corners).ok()?;
    let triangles = vec![in alloc; [0, 1, 2]].ok()?;
    match tin_of(corners, triangles, 0) {
        Some(tin) => sound_of(tin),
        None => None,
    }
}

/// A point, and its image, or none where the triangle does not have it.
type Row = ((i64, i64), Option<(i64, i64)>);

/// The first of the points that has another image by the triangle, or none.
fn first_other(alloc: Global, corners: [Moved; 3], rows: &[Row]) -> Option<(i64, i64)> {
    let Some(tin) = triangle_of(alloc, corners) else {
        return Some((0, 0));
    };
    for &((x, y), want) in rows {
        let got = match image(&tin, Pt { x, y }) {
            Some(p) => Some((p.x, p.y)),
            None => None,
        };
        if got != want {
            return Some((x, y));
        }
    }
    None
}

/// A triangle whose first side is two millimetres longer in the target.
const STRETCHED: [Moved; 3] = [
    ((0, 0), (100_000, 100_000)),
    ((10_000, 0), (110_002, 100_000)),
    ((0, 10_000), (100_000, 110_000)),
];

const OF_STRETCHED: &[Row] = &[
    ((5_000, 0), Some((105_001, 100_000))),
    ((2_500, 2_500), Some((102_501, 102_500))),
    ((7_501, 2_499), Some((107_503, 102_499))),
    ((10_000, 0), Some((110_002, 100_000))),
    ((0, 10_000), Some((100_000, 110_000))),
    ((5_001, 5_000), None),
];

#[test]
fn gives_images(rt: HostRuntime) {
    assert_eq!(rt; first_other(rt.alloc(), STRETCHED, OF_STRETCHED), None);
}

/// That triangle with its target left of 0.
const BELOW_ZERO: [Moved; 3] = [
    ((0, 0), (-110_000, 0)),
    ((10_000, 0), (-99_998, 0)),
    ((0, 10_000), (-110_000, 10_000)),
];

#[test]
fn rounds_half_up_below_zero(rt: HostRuntime) {
    let rows = [((2_500, 2_500), Some((-107_499, 2_500)))];
    assert_eq!(rt; first_other(rt.alloc(), BELOW_ZERO, &rows), None);
}

/// As far out and as large as a triangle may be.
const LARGEST: [Moved; 3] = [
    (
        (999_998_926_258_177, -1_000_000_000_000_000),
        (-999_999_999_999_999, 999_998_926_258_177),
    ),
    (
        (1_000_000_000_000_000, -1_000_000_000_000_000),
        (-999_998_926_258_177, 999_998_926_258_178),
    ),
    (
        (999_998_926_258_178, -999_998_926_258_177),
        (-1_000_000_000_000_000, 1_000_000_000_000_000),
    ),
];

const OF_LARGEST: &[Row] = &[
    (
        (999_999_284_172_118, -999_999_642_086_059),
        Some((-999_999_642_086_059, 999_999_284_172_118)),
    ),
    (
        (999_998_926_258_178, -999_998_926_258_177),
        Some((-1_000_000_000_000_000, 1_000_000_000_000_000)),
    ),
];

#[test]
fn reaches_the_largest(rt: HostRuntime) {
    assert_eq!(rt; first_other(rt.alloc(), LARGEST, OF_LARGEST), None);
}

/// Two corners, a part of the way from the first to the second as a fraction, and the image there.
type Cut = (u32, u32, u16, u16, (i64, i64));

/// The image at a fraction of a side, or none where there is no such corner or fraction.
fn cut_image(tin: &SoundTin, row: &Cut) -> Option<Pt> {
    let count = tin.corners().len();
    if row.0 as usize >= count {
        return None;
    }
    if row.1 as usize >= count {
        return None;
    }
    let num = i128::from(row.2);
    let den = i128::from(row.3);
    if den <= 0 {
        return None;
    }
    if num > den {
        return None;
    }
    Some(image_cut(tin, row.0, row.1, Frac { num, den }))
}

/// The number of the first row with another image by the triangle, or none.
fn first_other_cut(alloc: Global, corners: [Moved; 3], rows: &[Cut]) -> Option<usize> {
    let Some(tin) = triangle_of(alloc, corners) else {
        return Some(rows.len());
    };
    for (number, row) in rows.iter().enumerate() {
        let (x, y) = row.4;
        if cut_image(&tin, row) != Some(Pt { x, y }) {
            return Some(number);
        }
    }
    None
}

const CUTS: &[Cut] = &[
    (0, 1, 1, 2, (105_001, 100_000)),
    (0, 1, 2_500, 10_000, (102_501, 100_000)),
    (1, 0, 3, 4, (102_501, 100_000)),
    (1, 2, 1, 4, (107_502, 102_500)),
    (2, 1, 0, 7, (100_000, 110_000)),
    (2, 1, 7, 7, (110_002, 100_000)),
    (1, 1, 2, 3, (110_002, 100_000)),
];

#[test]
fn gives_points_of_edges(rt: HostRuntime) {
    assert_eq!(rt; first_other_cut(rt.alloc(), STRETCHED, CUTS), None);
}
