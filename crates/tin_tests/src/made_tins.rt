//! Triangulations for tests: a square, six triangles round a point, a bow and a square with a notch.

ghost use Rattle.std.specs.Prelude.{◌≡◌, length, IfSome};
ghost use Rattle.tin_base.specs.Triangulation.{triangulation};

use plane_base::{Pt, turn};
use std::alloc::Global;
use tin_base::{Corner, Frame, SoundTin, Tin, are_within_limits, one_triangle_is_sound};
use tin_check::check_tin;
use tin_index::TinIndex;

/// A point, in millimetres.
pub fn at((x, y): (i32, i32)) -> Pt {
    Pt {
        x: i64::from(x),
        y: i64::from(y),
    }
}

/// A corner's source place and target place, in millimetres.
pub fn corner(source: (i64, i64), target: (i64, i64)) -> Corner
    ensures { (result.sx ≡ source.0) × (result.sy ≡ source.1) × (result.tx ≡ target.0) × (result.ty ≡ target.1) }
{
    Corner {
        sx: source.0,
        sy: source.1,
        tx: target.0,
        ty: target.1,
    }
}

/// A corner whose target place is its source place.
pub fn same(x: i64, y: i64) -> Corner {
    corner((x, y), (x, y))
}

/// The triangulation of these corners and triangles, or none where they are not within the limits.
pub fn tin_of(corners: Vec<Corner>, triangles: Vec<[u32; 3]>, inexact: u64) -> Option<Tin>
    ensures { IfSome result (λ tin. tin ≡ triangulation corners.items triangles.items inexact) }
{
    if are_within_limits(&corners, &triangles) {
        Some(Tin::of(corners, triangles, inexact))
    } else {
        None
    }
}

/// A triangulation of one triangle, or none where this is flat or turned over.
pub fn sound_of(tin: Tin) -> Option<SoundTin>
    requires { length tin.triangles ≡ 1 }
    ensures { IfSome result (λ sound. sound ≡ tin) }
{
    let source = tin.tri(0, Frame::Source);
    if turn(source.a, source.b, source.c) <= 0 {
        return None;
    }
    let target = tin.tri(0, Frame::Target);
    if turn(target.a, target.b, target.c) <= 0 {
        return None;
    }
    one_triangle_is_sound();
    Some(SoundTin::of(tin))
}

/// A triangulation, to be found by points; or none where it is not within the limits, or not sound.
pub fn index_of(alloc: Global, corners: &[Corner], triangles: &[[u32; 3]]) -> Option<TinIndex> {
    let corners = Vec::from_slice(alloc, corners).ok()?;
    let triangles = Vec::from_slice(alloc, triangles).ok()?;
    let tin = tin_of(corners, triangles, 0)?;
    TinIndex::build(alloc, check_tin(alloc, tin).ok()?).ok()
}

/// The corners of the square of ten metres; one corner of its image is moved outwards.
pub fn square_corners() -> [Corner; 4] {
    [
        corner((0, 0), (100_000, 100_000)),
        corner((10_000, 0), (110_000, 100_000)),
        corner((10_000, 10_000), (110_003, 110_003)),
        corner((0, 10_000), (100_000, 110_000)),
    ]
}

/// The square of ten metres, cut from the lower left to the upper right; one corner of its image is moved outwards.
pub fn square(alloc: Global) -> Option<TinIndex> {
    index_of(alloc, &square_corners(), &[[0, 1, 2], [0, 2, 3]])
}

/// Six triangles round the origin, moved by a hundred metres on both axes.
pub fn six(alloc: Global) -> Option<TinIndex> {
    let corners = [
        corner((0, 0), (100_000, 100_000)),
        corner((10_000, 0), (110_000, 100_000)),
        corner((10_000, 10_000), (110_000, 110_000)),
        corner((0, 10_000), (100_000, 110_000)),
        corner((-10_000, 0), (90_000, 100_000)),
        corner((-10_000, -10_000), (90_000, 90_000)),
        corner((0, -10_000), (100_000, 90_000)),
    ];
    let triangles = [
        [0, 1, 2],
        [0, 2, 3],
        [0, 3, 4],
        [0, 4, 5],
        [0, 5, 6],
        [0, 6, 1],
    ];
    index_of(alloc, &corners, &triangles)
}

/// Two triangles that have a corner in common and no more, moved by a hundred metres on both axes.
pub fn bow(alloc: Global) -> Option<TinIndex> {
    let corners = [
        corner((0, 0), (100_000, 100_000)),
        corner((10_000, 0), (110_000, 100_000)),
        corner((10_000, 10_000), (110_000, 110_000)),
        corner((-10_000, 0), (90_000, 100_000)),
        corner((-10_000, -10_000), (90_000, 90_000)),
    ];
    index_of(alloc, &corners, &[[0, 1, 2], [0, 3, 4]])
}

/// A square of twenty metres that lacks its upper right quarter, moved by a hundred metres on both axes.
pub fn notched_square(alloc: Global) -> Option<TinIndex> {
    let corners = [
        corner((0, 0), (100_000, 100_000)),
        corner((10_000, 0), (110_000, 100_000)),
        corner((20_000, 0), (120_000, 100_000)),
        corner((20_000, 10_000), (120_000, 110_000)),
        corner((10_000, 10_000), (110_000, 110_000)),
        corner((10_000, 20_000), (110_000, 120_000)),
        corner((0, 20_000), (100_000, 120_000)),
        corner((0, 10_000), (100_000, 110_000)),
    ];
    let triangles = [
        [0, 1, 4],
        [0, 4, 7],
        [1, 2, 3],
        [1, 3, 4],
        [7, 4, 5],
        [7, 5, 6],
    ];
    index_of(alloc, &corners, &triangles)
}

/// Which triangulation.
#[derive(Clone, Copy, Debug)]
pub enum Shape {
    Square,
    Six,
    Bow,
    Notched,
}

/// The triangulation of this shape.
pub fn tin_of_shape(alloc: Global, shape: Shape) -> Option<TinIndex> {
    match shape {
        Shape::Square => square(alloc),
        Shape::Six => six(alloc),
        Shape::Bow => bow(alloc),
        Shape::Notched => notched_square(alloc),
    }
}
