//! The boxes that are written of images.

ghost use Rattle.std.specs.Prelude.{◌≡◌, ◌≤◌, ◌-◌, ◌∷◌, [], Option, length, take, drop, flat_map};
ghost use Rattle.sheet_base.specs.PointHeights.{Position};
ghost use Rattle.sheet_base.specs.ImageFits.{positions_in};
ghost use Rattle.gj_layer.specs.Texts.{bounds_text, row_positions};
ghost use Rattle.gj_layer.specs.InsideBoxes.{level_of, level_with, widened_by, bounded_text};

use plane_base::{Pt, Rect};
use sheet_base::{Images, PathRow};

/// The least and the greatest of some heights, in millimetres.
#[derive(Clone, Copy)]
pub struct Levels {
    pub z0: i64,
    pub z1: i64,
}

/// The least box of some images, and the least and the greatest of their heights, where each has one.
#[derive(Clone, Copy)]
pub struct BoundingBox {
    pub plane: Rect,
    pub levels: Option<Levels>,
}

/// The levels of one height.
fn level_of(height: Option<i64>) -> Option<Levels>
    ensures { result ≡ level_of height }
{
    match height {
        Some(z) => Some(Levels { z0: z, z1: z }),
        None => None,
    }
}

/// The levels with one height more, where there are both.
fn level_with(levels: Option<Levels>, height: Option<i64>) -> Option<Levels>
    ensures { result ≡ level_with levels height }
{
    match (levels, height) {
        (Some(levels), Some(z)) => Some(Levels {
            z0: levels.z0.min(z),
            z1: levels.z1.max(z),
        }),
        _ => None,
    }
}

/// The least box with this one, if any, and the image.
fn widen(bounds: Option<BoundingBox>, image: Pt, height: Option<i64>) -> BoundingBox
    ensures { Option.Some result ≡ widened_by bounds (record { point = image; height = height } ∷ []) }
{
    match bounds {
        None => BoundingBox {
            plane: Rect::of_point(image),
            levels: level_of(height),
        },
        Some(bounds) => BoundingBox {
            plane: bounds.plane.with_point(image),
            levels: level_with(bounds.levels, height),
        },
    }
}

/// The least box with this one, if any, and the images from one number to before another.
fn widen_by(
    bounds: Option<BoundingBox>,
    images: &Images,
    first: usize,
    past: usize,
) -> Option<BoundingBox>
    requires { past ≤ length images.now.points }
    ensures { result ≡ widened_by bounds (take (past - first) (drop first (positions_in images.now))) }
{
    let mut bounds = bounds;
    for number in first..past {
        bounds = Some(widen(bounds, images.points()[number], images.heights().at(number)));
    }
    bounds
}

/// The least box with this one, if any, and the images of a path's points.
fn widen_row(bounds: Option<BoundingBox>, images: &Images, row: PathRow) -> Option<BoundingBox>
    ensures { result ≡ widened_by bounds (row_positions images.now row) }
{
    let first = images.run_begin(row.first as usize);
    let past = images
        .run_begin(row.past as usize)
        .min(images.points().len());
    widen_by(bounds, images, first, past)
}

/// The least box of the images of these paths.
pub fn bounds_of(images: &Images, rows: &[PathRow]) -> Option<BoundingBox>
    ensures { bounded_text result ≡ bounds_text (flat_map (row_positions images.now) rows.now) }
{
    let mut bounds = None;
    for row in rows {
        bounds = widen_row(bounds, images, *row);
    }
    bounds
}
