//! The images of a layer's points and crossings.

ghost use Rattle.std.specs.Prelude.{◌≡◌};
ghost use Rattle.sheet_base.specs.ImageFits.{HaveHeights, run_begin, images_of, row_images, path_images};

use crate::{Heights, Listed, PathRow, between};
use plane_base::Pt;
use std::marker::Model;

/// The images of a layer in whole millimetres of the target frame. Each point of its sheet in order has its own image
/// and then those of the crossings between it and the next one. After a loop's last point its first one comes next.
/// Each image has a height in millimetres, or none.
#[derive(Debug, Drop)]
pub struct Images {
    points: Listed<Pt>,
    heights: Heights,
    run: Listed<u32>,
}

impl Model for Images {
    ghost use Rattle.sheet_base.specs.ImageFits.{Runs};

    ghost Value = { Runs };

    ghost use Rattle.sheet_base.specs.ImageFields.{view_of, HaveInvariant};

    ghost view = { view_of };

    ghost invariant = { HaveInvariant };
}

impl Images {
    /// Images of these points, their heights, and the place of each sheet point's own image among them. It takes no
    /// memory.
    pub fn of(points: Listed<Pt>, heights: Heights, run: Listed<u32>) -> Self
        requires { HaveHeights (record { points = points; heights = heights; run = run }) }
        ensures points { result.points ≡ points }
        ensures heights { result.heights ≡ heights }
        ensures run { result.run ≡ run }
    {
        Images {
            points,
            heights,
            run,
        }
    }

    /// The images, in order.
    pub fn points(&self) -> &[Pt]
        ensures { result.now ≡ self.now.points }
    {
        self.points.items()
    }

    /// The heights of the images, in the same order: of each its height, or none.
    pub fn heights(&self) -> &Heights
        ensures heights { result.now ≡ self.now.heights }
        ensures kept { HaveHeights self.now }
    {
        &self.heights
    }

    /// For each point of the sheet the place of its own image.
    pub fn run(&self) -> &[u32]
        ensures { result.now ≡ self.now.run }
    {
        self.run.items()
    }

    /// Where the run of this point begins among the images; after the last point, where they end.
    pub fn run_begin(&self, point: usize) -> usize
        ensures { result ≡ run_begin self.now point }
    {
        match self.run().get(point) {
            Some(place) => *place as usize,
            None => self.points().len(),
        }
    }

    /// The images of the points from one number to before another, each with those of the crossings after it.
    pub fn of_points(&self, first: u32, past: u32) -> &[Pt]
        ensures { result.now ≡ images_of self.now first past }
    {
        between(
            self.points(),
            self.run_begin(first as usize),
            self.run_begin(past as usize),
        )
    }

    /// The images of a path's points, with those of the crossings.
    pub fn of_row(&self, row: PathRow) -> &[Pt]
        ensures { result.now ≡ row_images self.now row }
    {
        self.of_points(row.first, row.past)
    }

    /// Those of the path of this number; none where there is no such path.
    pub fn of_path(&self, paths: &[PathRow], path: u32) -> &[Pt]
        ensures { result.now ≡ path_images paths.now self.now path }
    {
        match paths.get(path as usize) {
            Some(row) => self.of_row(*row),
            None => self.of_points(0, 0),
        }
    }
}
