//! The sheet of a layer: its paths, its points, and the edits of its bytes.

ghost use Rattle.std.specs.Prelude.{◌≡◌};
ghost use Rattle.sheet_base.specs.Sheets.{Contents, IsSheet};

use crate::{Edit, Heights, Listed, PathRow};
use plane_base::Pt;
use std::marker::Model;

/// What was read of a layer: paths over points in whole millimetres of the source frame, the points' heights in
/// millimetres, and the edits. These put the images of the points in place of their texts. All are in order of the
/// layer's bytes. The paths follow each other without a gap from the first point to the last; none is empty, and a
/// dot has one point. Each point has a height or none.
#[derive(Drop)]
pub struct Sheet {
    paths: Listed<PathRow>,
    points: Listed<Pt>,
    heights: Heights,
    edits: Listed<Edit>,
    inexact: u64,
    dropped: u64,
}

impl Model for Sheet {
    ghost use Rattle.sheet_base.specs.Sheets.{Contents};

    ghost Value = { Contents };

    ghost use Rattle.sheet_base.specs.SheetFields.{view_of, HasInvariant};

    ghost view = { view_of };

    ghost invariant = { HasInvariant };
}

impl Sheet {
    /// A sheet of these paths, points, heights of the points, and edits; `inexact` numbers lost digits, and `dropped`
    /// entities are left out.
    /// It takes no memory.
    pub fn of(
        paths: Listed<PathRow>,
        points: Listed<Pt>,
        heights: Heights,
        edits: Listed<Edit>,
        inexact: u64,
        dropped: u64,
    ) -> Self
        requires { IsSheet (record {
          paths = paths;
          points = points;
          heights = heights;
          edits = edits;
          inexact = inexact;
          dropped = dropped;
        }) }
        ensures { result ≡ record {
          paths = paths;
          points = points;
          heights = heights;
          edits = edits;
          inexact = inexact;
          dropped = dropped;
        } }
    {
        Sheet {
            paths,
            points,
            heights,
            edits,
            inexact,
            dropped,
        }
    }

    /// Recalls what the type keeps of a sheet: a proof knows it after this call, which does nothing else.
    pub fn recall(&self)
        ensures { IsSheet self.now }
    {
        let _ = self.paths.items();
    }

    /// The paths, in order.
    pub fn paths(&self) -> &[PathRow]
        ensures paths { result.now ≡ self.now.paths }
        ensures sheet { IsSheet self.now }
    {
        self.paths.items()
    }

    /// The points of all paths, in order.
    pub fn points(&self) -> &[Pt]
        ensures points { result.now ≡ self.now.points }
        ensures sheet { IsSheet self.now }
    {
        self.points.items()
    }

    /// The heights of the points, in the same order: of each its height, or none.
    pub fn heights(&self) -> &Heights
        ensures heights { result.now ≡ self.now.heights }
        ensures sheet { IsSheet self.now }
    {
        &self.heights
    }

    /// The edits, in order of the layer's bytes.
    pub fn edits(&self) -> &[Edit]
        ensures { result.now ≡ self.now.edits }
    {
        self.edits.items()
    }

    /// How many of the numbers that were read lost digits past the thousandth.
    pub fn inexact(&self) -> u64
        ensures { result ≡ self.now.inexact }
    {
        self.inexact
    }

    /// How many entities of other kinds are left out.
    pub fn dropped(&self) -> u64
        ensures { result ≡ self.now.dropped }
    {
        self.dropped
    }
}
