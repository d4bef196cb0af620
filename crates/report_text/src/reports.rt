//! The report of a run.

ghost use Rattle.std.specs.Prelude.{◌≡◌, Some, None, IfSome, IfNone};
ghost use Rattle.report_text.specs.Reports.{ReportContents, IsReport};

use crate::LayerRow;
use ring_side::{SideChange, SideList};
use sheet_base::Listed;
use shelf_io::Name;
use std::marker::Model;
use tin_base::Change;

/// The report of a run: the numbers and the name of the triangulation, the layers that were carried, in order, and the
/// changes among their pieces, in order; and where sides of rings were asked for, their changes in order. No name has a
/// byte below 32, and in each change the two relations, directions or sides differ.
#[derive(Drop)]
pub struct Report {
    corners: u32,
    triangles: u32,
    inexact: u64,
    name: Name,
    layers: Listed<LayerRow>,
    changes: Listed<Change>,
    sides: Option<SideList>,
}

impl Model for Report {
    ghost use Rattle.report_text.specs.Reports.{ReportContents};

    ghost Value = { ReportContents };

    ghost use Rattle.report_text.specs.ReportFields.{view_of, HasInvariant};

    ghost view = { view_of };

    ghost invariant = { HasInvariant };
}

impl Report {
    /// A report of a triangulation with this many corners and triangles, of whose numbers `inexact` lost digits.
    /// It takes no memory.
    pub fn of(
        corners: u32,
        triangles: u32,
        inexact: u64,
        name: Name,
        layers: Listed<LayerRow>,
        changes: Listed<Change>,
        sides: Option<SideList>,
    ) -> Self
        requires { IsReport (record {
          corners = corners;
          triangles = triangles;
          inexact = inexact;
          name = name;
          layers = layers;
          changes = changes;
          sides = sides;
        }) }
        ensures { result ≡ record {
          corners = corners;
          triangles = triangles;
          inexact = inexact;
          name = name;
          layers = layers;
          changes = changes;
          sides = sides;
        } }
    {
        Report {
            corners,
            triangles,
            inexact,
            name,
            layers,
            changes,
            sides,
        }
    }

    /// How many corners the triangulation has.
    pub fn corners(&self) -> u32
        ensures { result ≡ self.now.corners }
    {
        self.corners
    }

    /// How many triangles it has.
    pub fn triangles(&self) -> u32
        ensures { result ≡ self.now.triangles }
    {
        self.triangles
    }

    /// How many of its numbers lost digits past the thousandth.
    pub fn inexact(&self) -> u64
        ensures { result ≡ self.now.inexact }
    {
        self.inexact
    }

    /// The name of the triangulation's file.
    pub fn name(&self) -> &Name
        ensures name { result.now ≡ self.now.name }
        ensures report { IsReport self.now }
    {
        &self.name
    }

    /// The layers, in order.
    pub fn layers(&self) -> &[LayerRow]
        ensures layers { result.now ≡ self.now.layers }
        ensures report { IsReport self.now }
    {
        self.layers.items()
    }

    /// The changes, in order.
    pub fn changes(&self) -> &[Change]
        ensures changes { result.now ≡ self.now.changes }
        ensures report { IsReport self.now }
    {
        self.changes.items()
    }

    /// The changes of sides and directions of rings, in order, where they were asked for.
    pub fn sides(&self) -> Option<&[SideChange]>
        ensures some { IfSome result (λ sides. self.now.sides ≡ Some sides.now) }
        ensures none { IfNone result (self.now.sides ≡ None) }
        ensures report { IsReport self.now }
    {
        match &self.sides {
            Some(sides) => Some(sides.items()),
            None => None,
        }
    }
}
