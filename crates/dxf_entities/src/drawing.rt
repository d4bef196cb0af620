//! The sheet of a drawing, as far as it is read.

ghost use Rattle.std.specs.Prelude.{◌≡◌, ◌≤◌, ◌^◌, [], ◌∷◌, length, OnOk};
ghost use Rattle.dxf_entities.specs.Shapes.{value_edit, lost_count, lost_of, spot_edits};
ghost use Rattle.dxf_entities.specs.DrawingContents.{contents_of, with_point, with_raised, with_edits, with_rows, HoldsAtMost};

use crate::fields::Read;
use dxf_pairs::Pair;
use plane_base::Pt;
use sheet_base::{Edit, Heights, PathKind, PathRow, What};
use std::alloc::{AllocError, Global};

/// A point's two coordinates.
#[derive(Clone, Copy)]
pub struct PointFields {
    pub x: Read,
    pub y: Read,
}

/// The heights of a line's two ends.
#[derive(Clone, Copy)]
pub struct Rise {
    pub begin: Read,
    pub end: Read,
}

/// A vertex of a polyline: its point, where its text starts, and the place past that.
#[derive(Clone, Copy)]
pub struct VertexFields {
    pub spot: PointFields,
    pub start: u32,
    pub past: u32,
}

/// Paths, points with their heights, and edits so far; the edits are in order of the entities.
#[derive(Drop)]
pub struct Drawing {
    pub paths: Vec<PathRow>,
    pub points: Vec<Pt>,
    pub heights: Heights,
    pub edits: Vec<Edit>,
    pub inexact: u64,
    pub dropped: u64,
}

/// The edit of a field's value.
#[inline(always)]
pub fn value_edit(what: What, pair: &Pair) -> Edit
    ensures { result ≡ value_edit what pair.now }
{
    Edit {
        start: pair.value,
        end: pair.value_end,
        what,
    }
}

/// 1 where a number lost digits.
#[inline(always)]
fn lost_count(lost: bool) -> u64
    ensures count { result ≡ lost_count lost }
    ensures few { result ≤ 1 }
{
    if lost { 1 } else { 0 }
}

/// How many numbers of a point lost digits.
#[inline(always)]
fn lost_of(spot: &PointFields) -> u64
    ensures count { result ≡ lost_of spot.now }
    ensures few { result ≤ 2 }
{
    lost_count(spot.x.lost) + lost_count(spot.y.lost)
}

impl Drawing {
    /// Nothing is read yet.
    pub fn new(alloc: Global) -> Self
        ensures { contents_of result ≡ record { paths = []; points = []; heights = []; edits = []; inexact = 0; dropped = 0 } }
    {
        Drawing {
            paths: Vec::new(alloc),
            points: Vec::new(alloc),
            heights: Heights::none(alloc, 0),
            edits: Vec::new(alloc),
            inexact: 0,
            dropped: 0,
        }
    }

    /// The number of the next point.
    #[inline(always)]
    pub fn point(&self) -> u32
        requires { HoldsAtMost (2 ^ 31) (contents_of self.now) }
        ensures { result ≡ length (contents_of self.now).points }
    {
        self.points.len() as u32
    }

    /// The number of the next path.
    #[inline(always)]
    pub fn path(&self) -> u32
        requires { HoldsAtMost (2 ^ 31) (contents_of self.now) }
        ensures { result ≡ length (contents_of self.now).paths }
    {
        self.paths.len() as u32
    }

    /// Adds a point without a height.
    #[inline(always)]
    pub fn add_point(&mut self, spot: &PointFields) -> Result<(), AllocError>
        requires { HoldsAtMost (2 ^ 31) (contents_of self.old) }
        ensures { OnOk result (contents_of self.new ≡ with_point (contents_of self.old) spot.now) }
    {
        self.points.push(Pt {
            x: spot.x.mm,
            y: spot.y.mm,
        })?;
        self.heights.push(None)?;
        self.inexact += lost_of(spot);
        Ok(())
    }

    /// Adds a point with a height.
    pub fn add_raised(&mut self, spot: &PointFields, height: &Read) -> Result<(), AllocError>
        requires { HoldsAtMost (2 ^ 31) (contents_of self.old) }
        ensures { OnOk result (contents_of self.new ≡ with_raised (contents_of self.old) spot.now height.now) }
    {
        self.points.push(Pt {
            x: spot.x.mm,
            y: spot.y.mm,
        })?;
        self.heights.push(Some(height.mm))?;
        self.inexact += lost_of(spot) + lost_count(height.lost);
        Ok(())
    }

    /// Adds an edit.
    #[inline(always)]
    pub fn add_edit(&mut self, edit: Edit) -> Result<(), AllocError>
        ensures { OnOk result (contents_of self.new ≡ with_edits (contents_of self.old) (edit ∷ [])) }
    {
        self.edits.push(edit)?;
        Ok(())
    }

    /// Adds the edits of a point's values.
    #[inline(always)]
    pub fn add_spot_edits(&mut self, point: u32, spot: &PointFields) -> Result<(), AllocError>
        ensures { OnOk result (contents_of self.new ≡ with_edits (contents_of self.old) (spot_edits point spot.now)) }
    {
        self.edits
            .push(value_edit(What::X { point }, &spot.x.pair))?;
        self.edits
            .push(value_edit(What::Y { point }, &spot.y.pair))?;
        Ok(())
    }

    /// Adds the path of the points from one number to before another.
    #[inline(always)]
    pub fn add_path(&mut self, kind: PathKind, first: u32, past: u32) -> Result<(), AllocError>
        ensures { OnOk result (contents_of self.new ≡ with_rows (contents_of self.old)
            (record { kind = kind; first = first; past = past } ∷ [])) }
    {
        self.paths.push(PathRow { kind, first, past })?;
        Ok(())
    }
}
