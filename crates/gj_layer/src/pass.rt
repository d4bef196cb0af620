//! The sheet so far, while a layer is read.

ghost use Rattle.std.specs.Prelude.{◌≡◌, ◌+◌, ◌<◌, ◌^◌, List, length, OnOk, IfOk};
ghost use Rattle.sheet_base.specs.PointHeights.{Position};
ghost use Rattle.gj_layer.specs.Paths.{Part, nothing, joint_part, text_for, vertices_of};
ghost use Rattle.gj_layer.specs.InsideNodes.{Holds, HoldsMore, path_part};

use crate::positions::PositionRun;
use plane_base::Pt;
use sheet_base::{Edit, Heights, PathKind, PathRow, What};
use std::alloc::{AllocError, Global};

/// What was read so far.
#[derive(Drop)]
pub struct PathsRead {
    pub paths: Vec<PathRow>,
    pub points: Vec<Pt>,
    pub heights: Heights,
    pub edits: Vec<Edit>,
    pub inexact: u64,
}

/// The text of a path's edit.
fn text_for(kind: PathKind, path: u32) -> What
    ensures { result ≡ text_for kind path }
{
    match kind {
        PathKind::Dot => What::GeoList { path },
        PathKind::Line => What::GeoList { path },
        PathKind::Loop => What::GeoRing { path },
    }
}

impl PathsRead {
    /// Nothing yet, of a document of this many nodes. There is room for a point in every 6 of them and
    /// for a path in every 16, as in most documents; lists that become longer take more.
    pub fn new(alloc: Global, nodes: usize) -> Result<PathsRead, AllocError>
        ensures holds { IfOk result (λ pass. Holds pass nothing) }
        ensures empty { IfOk result (λ pass. (length pass.points.items ≡ 0) × (length pass.heights ≡ 0)
            × (length pass.paths.items ≡ 0) × (pass.inexact ≡ 0)) }
    {
        Ok(PathsRead {
            paths: Vec::with_capacity(alloc, nodes / 16)?,
            points: Vec::with_capacity(alloc, nodes / 6)?,
            heights: Heights::none(alloc, 0),
            edits: Vec::with_capacity(alloc, nodes / 16)?,
            inexact: 0,
        })
    }

    /// The points from this number on are a path, which is where the run is.
    pub fn end_path(
        &mut self,
        kind: PathKind,
        first: usize,
        run: PositionRun,
    ) -> Result<(), AllocError>
        requires paths { length self.old.paths.items < 2 ^ 32 }
        requires points { length self.old.points.items < 2 ^ 32 }
        requires first { first < 2 ^ 32 }
        requires inexact { self.old.inexact + run.lost < 2 ^ 64 }
        ensures holds { OnOk result ((part : Part) → (positions : List Position) → HoldsMore self.old part positions
            → first ≡ length (vertices_of part.paths)
            → Holds self.new (joint_part part (path_part (length part.paths)
            (record { kind = kind; positions = positions; lost = run.lost; start = run.start; end = run.end })))) }
        ensures points { OnOk result (self.new.points.items ≡ self.old.points.items) }
        ensures heights { OnOk result (self.new.heights ≡ self.old.heights) }
        ensures paths { OnOk result (length self.new.paths.items ≡ length self.old.paths.items + 1) }
        ensures inexact { OnOk result (self.new.inexact ≡ self.old.inexact + run.lost) }
    {
        let number = self.paths.len() as u32;
        self.paths.push(PathRow {
            kind,
            first: first as u32,
            past: self.points.len() as u32,
        })?;
        self.edits.push(Edit {
            start: run.start,
            end: run.end,
            what: text_for(kind, number),
        })?;
        self.inexact += run.lost;
        Ok(())
    }
}
