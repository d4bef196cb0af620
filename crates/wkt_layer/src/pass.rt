//! The sheet so far, while a layer is read.

ghost use Rattle.plane_base.specs.declared.shapes.Pt.{Pt};
ghost use Rattle.sheet_base.specs.PointHeights.{Height};
ghost use Rattle.std.specs.Prelude.{if◌then◌else◌, ◌≡◌, ◌+◌, ◌-◌, ◌^◌, ◌<◌, ◌≤◌, [], ◌∷◌, ◌++◌, ℕ, List, length, OnOk};
ghost use Rattle.std.specs.Prelude.{IfOk, Ok};
ghost use Rattle.sheet_base.specs.declared.paths.PathKind.TheVariants.{Loop};
ghost use Rattle.mm_decimal.specs.AnswerValues.{millimetres_of};
ghost use Rattle.wkt_layer.specs.Numbers.{Point, past_of};
ghost use Rattle.wkt_layer.specs.Paths.{Path, text_for};
ghost use Rattle.wkt_layer.specs.InsidePasses.{Held, IsThirdRead, height_read, lost_read};

use crate::stack::OpenGroups;
use mm_decimal::{MmRead, loss};
use plane_base::Pt;
use sheet_base::{Edit, Heights, PathKind, PathRow, What};
use std::alloc::{AllocError, Global};

/// What was read so far: paths with their edits, and after their points those of the path that is not whole yet.
#[derive(Drop)]
pub struct LinesRead {
    pub stack: OpenGroups,
    pub paths: Vec<PathRow>,
    pub points: Vec<Pt>,
    /// The height of each point, or none.
    pub heights: Heights,
    pub edits: Vec<Edit>,
    pub inexact: u64,
    /// The number of the next path's first point.
    pub first: usize,
    /// Where the first number of the path that is not whole yet begins.
    pub start: usize,
    /// Where the last number of that path ends.
    pub end: usize,
    /// Where the last opening bracket is.
    pub opened: usize,
}

/// The text of a path's edit.
fn text_for(kind: PathKind, path: u32) -> What
    ensures { result ≡ text_for kind path }
{
    match kind {
        PathKind::Dot => What::WktList { path },
        PathKind::Line => What::WktList { path },
        PathKind::Loop => What::WktRing { path },
    }
}

/// The point of two numbers.
fn point_from(x: MmRead, y: MmRead) -> Pt
    ensures { result ≡ record { x = x.mm; y = y.mm } }
{
    Pt { x: x.mm, y: y.mm }
}

/// Where a path begins whose next point begins here.
fn start_of(is_first: bool, start: usize, before: usize) -> usize
    ensures { result ≡ (if is_first then start else before) }
{
    if is_first { start } else { before }
}

/// Drops the closing point of a loop.
fn drop_closing(points: &mut Vec<Pt>, heights: &mut Heights, kind: PathKind)
    ensures closing { kind ≡ Loop → (front : List Pt) → (last : Pt) → points.old.items ≡ front ++ last ∷ [] → points.new.items ≡ front }
    ensures heights { kind ≡ Loop → (front : List Height) → (last : Height) → heights.old ≡ front ++ last ∷ [] → heights.new ≡ front }
    ensures others { (kind ≡ Loop → ⊥) → points.new.items ≡ points.old.items }
    ensures other_heights { (kind ≡ Loop → ⊥) → heights.new ≡ heights.old }
    ensures few { length points.new.items ≤ length points.old.items }
    ensures few_heights { length heights.new ≤ length heights.old }
{
    match kind {
        PathKind::Dot => (),
        PathKind::Line => (),
        PathKind::Loop => {
            let _ = points.pop();
            heights.pop();
        }
    }
}

/// The height that was read, or none, and 1 where it lost digits.
fn third_of(z: Option<MmRead>) -> (Option<i64>, u64)
    ensures height { result.0 ≡ height_read z }
    ensures lost { result.1 ≡ lost_read z }
    ensures few { result.1 ≤ 1 }
{
    match z {
        Some(read) => (Some(read.mm), loss(read)),
        None => (None, 0),
    }
}

impl LinesRead {
    /// Before the first token of a text of this many bytes: nothing is open, and there are no paths,
    /// points or edits. There is room for a point in every 16 bytes and for a path in every 20, as in
    /// most texts; lists that become longer take more.
    pub fn new(alloc: Global, size: usize) -> Result<LinesRead, AllocError>
        ensures stack { IfOk result (λ pass. pass.stack ≡ []) }
        ensures held { IfOk result (λ pass. Held pass [] []) }
        ensures start { IfOk result (λ pass. (pass.start ≡ 0) × (pass.end ≡ 0) × (pass.inexact ≡ 0)) }
        ensures opened { IfOk result (λ pass. pass.opened ≡ 0) }
    {
        Ok(LinesRead {
            stack: OpenGroups::none(alloc),
            paths: Vec::with_capacity(alloc, size / 20)?,
            points: Vec::with_capacity(alloc, size / 16)?,
            heights: Heights::none(alloc, 0),
            edits: Vec::with_capacity(alloc, size / 20)?,
            inexact: 0,
            first: 0,
            start: 0,
            end: 0,
            opened: 0,
        })
    }

    /// One point more of the path that is not whole yet, with its height where it has one; its numbers are from
    /// `start` to before `end`.
    pub fn add_point(
        &mut self,
        x: MmRead,
        y: MmRead,
        z: Option<MmRead>,
        start: usize,
        end: usize,
    ) -> Result<(), AllocError>
        requires inexact { self.old.inexact < 2 ^ 62 }
        requires heights { length self.old.heights < 2 ^ 32 }
        ensures held { OnOk result ((done : List Path) → (points : List Point) → (p : Point) → Held self.old done points
            → millimetres_of p.x.text ≡ Ok x → millimetres_of p.y.text ≡ Ok y → IsThirdRead p.z z → start ≡ p.x.start → end ≡ past_of p
            → Held self.new done (points ++ p ∷ [])) }
        ensures points { OnOk result (length self.new.points.items ≡ length self.old.points.items + 1) }
        ensures heights { OnOk result (length self.new.heights ≡ length self.old.heights + 1) }
        ensures paths { OnOk result (self.new.paths.items ≡ self.old.paths.items) }
        ensures first { OnOk result (self.new.first ≡ self.old.first) }
        ensures start { OnOk result ((bound : ℕ) → self.old.start ≤ bound → start ≤ bound → self.new.start ≤ bound) }
        ensures end { OnOk result (self.new.end ≡ end) }
        ensures inexact { OnOk result (self.new.inexact ≤ self.old.inexact + 3) }
        ensures stack { OnOk result (self.new.stack ≡ self.old.stack) }
        ensures opened { OnOk result (self.new.opened ≡ self.old.opened) }
    {
        self.start = start_of(self.points.len() == self.first, start, self.start);
        self.points.push(point_from(x, y))?;
        let (height, lost_third) = third_of(z);
        self.heights.push(height)?;
        self.end = end;
        self.inexact += loss(x) + loss(y) + lost_third;
        Ok(())
    }

    /// The path of the points that were added last is whole. A loop is kept without its last point.
    pub fn end_path(&mut self, kind: PathKind) -> Result<(), AllocError>
        requires points { length self.old.points.items < 2 ^ 32 }
        requires paths { length self.old.paths.items < 2 ^ 32 }
        requires first { self.old.first < 2 ^ 32 }
        requires start { self.old.start < 2 ^ 32 }
        requires end { self.old.end < 2 ^ 32 }
        ensures held { OnOk result ((done : List Path) → (one : Point) → (more : List Point) → Held self.old done (one ∷ more)
            → Held self.new (done ++ record { kind = kind; first = one; more = more } ∷ []) []) }
        ensures points { OnOk result (length self.new.points.items ≤ length self.old.points.items) }
        ensures heights { OnOk result (length self.new.heights ≤ length self.old.heights) }
        ensures paths { OnOk result (length self.new.paths.items ≡ length self.old.paths.items + 1) }
        ensures first { OnOk result (self.new.first ≡ length self.new.points.items) }
        ensures ends { OnOk result ((self.new.start ≡ self.old.start) × (self.new.end ≡ self.old.end)) }
        ensures inexact { OnOk result (self.new.inexact ≡ self.old.inexact) }
        ensures stack { OnOk result (self.new.stack ≡ self.old.stack) }
        ensures opened { OnOk result (self.new.opened ≡ self.old.opened) }
    {
        drop_closing(&mut self.points, &mut self.heights, kind);
        let number = self.paths.len() as u32;
        self.paths.push(PathRow {
            kind,
            first: self.first as u32,
            past: self.points.len() as u32,
        })?;
        self.edits.push(Edit {
            start: self.start as u32,
            end: self.end as u32,
            what: text_for(kind, number),
        })?;
        self.first = self.points.len();
        Ok(())
    }
}
