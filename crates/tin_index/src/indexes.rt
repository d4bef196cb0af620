//! The index of a sound triangulation: triangles by a point, by a corner, and across a side.

ghost use Rattle.std.specs.Prelude.{◌≡◌, ◌≢◌, ◌↔◌, ℕ, ◌<◌, length, IsTrue, IfOk, IfSome, IfNone};
ghost use Rattle.plane_base.specs.Plane.{whole};
ghost use Rattle.tin_base.specs.declared.frames.Frame.TheVariants.{Source};
ghost use Rattle.tin_base.specs.Triangulation.{IsInTriangle};
ghost use Rattle.tin_base.specs.Images.{IsInSome};
ghost use Rattle.tin_index.specs.Boxes.{AreBoxesOf, IsNearCorners};
ghost use Rattle.tin_index.specs.Sides.{HasCorner, corner_of, next_of, IsAcross, IsStar};
ghost use Rattle.tin_index.specs.InsideSides.{IsOtherWith};

use crate::boxes::{box_of_all, boxes_of};
use crate::locations::{is_inside, locate_in};
use crate::stars::stars_of;
use cell_grid::Grid;
use number_groups::Groups;
use plane_base::{Pt, Rect};
use std::alloc::{AllocError, Global};
use std::marker::Model;
use tin_base::SoundTin;

/// A sound triangulation whose triangles can be found by a point, by a corner, and by a side of another.
#[derive(Debug, Drop)]
pub struct TinIndex {
    tin: SoundTin,
    // that of all corners
    round: Rect,
    // of the boxes of the source triangles
    grid: Grid,
    // the triangles of each corner
    stars: Groups,
}

/// The grid of the boxes of the source triangles, in order of their numbers.
fn grid_of(alloc: Global, tin: &SoundTin) -> Result<Grid, AllocError>
    ensures { IfOk result (λ grid. AreBoxesOf tin.now (length tin.now.triangles) grid.boxes) }
{
    tin.show_soundness();
    let boxes = boxes_of(alloc, tin)?;
    let grid = Grid::build(alloc, &boxes)?;
    Ok(grid)
}

impl Model for TinIndex {
    ghost use Rattle.tin_base.specs.Triangulation.{Triangulation};

    ghost Value = { Triangulation };

    ghost use Rattle.tin_index.specs.IndexFields.{view_of, HasInvariant};

    ghost view = { view_of };

    ghost invariant = { HasInvariant };
}

impl TinIndex {
    /// The index of a triangulation.
    pub fn build(alloc: Global, tin: SoundTin) -> Result<Self, AllocError>
        ensures { IfOk result (λ index. index ≡ tin) }
    {
        let grid = grid_of(alloc, &tin)?;
        let stars = stars_of(alloc, &tin)?;
        let round = box_of_all(&tin);
        Ok(TinIndex {
            tin,
            round,
            grid,
            stars,
        })
    }

    /// The triangulation that it was built of.
    pub fn tin(&self) -> &SoundTin
        ensures { result.now ≡ self.now }
    {
        &self.tin
    }

    /// The triangulation alone. The index is let go.
    pub fn into_tin(self) -> SoundTin
        ensures { result ≡ self }
    {
        self.tin
    }

    /// The number of the least source triangle that contains the point, or none where no triangle does. The point, in
    /// millimetres, may be anywhere.
    pub fn locate(&self, p: Pt) -> Option<u32>
        ensures found { IfSome result (λ triangle. (triangle < length self.now.triangles)
            × IsInTriangle self.now Source triangle (whole p)) }
        ensures least { IfSome result (λ triangle. (other : ℕ) → other < triangle → IsInTriangle self.now Source other (whole p) → ⊥) }
        ensures outside { IfNone result (IsInSome self.now Source (whole p) → ⊥) }
    {
        if !self.is_among_corners(p) {
            return None;
        }
        locate_in(&self.tin, &self.grid, p)
    }

    /// As `locate`. It is quicker where the point is inside of the triangle that is guessed; any number will do.
    pub fn locate_near(&self, p: Pt, guess: u32) -> Option<u32>
        ensures found { IfSome result (λ triangle. (triangle < length self.now.triangles)
            × IsInTriangle self.now Source triangle (whole p)) }
        ensures least { IfSome result (λ triangle. (other : ℕ) → other < triangle → IsInTriangle self.now Source other (whole p) → ⊥) }
        ensures outside { IfNone result (IsInSome self.now Source (whole p) → ⊥) }
    {
        if is_inside(&self.tin, guess, p) {
            return Some(guess);
        }
        self.locate(p)
    }

    /// True for each point that a triangle contains, and only for points near each corner. For any other point near
    /// them it may be either.
    pub fn is_among_corners(&self, p: Pt) -> bool
        ensures has { IsInSome self.now Source (whole p) → IsTrue result }
        ensures near { IsTrue result → IsNearCorners self.now p }
    {
        self.tin.show_soundness();
        self.round.has_point(p)
    }

    /// The numbers of the triangles that have the corner, ascending.
    pub fn around(&self, corner: u32) -> &[u32]
        requires { corner < length self.now.corners }
        ensures { IsStar self.now corner result.now }
    {
        self.stars.at(corner)
    }

    /// The number of the other triangle that has both corners of the triangle's side `side`, which goes from the corner
    /// of that number, 0 to 2, to the next. `None` comes exactly where there is no other. Of the two corners the one
    /// with fewer triangles is asked.
    pub fn across(&self, triangle: u32, side: u8) -> Option<u32>
        requires triangle { triangle < length self.now.triangles }
        requires side { side < 3 }
        ensures found { IfSome result (λ other. IsAcross self.now triangle side other) }
        ensures only { IfSome result (λ other. (u : ℕ) → IsAcross self.now triangle side u → u ≡ other) }
        ensures none { IfNone result ((u : ℕ) → IsAcross self.now triangle side u → ⊥) }
    {
        self.tin.show_soundness();
        let first = self.corner_of(triangle, side);
        let second = self.corner_of(triangle, next_of(side));
        if self.around(second).len() < self.around(first).len() {
            self.other_with(triangle, second, first)
        } else {
            self.other_with(triangle, first, second)
        }
    }

    /// The first other triangle of those round a corner that has this second corner, too.
    fn other_with(&self, triangle: u32, corner: u32, second: u32) -> Option<u32>
        requires { corner < length self.now.corners }
        ensures found { IfSome result (λ other. IsOtherWith self.now triangle corner second other) }
        ensures none { IfNone result ((other : ℕ) → IsOtherWith self.now triangle corner second other → ⊥) }
    {
        let star = self.around(corner);
        for place in 0..star.len() {
            let other = star[place];
            if self.is_across(triangle, second, other) {
                return Some(other);
            }
        }
        None
    }

    /// Whether it is another triangle than the first, and has the corner.
    fn is_across(&self, triangle: u32, corner: u32, other: u32) -> bool
        requires { other < length self.now.triangles }
        ensures { IsTrue result ↔ ((other ≢ triangle) × HasCorner self.now other corner) }
    {
        other != triangle && self.has_corner(other, corner)
    }

    /// Whether the triangle has the corner.
    fn has_corner(&self, triangle: u32, corner: u32) -> bool
        requires { triangle < length self.now.triangles }
        ensures { IsTrue result ↔ HasCorner self.now triangle corner }
    {
        self.tin.triangles()[triangle as usize].contains(&corner)
    }

    /// The number of a corner of the triangle.
    fn corner_of(&self, triangle: u32, k: u8) -> u32
        requires triangle { triangle < length self.now.triangles }
        requires k { k < 3 }
        ensures value { result ≡ corner_of self.now triangle k }
        ensures in_range { result < length self.now.corners }
    {
        self.tin.triangles()[triangle as usize][k as usize]
    }
}

/// The corner after the k-th.
fn next_of(k: u8) -> u8
    requires { k < 3 }
    ensures value { result ≡ next_of k }
    ensures in_range { result < 3 }
{
    match k {
        0 => 1,
        1 => 2,
        _ => 0,
    }
}
