//! Boxes in the target frame, each of the exact images of a piece's points and of its rounded segment.
ghost use Rattle.std.specs.Prelude.{◌≡◌, IfSome};
ghost use Rattle.plane_base.specs.Boxes.{HasPoint};
ghost use Rattle.tin_base.specs.Pieces.{IsPieceInside};
ghost use Rattle.topo_check.specs.InsideBoxes.{IsExactBox};
ghost use Rattle.topo_check.specs.InsideImages.{IsImageBox, displacement_of, moved_by};

use crate::boxes::rounded_box;
use crate::limits::MOST_SPREAD;
use plane_base::{Pt, Rect, Tri};
use tin_base::{Frame, Piece, SoundTin};

/// A box, in millimetres, of the images of the exact piece's points and of the rounded segment, from a box that the
/// exact piece is in. There is none where the corners of the triangle do not go about as far from one frame to the
/// other, or where the box of the triangle in the target frame does not have the rounded segment.
pub(crate) fn image_box(tin: &SoundTin, piece: &Piece, exact: &Rect) -> Option<Rect>
    requires inside { IsPieceInside tin.now piece.now }
    requires exact { IsExactBox tin.now piece.now exact.now }
    ensures { IfSome result (λ box. IsImageBox tin.now piece.now box) }
{
    let source = tin.tri(piece.tri, Frame::Source);
    let target = tin.tri(piece.tri, Frame::Target);
    let displacements = displacements(&source, &target)?;
    if !is_narrow(&displacements, exact) {
        return None;
    }
    let outer = Rect::of_triangle(&target);
    if !outer.has_point(piece.ia) {
        return None;
    }
    if !outer.has_point(piece.ib) {
        return None;
    }
    let images = move_box(exact, &displacements)?.common(&outer);
    Some(images.with_box(&rounded_box(piece)))
}

// The box of how far the three corners of a triangle go from one frame to the other.
fn displacements(source: &Tri, target: &Tri) -> Option<Rect>
    ensures a { IfSome result (λ box. HasPoint box (displacement_of source.now.a target.now.a)) }
    ensures b { IfSome result (λ box. HasPoint box (displacement_of source.now.b target.now.b)) }
    ensures c { IfSome result (λ box. HasPoint box (displacement_of source.now.c target.now.c)) }
{
    let all = Tri {
        a: displacement(source.a, target.a)?,
        b: displacement(source.b, target.b)?,
        c: displacement(source.c, target.c)?,
    };
    Some(Rect::of_triangle(&all))
}

// How far it is from one point to another on each axis, where 64 bits have it.
fn displacement(from: Pt, to: Pt) -> Option<Pt>
    ensures { IfSome result (λ way. way ≡ displacement_of from to) }
{
    Some(Pt {
        x: to.x.checked_sub(from.x)?,
        y: to.y.checked_sub(from.y)?,
    })
}

// The box of all points of a box, each moved as far as each point of the other says, where 64 bits have it.
fn move_box(rect: &Rect, displacements: &Rect) -> Option<Rect>
    ensures { IfSome result (λ box. box ≡ moved_by displacements.now rect.now) }
{
    Some(Rect {
        x0: rect.x0.checked_add(displacements.x0)?,
        y0: rect.y0.checked_add(displacements.y0)?,
        x1: rect.x1.checked_add(displacements.x1)?,
        y1: rect.y1.checked_add(displacements.y1)?,
    })
}

// Whether a box that is moved so is not much larger than it was. It decides only which grids are made.
fn is_narrow(displacements: &Rect, rect: &Rect) -> bool {
    let most = MOST_SPREAD.saturating_add(width(rect).saturating_add(height(rect)) / 4);
    width(displacements) <= most && height(displacements) <= most
}

fn width(rect: &Rect) -> i64 {
    rect.x1.saturating_sub(rect.x0)
}

fn height(rect: &Rect) -> i64 {
    rect.y1.saturating_sub(rect.y0)
}
