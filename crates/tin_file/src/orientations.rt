//! Triangles turned so that none is clockwise in the source.

ghost use Rattle.std.specs.Prelude.{◌≡◌, ◌<◌, [], ◌∷◌, length, map};
ghost use Rattle.tin_file.specs.Corners.{counterclockwise_face};
ghost use Rattle.tin_file.specs.RowContents.{AreNear, AreFacesOf};

use plane_base::turn;
use tin_base::{Corner, Frame};

/// The triangle with its last two corners exchanged where it is clockwise.
fn orient_one(corners: &[Corner], first: u32, second: u32, third: u32) -> [u32; 3]
    requires near { AreNear corners.now }
    requires first { first < length corners.now }
    requires second { second < length corners.now }
    requires third { third < length corners.now }
    ensures { result ≡ counterclockwise_face corners.now (first ∷ second ∷ third ∷ []) }
{
    let a = corners[first as usize].at(Frame::Source);
    let b = corners[second as usize].at(Frame::Source);
    let c = corners[third as usize].at(Frame::Source);
    if turn(a, b, c) < 0 {
        [first, third, second]
    } else {
        [first, second, third]
    }
}

/// Exchanges the last two corners of each clockwise triangle.
pub fn orient(corners: &[Corner], triangles: &mut [[u32; 3]])
    requires near { AreNear corners.now }
    requires faces { AreFacesOf corners.now triangles.old }
    ensures { triangles.new ≡ map (counterclockwise_face corners.now) triangles.old }
{
    for triangle in triangles.iter_mut() {
        let [first, second, third] = *triangle;
        *triangle = orient_one(corners, first, second, third);
    }
}
