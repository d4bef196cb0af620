//! A corner of a triangulation, with its place in each frame.

ghost use Rattle.std.specs.Prelude.{◌≡◌};
ghost use Rattle.plane_base.specs.Plane.{whole};

use crate::Frame;
use plane_base::Pt;

/// A corner of a triangulation: its place in the source frame and its place in the target frame, in millimetres.
#[derive(Clone, Copy, PartialEq, Eq, Debug)]
pub struct Corner {
    pub sx: i64,
    pub sy: i64,
    pub tx: i64,
    pub ty: i64,
}

impl Corner {
    ghost use Rattle.tin_base.specs.Triangulation.{place};
    ghost use Rattle.tin_base.specs.ExchangedFrames.{exchanged_corner};

    /// Where the corner is in a frame.
    pub fn at(self, frame: Frame) -> Pt
        ensures { whole result ≡ place frame self }
    {
        match frame {
            Frame::Source => Pt {
                x: self.sx,
                y: self.sy,
            },
            Frame::Target => Pt {
                x: self.tx,
                y: self.ty,
            },
        }
    }

    /// The corner with its frames exchanged.
    pub fn with_frames_exchanged(self) -> Self
        ensures { result ≡ exchanged_corner self }
    {
        Corner {
            sx: self.tx,
            sy: self.ty,
            tx: self.sx,
            ty: self.sy,
        }
    }
}
