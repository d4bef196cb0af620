//! A piece of a segment with its triangle, and the list of the pieces of one segment.

use frac128::Frac;
use plane_base::{End, Stretch};
use smallvec::SmallVec;

/// A piece of a segment: the number of its triangle, and the part of the segment that is in this triangle.
#[derive(Clone, Copy, Debug)]
pub struct Step {
    pub tri: u32,
    pub slice: Stretch,
}

/// What fills the room of a list that no piece is in yet.
impl Default for Step {
    fn default() -> Self {
        let start = Frac { num: 0, den: 1 };
        Step {
            tri: 0,
            slice: Stretch {
                lo: start,
                hi: start,
                enter: End::Vertex,
                leave: End::Vertex,
            },
        }
    }
}

/// The pieces of one segment. One or two, as most segments have, need no allocation.
pub type Steps = SmallVec<Step, 2>;
