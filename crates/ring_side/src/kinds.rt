//! Sides of a ring, directions of a ring, and their changes.

/// The side of a ring that a point is on.
#[derive(Clone, Copy, PartialEq, Eq, Debug)]
pub enum Side {
    /// It is on none of the ring's segments, and a ray from it crosses an odd number of them.
    Inside,
    /// It is on one of the ring's segments.
    Border,
    /// It is on none of the ring's segments, and a ray from it crosses an even number of them.
    Outside,
}

/// The direction of a ring: the sign of its signed area.
#[derive(Clone, Copy, PartialEq, Eq, Debug)]
pub enum Way {
    /// Counterclockwise where the ring does not meet itself.
    Positive,
    /// Clockwise where the ring does not meet itself.
    Negative,
    /// The signed area is zero.
    Zero,
}

/// A point of a path: the layer, the path in it, and the vertex in that, each from 0.
#[derive(Clone, Copy, PartialEq, Eq, Debug)]
pub struct Spot {
    pub layer: u32,
    pub path: u32,
    pub vertex: u32,
}

/// What changed of a ring. The numbers of layer and path are the ring's.
#[derive(Clone, Copy, PartialEq, Eq, Debug)]
pub enum SideChange {
    /// The ring has another direction.
    Turn {
        layer: u32,
        path: u32,
        was: Way,
        now: Way,
    },
    /// A point is on another side of the ring.
    Point {
        layer: u32,
        path: u32,
        at: Spot,
        was: Side,
        now: Side,
    },
}
