//! A change with the places of its two sides on the map and in the layers.

use layer_features::{Label, TextPart};
use plane_base::Pt;
use ring_side::SideChange;
use tin_base::{Place, Rel};

/// Where a path is written in its layer, and which feature it belongs to. Parts are those of the texts that are kept of
/// the layer.
#[derive(Clone, Copy, PartialEq, Eq, Debug)]
pub struct PathSpot {
    /// Where it begins: a byte from 0, or in a drawing a line from 1.
    pub at: Option<u32>,
    /// Its feature: the number in a FeatureCollection, from 0; the line at which it begins, from 1; or the handle.
    pub feature: Option<Label>,
    /// The value of the feature's member `id`.
    pub id: Option<TextPart>,
    /// The value of the member of the feature's properties that was asked for.
    pub name: Option<TextPart>,
}

/// One side of a change: a piece as it is written.
#[derive(Clone, Copy, PartialEq, Eq, Debug)]
pub struct SideSpot {
    /// Where the piece comes from.
    pub from: Place,
    /// Where the piece's path is written.
    pub spot: PathSpot,
    /// The written end at which the piece begins, in millimetres of the target frame.
    pub a: Pt,
    /// The written end at which it ends.
    pub b: Pt,
}

/// A change with its two sides: two pieces whose relation was `was` in the source and is `now` as they are written.
#[derive(Clone, Copy, PartialEq, Eq, Debug)]
pub struct ChangeSpot {
    pub first: SideSpot,
    pub second: SideSpot,
    pub was: Rel,
    pub now: Rel,
    /// The least distance of the two written segments in whole millimetres, rounded half up.
    pub gap: u64,
    /// Where the change is, in millimetres of the target frame: the written end that is nearest to the other segment.
    pub place: Pt,
}

/// A change of a ring's direction, or of the side of a ring on which a point is.
#[derive(Clone, Copy, PartialEq, Eq, Debug)]
pub struct RingSpot {
    pub change: SideChange,
    /// Where the ring is written.
    pub ring: PathSpot,
    /// Where the path of the point is written. It is not printed where the direction changed.
    pub point: PathSpot,
    /// Where the change is, in millimetres of the target frame: the written point, or else the first vertex of the ring.
    pub place: Pt,
}

/// How changes are printed.
#[derive(Clone, Copy, PartialEq, Eq, Debug)]
pub struct Style {
    /// As lines, and not as points.
    pub lines: bool,
    /// With a member of the properties of features.
    pub named: bool,
}
