//! What may come next in a line.

use crate::words::GeometryKind;
use mm_decimal::MmRead;

/// Points in brackets; of a geometry with Z, whose points have heights, or without.
#[derive(Clone, Copy)]
pub enum Listing {
    /// One point at most.
    Dot { raised: bool },
    List { raised: bool },
    Ring { raised: bool },
}

/// What the items in brackets are, where they are no points of one path; those of a geometry with Z or without.
#[derive(Clone, Copy)]
pub enum ItemGroup {
    Rings { raised: bool },
    /// Dots, and points without brackets.
    Dots { raised: bool },
    Lists { raised: bool },
    Polygons { raised: bool },
    /// Each with a tag of its own.
    Geometries,
}

/// What is in brackets.
#[derive(Clone, Copy)]
pub enum Content {
    Points(Listing),
    Items(ItemGroup),
}

/// What may come between tokens.
#[derive(Clone, Copy)]
pub enum TokenPlace {
    /// An item of the innermost list that is open, or the line's geometry.
    Item,
    /// Z, or the content of a geometry without heights, after a tag.
    Tagged(GeometryKind),
    /// The content after Z.
    Content(Content),
    /// A point in brackets.
    First(Listing),
    /// The second number of such a point. The first one begins at this place.
    Second(Listing, MmRead, usize),
    /// The third number of such a point. The first one begins at this place.
    Third(Listing, MmRead, MmRead, usize),
    /// A point in brackets was read.
    Whole(Listing),
    /// The second number of a point without brackets, of a geometry with Z or without. The first one
    /// begins at this place.
    BareSecond(bool, MmRead, usize),
    /// The third number of such a point. The first one begins at this place.
    BareThird(MmRead, MmRead, usize),
    /// A point without brackets was read.
    BareWhole,
    /// An item was read that does not end in a point without brackets.
    Behind,
}

impl GeometryKind {
    ghost use Rattle.std.specs.Prelude.{◌≡◌};
    ghost use Rattle.wkt_layer.specs.InsideStates.{content_of};

    /// What comes after the kind's tag, with Z or without.
    pub fn content(self, raised: bool) -> Content
        ensures { result ≡ content_of self raised }
    {
        match self {
            GeometryKind::Point => Content::Points(Listing::Dot { raised }),
            GeometryKind::LineString => Content::Points(Listing::List { raised }),
            GeometryKind::Polygon => Content::Items(ItemGroup::Rings { raised }),
            GeometryKind::MultiPoint => Content::Items(ItemGroup::Dots { raised }),
            GeometryKind::MultiLineString => Content::Items(ItemGroup::Lists { raised }),
            GeometryKind::MultiPolygon => Content::Items(ItemGroup::Polygons { raised }),
            GeometryKind::Collection => Content::Items(ItemGroup::Geometries),
        }
    }
}

impl Listing {
    ghost use Rattle.std.specs.Prelude.{◌≡◌};
    ghost use Rattle.wkt_layer.specs.InsideStates.{is_raised};

    /// Whether the points have heights.
    pub fn is_raised(self) -> bool
        ensures { result ≡ is_raised self }
    {
        match self {
            Listing::Dot { raised } => raised,
            Listing::List { raised } => raised,
            Listing::Ring { raised } => raised,
        }
    }
}
