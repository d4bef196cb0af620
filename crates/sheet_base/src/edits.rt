//! The changes of a layer's bytes: places, and what takes the place of the bytes there.

ghost use Rattle.std.specs.Prelude.{◌≡◌};
ghost use Rattle.sheet_base.specs.EditStarts.{path_of, point_of};

/// The text that takes the place of an edit's bytes. Paths and points are named by their numbers in the sheet.
/// A path's image list has the images of its points, each with those of the crossings after it.
#[derive(Clone, Copy, PartialEq, Eq)]
pub enum What {
    /// The path's image list in well-known text.
    WktList { path: u32 },
    /// The path's image list in well-known text, and its first image again.
    WktRing { path: u32 },
    /// The path's image list as GeoJSON positions.
    GeoList { path: u32 },
    /// The path's image list as GeoJSON positions, and its first image again.
    GeoRing { path: u32 },
    /// The least box of the images of the paths from the number `first` to before the number `past`.
    Bounds { first: u32, past: u32 },
    /// The word `null`.
    Null,
    /// The x of the point's image.
    X { point: u32 },
    /// The y of the point's image.
    Y { point: u32 },
    /// The fields 10 and 20 of a vertex for each crossing after the point.
    Vertices { point: u32 },
    /// The number of images of the points from the number `first` to before the number `past`.
    Tally { first: u32, past: u32 },
    /// A copy of a line's entity for each of its pieces.
    Lines { path: u32 },
    /// A copy of a vertex's entity for the point's image and for each crossing after it.
    Vertex { point: u32 },
    /// The handle after the last one that was given.
    NextHandle,
    /// Nothing.
    Drop,
}

impl What {
    /// The path whose whole list of images, or whole entity, is written; none where that of no path is.
    pub fn path(self) -> Option<u32>
        ensures { result ≡ path_of self }
    {
        match self {
            What::WktList { path }
            | What::WktRing { path }
            | What::GeoList { path }
            | What::GeoRing { path }
            | What::Lines { path } => Some(path),
            _ => None,
        }
    }

    /// The point whose image begins to be written; none where that of no point does.
    pub fn point(self) -> Option<u32>
        ensures { result ≡ point_of self }
    {
        match self {
            What::X { point } | What::Vertex { point } => Some(point),
            _ => None,
        }
    }
}

/// A change of a layer's bytes: what takes the place of those from `start` to before `end`, counted from 0.
#[derive(Clone, Copy, PartialEq, Eq)]
pub struct Edit {
    pub start: u32,
    pub end: u32,
    pub what: What,
}
