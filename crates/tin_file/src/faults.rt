//! Why bytes are not read as a triangulation.

use mm_decimal::NumFault;
use std::alloc::{AllocError, AllocFailed};
use thiserror::Error;
use tin_base::{Axis, Frame};

/// The value of a triangulation file, and its members that are read.
#[derive(Clone, Copy, Debug, PartialEq, Eq)]
pub enum Top {
    /// The whole value.
    Whole,
    FileType,
    FormatVersion,
    Strategy,
    Components,
    VerticesColumns,
    TrianglesColumns,
    Vertices,
    Triangles,
}

impl Top {
    ghost use Rattle.std.specs.Prelude.{◌≡◌};
    ghost use Rattle.tin_file.specs.Keys.{key_of};

    /// The key as it is in the file format, and `top` for the whole value.
    pub fn key(self) -> &'static [u8]
        ensures { result.now ≡ key_of self }
    {
        match self {
            Top::Whole => b"top".as_slice(),
            Top::FileType => b"file_type".as_slice(),
            Top::FormatVersion => b"format_version".as_slice(),
            Top::Strategy => b"fallback_strategy".as_slice(),
            Top::Components => b"transformed_components".as_slice(),
            Top::VerticesColumns => b"vertices_columns".as_slice(),
            Top::TrianglesColumns => b"triangles_columns".as_slice(),
            Top::Vertices => b"vertices".as_slice(),
            Top::Triangles => b"triangles".as_slice(),
        }
    }
}

/// The two lists of rows.
#[derive(Clone, Copy, Debug, PartialEq, Eq)]
pub enum Rows {
    Vertices,
    Triangles,
}

/// What is taken for a point outside all triangles.
#[derive(Clone, Copy, Debug, PartialEq, Eq)]
pub enum Nearest {
    Side,
    Centroid,
}

/// Why bytes are not read as a triangulation. Places are bytes from 0; rows and triangles are
/// counted from 0, as in the file.
#[derive(Clone, Copy, Debug, PartialEq, Eq, Drop, Error)]
pub enum TinFault {
    /// The bytes are no JSON text: the first `at` bytes begin one, and no longer front does.
    #[error("json at {at}")]
    Json { at: u64 },
    /// An array or object too deep begins at `at`.
    #[error("deep at {at}")]
    Deep { at: u64 },
    /// The member is repeated, is missing or has another form.
    #[error("a member is missing, repeated or of another form")]
    Key { which: Top },
    /// The format's version is neither `1.0` nor `1.1`.
    #[error("another version of the format")]
    Version,
    /// Points outside are to be carried by what is nearest.
    #[error("fallback to what is nearest")]
    Fallback { which: Nearest },
    /// The file transforms no horizontal coordinates.
    #[error("no horizontal component")]
    NoHorizontal,
    /// The file transforms no heights, which `read_tall` asks for.
    #[error("no vertical component")]
    NoVertical,
    /// The list has too many rows.
    #[error("too many rows")]
    TooMany { list: Rows },
    /// The row has another form.
    #[error("row {row} has another form")]
    Row { list: Rows, row: u32 },
    /// A number text of a vertex row is not read.
    #[error("number in row {row}: {fault}")]
    Number { row: u32, fault: NumFault },
    /// A number text of a vertex row loses digits.
    #[error("inexact in row {row}")]
    Inexact { row: u32 },
    /// An earlier vertex row is the same corner with another offset, for `read_tall`.
    #[error("offset in row {row}")]
    Offset { row: u32 },
    /// The triangle names a vertex row that is not there.
    #[error("index in triangle {triangle}")]
    Index { triangle: u32 },
    /// The corners are too far apart on this axis of this frame.
    #[error("corners too far apart")]
    Span { frame: Frame, axis: Axis },
    /// Memory ran out.
    #[error("no memory")]
    NoMemory,
}

impl From<AllocError> for TinFault {
    ghost use Rattle.std.specs.Prelude.{◌≡◌};
    ghost use Rattle.tin_file.specs.declared.faults.TinFault.TheVariants.{NoMemory};

    ghost from_gives = { λ _ fault. fault ≡ NoMemory };

    fn from(_: AllocError) -> Self {
        TinFault::NoMemory
    }
}

impl<T: Drop> From<AllocFailed<T>> for TinFault {
    ghost use Rattle.std.specs.Prelude.{◌≡◌};
    ghost use Rattle.tin_file.specs.declared.faults.TinFault.TheVariants.{NoMemory};

    ghost from_gives = { λ _ fault. fault ≡ NoMemory };

    fn from(_: AllocFailed<T>) -> Self {
        TinFault::NoMemory
    }
}
