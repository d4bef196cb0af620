//! Why a layer is not read.

use mm_decimal::NumFault;
use std::alloc::{AllocError, AllocFailed};
use thiserror::Error;

/// Why bytes are not read as a layer. Each `at` is a place in bytes from 0, each `line` a line
/// number from 1. Each format says which of the faults it has, and which of them comes first.
#[derive(Clone, Copy, Debug, PartialEq, Eq, Drop, Error)]
pub enum LayerFault {
    /// The text does not continue that way.
    #[error("bad at {at}")]
    Bad { at: u64 },
    /// What nests begins too deep at `at`.
    #[error("deep at {at}")]
    Deep { at: u64 },
    /// The member's key, at `at`, is there a second time.
    #[error("repeat at {at}")]
    Repeat { at: u64 },
    /// A value of another form is at `at`, or an object lacks a member.
    #[error("shape at {at}")]
    Shape { at: u64 },
    /// A geometry or object of another kind is at `at`.
    #[error("kind at {at}")]
    Kind { at: u64 },
    /// A height, or the mark of one, is at `at`.
    #[error("height at {at}")]
    Height { at: u64 },
    /// The number text at `at` is not read.
    #[error("number at {at}: {fault}")]
    Number { at: u64, fault: NumFault },
    /// The number text at `at` loses digits.
    #[error("inexact at {at}")]
    Inexact { at: u64 },
    /// The ring that begins at `at` is not closed, or has fewer than four points.
    #[error("ring at {at}")]
    Ring { at: u64 },
    /// The bytes are a drawing in binary form.
    #[error("binary drawing")]
    Binary,
    /// The drawing ends without its last pair.
    #[error("no end of the drawing")]
    NoEof,
    /// The line is no group code.
    #[error("code at line {line}")]
    Code { line: u64 },
    /// The bytes end after the group code of this line.
    #[error("odd at line {line}")]
    Odd { line: u64 },
    /// An entity of another kind begins at this line.
    #[error("entity at line {line}")]
    Entity { line: u64 },
    /// The entity at this line is extruded in another direction.
    #[error("extrusion at line {line}")]
    Extrusion { line: u64 },
    /// The flags at this line are not those of a plane polyline.
    #[error("flags at line {line}")]
    Flags { line: u64 },
    /// A field is missing from the entity at this line, occurs at this line a second time, or counts
    /// another number.
    #[error("count at line {line}")]
    Count { line: u64 },
    /// The segment of the vertex at this line is bent.
    #[error("bulge at line {line}")]
    Bulge { line: u64 },
    /// The segment of the vertex at this line has a width.
    #[error("width at line {line}")]
    Width { line: u64 },
    /// The insert at this line has attributes.
    #[error("attribs at line {line}")]
    Attribs { line: u64 },
    /// The entity at this line needs a next handle, and the drawing gives none.
    #[error("seed at line {line}")]
    Seed { line: u64 },
    /// Memory ran out.
    #[error("no memory")]
    NoMemory,
}

impl From<AllocError> for LayerFault {
    ghost use Rattle.std.specs.Prelude.{◌≡◌};
    ghost use Rattle.sheet_base.specs.declared.faults.LayerFault.TheVariants.{NoMemory};

    ghost from_gives = { λ _ fault. fault ≡ NoMemory };

    fn from(_: AllocError) -> Self {
        LayerFault::NoMemory
    }
}

impl<T: Drop> From<AllocFailed<T>> for LayerFault {
    ghost use Rattle.std.specs.Prelude.{◌≡◌};
    ghost use Rattle.sheet_base.specs.declared.faults.LayerFault.TheVariants.{NoMemory};

    ghost from_gives = { λ _ fault. fault ≡ NoMemory };

    fn from(_: AllocFailed<T>) -> Self {
        LayerFault::NoMemory
    }
}
