//! What a migration is to do, and the triangulation through which it carries.

ghost use Rattle.std.specs.Prelude.{◌≡◌, ◌+◌, ◌≤◌, IfOk, IfErr};
ghost use Rattle.shelf_io.specs.Count.{Rose, count_after};
ghost use Rattle.runs.specs.declared.loads.TheConstants.{MOST_BYTES};
ghost use Rattle.runs.specs.Counts.{LeavesFaults};
ghost use Rattle.runs.specs.Loads.{IsTinUnready};
ghost use Rattle.runs.specs.Triangulations.{HasDirectedOver};

use runs::{Refusal, load_directed};
use sheet_base::{How, Listed};
use shelf_io::{Name, Shelf};
use std::alloc::Global;
use tin_index::TinIndex;

/// What a migration is to do.
#[derive(Drop)]
pub struct Migration {
    /// The name of the triangulation's file.
    pub tin: Name,
    /// The name of the folder into which the layers are written.
    pub out: Name,
    /// How files are read.
    pub how: How,
    /// Whether the triangulation's frames are exchanged before layers are carried.
    pub inverse: bool,
    /// Whether each layer's file is followed by that of its certificate.
    pub cert: bool,
    /// Whether the report lists the changes of sides and directions of rings.
    pub sides: bool,
    /// The names of the layers' files, in order.
    pub layers: Listed<Name>,
}

/// The sound triangulation of the file of this name, in which points are found; its frames are exchanged where
/// `inverse` is set.
pub fn load_index<S: Shelf>(
    alloc: Global,
    shelf: &mut S,
    name: &str,
    how: How,
    inverse: bool,
) -> Result<TinIndex, Refusal>
    ensures files { S.files shelf.new ≡ S.files shelf.old }
    ensures ok { IfOk result (λ tin. HasDirectedOver (S.files shelf.old) how name.now inverse tin) }
    ensures refused { IfErr result (λ refusal. IsTinUnready (S.files shelf.old) how name.now
        (Rose (S.faults shelf.old) (S.faults shelf.new))
        (count_after (S.given shelf.old) (MOST_BYTES + 1) ≤ S.given shelf.new) refusal) }
    ensures given { S.given shelf.old ≤ S.given shelf.new }
    ensures faults { LeavesFaults (S.faults shelf.old) (S.faults shelf.new) result }
{
    let tin = load_directed(alloc, shelf, name, how, inverse)?;
    let index = TinIndex::build(alloc, tin)?;
    Ok(index)
}
