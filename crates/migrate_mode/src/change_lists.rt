//! The changes that a run lists, and those of sides.

ghost use Rattle.std.specs.Prelude.{◌≡◌, ◌≤◌, IfOk, IfErr, length};
ghost use Rattle.topo_check.specs.declared.limits.TheConstants.{MOST_COMPARED};
ghost use Rattle.topo_check.specs.Changes.{AreAllComparable};
ghost use Rattle.report_text.specs.Reports.{DoSidesDiffer};
ghost use Rattle.migrate_mode.specs.RunChanges.{AreListed, is_some_listed};
ghost use Rattle.migrate_mode.specs.SideLists.{AreSidesOf};
ghost use Rattle.migrate_mode.specs.RunContents.{IsUnlisted, IsUnsided, MayBeSided};

use crate::refusals::{refuse_changes, refuse_sides};
use ring_side::{SideList, side_changes};
use runs::Refusal;
use sheet_base::{Images, Sheet};
use std::alloc::Global;
use tin_base::{Change, Piece, SoundTin};
use topo_check::changes;

/// The most changes of a run.
pub const MOST_CHANGES: u32 = 1 << 20;

/// The most changes of sides and directions of a run.
pub const MOST_SIDES: u32 = 1 << 20;

/// The changes of a run's pieces by rounding, where they are not too many.
pub fn list_changes(alloc: Global, tin: &SoundTin, pieces: &[Piece]) -> Result<Vec<Change>, Refusal>
    requires comparable { AreAllComparable tin.now pieces.now }
    requires count { length pieces.now ≤ MOST_COMPARED }
    ensures ok { IfOk result (λ changes. AreListed tin.now pieces.now changes.items) }
    ensures refused { IfErr result (λ refusal. IsUnlisted tin.now pieces.now refusal) }
{
    match changes(alloc, tin, pieces, MOST_CHANGES) {
        Ok(changes) => Ok(changes),
        Err(fault) => Err(refuse_changes(fault)),
    }
}

/// The changes of sides and directions of these layers, where they are asked for and not too many.
pub fn list_sides(
    alloc: Global,
    asked: bool,
    sheets: &[Sheet],
    images: &[Images],
) -> Result<Option<SideList>, Refusal>
    requires { MayBeSided asked sheets.now images.now }
    ensures ok { IfOk result (λ sides. AreSidesOf asked sheets.now images.now sides) }
    ensures differ { IfOk result (λ sides. DoSidesDiffer sides) }
    ensures refused { IfErr result (λ refusal. IsUnsided asked sheets.now images.now refusal) }
{
    if !asked {
        return Ok(None);
    }
    match side_changes(alloc, sheets, images, MOST_SIDES) {
        Ok(sides) => Ok(Some(SideList::of(sides))),
        Err(fault) => Err(refuse_sides(fault)),
    }
}

/// Whether there is a change or, where sides were asked for, one of these.
pub fn is_some_listed(changes: &[Change], sides: &Option<SideList>) -> bool
    ensures { result ≡ is_some_listed changes.now sides.now }
{
    match sides {
        Some(sides) => !sides.items().is_empty() || !changes.is_empty(),
        None => !changes.is_empty(),
    }
}
