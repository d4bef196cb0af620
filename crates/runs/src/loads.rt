//! The files that a job reads.

ghost use Rattle.std.specs.Prelude.{◌≡◌, ◌≢◌, ◌+◌, ◌≤◌, vec_len, IfOk, IfErr, IfSome, OnOk};
ghost use Rattle.shelf_io.specs.Count.{Rose, count_after};
ghost use Rattle.shelf_io.specs.Load.{Loads};
ghost use Rattle.runs.specs.declared.status.Status.TheVariants.{Read as ReadStatus, Limit as LimitStatus};
ghost use Rattle.runs.specs.Refusals.{status_of};
ghost use Rattle.runs.specs.Counts.{LeavesFaults};
ghost use Rattle.runs.specs.Loads.{IsUnloaded, IsTinUnready};
ghost use Rattle.runs.specs.Triangulations.{HasTinOver, HasDirectedOver, directed_tin};

use crate::refusal::Refusal;
use crate::triangulations::sound_tin;
use sheet_base::How;
use shelf_io::{LoadFault, Shelf, load};
use std::alloc::Global;
use tin_base::{SoundTin, turned};

/// The most bytes of a triangulation's file, and of all layers' files together.
pub const MOST_BYTES: u64 = tin_file::MOST_BYTES as u64;

/// The most bytes of a written layer's file, and of a certificate's.
pub const MOST_VERIFIED: u64 = 1 << 28;

/// The bytes of a file, at most `most` of them. The error is `unread` where the file is missing or a read failed,
/// `long` where it has more bytes, and `NoMemory`. The shelf's files stay as they are.
pub fn load_file<S: Shelf>(
    alloc: Global,
    shelf: &mut S,
    name: &str,
    most: u64,
    unread: Refusal,
    long: Refusal,
) -> Result<Vec<u8>, Refusal>
    requires most { most ≤ MOST_VERIFIED }
    requires unread { status_of unread ≡ ReadStatus }
    requires long { status_of long ≡ LimitStatus }
    ensures files { S.files shelf.new ≡ S.files shelf.old }
    ensures ok { IfOk result (λ bytes. IfSome (S.files shelf.old) (Loads name.now bytes.items)) }
    ensures within { IfOk result (λ bytes. vec_len bytes ≤ most) }
    ensures refused { IfErr result (λ refusal. IsUnloaded (S.files shelf.old) name.now most unread long
        (Rose (S.faults shelf.old) (S.faults shelf.new))
        (count_after (S.given shelf.old) (most + 1) ≤ S.given shelf.new) refusal) }
    ensures given { IfOk result (λ bytes. count_after (S.given shelf.old) (vec_len bytes) ≤ S.given shelf.new) }
    ensures given_later { S.given shelf.old ≤ S.given shelf.new }
    ensures faults { LeavesFaults (S.faults shelf.old) (S.faults shelf.new) result }
{
    match load(alloc, shelf, name, most) {
        Ok(bytes) => Ok(bytes),
        Err(LoadFault::Missing) => Err(unread),
        Err(LoadFault::Failed) => Err(unread),
        Err(LoadFault::Long) => Err(long),
        Err(LoadFault::NoMemory) => Err(Refusal::NoMemory),
    }
}

/// The sound triangulation of the file of this name. The error is that of the file, at most `MOST_BYTES` long, or of
/// its text: the first fault of reading it, or else of its soundness.
pub fn load_tin<S: Shelf>(
    alloc: Global,
    shelf: &mut S,
    name: &str,
    how: How,
) -> Result<SoundTin, Refusal>
    ensures files { S.files shelf.new ≡ S.files shelf.old }
    ensures ok { IfOk result (λ tin. HasTinOver (S.files shelf.old) how name.now tin) }
    ensures refused { IfErr result (λ refusal. IsTinUnready (S.files shelf.old) how name.now
        (Rose (S.faults shelf.old) (S.faults shelf.new))
        (count_after (S.given shelf.old) (MOST_BYTES + 1) ≤ S.given shelf.new) refusal) }
    ensures given { S.given shelf.old ≤ S.given shelf.new }
    ensures faults { LeavesFaults (S.faults shelf.old) (S.faults shelf.new) result }
{
    let text = load_file(
        alloc,
        shelf,
        name,
        MOST_BYTES,
        Refusal::TinUnread,
        Refusal::TinLong,
    )?;
    sound_tin(alloc, &text, how)
}

/// The triangulation as it is, or with its frames exchanged.
fn direct(tin: SoundTin, inverse: bool) -> SoundTin
    ensures { result ≡ directed_tin inverse tin }
{
    if inverse { turned(tin) } else { tin }
}

/// The sound triangulation of the file of this name, as it is there, or with its frames exchanged where `inverse` is
/// set. The errors are those of `load_tin`.
pub fn load_directed<S: Shelf>(
    alloc: Global,
    shelf: &mut S,
    name: &str,
    how: How,
    inverse: bool,
) -> Result<SoundTin, Refusal>
    ensures files { S.files shelf.new ≡ S.files shelf.old }
    ensures ok { IfOk result (λ tin. HasDirectedOver (S.files shelf.old) how name.now inverse tin) }
    ensures refused { IfErr result (λ refusal. IsTinUnready (S.files shelf.old) how name.now
        (Rose (S.faults shelf.old) (S.faults shelf.new))
        (count_after (S.given shelf.old) (MOST_BYTES + 1) ≤ S.given shelf.new) refusal) }
    ensures given { S.given shelf.old ≤ S.given shelf.new }
    ensures faults { LeavesFaults (S.faults shelf.old) (S.faults shelf.new) result }
{
    let tin = load_tin(alloc, shelf, name, how)?;
    Ok(direct(tin, inverse))
}
