//! One call loads a whole file of limited size from a shelf.

ghost use Rattle.std.specs.Prelude.{◌≡◌, ◌≤◌, ◌<◌, ◌+◌, ◌^◌, length, vec_len, IfOk, IfSome, IsErrOf, IsTrue};
ghost use Rattle.shelf_io.specs.declared.loads.LoadFault.TheVariants.{NoMemory};
ghost use Rattle.shelf_io.specs.Count.{Rose, count_after};
ghost use Rattle.shelf_io.specs.Load.{Loads, LacksName, IsLonger};

use crate::{Failed, Shelf};
use std::alloc::{AllocError, Global};
use thiserror::Error;

/// Why a file was not loaded.
#[derive(Clone, Copy, Debug, PartialEq, Eq, Error)]
pub enum LoadFault {
    /// The shelf states its files, and none has this name.
    #[error("there is no such file")]
    Missing,
    /// A call of the shelf failed.
    #[error("the file could not be read")]
    Failed,
    /// The file has more bytes than the limit.
    #[error("the file has more bytes than were asked for")]
    Long,
    #[error("out of memory")]
    NoMemory,
}

impl From<AllocError> for LoadFault {
    ghost from_gives = { λ _ e. e ≡ NoMemory };

    fn from(_: AllocError) -> Self {
        LoadFault::NoMemory
    }
}

/// How many bytes one read asks for.
const CHUNK: usize = 4096;

/// The bytes of the named file, which has at most `limit` of them.
pub fn load<S: Shelf>(
    alloc: Global,
    shelf: &mut S,
    name: &str,
    limit: u64,
) -> Result<Vec<u8>, LoadFault>
    requires { limit ≤ 2 ^ 28 }

    ensures files { S.files shelf.new ≡ S.files shelf.old }
    ensures ok { IfOk result (λ bytes. IfSome (S.files shelf.old) (Loads name.now bytes.items)) }
    ensures within { IfOk result (λ bytes. vec_len bytes ≤ limit) }

    // Only a shelf that states its files says that one is missing.
    ensures missing { IsErrOf result LoadFault.Missing → LacksName (S.files shelf.old) name.now }
    ensures long { IsErrOf result LoadFault.Long → IfSome (S.files shelf.old) (IsLonger name.now limit) }
    ensures long_given { IsErrOf result LoadFault.Long → count_after (S.given shelf.old) (limit + 1) ≤ S.given shelf.new }
    ensures given { IfOk result (λ bytes. count_after (S.given shelf.old) (vec_len bytes) ≤ S.given shelf.new) }
    ensures given_later { S.given shelf.old ≤ S.given shelf.new }

    ensures failed { IsErrOf result LoadFault.Failed → Rose (S.faults shelf.old) (S.faults shelf.new) }
    ensures later { S.faults shelf.old ≤ S.faults shelf.new }
    ensures most { S.faults shelf.new ≤ S.faults shelf.old + 1 }
    ensures same { ¬ IsErrOf result LoadFault.Failed → S.faults shelf.new ≡ S.faults shelf.old }
{
    match shelf.begin(name) {
        Ok(true) => read_rest(alloc, shelf, limit),
        Ok(false) => Err(LoadFault::Missing),
        Err(Failed) => Err(LoadFault::Failed),
    }
}

/// What is left of the file at hand, at most `limit` bytes.
fn read_rest<S: Shelf>(alloc: Global, shelf: &mut S, limit: u64) -> Result<Vec<u8>, LoadFault>
    requires limit { limit ≤ 2 ^ 28 }
    requires at_hand { IsTrue (S.at_hand shelf.old) }

    ensures files { S.files shelf.new ≡ S.files shelf.old }
    ensures ok { IfOk result (λ bytes. IfSome (S.left shelf.old) (λ rest. bytes.items ≡ rest)) }
    ensures within { IfOk result (λ bytes. vec_len bytes ≤ limit) }
    ensures given { IfOk result (λ bytes. count_after (S.given shelf.old) (vec_len bytes) ≤ S.given shelf.new) }
    ensures given_later { S.given shelf.old ≤ S.given shelf.new }
    ensures missing { ¬ IsErrOf result LoadFault.Missing }
    ensures long { IsErrOf result LoadFault.Long → IfSome (S.left shelf.old) (λ rest. limit < length rest) }
    ensures long_given { IsErrOf result LoadFault.Long → count_after (S.given shelf.old) (limit + 1) ≤ S.given shelf.new }
    ensures failed { IsErrOf result LoadFault.Failed → Rose (S.faults shelf.old) (S.faults shelf.new) }
    ensures later { S.faults shelf.old ≤ S.faults shelf.new }
    ensures most { S.faults shelf.new ≤ S.faults shelf.old + 1 }
    ensures same { ¬ IsErrOf result LoadFault.Failed → S.faults shelf.new ≡ S.faults shelf.old }
{
    let mut bytes = Vec::new(alloc);
    let mut buf = [0u8; CHUNK];
    while bytes.len() as u64 <= limit {
        match shelf.read(&mut buf) {
            Ok(0) => return Ok(bytes),
            Ok(count) => bytes.extend_from_slice(&buf[..count])?,
            Err(Failed) => return Err(LoadFault::Failed),
        }
    }
    Err(LoadFault::Long)
}
