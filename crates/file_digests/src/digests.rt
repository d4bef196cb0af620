//! One call digests a whole file of limited size from a shelf. It takes no memory.

ghost use Rattle.std.specs.Prelude.{◌≡◌, ◌≤◌, ◌<◌, ◌+◌, ◌^◌, length, IfOk, IfSome, IsErrOf, IsTrue};
ghost use Rattle.shelf_io.specs.Count.{Rose, count_after};
ghost use Rattle.shelf_io.specs.Load.{LacksName, IsLonger};
ghost use Rattle.sha2.specs.Sha256.{sha256};
ghost use Rattle.file_digests.specs.Digests.{IsDigestOf};

use sha2::{Digest, Sha256};
use shelf_io::{Failed, Shelf};
use thiserror::Error;

/// Why a file was not digested.
#[derive(Clone, Copy, Debug, PartialEq, Eq, Error)]
pub enum DigestFault {
    /// The shelf states its files, and none has this name.
    #[error("there is no such file")]
    Missing,
    /// A call of the shelf failed.
    #[error("the file could not be read")]
    Failed,
    /// The file has more bytes than the limit.
    #[error("the file has more bytes than were asked for")]
    Long,
}

/// How many bytes one read asks for.
const CHUNK: usize = 65536;

/// The SHA-256 digest of the named file, which has at most `limit` bytes.
pub fn digest<S: Shelf>(shelf: &mut S, name: &str, limit: u64) -> Result<[u8; 32], DigestFault>
    requires { limit ≤ 2 ^ 28 }

    ensures files { S.files shelf.new ≡ S.files shelf.old }
    ensures ok { IfOk result (λ digest. IfSome (S.files shelf.old) (IsDigestOf name.now limit digest)) }

    // Only a shelf that states its files says that one is missing.
    ensures missing { IsErrOf result DigestFault.Missing → LacksName (S.files shelf.old) name.now }
    ensures long { IsErrOf result DigestFault.Long → IfSome (S.files shelf.old) (IsLonger name.now limit) }
    ensures long_given { IsErrOf result DigestFault.Long → count_after (S.given shelf.old) (limit + 1) ≤ S.given shelf.new }
    ensures given_later { S.given shelf.old ≤ S.given shelf.new }

    ensures failed { IsErrOf result DigestFault.Failed → Rose (S.faults shelf.old) (S.faults shelf.new) }
    ensures later { S.faults shelf.old ≤ S.faults shelf.new }
    ensures most { S.faults shelf.new ≤ S.faults shelf.old + 1 }
    ensures same { ¬ IsErrOf result DigestFault.Failed → S.faults shelf.new ≡ S.faults shelf.old }
{
    match shelf.begin(name) {
        Ok(true) => digest_rest(shelf, limit),
        Ok(false) => Err(DigestFault::Missing),
        Err(Failed) => Err(DigestFault::Failed),
    }
}

/// The digest of what is left of the file at hand, at most `limit` bytes.
fn digest_rest<S: Shelf>(shelf: &mut S, limit: u64) -> Result<[u8; 32], DigestFault>
    requires limit { limit ≤ 2 ^ 28 }
    requires at_hand { IsTrue (S.at_hand shelf.old) }

    ensures files { S.files shelf.new ≡ S.files shelf.old }
    ensures ok { IfOk result (λ digest. IfSome (S.left shelf.old) (λ rest. (length rest ≤ limit) × (digest ≡ sha256 rest))) }
    ensures given_later { S.given shelf.old ≤ S.given shelf.new }
    ensures missing { ¬ IsErrOf result DigestFault.Missing }
    ensures long { IsErrOf result DigestFault.Long → IfSome (S.left shelf.old) (λ rest. limit < length rest) }
    ensures long_given { IsErrOf result DigestFault.Long → count_after (S.given shelf.old) (limit + 1) ≤ S.given shelf.new }
    ensures failed { IsErrOf result DigestFault.Failed → Rose (S.faults shelf.old) (S.faults shelf.new) }
    ensures later { S.faults shelf.old ≤ S.faults shelf.new }
    ensures most { S.faults shelf.new ≤ S.faults shelf.old + 1 }
    ensures same { ¬ IsErrOf result DigestFault.Failed → S.faults shelf.new ≡ S.faults shelf.old }
{
    let mut hasher = Sha256::new();
    let mut count = 0u64;
    let mut buf = [0u8; CHUNK];
    while count <= limit {
        match shelf.read(&mut buf) {
            Ok(0) => return Ok(hasher.finalize()),
            Ok(more) => {
                hasher.update(&buf[..more]);
                count += more as u64;
            }
            Err(Failed) => return Err(DigestFault::Failed),
        }
    }
    Err(DigestFault::Long)
}
