//! The files that a verification compares.

ghost use Rattle.std.specs.Prelude.{◌≡◌, ◌+◌, ◌≤◌, vec_len, IfOk, IfErr, IfSome};
ghost use Rattle.runs.specs.declared.loads.TheConstants.{MOST_BYTES, MOST_VERIFIED};
ghost use Rattle.runs.specs.Counts.{LeavesFaults, shelf_counts};
ghost use Rattle.verify_mode.specs.Files.{HaveTextsOver, AreUnloaded};

use crate::verifications::Verification;
use runs::{MOST_BYTES, MOST_VERIFIED, Refusal, load_file};
use shelf_io::Shelf;
use std::alloc::Global;

/// The bytes of the source, of the written layer and of the certificate.
#[derive(Drop)]
pub struct Texts {
    pub source: Vec<u8>,
    pub written: Vec<u8>,
    pub cert: Vec<u8>,
}

/// The bytes of the three files, in this order: the source, layer 0, at most `MOST_BYTES` of it; the written layer and
/// the certificate, at most `MOST_VERIFIED` of each. The error is the first one's.
pub fn load_texts<S: Shelf>(
    alloc: Global,
    shelf: &mut S,
    verification: &Verification,
) -> Result<Texts, Refusal>
    ensures files { S.files shelf.new ≡ S.files shelf.old }
    ensures ok { IfOk result (λ texts. HaveTextsOver (S.files shelf.old) verification.now
        texts.source.items texts.written.items texts.cert.items) }
    ensures source { IfOk result (λ texts. vec_len texts.source ≤ MOST_BYTES) }
    ensures cert { IfOk result (λ texts. vec_len texts.cert ≤ MOST_VERIFIED) }
    ensures refused { IfErr result (AreUnloaded (S.files shelf.old) verification.now
        (shelf_counts (S.faults shelf.old) (S.faults shelf.new) (S.given shelf.old) (S.given shelf.new))) }
    ensures given { S.given shelf.old ≤ S.given shelf.new }
    ensures faults { LeavesFaults (S.faults shelf.old) (S.faults shelf.new) result }
{
    let source = load_file(
        alloc,
        shelf,
        verification.source.text(),
        MOST_BYTES,
        Refusal::LayerUnread { layer: 0 },
        Refusal::LayersLong,
    )?;
    let written = load_file(
        alloc,
        shelf,
        verification.written.text(),
        MOST_VERIFIED,
        Refusal::WrittenUnread,
        Refusal::WrittenLong,
    )?;
    let cert = load_file(
        alloc,
        shelf,
        verification.cert.text(),
        MOST_VERIFIED,
        Refusal::CertUnread,
        Refusal::CertLong,
    )?;
    Ok(Texts {
        source,
        written,
        cert,
    })
}
