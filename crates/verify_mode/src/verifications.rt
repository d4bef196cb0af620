//! What a verification is to do, and what it writes.

ghost use Rattle.std.specs.Prelude.{◌≡◌, IfOk, IfErr, IfSome, OnOk, false};
ghost use Rattle.shelf_io.specs.Count.{Rose};
ghost use Rattle.runs.specs.Status.{end_of};
ghost use Rattle.runs.specs.Counts.{LeavesFaults, shelf_counts};
ghost use Rattle.runs.specs.Output.{files_of, HasForm};
ghost use Rattle.runs.specs.Causes.{HasCauses};
ghost use Rattle.verify_mode.specs.Files.{MayBeTaken, LacksCompared, HasWayOver};
ghost use Rattle.verify_mode.specs.Verifications.{IsVerified, IsVerificationWritten, IsEndOfVerification};
ghost use Rattle.verify_mode.specs.Verifications.{MayRefuseVerificationOver, AreCertified, certified_text};

use crate::certificates::verify_by_format;
use crate::files::load_texts;
use layer_formats::known_format;
use runs::{Refusal, RunOutput, load_directed};
use sheet_base::{How, Listed};
use shelf_io::{Name, Shelf};
use std::alloc::{AllocError, Global};
use tin_base::SoundTin;

/// What a verification is to do.
#[derive(Drop)]
pub struct Verification {
    /// The name of the triangulation's file.
    pub tin: Name,
    /// The name of the layer that was carried; its end says the format.
    pub source: Name,
    /// The name of the layer as it was written.
    pub written: Name,
    /// The name of the certificate's file.
    pub cert: Name,
    /// How the triangulation and the source are read.
    pub how: How,
    /// Whether the triangulation's frames are exchanged first.
    pub inverse: bool,
}

/// What is written of a layer that is verified: one line, and no file.
fn certified_output(alloc: Global) -> Result<RunOutput, AllocError>
    ensures unchanged { IfOk result (λ written. written.changed ≡ false) }
    ensures said { IfOk result (λ written. written.said ≡ certified_text) }
    ensures form { IfOk result (λ written. HasForm IsVerificationWritten written) }
{
    let line = String::from_str(alloc, "certified\n")?;
    Ok(RunOutput {
        layers: Vec::new(alloc),
        said: Listed::of(line.into_bytes()),
        changed: false,
    })
}

/// The output of a verification: one line, where the written layer is the source's through the triangulation and the
/// certificate is one of the source. The error says why it is refused: by the triangulation, by the first of the three
/// files that is not read, by the source, or by the certificate.
pub fn prepare_verification<S: Shelf>(
    alloc: Global,
    shelf: &mut S,
    verification: &Verification,
) -> Result<RunOutput, Refusal>
    requires { MayBeTaken verification.now }
    ensures ok { IfOk result (λ written. IfSome (S.files shelf.old)
        (λ files. IsVerified files verification.now (end_of written.changed) (files_of written))) }
    ensures unchanged { IfOk result (λ written. written.changed ≡ false) }
    ensures form { IfOk result (λ written. HasForm IsVerificationWritten written) }
    ensures refused { IfErr result (MayRefuseVerificationOver (S.files shelf.old) verification.now
        (Rose (S.faults shelf.old) (S.faults shelf.new))) }
    ensures causes { IfErr result (HasCauses (LacksCompared verification.now (S.files shelf.old)) IsEndOfVerification
        (shelf_counts (S.faults shelf.old) (S.faults shelf.new) (S.given shelf.old) (S.given shelf.new))) }
    ensures faults { LeavesFaults (S.faults shelf.old) (S.faults shelf.new) result }
{
    let tin = load_directed(
        alloc,
        shelf,
        verification.tin.text(),
        verification.how,
        verification.inverse,
    )?;
    verify_files(alloc, shelf, verification, &tin)?;
    let written = certified_output(alloc)?;
    Ok(written)
}

/// Whether the written layer is the source's through this triangulation, and the certificate one of the source.
fn verify_files<S: Shelf>(
    alloc: Global,
    shelf: &mut S,
    verification: &Verification,
    tin: &SoundTin,
) -> Result<(), Refusal>
    requires taken { MayBeTaken verification.now }
    requires way { HasWayOver (S.files shelf.old) verification.now tin.now }
    ensures certified { OnOk result (IfSome (S.files shelf.old) (λ files. AreCertified files verification.now tin.now)) }
    ensures refused { IfErr result (MayRefuseVerificationOver (S.files shelf.old) verification.now
        (Rose (S.faults shelf.old) (S.faults shelf.new))) }
    ensures causes { IfErr result (HasCauses (LacksCompared verification.now (S.files shelf.old)) IsEndOfVerification
        (shelf_counts (S.faults shelf.old) (S.faults shelf.new) (S.given shelf.old) (S.given shelf.new))) }
    ensures faults { LeavesFaults (S.faults shelf.old) (S.faults shelf.new) result }
{
    let texts = load_texts(alloc, shelf, verification)?;
    let format = known_format(verification.source.text());
    verify_by_format(
        alloc,
        format,
        tin,
        verification.how,
        &texts.source,
        &texts.written,
        &texts.cert,
    )
}
