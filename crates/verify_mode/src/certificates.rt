//! A written layer against its certificate, by the format of the source.

ghost use Rattle.std.specs.Prelude.{◌≤◌, length, IfErr, OnOk};
ghost use Rattle.cert_check.specs.Checks.{IsCertified};
ghost use Rattle.runs.specs.declared.loads.TheConstants.{MOST_BYTES, MOST_VERIFIED};
ghost use Rattle.verify_mode.specs.Certificates.{IsCertifiedAs, IsUncertified, IsUncertifiedAs};

use crate::refusals::refuse_certificate;
use cert_check::check_cert;
use job_words::Format;
use layer_formats::by_format;
use runs::Refusal;
use sheet_base::{How, Layer};
use std::alloc::Global;
use tin_base::SoundTin;

/// Whether the written layer of a source of the format `L` is the one that the certificate is for.
fn verify_as<L: Layer>(
    alloc: Global,
    tin: &SoundTin,
    how: How,
    source: &[u8],
    written: &[u8],
    cert: &[u8],
) -> Result<(), Refusal>
    requires small { length source.now ≤ MOST_BYTES }
    requires few { length cert.now ≤ MOST_VERIFIED }
    ensures certified { OnOk result (IsCertified tin.now source.now written.now (L.reads how source.now) (L.text source.now how) cert.now) }
    ensures refused { IfErr result (λ refusal. IsUncertifiedAs tin.now source.now written.now (L.reads how source.now)
        (L.refuses how source.now) (L.text source.now how) cert.now refusal) }
{
    match check_cert::<L>(alloc, tin, source, written, how, cert) {
        Ok(()) => Ok(()),
        Err(fault) => Err(refuse_certificate(fault)),
    }
}

/// Whether the written layer of a source of this format is the one that the certificate is for.
pub fn verify_by_format(
    alloc: Global,
    format: Format,
    tin: &SoundTin,
    how: How,
    source: &[u8],
    written: &[u8],
    cert: &[u8],
) -> Result<(), Refusal>
    requires small { length source.now ≤ MOST_BYTES }
    requires few { length cert.now ≤ MOST_VERIFIED }
    ensures certified { OnOk result (IsCertifiedAs how tin.now format source.now written.now cert.now) }
    ensures refused { IfErr result (λ refusal. IsUncertified how tin.now format source.now written.now cert.now refusal) }
{
    by_format!(format, verify_as(alloc, tin, how, source, written, cert))
}
