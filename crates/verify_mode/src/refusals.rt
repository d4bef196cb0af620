//! Why a written layer is not verified.

ghost use Rattle.std.specs.Prelude.{◌≡◌};
ghost use Rattle.verify_mode.specs.Certificates.{of_certificate};

use cert_check::CertFault;
use runs::Refusal;

/// The refusal of a written layer that is not verified; the source is layer 0.
pub fn refuse_certificate(fault: CertFault) -> Refusal
    ensures { result ≡ of_certificate fault }
{
    match fault {
        CertFault::Layer(fault) => Refusal::Layer { layer: 0, fault },
        CertFault::NoMemory => Refusal::NoMemory,
        CertFault::Form { .. }
        | CertFault::Count { .. }
        | CertFault::Segment { .. }
        | CertFault::Differs { .. } => Refusal::Certificate(fault),
    }
}
