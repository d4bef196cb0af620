//! Laws of certificates, migrations and verifications together.

ghost use Rattle.verified_migrations.specs.Laws.{PieceCertificatesCertify};
ghost use Rattle.verified_migrations.specs.Laws.{MigrationsAreVerified, VerifiedLayersAreMigrated};

use layer_formats::layer_texts_are_one;
use runs::{read_tins_are_within_limits, tin_end_is_one};
use sheet_base::Layer;

/// A law: the certificate of the pieces of a sheet that is inside a sound triangulation certifies the bytes with the
/// texts for the sheet's images.
pub fn piece_certificates_certify<L: Layer>()
    ensures { PieceCertificatesCertify L.reads L.text }
{
    cert_check::pieces_are_rightly_certified();
}

/// A law: what a migration with certificates makes of a layer is verified, wherever the files are and whatever their
/// names. The options are those of the migration, and the written layer and the certificate are not too long to be
/// verified.
pub fn migrations_are_verified()
    ensures { MigrationsAreVerified }
{
    cert_check::pieces_are_rightly_certified();
    read_tins_are_within_limits();
}

/// A law: a layer that is verified is byte for byte what a migration of its source alone writes, unless this is refused
/// for too many pieces, changes or, where it asks for them, changes of sides. A verification does not look at these
/// numbers.
pub fn verified_layers_are_migrated()
    ensures { VerifiedLayersAreMigrated }
{
    layer_texts_are_one();
    tin_end_is_one();
}
