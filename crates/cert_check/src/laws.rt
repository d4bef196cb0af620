//! Laws of certificates.

ghost use Rattle.cert_check.specs.Laws.{CertificatesAreOne, CertificatesHaveNoBadLine, PieceTrianglesAreRight};
ghost use Rattle.cert_check.specs.Laws.{PiecesAreAccepted, PiecesAreRightlyCertified, RightListsAreInside};
ghost use Rattle.cert_check.specs.Laws.{CertificatesEndOnce, CertificateEndExists, TextOutcomeExists};

use sheet_base::Layer;

/// A law: bytes are the certificate of one list of lists at most.
pub fn certificates_are_one()
    ensures { CertificatesAreOne }
{}

/// A law: a certificate has no line that is not of the form.
pub fn certificates_have_no_bad_line()
    ensures { CertificatesHaveNoBadLine }
{}

/// A law: any bytes are the certificate of some lists, or have a line that is not of the form.
pub fn text_outcome_exists()
    ensures { TextOutcomeExists }
{}

/// A law: a segment that has a right list in a sound triangulation is inside.
pub fn right_lists_are_inside()
    ensures { RightListsAreInside }
{}

/// A law: the triangles of the pieces of a segment that is inside a sound triangulation are a right list.
pub fn piece_triangles_are_right()
    ensures { PieceTrianglesAreRight }
{}

/// A law: what `write_cert` makes of the pieces of a layer whose segments are all inside a sound triangulation is a
/// certificate, and its lists are right for the segments, one for each.
pub fn pieces_are_rightly_certified()
    ensures { PiecesAreRightlyCertified }
{}

/// A law on a layer whose segments are all inside a sound triangulation, and whose bytes are read as one sheet alone.
/// What `write_cert` makes of its pieces is accepted over its bytes with the texts for its images: `check_cert` has no
/// cause to refuse it.
pub fn pieces_are_accepted()
    ensures { PiecesAreAccepted }
{}

/// A law: the check of a certificate ends in one way: the layer is certified, or there is one first fault.
pub fn certificates_end_once<L: Layer>()
    ensures { CertificatesEndOnce L.reads L.refuses L.text }
{
    L::outcome_is_one();
}

/// A law: the check of a certificate ends: the layer is certified, or there is a first fault.
pub fn certificate_end_exists<L: Layer>()
    ensures { CertificateEndExists L.reads L.refuses L.text }
{
    text_outcome_exists();
    L::outcome_exists();
    L::memory_is_no_fault();
    L::sheets_are_of_bytes();
}
