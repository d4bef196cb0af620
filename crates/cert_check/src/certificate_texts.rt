//! Certificates of pieces.

ghost use Rattle.std.specs.Prelude.{◌≡◌, ◌∷◌, [], ◌++◌, decimal, IfOk, OnOk};
ghost use Rattle.cert_check.specs.Certificates.{separator, certificate_of};
ghost use Rattle.cert_check.specs.PieceLists.{ends_before, lists_of};

use crate::lines::HEAD;
use itoa::Buffer;
use std::alloc::{AllocError, Global};
use tin_base::Piece;

/// Whether the piece before these is its segment's last.
fn ends_segment(behind: &[Piece]) -> bool
    ensures { result ≡ ends_before behind.now }
{
    match behind {
        [next, ..] => next.from.piece == 0,
        [] => true,
    }
}

/// What ends a number on a line.
fn separator_byte(last: bool) -> u8
    ensures { result ≡ separator last }
{
    if last { b'\n' } else { b' ' }
}

/// Appends a number in digits, and what ends it.
fn push_number(out: &mut Vec<u8>, number: u32, last: bool) -> Result<(), AllocError>
    ensures { OnOk result (out.new.items ≡ out.old.items ++ (decimal number ++ separator last ∷ [])) }
{
    let mut digits = Buffer::new();
    out.extend_from_slice(digits.format(number).as_bytes())?;
    out.push(separator_byte(last))?;
    Ok(())
}

/// The certificate of the pieces of one layer: after the first line, a line for each segment with the numbers of the
/// triangles of its pieces. The pieces are those of all segments of the layer in order, and each segment's pieces are
/// numbered from 0.
pub fn write_cert(alloc: Global, pieces: &[Piece]) -> Result<Vec<u8>, AllocError>
    ensures { IfOk result (λ text. text.items ≡ certificate_of (lists_of pieces.now)) }
{
    let mut out = Vec::from_slice(alloc, HEAD)?;
    let mut rest = pieces;
    while let Some((piece, behind)) = rest.split_first() {
        push_number(&mut out, piece.tri, ends_segment(behind))?;
        rest = behind;
    }
    Ok(out)
}
