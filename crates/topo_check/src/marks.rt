//! Marks of pieces, by which copies are looked for.
use plane_base::Pt;
use tin_base::Piece;

/// A number of all pieces, from which their marks begin: so no piece can be made for a mark that is known ahead.
pub(crate) fn seed_of(pieces: &[Piece]) -> u64 {
    let mut seed = mix_bits(pieces.len() as u64);
    for piece in pieces {
        seed = mix_bits(seed ^ mark(piece, 0));
    }
    seed
}

/// A number that copies of a piece have in common, and others seldom. It decides only where copies are looked for.
pub(crate) fn mark(piece: &Piece, seed: u64) -> u64 {
    let ends = of_point(piece.a, seed).wrapping_add(of_point(piece.b, seed));
    mix_bits(ends.wrapping_add(u64::from(piece.tri)))
}

/// The upper half of a mark.
pub(crate) fn tag_of(mark: u64) -> u32 {
    (mark >> 32) as u32
}

fn of_point(p: Pt, seed: u64) -> u64 {
    mix_bits(p.x.cast_unsigned() ^ mix_bits(p.y.cast_unsigned() ^ seed))
}

fn mix_bits(n: u64) -> u64 {
    let m = (n ^ (n >> 29)).wrapping_mul(0x9E37_79B9_7F4A_7C15);
    m ^ (m >> 32)
}
