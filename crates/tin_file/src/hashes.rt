//! Hashes of rows that no row can foresee.

ghost use Rattle.std.specs.Prelude.{◌≡◌, fold};
ghost use Rattle.std.specs.Hash as fed;
ghost use Rattle.std.specs.Hash.DefaultHasher as sip;
ghost use Rattle.std.specs.Hash.FoldHasher as folding;

use std::hash::{BuildHasher, DefaultHasher, FoldHasher, Hasher};

/// Hashes rows by the quick hasher of maps, with SipHash of the whole text of the file for its
/// seed. Which rows collide follows from every byte of the file, so rows that collide are not found
/// beforehand.
#[derive(Clone, Copy)]
pub struct TextHash {
    pub seeded: FoldHasher,
}

impl BuildHasher for TextHash {
    type Hasher = FoldHasher;

    ghost build_hasher = { λ hash. hash.seeded };

    #[inline(always)]
    fn build_hasher(&self) -> FoldHasher {
        self.seeded
    }
}

impl TextHash {
    /// The hash of rows of this text.
    pub fn of(text: &[u8]) -> TextHash
        ensures { result.seeded ≡ fold folding.write folding.initial (fed.u64 (sip.finish (sip.write sip.initial text.now))) }
    {
        let mut whole = DefaultHasher::new();
        whole.write(text);
        let mut seeded = FoldHasher::default();
        seeded.write_u64(whole.finish());
        TextHash { seeded }
    }
}
