//! What bounds a numeral and what is read of it.

ghost use Rattle.std.specs.Prelude.{◌≡◌, ◌^◌};

/// No text that is read is longer, in bytes.
pub const LONGEST: usize = 64;

/// No power of ten is greater, without its sign.
pub const HIGHEST: u64 = 99;

/// No length is greater, in millimetres, without its sign.
pub const LIMIT: u64 = 1_000_000_000_000_000;

/// Laws: the limits are these numbers.
pub fn limits_are_stated()
    ensures longest { LONGEST ≡ 64 }
    ensures highest { HIGHEST ≡ 99 }
    ensures limit { LIMIT ≡ 10 ^ 15 }
{}
