//! What a feature has at most.

ghost use Rattle.std.specs.Prelude.{◌≡◌};

/// How many bytes a layer's name has at most in a feature. A longer one is among the layers alone.
pub const MOST_NAMED: usize = 255;

/// How many bytes a feature has at most beside those that are copied into it.
pub const MOST_UNCOPIED: usize = 2_048;

/// A law: the limit of a layer's name is this number.
pub fn limits_are_stated()
    ensures named { MOST_NAMED ≡ 255 }
{}
