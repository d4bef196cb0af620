//! The most layers of a migration, and the greatest size of a made triangulation.

ghost use Rattle.std.specs.Prelude.{◌≡◌};

/// The greatest number of layers of a migration.
pub const MOST_LAYERS: usize = 1024;

/// The greatest size of a made triangulation, in cells along one side.
pub const MOST_SIZE: u32 = 512;

/// Laws: the limits are these numbers.
pub fn limits_are_stated()
    ensures layers { MOST_LAYERS ≡ 1024 }
    ensures size { MOST_SIZE ≡ 512 }
{}
