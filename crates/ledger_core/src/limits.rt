//! How much a ledger holds.

ghost use Rattle.std.specs.Prelude.{◌≡◌, ◌^◌};

/// How many runs a ledger holds at most.
pub const MOST_RUNS: u32 = 65_536;

/// How many pairs all runs have together at most.
pub const MOST_PAIRS: u32 = 1 << 22;

/// Fewer commands than this are obeyed at once.
pub const MOST_COMMANDS: usize = 1 << 20;

/// Laws: the limits are these numbers.
pub fn limits_are_stated()
    ensures runs { MOST_RUNS ≡ 2 ^ 16 }
    ensures pairs { MOST_PAIRS ≡ 2 ^ 22 }
    ensures commands { MOST_COMMANDS ≡ 2 ^ 20 }
{}
