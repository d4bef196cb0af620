//! Numbers as a set: ascending, and each once.

ghost use Rattle.std.specs.Prelude.{◌↔◌, ℕ, Contains};
ghost use Rattle.std.specs.List.Sorted.{IsStrictlyIncreasing};

/// Sorts numbers, and leaves each once. It takes no memory.
pub fn sort_once(numbers: &mut Vec<u32>)
    ensures ascending { IsStrictlyIncreasing numbers.new.items }
    ensures same { (number : ℕ) → Contains numbers.new.items number ↔ Contains numbers.old.items number }
{
    numbers.sort_unstable();
    numbers.dedup();
}
