//! What a shelf is: files read by name, one at a time, with a count of the calls that failed.

ghost use Rattle.std.specs.Prelude.{◌≡◌, ◌≤◌, ◌<◌, ◌-◌, ℕ, Bool, true, false, List, Option, length, IsTrue, OnOk};
ghost use Rattle.std.specs.Prelude.{OnErr, IfOk};
ghost use Rattle.shelf_io.specs.Files.{Files};
ghost use Rattle.shelf_io.specs.Count.{HasCause, count_after};
ghost use Rattle.shelf_io.specs.Shelf.{Begins, TakesFront};

/// A call of the outside that did not succeed.
#[derive(Clone, Copy, Debug, PartialEq, Eq)]
pub struct Failed;

/// Files by name, read one at a time. After each `Failed` no file is at hand.
pub trait Shelf {
    /// The files, each a name and its bytes, where the shelf states them. No call changes them.
    ghost files: { Self → Option Files };

    /// Whether a file is at hand.
    ghost at_hand: { Self → Bool };

    /// The rest of the file at hand, where the shelf states it.
    ghost left: { Self → Option (List ℕ) };

    /// How many bytes were handed out, up to the last u64. It never falls, and `begin` keeps it.
    ghost given: { Self → ℕ };

    /// How often a call has failed, up to the last u64. It never falls.
    ghost faults: { Self → ℕ };

    /// Puts the named file at hand. `Ok(false)`: there is no such file, and none is at hand. Only a
    /// shelf that states its files says so.
    fn begin(&mut self, name: &str) -> Result<bool, Failed>
        ensures files { files self.new ≡ files self.old }
        ensures begins { Begins (files self.old) name.now (left self.new) result }
        ensures at_hand { IfOk result (λ found. at_hand self.new ≡ found) }
        ensures err { OnErr result (at_hand self.new ≡ false) }
        ensures given { given self.new ≡ given self.old }
        ensures cause { HasCause (faults self.old) (faults self.new) result };

    /// Takes some next bytes of the file at hand into the first part of `buf`. `Ok(0)`: it has no more.
    fn read(&mut self, buf: &mut [u8]) -> Result<usize, Failed>
        requires room { 0 < length buf.old }
        requires at_hand { IsTrue (at_hand self.old) }
        ensures files { files self.new ≡ files self.old }
        ensures within { IfOk result (λ count. count ≤ length buf.new) }
        ensures bytes { IfOk result (λ count. TakesFront (left self.old) (left self.new) count buf.new) }
        ensures given { IfOk result (λ count. given self.new ≡ count_after (given self.old) count) }
        ensures given_later { given self.old ≤ given self.new }
        ensures given_err { OnErr result (given self.new ≡ given self.old) }
        ensures ok { OnOk result (at_hand self.new ≡ true) }
        ensures err { OnErr result (at_hand self.new ≡ false) }
        ensures cause { HasCause (faults self.old) (faults self.new) result };
}
