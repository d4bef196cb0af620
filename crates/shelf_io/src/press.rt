//! What a press is: files made one after the other, with a count of the calls that failed.

ghost use Rattle.std.specs.Prelude.{◌≡◌, ◌<◌, ◌≤◌, ℕ, Bool, true, false, Option, length, take, IfOk, OnOk, OnErr};
ghost use Rattle.std.specs.Prelude.{IsTrue, is_err};
ghost use Rattle.shelf_io.specs.Files.{Files};
ghost use Rattle.shelf_io.specs.Count.{HasCause};
ghost use Rattle.shelf_io.specs.Made.{Adds, Appends, HasSameFiles, Lacks};

use crate::Failed;

/// Files that are made one after the other, each written from its front.
pub trait Press {
    /// The files that were made, each a name and its bytes, in order, where the press states them.
    ghost made: { Self → Option Files };

    /// Whether a file is at hand.
    ghost at_hand: { Self → Bool };

    /// How often a call has failed.
    ghost faults: { Self → ℕ };

    /// Whether the last call failed.
    ghost broken: { Self → Bool };

    /// Makes an empty file of this name and puts it at hand. The name `-` is standard output.
    fn begin(&mut self, name: &str) -> Result<(), Failed>
        requires free { at_hand self.old ≡ false }
        requires new { Lacks (made self.old) name.now }
        ensures ok { OnOk result (Adds (made self.old) (made self.new) name.now) }
        ensures ok_at_hand { OnOk result (at_hand self.new ≡ true) }
        ensures err { OnErr result (HasSameFiles (made self.old) (made self.new)) }
        ensures err_at_hand { OnErr result (at_hand self.new ≡ false) }
        ensures cause { HasCause (faults self.old) (faults self.new) result }
        ensures broken { broken self.new ≡ is_err result };

    /// Writes some first bytes of the piece at the end of the file at hand.
    fn write(&mut self, piece: &[u8]) -> Result<usize, Failed>
        requires some { 0 < length piece.now }
        requires at_hand { IsTrue (at_hand self.old) }
        ensures within { IfOk result (λ count. (0 < count) × (count ≤ length piece.now)) }
        ensures ok { IfOk result (λ count. Appends (made self.old) (made self.new) (take count piece.now)) }
        ensures err { OnErr result (HasSameFiles (made self.old) (made self.new)) }
        ensures at_hand { at_hand self.new ≡ true }
        ensures cause { HasCause (faults self.old) (faults self.new) result }
        ensures broken { broken self.new ≡ is_err result };

    /// Ends the file at hand.
    fn end(&mut self) -> Result<(), Failed>
        requires { IsTrue (at_hand self.old) }
        ensures made { HasSameFiles (made self.old) (made self.new) }
        ensures at_hand { at_hand self.new ≡ false }
        ensures cause { HasCause (faults self.old) (faults self.new) result }
        ensures broken { broken self.new ≡ is_err result };
}
