//! A press that notes what it makes, for what is said of it afterwards.

ghost use Rattle.std.specs.Prelude.{◌≡◌, ◌<◌, ◌≤◌, ℕ, List, false, true, length, take, string_bytes, is_err, IfOk, IsTrue, OnErr, OnOk};
ghost use Rattle.shelf_io.specs.Count.{HasCause};
ghost use Rattle.shelf_io.specs.Made.{Adds, Appends, HasSameFiles, Lacks};
ghost use Rattle.run_steps.specs.PressNotes.{IsNamed};

use shelf_io::{Failed, Press};
use std::alloc::Global;

/// What is noted of the files that a press begins.
pub trait Notes {
    /// What may be noted once a file of this name is begun, from what was noted before.
    ghost notes: { Self → List ℕ → Self → Type 0 };

    /// Notes that a file is begun.
    fn note(&mut self, name: &str)
        ensures { notes self.old name.now self.new };
}

/// A press over a press, with notes of the files that are begun.
#[derive(Drop)]
pub struct NotedPress<P: Drop, N: Drop> {
    pub press: P,
    pub notes: N,
}

/// The name of the file that was begun last, or nothing where memory ran out.
#[derive(Drop)]
pub struct LastName {
    pub name: String,
}

impl LastName {
    /// No name yet.
    pub fn new(alloc: Global) -> Self {
        LastName {
            name: String::new(alloc),
        }
    }
}

impl Notes for LastName {
    ghost notes = { λ before name after. IsNamed name (string_bytes after.name) };

    fn note(&mut self, name: &str) {
        self.name.clear();
        let _ = self.name.push_str(name);
    }
}

impl<P: Press + Drop, N: Notes + Drop> Press for NotedPress<P, N> {
    ghost made = { λ p. P.made p.press };

    ghost at_hand = { λ p. P.at_hand p.press };

    ghost faults = { λ p. P.faults p.press };

    ghost broken = { λ p. P.broken p.press };

    fn begin(&mut self, name: &str) -> Result<(), Failed>
        requires free { P.at_hand self.old.press ≡ false }
        requires new { Lacks (P.made self.old.press) name.now }
        ensures ok { OnOk result (Adds (P.made self.old.press) (P.made self.new.press) name.now) }
        ensures ok_at_hand { OnOk result (P.at_hand self.new.press ≡ true) }
        ensures err { OnErr result (HasSameFiles (P.made self.old.press) (P.made self.new.press)) }
        ensures err_at_hand { OnErr result (P.at_hand self.new.press ≡ false) }
        ensures cause { HasCause (P.faults self.old.press) (P.faults self.new.press) result }
        ensures broken { P.broken self.new.press ≡ is_err result }

        ensures notes { N.notes self.old.notes name.now self.new.notes }
    {
        self.notes.note(name);
        self.press.begin(name)
    }

    fn write(&mut self, piece: &[u8]) -> Result<usize, Failed>
        requires some { 0 < length piece.now }
        requires at_hand { IsTrue (P.at_hand self.old.press) }
        ensures within { IfOk result (λ count. (0 < count) × (count ≤ length piece.now)) }
        ensures ok { IfOk result (λ count. Appends (P.made self.old.press) (P.made self.new.press) (take count piece.now)) }
        ensures err { OnErr result (HasSameFiles (P.made self.old.press) (P.made self.new.press)) }
        ensures at_hand { P.at_hand self.new.press ≡ true }
        ensures cause { HasCause (P.faults self.old.press) (P.faults self.new.press) result }
        ensures broken { P.broken self.new.press ≡ is_err result }

        ensures notes { self.new.notes ≡ self.old.notes }
    {
        self.press.write(piece)
    }

    fn end(&mut self) -> Result<(), Failed>
        requires { IsTrue (P.at_hand self.old.press) }
        ensures made { HasSameFiles (P.made self.old.press) (P.made self.new.press) }
        ensures at_hand { P.at_hand self.new.press ≡ false }
        ensures cause { HasCause (P.faults self.old.press) (P.faults self.new.press) result }
        ensures broken { P.broken self.new.press ≡ is_err result }

        ensures notes { self.new.notes ≡ self.old.notes }
    {
        self.press.end()
    }
}
