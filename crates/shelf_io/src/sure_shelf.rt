//! A shelf in memory, whose calls never fail.

ghost use Rattle.std.specs.Prelude.{◌≡◌, ◌<◌, ◌≤◌, [], length, IsTrue, IfOk, IsOk, OnOk, OnErr, is_some, Some, None};
ghost use Rattle.std.specs.Prelude.{true, false};
ghost use Rattle.shelf_io.specs.Count.{HasCause, count_after};
ghost use Rattle.shelf_io.specs.MemoryShelf.{after_begin, after_read, rest_at_hand};
ghost use Rattle.shelf_io.specs.Shelf.{Begins, TakesFront};

use crate::{Failed, MemShelf, Shelf};
use std::marker::Model;

/// A shelf in memory, whose calls never fail.
#[derive(Drop)]
pub struct SureShelf {
    shelf: MemShelf,
}

impl Model for SureShelf {
    ghost use Rattle.std.specs.Prelude.{◌≡◌, []};
    ghost use Rattle.shelf_io.specs.MemoryShelf.{MemoryShelf};

    ghost Value = { MemoryShelf };

    ghost view = { λ s. s.shelf };

    ghost invariant = { λ s. s.shelf.fail ≡ [] };
}

impl SureShelf {
    /// The shelf of these files. No call of it is to fail, and no file is at hand.
    pub fn new(shelf: MemShelf) -> Self
        requires fail { shelf.fail ≡ [] }
        requires at_hand { shelf.at_hand ≡ None }
        ensures { result ≡ shelf }
    {
        SureShelf { shelf }
    }
}

impl Shelf for SureShelf {
    ghost files = { λ m. Some m.files };

    ghost at_hand = { λ m. is_some m.at_hand };

    ghost left = { rest_at_hand };

    ghost given = { λ m. m.given };

    ghost faults = { λ _. 0 };

    fn begin(&mut self, name: &str) -> Result<bool, Failed>
        ensures files { Some self.new.files ≡ Some self.old.files }
        ensures begins { Begins (Some self.old.files) name.now (rest_at_hand self.new) result }
        ensures at_hand { IfOk result (λ found. is_some self.new.at_hand ≡ found) }
        ensures err { OnErr result (is_some self.new.at_hand ≡ false) }
        ensures given { self.new.given ≡ self.old.given }
        ensures cause { HasCause 0 0 result }

        ensures sure { IsOk result }
        ensures begun { self.new ≡ after_begin self.old name.now }
    {
        self.shelf.begin(name)
    }

    fn read(&mut self, buf: &mut [u8]) -> Result<usize, Failed>
        requires room { 0 < length buf.old }
        requires at_hand { IsTrue (is_some self.old.at_hand) }
        ensures files { Some self.new.files ≡ Some self.old.files }
        ensures within { IfOk result (λ count. count ≤ length buf.new) }
        ensures bytes { IfOk result (λ count. TakesFront (rest_at_hand self.old) (rest_at_hand self.new) count buf.new) }
        ensures given { IfOk result (λ count. self.new.given ≡ count_after self.old.given count) }
        ensures given_later { self.old.given ≤ self.new.given }
        ensures given_err { OnErr result (self.new.given ≡ self.old.given) }
        ensures ok { OnOk result (is_some self.new.at_hand ≡ true) }
        ensures err { OnErr result (is_some self.new.at_hand ≡ false) }
        ensures cause { HasCause 0 0 result }

        ensures sure { IsOk result }
        ensures most { IfOk result (λ count. count ≤ self.old.most) }
        ensures taken { IfOk result (λ count. self.new ≡ after_read self.old count) }
    {
        self.shelf.read(buf)
    }
}
