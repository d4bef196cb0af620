//! A shelf in memory, for tests: calls of chosen numbers fail.

ghost use Rattle.std.specs.Prelude.{◌≡◌, ◌↔◌, ◌<◌, ◌≤◌, [], ◌∷◌, ◌++◌, length, Contains, IsTrue, IsErr, IfOk, OnOk};
ghost use Rattle.std.specs.Prelude.{OnErr, Ok, is_some, Some, None, true, false, ◌+◌, if◌then◌else◌};
ghost use Rattle.shelf_io.specs.Count.{HasCause, count_after};
ghost use Rattle.shelf_io.specs.Files.{bytes_of, number_of, AreDistinct};
ghost use Rattle.shelf_io.specs.MemoryShelf.{after_begin, after_fault, after_read, rest_at_hand};
ghost use Rattle.shelf_io.specs.Shelf.{Begins, TakesFront};

use crate::mem_file::{File, fails, position_of};
use crate::{Failed, Shelf};
use std::alloc::{AllocError, Global};
use std::marker::Model;

/// A shelf in memory, whose calls can be made to fail by their numbers, counted from 0 over its
/// two functions. No two of its files have the same name.
#[derive(Drop)]
pub struct MemShelf {
    alloc: Global,
    files: Vec<File>,
    most: usize,
    fail: Vec<u64>,
    at_hand: Option<usize>,
    place: usize,
    calls: u64,
    faults: u64,
    given: u64,
}

impl Model for MemShelf {
    ghost use Rattle.shelf_io.specs.MemoryShelf.{MemoryShelf};

    ghost Value = { MemoryShelf };

    ghost use Rattle.shelf_io.specs.MemoryShelfFields.{shelf_of, IsSound};

    ghost view = { shelf_of };

    ghost invariant = { IsSound };
}

impl MemShelf {
    ghost use Rattle.shelf_io.specs.MemoryShelf.{empty_shelf};

    /// A shelf without files, whose reads give at most `most` bytes.
    pub fn new(alloc: Global, most: usize) -> Self
        requires { 0 < most }
        ensures { result ≡ empty_shelf most }
    {
        MemShelf {
            alloc,
            files: Vec::new(alloc),
            most,
            fail: Vec::new(alloc),
            at_hand: None,
            place: 0,
            calls: 0,
            faults: 0,
            given: 0,
        }
    }

    /// Adds a file whose name the shelf lacks, as the last one.
    pub fn add(&mut self, name: &str, bytes: &[u8]) -> Result<(), AllocError>
        requires { bytes_of self.old.files name.now ≡ None }
        ensures ok { OnOk result (self.new ≡ record self.old { files = self.old.files ++ (name.now, bytes.now) ∷ [] }) }
        ensures err { OnErr result (self.new ≡ self.old) }
    {
        let file = File {
            name: name.to_string(self.alloc)?,
            bytes: bytes.to_vec(self.alloc)?,
        };
        self.files.push(file)?;
        Ok(())
    }

    /// Lets the call of this number fail.
    pub fn fail_at(&mut self, call: u64) -> Result<(), AllocError>
        ensures ok { OnOk result (self.new ≡ record self.old { fail = self.old.fail ++ call ∷ [] }) }
        ensures err { OnErr result (self.new ≡ self.old) }
    {
        self.fail.push(call)?;
        Ok(())
    }

    /// How many calls have failed.
    pub fn faults(&self) -> u64
        ensures { result ≡ self.now.faults }
    {
        self.faults
    }

    /// Counts a call, and says whether it fails. Then it is a fault too, after which no file is at hand.
    fn call_fails(&mut self) -> bool
        ensures listed { IsTrue result ↔ Contains self.old.fail self.old.calls }
        ensures after { self.new ≡ (if result then after_fault self.old
            else record self.old { calls = count_after self.old.calls 1 }) }
        ensures later { self.old.faults ≤ self.new.faults }
        ensures distinct { AreDistinct self.new.files }
    {
        if fails(&self.fail, &mut self.calls, &mut self.faults) {
            self.at_hand = None;
            self.place = 0;
            return true;
        }
        false
    }

    /// Puts the first file of this name at hand, and says whether there is one.
    fn put_at_hand(&mut self, name: &str) -> bool
        ensures found { result ≡ is_some self.new.at_hand }
        ensures begins { Begins (Some self.old.files) name.now (rest_at_hand self.new) (Ok result) }
        ensures begun { self.new ≡ record self.old { at_hand = number_of self.old.files name.now; place = 0 } }
        ensures distinct { AreDistinct self.new.files }
    {
        self.at_hand = position_of(&self.files, name);
        self.place = 0;
        self.at_hand.is_some()
    }

    /// Takes some next bytes of the file at hand into the first part of `buf`, and says how many.
    fn take_front(&mut self, buf: &mut [u8]) -> usize
        requires room { 0 < length buf.old }
        requires at_hand { IsTrue (is_some self.old.at_hand) }
        ensures within { result ≤ length buf.new }
        ensures most { result ≤ self.old.most }
        ensures bytes { TakesFront (rest_at_hand self.old) (rest_at_hand self.new) result buf.new }
        ensures taken { self.new ≡ record self.old {
          place = self.old.place + result;
          given = count_after self.old.given result;
        } }
        ensures later { self.old.given ≤ self.new.given }
    {
        let Some(number) = self.at_hand else {
            unreachable!()
        };
        let rest = &self.files[number].bytes[self.place..];
        let count = rest.len().min(buf.len()).min(self.most);
        buf[..count].copy_from_slice(&rest[..count]);
        self.place += count;
        self.given = self.given.saturating_add(count as u64);
        count
    }
}

impl Shelf for MemShelf {
    ghost files = { λ m. Some m.files };

    ghost at_hand = { λ m. is_some m.at_hand };

    ghost left = { rest_at_hand };

    ghost given = { λ m. m.given };

    ghost faults = { λ m. m.faults };

    fn begin(&mut self, name: &str) -> Result<bool, Failed>
        ensures files { Some self.new.files ≡ Some self.old.files }
        ensures begins { Begins (Some self.old.files) name.now (rest_at_hand self.new) result }
        ensures at_hand { IfOk result (λ found. is_some self.new.at_hand ≡ found) }
        ensures err { OnErr result (is_some self.new.at_hand ≡ false) }
        ensures given { self.new.given ≡ self.old.given }
        ensures cause { HasCause self.old.faults self.new.faults result }

        // Exactly the calls whose numbers are listed fail.
        ensures listed { IsErr result ↔ Contains self.old.fail self.old.calls }
        ensures begun { OnOk result (self.new ≡ after_begin self.old name.now) }
        ensures failed { OnErr result (self.new ≡ after_fault self.old) }
        ensures distinct { AreDistinct self.new.files }
    {
        if self.call_fails() {
            return Err(Failed);
        }
        Ok(self.put_at_hand(name))
    }

    fn read(&mut self, buf: &mut [u8]) -> Result<usize, Failed>
        requires room { 0 < length buf.old }
        requires at_hand { IsTrue (is_some self.old.at_hand) }
        ensures files { Some self.new.files ≡ Some self.old.files }
        ensures within { IfOk result (λ count. count ≤ length buf.new) }
        ensures bytes { IfOk result (λ count. TakesFront (rest_at_hand self.old) (rest_at_hand self.new) count buf.new) }
        ensures given { IfOk result (λ count. self.new.given ≡ count_after self.old.given count) }
        ensures given_later { self.old.given ≤ self.new.given }
        ensures given_err { OnErr result (self.new.given ≡ self.old.given) }
        ensures ok { OnOk result (is_some self.new.at_hand ≡ true) }
        ensures err { OnErr result (is_some self.new.at_hand ≡ false) }
        ensures cause { HasCause self.old.faults self.new.faults result }

        ensures listed { IsErr result ↔ Contains self.old.fail self.old.calls }
        ensures most { IfOk result (λ count. count ≤ self.old.most) }
        ensures taken { IfOk result (λ count. self.new ≡ after_read self.old count) }
        ensures failed { OnErr result (self.new ≡ after_fault self.old) }
    {
        if self.call_fails() {
            return Err(Failed);
        }
        Ok(self.take_front(buf))
    }
}
