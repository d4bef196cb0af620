//! A press in memory, for tests: calls of chosen numbers fail.

ghost use Rattle.std.specs.Prelude.{◌≡◌, ◌↔◌, ◌<◌, ◌≤◌, [], ◌∷◌, ◌++◌, length, map, min, take, true, false, Some};
ghost use Rattle.std.specs.Prelude.{Contains, IsErr, IsTrue, IfOk, OnOk, OnErr, option_copied, is_err};
ghost use Rattle.std.specs.Prelude.{if◌then◌else◌};
ghost use Rattle.shelf_io.specs.Count.{HasCause, count_after};
ghost use Rattle.shelf_io.specs.Files.{bytes_of};
ghost use Rattle.shelf_io.specs.Made.{Adds, Appends, HasSameFiles, Lacks, with_bytes, with_file};
ghost use Rattle.shelf_io.specs.MemoryFile.{named_bytes};
ghost use Rattle.shelf_io.specs.MemoryPress.{after_begin, after_end, after_end_fault, after_fault, after_write};

use crate::mem_file::{File, fails, position_of};
use crate::{Failed, Press};
use std::alloc::{AllocError, Global};
use std::marker::Model;

/// A press in memory, whose calls can be made to fail by their numbers, counted from 0 over its
/// three functions. A call that finds no memory fails too.
#[derive(Drop)]
pub struct MemPress {
    alloc: Global,
    made: Vec<File>,
    most: usize,
    fail: Vec<u64>,
    at_hand: bool,
    broken: bool,
    calls: u64,
    faults: u64,
}

impl Model for MemPress {
    ghost use Rattle.shelf_io.specs.MemoryPress.{MemoryPress};

    ghost Value = { MemoryPress };

    ghost use Rattle.shelf_io.specs.MemoryPressFields.{press_of, IsSound};

    ghost view = { press_of };

    ghost invariant = { IsSound };
}

impl MemPress {
    ghost use Rattle.shelf_io.specs.MemoryPress.{empty_press};

    /// A press that has made nothing, whose writes take at most `most` bytes.
    pub fn new(alloc: Global, most: usize) -> Self
        requires { 0 < most }
        ensures { result ≡ empty_press most }
    {
        MemPress {
            alloc,
            made: Vec::new(alloc),
            most,
            fail: Vec::new(alloc),
            at_hand: false,
            broken: false,
            calls: 0,
            faults: 0,
        }
    }

    /// Lets the call of this number fail.
    pub fn fail_at(&mut self, call: u64) -> Result<(), AllocError>
        ensures ok { OnOk result (self.new ≡ record self.old { fail = self.old.fail ++ call ∷ [] }) }
        ensures err { OnErr result (self.new ≡ self.old) }
    {
        self.fail.push(call)?;
        Ok(())
    }

    /// How many calls have failed.
    pub fn faults(&self) -> u64
        ensures { result ≡ self.now.faults }
    {
        self.faults
    }

    /// The bytes of the file of this name. `None`: none was begun.
    pub fn made_bytes(&self, name: &str) -> Option<&[u8]>
        ensures { option_copied result ≡ bytes_of self.now.made name.now }
    {
        match position_of(&self.made, name) {
            Some(number) => Some(self.made[number].bytes.as_slice()),
            None => None,
        }
    }

    /// Counts a call, and says whether it fails. Then it is a fault too.
    fn call_fails(&mut self) -> bool
        ensures listed { IsTrue result ↔ Contains self.old.fail self.old.calls }
        ensures after { self.new ≡ record self.old {
          broken = result;
          calls = count_after self.old.calls 1;
          faults = (if result then count_after self.old.faults 1 else self.old.faults);
        } }
        ensures later { self.old.faults ≤ self.new.faults }
    {
        self.broken = fails(&self.fail, &mut self.calls, &mut self.faults);
        self.broken
    }

    /// Counts a fault.
    fn fail(&mut self) -> Failed
        ensures fault { self.new ≡ record self.old { broken = true; faults = count_after self.old.faults 1 } }
        ensures later { self.old.faults ≤ self.new.faults }
    {
        self.broken = true;
        self.faults = self.faults.saturating_add(1);
        Failed
    }

    /// Adds an empty file of this name and puts it at hand.
    fn begin_file(&mut self, name: &str) -> Result<(), AllocError>
        ensures ok { OnOk result (self.new ≡ record self.old {
          made = with_file name.now self.old.made;
          at_hand = true;
        }) }
        ensures err { OnErr result (self.new ≡ self.old) }
    {
        add_file(self.alloc, &mut self.made, name)?;
        self.at_hand = true;
        Ok(())
    }

    /// Writes some first bytes of the piece at the end of the last file, and says how many.
    fn append_front(&mut self, piece: &[u8]) -> Result<usize, AllocError>
        requires some { 0 < length piece.now }
        requires at_hand { IsTrue self.old.at_hand }
        ensures count { IfOk result (λ count. count ≡ min (length piece.now) self.old.most) }
        ensures some { IfOk result (λ count. 0 < count) }
        ensures ok { IfOk result (λ count. self.new ≡ record self.old {
          made = with_bytes (take count piece.now) self.old.made;
        }) }
        ensures err { OnErr result (self.new ≡ self.old) }
    {
        let count = piece.len().min(self.most);
        append_last(&mut self.made, &piece[..count])?;
        Ok(count)
    }
}

impl Press for MemPress {
    ghost made = { λ p. Some p.made };

    ghost at_hand = { λ p. p.at_hand };

    ghost faults = { λ p. p.faults };

    ghost broken = { λ p. p.broken };

    fn begin(&mut self, name: &str) -> Result<(), Failed>
        requires free { self.old.at_hand ≡ false }
        requires new { Lacks (Some self.old.made) name.now }
        ensures ok { OnOk result (Adds (Some self.old.made) (Some self.new.made) name.now) }
        ensures ok_at_hand { OnOk result (self.new.at_hand ≡ true) }
        ensures err { OnErr result (HasSameFiles (Some self.old.made) (Some self.new.made)) }
        ensures err_at_hand { OnErr result (self.new.at_hand ≡ false) }
        ensures cause { HasCause self.old.faults self.new.faults result }
        ensures broken { self.new.broken ≡ is_err result }

        // Each call whose number is listed fails.
        ensures listed { Contains self.old.fail self.old.calls → IsErr result }
        ensures begun { OnOk result (self.new ≡ after_begin self.old name.now) }
        ensures failed { OnErr result (self.new ≡ after_fault self.old) }
    {
        if self.call_fails() {
            return Err(Failed);
        }
        let Ok(()) = self.begin_file(name) else {
            return Err(self.fail());
        };
        Ok(())
    }

    fn write(&mut self, piece: &[u8]) -> Result<usize, Failed>
        requires some { 0 < length piece.now }
        requires at_hand { IsTrue self.old.at_hand }
        ensures within { IfOk result (λ count. (0 < count) × (count ≤ length piece.now)) }
        ensures ok { IfOk result (λ count. Appends (Some self.old.made) (Some self.new.made) (take count piece.now)) }
        ensures err { OnErr result (HasSameFiles (Some self.old.made) (Some self.new.made)) }
        ensures at_hand { self.new.at_hand ≡ true }
        ensures cause { HasCause self.old.faults self.new.faults result }
        ensures broken { self.new.broken ≡ is_err result }

        ensures listed { Contains self.old.fail self.old.calls → IsErr result }
        ensures most { IfOk result (λ count. count ≡ min (length piece.now) self.old.most) }
        ensures written { IfOk result (λ count. self.new ≡ after_write self.old (take count piece.now)) }
        ensures failed { OnErr result (self.new ≡ after_fault self.old) }
    {
        if self.call_fails() {
            return Err(Failed);
        }
        let Ok(count) = self.append_front(piece) else {
            return Err(self.fail());
        };
        Ok(count)
    }

    fn end(&mut self) -> Result<(), Failed>
        requires { IsTrue self.old.at_hand }
        ensures made { HasSameFiles (Some self.old.made) (Some self.new.made) }
        ensures at_hand { self.new.at_hand ≡ false }
        ensures cause { HasCause self.old.faults self.new.faults result }
        ensures broken { self.new.broken ≡ is_err result }

        // Exactly the calls whose numbers are listed fail.
        ensures listed { IsErr result ↔ Contains self.old.fail self.old.calls }
        ensures ended { OnOk result (self.new ≡ after_end self.old) }
        ensures failed { OnErr result (self.new ≡ after_end_fault self.old) }
    {
        self.at_hand = false;
        self.broken = fails(&self.fail, &mut self.calls, &mut self.faults);
        if self.broken {
            return Err(Failed);
        }
        Ok(())
    }
}

/// Adds an empty file of this name.
fn add_file(alloc: Global, made: &mut Vec<File>, name: &str) -> Result<(), AllocError>
    ensures ok { OnOk result (map named_bytes made.new.items ≡ with_file name.now (map named_bytes made.old.items)) }
    ensures err { OnErr result (made.new.items ≡ made.old.items) }
{
    let file = File {
        name: name.to_string(alloc)?,
        bytes: Vec::new(alloc),
    };
    made.push(file)?;
    Ok(())
}

/// Writes bytes at the end of the last file.
fn append_last(made: &mut [File], bytes: &[u8]) -> Result<(), AllocError>
    requires { 0 < length made.old }
    ensures ok { OnOk result (map named_bytes made.new ≡ with_bytes bytes.now (map named_bytes made.old)) }
    ensures err { OnErr result (map named_bytes made.new ≡ map named_bytes made.old) }
{
    let last = made.len() - 1;
    made[last].bytes.extend_from_slice(bytes)?;
    Ok(())
}
