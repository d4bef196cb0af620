//! A press in memory of a fixed size, whose calls never fail.

ghost use Rattle.std.specs.Prelude.{◌≡◌, ◌<◌, ◌≤◌, length, take, IsTrue, IfOk, IfSome, OnOk, OnErr, Ok, Some, None};
ghost use Rattle.std.specs.Prelude.{true, false, option_copied, is_err};
ghost use Rattle.shelf_io.specs.Count.{HasCause};
ghost use Rattle.shelf_io.specs.Files.{bytes_of};
ghost use Rattle.shelf_io.specs.Made.{Adds, Appends, HasSameFiles, Lacks};
ghost use Rattle.shelf_io.specs.FileStore.{empty_store};
ghost use Rattle.shelf_io.specs.ReservedPress.{AddsWithin, AppendsWithin, made_of};

use crate::store::Store;
use crate::{Failed, Press};
use std::alloc::{AllocError, Global};
use std::marker::Model;

/// A press in memory that is reserved at its making. Its calls never fail. It states the files that
/// it made as long as all that came fits that memory. Past it, it takes the bytes and drops them.
#[derive(Drop)]
pub struct SurePress {
    /// The files, as long as all that came fits.
    store: Option<Store>,
    at_hand: bool,
}

impl Model for SurePress {
    ghost use Rattle.std.specs.Prelude.{◌<◌, IfSome, IsTrue, length};
    ghost use Rattle.shelf_io.specs.ReservedPress.{ReservedPress};

    ghost Value = { ReservedPress };

    ghost view = { λ p. record { store = p.store; at_hand = p.at_hand } };

    // A file that is at hand is the last one.
    ghost invariant = { λ p. IsTrue p.at_hand → IfSome p.store (λ s. 0 < length s.made) };
}

impl SurePress {
    /// A press that has made nothing, with room for this many files and for this many bytes of names and
    /// contents together.
    pub fn new(alloc: Global, files: u32, bytes: u64) -> Result<Self, AllocError>
        ensures { IfOk result (λ press. press ≡ record { store = Some (empty_store files bytes); at_hand = false }) }
    {
        Ok(SurePress {
            store: Some(Store::new(alloc, files as usize, bytes as usize)?),
            at_hand: false,
        })
    }

    /// The bytes of the file of this name, as long as all that came fits. `None`: none was begun, or
    /// more came than fits.
    pub fn made_bytes(&self, name: &str) -> Option<&[u8]>
        ensures told { IfSome (made_of self.now) (λ files. option_copied result ≡ bytes_of files name.now) }
        ensures untold { made_of self.now ≡ None → result ≡ None }
    {
        match &self.store {
            Some(store) => store.bytes(name),
            None => None,
        }
    }
}

impl Press for SurePress {
    ghost made = { made_of };

    ghost at_hand = { λ p. p.at_hand };

    ghost faults = { λ _. 0 };

    ghost broken = { λ _. false };

    fn begin(&mut self, name: &str) -> Result<(), Failed>
        requires free { self.old.at_hand ≡ false }
        requires new { Lacks (made_of self.old) name.now }
        ensures ok { OnOk result (Adds (made_of self.old) (made_of self.new) name.now) }
        ensures ok_at_hand { OnOk result (self.new.at_hand ≡ true) }
        ensures err { OnErr result (HasSameFiles (made_of self.old) (made_of self.new)) }
        ensures err_at_hand { OnErr result (self.new.at_hand ≡ false) }
        ensures cause { HasCause 0 0 result }
        ensures broken { false ≡ is_err result }

        ensures sure { result ≡ Ok tt }
        ensures adds { AddsWithin self.old.store self.new.store name.now }
    {
        if let Some(store) = &mut self.store {
            if !store.add(name) {
                self.store = None;
            }
        }
        self.at_hand = true;
        Ok(())
    }

    fn write(&mut self, piece: &[u8]) -> Result<usize, Failed>
        requires some { 0 < length piece.now }
        requires at_hand { IsTrue self.old.at_hand }
        ensures within { IfOk result (λ count. (0 < count) × (count ≤ length piece.now)) }
        ensures ok { IfOk result (λ count. Appends (made_of self.old) (made_of self.new) (take count piece.now)) }
        ensures err { OnErr result (HasSameFiles (made_of self.old) (made_of self.new)) }
        ensures at_hand { self.new.at_hand ≡ true }
        ensures cause { HasCause 0 0 result }
        ensures broken { false ≡ is_err result }

        ensures whole { result ≡ Ok (length piece.now) }
        ensures appends { AppendsWithin self.old.store self.new.store piece.now }
    {
        if let Some(store) = &mut self.store {
            if !store.append(piece) {
                self.store = None;
            }
        }
        Ok(piece.len())
    }

    fn end(&mut self) -> Result<(), Failed>
        requires { IsTrue self.old.at_hand }
        ensures made { HasSameFiles (made_of self.old) (made_of self.new) }
        ensures at_hand { self.new.at_hand ≡ false }
        ensures cause { HasCause 0 0 result }
        ensures broken { false ≡ is_err result }

        ensures sure { result ≡ Ok tt }
        ensures kept { self.new.store ≡ self.old.store }
    {
        self.at_hand = false;
        Ok(())
    }
}
