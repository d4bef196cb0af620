//! The shelf over real files.

ghost use Rattle.std.specs.Prelude.{◌≡◌, ◌≤◌, None, false, IfOk};
ghost use Rattle.shelf_io.specs.Count.{count_after};
ghost use Rattle.shelf_io.specs.RealFiles.{closed_shelf};

use crate::again::read_some;
use crate::{Failed, Shelf};
use std::alloc::{AllocError, Global};
use std::fs;
use std::marker::Model;
use std::rt::Files;

/// Real files, read through the runtime. It states no contents, so a missing file is `Failed` too.
#[derive(Drop)]
pub struct FileShelf<R: Files + Drop> {
    rt: R,
    file: Option<R::File>,
    given: u64,
    faults: u64,
}

impl<R: Files + Drop> Model for FileShelf<R> {
    ghost use Rattle.std.specs.Prelude.{is_some};
    ghost use Rattle.shelf_io.specs.RealFiles.{RealShelf};

    ghost Value = { RealShelf };

    ghost view = { λ s. record { at_hand = is_some s.file; given = s.given; faults = s.faults } };
}

impl<R: Files + Clone + Drop> FileShelf<R> {
    /// A shelf over the files that the runtime reaches. The allocator is for what a shelf keeps,
    /// which is nothing yet.
    pub fn new(rt: &R, _alloc: Global) -> Result<Self, AllocError>
        ensures { IfOk result (λ shelf. shelf ≡ closed_shelf) }
    {
        Ok(FileShelf {
            rt: rt.clone()?,
            file: None,
            given: 0,
            faults: 0,
        })
    }
}

impl<R: Files + Drop> FileShelf<R> {
    /// Counts a fault, after which no file is at hand.
    fn fail(&mut self) -> Failed
        ensures fault { self.new ≡ record self.old { at_hand = false; faults = count_after self.old.faults 1 } }
        ensures later { self.old.faults ≤ self.new.faults }
    {
        self.file = None;
        self.faults = self.faults.saturating_add(1);
        Failed
    }
}

impl<R: Files + Drop> Shelf for FileShelf<R> {
    ghost files = { λ _. None };

    ghost at_hand = { λ s. s.at_hand };

    ghost left = { λ _. None };

    ghost given = { λ s. s.given };

    ghost faults = { λ s. s.faults };

    fn begin(&mut self, name: &str) -> Result<bool, Failed> {
        let Ok(file) = fs::open(&self.rt, name) else {
            return Err(self.fail());
        };
        self.file = Some(file);
        Ok(true)
    }

    fn read(&mut self, buf: &mut [u8]) -> Result<usize, Failed> {
        let Some(file) = &mut self.file else {
            unreachable!()
        };
        let Ok(count) = read_some(file, buf) else {
            return Err(self.fail());
        };
        self.given = self.given.saturating_add(count as u64);
        Ok(count)
    }
}
