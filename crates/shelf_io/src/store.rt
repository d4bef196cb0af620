//! Files in memory that is reserved at once.

ghost use Rattle.std.specs.Prelude.{◌≡◌, ◌↔◌, ◌<◌, ◌≤◌, length, IsTrue, IsFalse, IfOk, option_copied};
ghost use Rattle.shelf_io.specs.FileStore.{empty_store, store_with_bytes, store_with_file};
ghost use Rattle.shelf_io.specs.Files.{bytes_of};

use std::alloc::{AllocError, Global};
use std::marker::Model;

/// How many bytes the name and the content of a file have.
#[derive(Clone, Copy)]
pub(crate) struct Part {
    pub(crate) name: usize,
    pub(crate) content: usize,
}

/// Files in room for this many more files and bytes. The text of all is name and content of each in
/// turn.
#[derive(Drop)]
pub(crate) struct Store {
    text: Vec<u8>,
    parts: Vec<Part>,
    files: usize,
    bytes: usize,
}

impl Model for Store {
    ghost use Rattle.shelf_io.specs.FileStore.{FileStore};

    ghost Value = { FileStore };

    ghost use Rattle.shelf_io.specs.FileStoreFields.{store_of, IsSound};

    ghost view = { store_of };

    ghost invariant = { IsSound };
}

impl Store {
    /// No files, and room for this many files and for this many bytes of names and contents.
    pub(crate) fn new(alloc: Global, files: usize, bytes: usize) -> Result<Self, AllocError>
        ensures { IfOk result (λ store. store ≡ empty_store files bytes) }
    {
        Ok(Store {
            text: Vec::with_capacity(alloc, bytes)?,
            parts: Vec::with_capacity(alloc, files)?,
            files,
            bytes,
        })
    }

    /// Adds an empty file of this name where there is room for it.
    pub(crate) fn add(&mut self, name: &str) -> bool
        ensures fits { IsTrue result ↔ ((0 < self.old.files) × (length name.now ≤ self.old.bytes)) }
        ensures added { IsTrue result → self.new ≡ store_with_file name.now self.old }
        ensures kept { IsFalse result → self.new ≡ self.old }
    {
        if self.files == 0 || name.len() > self.bytes {
            return false;
        }
        let part = Part {
            name: name.len(),
            content: 0,
        };
        self.files -= 1;
        self.bytes -= name.len();
        self.parts.push(part).is_ok() && self.text.extend_from_slice(name.as_bytes()).is_ok()
    }

    /// Adds these bytes at the end of the last file where there is room for them.
    pub(crate) fn append(&mut self, bytes: &[u8]) -> bool
        requires { 0 < length self.old.made }
        ensures fits { IsTrue result ↔ (length bytes.now ≤ self.old.bytes) }
        ensures added { IsTrue result → self.new ≡ store_with_bytes bytes.now self.old }
        ensures some { 0 < length self.new.made }
        ensures kept { IsFalse result → self.new ≡ self.old }
    {
        if bytes.len() > self.bytes {
            return false;
        }
        let last = self.parts.len() - 1;
        self.bytes -= bytes.len();
        self.parts[last].content += bytes.len();
        self.text.extend_from_slice(bytes).is_ok()
    }

    /// The bytes of the file of this name. `None`: there is none.
    pub(crate) fn bytes(&self, name: &str) -> Option<&[u8]>
        ensures { option_copied result ≡ bytes_of self.now.made name.now }
    {
        let mut rest = self.text.as_slice();
        for part in &self.parts {
            let (found, after) = rest.split_at(part.name);
            let (content, later) = after.split_at(part.content);
            if found == name.as_bytes() {
                return Some(content);
            }
            rest = later;
        }
        None
    }
}
