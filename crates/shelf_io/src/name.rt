//! The name of a file.

ghost use Rattle.std.specs.Prelude.{◌≡◌, IfOk, IsUtf8};

use std::alloc::{AllocError, Global};
use std::marker::Model;

/// The name of a file, as the words of a command give it. Contracts see its bytes.
#[derive(Debug, Drop)]
pub struct Name {
    text: String,
}

impl Model for Name {
    ghost use Rattle.std.specs.Prelude.{List, ℕ, string_bytes};

    ghost Value = { List ℕ };

    ghost view = { λ name. string_bytes name.text };
}

impl Name {
    /// The name of this word.
    pub fn of(alloc: Global, word: &str) -> Result<Self, AllocError>
        ensures { IfOk result (λ name. name ≡ word.now) }
    {
        Ok(Name {
            text: word.to_string(alloc)?,
        })
    }

    /// The name as text.
    pub fn text(&self) -> &str
        ensures { result.now ≡ self.now }
    {
        self.text.as_str()
    }

    /// The bytes of the name, which are UTF-8.
    pub fn bytes(&self) -> &[u8]
        ensures bytes { result.now ≡ self.now }
        ensures utf8 { IsUtf8 self.now }
    {
        self.text().as_bytes()
    }
}
