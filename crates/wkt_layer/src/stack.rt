//! The lists in brackets that are open.

ghost use Rattle.std.specs.Prelude.{◌≡◌, [], ◌∷◌, length, OnOk, OnErr, MatchOption, List};

use crate::places::ItemGroup;
use std::alloc::{AllocError, Global};
use std::marker::Model;

/// What is open; contracts see it as a list, the innermost first.
#[derive(Drop)]
pub struct OpenGroups {
    items: Vec<ItemGroup>,
}

impl Model for OpenGroups {
    ghost use Rattle.std.specs.Prelude.{List, reverse};
    ghost use Rattle.wkt_layer.specs.declared.places.ItemGroup.{ItemGroup};

    ghost Value = { List ItemGroup };

    ghost view = { λ s. reverse s.items.items };
}

impl OpenGroups {
    /// Nothing is open.
    pub fn none(alloc: Global) -> OpenGroups
        ensures { result ≡ [] }
    {
        OpenGroups {
            items: Vec::new(alloc),
        }
    }

    /// How many are open.
    pub fn len(&self) -> usize
        ensures { result ≡ length self.now }
    {
        self.items.len()
    }

    /// The innermost one.
    pub fn last(&self) -> Option<ItemGroup>
        ensures { MatchOption result
            (self.now ≡ [])
            (λ one. (outer : List ItemGroup) × (self.now ≡ one ∷ outer)) }
    {
        self.items.last().copied()
    }

    /// Opens one more. After an `Err` nothing has changed.
    pub fn push(&mut self, one: ItemGroup) -> Result<(), AllocError>
        ensures ok { OnOk result (self.new ≡ one ∷ self.old) }
        ensures err { OnErr result (self.new ≡ self.old) }
    {
        self.items.push(one)?;
        Ok(())
    }

    /// Closes the innermost one.
    pub fn pop(&mut self) -> Option<ItemGroup>
        ensures { MatchOption result
            ((self.old ≡ []) × (self.new ≡ []))
            (λ one. self.old ≡ one ∷ self.new) }
    {
        self.items.pop()
    }
}
