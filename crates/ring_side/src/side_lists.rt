//! A list of changes of sides and directions.

ghost use Rattle.std.specs.Prelude.{◌≡◌};

use crate::SideChange;
use std::marker::Model;

/// The changes of a run, in order; contracts see them as a list.
#[derive(Debug, Drop)]
pub struct SideList {
    items: Vec<SideChange>,
}

impl Model for SideList {
    ghost use Rattle.std.specs.Prelude.{List};
    ghost use Rattle.ring_side.specs.declared.kinds.SideChange.{SideChange};

    ghost Value = { List SideChange };

    ghost view = { λ l. l.items.items };
}

impl SideList {
    /// The list of the vector's items. It takes no memory.
    pub fn of(items: Vec<SideChange>) -> Self
        ensures { result ≡ items.items }
    {
        SideList { items }
    }

    /// The items, in order.
    pub fn items(&self) -> &[SideChange]
        ensures { result.now ≡ self.now }
    {
        &self.items
    }
}
