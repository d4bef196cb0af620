//! A list that contracts see as a list, and a part of a slice.

ghost use Rattle.std.specs.Prelude.{◌≡◌, ◌-◌, take, drop};

use std::marker::Model;

/// A list, such as the points of a sheet; contracts see it as a list.
#[derive(Debug, Drop)]
pub struct Listed<T> {
    items: Vec<T>,
}

impl<T> Model for Listed<T> {
    ghost use Rattle.std.specs.Prelude.{List};

    ghost Value = { List T };

    ghost view = { λ l. l.items.items };
}

impl<T> Listed<T> {
    /// The list of the vector's items. It takes no memory.
    pub fn of(items: Vec<T>) -> Self
        ensures { result ≡ items.items }
    {
        Listed { items }
    }

    /// The items, in order.
    pub fn items(&self) -> &[T]
        ensures { result.now ≡ self.now }
    {
        &self.items
    }
}

/// The items from one place to before another, as far as there are some.
pub fn between<T>(items: &[T], from: usize, past: usize) -> &[T]
    ensures { result.now ≡ take (past - from) (drop from items.now) }
{
    let past = past.min(items.len());
    if from < past {
        &items[from..past]
    } else {
        &items[..0]
    }
}
