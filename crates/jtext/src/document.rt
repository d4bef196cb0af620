//! What was read of a JSON text.

ghost use Rattle.std.specs.Prelude.{◌≡◌};

use std::marker::Model;

/// What a node is.
#[derive(Clone, Copy, Debug, PartialEq, Eq)]
pub enum Kind {
    Null,
    True,
    False,
    Number,
    /// Characters in quotation marks: a value, or the key of a member.
    Text,
    Array,
    Object,
}

/// A value or a key: its bytes from `start` to before `end`, counted from 0, and the number of the
/// first node after those inside it.
#[derive(Clone, Copy, Debug, PartialEq, Eq)]
pub struct Node {
    pub kind: Kind,
    pub start: u32,
    pub end: u32,
    pub next: u32,
}

/// Nodes in order of the text; contracts see them as a list.
#[derive(Debug, Drop)]
pub struct Nodes {
    items: Vec<Node>,
}

impl Model for Nodes {
    ghost use Rattle.std.specs.Prelude.{List};
    ghost use Rattle.jtext.specs.declared.document.Node.{Node};

    ghost Value = { List Node };

    ghost view = { λ n. n.items.items };
}

impl Nodes {
    /// The nodes of the vector. It takes no memory.
    pub fn of(items: Vec<Node>) -> Self
        ensures { result ≡ items.items }
    {
        Nodes { items }
    }

    /// The nodes as a slice.
    pub fn items(&self) -> &[Node]
        ensures { result.now ≡ self.now }
    {
        self.items.as_slice()
    }
}

/// A JSON text that was read: its nodes in order of the text. Node 0 is the value. The nodes inside
/// an array are its elements', those inside an object a key and a value in turn.
#[derive(Debug, Drop)]
pub struct Doc {
    pub nodes: Nodes,
}
