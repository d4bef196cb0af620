//! Members of an object by key, and texts, with escapes resolved.

ghost use Rattle.std.specs.Prelude.{◌≡◌, ℕ, ◌+◌, ◌-◌, ◌<◌, ◌≤◌, ◌↔◌, List, length, slice_get, slice_range, Some};
ghost use Rattle.std.specs.Prelude.{IsTrue};
ghost use Rattle.jtext.specs.Values.{Json, Members};
ghost use Rattle.jtext.specs.Nodes.{inner_place};
ghost use Rattle.jtext.specs.Places.{IsReadFrom, HasNodesAt, HasKind, entries_at};
ghost use Rattle.jtext.specs.Lookups.{IsAscii, Says, entries_of_key, only_one};

use crate::document::{Doc, Kind, Node};
use crate::sameness::says;
use thiserror::Error;

/// A key that occurs twice in one object.
#[derive(Clone, Copy, Debug, PartialEq, Eq, Drop, Error)]
#[error("repeated at {at}")]
pub struct Repeat {
    /// Where the second key begins, in bytes from 0.
    pub at: u64,
}

/// The node of the value whose key, with its escapes resolved, is the given one; `None` where no key
/// is. The document was read from the bytes, the node is an object, and the key is of ASCII.
pub fn member(doc: &Doc, bytes: &[u8], object: u32, key: &[u8]) -> Result<Option<u32>, Repeat>
    requires read { IsReadFrom doc.now bytes.now }
    requires kind { HasKind doc.now.nodes object Kind.Object }
    requires ascii { IsAscii key.now }
    ensures { (start : ℕ) (blank : List ℕ) (members : Members)
        → HasNodesAt doc.now.nodes bytes.now object start (Json.object blank members)
        → result ≡ only_one (entries_of_key key.now (entries_at (object + 1) (inner_place start blank) members)) }
{
    let nodes = doc.nodes.items();
    let end = next_behind(nodes, object as usize);
    let mut at = object + 1;
    let mut found = None;
    while at < end {
        if same_text(doc, bytes, at, key) {
            match found {
                Some(_) => {
                    return Err(Repeat {
                        at: u64::from(nodes[at as usize].start),
                    });
                }
                None => found = Some(at + 1),
            }
        }
        at = next_behind(nodes, at as usize + 1);
    }
    Ok(found)
}

/// The number of the first node after those inside this one.
fn next_behind(nodes: &[Node], number: usize) -> u32
    requires { number < length nodes.now }
    ensures { (node : Node) → slice_get nodes.now number ≡ Some node → result ≡ node.next }
{
    nodes[number].next
}

/// Is the node a text that, with its escapes resolved, is the given one of ASCII? The document was
/// read from the bytes.
pub fn same_text(doc: &Doc, bytes: &[u8], node: u32, text: &[u8]) -> bool
    requires read { IsReadFrom doc.now bytes.now }
    requires node { node < length doc.now.nodes }
    requires ascii { IsAscii text.now }
    ensures { (start : ℕ) (value : Json) → HasNodesAt doc.now.nodes bytes.now node start value
        → (IsTrue result ↔ Says value text.now) }
{
    let found = doc.nodes.items()[node as usize];
    match found.kind {
        Kind::Text => says(between_marks(bytes, found), text),
        _ => false,
    }
}

/// The bytes of a text between its quotation marks.
fn between_marks(bytes: &[u8], node: Node) -> &[u8]
    requires marks { node.start + 2 ≤ node.end }
    requires within { node.end ≤ length bytes.now }
    ensures { result.now ≡ slice_range bytes.now (node.start + 1) (node.end - 1) }
{
    &bytes[node.start as usize + 1..node.end as usize - 1]
}

/// Laws: each node of a document has a value, and a node of an object has an object. So the
/// clauses of `member` and `same_text` on a value that is there say something of each of their
/// calls.
pub fn each_node_has_a_value()
    ensures value { (doc : Doc) → (bytes : List ℕ) → (number : ℕ) → IsReadFrom doc bytes → number < length doc.nodes
        → (start : ℕ) × (value : Json) × HasNodesAt doc.nodes bytes number start value }
    ensures object { (doc : Doc) → (bytes : List ℕ) → (number : ℕ) → IsReadFrom doc bytes → HasKind doc.nodes number Kind.Object
        → (start : ℕ) × (blank : List ℕ) × (members : Members) × HasNodesAt doc.nodes bytes number start (Json.object blank members) }
{}
