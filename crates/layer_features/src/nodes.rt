//! Members of objects, and what they say.

ghost use Rattle.std.specs.Prelude.{◌≡◌, ◌<◌, ◌↔◌, ℕ, List, length, slice_get, Some, IfSome, IsTrue, Option};
ghost use Rattle.jtext.specs.Values.{Json};
ghost use Rattle.jtext.specs.Places.{IsReadFrom, HasNodesAt, Entry};
ghost use Rattle.jtext.specs.Lookups.{IsAscii};
ghost use Rattle.layer_features.specs.JsonFeatures.{member_of, says, part_of};
ghost use Rattle.layer_features.specs.InsideNodes.{IsFoundAs};

use crate::features::TextPart;
use jtext::{Doc, Kind, Node, member, same_text};

/// The node of this number.
pub fn node_at(doc: &Doc, number: u32) -> Node
    requires { number < length doc.now.nodes }
    ensures { slice_get doc.now.nodes number ≡ Some result }
{
    doc.nodes.items()[number as usize]
}

/// Whether the node is of this kind.
pub fn is_kind(node: Node, kind: Kind) -> bool
    ensures { IsTrue result ↔ (node.kind ≡ kind) }
{
    node.kind == kind
}

/// The node of the value of the one member of this name, where the value at the node is an object that has one.
pub fn member_of(doc: &Doc, bytes: &[u8], value: u32, name: &[u8]) -> Option<u32>
    requires read { IsReadFrom doc.now bytes.now }
    requires node { value < length doc.now.nodes }
    requires ascii { IsAscii name.now }
    ensures found { (start : ℕ) (is : Json) → HasNodesAt doc.now.nodes bytes.now value start is
        → IsFoundAs doc.now.nodes bytes.now result (member_of name.now value start is) }
    ensures within { IfSome result (λ number. number < length doc.now.nodes) }
{
    if !is_kind(node_at(doc, value), Kind::Object) {
        return None;
    }
    match member(doc, bytes, value, name) {
        Ok(found) => found,
        Err(_) => None,
    }
}

/// Whether the value at the node is a text that says this.
pub fn says(doc: &Doc, bytes: &[u8], value: Option<u32>, text: &[u8]) -> bool
    requires read { IsReadFrom doc.now bytes.now }
    requires node { IfSome value (λ number. number < length doc.now.nodes) }
    requires ascii { IsAscii text.now }
    ensures { (found : Option Entry) → IsFoundAs doc.now.nodes bytes.now value found → result ≡ says text.now found }
{
    match value {
        Some(value) => same_text(doc, bytes, value, text),
        None => false,
    }
}

// The text of the node.
fn text_of(node: Node) -> TextPart
    ensures { result ≡ record { start = node.start; past = node.end } }
{
    TextPart {
        start: node.start,
        past: node.end,
    }
}

/// Where the text of the value at the node is.
pub fn part_at(doc: &Doc, value: Option<u32>) -> Option<TextPart>
    requires { IfSome value (λ number. number < length doc.now.nodes) }
    ensures { (bytes : List ℕ) (found : Option Entry) → IsFoundAs doc.now.nodes bytes value found → result ≡ part_of found }
{
    match value {
        Some(value) => Some(text_of(node_at(doc, value))),
        None => None,
    }
}
