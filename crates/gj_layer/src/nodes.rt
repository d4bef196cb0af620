//! Nodes of the document.

ghost use Rattle.std.specs.Prelude.{◌≡◌, ℕ, ◌+◌, ◌<◌, ◌≤◌, ◌↔◌, List, length, slice_get, slice_range, Some, IsTrue};
ghost use Rattle.jtext.specs.Values.{Json, Members};
ghost use Rattle.jtext.specs.Nodes.{node_count, inner_place};
ghost use Rattle.jtext.specs.Places.{IsReadFrom, HasNodesAt, HasKind};
ghost use Rattle.jtext.specs.Lookups.{IsAscii};
ghost use Rattle.sheet_base.specs.declared.faults.LayerFault.TheVariants.{Shape};
ghost use Rattle.gj_layer.specs.Members.{members_at, find_member};
ghost use Rattle.gj_layer.specs.InsideNodes.{Finds};

use jtext::{Doc, Kind, Node, Repeat, member};
use sheet_base::LayerFault;

/// The node of this number.
pub fn node_at(doc: &Doc, number: u32) -> Node
    requires { number < length doc.now.nodes }
    ensures { slice_get doc.now.nodes number ≡ Some result }
{
    doc.nodes.items()[number as usize]
}

/// Whether the node is of this kind.
pub fn is_kind(node: Node, kind: Kind) -> bool
    ensures { IsTrue result ↔ (node.kind ≡ kind) }
{
    node.kind == kind
}

/// The bytes of the node's value.
pub fn text_of(bytes: &[u8], node: Node) -> &[u8]
    requires order { node.start ≤ node.end }
    requires within { node.end ≤ length bytes.now }
    ensures { result.now ≡ slice_range bytes.now node.start node.end }
{
    &bytes[node.start as usize..node.end as usize]
}

/// A value of another form is at the node.
pub fn shape_at(node: Node) -> LayerFault
    ensures { result ≡ Shape node.start }
{
    LayerFault::Shape {
        at: u64::from(node.start),
    }
}

/// The node of the value of the object's one member of this name.
pub fn find(doc: &Doc, bytes: &[u8], object: u32, name: &[u8]) -> Result<Option<u32>, LayerFault>
    requires read { IsReadFrom doc.now bytes.now }
    requires kind { HasKind doc.now.nodes object Kind.Object }
    requires ascii { IsAscii name.now }
    ensures { (start : ℕ) (blank : List ℕ) (members : Members)
        → HasNodesAt doc.now.nodes bytes.now object start (Json.object blank members)
        → Finds doc.now.nodes bytes.now object (object + node_count (Json.object blank members)) result
        (find_member name.now (members_at (inner_place start blank) members)) }
{
    match member(doc, bytes, object, name) {
        Ok(found) => Ok(found),
        Err(Repeat { at }) => Err(LayerFault::Repeat { at }),
    }
}
