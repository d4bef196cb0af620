//! Objects: their types, and the members that are looked at.

ghost use Rattle.std.specs.Prelude.{◌≡◌, ℕ, ◌+◌, ◌-◌, ◌<◌, ◌^◌, Bool, List, length, slice_get, Option, Some, Ok, IfOk};
ghost use Rattle.jtext.specs.Characters.{Char, units_of};
ghost use Rattle.jtext.specs.Values.{Json, Members};
ghost use Rattle.jtext.specs.Nodes.{node_count, inner_place};
ghost use Rattle.jtext.specs.Places.{IsReadFrom, HasNodesAt, HasKind};
ghost use Rattle.jtext.specs.Lookups.{IsAscii, are_same};
ghost use Rattle.jtext.specs.declared.document.Node.{Node};
ghost use Rattle.gj_layer.specs.Members.{Member, members_at};
ghost use Rattle.gj_layer.specs.Objects.{type_named, allowed_type, type_of, type_in, find_crs, with_content, object_type};
ghost use Rattle.gj_layer.specs.Paths.{Part};
ghost use Rattle.gj_layer.specs.Documents.{reading};
ghost use Rattle.gj_layer.specs.InsideNodes.{AreFound, Finds, Holds};
ghost use Rattle.gj_layer.specs.InsideFrames.{edit_at, value_edits, IsContentAt, Looks, Opens};
ghost use Rattle.sheet_base.specs.declared.edits.What.{What};

use crate::forms::{GeoType, Holder, ValueForm};
use crate::frames::{ByteSpan, Ending, OpenFrame};
use crate::nodes::{find, is_kind, node_at, shape_at};
use crate::pass::PathsRead;
use jtext::{Doc, Kind, same_text};
use sheet_base::LayerFault;

/// The type of an object, and the values of its members that are looked at.
#[derive(Clone, Copy)]
pub struct Looked {
    pub kind: GeoType,
    pub bbox: Option<u32>,
    pub crs: Option<u32>,
    pub content: Option<u32>,
}

/// Whether the text at this node, with its escapes resolved, is the other one.
fn tells(doc: &Doc, bytes: &[u8], value: u32, text: &[u8]) -> bool
    requires read { IsReadFrom doc.now bytes.now }
    requires node { value < length doc.now.nodes }
    requires ascii { IsAscii text.now }
    ensures { (start : ℕ) (chars : List Char) → HasNodesAt doc.now.nodes bytes.now value start (Json.quoted chars)
        → result ≡ are_same (units_of chars) text.now }
{
    same_text(doc, bytes, value, text)
}

/// The type that a text names.
fn type_named(doc: &Doc, bytes: &[u8], value: u32) -> Option<GeoType>
    requires read { IsReadFrom doc.now bytes.now }
    requires node { value < length doc.now.nodes }
    ensures { (start : ℕ) (chars : List Char) → HasNodesAt doc.now.nodes bytes.now value start (Json.quoted chars)
        → result ≡ type_named (units_of chars) }
{
    if tells(doc, bytes, value, b"FeatureCollection") {
        Some(GeoType::FeatureCollection)
    } else if tells(doc, bytes, value, b"Feature") {
        Some(GeoType::Feature)
    } else if tells(doc, bytes, value, b"GeometryCollection") {
        Some(GeoType::GeometryCollection)
    } else if tells(doc, bytes, value, b"Point") {
        Some(GeoType::Point)
    } else if tells(doc, bytes, value, b"MultiPoint") {
        Some(GeoType::MultiPoint)
    } else if tells(doc, bytes, value, b"LineString") {
        Some(GeoType::LineString)
    } else if tells(doc, bytes, value, b"MultiLineString") {
        Some(GeoType::MultiLineString)
    } else if tells(doc, bytes, value, b"Polygon") {
        Some(GeoType::Polygon)
    } else if tells(doc, bytes, value, b"MultiPolygon") {
        Some(GeoType::MultiPolygon)
    } else {
        None
    }
}

/// The type, where it may be there. Its name begins at `at`.
fn allow_type(holder: Holder, at: u32, found: Option<GeoType>) -> Result<GeoType, LayerFault>
    ensures { result ≡ allowed_type holder at found }
{
    match found {
        Some(kind) => {
            if holder.allows(kind) {
                Ok(kind)
            } else {
                Err(LayerFault::Kind { at: u64::from(at) })
            }
        }
        None => Err(LayerFault::Kind { at: u64::from(at) }),
    }
}

/// The type that the value of `type` names, where it may be there.
fn type_of(
    doc: &Doc,
    bytes: &[u8],
    holder: Holder,
    object: u32,
    value: u32,
) -> Result<GeoType, LayerFault>
    requires read { IsReadFrom doc.now bytes.now }
    requires object { object < length doc.now.nodes }
    requires value { value < length doc.now.nodes }
    ensures { (start at : ℕ) (whole is : Json) → HasNodesAt doc.now.nodes bytes.now object start whole
        → HasNodesAt doc.now.nodes bytes.now value at is → result ≡ type_of holder start at is }
{
    let node = node_at(doc, value);
    if is_kind(node, Kind::Text) {
        allow_type(holder, node.start, type_named(doc, bytes, value))
    } else {
        Err(shape_at(node_at(doc, object)))
    }
}

/// The type that is stated, where one is.
fn type_in(
    doc: &Doc,
    bytes: &[u8],
    holder: Holder,
    object: u32,
    told: Option<u32>,
) -> Result<GeoType, LayerFault>
    requires read { IsReadFrom doc.now bytes.now }
    requires object { object < length doc.now.nodes }
    requires told { (past : ℕ) × (one : Option Member) × AreFound doc.now.nodes bytes.now object past told one }
    ensures { (start past : ℕ) (whole : Json) (one : Option Member) → HasNodesAt doc.now.nodes bytes.now object start whole
        → AreFound doc.now.nodes bytes.now object past told one → result ≡ type_in holder start one }
{
    match told {
        Some(value) => type_of(doc, bytes, holder, object, value),
        None => Err(shape_at(node_at(doc, object))),
    }
}

/// The value of `crs`, where that is looked at.
fn find_crs(doc: &Doc, bytes: &[u8], holder: Holder, object: u32) -> Result<Option<u32>, LayerFault>
    requires read { IsReadFrom doc.now bytes.now }
    requires kind { HasKind doc.now.nodes object Kind.Object }
    ensures { (start : ℕ) (blank : List ℕ) (members : Members)
        → HasNodesAt doc.now.nodes bytes.now object start (Json.object blank members)
        → Finds doc.now.nodes bytes.now object (object + node_count (Json.object blank members)) result
        (find_crs holder (members_at (inner_place start blank) members)) }
{
    if holder.has_crs() {
        find(doc, bytes, object, b"crs")
    } else {
        Ok(None)
    }
}

/// The type, where nothing is missing that it needs.
fn with_content(kind: GeoType, start: u32, content: Option<u32>) -> Result<GeoType, LayerFault>
    ensures { (nodes : List Node) (bytes : List ℕ) (object past : ℕ) (one : Option Member)
        → AreFound nodes bytes object past content one → result ≡ with_content kind start one }
{
    match content {
        Some(_) => Ok(kind),
        None => match kind {
            GeoType::Feature => Ok(kind),
            _ => Err(LayerFault::Shape {
                at: u64::from(start),
            }),
        },
    }
}

/// Looks at an object's members.
fn look(doc: &Doc, bytes: &[u8], holder: Holder, object: u32) -> Result<Looked, LayerFault>
    requires read { IsReadFrom doc.now bytes.now }
    requires kind { HasKind doc.now.nodes object Kind.Object }
    ensures { (start : ℕ) (blank : List ℕ) (members : Members)
        → HasNodesAt doc.now.nodes bytes.now object start (Json.object blank members)
        → Looks doc.now.nodes bytes.now holder object (object + node_count (Json.object blank members))
        (members_at (inner_place start blank) members) result
        (object_type holder start (members_at (inner_place start blank) members)) }
{
    let told = find(doc, bytes, object, b"type")?;
    let bbox = find(doc, bytes, object, b"bbox")?;
    let crs = find_crs(doc, bytes, holder, object)?;
    let kind = type_in(doc, bytes, holder, object, told)?;
    let content = find(doc, bytes, object, kind.content_key())?;
    let kind = with_content(kind, node_at(doc, object).start, content)?;
    Ok(Looked {
        kind,
        bbox,
        crs,
        content,
    })
}

/// Where the value is, if there is one.
fn span_at(doc: &Doc, value: Option<u32>) -> Option<ByteSpan>
    requires { (bytes : List ℕ) × (object past : ℕ) × (one : Option Member) × AreFound doc.now.nodes bytes object past value one }
    ensures { (bytes : List ℕ) (object past : ℕ) (one : Option Member) (what : What) → AreFound doc.now.nodes bytes object past value one
        → edit_at result what ≡ value_edits one what }
{
    match value {
        Some(value) => {
            let node = node_at(doc, value);
            Some(ByteSpan {
                start: node.start,
                end: node.end,
            })
        }
        None => None,
    }
}

/// Opens an object, whose content is next.
pub fn open_object(
    pass: &PathsRead,
    doc: &Doc,
    bytes: &[u8],
    holder: Holder,
    object: u32,
) -> Result<OpenFrame, LayerFault>
    requires read { IsReadFrom doc.now bytes.now }
    requires node { object < length doc.now.nodes }
    requires paths { length pass.now.paths.items < 2 ^ 32 }
    ensures opens { (exact : Bool) (start : ℕ) (is : Json) (part : Part)
        → HasNodesAt doc.now.nodes bytes.now object start is → Holds pass.now part
        → Opens doc.now.nodes bytes.now exact part result (reading exact (ValueForm.Object holder) (length part.paths) start is) }
    ensures within { IfOk result (λ frame. (node : Node) → slice_get doc.now.nodes object ≡ Some node
        → (frame.end - frame.at) + object < node.next) }
{
    let node = node_at(doc, object);
    if !is_kind(node, Kind::Object) {
        return Err(shape_at(node));
    }
    let looked = look(doc, bytes, holder, object)?;
    let (at, end, content) = content_at(doc, looked.content);
    Ok(OpenFrame {
        form: looked.kind.content_form(),
        at,
        end,
        ending: Some(Ending {
            first: pass.paths.len() as u32,
            edits: pass.edits.len(),
            content,
            bbox: span_at(doc, looked.bbox),
            crs: span_at(doc, looked.crs),
        }),
    })
}

/// The node of the content, the first node after it and its place; all 0 where it is missing.
fn content_at(doc: &Doc, content: Option<u32>) -> (u32, u32, u32)
    requires { (bytes : List ℕ) × (object past : ℕ) × (one : Option Member) × AreFound doc.now.nodes bytes object past content one }
    ensures { (bytes : List ℕ) (object past : ℕ) (one : Option Member) → AreFound doc.now.nodes bytes object past content one
        → IsContentAt doc.now.nodes bytes object past result one }
{
    match content {
        Some(value) => {
            let node = node_at(doc, value);
            (value, node.next, node.start)
        }
        None => (0, 0, 0),
    }
}
