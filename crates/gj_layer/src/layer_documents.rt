//! Reading a layer, from the top value inwards.

ghost use Rattle.std.specs.Prelude.{◌≡◌, ◌≢◌, ℕ, ◌+◌, ◌-◌, ◌*◌, ◌<◌, ◌≤◌, ◌^◌, Bool, List, [], ◌∷◌, Result, length};
ghost use Rattle.std.specs.Prelude.{slice_get, Some, Ok, IfOk, OnOk, IsErrOf};
ghost use Rattle.jtext.specs.Values.{Json};
ghost use Rattle.jtext.specs.Texts.{Whole};
ghost use Rattle.jtext.specs.Places.{IsReadFrom, HasNodesAt, IsDocOf};
ghost use Rattle.jtext.specs.declared.document.Node.{Node};
ghost use Rattle.sheet_base.specs.declared.faults.LayerFault.{LayerFault};
ghost use Rattle.sheet_base.specs.declared.faults.LayerFault.TheVariants.{NoMemory};
ghost use Rattle.sheet_base.specs.Splices.{AreInOrder};
ghost use Rattle.gj_layer.specs.declared.frames.OpenFrame.{OpenFrame};
ghost use Rattle.gj_layer.specs.Paths.{Part, sheet_of};
ghost use Rattle.gj_layer.specs.Documents.{reading};
ghost use Rattle.gj_layer.specs.Layers.{layer_reading, IsGeoJsonReadAs, IsGeoJsonRefusedBy};
ghost use Rattle.gj_layer.specs.InsideNodes.{Gives, Holds, HasRoom};
ghost use Rattle.gj_layer.specs.InsideFrames.{Opens, Takes, IsFrameWithin, GrowsBy, Going, Goes, AreGoing, left_in};

use crate::forms::{Holder, Items, ValueForm};
use crate::frames::{Frames, OpenFrame, end_object};
use crate::nodes::{is_kind, node_at, shape_at};
use crate::objects::open_object;
use crate::pass::PathsRead;
use crate::paths::read_path;
use jtext::{Doc, JsonFault, Kind, read_json};
use sheet_base::{LayerFault, Listed, Sheet};
use std::alloc::Global;

/// Opens an array from which the elements are read one by one.
fn open_list(doc: &Doc, items: Items, array: u32) -> Result<OpenFrame, LayerFault>
    requires read { (bytes : List ℕ) × IsReadFrom doc.now bytes }
    requires node { array < length doc.now.nodes }
    ensures opens { (bytes : List ℕ) (exact : Bool) (start : ℕ) (is : Json) (part : Part) → HasNodesAt doc.now.nodes bytes array start is
        → Opens doc.now.nodes bytes exact part result (reading exact (ValueForm.List items) (length part.paths) start is) }
    ensures within { IfOk result (λ frame. (node : Node) → slice_get doc.now.nodes array ≡ Some node
        → (frame.end - frame.at) + array < node.next) }
{
    let node = node_at(doc, array);
    if !is_kind(node, Kind::Array) {
        return Err(shape_at(node));
    }
    Ok(OpenFrame {
        form: items.form(),
        at: array + 1,
        end: node.next,
        ending: None,
    })
}

/// Reads a geometry or null, or opens it.
fn read_optional(
    pass: &PathsRead,
    doc: &Doc,
    bytes: &[u8],
    value: u32,
) -> Result<Option<OpenFrame>, LayerFault>
    requires read { IsReadFrom doc.now bytes.now }
    requires node { value < length doc.now.nodes }
    requires paths { length pass.now.paths.items < 2 ^ 32 }
    ensures takes { (exact : Bool) (start : ℕ) (is : Json) (part : Part) → HasNodesAt doc.now.nodes bytes.now value start is
        → Holds pass.now part
        → Takes doc.now.nodes bytes.now exact part pass.now result (reading exact ValueForm.Optional (length part.paths) start is) }
    ensures within { IfOk result (λ found. IsFrameWithin doc.now.nodes value found) }
{
    if is_kind(node_at(doc, value), Kind::Null) {
        return Ok(None);
    }
    let frame = open_object(pass, doc, bytes, Holder::Geometries, value)?;
    Ok(Some(frame))
}

/// Reads the value that is at the node, or opens it.
fn read_item(
    pass: &mut PathsRead,
    doc: &Doc,
    bytes: &[u8],
    form: ValueForm,
    value: u32,
    exact: bool,
) -> Result<Option<OpenFrame>, LayerFault>
    requires read { IsReadFrom doc.now bytes.now }
    requires node { value < length doc.now.nodes }
    requires room { (node : Node) → slice_get doc.now.nodes value ≡ Some node → HasRoom pass.old (node.next - value) }
    ensures takes { (start : ℕ) (is : Json) (part : Part) → HasNodesAt doc.now.nodes bytes.now value start is → Holds pass.old part
        → Takes doc.now.nodes bytes.now exact part pass.new result (reading exact form (length part.paths) start is) }
    ensures within { IfOk result (λ found. IsFrameWithin doc.now.nodes value found) }
    ensures grows { IfOk result (λ found. GrowsBy doc.now.nodes value pass.old pass.new found) }
{
    match form {
        ValueForm::Object(holder) => {
            let frame = open_object(pass, doc, bytes, holder, value)?;
            Ok(Some(frame))
        }
        ValueForm::Optional => read_optional(pass, doc, bytes, value),
        ValueForm::Path(trace) => {
            read_path(pass, doc, bytes, trace, value, exact)?;
            Ok(None)
        }
        ValueForm::List(items) => {
            let frame = open_list(doc, items, value)?;
            Ok(Some(frame))
        }
    }
}

/// Reads the next value that is left of the frame, or opens it.
fn step_in(
    pass: &mut PathsRead,
    frames: &mut Frames,
    frame: OpenFrame,
    doc: &Doc,
    bytes: &[u8],
    exact: bool,
) -> Result<(), LayerFault>
    requires read { IsReadFrom doc.now bytes.now }
    requires within { frame.at < frame.end }
    requires going { AreGoing exact doc.now.nodes bytes.now (frame ∷ frames.old) pass.old }
    requires room { HasRoom pass.old (left_in (frame ∷ frames.old)) }
    ensures goes { (wanted : Result Part LayerFault) → Going exact doc.now.nodes bytes.now (frame ∷ frames.old) pass.old wanted
        → Goes exact doc.now.nodes bytes.now frames.new pass.new result wanted }
    ensures room { OnOk result (HasRoom pass.new (left_in frames.new)) }
    ensures fewer { OnOk result (2 * left_in frames.new + length frames.new < 2 * left_in (frame ∷ frames.old) + (1 + length frames.old)) }
{
    let node = node_at(doc, frame.at);
    frames.push(OpenFrame {
        form: frame.form,
        at: node.next,
        end: frame.end,
        ending: frame.ending,
    })?;
    match read_item(pass, doc, bytes, frame.form, frame.at, exact)? {
        Some(inner) => {
            frames.push(inner)?;
            Ok(())
        }
        None => Ok(()),
    }
}

/// The frame has ended.
fn step_out(pass: &mut PathsRead, frame: OpenFrame) -> Result<(), LayerFault>
    requires going { (nodes : List Node) × (bytes : List ℕ) × (frames : List OpenFrame) × (exact : Bool)
        × AreGoing exact nodes bytes (frame ∷ frames) pass.old }
    requires room { HasRoom pass.old 0 }
    requires ended { frame.end ≤ frame.at }
    ensures goes { OnOk result ((nodes : List Node) (bytes : List ℕ) (frames : List OpenFrame) (exact : Bool)
        (wanted : Result Part LayerFault)
        → Going exact nodes bytes (frame ∷ frames) pass.old wanted → Going exact nodes bytes frames pass.new wanted) }
    ensures memory { (fault : LayerFault) → IsErrOf result fault → fault ≡ NoMemory }
    ensures room { OnOk result ((size : ℕ) → HasRoom pass.old size → HasRoom pass.new size) }
{
    match frame.ending {
        Some(ending) => {
            end_object(pass, ending)?;
            Ok(())
        }
        None => Ok(()),
    }
}

/// Reads all that is left in the frames.
fn read_all(
    pass: &mut PathsRead,
    frames: &mut Frames,
    doc: &Doc,
    bytes: &[u8],
    exact: bool,
) -> Result<(), LayerFault>
    requires read { IsReadFrom doc.now bytes.now }
    requires going { AreGoing exact doc.now.nodes bytes.now frames.old pass.old }
    requires room { HasRoom pass.old (left_in frames.old) }
    ensures reads { (wanted : Result Part LayerFault) → Going exact doc.now.nodes bytes.now frames.old pass.old wanted
        → Goes exact doc.now.nodes bytes.now [] pass.new result wanted }
    ensures room { OnOk result (HasRoom pass.new 0) }
{
    while let Some(frame) = frames.pop() {
        if frame.at < frame.end {
            step_in(pass, frames, frame, doc, bytes, exact)?;
        } else {
            step_out(pass, frame)?;
        }
    }
    Ok(())
}

/// The sheet of a document that was read from the bytes.
fn read_document(alloc: Global, doc: &Doc, bytes: &[u8], exact: bool) -> Result<Sheet, LayerFault>
    requires read { IsReadFrom doc.now bytes.now }
    ensures { (whole : Whole) → IsDocOf whole doc.now bytes.now
        → Gives (λ sheet part. sheet ≡ sheet_of part) result (layer_reading exact whole) }
{
    let mut pass = PathsRead::new(alloc, doc.nodes.items().len())?;
    let mut frames = Frames::none(alloc);
    frames.push(OpenFrame {
        form: ValueForm::Object(Holder::Layer),
        at: 0,
        end: node_at(doc, 0).next,
        ending: None,
    })?;
    read_all(&mut pass, &mut frames, doc, bytes, exact)?;
    Ok(Sheet::of(
        Listed::of(pass.paths),
        Listed::of(pass.points),
        pass.heights,
        Listed::of(pass.edits),
        pass.inexact,
        0,
    ))
}

/// The sheet of a layer of GeoJSON: one object (RFC 7946, section 3). Places of faults are bytes
/// from 0. Of several faults the first is reported: that of the JSON text, and then that of the
/// walk over the objects from the top value on.
pub fn read(alloc: Global, bytes: &[u8], exact: bool) -> Result<Sheet, LayerFault>
    requires { length bytes.now ≤ 2 ^ 26 }
    ensures ok { IfOk result (λ sheet. IsGeoJsonReadAs exact bytes.now sheet) }
    ensures edits { IfOk result (λ sheet. AreInOrder 0 sheet.edits (length bytes.now)) }
    ensures refused { (fault : LayerFault) → IsErrOf result fault → fault ≢ NoMemory → IsGeoJsonRefusedBy exact bytes.now fault }
{
    match read_json(alloc, bytes) {
        Ok(doc) => read_document(alloc, &doc, bytes, exact),
        Err(JsonFault::Bad { at }) => Err(LayerFault::Bad { at }),
        Err(JsonFault::Deep { at }) => Err(LayerFault::Deep { at }),
        Err(JsonFault::NoMemory) => Err(LayerFault::NoMemory),
    }
}
