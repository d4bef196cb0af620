//! The features of a layer of GeoJSON.

ghost use Rattle.std.specs.Prelude.{◌≡◌, ◌<◌, ◌^◌, ℕ, List, length, nat_lt, IfOk, IsErrOf};
ghost use Rattle.std.specs.List.{list_all};
ghost use Rattle.jtext.specs.Values.{Json};
ghost use Rattle.jtext.specs.Places.{IsReadFrom, IsDocOf, HasNodesAt, whole_start};
ghost use Rattle.jtext.specs.Texts.{Whole, IsBad, IsDeep};
ghost use Rattle.layer_features.specs.Features.{AreInOrder};
ghost use Rattle.layer_features.specs.JsonFeatures.{asked_for, property_of, name_of};
ghost use Rattle.layer_features.specs.JsonFeatures.{feature_of, array_features, value_features, AreJsonFeatures};

use crate::features::{Feature, Label, TextPart};
use crate::nodes::{is_kind, member_of, node_at, part_at, says};
use jtext::{Doc, JsonFault, Kind, Node, read_json};
use sheet_base::Listed;
use std::alloc::{AllocError, Global};

// Whether all characters are of ASCII.
fn is_ascii(name: &[u8]) -> bool
    ensures { result ≡ list_all (λ byte. nat_lt byte 128) name.now }
{
    name.iter().all(|byte| *byte < 128)
}

// The value of the member of this name of the properties of the feature at the node.
fn property_of(doc: &Doc, bytes: &[u8], name: &[u8], value: u32) -> Option<TextPart>
    requires read { IsReadFrom doc.now bytes.now }
    requires node { value < length doc.now.nodes }
    ensures { (start : ℕ) (is : Json) → HasNodesAt doc.now.nodes bytes.now value start is
        → result ≡ property_of name.now value start is }
{
    if !is_ascii(name) {
        return None;
    }
    match member_of(doc, bytes, value, b"properties") {
        Some(properties) => part_at(doc, member_of(doc, bytes, properties, name)),
        None => None,
    }
}

// The value of the property of the name that is asked for, if one is.
fn name_of(doc: &Doc, bytes: &[u8], name: Option<&[u8]>, value: u32) -> Option<TextPart>
    requires read { IsReadFrom doc.now bytes.now }
    requires node { value < length doc.now.nodes }
    ensures { (start : ℕ) (is : Json) → HasNodesAt doc.now.nodes bytes.now value start is
        → result ≡ name_of (asked_for name.entry) value start is }
{
    match name {
        Some(name) => property_of(doc, bytes, name, value),
        None => None,
    }
}

// The feature at the node, which has this number among the features.
fn feature_of(doc: &Doc, bytes: &[u8], name: Option<&[u8]>, count: u32, value: u32) -> Feature
    requires read { IsReadFrom doc.now bytes.now }
    requires node { value < length doc.now.nodes }
    ensures { (start : ℕ) (is : Json) → HasNodesAt doc.now.nodes bytes.now value start is
        → result ≡ feature_of (asked_for name.entry) count value start is }
{
    let node = node_at(doc, value);
    Feature {
        start: node.start,
        past: node.end,
        label: Label::Number { number: count },
        id: part_at(doc, member_of(doc, bytes, value, b"id")),
        name: name_of(doc, bytes, name, value),
    }
}

// The number of the first node after those inside this one.
fn next_of(node: Node) -> u32
    ensures { result ≡ node.next }
{
    node.next
}

// The elements of the array at the node, as features numbered from 0.
fn array_features(
    alloc: Global,
    doc: &Doc,
    bytes: &[u8],
    name: Option<&[u8]>,
    array: u32,
) -> Result<Vec<Feature>, AllocError>
    requires read { IsReadFrom doc.now bytes.now }
    requires node { array < length doc.now.nodes }
    ensures { (start : ℕ) (is : Json) → HasNodesAt doc.now.nodes bytes.now array start is
        → IfOk result (λ features. features.items ≡ array_features (asked_for name.entry) array start is) }
{
    let mut features = Vec::new(alloc);
    let node = node_at(doc, array);
    if !is_kind(node, Kind::Array) {
        return Ok(features);
    }
    let end = next_of(node);
    let mut at = array + 1;
    let mut count = 0;
    while at < end {
        features.push(feature_of(doc, bytes, name, count, at))?;
        at = next_of(node_at(doc, at));
        count += 1;
    }
    Ok(features)
}

// The features of a document.
fn features_of(
    alloc: Global,
    doc: &Doc,
    bytes: &[u8],
    name: Option<&[u8]>,
) -> Result<Vec<Feature>, AllocError>
    requires read { IsReadFrom doc.now bytes.now }
    ensures { (whole : Whole) → IsDocOf whole doc.now bytes.now
        → IfOk result (λ features. features.items ≡ value_features (asked_for name.entry) (whole_start whole) whole.value) }
{
    let type_at = member_of(doc, bytes, 0, b"type");
    if says(doc, bytes, type_at, b"FeatureCollection") {
        return match member_of(doc, bytes, 0, b"features") {
            Some(array) => array_features(alloc, doc, bytes, name, array),
            None => Ok(Vec::new(alloc)),
        };
    }
    let mut features = Vec::new(alloc);
    if says(doc, bytes, type_at, b"Feature") {
        features.push(feature_of(doc, bytes, name, 0, 0))?;
    }
    Ok(features)
}

/// The features of a layer of GeoJSON: the elements of a FeatureCollection, with their numbers from 0, or a Feature alone,
/// which has the number 0. A geometry has none. Each has its member `id`, and where a name is asked for the member of this
/// name of its properties.
pub fn json_features(
    alloc: Global,
    bytes: &[u8],
    name: Option<&[u8]>,
) -> Result<Listed<Feature>, JsonFault>
    requires { length bytes.now < 2 ^ 32 }
    ensures are { IfOk result (λ features. AreJsonFeatures (asked_for name.entry) bytes.now features) }
    ensures order { IfOk result (λ features. AreInOrder 0 features) }
    ensures bad { (at : ℕ) → IsErrOf result (JsonFault.Bad at) → IsBad bytes.now at }
    ensures deep { (at : ℕ) → IsErrOf result (JsonFault.Deep at) → IsDeep bytes.now at }
{
    let doc = read_json(alloc, bytes)?;
    Ok(Listed::of(features_of(alloc, &doc, bytes, name)?))
}
