//! Nodes of the document, and the elements of its arrays.

ghost use Rattle.std.specs.Prelude.{◌≡◌, ◌+◌, ◌<◌, ◌≤◌, ℕ, List, length, slice_get, slice_range, Some, OnOk};
ghost use Rattle.jtext.specs.Values.{Json, Elements, Members, spelling};
ghost use Rattle.jtext.specs.Places.{IsReadFrom, HasKind};
ghost use Rattle.jtext.specs.Lookups.{IsAscii};
ghost use Rattle.tin_file.specs.Keys.{says, is_text, is_number, is_array, is_object};
ghost use Rattle.tin_file.specs.Keys.{needed_value, needed_list};
ghost use Rattle.tin_file.specs.InsideNodes.{IsThere, AreThere, IsNode, IsArray, HasMembers};
ghost use Rattle.tin_file.specs.InsideNodes.{element_numbers, Gives};

use crate::faults::{TinFault, Top};
use jtext::{Doc, Kind, Node, member, same_text};
use std::alloc::AllocError;

/// The node of this number.
pub fn node_at(doc: &Doc, number: u32) -> Node
    requires { number < length doc.now.nodes }
    ensures { slice_get doc.now.nodes number ≡ Some result }
{
    doc.nodes.items()[number as usize]
}

/// Whether the value is an object.
pub fn holds_object(doc: &Doc, value: u32) -> bool
    requires { value < length doc.now.nodes }
    ensures { (bytes : List ℕ) (is : Json) → IsThere doc.now.nodes bytes value is
        → result ≡ is_object is }
{
    match node_at(doc, value).kind {
        Kind::Object => true,
        _ => false,
    }
}

/// Whether the value is an array.
pub fn holds_array(doc: &Doc, value: u32) -> bool
    requires { value < length doc.now.nodes }
    ensures { (bytes : List ℕ) (is : Json) → IsThere doc.now.nodes bytes value is
        → result ≡ is_array is }
{
    match node_at(doc, value).kind {
        Kind::Array => true,
        _ => false,
    }
}

/// Whether the value is a text.
pub fn holds_text(doc: &Doc, value: u32) -> bool
    requires { value < length doc.now.nodes }
    ensures { (bytes : List ℕ) (is : Json) → IsThere doc.now.nodes bytes value is
        → result ≡ is_text is }
{
    match node_at(doc, value).kind {
        Kind::Text => true,
        _ => false,
    }
}

/// Whether the value is a number.
pub fn holds_number(doc: &Doc, value: u32) -> bool
    requires { value < length doc.now.nodes }
    ensures { (bytes : List ℕ) (is : Json) → IsThere doc.now.nodes bytes value is
        → result ≡ is_number is }
{
    match node_at(doc, value).kind {
        Kind::Number => true,
        _ => false,
    }
}

/// The bytes from `start` to before `end`.
fn part(bytes: &[u8], start: u32, end: u32) -> &[u8]
    requires order { start ≤ end }
    requires within { end ≤ length bytes.now }
    ensures { result.now ≡ slice_range bytes.now start end }
{
    &bytes[start as usize..end as usize]
}

/// The bytes of the value.
pub fn text_at<'a>(doc: &Doc, bytes: &'a [u8], value: u32) -> &'a [u8]
    requires { IsNode doc.now.nodes bytes.now value }
    ensures { (is : Json) → IsThere doc.now.nodes bytes.now value is → result.now ≡ spelling is }
{
    let node = node_at(doc, value);
    part(bytes, node.start, node.end)
}

/// Whether the value is this text, with its escapes resolved.
pub fn tells(doc: &Doc, bytes: &[u8], value: u32, text: &[u8]) -> bool
    requires read { IsReadFrom doc.now bytes.now }
    requires node { value < length doc.now.nodes }
    requires ascii { IsAscii text.now }
    ensures { (is : Json) → IsThere doc.now.nodes bytes.now value is
        → result ≡ says is text.now }
{
    same_text(doc, bytes, value, text)
}

/// Puts the numbers of the first nodes of an array's elements into the list, in place of what it
/// had.
pub fn list_elements(doc: &Doc, array: u32, numbers: &mut Vec<u32>) -> Result<(), AllocError>
    requires { (bytes : List ℕ) × IsArray doc.now.nodes bytes array }
    ensures { OnOk result ((bytes : List ℕ) (blank : List ℕ) (elements : Elements)
        → IsThere doc.now.nodes bytes array (Json.array blank elements)
        → numbers.new.items ≡ element_numbers (array + 1) elements) }
{
    numbers.clear();
    let end = node_at(doc, array).next;
    let mut at = array + 1;
    while at < end {
        numbers.push(at)?;
        at = node_at(doc, at).next;
    }
    Ok(())
}

/// The value of a member of the whole value, which has to be there once.
pub fn find(doc: &Doc, bytes: &[u8], which: Top) -> Result<u32, TinFault>
    requires read { IsReadFrom doc.now bytes.now }
    requires object { HasKind doc.now.nodes 0 Kind.Object }
    ensures { (members : Members) → HasMembers doc.now.nodes bytes.now members
        → Gives (IsThere doc.now.nodes bytes.now) result (needed_value which members) }
{
    match member(doc, bytes, 0, which.key()) {
        Ok(Some(value)) => Ok(value),
        Ok(None) => Err(TinFault::Key { which }),
        Err(_) => Err(TinFault::Key { which }),
    }
}

/// Puts the elements of such a value, which has to be an array, into the list.
pub fn find_list(
    doc: &Doc,
    bytes: &[u8],
    which: Top,
    numbers: &mut Vec<u32>,
) -> Result<(), TinFault>
    requires read { IsReadFrom doc.now bytes.now }
    requires object { HasKind doc.now.nodes 0 Kind.Object }
    ensures { (members : Members) → HasMembers doc.now.nodes bytes.now members
        → Gives (λ done values. AreThere doc.now.nodes bytes.now numbers.new.items values)
        result (needed_list which members) }
{
    let value = find(doc, bytes, which)?;
    if !holds_array(doc, value) {
        return Err(TinFault::Key { which });
    }
    list_elements(doc, value, numbers)?;
    Ok(())
}
