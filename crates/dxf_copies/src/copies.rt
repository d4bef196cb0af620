//! Copies of entities and of vertices, with other values.

ghost use Rattle.std.specs.Prelude.{◌≡◌, ◌++◌, ℕ, List, true, OnOk, IfOk, flat_map};
ghost use Rattle.dxf_pairs.specs.Lines.{between};
ghost use Rattle.std.specs.Fmt.{digits};
ghost use Rattle.mm_decimal.specs.MetresTexts.{mm_text};
ghost use Rattle.dxf_entities.specs.EntityViews.{entity_view};
ghost use Rattle.dxf_copies.specs.Rendering.{value_for, value_text, copied_with, copy_text, field_copy};

use dxf_entities::{Entity, fields_of};
use dxf_pairs::Pair;
use plane_base::Pt;
use sheet_base::{between, push_mm};
use std::alloc::{AllocError, Global};

/// What a copy has of its own: its first point, its second one, the heights of both and a handle, where it has them.
#[derive(Clone, Copy)]
pub struct Copied {
    pub begin: Pt,
    pub end: Option<Pt>,
    pub begin_height: Option<i64>,
    pub end_height: Option<i64>,
    pub handle: Option<u64>,
}

/// A value: a number of millimetres, written as metres, or a handle.
#[derive(Clone, Copy)]
pub enum Value {
    Metres(i64),
    Handle(u64),
}

impl Copied {
    /// The copy's own value under a code.
    fn value_for(&self, code: i32) -> Option<Value>
        ensures { result ≡ value_for self.now code }
    {
        match code {
            10 => Some(Value::Metres(self.begin.x)),
            20 => Some(Value::Metres(self.begin.y)),
            11 => self.end.map(|end| Value::Metres(end.x)),
            21 => self.end.map(|end| Value::Metres(end.y)),
            30 => self.begin_height.map(Value::Metres),
            31 => self.end_height.map(Value::Metres),
            5 => self.handle.map(Value::Handle),
            _ => None,
        }
    }
}

/// Appends a handle in upper-case hexadecimal without leading zeros.
pub fn push_handle(alloc: Global, out: &mut Vec<u8>, handle: u64) -> Result<(), AllocError>
    ensures { OnOk result (out.new.items ≡ out.old.items ++ digits 16 true handle) }
{
    let text = format!(in alloc; "{handle:X}")?;
    out.extend_from_slice(text.as_bytes())?;
    Ok(())
}

/// Appends a value.
fn push_value(alloc: Global, out: &mut Vec<u8>, value: Value) -> Result<(), AllocError>
    ensures { OnOk result (out.new.items ≡ out.old.items ++ value_text value) }
{
    match value {
        Value::Metres(mm) => push_mm(out, mm),
        Value::Handle(handle) => push_handle(alloc, out, handle),
    }
}

/// Appends the bytes from a place on up to a field's value, and the copy's own value in its place,
/// where it has one. Answers the place after what is done.
fn push_field(
    alloc: Global,
    out: &mut Vec<u8>,
    bytes: &[u8],
    from: u32,
    pair: &Pair,
    copied: &Copied,
) -> Result<u32, AllocError>
    ensures { IfOk result (λ now. (rest : ℕ → List ℕ) → out.new.items ++ rest now
        ≡ out.old.items ++ copied_with (λ field. rest field.value_end) bytes.now from pair.now
        (value_for copied.now pair.now.code) (rest from)) }
{
    match copied.value_for(pair.code) {
        Some(value) => {
            out.extend_from_slice(between(bytes, from as usize, pair.value as usize))?;
            push_value(alloc, out, value)?;
            Ok(pair.value_end)
        }
        None => Ok(from),
    }
}

/// Appends a copy of an entity.
pub fn push_copy(
    alloc: Global,
    out: &mut Vec<u8>,
    bytes: &[u8],
    entity: &Entity,
    copied: &Copied,
) -> Result<(), AllocError>
    ensures { OnOk result (out.new.items ≡ out.old.items ++ copy_text bytes.now copied.now (entity_view entity.now)) }
{
    let mut from = entity.head.start;
    for pair in fields_of(entity) {
        from = push_field(alloc, out, bytes, from, pair, copied)?;
    }
    out.extend_from_slice(between(bytes, from as usize, entity.end() as usize))?;
    Ok(())
}

/// Appends the bytes from a place on up to a field's value, and a number in its place.
fn push_number(
    out: &mut Vec<u8>,
    bytes: &[u8],
    from: u32,
    pair: &Pair,
    mm: i64,
) -> Result<(), AllocError>
    ensures { OnOk result (out.new.items ≡ out.old.items ++ (between from pair.now.value bytes.now ++ mm_text mm)) }
{
    out.extend_from_slice(between(bytes, from as usize, pair.value as usize))?;
    push_mm(out, mm)
}

/// Appends the two fields of a vertex with the values of an image.
fn push_fields(
    out: &mut Vec<u8>,
    bytes: &[u8],
    x: &Pair,
    y: &Pair,
    image: Pt,
) -> Result<(), AllocError>
    ensures { OnOk result (out.new.items ≡ out.old.items ++ field_copy bytes.now x.now y.now image) }
{
    push_number(out, bytes, x.start, x, image.x)?;
    push_number(out, bytes, x.value_end, y, image.y)?;
    out.extend_from_slice(between(bytes, y.value_end as usize, y.end as usize))?;
    Ok(())
}

/// Appends the two fields of a vertex once for each of the images.
pub fn push_all_fields(
    out: &mut Vec<u8>,
    bytes: &[u8],
    x: &Pair,
    y: &Pair,
    images: &[Pt],
) -> Result<(), AllocError>
    ensures { OnOk result (out.new.items ≡ out.old.items ++ flat_map (field_copy bytes.now x.now y.now) images.now) }
{
    for image in images {
        push_fields(out, bytes, x, y, *image)?;
    }
    Ok(())
}
