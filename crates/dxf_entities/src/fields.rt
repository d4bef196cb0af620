//! Fields of an entity.

ghost use Rattle.std.specs.Prelude.{◌≡◌};
ghost use Rattle.dxf_entities.specs.EntityViews.{entity_view};
ghost use Rattle.dxf_entities.specs.Fields.{entity_fields, field_at, is_there};
ghost use Rattle.dxf_entities.specs.Fields.{wanted_at, coordinate_of};
ghost use Rattle.dxf_entities.specs.Fields.{coordinate_from, equals_number};
ghost use Rattle.dxf_entities.specs.Fields.{there_as, not_zero};
ghost use Rattle.dxf_entities.specs.Fields.{not_zero_line};
ghost use Rattle.dxf_entities.specs.Kinds.{any_has_code};

use crate::entities::{Entity, has_code, value_in};
use dxf_pairs::Pair;
use mm_decimal::read_mm;
use sheet_base::LayerFault;

/// A coordinate's field, its millimetres, and whether it lost digits.
#[derive(Clone, Copy)]
pub struct Read {
    pub pair: Pair,
    pub mm: i64,
    pub lost: bool,
}

/// The fields of an entity: its pairs before the first code of 1000 or more.
pub fn fields_of<'a>(entity: &Entity<'a>) -> &'a [Pair]
    ensures { result.now ≡ entity_fields (entity_view entity.now) }
{
    let pairs = entity.pairs;
    let mut count = 0;
    while count < pairs.len() && pairs[count].code < 1000 {
        count += 1;
    }
    &pairs[..count]
}

/// Whether one of the fields has the code.
pub fn has_field(code: i32, fields: &[Pair]) -> bool
    ensures { result ≡ any_has_code code fields.now }
{
    fields.iter().any(|field| has_code(code, field))
}

/// The field of the code, where there is one; a second one is refused.
pub fn field(code: i32, entity: &Entity) -> Result<Option<Pair>, LayerFault>
    ensures { result ≡ field_at code (entity_view entity.now) }
{
    let pairs = entity.pairs;
    let mut found = None;
    let mut at = 0;
    while at < pairs.len() && pairs[at].code < 1000 {
        let pair = &pairs[at];
        if has_code(code, pair) {
            if found.is_some() {
                return Err(LayerFault::Count {
                    line: u64::from(pair.line),
                });
            }
            found = Some(*pair);
        }
        at += 1;
    }
    Ok(found)
}

/// The field that was found, which has to be there.
#[inline(always)]
pub fn there(entity: &Entity, found: Option<Pair>) -> Result<Pair, LayerFault>
    ensures { result ≡ is_there (entity_view entity.now) found }
{
    match found {
        Some(pair) => Ok(pair),
        None => Err(LayerFault::Count {
            line: u64::from(entity.head.line),
        }),
    }
}

/// The field of the code, which has to be there.
#[inline(always)]
pub fn need_field(code: i32, entity: &Entity) -> Result<Pair, LayerFault>
    ensures { result ≡ wanted_at code (entity_view entity.now) }
{
    let found = field(code, entity)?;
    there(entity, found)
}

/// The coordinate of a field.
#[inline(always)]
pub fn coordinate(bytes: &[u8], exact: bool, pair: &Pair) -> Result<Read, LayerFault>
    ensures { result ≡ coordinate_of bytes.now exact pair.now }
{
    let at = u64::from(pair.value);
    match read_mm(value_in(bytes, pair)) {
        Err(fault) => Err(LayerFault::Number { at, fault }),
        Ok(read) if exact && !read.exact => Err(LayerFault::Inexact { at }),
        Ok(read) => Ok(Read {
            pair: *pair,
            mm: read.mm,
            lost: !read.exact,
        }),
    }
}

/// The coordinate of a field that has to be there.
#[inline(always)]
pub fn coordinate_at(
    bytes: &[u8],
    exact: bool,
    code: i32,
    entity: &Entity,
) -> Result<Read, LayerFault>
    ensures { result ≡ coordinate_from bytes.now exact code (entity_view entity.now) }
{
    let pair = need_field(code, entity)?;
    coordinate(bytes, exact, &pair)
}

/// Whether the value is a numeral of just this number.
pub fn equals(bytes: &[u8], number: u32, pair: &Pair) -> bool
    ensures { result ≡ equals_number bytes.now number pair.now }
{
    match read_mm(value_in(bytes, pair)) {
        Ok(read) => read.exact && read.mm == 1000 * i64::from(number),
        Err(_) => false,
    }
}

/// Whether the field is there and equals this number.
pub fn is_there_as(bytes: &[u8], number: u32, pair: Option<Pair>) -> bool
    ensures { result ≡ there_as bytes.now number pair }
{
    match pair {
        Some(pair) => equals(bytes, number, &pair),
        None => false,
    }
}

/// Whether the field is there and not zero.
pub fn is_not_zero(bytes: &[u8], pair: Option<Pair>) -> bool
    ensures { result ≡ not_zero bytes.now pair }
{
    match pair {
        Some(pair) => !equals(bytes, 0, &pair),
        None => false,
    }
}

/// The line of the field of the code, where it is there and not zero.
pub fn not_zero_at(bytes: &[u8], code: i32, entity: &Entity) -> Result<Option<u64>, LayerFault>
    ensures { result ≡ not_zero_line bytes.now code (entity_view entity.now) }
{
    match field(code, entity)? {
        Some(pair) if !equals(bytes, 0, &pair) => Ok(Some(u64::from(pair.line))),
        _ => Ok(None),
    }
}
