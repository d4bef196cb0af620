//! Extrusions of entities; only the one upwards is read.

ghost use Rattle.std.specs.Prelude.{◌≡◌, []};
ghost use Rattle.std.specs.List.{list_all};
ghost use Rattle.dxf_entities.specs.EntityViews.{entity_view};
ghost use Rattle.dxf_entities.specs.Kinds.{is_extrusion, is_upright, repeat_of, upright};

use crate::entities::{Entity, has_code};
use crate::fields::{equals, fields_of, has_field};
use dxf_pairs::Pair;
use sheet_base::LayerFault;

/// Whether the pair belongs to an extrusion.
#[inline(always)]
fn is_extrusion(pair: &Pair) -> bool
    ensures { result ≡ is_extrusion pair.now }
{
    has_code(210, pair) || has_code(220, pair) || has_code(230, pair)
}

/// Whether the pair allows the direction upwards.
#[inline(always)]
fn is_upright(bytes: &[u8], pair: &Pair) -> bool
    ensures { result ≡ is_upright bytes.now pair.now }
{
    if !is_extrusion(pair) {
        true
    } else if has_code(230, pair) {
        equals(bytes, 1, pair)
    } else {
        equals(bytes, 0, pair)
    }
}

/// The first field of an extrusion that repeats the code of one before it.
fn find_repeat(fields: &[Pair]) -> Option<Pair>
    ensures { result ≡ repeat_of [] fields.now }
{
    for (number, pair) in fields.iter().enumerate() {
        if is_extrusion(pair) && has_field(pair.code, &fields[..number]) {
            return Some(*pair);
        }
    }
    None
}

/// Whether all fields allow the direction upwards.
fn are_upright(bytes: &[u8], fields: &[Pair]) -> bool
    ensures { result ≡ list_all (is_upright bytes.now) fields.now }
{
    for pair in fields {
        if !is_upright(bytes, pair) {
            return false;
        }
    }
    true
}

/// Refuses an entity that is extruded in another direction than upwards.
pub fn check_upright(bytes: &[u8], entity: &Entity) -> Result<(), LayerFault>
    ensures { result ≡ upright bytes.now (entity_view entity.now) }
{
    let fields = fields_of(entity);
    if !are_upright(bytes, fields) {
        return Err(LayerFault::Extrusion {
            line: u64::from(entity.head.line),
        });
    }
    match find_repeat(fields) {
        Some(pair) => Err(LayerFault::Count {
            line: u64::from(pair.line),
        }),
        None => Ok(()),
    }
}
