//! Entities that are read alone, by their kinds.

ghost use Rattle.std.specs.Prelude.{◌≡◌, ◌^◌, ◌+◌, ◌≤◌, length, OnOk};
ghost use Rattle.dxf_entities.specs.EntityViews.{entity_view};
ghost use Rattle.dxf_entities.specs.Entities.{is_of_kind};
ghost use Rattle.dxf_entities.specs.Kinds.{shapes_of, are_read_alone};
ghost use Rattle.dxf_entities.specs.DrawingContents.{contents_of, HoldsAtMost, GrowsBy, Reads};

use crate::drawing::Drawing;
use crate::entities::{Entity, value_in};
use crate::points::{read_insert, read_line, read_point, read_text};
use crate::polylines::read_light;
use dxf_pairs::Pair;
use sheet_base::{How, LayerFault};

/// What is read of a drawing's bytes, and how.
#[derive(Clone, Copy)]
pub struct Source<'a> {
    pub bytes: &'a [u8],
    pub how: How,
    pub seed: Option<Pair>,
}

/// Whether the entity is of this kind.
pub fn is_kind(bytes: &[u8], kind: &[u8], entity: &Entity) -> bool
    ensures { result ≡ is_of_kind bytes.now kind.now (entity_view entity.now) }
{
    value_in(bytes, &entity.head) == kind
}

/// Reads an entity of a kind of `is_read_alone`. One of another kind would be read as an INSERT.
pub fn read_alone(source: &Source, entity: &Entity, drawing: &mut Drawing) -> Result<(), LayerFault>
    requires room { HoldsAtMost (2 ^ 30) (contents_of drawing.old) }
    requires few { length entity.now.pairs.now ≤ 2 ^ 29 }
    ensures reads { Reads (shapes_of source.now.bytes.now source.now.how source.now.seed (entity_view entity.now))
        (contents_of drawing.old) result (contents_of drawing.new) }
    ensures grown { OnOk result (GrowsBy (length entity.now.pairs.now + 2) (contents_of drawing.old) (contents_of drawing.new)) }
{
    let exact = source.how.exact;
    if is_kind(source.bytes, b"POINT".as_slice(), entity) {
        read_point(source.bytes, exact, entity, drawing)
    } else if is_kind(source.bytes, b"LINE".as_slice(), entity) {
        read_line(source.bytes, exact, source.seed, entity, drawing)
    } else if is_kind(source.bytes, b"LWPOLYLINE".as_slice(), entity) {
        read_light(source.bytes, exact, entity, drawing)
    } else if is_kind(source.bytes, b"TEXT".as_slice(), entity) {
        read_text(source.bytes, exact, entity, drawing)
    } else {
        read_insert(source.bytes, exact, entity, drawing)
    }
}

/// Whether entities of this kind are read by themselves.
pub fn is_read_alone(bytes: &[u8], entity: &Entity) -> bool
    ensures { result ≡ are_read_alone bytes.now (entity_view entity.now) }
{
    is_kind(bytes, b"POINT".as_slice(), entity)
        || is_kind(bytes, b"LINE".as_slice(), entity)
        || is_kind(bytes, b"LWPOLYLINE".as_slice(), entity)
        || is_kind(bytes, b"TEXT".as_slice(), entity)
        || is_kind(bytes, b"INSERT".as_slice(), entity)
}
