//! The entities of a drawing in order.

ghost use Rattle.std.specs.Prelude.{◌≡◌, ◌^◌, ◌+◌, ◌≤◌, List, length, OnOk, None};
ghost use Rattle.sheet_base.specs.Sheets.{Contents};
ghost use Rattle.dxf_entities.specs.EntityViews.{entity_view};
ghost use Rattle.dxf_entities.specs.Shapes.{with_shape};
ghost use Rattle.dxf_entities.specs.Polylines.{own_shape};
ghost use Rattle.dxf_layer.specs.InsideWalks.{other_kind, polyline_step, alone_step, by_kind, step_free, step_staying};
ghost use Rattle.dxf_layer.specs.InsideWalks.{step_reading, step, WalkPlace};
ghost use Rattle.dxf_entities.specs.DrawingContents.{contents_of, HoldsAtMost, GrowsBy};
ghost use Rattle.dxf_layer.specs.InsideStands.{Stands, Goes};
ghost use Rattle.dxf_entities.specs.declared.drawing.VertexFields.{VertexFields};

use dxf_entities::{
    Drawing, Entity, Source, add_own_vertex, add_path_from, check_upright, ends_section,
    entity_vertex, field, is_kind, is_read_alone, is_there_as, kind_of, read_alone,
};
use sheet_base::{Edit, How, LayerFault, PathKind, What};

/// Where the next entity is: by itself, after a polyline that stays, or after one that is read
/// and whose points begin at this number.
#[derive(Clone, Copy)]
pub enum EntityPlace {
    Free,
    Staying,
    Reading { kind: PathKind, first: u32 },
}

/// Leaves an entity of another kind out, or refuses it.
fn leave_out(how: How, entity: &Entity, drawing: &mut Drawing) -> Result<EntityPlace, LayerFault>
    requires { HoldsAtMost (2 ^ 30) (contents_of drawing.old) }
    ensures goes { Goes (other_kind how (entity_view entity.now)) (contents_of drawing.old) result (contents_of drawing.new) }
    ensures grown { OnOk result (GrowsBy 2 (contents_of drawing.old) (contents_of drawing.new)) }
{
    if !how.drop_other {
        return Err(LayerFault::Entity {
            line: u64::from(entity.head.line),
        });
    }
    drawing.add_edit(Edit {
        start: entity.head.start,
        end: entity.end(),
        what: What::Drop,
    })?;
    drawing.dropped += 1;
    Ok(EntityPlace::Free)
}

/// Begins a polyline whose vertices are entities of their own.
fn begin_polyline(bytes: &[u8], entity: &Entity, first: u32) -> Result<EntityPlace, LayerFault>
    ensures { (before : Contents) → first ≡ length before.points
        → Goes (polyline_step bytes.now (entity_view entity.now)) before result before }
{
    check_upright(bytes, entity)?;
    let kind = kind_of(bytes, entity)?;
    Ok(EntityPlace::Reading { kind, first })
}

/// Reads an upright entity that is by itself.
fn step_alone(
    source: &Source,
    entity: &Entity,
    drawing: &mut Drawing,
) -> Result<EntityPlace, LayerFault>
    requires room { HoldsAtMost (2 ^ 30) (contents_of drawing.old) }
    requires few { length entity.now.pairs.now ≤ 2 ^ 29 }
    ensures goes { Goes (alone_step source.now.bytes.now source.now.how source.now.seed (entity_view entity.now))
        (contents_of drawing.old) result (contents_of drawing.new) }
    ensures grown { OnOk result (GrowsBy (length entity.now.pairs.now + 2) (contents_of drawing.old) (contents_of drawing.new)) }
{
    check_upright(source.bytes, entity)?;
    read_alone(source, entity, drawing)?;
    Ok(EntityPlace::Free)
}

/// Reads an entity that does not stay, by its kind.
fn step_by_kind(
    source: &Source,
    entity: &Entity,
    drawing: &mut Drawing,
) -> Result<EntityPlace, LayerFault>
    requires room { HoldsAtMost (2 ^ 30) (contents_of drawing.old) }
    requires few { length entity.now.pairs.now ≤ 2 ^ 29 }
    ensures goes { Goes (by_kind source.now.bytes.now source.now.how source.now.seed (entity_view entity.now))
        (contents_of drawing.old) result (contents_of drawing.new) }
    ensures grown { OnOk result (GrowsBy (length entity.now.pairs.now + 2) (contents_of drawing.old) (contents_of drawing.new)) }
{
    if is_kind(source.bytes, b"POLYLINE".as_slice(), entity) {
        begin_polyline(source.bytes, entity, drawing.point())
    } else if is_read_alone(source.bytes, entity) {
        step_alone(source, entity, drawing)
    } else {
        leave_out(source.how, entity, drawing)
    }
}

/// Reads an entity that is by itself.
fn step_free(
    source: &Source,
    entity: &Entity,
    drawing: &mut Drawing,
) -> Result<EntityPlace, LayerFault>
    requires room { HoldsAtMost (2 ^ 30) (contents_of drawing.old) }
    requires few { length entity.now.pairs.now ≤ 2 ^ 29 }
    ensures goes { Goes (step_free source.now.bytes.now source.now.how source.now.seed (entity_view entity.now))
        (contents_of drawing.old) result (contents_of drawing.new) }
    ensures grown { OnOk result (GrowsBy (length entity.now.pairs.now + 2) (contents_of drawing.old) (contents_of drawing.new)) }
{
    if ends_section(source.bytes, &entity.head) {
        return Ok(EntityPlace::Free);
    }
    let paper = field(67, entity)?;
    if !is_there_as(source.bytes, 1, paper) {
        step_by_kind(source, entity, drawing)
    } else if is_kind(source.bytes, b"POLYLINE".as_slice(), entity) {
        Ok(EntityPlace::Staying)
    } else {
        Ok(EntityPlace::Free)
    }
}

/// Reads an entity after a polyline that stays.
fn step_staying(
    source: &Source,
    entity: &Entity,
    drawing: &mut Drawing,
) -> Result<EntityPlace, LayerFault>
    requires room { HoldsAtMost (2 ^ 30) (contents_of drawing.old) }
    requires few { length entity.now.pairs.now ≤ 2 ^ 29 }
    ensures goes { Goes (step_staying source.now.bytes.now source.now.how source.now.seed (entity_view entity.now))
        (contents_of drawing.old) result (contents_of drawing.new) }
    ensures grown { OnOk result (GrowsBy (length entity.now.pairs.now + 2) (contents_of drawing.old) (contents_of drawing.new)) }
{
    if is_kind(source.bytes, b"VERTEX".as_slice(), entity) {
        Ok(EntityPlace::Staying)
    } else if is_kind(source.bytes, b"SEQEND".as_slice(), entity) {
        Ok(EntityPlace::Free)
    } else {
        step_free(source, entity, drawing)
    }
}

/// Reads an entity after a polyline that is read and whose points begin at this number.
fn step_reading(
    source: &Source,
    kind: PathKind,
    first: u32,
    entity: &Entity,
    drawing: &mut Drawing,
) -> Result<EntityPlace, LayerFault>
    requires room { HoldsAtMost (2 ^ 30) (contents_of drawing.old) }
    ensures goes { (before : Contents) → (vertices : List VertexFields) → first ≡ length before.points
        → contents_of drawing.old ≡ with_shape before (own_shape None vertices)
        → Goes (step_reading source.now.bytes.now source.now.how source.now.seed kind vertices (entity_view entity.now))
        before result (contents_of drawing.new) }
    ensures grown { OnOk result (GrowsBy 2 (contents_of drawing.old) (contents_of drawing.new)) }
{
    if is_kind(source.bytes, b"VERTEX".as_slice(), entity) {
        let vertex = entity_vertex(source.bytes, source.how.exact, source.seed, entity)?;
        add_own_vertex(drawing, &vertex)?;
        Ok(EntityPlace::Reading { kind, first })
    } else if is_kind(source.bytes, b"SEQEND".as_slice(), entity) {
        add_path_from(drawing, kind, first)?;
        Ok(EntityPlace::Free)
    } else {
        Err(LayerFault::Count {
            line: u64::from(entity.head.line),
        })
    }
}

/// Reads an entity, and answers where the next one is.
pub fn step(
    source: &Source,
    place: EntityPlace,
    entity: &Entity,
    drawing: &mut Drawing,
) -> Result<EntityPlace, LayerFault>
    requires room { HoldsAtMost (2 ^ 30) (contents_of drawing.old) }
    requires few { length entity.now.pairs.now ≤ 2 ^ 29 }
    ensures goes { (before : Contents) → (spot : WalkPlace) → Stands place (contents_of drawing.old) before spot
        → Goes (step source.now.bytes.now source.now.how source.now.seed spot (entity_view entity.now)) before result
        (contents_of drawing.new) }
    ensures grown { OnOk result (GrowsBy (length entity.now.pairs.now + 2) (contents_of drawing.old) (contents_of drawing.new)) }
{
    match place {
        EntityPlace::Free => step_free(source, entity, drawing),
        EntityPlace::Staying => step_staying(source, entity, drawing),
        EntityPlace::Reading { kind, first } => step_reading(source, kind, first, entity, drawing),
    }
}
