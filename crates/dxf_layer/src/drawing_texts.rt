//! Reading a layer in ASCII DXF.

ghost use Rattle.std.specs.Prelude.{◌≡◌, ◌≢◌, ◌^◌, ◌≤◌, ◌<◌, length, OnOk, IfOk, IsErrOf, Ok, Err};
ghost use Rattle.sheet_base.specs.declared.faults.LayerFault.{LayerFault};
ghost use Rattle.sheet_base.specs.declared.faults.LayerFault.TheVariants.{NoMemory};
ghost use Rattle.sheet_base.specs.Sheets.{Contents};
ghost use Rattle.sheet_base.specs.Splices.{AreInOrder};
ghost use Rattle.dxf_entities.specs.SectionPlaces.{begins_entity, entities_of};
ghost use Rattle.dxf_layer.specs.InsideWalks.{free, walk_of, visit_of, WalkPlace};
ghost use Rattle.dxf_layer.specs.Drawings.{refusal_of_pairs, contents_of_seed, drawing_sheet};
ghost use Rattle.dxf_entities.specs.DrawingContents.{contents_of, HoldsAtMost, Reads};
ghost use Rattle.dxf_layer.specs.InsideStands.{GrowsAlong, Stands, Goes};

use crate::edit_order::in_order;
use crate::walks::{EntityPlace, step};
use dxf_entities::{
    Drawing, Entity, Source, Where, behind, has_code, pairs_before_head, seed_of, value_edit,
};
use dxf_pairs::{Pair, PairFault, read_pairs};
use sheet_base::{How, LayerFault, Listed, Sheet, What};
use std::alloc::{AllocError, Global};

/// The refusal of pairs, by the same name.
fn refuse_pairs(fault: PairFault) -> LayerFault
    ensures { result ≡ refusal_of_pairs fault }
{
    match fault {
        PairFault::Binary => LayerFault::Binary,
        PairFault::Code { line } => LayerFault::Code { line },
        PairFault::Odd { line } => LayerFault::Odd { line },
        PairFault::NoEof => LayerFault::NoEof,
        PairFault::NoMemory => LayerFault::NoMemory,
    }
}

/// Whether the pair, which is here, begins an entity of a section ENTITIES, or ends the section.
fn begins_entity(place: Where, pair: &Pair) -> bool
    ensures { result ≡ begins_entity place pair.now }
{
    match place {
        Where::Entities => has_code(0, pair),
        _ => false,
    }
}

/// Reads the entity that the first of the pairs begins, where it is in this section and begins one.
fn visit(
    source: &Source,
    section: Where,
    place: EntityPlace,
    pairs: &[Pair],
    drawing: &mut Drawing,
) -> Result<EntityPlace, LayerFault>
    requires some { 0 < length pairs.now }
    requires few { length pairs.now ≤ 2 ^ 26 }
    requires room { HoldsAtMost (2 ^ 30) (contents_of drawing.old) }
    ensures goes { (before : Contents) → (spot : WalkPlace) → Stands place (contents_of drawing.old) before spot
        → Goes (visit_of source.now.bytes.now source.now.how source.now.seed section spot pairs.now) before result
        (contents_of drawing.new) }
    ensures grown { OnOk result (GrowsAlong pairs.now (contents_of drawing.old) (contents_of drawing.new)) }
{
    if begins_entity(section, &pairs[0]) {
        let entity = Entity {
            head: pairs[0],
            pairs: pairs_before_head(&pairs[1..]),
        };
        step(source, place, &entity, drawing)
    } else {
        Ok(place)
    }
}

/// Reads the entities of the sections ENTITIES.
fn read_entities(source: &Source, pairs: &[Pair], drawing: &mut Drawing) -> Result<(), LayerFault>
    requires room { HoldsAtMost 0 (contents_of drawing.old) }
    requires few { length pairs.now ≤ 2 ^ 26 }
    ensures reads { Reads (walk_of source.now.bytes.now source.now.how source.now.seed free
        (entities_of source.now.bytes.now pairs.now)) (contents_of drawing.old) result (contents_of drawing.new) }
    ensures room { OnOk result (HoldsAtMost (2 ^ 30) (contents_of drawing.new)) }
{
    let mut section = Where::Outside;
    let mut place = EntityPlace::Free;
    for (number, head) in pairs.iter().enumerate() {
        place = visit(source, section, place, &pairs[number..], drawing)?;
        section = behind(source.bytes, section, head);
    }
    match place {
        EntityPlace::Free | EntityPlace::Staying => Ok(()),
        EntityPlace::Reading { .. } => Err(LayerFault::NoEof),
    }
}

/// What is read before the first entity: the edit of the next handle.
fn begin(alloc: Global, seed: Option<Pair>) -> Result<Drawing, AllocError>
    ensures { IfOk result (λ drawing. contents_of drawing ≡ contents_of_seed seed) }
{
    let mut drawing = Drawing::new(alloc);
    if let Some(pair) = seed {
        drawing.add_edit(value_edit(What::NextHandle, &pair))?;
    }
    Ok(drawing)
}

/// The sheet of a drawing in ASCII DXF, of at most 2^26 bytes. Of two faults the first is reported.
pub fn read_drawing(alloc: Global, bytes: &[u8], how: How) -> Result<Sheet, LayerFault>
    requires { length bytes.now ≤ 2 ^ 26 }
    ensures sheet { IfOk result (λ sheet. drawing_sheet how bytes.now ≡ Ok sheet) }
    ensures edits { IfOk result (λ sheet. AreInOrder 0 sheet.edits (length bytes.now)) }
    ensures refused { (fault : LayerFault) → IsErrOf result fault → fault ≢ NoMemory → drawing_sheet how bytes.now ≡ Err fault }
{
    let pairs = match read_pairs(alloc, bytes) {
        Ok(pairs) => pairs,
        Err(fault) => return Err(refuse_pairs(fault)),
    };
    let seed = seed_of(bytes, &pairs);
    let mut drawing = begin(alloc, seed)?;
    let source = Source { bytes, how, seed };
    read_entities(&source, &pairs, &mut drawing)?;
    let Drawing {
        paths,
        points,
        heights,
        edits,
        inexact,
        dropped,
    } = drawing;
    let edits = in_order(edits);
    Ok(Sheet::of(
        Listed::of(paths),
        Listed::of(points),
        heights,
        Listed::of(edits),
        inexact,
        dropped,
    ))
}
