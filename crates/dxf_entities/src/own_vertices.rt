//! Vertices of polylines that are entities of their own.

ghost use Rattle.std.specs.Prelude.{◌≡◌, ◌^◌, OnOk};
ghost use Rattle.dxf_entities.specs.EntityViews.{entity_view};
ghost use Rattle.dxf_entities.specs.Polylines.{plain, entity_vertex};
ghost use Rattle.dxf_entities.specs.DrawingContents.{contents_of, with_own_vertex, HoldsAtMost, GrowsBy};

use crate::drawing::{Drawing, VertexFields};
use crate::entities::Entity;
use crate::fields::not_zero_at;
use crate::handles::check_handle;
use crate::points::spot_at;
use dxf_pairs::Pair;
use sheet_base::{Edit, LayerFault, What};
use std::alloc::AllocError;

/// Refuses a vertex's entity that has a width, a bulge or flags.
fn check_plain(bytes: &[u8], entity: &Entity) -> Result<(), LayerFault>
    ensures { result ≡ plain bytes.now (entity_view entity.now) }
{
    if let Some(line) = not_zero_at(bytes, 40, entity)? {
        return Err(LayerFault::Width { line });
    }
    if let Some(line) = not_zero_at(bytes, 41, entity)? {
        return Err(LayerFault::Width { line });
    }
    if let Some(line) = not_zero_at(bytes, 42, entity)? {
        return Err(LayerFault::Bulge { line });
    }
    if let Some(line) = not_zero_at(bytes, 70, entity)? {
        return Err(LayerFault::Flags { line });
    }
    Ok(())
}

/// The vertex of an entity of its own.
pub fn entity_vertex(
    bytes: &[u8],
    exact: bool,
    seed: Option<Pair>,
    entity: &Entity,
) -> Result<VertexFields, LayerFault>
    ensures { result ≡ entity_vertex bytes.now exact seed (entity_view entity.now) }
{
    check_handle(seed, entity)?;
    let spot = spot_at(bytes, exact, 10, 20, entity)?;
    check_plain(bytes, entity)?;
    Ok(VertexFields {
        spot,
        start: entity.head.start,
        past: entity.end(),
    })
}

/// Adds a vertex with an entity of its own, which is replaced.
pub fn add_own_vertex(drawing: &mut Drawing, vertex: &VertexFields) -> Result<(), AllocError>
    requires { HoldsAtMost (2 ^ 30) (contents_of drawing.old) }
    ensures added { OnOk result (contents_of drawing.new ≡ with_own_vertex (contents_of drawing.old) vertex.now) }
    ensures grown { OnOk result (GrowsBy 2 (contents_of drawing.old) (contents_of drawing.new)) }
{
    let point = drawing.point();
    drawing.add_point(&vertex.spot)?;
    drawing.add_edit(Edit {
        start: vertex.start,
        end: vertex.past,
        what: What::Vertex { point },
    })?;
    Ok(())
}
