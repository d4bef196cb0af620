//! The changes of sides that are printed, with their places on the map and in the layers.

ghost use Rattle.std.specs.Prelude.{◌≡◌, IfOk, IfErr, map, List, ℕ};
ghost use Rattle.sheet_base.specs.Segments.{point_at};
ghost use Rattle.sheet_base.specs.ImageFits.{run_begin};
ghost use Rattle.tin_base.specs.declared.frames.Frame.TheVariants.{Target};
ghost use Rattle.ring_side.specs.declared.kinds.SideChange.{SideChange as SideChangeOf};
ghost use Rattle.ring_side.specs.SideChanges.{images_at, path_at, place_of, sheet_at};
ghost use Rattle.change_places.specs.Words.{layer_words, ring_words};
ghost use Rattle.migrate_mode.specs.RunContents.{IsUnsided, MayBeSided};
ghost use Rattle.place_runs.specs.SidePlaces.{is_side_of_two, printed_sides, ring_text_of};
ghost use Rattle.place_runs.specs.InsideSides.{AreSomeRingsOf, is_side_printed, is_some_feature};

use crate::pieces::{no_spot, path_spot};
use change_places::{PathSpot, RingSpot};
use migrate_mode::{CarriedLayers, list_sides};
use plane_base::Pt;
use ring_side::{SideChange, Spot};
use runs::Refusal;
use sheet_base::{Images, Listed, Sheet};
use std::alloc::{AllocError, Global};
use tin_base::Change;

// The number of the first point of this path of this layer.
fn first_point(sheets: &[Sheet], layer: u32, path: u32) -> u32
    ensures { result ≡ (path_at (sheet_at sheets.now layer) path).first }
{
    match sheets.get(layer as usize) {
        Some(sheet) => match sheet.paths().get(path as usize) {
            Some(row) => row.first,
            None => 0,
        },
        None => 0,
    }
}

// The own image of the point of this number.
fn own_image(images: &Images, number: usize) -> Pt
    ensures { result ≡ point_at images.now.points (run_begin images.now number) }
{
    match images.points().get(images.run_begin(number)) {
        Some(point) => *point,
        None => Pt { x: 0, y: 0 },
    }
}

// The written place of a vertex, in millimetres of the target frame.
fn written_place(sheets: &[Sheet], images: &[Images], at: Spot) -> Pt
    ensures { result ≡ place_of sheets.now images.now Target at }
{
    let number = first_point(sheets, at.layer, at.path) as usize + at.vertex as usize;
    match images.get(at.layer as usize) {
        Some(own) => own_image(own, number),
        None => Pt { x: 0, y: 0 },
    }
}

// A change of sides with its place and those of its paths.
fn ring_spot(
    sheets: &[Sheet],
    images: &[Images],
    places: &[Listed<PathSpot>],
    side: SideChange,
) -> RingSpot
    ensures { (texts : List (List ℕ)) → ring_words texts result ≡ ring_text_of sheets.now images.now (layer_words texts places.now) side }
{
    match side {
        SideChange::Turn { layer, path, .. } => RingSpot {
            change: side,
            ring: path_spot(places, layer, path),
            point: no_spot(),
            place: written_place(
                sheets,
                images,
                Spot {
                    layer,
                    path,
                    vertex: 0,
                },
            ),
        },
        SideChange::Point {
            layer,
            path,
            at,
            ..
        } => RingSpot {
            change: side,
            ring: path_spot(places, layer, path),
            point: path_spot(places, at.layer, at.path),
            place: written_place(sheets, images, at),
        },
    }
}

// Whether the ring and the point are of two layers.
fn is_of_two(side: SideChange) -> bool
    ensures { result ≡ is_side_of_two side }
{
    match side {
        SideChange::Turn { .. } => false,
        SideChange::Point { layer, at, .. } => layer != at.layer,
    }
}

// Whether the change of a side is printed.
fn is_side_printed(across: bool, side: SideChange) -> bool
    ensures { result ≡ is_side_printed across side }
{
    !across || is_of_two(side)
}

// Those of the changes of sides that are printed, with their places.
fn printed_rings(
    alloc: Global,
    across: bool,
    sheets: &[Sheet],
    images: &[Images],
    places: &[Listed<PathSpot>],
    sides: &[SideChange],
) -> Result<Vec<RingSpot>, AllocError>
    ensures { IfOk result (λ rings. (texts : List (List ℕ)) → map (ring_words texts) rings.items
        ≡ map (ring_text_of sheets.now images.now (layer_words texts places.now)) (printed_sides across sides.now)) }
{
    let mut rings = Vec::with_capacity(alloc, sides.len())?;
    for side in sides {
        if is_side_printed(across, *side) {
            rings.push(ring_spot(sheets, images, places, *side))?;
        }
    }
    Ok(rings)
}

/// Whether there is a change or one of sides.
pub fn is_some_feature(changes: &[Change], rings: &[RingSpot]) -> bool
    ensures { result ≡ is_some_feature changes.now rings.now }
{
    !changes.is_empty() || !rings.is_empty()
}

/// The changes of sides of a run's layers that are printed, with their places, where they are asked for and not too
/// many.
pub fn ring_spots(
    alloc: Global,
    across: bool,
    run: &CarriedLayers,
    places: &[Listed<PathSpot>],
    texts: &[Listed<u8>],
) -> Result<Vec<RingSpot>, Refusal>
    requires { MayBeSided run.now.sides run.now.sheets.items run.now.images.items }
    ensures ok { IfOk result (λ rings. AreSomeRingsOf run.now.sides across run.now.sheets.items run.now.images.items
        (layer_words texts.now places.now) (map (ring_words texts.now) rings.items)) }
    ensures refused { IfErr result (IsUnsided run.now.sides run.now.sheets.items run.now.images.items) }
{
    let _ = texts;
    match list_sides(alloc, run.sides, &run.sheets, &run.images)? {
        Some(sides) => Ok(printed_rings(
            alloc,
            across,
            &run.sheets,
            &run.images,
            places,
            sides.items(),
        )?),
        None => Ok(Vec::new(alloc)),
    }
}
