//! The layers of a migration, carried one after the other, and where their paths begin.

ghost use Rattle.std.specs.Prelude.{◌≡◌, ◌≤◌, ◌++◌, ◌∷◌, [], ℕ, IfOk, IfErr, IfSome, OnOk, length, map, get_or, None as Nothing, false};
ghost use Rattle.std.specs.Option.{option_map};
ghost use Rattle.tin_base.specs.Triangulation.{Triangulation};
ghost use Rattle.runs.specs.declared.loads.TheConstants.{MOST_BYTES};
ghost use Rattle.runs.specs.Counts.{LeavesFaults};
ghost use Rattle.migrate_mode.specs.RunContents.{IsUncarriedAs};
ghost use Rattle.migrate_mode.specs.PartialRuns.{shelf_state, run_start, IsRunAfter, StopsRun};
ghost use Rattle.layer_features.specs.declared.features.Feature.{Feature};
ghost use Rattle.layer_features.specs.declared.features.Label.TheVariants.{Number as LabelNumber};
ghost use Rattle.layer_features.specs.Features.{AreInOrder};
ghost use Rattle.layer_features.specs.JsonFeatures.{asked_for};
ghost use Rattle.layer_formats.specs.LayerOutcomes.{IsLayerText};
ghost use Rattle.layer_formats.specs.LayerTexts.{is_drawing};
ghost use Rattle.place_runs.specs.Words.{MayBeCarried};
ghost use Rattle.change_places.specs.Words.{layer_words};
ghost use Rattle.place_runs.specs.Places.{HaveAllPlaces, feature_there};
ghost use Rattle.place_runs.specs.InsideLayers.{HasPlacesAs, HasPlaces, LacksPlacesOf, line_spot, line_spots, named_spots};
ghost use Rattle.place_runs.specs.InsideLayers.{spot_in, spot_there};

use change_places::{PathSpot, path_places};
use job_words::Format;
use layer_features::{Feature, Label, feature_at};
use layer_formats::{by_format, features_of, is_drawing, known_format};
use migrate_mode::{CarriedLayers, Migration, begin_run, carry_one};
use runs::Refusal;
use sheet_base::{How, Layer, LayerFault, Listed};
use shelf_io::Shelf;
use std::alloc::{AllocError, Global};
use tin_index::TinIndex;

/// The layers that were carried, and for each where its paths are written and the texts that parts of these are of.
#[derive(Drop)]
pub struct PlacedRun {
    pub run: CarriedLayers,
    pub places: Vec<Listed<PathSpot>>,
    pub texts: Vec<Listed<u8>>,
}

// Where the paths of a layer begin, and at which lines.
#[derive(Drop)]
struct Begun {
    places: Vec<Option<u32>>,
    lines: Vec<Option<u32>>,
}

// Where the paths of a layer of the format `L` begin.
fn places_as<L: Layer>(
    alloc: Global,
    drawing: bool,
    bytes: &[u8],
    how: How,
    number: u32,
) -> Result<Begun, Refusal>
    requires within { length bytes.now ≤ MOST_BYTES }
    ensures ok { IfOk result (λ begun. HasPlacesAs (L.reads how bytes.now) drawing bytes.now begun.places.items begun.lines.items) }
    ensures refused { IfErr result (λ refusal. (tin : Triangulation) (before : ℕ) → IsUncarriedAs (L.reads how)
        (L.refuses how) tin bytes.now number before refusal) }
{
    match L::read(alloc, bytes, how) {
        Ok(sheet) => Ok(Begun {
            places: path_places(alloc, drawing, bytes, &sheet)?,
            lines: path_places(alloc, true, bytes, &sheet)?,
        }),
        Err(LayerFault::NoMemory) => Err(Refusal::NoMemory),
        Err(fault) => Err(Refusal::Layer {
            layer: number,
            fault,
        }),
    }
}

// The number at this place of a list, or none.
fn number_there(numbers: &[Option<u32>], number: usize) -> Option<u32>
    ensures { result ≡ get_or numbers.now number Nothing }
{
    match numbers.get(number) {
        Some(found) => *found,
        None => None,
    }
}

// What a path is called that is written at this line.
fn line_label(line: Option<u32>) -> Option<Label>
    ensures { result ≡ option_map LabelNumber line }
{
    match line {
        Some(number) => Some(Label::Number { number }),
        None => None,
    }
}

// A path that begins at this place and line.
fn line_spot(at: Option<u32>, line: Option<u32>) -> PathSpot
    ensures { result ≡ line_spot at line }
{
    PathSpot {
        at,
        feature: line_label(line),
        id: None,
        name: None,
    }
}

// Paths that begin at these places and lines.
fn line_spots(
    alloc: Global,
    places: &[Option<u32>],
    lines: &[Option<u32>],
) -> Result<Vec<PathSpot>, AllocError>
    ensures { IfOk result (λ spots. spots.items ≡ line_spots 0 places.now lines.now) }
{
    let mut spots = Vec::with_capacity(alloc, places.len())?;
    for (number, at) in places.iter().enumerate() {
        spots.push(line_spot(*at, number_there(lines, number)))?;
    }
    Ok(spots)
}

// The feature that has the place at which a path begins.
fn feature_there(features: &[Feature], at: Option<u32>) -> Option<Feature>
    requires { AreInOrder 0 features.now }
    ensures { result ≡ feature_there features.now at }
{
    match at {
        Some(at) => feature_at(features, at),
        None => None,
    }
}

// A path that begins at this place and belongs to this feature.
fn spot_in(at: Option<u32>, feature: Option<Feature>) -> PathSpot
    ensures { result ≡ spot_in at feature }
{
    match feature {
        Some(feature) => PathSpot {
            at,
            feature: Some(feature.label),
            id: feature.id,
            name: feature.name,
        },
        None => PathSpot {
            at,
            feature: None,
            id: None,
            name: None,
        },
    }
}

// Paths that begin at these places, with their features.
fn feature_spots(
    alloc: Global,
    features: &[Feature],
    places: &[Option<u32>],
) -> Result<Vec<PathSpot>, AllocError>
    requires { AreInOrder 0 features.now }
    ensures { IfOk result (λ spots. spots.items ≡ map (spot_there features.now) places.now) }
{
    let mut spots = Vec::with_capacity(alloc, places.len())?;
    for at in places {
        spots.push(spot_in(*at, feature_there(features, *at)))?;
    }
    Ok(spots)
}

// Where the paths of a layer of this format begin.
fn places_by_format(
    alloc: Global,
    format: Format,
    bytes: &[u8],
    how: How,
    number: u32,
) -> Result<Begun, Refusal>
    requires within { length bytes.now ≤ MOST_BYTES }
    ensures ok { IfOk result (λ begun. HasPlacesAs (IsLayerText how format bytes.now) (is_drawing format) bytes.now
        begun.places.items begun.lines.items) }
    ensures refused { IfErr result (LacksPlacesOf how format bytes.now number) }
{
    let drawing = is_drawing(format);
    by_format!(format, places_as(alloc, drawing, bytes, how, number))
}

// Paths that begin at these places and lines, with the features that name them, or else with their lines.
fn named_spots(
    alloc: Global,
    features: Option<Listed<Feature>>,
    places: &[Option<u32>],
    lines: &[Option<u32>],
) -> Result<Vec<PathSpot>, AllocError>
    requires { IfSome features (λ all. AreInOrder 0 all) }
    ensures { IfOk result (λ spots. spots.items ≡ named_spots features places.now lines.now) }
{
    match features {
        Some(features) => feature_spots(alloc, features.items(), places),
        None => line_spots(alloc, places, lines),
    }
}

// Where the paths of a layer of this format are written.
fn spots_by_format(
    alloc: Global,
    format: Format,
    bytes: &[u8],
    how: How,
    asked: Option<&[u8]>,
    number: u32,
) -> Result<Vec<PathSpot>, Refusal>
    requires within { length bytes.now ≤ MOST_BYTES }
    ensures ok { IfOk result (λ spots. HasPlaces how (asked_for asked.entry) format bytes.now spots.items) }
    ensures refused { IfErr result (LacksPlacesOf how format bytes.now number) }
{
    let begun = places_by_format(alloc, format, bytes, how, number)?;
    let features = features_of(alloc, format, bytes, asked)?;
    let spots = named_spots(alloc, features, &begun.places, &begun.lines)?;
    Ok(spots)
}

// Puts the places of a layer's paths after those of the layers before it.
fn add_places(places: &mut Vec<Listed<PathSpot>>, own: Vec<PathSpot>) -> Result<(), AllocError>
    ensures { OnOk result (places.new.items ≡ places.old.items ++ own.items ∷ []) }
{
    places.push(Listed::of(own))?;
    Ok(())
}

// Puts the text of a layer after the texts of the layers before it.
fn add_text(texts: &mut Vec<Listed<u8>>, own: Vec<u8>) -> Result<(), AllocError>
    ensures { OnOk result (texts.new.items ≡ texts.old.items ++ own.items ∷ []) }
{
    texts.push(Listed::of(own))?;
    Ok(())
}

/// All layers of a migration, carried in order, and where their paths begin. A layer is read twice: to be carried, and
/// for the places of its paths. The run keeps their sheets where the migration asks for sides.
pub fn carry_layers<S: Shelf>(
    alloc: Global,
    shelf: &mut S,
    migration: &Migration,
    index: &TinIndex,
    asked: Option<&[u8]>,
) -> Result<PlacedRun, Refusal>
    requires { MayBeCarried migration.now }
    ensures ok { IfOk result (λ placed. IsRunAfter
        (run_start (shelf_state (S.files shelf.old) (S.faults shelf.old) (S.given shelf.old))
        migration.now false index.now) migration.now.layers
        (shelf_state (S.files shelf.new) (S.faults shelf.new) (S.given shelf.new)) placed.run) }
    ensures places { IfOk result (λ placed. HaveAllPlaces (S.files shelf.old) migration.now.how (asked_for asked.entry) migration.now.layers
        (layer_words placed.texts.items placed.places.items)) }
    ensures refused { IfErr result (StopsRun
        (run_start (shelf_state (S.files shelf.old) (S.faults shelf.old) (S.given shelf.old)) migration.now false index.now)
        (shelf_state (S.files shelf.new) (S.faults shelf.new) (S.given shelf.new))) }
    ensures faults { LeavesFaults (S.faults shelf.old) (S.faults shelf.new) result }
{
    let mut run = begin_run(alloc, migration);
    let mut places = Vec::new(alloc);
    let mut texts = Vec::new(alloc);
    for (number, name) in migration.layers.items().iter().enumerate() {
        let layer = number as u32;
        let bytes = carry_one(alloc, shelf, migration, false, index, layer, name, &mut run)?;
        let own = spots_by_format(
            alloc,
            known_format(name.text()),
            &bytes,
            migration.how,
            asked,
            layer,
        )?;
        add_places(&mut places, own)?;
        add_text(&mut texts, bytes)?;
    }
    Ok(PlacedRun { run, places, texts })
}
