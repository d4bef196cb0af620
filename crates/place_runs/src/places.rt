//! What a run prints: the places of the changes of a migration.

ghost use Rattle.std.specs.Prelude.{◌≡◌, ◌≤◌, [], ℕ, List, IfOk, IfErr, vec_len, vec_capacity};
ghost use Rattle.std.specs.List.{AllByRecursion};
ghost use Rattle.report_text.specs.Reports.{IsPrintable};
ghost use Rattle.shelf_io.specs.Count.{Rose};
ghost use Rattle.carry_map.specs.declared.limits.TheConstants.{MOST_PIECES};
ghost use Rattle.topo_check.specs.Changes.{AreAllComparable};
ghost use Rattle.migrate_mode.specs.RunContents.{IsUnreported, MayBeSided};
ghost use Rattle.runs.specs.Status.{end_of};
ghost use Rattle.runs.specs.Counts.{LeavesFaults, shelf_counts};
ghost use Rattle.runs.specs.Causes.{HasCauses};
ghost use Rattle.migrate_mode.specs.Migrations.{MayRefuseMigrationOver, LacksWanted};
ghost use Rattle.place_runs.specs.Words.{MayBeCarried};
ghost use Rattle.place_runs.specs.InsidePieces.{IsPlacesText, said_file};
ghost use Rattle.place_runs.specs.InsideMaps.{HasRoom, HasSides, IsEachOne, IsMapOf, IsMapText};
ghost use Rattle.layer_features.specs.JsonFeatures.{asked_for};
ghost use Rattle.change_places.specs.Words.{layer_words};
ghost use Rattle.change_places.specs.Laws.{IsPathCopied};
ghost use Rattle.place_runs.specs.Places.{IsPlacesDoneOver, AreRowsOf, is_asked, style_of};

use crate::change_maps::ChangeMap;
use crate::layers::{PlacedRun, carry_layers};
use crate::pieces::keep_printed;
use crate::rooms::room_for;
use crate::sides::{is_some_feature, ring_spots};
use crate::views::View;
use change_places::{Style, changes_are_json};
use migrate_mode::{Migration, list_changes, load_index};
use report_text::LayerRow;
use runs::Refusal;
use shelf_io::{Name, Shelf};
use std::alloc::Global;
use tin_base::SoundTin;

/// What is printed of a migration.
#[derive(Drop)]
pub struct PreparedMap {
    /// Its changes.
    pub map: ChangeMap,
    /// Room for the parts of their text, with nothing in it.
    pub room: Vec<u8>,
    /// Whether there is a change, or one of sides.
    pub changed: bool,
    /// What a report would say of each layer.
    pub rows: Vec<LayerRow>,
}

// Whether a member is asked for.
fn is_asked(member: &Option<Name>) -> bool
    ensures { result ≡ is_asked member.now }
{
    match member {
        Some(_) => true,
        None => false,
    }
}

// How changes are printed.
fn style_of(view: &View) -> Style
    ensures { result ≡ style_of view.now }
{
    Style {
        lines: view.lines,
        named: is_asked(&view.member),
    }
}

// The member that is asked for, in bytes.
fn member_bytes(member: &Option<Name>) -> Option<&[u8]>
    ensures { asked_for result ≡ member.now }
{
    match member {
        Some(name) => Some(name.bytes()),
        None => None,
    }
}

// The map of a run's changes, whether there is a change or one of sides, and what a report would say of each layer.
#[derive(Drop)]
struct RunMap {
    map: ChangeMap,
    changed: bool,
    rows: Vec<LayerRow>,
}

// The changes of a run that are printed, with those of sides where they are asked for.
fn map_of_run(
    alloc: Global,
    view: &View,
    tin: &SoundTin,
    placed: PlacedRun,
) -> Result<RunMap, Refusal>
    requires comparable { AreAllComparable tin.now placed.run.pieces.items }
    requires room { vec_len placed.run.pieces ≤ MOST_PIECES }
    requires sides { MayBeSided placed.run.sides placed.run.sheets.items placed.run.images.items }
    ensures ok { IfOk result (λ drawn. IsMapOf view.now tin.now placed.run
        (layer_words placed.texts.items placed.places.items) drawn.map drawn.changed) }
    ensures rows { IfOk result (λ drawn. drawn.rows.items ≡ placed.run.rows.items) }
    ensures refused { IfErr result (λ refusal. IsUnreported tin.now placed.run refusal) }
{
    let mut changes = list_changes(alloc, tin, &placed.run.pieces)?;
    keep_printed(view, &mut changes);
    let rings = ring_spots(
        alloc,
        view.across,
        &placed.run,
        &placed.places,
        &placed.texts,
    )?;
    let changed = is_some_feature(&changes, &rings);
    let PlacedRun { run, places, texts } = placed;
    Ok(RunMap {
        map: ChangeMap {
            style: style_of(view),
            pieces: run.pieces,
            places,
            texts,
            changes,
            rings,
        },
        changed,
        rows: run.rows,
    })
}

// The changes of the layers of these names that were carried, as they are printed, with those of sides where they are
// asked for, and room for their text.
fn places_of_run(
    alloc: Global,
    view: &View,
    names: &[Name],
    tin: &SoundTin,
    placed: PlacedRun,
) -> Result<PreparedMap, Refusal>
    requires comparable { AreAllComparable tin.now placed.run.pieces.items }
    requires one { IsEachOne placed.run.pieces.items }
    requires room { vec_len placed.run.pieces ≤ MOST_PIECES }
    requires sides { MayBeSided placed.run.sides placed.run.sheets.items placed.run.images.items }
    requires printable { AllByRecursion IsPrintable names.now }
    requires copied { AllByRecursion (AllByRecursion IsPathCopied) (layer_words placed.texts.items placed.places.items) }
    ensures ok { IfOk result (λ prepared. IsMapOf view.now tin.now placed.run
        (layer_words placed.texts.items placed.places.items) prepared.map prepared.changed) }
    ensures rows { IfOk result (λ prepared. prepared.rows.items ≡ placed.run.rows.items) }
    ensures some { IfOk result (λ prepared. (said : List ℕ) × IsMapText names.now prepared.map said) }
    ensures form { IfOk result (λ prepared. (said : List ℕ) → IsMapText names.now prepared.map said
        → IsPlacesText view.now names.now said) }
    ensures sides { IfOk result (λ prepared. HasSides prepared.map) }
    ensures room { IfOk result (λ prepared. HasRoom names.now prepared.map (vec_capacity prepared.room)) }
    ensures empty { IfOk result (λ prepared. prepared.room.items ≡ []) }
    ensures refused { IfErr result (λ refusal. IsUnreported tin.now placed.run refusal) }
{
    let drawn = map_of_run(alloc, view, tin, placed)?;
    let room = room_for(alloc, names, &drawn.map)?;
    changes_are_json(names, &drawn.map.texts, &drawn.map.rings);
    Ok(PreparedMap {
        map: drawn.map,
        room,
        changed: drawn.changed,
        rows: drawn.rows,
    })
}

/// The changes of a migration as they are printed. The error says why it is refused: by the triangulation, by the first
/// layer that is not carried, or by the changes of all pieces, as `tinmove migrate` is.
pub fn prepare_places<S: Shelf>(
    alloc: Global,
    shelf: &mut S,
    migration: &Migration,
    view: &View,
) -> Result<PreparedMap, Refusal>
    requires { MayBeCarried migration.now }
    ensures ok { IfOk result (λ prepared. (said : List ℕ) → IsMapText migration.now.layers prepared.map said
        → IsPlacesDoneOver view.now (S.files shelf.old) migration.now (end_of prepared.changed) (said_file said)) }
    ensures rows { IfOk result (λ prepared. AreRowsOf (S.files shelf.old) migration.now prepared.rows.items) }
    ensures some { IfOk result (λ prepared. (said : List ℕ) × IsMapText migration.now.layers prepared.map said) }
    ensures form { IfOk result (λ prepared. (said : List ℕ) → IsMapText migration.now.layers prepared.map said
        → IsPlacesText view.now migration.now.layers said) }
    ensures sides { IfOk result (λ prepared. HasSides prepared.map) }
    ensures room { IfOk result (λ prepared. HasRoom migration.now.layers prepared.map (vec_capacity prepared.room)) }
    ensures empty { IfOk result (λ prepared. prepared.room.items ≡ []) }
    ensures refused { IfErr result (MayRefuseMigrationOver (S.files shelf.old) migration.now
        (Rose (S.faults shelf.old) (S.faults shelf.new))) }
    ensures causes { IfErr result (HasCauses (LacksWanted migration.now (S.files shelf.old)) (λ status. Unit {0})
        (shelf_counts (S.faults shelf.old) (S.faults shelf.new) (S.given shelf.old) (S.given shelf.new))) }
    ensures faults { LeavesFaults (S.faults shelf.old) (S.faults shelf.new) result }
{
    let index = load_index(
        alloc,
        shelf,
        migration.tin.text(),
        migration.how,
        migration.inverse,
    )?;
    let placed = carry_layers(alloc, shelf, migration, &index, member_bytes(&view.member))?;
    let tin = index.into_tin();
    tin.show_soundness();
    places_of_run(alloc, view, migration.layers.items(), &tin, placed)
}
