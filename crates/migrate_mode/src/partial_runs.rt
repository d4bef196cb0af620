//! The layers of a migration, loaded and carried one after the other.

ghost use Rattle.std.specs.Prelude.{◌≡◌, ◌+◌, ◌<◌, ◌≤◌, [], Bool, IfOk, IfErr, IfSome, OnOk, take, get_or, length, vec_len};
ghost use Rattle.shelf_io.specs.Load.{Loads};
ghost use Rattle.carry_map.specs.declared.limits.TheConstants.{MOST_PIECES};
ghost use Rattle.tin_base.specs.Triangulation.{Triangulation};
ghost use Rattle.job_words.specs.JobFields.{HasFormat};
ghost use Rattle.runs.specs.declared.loads.TheConstants.{MOST_BYTES};
ghost use Rattle.runs.specs.Counts.{LeavesFaults};
ghost use Rattle.migrate_mode.specs.Migrations.{MayBeTaken};
ghost use Rattle.migrate_mode.specs.PartialRuns.{ShelfState, shelf_state, run_start, IsRunAfter, StopsRun};

use crate::layer_runs::{CarriedLayers, carry_next};
use crate::migrations::Migration;
use runs::{MOST_BYTES, Refusal, load_file};
use shelf_io::{Name, Shelf};
use std::alloc::Global;
use tin_index::TinIndex;

/// A run of a migration that has no layer yet. It keeps sheets where the migration asks for sides.
pub fn begin_run(alloc: Global, migration: &Migration) -> CarriedLayers
    ensures { (shelf : ShelfState) (cert : Bool) (tin : Triangulation)
        → IsRunAfter (run_start shelf migration.now cert tin) [] shelf result }
{
    let mut run = CarriedLayers::new(alloc);
    run.sides = migration.sides;
    run
}

/// Loads the layer of this number and name of a migration, and carries it after those that the run has, where `cert` is
/// set with its certificate. Answers its text. In the clauses, `first` is the shelf with which the run began.
pub fn carry_one<S: Shelf>(
    alloc: Global,
    shelf: &mut S,
    migration: &Migration,
    cert: bool,
    index: &TinIndex,
    number: u32,
    name: &Name,
    run: &mut CarriedLayers,
) -> Result<Vec<u8>, Refusal>
    requires within { number < length migration.now.layers }
    requires named { name.now ≡ get_or migration.now.layers number name.now }
    requires suffix { HasFormat name.now }
    requires used { run.old.used ≤ MOST_BYTES }
    requires room { vec_len run.old.pieces ≤ MOST_PIECES }
    ensures ok { OnOk result ((first : ShelfState) → let start = run_start first migration.now cert index.now in
        IsRunAfter start (take number migration.now.layers)
        (shelf_state (S.files shelf.old) (S.faults shelf.old) (S.given shelf.old)) run.old
        → IsRunAfter start (take (number + 1) migration.now.layers)
        (shelf_state (S.files shelf.new) (S.faults shelf.new) (S.given shelf.new)) run.new) }
    ensures text { IfOk result (λ bytes. IfSome (S.files shelf.old) (Loads name.now bytes.items)) }
    ensures within { IfOk result (λ bytes. run.old.used + length bytes.items ≤ MOST_BYTES) }
    ensures refused { IfErr result (λ refusal. (first : ShelfState)
        → let start = run_start first migration.now cert index.now in
        IsRunAfter start (take number migration.now.layers)
        (shelf_state (S.files shelf.old) (S.faults shelf.old) (S.given shelf.old)) run.old
        → StopsRun start (shelf_state (S.files shelf.new) (S.faults shelf.new) (S.given shelf.new)) refusal) }
    ensures faults { LeavesFaults (S.faults shelf.old) (S.faults shelf.new) result }
{
    let bytes = load_file(
        alloc,
        shelf,
        name.text(),
        MOST_BYTES - run.used,
        Refusal::LayerUnread { layer: number },
        Refusal::LayersLong,
    )?;
    carry_next(
        alloc,
        &migration.out,
        cert,
        migration.how,
        index,
        number,
        name,
        &bytes,
        run,
    )?;
    Ok(bytes)
}

/// All layers of a migration, carried in order. The run keeps their sheets where the migration asks for sides.
pub fn carry_layers<S: Shelf>(
    alloc: Global,
    shelf: &mut S,
    migration: &Migration,
    index: &TinIndex,
) -> Result<CarriedLayers, Refusal>
    requires { MayBeTaken migration.now }
    ensures ok { IfOk result (λ run. IsRunAfter
        (run_start (shelf_state (S.files shelf.old) (S.faults shelf.old) (S.given shelf.old))
        migration.now migration.now.cert index.now) migration.now.layers
        (shelf_state (S.files shelf.new) (S.faults shelf.new) (S.given shelf.new)) run) }
    ensures refused { IfErr result (StopsRun
        (run_start (shelf_state (S.files shelf.old) (S.faults shelf.old) (S.given shelf.old))
        migration.now migration.now.cert index.now)
        (shelf_state (S.files shelf.new) (S.faults shelf.new) (S.given shelf.new))) }
    ensures faults { LeavesFaults (S.faults shelf.old) (S.faults shelf.new) result }
{
    let mut run = begin_run(alloc, migration);
    for (number, name) in migration.layers.items().iter().enumerate() {
        let _ = carry_one(
            alloc,
            shelf,
            migration,
            migration.cert,
            index,
            number as u32,
            name,
            &mut run,
        )?;
    }
    Ok(run)
}
