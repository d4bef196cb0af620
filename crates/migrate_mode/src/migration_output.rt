//! What a migration writes.

ghost use Rattle.std.specs.Prelude.{◌≡◌, ◌+◌, ◌≤◌, IfOk, IfErr, IfSome, vec_len};
ghost use Rattle.std.specs.List.{AllByRecursion};
ghost use Rattle.shelf_io.specs.Count.{Rose};
ghost use Rattle.report_text.specs.Reports.{IsPrintable};
ghost use Rattle.report_text.specs.ReportText.{report_text};
ghost use Rattle.carry_map.specs.declared.limits.TheConstants.{MOST_PIECES};
ghost use Rattle.topo_check.specs.Changes.{AreAllComparable};
ghost use Rattle.runs.specs.Status.{end_of};
ghost use Rattle.runs.specs.Counts.{LeavesFaults, shelf_counts};
ghost use Rattle.runs.specs.Output.{files_of, HasForm};
ghost use Rattle.runs.specs.Causes.{HasCauses};
ghost use Rattle.migrate_mode.specs.Migrations.{MayBeTaken, MayRefuseMigrationOver, LacksWanted, IsMigrationDone};
ghost use Rattle.migrate_mode.specs.Migrations.{IsMigrationWritten};
ghost use Rattle.migrate_mode.specs.RunContents.{IsUnreported, IsReported, MayBeSided};

use crate::change_lists::{is_some_listed, list_changes, list_sides};
use crate::layer_runs::CarriedLayers;
use crate::migrations::{Migration, load_index};
use crate::partial_runs::carry_layers;
use crate::report::report_on;
use report_text::{Report, write_report};
use runs::{Refusal, RunOutput};
use sheet_base::Listed;
use shelf_io::{Name, Shelf};
use std::alloc::Global;
use tin_base::SoundTin;

/// What a run with a report writes.
#[derive(Drop)]
pub struct ReportedOutput {
    /// The layers' files, and the text of the report.
    pub output: RunOutput,
    /// The report.
    pub report: Report,
}

/// The layers that were carried through a triangulation, with the report on them.
pub fn report_on_run(
    alloc: Global,
    name: &Name,
    tin: &SoundTin,
    run: CarriedLayers,
) -> Result<ReportedOutput, Refusal>
    requires name { IsPrintable name.now }
    requires rows { AllByRecursion (λ row. IsPrintable row.name) run.rows.items }
    requires comparable { AreAllComparable tin.now run.pieces.items }
    requires room { vec_len run.pieces ≤ MOST_PIECES }
    requires sides { MayBeSided run.sides run.sheets.items run.images.items }
    ensures ok { IfOk result (λ done. IsReported name.now tin.now run done.output) }
    ensures report { IfOk result (λ done. done.output.said ≡ report_text done.report) }
    ensures refused { IfErr result (λ refusal. IsUnreported tin.now run refusal) }
{
    let changes = list_changes(alloc, tin, &run.pieces)?;
    drop(run.pieces);
    let sides = list_sides(alloc, run.sides, &run.sheets, &run.images)?;
    drop(run.sheets);
    drop(run.images);
    let changed = is_some_listed(&changes, &sides);
    let report = report_on(alloc, name.text(), tin, run.rows, changes, sides)?;
    let text = write_report(alloc, &report)?;
    Ok(ReportedOutput {
        output: RunOutput {
            layers: run.files,
            said: Listed::of(text),
            changed,
        },
        report,
    })
}

/// The output of a migration: a file for each layer, in order, and the report. The error says why it is refused: by the
/// triangulation, by the first layer that is not carried, by the changes of all pieces, or where sides are asked for by
/// their changes; nothing is written by then.
pub fn prepare_migration<S: Shelf>(
    alloc: Global,
    shelf: &mut S,
    migration: &Migration,
) -> Result<ReportedOutput, Refusal>
    requires { MayBeTaken migration.now }
    ensures ok { IfOk result (λ done. IfSome (S.files shelf.old)
        (λ files. IsMigrationDone files migration.now (end_of done.output.changed) (files_of done.output))) }
    ensures form { IfOk result (λ done. HasForm (IsMigrationWritten migration.now) done.output) }
    ensures report { IfOk result (λ done. done.output.said ≡ report_text done.report) }
    ensures refused { IfErr result (MayRefuseMigrationOver (S.files shelf.old) migration.now
        (Rose (S.faults shelf.old) (S.faults shelf.new))) }
    ensures causes { IfErr result (HasCauses (LacksWanted migration.now (S.files shelf.old)) (λ status. Unit {0})
        (shelf_counts (S.faults shelf.old) (S.faults shelf.new) (S.given shelf.old) (S.given shelf.new))) }
    ensures faults { LeavesFaults (S.faults shelf.old) (S.faults shelf.new) result }
{
    let index = load_index(
        alloc,
        shelf,
        migration.tin.text(),
        migration.how,
        migration.inverse,
    )?;
    let run = carry_layers(alloc, shelf, migration, &index)?;
    let tin = index.into_tin();
    tin.show_soundness();
    report_on_run(alloc, &migration.tin, &tin, run)
}
