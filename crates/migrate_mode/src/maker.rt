//! What is written of a triangulation and a layer that are made.

ghost use Rattle.std.specs.Prelude.{◌≡◌, ◌≤◌, [], Some, IfOk, IfErr, vec_len, false};
ghost use Rattle.std.specs.List.{AllByRecursion};
ghost use Rattle.report_text.specs.Reports.{IsPrintable};
ghost use Rattle.report_text.specs.ReportText.{report_text};
ghost use Rattle.carry_map.specs.declared.limits.TheConstants.{MOST_PIECES};
ghost use Rattle.topo_check.specs.Changes.{AreAllComparable};
ghost use Rattle.job_words.specs.declared.limits.TheConstants.{MOST_SIZE};
ghost use Rattle.runs.specs.Status.{end_of};
ghost use Rattle.runs.specs.Output.{files_of, HasForm};
ghost use Rattle.runs.specs.Triangulations.{HasDirected};
ghost use Rattle.migrate_mode.specs.Maker.{made_files, made_migration, IsMakingDone, IsMakingWritten, MayNotBeMade};
ghost use Rattle.migrate_mode.specs.Maker.{IsOfMaking};
ghost use Rattle.migrate_mode.specs.RunContents.{HasCarried, AreUncarried, IsUnreported, IsReportedAlone};
ghost use Rattle.migrate_mode.specs.LayerRuns.{setting_of};

use crate::layer_runs::{CarriedLayers, carry_next};
use crate::maker_texts::{make_layer, make_tin};
use crate::migration_output::{ReportedOutput, report_on_run};
use runs::{Refusal, RunOutput, sound_tin};
use sheet_base::How;
use shelf_io::Name;
use std::alloc::Global;
use tin_base::SoundTin;
use tin_index::TinIndex;

/// How a run reads without options.
fn plainly() -> How
    ensures { result ≡ made_migration.how }
{
    How {
        exact: false,
        drop_other: false,
        inside_only: false,
    }
}

/// The index of the made triangulation of n by n cells.
fn build_made_index(alloc: Global, n: u32) -> Result<TinIndex, Refusal>
    requires some { 1 ≤ n }
    requires most { n ≤ MOST_SIZE }
    ensures ok { IfOk result (λ tin. HasDirected (made_files n) made_migration.how made_migration.tin made_migration.inverse tin) }
    ensures refused { IfErr result (λ refusal. MayNotBeMade n refusal) }
    ensures of_making { IfErr result IsOfMaking }
{
    let text = make_tin(alloc, n)?;
    let tin = sound_tin(alloc, &text, plainly())?;
    let index = TinIndex::build(alloc, tin)?;
    Ok(index)
}

/// The made layer of n lines, carried.
fn carry_made_layer(alloc: Global, n: u32, index: &TinIndex) -> Result<CarriedLayers, Refusal>
    requires some { 1 ≤ n }
    requires most { n ≤ MOST_SIZE }
    ensures ok { IfOk result (λ run. HasCarried (setting_of (Some
        (made_files n)) made_migration.how index.now) false [] made_migration.layers run) }
    ensures sides { IfOk result (λ run. run.sides ≡ false) }
    ensures room { IfOk result (λ run. vec_len run.pieces ≤ MOST_PIECES) }
    ensures refused { IfErr result (λ refusal. AreUncarried (setting_of
        (Some (made_files n)) made_migration.how index.now) made_migration.layers ⊥ refusal) }
    ensures of_making { IfErr result IsOfMaking }
{
    let text = make_layer(alloc, n)?;
    let name = Name::of(alloc, "made.wkt")?;
    let folder = Name::of(alloc, "")?;
    let mut run = CarriedLayers::new(alloc);
    carry_next(
        alloc,
        &folder,
        false,
        plainly(),
        index,
        0,
        &name,
        &text,
        &mut run,
    )?;
    Ok(run)
}

/// The report on the layer that was made and carried through this triangulation, and no layer.
fn report_alone(
    alloc: Global,
    tin: &SoundTin,
    run: CarriedLayers,
) -> Result<ReportedOutput, Refusal>
    requires rows { AllByRecursion (λ row. IsPrintable row.name) run.rows.items }
    requires comparable { AreAllComparable tin.now run.pieces.items }
    requires room { vec_len run.pieces ≤ MOST_PIECES }
    requires sides { run.sides ≡ false }
    ensures ok { IfOk result (λ done. IsReportedAlone made_migration.tin tin.now run done.output) }
    ensures report { IfOk result (λ done. done.output.said ≡ report_text done.report) }
    ensures refused { IfErr result (λ refusal. IsUnreported tin.now run refusal) }
    ensures of_making { IfErr result IsOfMaking }
{
    let name = Name::of(alloc, "made.json")?;
    let done = report_on_run(alloc, &name, tin, run)?;
    let ReportedOutput { output, report } = done;
    let output = RunOutput {
        layers: Vec::new(alloc),
        said: output.said,
        changed: output.changed,
    };
    Ok(ReportedOutput { output, report })
}

/// The output of the maker of n by n cells, n from 1 to 512: the report on the carried layer alone. The error says
/// why what is made is refused, or that memory ran out.
pub fn prepare_making(alloc: Global, n: u32) -> Result<ReportedOutput, Refusal>
    requires some { 1 ≤ n }
    requires most { n ≤ MOST_SIZE }
    ensures ok { IfOk result (λ done. IsMakingDone n (end_of done.output.changed) (files_of done.output)) }
    ensures form { IfOk result (λ done. HasForm IsMakingWritten done.output) }
    ensures report { IfOk result (λ done. done.output.said ≡ report_text done.report) }
    ensures refused { IfErr result (λ refusal. MayNotBeMade n refusal) }
    ensures of_making { IfErr result IsOfMaking }
{
    let index = build_made_index(alloc, n)?;
    let run = carry_made_layer(alloc, n, &index)?;
    let tin = index.into_tin();
    tin.show_soundness();
    report_alone(alloc, &tin, run)
}
