//! What a job writes.

ghost use Rattle.std.specs.Prelude.{◌≢◌, IfOk, IfErr, IfSome};
ghost use Rattle.shelf_io.specs.Files.{Files};
ghost use Rattle.job_words.specs.JobFields.{IsPossibleJob};
ghost use Rattle.runs.specs.declared.status.Status.TheVariants.{Read as ReadStatus};
ghost use Rattle.runs.specs.Status.{end_of};
ghost use Rattle.runs.specs.Refusals.{status_of};
ghost use Rattle.runs.specs.Counts.{LeavesFaults, shelf_counts};
ghost use Rattle.runs.specs.Output.{files_of, HasForm};
ghost use Rattle.whole_runs.specs.Outcome.{IsJobDone};
ghost use Rattle.whole_runs.specs.Ends.{MayEnd, MayRefuseJob, IsWrittenOf, IsWithoutFile};
ghost use Rattle.whole_runs.specs.HandedOut.{IsRefusalOfJob, IsReportOf, IsSoundOf};

use check_mode::prepare_check;
use height_mode::{HeightJob, prepare_heights};
use job_words::Job;
use migrate_mode::{Migration, prepare_making, prepare_migration};
use report_text::Report;
use runs::{Refusal, RunOutput};
use shelf_io::Shelf;
use std::alloc::Global;
use tin_base::SoundTin;
use verify_mode::{Verification, prepare_verification};

/// What a job asks to be written.
#[derive(Drop)]
pub struct JobOutput {
    /// The layers' files, and the text on standard output.
    pub output: RunOutput,
    /// The report whose text that is, of a job that has one.
    pub report: Option<Report>,
    /// The triangulation that a check found sound. No other job has one.
    pub sound: Option<SoundTin>,
}

/// What the job asks to be written.
pub fn prepare<S: Shelf>(alloc: Global, shelf: &mut S, job: Job) -> Result<JobOutput, Refusal>
    requires { IsPossibleJob job }
    ensures ok { IfOk result (λ done. IfSome (S.files shelf.old)
        (λ files. IsJobDone files job (end_of done.output.changed) (files_of done.output))) }
    ensures may_end { IfOk result (λ done. MayEnd job (end_of done.output.changed)) }
    ensures form { IfOk result (λ done. HasForm (IsWrittenOf job) done.output) }
    ensures report { IfOk result (λ done. IsReportOf job done.output.said done.report) }
    ensures sound { IfOk result (λ done. IsSoundOf (S.files shelf.old) job done.output.said done.sound) }
    ensures refused { IfErr result (IsRefusalOfJob (S.files shelf.old)
        (shelf_counts (S.faults shelf.old) (S.faults shelf.new) (S.given shelf.old) (S.given shelf.new)) job) }

    // What wants no file goes as it does over any files, and no read fails.
    ensures untold { IfOk result (λ done. IsWithoutFile job → (files : Files)
        → IsJobDone files job (end_of done.output.changed) (files_of done.output)) }
    ensures untold_refused { IfErr result (λ refusal. IsWithoutFile job → (files : Files) → MayRefuseJob files job ⊥ refusal) }
    ensures unread { IfErr result (λ refusal. IsWithoutFile job → status_of refusal ≢ ReadStatus) }

    ensures faults { LeavesFaults (S.faults shelf.old) (S.faults shelf.new) result }
{
    match job {
        Job::Migrate {
            tin,
            out,
            how,
            inverse,
            cert,
            sides,
            layers,
        } => {
            let migration = Migration {
                tin,
                out,
                how,
                inverse,
                cert,
                sides,
                layers,
            };
            match prepare_migration(alloc, shelf, &migration) {
                Ok(done) => Ok(JobOutput {
                    output: done.output,
                    report: Some(done.report),
                    sound: None,
                }),
                Err(refusal) => Err(refusal),
            }
        }
        Job::Check { tin, how } => match prepare_check(alloc, shelf, &tin, how) {
            Ok(checked) => Ok(JobOutput {
                output: checked.output,
                report: None,
                sound: Some(checked.tin),
            }),
            Err(refusal) => Err(refusal),
        },
        Job::Make { n } => match prepare_making(alloc, n) {
            Ok(done) => Ok(JobOutput {
                output: done.output,
                report: Some(done.report),
                sound: None,
            }),
            Err(refusal) => Err(refusal),
        },
        Job::Verify {
            tin,
            source,
            written,
            cert,
            how,
            inverse,
        } => {
            let verification = Verification {
                tin,
                source,
                written,
                cert,
                how,
                inverse,
            };
            match prepare_verification(alloc, shelf, &verification) {
                Ok(output) => Ok(JobOutput {
                    output,
                    report: None,
                    sound: None,
                }),
                Err(refusal) => Err(refusal),
            }
        }
        Job::Heights {
            tin,
            out,
            how,
            points,
        } => {
            let heights = HeightJob {
                tin,
                out,
                how,
                points,
            };
            match prepare_heights(alloc, shelf, &heights) {
                Ok(output) => Ok(JobOutput {
                    output,
                    report: None,
                    sound: None,
                }),
                Err(refusal) => Err(refusal),
            }
        }
    }
}
