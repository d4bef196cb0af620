//! What a run does for a job with its files.

ghost use Rattle.std.specs.Prelude.{◌≡◌, option_copied};
ghost use Rattle.run_notes.specs.JobWork.{work_of_words};

use job_words::Job;
use run_steps::Work;

/// What a run does for a job, or for words that give none, with the files after the triangulation; `are_written` says
/// whether it writes the layers of a migration.
pub fn work_for(job: Option<&Job>, are_written: bool) -> Work
    ensures { result ≡ work_of_words are_written (option_copied job.entry) }
{
    let layers = match job {
        Some(Job::Verify { .. }) => return Work::VerifyLayer,
        Some(Job::Heights { .. }) => return Work::MovePoints,
        Some(Job::Migrate { layers, .. }) => layers.items().len(),
        Some(Job::Check { .. } | Job::Make { .. }) | None => 0,
    };
    Work::CarryLayers {
        layers,
        are_written,
    }
}
