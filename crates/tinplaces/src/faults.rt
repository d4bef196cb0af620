//! What words with `--faults` ask for: all faults of a triangulation on the map. `run_to_end` of `fault_runs` is the whole
//! run, over the words, the shelf and the press that it is handed.

use crate::help::FAULTS_USAGE;
use fault_runs::{FaultRefusal, FaultRunEnd, Wanted, check_words, read_wanted, run_to_end};
use job_words::Job;
use run_notes::{
    Usage, Words, say_border, say_degrees, say_many_faults, say_refusal, say_unwritten, work_for,
};
use run_steps::{ToldPress, ToldShelf};
use runs::{Refusal, Status};
use shelf_io::{FilePress, FileShelf};
use std::alloc::Global;
use std::io::IsTerminal;

/// How the words are used. They are looked through as those of `tinmove check`.
const USED: Usage<'static> = Usage {
    text: FAULTS_USAGE,
    has_modes: true,
};

/// The check of the triangulation that the words name.
fn check_of(alloc: Global, words: &[String]) -> Option<Job> {
    let Wanted { tin, how, lines: _ } = read_wanted(alloc, words).ok()?;
    Some(Job::Check { tin, how })
}

/// Says of a refusal what `tinmove check` says of it.
fn say_check(rt: &HostRuntime, words: &Words, job: Option<&Job>, refusal: Refusal) {
    if let Ok(others) = check_words(rt.alloc(), &words.words) {
        let words = Words {
            words: others,
            are_given: words.are_given,
        };
        say_refusal(rt, &words, USED, job, refusal);
    }
}

/// Says of a refusal why it is one, and what helps.
fn say_fault_refusal(rt: &HostRuntime, words: &Words, job: Option<&Job>, refusal: FaultRefusal) {
    match refusal {
        FaultRefusal::Run(refusal) => say_check(rt, words, job, refusal),
        FaultRefusal::TooManyFaults => say_many_faults(rt),
    }
}

/// Prints all faults of the triangulation that the words name, over real files and standard output, and shows on a
/// terminal what it is doing. What is to be said of a refusal, of standard output that could not be written and of the
/// triangulation goes to standard error; that it cannot be written changes nothing.
pub fn list_on_files(rt: &HostRuntime, words: &Words) -> Status {
    let Ok(shelf) = FileShelf::new(rt, rt.alloc()) else {
        return Status::Memory;
    };
    let Ok(press) = FilePress::new(rt, rt.alloc()) else {
        return Status::Memory;
    };
    let terminal = Some(rt.stderr()).filter(|to| to.is_terminal());
    let job = check_of(rt.alloc(), &words.words);
    let work = work_for(job.as_ref(), false);
    let mut shelf = ToldShelf::new(shelf, terminal, work);
    let mut press = ToldPress::new(press, terminal, work);
    let FaultRunEnd {
        status,
        sound,
        refusal,
    } = run_to_end(rt.alloc(), &words.words, &mut shelf, &mut press);
    if status == Status::Write {
        let _ = press.clear();
        say_unwritten(rt, "-");
    }
    if let Some(refusal) = refusal {
        say_fault_refusal(rt, words, job.as_ref(), refusal);
    }
    if let Some(job) = &job {
        if let (Status::Same, Some(tin)) = (status, &sound) {
            say_border(rt, job, tin);
        }
        say_degrees(rt, job);
    }
    status
}
