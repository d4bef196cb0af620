//! `tinplaces`: puts the changes of a migration, or all faults of a triangulation, on the map, as GeoJSON on standard
//! output. `run_to_end` of `place_runs`, or of `fault_runs`, is the whole program, over the words, the shelf and the press
//! that it is handed.
#![tactic(auto)]

mod faults;
mod help;

use fault_runs::asks_for_faults;
use faults::list_on_files;
use help::{PlacesHelp, USAGE, help_of};
use job_words::Job;
use migrate_mode::Migration;
use place_runs::{PlaceRunEnd, Request, read_request, run_to_end};
use run_notes::{
    Usage, Words, left_out_kinds, say_degrees, say_layers, say_refusal, say_unwritten, words_of,
    work_for,
};
use run_steps::{ToldPress, ToldShelf};
use runs::{Refusal, Status};
use shelf_io::{FilePress, FileShelf};
use std::alloc::{AllocError, Global};
use std::io::IsTerminal;
use std::process::ExitCode;

/// How the words are used.
const USED: Usage<'static> = Usage {
    text: USAGE,
    has_modes: false,
};

/// The job of `tinmove` that the words ask for, without what is written.
fn job_of(alloc: Global, words: &[String]) -> Option<Job> {
    let Request { migration, view: _ } = read_request(alloc, words).ok()?;
    let Migration {
        tin,
        out,
        how,
        inverse,
        cert,
        sides,
        layers,
    } = migration;
    Some(Job::Migrate {
        tin,
        out,
        how,
        inverse,
        cert,
        sides,
        layers,
    })
}

/// Says of a refusal why it is one, and what helps.
fn say_why(rt: &HostRuntime, words: &Words, job: Option<&Job>, refusal: Refusal) {
    say_refusal(rt, words, USED, job, refusal);
}

/// Does what the words ask for over real files and standard output, and shows on a terminal what it is doing. What is
/// to be said of a refusal, of standard output that could not be written and of what was carried goes to standard
/// error; that it cannot be written changes nothing.
fn run_on_files(rt: &HostRuntime, words: &Words) -> Status {
    let Ok(shelf) = FileShelf::new(rt, rt.alloc()) else {
        return Status::Memory;
    };
    let Ok(press) = FilePress::new(rt, rt.alloc()) else {
        return Status::Memory;
    };
    let terminal = Some(rt.stderr()).filter(|to| to.is_terminal());
    let job = job_of(rt.alloc(), &words.words);
    let work = work_for(job.as_ref(), false);
    let mut shelf = ToldShelf::new(shelf, terminal, work);
    let mut press = ToldPress::new(press, terminal, work);
    let PlaceRunEnd {
        status,
        refusal,
        rows,
    } = run_to_end(rt.alloc(), &words.words, &mut shelf, &mut press);
    if status == Status::Write {
        let _ = press.clear();
        say_unwritten(rt, "-");
    }
    if let Some(refusal) = refusal {
        say_why(rt, words, job.as_ref(), refusal);
    }
    if let Some(job) = &job {
        if status == Status::Same || status == Status::Changed {
            let kinds = match left_out_kinds(rt, job) {
                Ok(kinds) => kinds,
                Err(_) => Vec::new(rt.alloc()),
            };
            say_layers(rt, &rows, &kinds);
        }
        say_degrees(rt, job);
    }
    status
}

/// Prints what the program says of itself.
fn print_help(rt: &HostRuntime, help: PlacesHelp) -> Status {
    match rt.print(help.text()) {
        Ok(()) => Status::Same,
        Err(_) => {
            say_unwritten(rt, "-");
            Status::Write
        }
    }
}

/// Answers the words of the command line.
fn answer(rt: &HostRuntime) -> Status {
    let Ok(words) = words_of(rt) else {
        return Status::Memory;
    };
    if let Some(help) = help_of(&words.words) {
        return print_help(rt, help);
    }
    if asks_for_faults(&words.words) {
        return list_on_files(rt, &words);
    }
    run_on_files(rt, &words)
}

fn main(rt: HostRuntime) -> ExitCode {
    ExitCode::from(answer(&rt).code())
}
