//! `tinmove`: carries map layers from one plane reference frame to another.
//! `run` is the whole program, over the words, the shelf and the press that it is handed: that of `whole_runs`.
#![tactic(auto)]

mod large_blocks;
mod outputs;

use help_texts::{Help, help_of, usage_of};
use job_words::{Job, read_words};
use large_blocks::keep_large_blocks;
use outputs::outputs_of;
use run_notes::{
    KindNotes, Owner, Usage, Words, owners_of, say_border, say_degrees, say_layers, say_meetings,
    say_owners, say_refusal, say_unwritten, words_of, work_for,
};
use run_steps::{LastName, NotedPress, ToldPress, ToldShelf, making_text, say_line};
use runs::Status;
use shelf_io::{FilePress, FileShelf};
use std::alloc::Global;
use std::io::{IsTerminal, Stderr};
use std::process::ExitCode;
use std::slice;
use tin_base::SoundTin;
pub use whole_runs::run;
use whole_runs::{RunEnd, run_to_end};

/// The names of the files that a job writes beside its report, as far as memory lasts.
fn outputs_for(alloc: Global, job: Option<&Job>) -> Vec<String> {
    let names = match job {
        Some(
            Job::Migrate {
                out,
                layers,
                cert,
                ..
            },
        ) => outputs_of(alloc, out.text(), layers.items(), *cert),
        Some(Job::Heights { out, points, .. }) => outputs_of(
            alloc,
            out.text(),
            slice::from_ref(points),
            false,
        ),
        _ => Ok(Vec::new(alloc)),
    };
    match names {
        Ok(names) => names,
        Err(_) => Vec::new(alloc),
    }
}

/// Says before a run which outputs meet another file, and on a terminal that an example is made.
fn say_before(rt: &HostRuntime, job: &Job, outputs: &[String], mut terminal: Option<Stderr>) {
    match job {
        Job::Make { n } => {
            if let Ok(text) = making_text(rt.alloc(), *n) {
                let _ = say_line(&mut terminal, text.as_str());
            }
        }
        Job::Migrate { tin, .. } | Job::Heights { tin, .. } => {
            say_meetings(rt, tin.text(), outputs);
        }
        Job::Check { .. } | Job::Verify { .. } => {}
    }
}

/// Who owns the files of these names before a run, as far as memory lasts.
fn owners_before(rt: &HostRuntime, outputs: &[String]) -> Vec<Option<Owner>> {
    match owners_of(rt, outputs) {
        Ok(owners) => owners,
        Err(_) => Vec::new(rt.alloc()),
    }
}

/// Says after a run that was not refused which outputs did not keep their owners, and of a checked triangulation its
/// border.
fn say_after(
    rt: &HostRuntime,
    job: Option<&Job>,
    outputs: &[String],
    owners: &[Option<Owner>],
    checked: Option<&SoundTin>,
) {
    say_owners(rt, outputs, owners);
    if let (Some(job), Some(tin)) = (job, checked) {
        say_border(rt, job, tin);
    }
}

/// Does what the words ask for over real files and standard output, and shows on a terminal what it is doing. What is
/// to be said of a refusal, of a file that could not be written and of what was carried goes to standard error; that it
/// cannot be written changes nothing.
fn run_on_files(rt: &HostRuntime, words: &Words) -> Status {
    keep_large_blocks(rt.alloc());
    let Ok(shelf) = FileShelf::new(rt, rt.alloc()) else {
        return Status::Memory;
    };
    let Ok(press) = FilePress::new(rt, rt.alloc()) else {
        return Status::Memory;
    };
    let terminal = Some(rt.stderr()).filter(|to| to.is_terminal());
    let job = read_words(rt.alloc(), &words.words).ok();
    let job = job.as_ref();
    let outputs = outputs_for(rt.alloc(), job);
    let owners = owners_before(rt, &outputs);
    if let Some(job) = job {
        say_before(rt, job, &outputs, terminal);
    }
    let work = work_for(job, true);
    let mut shelf = ToldShelf::new(shelf, terminal, work);
    let kinds = NotedPress {
        press,
        notes: KindNotes::new(rt, job),
    };
    let names = NotedPress {
        press: kinds,
        notes: LastName::new(rt.alloc()),
    };
    let mut press = ToldPress::new(names, terminal, work);
    let RunEnd {
        status,
        report,
        sound,
        refusal,
    } = run_to_end(rt.alloc(), &words.words, &mut shelf, &mut press);
    if status == Status::Write {
        let _ = press.clear();
        say_unwritten(rt, press.press.notes.name.as_str());
    }
    if let Some(refusal) = refusal {
        let usage = Usage {
            text: usage_of(&words.words),
            has_modes: true,
        };
        say_refusal(rt, words, usage, job, refusal);
    }
    if status == Status::Same || status == Status::Changed {
        if let Some(report) = report {
            let kinds = press.press.press.notes.found.as_deref();
            say_layers(rt, report.layers(), kinds.unwrap_or(&[]));
        }
        say_after(rt, job, &outputs, &owners, sound.as_ref());
    }
    if let Some(job) = job {
        say_degrees(rt, job);
    }
    status
}

/// Prints what the program says of itself.
fn print_help(rt: &HostRuntime, help: Help) -> Status {
    match rt.print(help.text()) {
        Ok(()) => Status::Same,
        Err(_) => {
            say_unwritten(rt, "-");
            Status::Write
        }
    }
}

/// Answers the words of the command line.
fn answer(rt: &HostRuntime) -> Status {
    match words_of(rt) {
        Ok(words) => match help_of(&words.words) {
            Some(help) => print_help(rt, help),
            None => run_on_files(rt, &words),
        },
        Err(_) => Status::Memory,
    }
}

fn main(rt: HostRuntime) -> ExitCode {
    ExitCode::from(answer(&rt).code())
}
