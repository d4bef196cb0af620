//! Notes of a press about the kinds of entities that are left out of drawings. They are found before a run makes its
//! first file: the file may be one of these drawings, and a run that makes a file accepts them all.

ghost use Rattle.std.specs.Prelude.{◌≡◌, map, option_copied};
ghost use Rattle.std.specs.Option.{option_map};
ghost use Rattle.run_notes.specs.LeftOutKinds.{kinds_found, AreFoundOrSame};

use crate::entity_kinds::left_out_kinds;
use job_words::Job;
use remarks::KindCounts;
use run_steps::Notes;
use std::rt::Files;

/// The kinds that are left out of the layers of a job, whose files a press makes.
#[derive(Drop)]
pub struct KindNotes<'a, R: Files + AllocGlobal + Clone + Drop> {
    rt: &'a R,
    job: Option<&'a Job>,
    /// For each layer the kinds that are left out of it, once a file is made.
    pub found: Option<Vec<Option<KindCounts>>>,
}

impl<'a, R: Files + AllocGlobal + Clone + Drop> KindNotes<'a, R> {
    /// Nothing is found yet.
    pub fn new(rt: &'a R, job: Option<&'a Job>) -> Self
        ensures job { option_copied result.job ≡ option_copied job.entry }
    {
        KindNotes {
            rt,
            job,
            found: None,
        }
    }
}

impl<R: Files + AllocGlobal + Clone + Drop> Notes for KindNotes<'_, R> {
    ghost notes = { λ before name after. (after.job ≡ before.job) × AreFoundOrSame (option_copied before.job)
        (option_map (λ found. map (option_map kinds_found) found.items) before.found)
        (option_map (λ found. map (option_map kinds_found) found.items) after.found) };

    /// Finds out the kinds before the first file is made. Standard output is no file.
    fn note(&mut self, name: &str) {
        if name == "-" || self.found.is_some() {
            return;
        }
        if let Some(job) = self.job {
            self.found = left_out_kinds(self.rt, job).ok();
        }
    }
}
