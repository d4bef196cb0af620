//! What a run is doing, shown in one line of a terminal that is written again, while it reads and makes files.

ghost use Rattle.std.specs.Prelude.{◌≡◌, codes, IfSome, IsNone, IsOk, OnOk};
ghost use Rattle.shelf_io.specs.Count.{count_after};
ghost use Rattle.run_steps.specs.Heard.{IsHeard};
ghost use Rattle.run_steps.specs.InsideStepLines.{step_behind, step_text_of};
ghost use Rattle.run_steps.specs.Lines.{line_of};
ghost use Rattle.run_steps.specs.declared.lines.TheConstants.{CLEAR};

use crate::lines::{CLEAR, put};
use crate::step_lines::{Doing, RunStep, Work, say_step, tick};
use shelf_io::{Failed, Press, Shelf};
use std::fmt;
use std::io::Write;

/// A shelf over a shelf, which says what a run is doing. The first file that is begun is
/// taken for the triangulation, and the others for those of the work in order.
#[derive(Drop)]
pub struct ToldShelf<S: Drop, W: Drop> {
    pub shelf: S,
    /// Where it is heard, if anywhere.
    pub to: Option<W>,
    /// What there is to do.
    work: Work,
    /// How many files were begun.
    begun: usize,
    /// How many bytes of the file at hand were read.
    read: u64,
}

impl<S: Shelf + Drop, W: Write + Drop> ToldShelf<S, W> {
    /// The shelf, and where it says what is done with it.
    pub fn new(shelf: S, to: Option<W>, work: Work) -> Self
        ensures shelf { result.shelf ≡ shelf }
        ensures to { result.to ≡ to }
        ensures work { result.work ≡ work }
    {
        ToldShelf {
            shelf,
            to,
            work,
            begun: 0,
            read: 0,
        }
    }
}

impl<S: Drop, W: Write + Drop> ToldShelf<S, W> {
    /// Says that the file of this name is read. A failure of this changes nothing.
    fn say_begun(&mut self, name: &str)
        ensures shelf { self.new.shelf ≡ self.old.shelf }
        ensures work { self.new.work ≡ self.old.work }
        ensures begun { self.new.begun ≡ count_after self.old.begun 1 }
    {
        self.begun = self.begun.saturating_add(1);
        self.read = 0;
        let step = RunStep {
            number: self.work.number_of_reading(self.begun),
            work: self.work,
            doing: Doing::Reading(name),
        };
        let _ = say_step(&mut self.to, step);
    }

    /// Says how far the file at hand is read, or what is done after its end, where something is.
    fn say_read(&mut self, count: usize) -> fmt::Result
        ensures shelf { self.new.shelf ≡ self.old.shelf }
        ensures work { self.new.work ≡ self.old.work }
        ensures begun { self.new.begun ≡ self.old.begun }
        ensures behind { count ≡ 0 → IfSome (step_behind self.old.work self.old.begun)
            (λ step. OnOk result (IsHeard W.contents self.old.to self.new.to (line_of (step_text_of step)))) }
        ensures silent { count ≡ 0 → IsNone (step_behind self.old.work self.old.begun) → self.new.to ≡ self.old.to }
    {
        if count > 0 {
            let before = self.read;
            self.read = before.saturating_add(count as u64);
            return tick(&mut self.to, before, self.read);
        }
        match self.work.step_behind(self.begun) {
            Some(step) => say_step(&mut self.to, step),
            None => Ok(()),
        }
    }
}

impl<S: Shelf + Drop, W: Write + Drop> Shelf for ToldShelf<S, W> {
    ghost files = { λ s. S.files s.shelf };

    ghost at_hand = { λ s. S.at_hand s.shelf };

    ghost left = { λ s. S.left s.shelf };

    ghost given = { λ s. S.given s.shelf };

    ghost faults = { λ s. S.faults s.shelf };

    fn begin(&mut self, name: &str) -> Result<bool, Failed> {
        self.say_begun(name);
        self.shelf.begin(name)
    }

    fn read(&mut self, buf: &mut [u8]) -> Result<usize, Failed> {
        let answer = self.shelf.read(buf);
        if let Ok(count) = answer {
            let _ = self.say_read(count);
        }
        answer
    }
}

/// A press over a press, which says which file is made. Before standard output is written, it clears the line.
#[derive(Drop)]
pub struct ToldPress<P: Drop, W: Drop> {
    pub press: P,
    /// Where it is heard, if anywhere.
    pub to: Option<W>,
    /// What there is to do.
    work: Work,
    /// How many files were begun; a certificate is written in the same step as its layer, and not counted.
    begun: usize,
    /// How many bytes of the file at hand were written, where that is no standard output.
    written: Option<u64>,
}

impl<P: Press + Drop, W: Write + Drop> ToldPress<P, W> {
    /// The press, and where it says what is made with it.
    pub fn new(press: P, to: Option<W>, work: Work) -> Self
        ensures press { result.press ≡ press }
        ensures to { result.to ≡ to }
        ensures work { result.work ≡ work }
    {
        ToldPress {
            press,
            to,
            work,
            begun: 0,
            written: None,
        }
    }
}

impl<P: Drop, W: Write + Drop> ToldPress<P, W> {
    /// Clears the line, where it is heard. A fault may be passed by: it changes nothing of what is made.
    pub fn clear(&mut self) -> fmt::Result
        ensures press { self.new.press ≡ self.old.press }
        ensures work { self.new.work ≡ self.old.work }
        ensures begun { self.new.begun ≡ self.old.begun }
        ensures count { self.new.written ≡ self.old.written }
        ensures cleared { OnOk result (IsHeard W.contents self.old.to self.new.to CLEAR.now) }
        ensures unheard { IsNone self.old.to → IsOk result }
    {
        put(&mut self.to, CLEAR)
    }

    /// Says that the file of this name is written, or clears the line before standard output.
    fn say_begun(&mut self, name: &str) -> fmt::Result
        ensures press { self.new.press ≡ self.old.press }
        ensures cleared { name.now ≡ codes "-" → OnOk result (IsHeard W.contents self.old.to self.new.to CLEAR.now) }
    {
        if name == "-" {
            self.written = None;
            return self.clear();
        }
        if !name.ends_with(".cert") {
            self.begun = self.begun.saturating_add(1);
        }
        self.written = Some(0);
        let step = RunStep {
            number: self.work.number_of_writing(self.begun),
            work: self.work,
            doing: Doing::Writing(name),
        };
        say_step(&mut self.to, step)
    }

    /// Says how far the file at hand is written.
    fn say_written(&mut self, count: usize)
        ensures { self.new.press ≡ self.old.press }
    {
        if let Some(before) = self.written {
            let written = before.saturating_add(count as u64);
            let _ = tick(&mut self.to, before, written);
            self.written = Some(written);
        }
    }
}

impl<P: Press + Drop, W: Write + Drop> Press for ToldPress<P, W> {
    ghost made = { λ p. P.made p.press };

    ghost at_hand = { λ p. P.at_hand p.press };

    ghost faults = { λ p. P.faults p.press };

    ghost broken = { λ p. P.broken p.press };

    fn begin(&mut self, name: &str) -> Result<(), Failed> {
        let _ = self.say_begun(name);
        self.press.begin(name)
    }

    fn write(&mut self, piece: &[u8]) -> Result<usize, Failed> {
        let answer = self.press.write(piece);
        if let Ok(count) = answer {
            self.say_written(count);
        }
        answer
    }

    fn end(&mut self) -> Result<(), Failed> {
        self.press.end()
    }
}
