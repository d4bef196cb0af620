//! The lines of a terminal that say which step of a run is at hand, and the points after them.

ghost use Rattle.std.specs.Prelude.{◌≡◌, IsNone, IsOk, OnOk, Some};
ghost use Rattle.run_steps.specs.Heard.{IsHeard};
ghost use Rattle.run_steps.specs.InsideStepLines.{count_of, doing_behind, doing_text_of, number_of_reading_of};
ghost use Rattle.run_steps.specs.InsideStepLines.{number_of_writing_of, point_of, step_behind, step_text_of};
ghost use Rattle.run_steps.specs.Lines.{line_of};

use crate::lines::{CLEAR, put};
use shown_text::Shown;
use std::fmt;
use std::fmt::{Display, Formatter};
use std::io::Write;

/// How many bytes of a file there are to each point after the line.
pub(crate) const TICK: u64 = 1_048_576;

/// What a run is doing.
#[derive(Clone, Copy)]
pub(crate) enum Doing<'a> {
    /// It reads the file of this name, which is somebody else's text.
    Reading(&'a str),
    /// It reads the triangulation out of its text and checks it.
    Checking,
    /// It carries the layer of this number, from 0, of all `layers`. After the last one it compares the
    /// pieces of all.
    Carrying { layer: usize, layers: usize },
    /// It compares a written layer with its source and its certificate.
    Comparing,
    /// It moves points.
    Moving,
    /// It makes the file of this name.
    Writing(&'a str),
}

impl Display for Doing<'_> {
    ghost output = { λ doing. Some (doing_text_of doing) };

    fn fmt<W: fmt::Write>(&self, f: &mut Formatter<W>) -> fmt::Result {
        match self {
            Doing::Reading(name) => {
                let shown = Shown { text: name };
                write!(f, "reading {shown}")
            }
            Doing::Checking => write!(f, "checking the triangulation"),
            Doing::Carrying { layer, layers } => {
                let count = layer.saturating_add(1);
                write!(f, "carrying layer {layer} ({count} of {layers})")?;
                if count == *layers {
                    write!(f, ", then comparing")?;
                }
                Ok(())
            }
            Doing::Comparing => write!(f, "comparing"),
            Doing::Moving => write!(f, "moving the points"),
            Doing::Writing(name) => {
                let shown = Shown { text: name };
                write!(f, "writing {shown}")
            }
        }
    }
}

/// What a run does with the files after the triangulation, which is read first and checked.
#[derive(Clone, Copy)]
pub enum Work {
    /// It carries layers, and each after its own file.
    CarryLayers {
        /// How many layers it carries, and 0 where it reads no other file.
        layers: usize,
        /// Whether it writes the layers that it carried.
        are_written: bool,
    },
    /// It compares a written layer with its source and its certificate: it reads the source, the written layer and the
    /// certificate.
    VerifyLayer,
    /// It moves the points of one file, and writes them.
    MovePoints,
}

impl Work {
    /// How many steps there are: the triangulation is read and checked, and each layer is read, carried and, where that
    /// is so, written; or three files are read and compared; or points are read, moved and written.
    fn count(self) -> usize
        ensures { result ≡ count_of self }
    {
        match self {
            Work::CarryLayers {
                layers,
                are_written,
            } => {
                let of_a_layer = if are_written { 3 } else { 2 };
                layers.saturating_mul(of_a_layer).saturating_add(2)
            }
            Work::VerifyLayer => 6,
            Work::MovePoints => 5,
        }
    }

    /// The number of the step in which the file is read that is begun as this one, counted from 1.
    pub(crate) fn number_of_reading(self, begun: usize) -> usize
        ensures { result ≡ number_of_reading_of self begun }
    {
        let before = begun.saturating_sub(1);
        let done = match self {
            Work::CarryLayers { .. } | Work::MovePoints => before,
            Work::VerifyLayer => before.min(1),
        };
        begun.saturating_add(done)
    }

    /// The number of the step in which the file is written that is begun as this one, counted from 1; a certificate is
    /// not counted beside its layer.
    pub(crate) fn number_of_writing(self, begun: usize) -> usize
        ensures { result ≡ number_of_writing_of self begun }
    {
        match self {
            Work::CarryLayers { layers, .. } => layers
                .saturating_mul(2)
                .saturating_add(2)
                .saturating_add(begun),
            Work::VerifyLayer | Work::MovePoints => self.count(),
        }
    }

    /// What is done after the end of the file that was begun as this one, counted from 1, if anything is.
    fn doing_behind(self, begun: usize) -> Option<Doing<'static>>
        ensures { result ≡ doing_behind self begun }
    {
        let Some(file) = begun.checked_sub(2) else {
            return Some(Doing::Checking);
        };
        match self {
            Work::CarryLayers { layers, .. } => Some(Doing::Carrying {
                layer: file,
                layers,
            }),
            Work::VerifyLayer if file < 2 => None,
            Work::VerifyLayer => Some(Doing::Comparing),
            Work::MovePoints => Some(Doing::Moving),
        }
    }

    /// The step after the end of the file that was begun as this one, counted from 1; none where the next file is read at
    /// once.
    pub(crate) fn step_behind(self, begun: usize) -> Option<RunStep<'static>>
        ensures { result ≡ step_behind self begun }
    {
        let doing = self.doing_behind(begun)?;
        Some(RunStep {
            number: self.number_of_reading(begun).saturating_add(1),
            work: self,
            doing,
        })
    }
}

/// A step that is at hand.
#[derive(Clone, Copy)]
pub(crate) struct RunStep<'a> {
    /// Its number, counted from 1.
    pub(crate) number: usize,
    /// The work that it is a step of.
    pub(crate) work: Work,
    /// What is done in it.
    pub(crate) doing: Doing<'a>,
}

impl Display for RunStep<'_> {
    ghost output = { λ step. Some (step_text_of step) };

    fn fmt<W: fmt::Write>(&self, f: &mut Formatter<W>) -> fmt::Result {
        let (number, count, doing) = (self.number, self.work.count(), self.doing);
        write!(f, "step {number} of {count}: {doing}")
    }
}

/// Writes which step is at hand in place of the line, where it is heard.
pub(crate) fn say_step<W: Write + Drop>(to: &mut Option<W>, step: RunStep<'_>) -> fmt::Result
    ensures heard { OnOk result (IsHeard W.contents to.old to.new (line_of (step_text_of step.entry))) }
    ensures unheard { IsNone to.old → IsOk result }
{
    put(to, format_args!("{CLEAR}tinmove: {step}"))
}

/// A point where a whole number of ticks is passed between these counts of bytes, else nothing.
fn point(before: u64, now: u64) -> &'static str
    ensures { result.now ≡ point_of before now }
{
    if now / TICK > before / TICK { "." } else { "" }
}

/// Writes a point after the line where the count of bytes passed a whole number of ticks.
pub(crate) fn tick<W: Write + Drop>(to: &mut Option<W>, before: u64, now: u64) -> fmt::Result
    ensures heard { OnOk result (IsHeard W.contents to.old to.new (point_of before now)) }
    ensures unheard { IsNone to.old → IsOk result }
{
    put(to, point(before, now))
}
