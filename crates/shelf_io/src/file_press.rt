//! The press over real files and standard output.

ghost use Rattle.std.specs.Prelude.{◌≡◌, ◌≤◌, length, None, true, IfOk};
ghost use Rattle.shelf_io.specs.Count.{count_after};
ghost use Rattle.shelf_io.specs.RealFiles.{closed_press};

use crate::again::write_some;
use crate::beside::Names;
use crate::{Failed, Press};
use std::alloc::{AllocError, Global};
use std::io::{ErrorKind, Write, writer};
use std::marker::Model;
use std::rt::Files;
use std::{fs, io};

/// Where bytes go.
#[derive(Drop)]
enum Output<F: Drop> {
    /// Standard output.
    Standard,
    /// What was there under the name and is no regular file, as a pipe or a device.
    Direct(F),
    /// A new file beside the name, which it takes at its end.
    Beside(F),
    /// A file that could not be written whole, and was removed.
    Removed,
}

/// Real files and, under the name `-`, standard output, written through the runtime. A regular file
/// is under its name whole or not at all: until its end the name has what it had before. It states
/// no contents.
#[derive(Drop)]
pub struct FilePress<R: Files + Print + Drop> {
    rt: R,
    alloc: Global,
    output: Option<Output<R::File>>,
    names: Names,
    broken: bool,
    faults: u64,
}

impl<R: Files + Print + Drop> Model for FilePress<R> {
    ghost use Rattle.std.specs.Prelude.{is_some};
    ghost use Rattle.shelf_io.specs.RealFiles.{RealPress};

    ghost Value = { RealPress };

    ghost view = { λ p. record { at_hand = is_some p.output; broken = p.broken; faults = p.faults } };
}

impl<R: Files + Print + Clone + Drop> FilePress<R> {
    /// A press over the files that the runtime reaches. The allocator is for the names that a press
    /// keeps, and for following a link.
    pub fn new(rt: &R, alloc: Global) -> Result<Self, AllocError>
        ensures { IfOk result (λ press. press ≡ closed_press) }
    {
        Ok(FilePress {
            rt: rt.clone()?,
            alloc,
            output: None,
            names: Names::new(alloc)?,
            broken: false,
            faults: 0,
        })
    }
}

impl<R: Files + Print + Drop> FilePress<R> {
    /// Counts a fault.
    fn fail(&mut self) -> Failed
        ensures fault { self.new ≡ record self.old { broken = true; faults = count_after self.old.faults 1 } }
        ensures later { self.old.faults ≤ self.new.faults }
    {
        self.broken = true;
        self.faults = self.faults.saturating_add(1);
        Failed
    }
}

impl<R: Files + Print + Drop> Press for FilePress<R> {
    ghost made = { λ _. None };

    ghost at_hand = { λ p. p.at_hand };

    ghost faults = { λ p. p.faults };

    ghost broken = { λ p. p.broken };

    /// First makes the folders in front of the file's name where they are missing.
    fn begin(&mut self, name: &str) -> Result<(), Failed> {
        self.broken = false;
        let Ok(output) = open_output(&self.rt, self.alloc, &mut self.names, name) else {
            return Err(self.fail());
        };
        self.output = Some(output);
        Ok(())
    }

    /// After a fault nothing of a regular file is left but what its name had before.
    fn write(&mut self, piece: &[u8]) -> Result<usize, Failed> {
        self.broken = false;
        let Some(output) = &mut self.output else {
            unreachable!()
        };
        match write_output(&self.rt, output, piece) {
            Ok(0) | Err(_) => {
                give_up(&self.rt, output, &self.names);
                Err(self.fail())
            }
            Ok(count) => Ok(count),
        }
    }

    /// Brings a regular file to the disk and puts it under its name.
    fn end(&mut self) -> Result<(), Failed> {
        self.broken = false;
        let Some(output) = self.output.take() else {
            unreachable!()
        };
        let Ok(()) = finish(&self.rt, output, &self.names) else {
            return Err(self.fail());
        };
        Ok(())
    }
}

/// Standard output for the name `-`, else an empty file in folders that are there: a new one beside
/// a name that is missing or a regular file, and else what has the name.
fn open_output<R: Files + Print>(
    rt: &R,
    alloc: Global,
    names: &mut Names,
    name: &str,
) -> io::Result<Output<R::File>> {
    if name == "-" {
        return Ok(Output::Standard);
    }
    if let Some((folder, _)) = name.rsplit_once('/') {
        fs::create_dir_all(rt, folder)?;
    }
    match fs::metadata(rt, name) {
        Ok(there) if there.is_file() => {
            Ok(Output::Beside(names.open_over(rt, alloc, name, &there)?))
        }
        Ok(_) => Ok(Output::Direct(fs::create(rt, name)?)),
        Err(fault) if fault.kind() == ErrorKind::NotFound => {
            Ok(Output::Beside(names.open(rt, name)?))
        }
        Err(fault) => Err(fault),
    }
}

/// Writes some first bytes of the piece; how many.
fn write_output<R: Files + Print>(
    rt: &R,
    output: &mut Output<R::File>,
    piece: &[u8],
) -> io::Result<usize>
    ensures { IfOk result (λ count. count ≤ length piece.now) }
{
    match output {
        Output::Standard => write_some(&mut writer(rt), piece),
        Output::Direct(file) | Output::Beside(file) => write_some(file, piece),
        Output::Removed => Err(io::Error::from(ErrorKind::NotFound)),
    }
}

/// After a write that failed, removes a file that has not taken its name.
fn give_up<R: Files + Print>(rt: &R, output: &mut Output<R::File>, names: &Names) {
    if let Output::Beside(_) = output {
        *output = Output::Removed;
        names.remove(rt);
    }
}

/// Hands on what a file still holds back, lets it go, and puts a file that was made beside its name
/// there.
fn finish<R: Files + Print>(rt: &R, output: Output<R::File>, names: &Names) -> io::Result<()> {
    match output {
        Output::Standard => Ok(()),
        Output::Direct(mut file) => file.flush(),
        Output::Beside(file) => names.place(rt, file),
        Output::Removed => Err(io::Error::from(ErrorKind::NotFound)),
    }
}
