//! What standard error says of the words of a command line: a word that is no text, and outputs that meet another file.

use job_words::last_part;
use remarks::{Meeting, meeting_line};
use std::env::{Env, FillError};
use std::path::PathBuf;
use std::rt::Files;
use std::str::from_utf8;
use std::{fs, io};

/// How many bytes of a word are looked at.
const MOST_BYTES: usize = 4096;

/// How many bytes the last part of a name has at most on most file systems.
const MOST_NAME: usize = 255;

/// Names the first word that is not UTF-8, the program's name being word 0. A failure of this changes nothing.
pub(crate) fn say_bad_word<R: Env + Eprint>(rt: &R) {
    let mut buf = [0u8; MOST_BYTES];
    for number in 0..usize::MAX {
        match rt.arg(number, &mut buf) {
            Ok(count) => {
                let word = &buf[..count];
                if from_utf8(word).is_err() {
                    let shown = word.escape_ascii();
                    let _ = eprintln!(rt; "tinmove: word {number} is not UTF-8: {shown}");
                    return;
                }
            }
            Err(FillError::TooLong) => {}
            Err(FillError::NotPresent) => return,
        }
    }
}

/// Whether one of the paths is this one.
fn is_among_paths(paths: &[PathBuf], path: &str) -> bool {
    paths.iter().any(|other| other.as_str() == path)
}

/// Says that an output is another file, too.
fn say_meeting<R: Eprint + AllocGlobal>(rt: &R, name: &str, meeting: Meeting) -> io::Result<()> {
    let line = meeting_line(rt.alloc(), name, meeting)?;
    rt.eprint(line.as_str())?;
    Ok(())
}

/// Says of an output that is about to be made whether it is another file, too, whether its name is too long, and whether
/// it is a link that leads nowhere. Two names are of one file where the paths at the ends of their links are the same.
fn say_output<R: Files + Eprint + AllocGlobal>(
    rt: &R,
    tin: &str,
    written: &mut Vec<PathBuf>,
    name: &str,
) -> io::Result<()> {
    if last_part(name).len() > MOST_NAME {
        say_meeting(rt, name, Meeting::TooLong)?;
    }
    match fs::canonicalize(rt, name) {
        Ok(path) => {
            if path.as_str() == tin {
                say_meeting(rt, name, Meeting::Triangulation)?;
            }
            if is_among_paths(written.as_slice(), path.as_str()) {
                say_meeting(rt, name, Meeting::EarlierOutput)?;
            }
            written.push(path)?;
        }
        Err(_) => {
            if fs::read_link(rt, name).is_ok() {
                say_meeting(rt, name, Meeting::NoTarget)?;
            }
        }
    }
    Ok(())
}

/// Says the same of each output. A triangulation that has no path, as that of a pipe, meets none.
fn say_outputs<R: Files + Eprint + AllocGlobal>(
    rt: &R,
    tin: &str,
    outputs: &[String],
) -> io::Result<()> {
    let path = fs::canonicalize(rt, tin);
    let tin = match &path {
        Ok(path) => path.as_str(),
        Err(_) => "",
    };
    let mut written = Vec::new(rt.alloc());
    for name in outputs {
        say_output(rt, tin, &mut written, name.as_str())?;
    }
    Ok(())
}

/// Says which outputs are written over the file of the triangulation or over an earlier output, have too long a name, or
/// are links that lead nowhere. A failure of this changes nothing.
pub fn say_meetings<R: Files + Eprint + AllocGlobal>(rt: &R, tin: &str, outputs: &[String]) {
    let _ = say_outputs(rt, tin, outputs);
}
