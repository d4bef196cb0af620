//! What standard error says of a file that could not be written.

use remarks::unwritten_lines;
use std::fs;
use std::fs::File;
use std::io::{Error, ErrorKind};
use std::rt::Files;

/// The name of a file that is made to find out why none can be made, and removed at once.
const TRIAL: &str = ".tinmove-trial.part";

/// Why no new file can be made in a folder that is there.
fn trial_error<R: Files + AllocGlobal>(rt: &R, folder: &str) -> Option<Error> {
    let name = format!(in rt.alloc(); "{folder}/{TRIAL}").ok()?;
    match File::create_new(rt, name.as_str()) {
        Ok(_) => {
            let _ = fs::remove_file(rt, name.as_str());
            None
        }
        Err(error) => Some(error),
    }
}

/// Whether the folder is there.
fn is_folder<R: Files>(rt: &R, folder: &str) -> bool {
    match fs::metadata(rt, folder) {
        Ok(kind) => kind.is_dir(),
        Err(_) => false,
    }
}

/// The last folder on the way to this one that is there, or the one in which relative names begin.
fn folder_before<'a, R: Files>(rt: &R, folder: &'a str) -> &'a str {
    for back in 0..folder.len() {
        let end = folder.len() - back;
        match (folder.get(..end), folder.get(end..)) {
            (Some(before), Some(behind)) if behind.starts_with("/") && is_folder(rt, before) => {
                return before;
            }
            _ => {}
        }
    }
    if folder.starts_with("/") { "/" } else { "." }
}

/// Why no new file can be made in a folder, where that is so. If the folder is missing, this is why it cannot be made.
fn folder_error<R: Files + AllocGlobal>(rt: &R, folder: &str) -> Option<Error> {
    match fs::metadata(rt, folder) {
        Ok(kind) if kind.is_dir() => trial_error(rt, folder),
        Ok(_) => Some(Error::from(ErrorKind::NotADirectory)),
        Err(error) => match trial_error(rt, folder_before(rt, folder)) {
            Some(cause) => Some(cause),
            None => Some(error),
        },
    }
}

/// Why a file of this name cannot be made, as far as that can still be found out.
fn write_error<R: Files + AllocGlobal>(rt: &R, name: &str) -> Option<Error> {
    match name.rsplit_once("/") {
        Some((folder, _)) => folder_error(rt, folder),
        None => folder_error(rt, "."),
    }
}

/// Says which file could not be written, and why where that is found out. A failure of this changes nothing.
pub fn say_unwritten<R: Files + Eprint + AllocGlobal>(rt: &R, name: &str) {
    let alloc = rt.alloc();
    let text = if name == "-" {
        unwritten_lines(alloc, "standard output", None)
    } else {
        match write_error(rt, name) {
            Some(error) => match format!(in alloc; "{error}") {
                Ok(reason) => unwritten_lines(alloc, name, Some(reason.as_str())),
                Err(_) => unwritten_lines(alloc, name, None),
            },
            None => unwritten_lines(alloc, name, None),
        }
    };
    if let Ok(text) = text {
        let _ = rt.eprint(text.as_str());
    }
}
