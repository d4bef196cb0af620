//! What standard error says of a triangulation whose numbers look like degrees.

ghost use Rattle.std.specs.Prelude.{◌≤◌, length};
ghost use Rattle.runs.specs.declared.loads.TheConstants.{MOST_BYTES};

use crate::refused_files::bytes_again;
use crate::strays::are_degrees;
use crate::tin_uses::{TinUse, tin_in};
use job_words::Job;
use remarks::degrees_line;
use sheet_base::How;
use std::alloc::Global;
use std::fs;
use std::io::Read;
use std::rt::Files;

/// The member that has the corners, as most files write it.
const CORNERS: &[u8] = b"\"vertices\"";

/// How many bytes of a triangulation are looked at first.
const FRONT: usize = 1 << 18;

/// How many digits the greatest number of degrees has before its point.
const MOST_DIGITS: usize = 3;

/// The bytes from the rows of corners on.
fn corner_rows(bytes: &[u8]) -> Option<&[u8]> {
    let at = bytes
        .windows(CORNERS.len())
        .position(|window| window == CORNERS)?;
    bytes.get(at..)?.get(CORNERS.len()..)
}

/// Whether the bytes have a digit.
fn has_digit(row: &[u8]) -> bool {
    row.iter().any(|byte| byte.is_ascii_digit())
}

/// Whether a number has so few digits before its point that it may be a number of degrees.
fn is_short(value: &[u8]) -> bool {
    let digits = value.iter().skip_while(|byte| !byte.is_ascii_digit());
    let count = digits.take_while(|byte| byte.is_ascii_digit()).count();
    count > 0 && count <= MOST_DIGITS
}

/// Whether two numbers of the row may be numbers of degrees, as both of a place are. An offset of heights is one.
fn has_short_pair(row: &[u8]) -> bool {
    let short = row
        .split(|byte| *byte == b',')
        .filter(|value| is_short(value));
    short.count() > 1
}

/// Whether each row of corners has two numbers that may be numbers of degrees. After the last row there is no digit
/// before the next bracket.
fn have_short_pairs(rows: &[u8]) -> bool {
    rows.split(|byte| *byte == b']')
        .take_while(|row| has_digit(row))
        .all(has_short_pair)
}

/// Reads the first bytes of a file, and hands out how many these are.
fn read_front<R: Files>(rt: &R, name: &str, front: &mut [u8]) -> Option<usize> {
    let mut file = fs::open(rt, name).ok()?;
    file.read(front).ok()
}

/// The first bytes of a file, at most this many.
fn front_of<R: Files + AllocGlobal>(rt: &R, name: &str, most: usize) -> Option<Vec<u8>> {
    let mut front = vec![in rt.alloc(); 0_u8; most].ok()?;
    let count = read_front(rt, name, &mut front)?;
    front.truncate(count);
    Some(front)
}

/// The first bytes of a file that can be read once more, at most this many.
pub(crate) fn front_again<R: Files + AllocGlobal>(
    rt: &R,
    name: &str,
    most: usize,
) -> Option<Vec<u8>> {
    match fs::metadata(rt, name) {
        Ok(kind) if kind.is_file() => front_of(rt, name, kind.len().min(most as u64) as usize),
        _ => None,
    }
}

/// Whether a whole row of corners among the first bytes has no two numbers that may be numbers of degrees.
fn has_long_row(front: &[u8]) -> bool {
    let Some(end) = front.iter().rposition(|byte| *byte == b']') else {
        return false;
    };
    match corner_rows(&front[..end]) {
        Some(rows) => !have_short_pairs(rows),
        None => false,
    }
}

/// Whether the file can be read once more, and no whole row of corners among its first bytes is without two short
/// numbers.
fn may_be_degrees<R: Files + AllocGlobal>(rt: &R, name: &str) -> bool {
    match front_again(rt, name, FRONT) {
        Some(front) => !has_long_row(&front),
        None => false,
    }
}

/// Whether each row of corners of these bytes has two short numbers.
fn are_short(bytes: &[u8]) -> bool {
    match corner_rows(bytes) {
        Some(rows) => have_short_pairs(rows),
        None => false,
    }
}

/// Whether all source corners of the triangulation with these bytes are such as degrees are.
fn are_in_degrees(alloc: Global, bytes: &[u8], how: How, use_of_tin: TinUse) -> bool
    requires { length bytes.now ≤ MOST_BYTES }
{
    match tin_in(alloc, bytes, how, use_of_tin) {
        Some(tin) => !tin.corners().is_empty() && are_degrees(&tin),
        None => false,
    }
}

/// Whether all source corners of the file's triangulation are such as degrees are. Where a row has no two short numbers
/// the triangulation is not read once more, and where this row is among the first bytes the file is not either.
fn is_in_degrees<R: Files + AllocGlobal + Clone + Drop>(
    rt: &R,
    name: &str,
    how: How,
    use_of_tin: TinUse,
) -> bool {
    if !may_be_degrees(rt, name) {
        return false;
    }
    match bytes_again(rt, name) {
        Some(bytes) => are_short(&bytes) && are_in_degrees(rt.alloc(), &bytes, how, use_of_tin),
        None => false,
    }
}

/// Says that a triangulation may be in degrees, where all source corners look so.
fn say_tin_degrees<R: Files + Eprint + AllocGlobal + Clone + Drop>(
    rt: &R,
    name: &str,
    how: How,
    use_of_tin: TinUse,
) {
    if is_in_degrees(rt, name, how, use_of_tin) {
        if let Ok(text) = degrees_line(rt.alloc(), name) {
            let _ = rt.eprint(text.as_str());
        }
    }
}

/// Says that the job's triangulation may be in degrees, where all source corners look so. A failure of this
/// changes nothing.
pub fn say_degrees<R: Files + Eprint + AllocGlobal + Clone + Drop>(rt: &R, job: &Job) {
    match job {
        Job::Migrate { tin, how, .. } | Job::Check { tin, how } | Job::Verify { tin, how, .. } => {
            say_tin_degrees(rt, tin.text(), *how, TinUse::Places);
        }
        Job::Heights { tin, how, .. } => say_tin_degrees(rt, tin.text(), *how, TinUse::Heights),
        Job::Make { .. } => {}
    }
}
