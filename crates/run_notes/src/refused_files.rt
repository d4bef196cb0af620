//! What standard error says after a refusal, of the words or of the file that was refused.

ghost use Rattle.std.specs.Prelude.{◌≤◌, IfSome};
ghost use Rattle.std.specs.Vec.{vec_len};
ghost use Rattle.job_words.specs.Formats.{format_by_name};
ghost use Rattle.runs.specs.declared.loads.TheConstants.{MOST_BYTES};
ghost use Rattle.run_notes.specs.LayersAgain.{IsLayerIn};

use crate::blocks::is_insert_at;
use crate::command_words::{Usage, Words};
use crate::entity_kinds::kinds_of;
use crate::faulty_triangles::say_triangles;
use crate::strays::{sheet_of, stray_of, stray_point};
use crate::tin_uses::{TinUse, tin_in, use_of};
use crate::word_flaws::flaw_of;
use cert_check::CertFault;
use job_words::{Format, Job, WordsFault, format_of};
use remarks::{
    KindCounts, Stray, WordFlaw, long_layer_lines, other_kinds_line, outside_lines,
    refusal_remarks, unread_line, word_lines,
};
use runs::{MOST_BYTES, Refusal};
use sheet_base::{How, LayerFault, Sheet};
use shelf_io::{FileShelf, Name, load};
use std::alloc::{AllocError, Global};
use std::io::{Error, Read};
use std::rt::Files;
use std::str::from_utf8;
use std::{fs, slice};
use tin_base::Tin;
use tin_height::read_points;

/// The number of the layer that a refusal is of.
fn refused_layer(refusal: Refusal) -> Option<u32> {
    match refusal {
        Refusal::LayerUnread { layer } => Some(layer),
        Refusal::Layer { layer, .. } => Some(layer),
        Refusal::Outside { layer, .. } => Some(layer),
        _ => None,
    }
}

/// The name of the file that a refusal of the job is of: that of a layer, of a certificate, or of the triangulation.
fn refused_name(job: &Job, refusal: Refusal) -> &str {
    match job {
        Job::Migrate { tin, layers, .. } => match refused_layer(refusal) {
            None => tin.text(),
            Some(layer) => match layers.items().get(layer as usize) {
                None => "",
                Some(name) => name.text(),
            },
        },
        Job::Check { tin, .. } => tin.text(),
        Job::Make { .. } => "",
        Job::Heights { tin, points, .. } => match refused_layer(refusal) {
            None => match refusal {
                Refusal::LayersLong => points.text(),
                _ => tin.text(),
            },
            Some(_) => points.text(),
        },
        Job::Verify {
            tin,
            source,
            written,
            cert,
            ..
        } => match refusal {
            Refusal::LayerUnread { .. } | Refusal::LayersLong | Refusal::Layer { .. } =>
                source.text(),
            Refusal::WrittenUnread
            | Refusal::WrittenLong
            | Refusal::Certificate(CertFault::Differs { .. }) => written.text(),
            Refusal::CertUnread | Refusal::CertLong | Refusal::Certificate(_) => cert.text(),
            _ => tin.text(),
        },
    }
}

/// The bytes of a file that can be read once more: a pipe cannot.
pub(crate) fn bytes_again<R: Files + AllocGlobal + Clone + Drop>(
    rt: &R,
    name: &str,
) -> Option<Vec<u8>>
    ensures { IfSome result (λ bytes. vec_len bytes ≤ MOST_BYTES) }
{
    match fs::metadata(rt, name) {
        Ok(kind) if kind.is_file() => {
            let mut shelf = FileShelf::new(rt, rt.alloc()).ok()?;
            load(rt.alloc(), &mut shelf, name, MOST_BYTES).ok()
        }
        _ => None,
    }
}

/// The bytes of the refused file, where the refusal is of its content.
fn refused_bytes<R: Files + AllocGlobal + Clone + Drop>(
    rt: &R,
    name: &str,
    refusal: Refusal,
) -> Option<Vec<u8>> {
    match refusal {
        Refusal::Tin(_) | Refusal::Layer { .. } | Refusal::Certificate(CertFault::Differs { .. }) =>
            bytes_again(rt, name),
        _ => None,
    }
}

/// Why the system does not let a file be read, where it is one that can be tried once more.
fn read_error<R: Files>(rt: &R, name: &str) -> Option<Error> {
    match fs::metadata(rt, name) {
        Ok(kind) if kind.is_file() || kind.is_dir() => match fs::open(rt, name) {
            Ok(mut file) => file.read(&mut [0u8; 1]).err(),
            Err(error) => Some(error),
        },
        Ok(_) => None,
        Err(error) => Some(error),
    }
}

/// Says why the system does not let a file be read.
fn say_read_error<R: Files + Eprint + AllocGlobal>(rt: &R, name: &str) {
    let Some(error) = read_error(rt, name) else {
        return;
    };
    let Ok(reason) = format!(in rt.alloc(); "{error}") else {
        return;
    };
    if let Ok(text) = unread_line(rt.alloc(), name, reason.as_str()) {
        let _ = rt.eprint(text.as_str());
    }
}

/// A layer that was read once more.
#[derive(Drop)]
pub(crate) struct LayerRead {
    pub(crate) bytes: Vec<u8>,
    pub(crate) sheet: Sheet,
}

/// A layer that can be read once more.
pub(crate) fn layer_again<R: Files + AllocGlobal + Clone + Drop>(
    rt: &R,
    name: &str,
    how: How,
) -> Option<LayerRead>
    ensures within { IfSome result (λ layer. vec_len layer.bytes ≤ MOST_BYTES) }
    ensures layer { IfSome result (λ layer. IsLayerIn (format_by_name name.now) how layer.bytes.items layer.sheet) }
{
    let bytes = bytes_again(rt, name)?;
    match sheet_of(rt.alloc(), name, &bytes, how) {
        Some(sheet) => Some(LayerRead { bytes, sheet }),
        None => None,
    }
}

/// A triangulation that can be read once more.
fn tin_again<R: Files + AllocGlobal + Clone + Drop>(
    rt: &R,
    name: &str,
    how: How,
    use_of_tin: TinUse,
) -> Option<Tin> {
    let bytes = bytes_again(rt, name)?;
    tin_in(rt.alloc(), &bytes, how, use_of_tin)
}

/// The segment of the layer of this name, found once more, and the triangles that it is not wholly in.
fn stray_in<R: Files + AllocGlobal + Clone + Drop>(
    rt: &R,
    name: &str,
    how: How,
    path: u32,
    segment: u32,
    tin: &Tin,
    inverse: bool,
) -> Option<Stray> {
    let layer = layer_again(rt, name, how)?;
    stray_of(&layer.sheet, &layer.bytes, path, segment, tin, inverse)
}

/// The point of the list of this name, found once more, and the triangles, none of which contains it.
fn stray_among<R: Files + AllocGlobal + Clone + Drop>(
    rt: &R,
    name: &str,
    how: How,
    point: u32,
    tin: &Tin,
) -> Option<Stray> {
    let bytes = bytes_again(rt, name)?;
    let points = read_points(rt.alloc(), &bytes, how).ok()?;
    stray_point(&points, &bytes, point, tin)
}

/// The segment of a layer with this number, or the point of a list, found in the files of the job once more.
fn found_segment<R: Files + AllocGlobal + Clone + Drop>(
    rt: &R,
    job: &Job,
    refusal: Refusal,
    path: u32,
    segment: u32,
) -> Option<Stray> {
    match job {
        Job::Migrate {
            tin,
            how,
            inverse,
            ..
        } => {
            let tin = tin_again(rt, tin.text(), *how, TinUse::Places)?;
            stray_in(
                rt,
                refused_name(job, refusal),
                *how,
                path,
                segment,
                &tin,
                *inverse,
            )
        }
        Job::Heights {
            tin,
            how,
            points,
            ..
        } => {
            let tin = tin_again(rt, tin.text(), *how, TinUse::Heights)?;
            stray_among(rt, points.text(), *how, path, &tin)
        }
        _ => None,
    }
}

/// The segment of a refusal, found in the files once more.
fn found_stray<R: Files + AllocGlobal + Clone + Drop>(
    rt: &R,
    job: &Job,
    refusal: Refusal,
) -> Option<Stray> {
    match refusal {
        Refusal::Outside { path, segment, .. } => found_segment(rt, job, refusal, path, segment),
        _ => None,
    }
}

/// Whether a block is inserted at this line of a file, where it is a drawing.
fn is_insert<R: Files + AllocGlobal + Clone + Drop>(rt: &R, name: &str, line: u64) -> bool {
    if format_of(name) != Some(Format::Drawing) {
        return false;
    }
    match bytes_again(rt, name) {
        Some(bytes) => is_insert_at(rt.alloc(), &bytes, line),
        None => false,
    }
}

/// Says where a segment is that is outside, and where the triangles are.
fn say_stray<R: Files + Eprint + AllocGlobal + Clone + Drop>(rt: &R, job: &Job, refusal: Refusal) {
    let Some(stray) = found_stray(rt, job, refusal) else {
        return;
    };
    let is_insert = is_insert(rt, refused_name(job, refusal), stray.line);
    if let Ok(bytes) = outside_lines(rt.alloc(), stray, is_insert) {
        if let Ok(text) = from_utf8(&bytes) {
            let _ = rt.eprint(text);
        }
    }
}

/// Whether the words ask for files.
fn ask_for_files(words: &[String], has_modes: bool) -> bool {
    match words.first() {
        Some(mode) => has_modes && (mode.as_str() == "migrate" || mode.as_str() == "heights"),
        None => false,
    }
}

/// Says which word is wrong or missing.
fn say_flaw<R: Eprint + AllocGlobal>(rt: &R, words: &[String], has_modes: bool, fault: WordsFault) {
    let has_outputs = ask_for_files(words, has_modes);
    let found = match flaw_of(rt.alloc(), words, has_modes, fault) {
        Ok(Some((flaw, word))) => word_lines(rt.alloc(), flaw, word, has_outputs),
        _ => refusal_remarks(rt.alloc(), &Refusal::Words(fault), "", None, has_outputs),
    };
    if let Ok(text) = found {
        let _ = rt.eprint(text.as_str());
    }
}

/// Says which word is wrong or missing, where the words are those of the command line, and how words are used.
fn say_words<R: Eprint + AllocGlobal>(rt: &R, words: &Words, usage: Usage<'_>, fault: WordsFault) {
    if words.are_given {
        say_flaw(rt, &words.words, usage.has_modes, fault);
    }
    let _ = rt.eprintln(usage.text);
}

/// Whether the job makes files.
fn makes_files(job: Option<&Job>) -> bool {
    matches!(job, Some(Job::Migrate { .. } | Job::Heights { .. }))
}

/// The kinds of a drawing that would be left out by `--drop-other`, where it can be read once more so.
fn other_kinds<R: Files + AllocGlobal + Clone + Drop>(
    rt: &R,
    name: &str,
    how: How,
) -> Option<KindCounts> {
    let how = How {
        drop_other: true,
        ..how
    };
    let layer = layer_again(rt, name, how)?;
    kinds_of(rt.alloc(), &layer.bytes, layer.sheet.edits()).ok()
}

/// Says which kinds of a drawing are not carried.
fn say_other_kinds<R: Files + Eprint + AllocGlobal + Clone + Drop>(rt: &R, name: &str, how: How) {
    let Some(kinds) = other_kinds(rt, name, how) else {
        return;
    };
    if let Ok(text) = other_kinds_line(rt.alloc(), name, &kinds.named, kinds.more) {
        let _ = rt.eprint(text.as_str());
    }
}

/// How many bytes a file has, where it is a regular one.
fn size_of<R: Files>(rt: &R, name: &str) -> u64 {
    match fs::metadata(rt, name) {
        Ok(kind) if kind.is_file() => kind.len(),
        _ => 0,
    }
}

/// Says of the first layer with which the layers pass the limit how large it is, and those before it.
fn say_long_layer<R: Files + Eprint + AllocGlobal>(rt: &R, layers: &[Name]) {
    let mut before = 0_u64;
    for layer in layers {
        let size = size_of(rt, layer.text());
        if before.saturating_add(size) > MOST_BYTES {
            if let Ok(text) = long_layer_lines(rt.alloc(), layer.text(), size, before) {
                let _ = rt.eprint(text.as_str());
            }
            return;
        }
        before = before.saturating_add(size);
    }
}

/// Says which of the job's layers is too large.
fn say_sizes<R: Files + Eprint + AllocGlobal>(rt: &R, job: &Job) {
    match job {
        Job::Migrate { layers, .. } => say_long_layer(rt, layers.items()),
        Job::Verify { source, .. } => say_long_layer(rt, slice::from_ref(source)),
        Job::Check { .. } | Job::Make { .. } | Job::Heights { .. } => {}
    }
}

/// How the job reads its files.
fn how_of(job: &Job) -> Option<How> {
    match job {
        Job::Migrate { how, .. }
        | Job::Check { how, .. }
        | Job::Verify { how, .. }
        | Job::Heights { how, .. } => Some(*how),
        Job::Make { .. } => None,
    }
}

/// Says more of what a file is refused for, where more is found out.
fn say_more<R: Files + Eprint + AllocGlobal + Clone + Drop>(
    rt: &R,
    job: &Job,
    name: &str,
    refusal: Refusal,
) {
    let Some(how) = how_of(job) else {
        return;
    };
    match refusal {
        Refusal::Outside { .. } => say_stray(rt, job, refusal),
        Refusal::LayersLong => say_sizes(rt, job),
        Refusal::Check(fault) => say_triangles(rt, name, how, use_of(job), fault),
        Refusal::Layer {
            fault: LayerFault::Entity { .. },
            ..
        } => say_other_kinds(rt, name, how),
        _ => {}
    }
}

/// Says where a file is refused, what was found, and what helps. `has_outputs` says whether the run writes files.
fn say_file<R: Files + Eprint + AllocGlobal + Clone + Drop>(
    rt: &R,
    job: Option<&Job>,
    refusal: Refusal,
    has_outputs: bool,
) {
    let name = match job {
        None => "",
        Some(job) => refused_name(job, refusal),
    };
    let bytes = refused_bytes(rt, name, refusal);
    let known = match &bytes {
        None => None,
        Some(bytes) => Some(bytes.as_slice()),
    };
    if let Ok(text) = refusal_remarks(rt.alloc(), &refusal, name, known, has_outputs) {
        let _ = rt.eprint(text.as_str());
    }
    match refusal {
        Refusal::TinUnread
        | Refusal::LayerUnread { .. }
        | Refusal::WrittenUnread
        | Refusal::CertUnread => say_read_error(rt, name),
        _ => {
            if let Some(job) = job {
                say_more(rt, job, name, refusal);
            }
        }
    }
}

/// Says why the words or a file are refused. A failure of this changes nothing.
pub fn say_refusal<R: Files + Eprint + AllocGlobal + Clone + Drop>(
    rt: &R,
    words: &Words,
    usage: Usage<'_>,
    job: Option<&Job>,
    refusal: Refusal,
) {
    match refusal {
        Refusal::Words(fault) => say_words(rt, words, usage, fault),
        _ => say_file(rt, job, refusal, usage.has_modes && makes_files(job)),
    }
}
