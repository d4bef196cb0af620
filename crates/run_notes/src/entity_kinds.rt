//! The kinds of the entities that are left out of drawings.

ghost use Rattle.std.specs.Prelude.{◌≡◌, ◌≤◌, IfOk, OnOk, drop, length, map, nat_le, take};
ghost use Rattle.std.specs.List.{after_first, before_first, prefix_len};
ghost use Rattle.std.specs.Option.{option_map};
ghost use Rattle.remarks.specs.LineColumns.{is_feed, is_in_line};
ghost use Rattle.run_notes.specs.InsideCounts.{count_of, counts_in, one_more, HaveRoom};
ghost use Rattle.run_notes.specs.LeftOutKinds.{AreFoundIn, AreFoundInLayers, IsFoundInLayer, kind_and_count, kind_at};
ghost use Rattle.run_notes.specs.LeftOutKinds.{kind_in_line, kinds_left_out, leaves_out, second_line, by_count, placed_last, kinds_found};
ghost use Rattle.run_notes.specs.LeftOutKinds.{most_frequent};
ghost use Rattle.run_notes.specs.declared.entity_kinds.TheConstants.{MOST_KINDS};

use crate::refused_files::layer_again;
use indexmap::IndexMap;
use job_words::{Format, Job, format_of};
use remarks::{KindCount, KindCounts, behind_line};
use sheet_base::{Edit, How, What};
use shelf_io::Name;
use std::alloc::{AllocError, Global};
use std::rt::Files;
use std::str::from_utf8;

/// How many kinds are named at most.
pub(crate) const MOST_KINDS: usize = 10;

/// How many bytes come before the first line feed, or all where there is none.
fn line_length(text: &[u8]) -> usize
    ensures count { result ≡ prefix_len is_in_line text.now }
    ensures within { result ≤ length text.now }
{
    text.iter().take_while(|byte| **byte != b'\n').count()
}

/// The bytes from a place on, where there are some.
fn bytes_from(bytes: &[u8], start: usize) -> &[u8]
    ensures { result.now ≡ drop start bytes.now }
{
    match bytes.get(start..) {
        Some(rest) => rest,
        None => &[],
    }
}

/// The first line of a text, without its line feed.
fn first_line(text: &[u8]) -> &[u8]
    ensures { result.now ≡ before_first is_feed text.now }
{
    &text[..line_length(text)]
}

/// The second line of a text, or nothing where there is none.
fn second_line(text: &[u8]) -> &[u8]
    ensures { result.now ≡ second_line text.now }
{
    first_line(behind_line(text))
}

/// The line without white space at its ends, or nothing where it is no UTF-8.
fn kind_in_line(line: &[u8]) -> &str
    ensures { result.now ≡ kind_in_line line.now }
{
    match from_utf8(line) {
        Ok(kind) => kind.trim(),
        Err(_) => "",
    }
}

/// The kind of the entity that begins at the place: what is on its second line, after its group code.
fn kind_at(bytes: &[u8], start: usize) -> &str
    ensures { result.now ≡ kind_at bytes.now start }
{
    kind_in_line(second_line(bytes_from(bytes, start)))
}

/// How many entities of this kind are counted.
fn count_in(kinds: &IndexMap<&str, u64>, name: &str) -> u64
    ensures { result ≡ count_of name.now (counts_in kinds.now.entries) }
{
    match kinds.get(&name) {
        Some(count) => *count,
        None => 0,
    }
}

/// Counts one more entity of this kind.
fn count_kind<'a>(kinds: &mut IndexMap<&'a str, u64>, name: &'a str) -> Result<(), AllocError>
    requires { HaveRoom (counts_in kinds.old.entries) }
    ensures { OnOk result (counts_in kinds.new.entries ≡ one_more name.now (counts_in kinds.old.entries)) }
{
    let count = count_in(kinds, name);
    match kinds.insert(name, count + 1) {
        Ok(_) => Ok(()),
        Err(_) => Err(AllocError),
    }
}

/// Whether the edit leaves its bytes out.
fn leaves_out(edit: &Edit) -> bool
    ensures { result ≡ leaves_out edit.now.what }
{
    match edit.what {
        What::Drop => true,
        _ => false,
    }
}

/// How many entities of each kind these edits leave out.
fn counts_of<'a>(
    alloc: Global,
    bytes: &'a [u8],
    edits: &[Edit],
) -> Result<IndexMap<&'a str, u64>, AllocError>
    ensures { IfOk result (λ kinds. counts_in kinds.entries ≡ kinds_left_out bytes.now edits.now) }
{
    let mut kinds = IndexMap::new(alloc);
    for edit in edits {
        if leaves_out(edit) {
            count_kind(&mut kinds, kind_at(bytes, edit.start as usize))?;
        }
    }
    Ok(kinds)
}

/// How many of the kinds come before one with this count: those that have as many entities or more, up to the first that
/// has fewer.
fn number_before(kinds: &[KindCount], count: u64) -> usize
    ensures place { result ≡ prefix_len (λ kind. nat_le count kind.count) kinds.now }
    ensures within { result ≤ length kinds.now }
{
    kinds.iter().take_while(|kind| count <= kind.count).count()
}

/// Puts a kind after those that have as many entities or more, and keeps the first `MOST_KINDS` kinds.
fn place_kind(
    alloc: Global,
    kinds: &mut Vec<KindCount>,
    name: &str,
    count: u64,
) -> Result<(), AllocError>
    ensures { OnOk result (map kind_and_count kinds.new.items
        ≡ take MOST_KINDS (placed_last (name.now, count) (map kind_and_count kinds.old.items))) }
{
    let at = number_before(kinds, count);
    kinds.insert(
        at,
        KindCount {
            name: String::from_str(alloc, name)?,
            count,
        },
    )?;
    kinds.truncate(MOST_KINDS);
    Ok(())
}

/// The most frequent of these kinds.
fn most_frequent(alloc: Global, counts: &IndexMap<&str, u64>) -> Result<Vec<KindCount>, AllocError>
    ensures { IfOk result (λ kinds. map kind_and_count kinds.items ≡ take MOST_KINDS (by_count (counts_in counts.now.entries))) }
{
    let mut kinds = Vec::new(alloc);
    for number in 0..counts.len() {
        if let Some((name, count)) = counts.get_index(number) {
            place_kind(alloc, &mut kinds, name, *count)?;
        }
    }
    Ok(kinds)
}

/// The kinds of the entities that these edits leave out: the most frequent ones, and how many more there are.
pub(crate) fn kinds_of(
    alloc: Global,
    bytes: &[u8],
    edits: &[Edit],
) -> Result<KindCounts, AllocError>
    ensures { IfOk result (λ kinds. kinds_found kinds ≡ most_frequent (kinds_left_out bytes.now edits.now)) }
{
    let counts = counts_of(alloc, bytes, edits)?;
    Ok(KindCounts {
        named: most_frequent(alloc, &counts)?,
        more: counts.len().saturating_sub(MOST_KINDS) as u64,
    })
}

/// The kinds of the entities of a layer that are left out, where it is a drawing that can be read twice.
fn kinds_in<R: Files + AllocGlobal + Clone + Drop>(
    rt: &R,
    name: &str,
    how: How,
) -> Result<Option<KindCounts>, AllocError>
    ensures { IfOk result (λ found. IsFoundInLayer how name.now (option_map kinds_found found)) }
{
    if format_of(name) != Some(Format::Drawing) {
        return Ok(None);
    }
    match layer_again(rt, name, how) {
        Some(layer) => Ok(Some(kinds_of(rt.alloc(), &layer.bytes, layer.sheet.edits())?)),
        None => Ok(None),
    }
}

/// For each of these layers the kinds of the entities that are left out.
fn kinds_in_each<R: Files + AllocGlobal + Clone + Drop>(
    rt: &R,
    layers: &[Name],
    how: How,
) -> Result<Vec<Option<KindCounts>>, AllocError>
    ensures { IfOk result (λ found. AreFoundInLayers how layers.now (map (option_map kinds_found) found.items)) }
{
    let mut found = Vec::with_capacity(rt.alloc(), layers.len())?;
    for layer in layers {
        found.push(kinds_in(rt, layer.text(), how)?)?;
    }
    Ok(found)
}

/// For each layer of a migration with `--drop-other` the kinds of the entities that are left out, where it is a drawing
/// that can be read twice; nothing of other jobs. A drawing that a run may write over is asked before the run. The
/// error is that memory ran out.
pub fn left_out_kinds<R: Files + AllocGlobal + Clone + Drop>(
    rt: &R,
    job: &Job,
) -> Result<Vec<Option<KindCounts>>, AllocError>
    ensures { IfOk result (λ found. AreFoundIn job.now (map (option_map kinds_found) found.items)) }
{
    match job {
        Job::Migrate { how, layers, .. } if how.drop_other => kinds_in_each(
            rt,
            layers.items(),
            *how,
        ),
        _ => Ok(Vec::new(rt.alloc())),
    }
}
