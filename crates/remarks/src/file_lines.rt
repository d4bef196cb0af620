//! What standard error says of a file: why it could not be read or written, what was left out of it, and what its
//! numbers look like. Its name, and kinds of entities, are somebody else's text, and are made fit to be shown.

ghost use Rattle.std.specs.Prelude.{◌≡◌, ◌++◌, IfOk, OnOk, codes, decimal, string_bytes, option_copied, map};
ghost use Rattle.std.specs.List.{flat_map};
ghost use Rattle.shown_text.specs.Texts.{shown_of};
ghost use Rattle.remarks.specs.FileLines.{unread_line_of, reason_words, unwritten_lines_of, kind_words, further_kind};
ghost use Rattle.remarks.specs.FileLines.{more_words, kinds_words, left_out_line_of, rounded_line_of};
ghost use Rattle.remarks.specs.FileLines.{degrees_line_of, blocks_line_of, frame_line_of};
ghost use Rattle.remarks.specs.FileLines.{meeting_words, meeting_line_of, reach_words, other_kinds_line_of, alone_words};
ghost use Rattle.remarks.specs.FileLines.{long_layer_lines_of, owner_line_of};

use crate::remark_lines::put_number;
use runs::MOST_BYTES;
use shown_text::put_shown;
use std::alloc::{AllocError, Global};

/// How many entities of a kind there are.
#[derive(Drop)]
pub struct KindCount {
    pub name: String,
    pub count: u64,
}

/// The kinds of entities that are named, and how many kinds there are beside them.
#[derive(Drop)]
pub struct KindCounts {
    /// The kinds that are named, in the order in which they are.
    pub named: Vec<KindCount>,
    /// How many more kinds there are.
    pub more: u64,
}

/// Puts the head of a line on a file.
fn put_name(text: &mut String, name: &str) -> Result<(), AllocError>
    ensures { OnOk result (string_bytes text.new ≡ string_bytes text.old ++ codes "tinmove: " ++ shown_of name.now) }
{
    text.push_str("tinmove: ")?;
    put_shown(text, name)?;
    Ok(())
}

/// The line that says why the system did not let a file be read.
pub fn unread_line(alloc: Global, name: &str, reason: &str) -> Result<String, AllocError>
    ensures { IfOk result (λ text. string_bytes text ≡ unread_line_of name.now reason.now) }
{
    let mut text = String::new(alloc);
    put_name(&mut text, name)?;
    text.push_str(": the system says: ")?;
    text.push_str(reason)?;
    text.push_str("\n")?;
    Ok(text)
}

/// Puts a reason, where there is one.
fn put_reason(text: &mut String, reason: Option<&str>) -> Result<(), AllocError>
    ensures { OnOk result (string_bytes text.new ≡ string_bytes text.old ++ reason_words (option_copied reason.entry)) }
{
    if let Some(words) = reason {
        text.push_str(": ")?;
        text.push_str(words)?;
    }
    Ok(())
}

/// The lines that say which file could not be written, why where that is known, and what helps.
pub fn unwritten_lines(
    alloc: Global,
    name: &str,
    reason: Option<&str>,
) -> Result<String, AllocError>
    ensures { IfOk result (λ text. string_bytes text ≡ unwritten_lines_of name.now (option_copied reason.entry)) }
{
    let mut text = String::new(alloc);
    put_name(&mut text, name)?;
    text.push_str(": could not be written")?;
    put_reason(&mut text, reason)?;
    text.push_str("\n")?;
    text.push_str(
        "tinmove: look at the disk's room, at who may write in the folder, and at ulimit -f\n",
    )?;
    Ok(text)
}

/// Puts a kind and its count after a text.
fn put_kind(text: &mut String, before: &str, kind: &KindCount) -> Result<(), AllocError>
    ensures { OnOk result (string_bytes text.new ≡ string_bytes text.old ++ before.now ++ kind_words kind.now) }
{
    text.push_str(before)?;
    put_shown(text, kind.name.as_str())?;
    put_number(text, " ", kind.count)?;
    Ok(())
}

/// Puts further kinds.
fn put_further(text: &mut String, kinds: &[KindCount]) -> Result<(), AllocError>
    ensures { OnOk result (string_bytes text.new ≡ string_bytes text.old ++ flat_map further_kind kinds.now) }
{
    for kind in kinds {
        put_kind(text, ", ", kind)?;
    }
    Ok(())
}

/// Puts how many more kinds there are, where there are some.
fn put_more(text: &mut String, more: u64) -> Result<(), AllocError>
    ensures { OnOk result (string_bytes text.new ≡ string_bytes text.old ++ more_words more) }
{
    if more > 0 {
        put_number(text, ", and ", more)?;
        text.push_str(" more")?;
    }
    Ok(())
}

/// Puts the kinds in brackets, where one is named.
fn put_kinds(text: &mut String, kinds: &[KindCount], more: u64) -> Result<(), AllocError>
    ensures { OnOk result (string_bytes text.new ≡ string_bytes text.old ++ kinds_words kinds.now more) }
{
    if let [first, rest @ ..] = kinds {
        put_kind(text, " (", first)?;
        put_further(text, rest)?;
        put_more(text, more)?;
        text.push_str(")")?;
    }
    Ok(())
}

/// The line that says how many entities of a drawing were left out, their kinds, and how many more kinds there are.
pub fn left_out_line(
    alloc: Global,
    name: &str,
    count: u64,
    kinds: &[KindCount],
    more: u64,
) -> Result<String, AllocError>
    ensures { IfOk result (λ text. string_bytes text ≡ left_out_line_of name.now count kinds.now more) }
{
    let mut text = String::new(alloc);
    put_name(&mut text, name)?;
    put_number(&mut text, ": ", count)?;
    text.push_str(" entities left out")?;
    put_kinds(&mut text, kinds, more)?;
    text.push_str(": the written drawing is not whole\n")?;
    Ok(text)
}

/// The line that says how many numbers of a layer were rounded, and how that is avoided.
pub fn rounded_line(alloc: Global, name: &str, count: u64) -> Result<String, AllocError>
    ensures { IfOk result (λ text. string_bytes text ≡ rounded_line_of name.now count) }
{
    let mut text = String::new(alloc);
    put_name(&mut text, name)?;
    put_number(&mut text, ": ", count)?;
    text.push_str(
        " numbers were rounded to the millimetre: ogr2ogr -lco COORDINATE_PRECISION=3 writes no more digits\n",
    )?;
    Ok(text)
}

/// The line that says that a triangulation may be in degrees.
pub fn degrees_line(alloc: Global, name: &str) -> Result<String, AllocError>
    ensures { IfOk result (λ text. string_bytes text ≡ degrees_line_of name.now) }
{
    let mut text = String::new(alloc);
    put_name(&mut text, name)?;
    text.push_str(
        ": all source corners are within 360: these look like degrees, and are read as metres: \
         three digits of a degree are steps of up to 111 metres\n",
    )?;
    Ok(text)
}

/// Puts how far what is in blocks is from their places, where that is known.
fn put_reach(text: &mut String, reach: Option<u64>) -> Result<(), AllocError>
    ensures { OnOk result (string_bytes text.new ≡ string_bytes text.old ++ reach_words reach) }
{
    if let Some(metres) = reach {
        put_number(text, ", up to ", metres)?;
        text.push_str(" metres from there")?;
    }
    Ok(())
}

/// The line that says how many blocks a drawing inserts, whose content is not carried, and how many metres that is from
/// their places at most, where it is known.
pub fn blocks_line(
    alloc: Global,
    name: &str,
    count: u64,
    reach: Option<u64>,
) -> Result<String, AllocError>
    ensures { IfOk result (λ text. string_bytes text ≡ blocks_line_of name.now count reach) }
{
    let mut text = String::new(alloc);
    put_name(&mut text, name)?;
    put_number(&mut text, ": ", count)?;
    text.push_str(
        " inserts: a block is moved to its new place, and what is in it keeps its shape",
    )?;
    put_reach(&mut text, reach)?;
    text.push_str(": explode blocks that are wide\n")?;
    Ok(text)
}

/// The line that names all kinds of entities of a drawing that are not carried, and says how many more there are.
pub fn other_kinds_line(
    alloc: Global,
    name: &str,
    kinds: &[KindCount],
    more: u64,
) -> Result<String, AllocError>
    ensures { IfOk result (λ text. string_bytes text ≡ other_kinds_line_of name.now kinds.now more) }
{
    let mut text = String::new(alloc);
    put_name(&mut text, name)?;
    text.push_str(": all kinds that are not carried")?;
    put_kinds(&mut text, kinds, more)?;
    text.push_str("\n")?;
    Ok(text)
}

/// Puts what helps a layer of this size, where it is too large alone.
fn put_alone(text: &mut String, size: u64) -> Result<(), AllocError>
    ensures { OnOk result (string_bytes text.new ≡ string_bytes text.old ++ alone_words size) }
{
    if size > MOST_BYTES {
        text.push_str(
            "tinmove: it is too large alone: recipes/geopackage.py carries a layer in strips\n",
        )?;
    }
    Ok(())
}

/// The lines that say which layer passes the limit of all layers, how many bytes it has, and how many those before it.
pub fn long_layer_lines(
    alloc: Global,
    name: &str,
    size: u64,
    before: u64,
) -> Result<String, AllocError>
    ensures { IfOk result (λ text. string_bytes text ≡ long_layer_lines_of name.now size before) }
{
    let mut text = String::new(alloc);
    put_name(&mut text, name)?;
    put_number(&mut text, ": ", size)?;
    put_number(&mut text, " bytes, behind ", before)?;
    text.push_str(" of the layers before it\n")?;
    put_alone(&mut text, size)?;
    Ok(text)
}

/// The line that says that an output has another owner or group than the file that it replaced.
pub fn owner_line(alloc: Global, name: &str) -> Result<String, AllocError>
    ensures { IfOk result (λ text. string_bytes text ≡ owner_line_of name.now) }
{
    let mut text = String::new(alloc);
    text.push_str("tinmove: the output ")?;
    put_shown(&mut text, name)?;
    text.push_str(
        " has another owner or group than before: the system did not let them be kept\n",
    )?;
    Ok(text)
}

/// The line that says that a layer has a mark of its frame, as a member of GeoJSON or an object of a drawing, which
/// stays as it was.
pub fn frame_line(alloc: Global, name: &str, mark: &str) -> Result<String, AllocError>
    ensures { IfOk result (λ text. string_bytes text ≡ frame_line_of name.now mark.now) }
{
    let mut text = String::new(alloc);
    put_name(&mut text, name)?;
    text.push_str(": ")?;
    text.push_str(mark)?;
    text.push_str(" stays as it was, and may name the frame that the layer is carried from\n")?;
    Ok(text)
}

/// What is to be said of an output before it is made.
#[derive(Clone, Copy)]
pub enum Meeting {
    /// It is the file of the triangulation.
    Triangulation,
    /// It is that of an earlier output.
    EarlierOutput,
    /// It is a link to a file that is missing.
    NoTarget,
    /// The last part of its name is too long.
    TooLong,
}

/// What is said of an output.
fn meeting_words(meeting: Meeting) -> &'static str
    ensures { result.now ≡ meeting_words meeting }
{
    match meeting {
        Meeting::Triangulation => " is the file of the triangulation\n",
        Meeting::EarlierOutput => " is also that of an earlier output\n",
        Meeting::NoTarget => " is a link that leads nowhere: the link itself is replaced\n",
        Meeting::TooLong => {
            " has a name of more than 255 bytes: most file systems take no longer one\n"
        }
    }
}

/// The line that says this of an output.
pub fn meeting_line(alloc: Global, name: &str, meeting: Meeting) -> Result<String, AllocError>
    ensures { IfOk result (λ text. string_bytes text ≡ meeting_line_of name.now meeting) }
{
    let mut text = String::new(alloc);
    text.push_str("tinmove: the output ")?;
    put_shown(&mut text, name)?;
    text.push_str(meeting_words(meeting))?;
    Ok(text)
}
