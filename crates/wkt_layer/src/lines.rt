//! Reading a layer line by line.

ghost use Rattle.std.specs.Prelude.{◌≡◌, ◌≢◌, ◌+◌, ◌*◌, ◌^◌, ◌<◌, ◌≤◌, ◌∷◌, [], List, length, OnOk, IfOk, IsErrOf};
ghost use Rattle.std.specs.Prelude.{false, slice_index};
ghost use Rattle.std.specs.List.{list_all};
ghost use Rattle.sheet_base.specs.Splices.{AreInOrder};
ghost use Rattle.sheet_base.specs.declared.faults.LayerFault.{LayerFault};
ghost use Rattle.sheet_base.specs.declared.faults.LayerFault.TheVariants.{NoMemory};
ghost use Rattle.text_places.specs.Blanks.{is_blank_byte};
ghost use Rattle.wkt_layer.specs.Tokens.{Placed};
ghost use Rattle.wkt_layer.specs.InsideStates.{State};
ghost use Rattle.wkt_layer.specs.Paths.{Path};
ghost use Rattle.wkt_layer.specs.Layers.{geometry_lines, IsWktReadAs, IsWktRefusedBy};
ghost use Rattle.wkt_layer.specs.InsidePasses.{Held, HasRoom, BeginsBefore, IsAtState, Reads, ReadsLine, lines_behind};
ghost use Rattle.wkt_layer.specs.InsidePasses.{RestsAt};
ghost use Rattle.wkt_layer.specs.InsideReach.{Reached};

use crate::limits::LINE_FEED;
use crate::pass::LinesRead;
use crate::places::TokenPlace;
use crate::steps::{is_end, step};
use crate::tokens::{Token, first_token};
use memchr::memchr;
use sheet_base::{LayerFault, Listed, Sheet};
use std::alloc::Global;
use text_places::is_blank;

/// The first line of a text, and what comes after its line feed, where there is one.
fn first_line(text: &[u8]) -> (&[u8], Option<&[u8]>)
    ensures lines { geometry_lines text.now ≡ result.0.now ∷ lines_behind result.1 }
    ensures size { RestsAt result.1 (length result.0.now + 1) (length text.now) }
    ensures within { length result.0.now ≤ length text.now }
{
    match memchr(LINE_FEED, text) {
        Some(end) => (&text[..end], Some(&text[end + 1..])),
        None => (text, None),
    }
}

/// The bytes are blanks alone.
fn are_blank(line: &[u8]) -> bool
    ensures { result ≡ list_all is_blank_byte line.now }
{
    line.iter().all(|byte| is_blank(*byte))
}

/// Reads one token of a line that begins at `base` of the text. Answers what may come after it,
/// and where in the line that is.
fn read_token(
    pass: &mut LinesRead,
    line: &[u8],
    base: usize,
    at: usize,
    place: TokenPlace,
    exact: bool,
) -> Result<(TokenPlace, usize), LayerFault>
    requires within { at < length line.now }
    requires small { base + length line.now < 2 ^ 32 }
    requires black { is_blank_byte (slice_index line.now at) ≡ false }
    requires room { HasRoom pass.old (base + at) }
    requires begins { BeginsBefore place (base + at) }
    ensures reads { (before : List Path) → (front : List Placed) → (s : State) → IsAtState pass.old place before s
        → Reached exact base line.now at front s pass.old.opened → Reads exact base line.now before result pass.new }
    ensures onward { IfOk result (λ next. (at < next.1) × (next.1 ≤ length line.now)) }
    ensures room { IfOk result (λ next. HasRoom pass.new (base + next.1) × BeginsBefore next.0 (base + next.1)) }
{
    let (sign, size) = first_token(&line[at..]);
    let token = Token {
        sign,
        start: base + at,
        end: base + at + size,
    };
    let next = step(pass, place, token, &line[at..at + size], exact)?;
    Ok((next, at + size))
}

/// Reads the geometry of a line that begins at this place of the text.
fn read_geometry(
    pass: &mut LinesRead,
    line: &[u8],
    base: usize,
    exact: bool,
) -> Result<(), LayerFault>
    requires small { base + length line.now < 2 ^ 32 }
    requires room { HasRoom pass.old base }
    requires some { list_all is_blank_byte line.now ≡ false }
    ensures reads { (before : List Path) → Held pass.old before [] → pass.old.stack ≡ []
        → ReadsLine exact base line.now before result pass.new }
    ensures room { OnOk result (HasRoom pass.new (base + length line.now)) }
{
    let mut place = TokenPlace::Item;
    let mut at = 0;
    while at < line.len() {
        if is_blank(line[at]) {
            at += 1;
        } else {
            let (next, end) = read_token(pass, line, base, at, place, exact)?;
            place = next;
            at = end;
        }
    }
    if is_end(pass, place) {
        Ok(())
    } else {
        Err(LayerFault::Bad {
            at: (base + line.len()) as u64,
        })
    }
}

/// Reads a line that begins at this place of the text.
fn read_line(pass: &mut LinesRead, line: &[u8], base: usize, exact: bool) -> Result<(), LayerFault>
    requires small { base + length line.now < 2 ^ 32 }
    requires room { HasRoom pass.old base }
    ensures reads { (before : List Path) → Held pass.old before [] → pass.old.stack ≡ []
        → ReadsLine exact base line.now before result pass.new }
    ensures room { OnOk result (HasRoom pass.new (base + length line.now)) }
{
    if are_blank(line) {
        return Ok(());
    }
    read_geometry(pass, line, base, exact)
}

/// The sheet of a layer of well-known text: each line is one geometry, or blanks alone. Places of
/// faults are bytes from 0. Of two faults the first is reported.
pub fn read(alloc: Global, bytes: &[u8], exact: bool) -> Result<Sheet, LayerFault>
    requires { length bytes.now ≤ 2 ^ 26 }
    ensures ok { IfOk result (λ sheet. IsWktReadAs exact bytes.now sheet) }
    ensures edits { IfOk result (λ sheet. AreInOrder 0 sheet.edits (length bytes.now)) }
    ensures refused { (fault : LayerFault) → IsErrOf result fault → fault ≢ NoMemory → IsWktRefusedBy exact bytes.now fault }
{
    let mut pass = LinesRead::new(alloc, bytes.len())?;
    let mut base = 0;
    let mut rest = Some(bytes);
    while let Some(text) = rest {
        let (line, behind) = first_line(text);
        read_line(&mut pass, line, base, exact)?;
        base += line.len() + 1;
        rest = behind;
    }
    Ok(Sheet::of(
        Listed::of(pass.paths),
        Listed::of(pass.points),
        pass.heights,
        Listed::of(pass.edits),
        pass.inexact,
        0,
    ))
}
