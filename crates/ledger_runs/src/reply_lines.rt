//! The text of replies, a line for each.

ghost use Rattle.std.specs.Prelude.{◌≡◌, ◌++◌, length, codes, OnOk, IfOk};
ghost use Rattle.std.specs.List.{flat_map};
ghost use Rattle.text_fields.specs.Fields.{field};
ghost use Rattle.ledger_runs.specs.ReplyText.{spaced_place, open_line, number_line, settled_line, reply_text, replies_text};

use itoa::Buffer;
use ledger_core::{PairRow, Reply, Verdict};
use report_text::{put_place, put_relation};
use std::alloc::{AllocError, Global};
use tin_base::Place;

// Adds a text at the end.
fn put(out: &mut Vec<u8>, text: &str) -> Result<(), AllocError>
    ensures { OnOk result (out.new.items ≡ out.old.items ++ text.now) }
{
    out.extend_from_slice(text.as_bytes())?;
    Ok(())
}

// Adds a word, and a number in digits after it.
fn put_number(out: &mut Vec<u8>, word: &str, number: u64) -> Result<(), AllocError>
    ensures { OnOk result (out.new.items ≡ out.old.items ++ field word.now number) }
{
    let mut digits = Buffer::new();
    put(out, word)?;
    put(out, digits.format(number))?;
    Ok(())
}

// Adds a word, a number in digits, and a line feed.
fn put_number_line(out: &mut Vec<u8>, word: &str, number: u64) -> Result<(), AllocError>
    ensures { OnOk result (out.new.items ≡ out.old.items ++ number_line word.now number) }
{
    put_number(out, word, number)?;
    put(out, "\n")?;
    Ok(())
}

// Adds a place after a space.
#[tactic(auto, unfolding(crate::specs::ReplyText::spaced_place))]
fn put_spaced_place(out: &mut Vec<u8>, place: Place) -> Result<(), AllocError>
    ensures { OnOk result (out.new.items ≡ out.old.items ++ spaced_place place) }
{
    put(out, " ")?;
    put_place(out, place)?;
    Ok(())
}

// Adds the line of an undecided pair.
#[tactic(auto, unfolding(crate::specs::ReplyText::open_line))]
fn put_pair(out: &mut Vec<u8>, row: &PairRow) -> Result<(), AllocError>
    ensures { OnOk result (out.new.items ≡ out.old.items ++ open_line row.now) }
{
    put_number(out, "open ", u64::from(row.place))?;
    put_spaced_place(out, row.change.first)?;
    put_spaced_place(out, row.change.second)?;
    put_relation(out, row.change.was)?;
    put_relation(out, row.change.now)?;
    put(out, "\n")?;
    Ok(())
}

// Adds the lines of undecided pairs.
fn put_pairs(out: &mut Vec<u8>, rows: &[PairRow]) -> Result<(), AllocError>
    ensures { OnOk result (out.new.items ≡ out.old.items ++ flat_map open_line rows.now) }
{
    for row in rows {
        put_pair(out, row)?;
    }
    Ok(())
}

fn settled_line(verdict: Verdict) -> &'static str
    ensures { result.now ≡ settled_line verdict }
{
    match verdict {
        Verdict::Undecided => "settled undecided\n",
        Verdict::Kept => "settled kept\n",
        Verdict::Mended => "settled mended\n",
    }
}

// Adds the lines of a list.
fn put_list(out: &mut Vec<u8>, rows: &[PairRow]) -> Result<(), AllocError>
    ensures { OnOk result (out.new.items ≡ out.old.items
        ++ (number_line (codes "listed ") (length rows.now) ++ flat_map open_line rows.now)) }
{
    put_number_line(out, "listed ", rows.len() as u64)?;
    put_pairs(out, rows)?;
    Ok(())
}

// Adds the lines of a reply.
fn put_reply(out: &mut Vec<u8>, reply: &Reply) -> Result<(), AllocError>
    ensures { OnOk result (out.new.items ≡ out.old.items ++ reply_text reply.now) }
{
    match reply {
        Reply::Entered { run, pairs } => {
            put_number(out, "entered ", u64::from(*run))?;
            put_number_line(out, " pairs ", u64::from(*pairs))?;
            Ok(())
        }
        Reply::Known { run } => put_number_line(out, "known ", u64::from(*run)),
        Reply::Full => put(out, "full\n"),
        Reply::Decided => put(out, "decided\n"),
        Reply::Settled { verdict } => put(out, settled_line(*verdict)),
        Reply::NoRun => put(out, "no run\n"),
        Reply::NoPair => put(out, "no pair\n"),
        Reply::Listed(rows) => put_list(out, rows.items()),
        Reply::Waiting { place } => put_number_line(out, "waiting ", u64::from(*place)),
        Reply::Cleared => put(out, "clear\n"),
    }
}

/// The text of replies, in order.
pub(crate) fn replies_text(alloc: Global, replies: &[Reply]) -> Result<Vec<u8>, AllocError>
    ensures { IfOk result (λ text. text.items ≡ replies_text replies.now) }
{
    let mut out = Vec::new(alloc);
    for reply in replies {
        put_reply(&mut out, reply)?;
    }
    Ok(out)
}
