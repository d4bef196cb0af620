//! The lines of standard error on a script that is refused.

ghost use Rattle.std.specs.Prelude.{◌≡◌, ◌++◌, IfOk, OnOk, codes, decimal, string_bytes};
ghost use Rattle.shown_text.specs.Texts.{shown_of};
ghost use Rattle.ledger_remarks.specs.RemarkLines.{finding_words, cure_words, found_words, flaw_lines_of, unread_lines_of};
ghost use Rattle.ledger_remarks.specs.RemarkLines.{unread_script_lines_of, wrong_report_lines_of, other_layers_lines_of};

use crate::{Finding, LineFlaw};
use itoa::Buffer;
use shown_text::put_shown;
use std::alloc::{AllocError, Global};

// What a flaw is.
fn finding(flaw: LineFlaw) -> &'static str
    ensures { result.now ≡ finding_words flaw }
{
    match flaw {
        LineFlaw::ByteOrderMark => "a byte order mark",
        LineFlaw::CarriageReturn => "a carriage return at the end of the line",
        LineFlaw::Control => "a tab or another control character",
        LineFlaw::Space => "two spaces in a row, or one at an end of the line",
        LineFlaw::Utf8 => "bytes that are no UTF-8",
        LineFlaw::Word => "no word of a line",
        LineFlaw::Number => "no number in digits below 4294967296",
        LineFlaw::Mark => "neither kept nor mended",
        LineFlaw::Missing => "a word or a number is missing",
        LineFlaw::Further => "a word too many",
    }
}

// What helps.
fn cure(flaw: LineFlaw) -> &'static str
    ensures { result.now ≡ cure_words flaw }
{
    match flaw {
        LineFlaw::ByteOrderMark => "the mark is removed by: sed -i 's/^\\xef\\xbb\\xbf//'",
        LineFlaw::CarriageReturn => "carriage returns are removed by: sed -i 's/\\r$//'",
        LineFlaw::Control | LineFlaw::Space => "one space is between each two words of a line",
        LineFlaw::Utf8 => "a script is UTF-8",
        LineFlaw::Word => "a line is enter, decide, list or clear: see tinledger --help",
        LineFlaw::Number => "a run is a number from 1, a place one from 0, without leading zeros",
        LineFlaw::Mark | LineFlaw::Missing | LineFlaw::Further =>
            "lines are enter REPORT LAYER..., decide RUN PLACE kept, decide RUN PLACE mended, list RUN and clear RUN",
    }
}

// Puts a text and a number in digits.
fn put_number(text: &mut String, before: &str, number: u64) -> Result<(), AllocError>
    ensures { OnOk result (string_bytes text.new ≡ string_bytes text.old ++ before.now ++ decimal number) }
{
    let mut digits = Buffer::new();
    text.push_str(before)?;
    text.push_str(digits.format(number))?;
    Ok(())
}

// Puts the head of what is said of a script.
fn put_script(text: &mut String, script: &str) -> Result<(), AllocError>
    ensures { OnOk result (string_bytes text.new ≡ string_bytes text.old ++ codes "tinledger: " ++ shown_of script.now) }
{
    text.push_str("tinledger: ")?;
    put_shown(text, script)?;
    Ok(())
}

// Puts the head of what is said of a line.
fn put_line(text: &mut String, script: &str, line: u32) -> Result<(), AllocError>
    ensures { OnOk result (string_bytes text.new ≡ string_bytes text.old ++ codes "tinledger: " ++ shown_of script.now
        ++ codes ":" ++ decimal line) }
{
    put_script(text, script)?;
    put_number(text, ":", u64::from(line))?;
    Ok(())
}

// Puts the head of what is said of a file that a line names.
fn put_file(text: &mut String, script: &str, line: u32, name: &str) -> Result<(), AllocError>
    ensures { OnOk result (string_bytes text.new ≡ string_bytes text.old ++ codes "tinledger: " ++ shown_of script.now
        ++ codes ":" ++ decimal line ++ codes ": " ++ shown_of name.now) }
{
    put_line(text, script, line)?;
    text.push_str(": ")?;
    put_shown(text, name)?;
    Ok(())
}

// Puts what was found, where it is something.
fn put_found(text: &mut String, found: &str) -> Result<(), AllocError>
    ensures { OnOk result (string_bytes text.new ≡ string_bytes text.old ++ found_words found.now) }
{
    if !found.is_empty() {
        text.push_str(": ")?;
        put_shown(text, found)?;
    }
    Ok(())
}

/// The lines that say what is wrong with a line of this number, and what helps.
pub fn flaw_lines(
    alloc: Global,
    script: &str,
    line: u32,
    found: Finding<'_>,
) -> Result<String, AllocError>
    ensures { IfOk result (λ text. string_bytes text
        ≡ flaw_lines_of script.now line found.entry.column found.entry.flaw found.entry.found.now) }
{
    let mut text = String::new(alloc);
    put_line(&mut text, script, line)?;
    put_number(&mut text, ":", found.column as u64)?;
    text.push_str(": ")?;
    text.push_str(finding(found.flaw))?;
    put_found(&mut text, found.found)?;
    text.push_str("\ntinledger: no line was obeyed; ")?;
    text.push_str(cure(found.flaw))?;
    text.push_str("\n")?;
    Ok(text)
}

/// The lines that say why the system did not let a file be read that a line names.
pub fn unread_lines(
    alloc: Global,
    script: &str,
    line: u32,
    name: &str,
    reason: &str,
) -> Result<String, AllocError>
    ensures { IfOk result (λ text. string_bytes text ≡ unread_lines_of script.now line name.now reason.now) }
{
    let mut text = String::new(alloc);
    put_file(&mut text, script, line, name)?;
    text.push_str(": the system says: ")?;
    text.push_str(reason)?;
    text.push_str("\ntinledger: no line was obeyed\n")?;
    Ok(text)
}

/// The line that says why the system did not let a script be read.
pub fn unread_script_lines(alloc: Global, script: &str, reason: &str) -> Result<String, AllocError>
    ensures { IfOk result (λ text. string_bytes text ≡ unread_script_lines_of script.now reason.now) }
{
    let mut text = String::new(alloc);
    put_script(&mut text, script)?;
    text.push_str(": the system says: ")?;
    text.push_str(reason)?;
    text.push_str("\n")?;
    Ok(text)
}

/// The lines that say which line of a file is none of a report.
pub fn wrong_report_lines(
    alloc: Global,
    script: &str,
    line: u32,
    name: &str,
    bad: u64,
) -> Result<String, AllocError>
    ensures { IfOk result (λ text. string_bytes text ≡ wrong_report_lines_of script.now line name.now bad) }
{
    let mut text = String::new(alloc);
    put_file(&mut text, script, line, name)?;
    put_number(&mut text, ":", bad)?;
    text.push_str(
        ": no such line is in a report\ntinledger: no line was obeyed; a report is what tinmove migrate prints, whole\n",
    )?;
    Ok(text)
}

/// The lines that say that a line names another number of layers than its report has.
pub fn other_layers_lines(
    alloc: Global,
    script: &str,
    line: u32,
    name: &str,
) -> Result<String, AllocError>
    ensures { IfOk result (λ text. string_bytes text ≡ other_layers_lines_of script.now line name.now) }
{
    let mut text = String::new(alloc);
    put_file(&mut text, script, line, name)?;
    text.push_str(
        ": the report has another number of layers than this line\ntinledger: no line was obeyed; \
         each written layer is named behind its report, in the report's order\n",
    )?;
    Ok(text)
}
