//! The reader of a report's text, line by line.

ghost use Rattle.std.specs.Prelude.{◌≡◌, ◌∷◌, ◌++◌, IfOk, IfErr, IfSome, IfNone};
ghost use Rattle.report_text.specs.declared.lines.TheConstants.{LINE_FEED};
ghost use Rattle.report_text.specs.Beginnings.{IsLine, IsReportText, IsFaultOf};

use crate::drafts::Draft;
use crate::{LINE_FEED, Report, ReportFault};
use memchr::memchr;
use sheet_base::Listed;
use std::alloc::Global;

// The first line of a text without its line feed, and what comes after that, where there is one.
fn first_line(text: &[u8]) -> Option<(&[u8], &[u8])>
    ensures line { IfSome result (λ found. IsLine found.0.now) }
    ensures whole { IfSome result (λ found. text.now ≡ found.0.now ++ LINE_FEED ∷ found.1.now) }
    ensures none { IfNone result (IsLine text.now) }
{
    let end = memchr(LINE_FEED, text)?;
    Some((&text[..end], &text[end + 1..]))
}

/// Reads the text of a report. Of bytes that are no report's text it names the first bad line, counted from 1.
pub fn read_report(alloc: Global, bytes: &[u8]) -> Result<Report, ReportFault>
    ensures ok { IfOk result (λ report. IsReportText bytes.now report) }
    ensures err { IfErr result (λ fault. IsFaultOf bytes.now fault) }
{
    let mut draft = Draft::Title;
    let mut rest = bytes;
    let mut number = 1;
    while let Some((line, behind)) = first_line(rest) {
        draft = draft.read(alloc, line, number)?;
        rest = behind;
        number += 1;
    }
    if !rest.is_empty() {
        return Err(ReportFault::Bad { line: number });
    }
    match draft {
        Draft::Whole(tin, rows, changes, sides) => Ok(Report::of(
            tin.corners,
            tin.triangles,
            tin.inexact,
            tin.name,
            Listed::of(rows),
            Listed::of(changes),
            sides,
        )),
        _ => Err(ReportFault::Bad { line: number }),
    }
}
