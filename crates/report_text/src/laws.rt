//! Laws of the texts of reports.

ghost use Rattle.std.specs.Prelude.{◌≡◌};
ghost use Rattle.report_text.specs.declared.lines.TheConstants.{LINE_FEED};
ghost use Rattle.report_text.specs.Laws.{BadLinesAreOne, OutcomeExists, ReadIsWritten, TextsAreOne, WrittenIsRead};

/// A law: no two reports have one text. So what is read of the text that was written of a report is that report.
pub fn texts_are_one()
    ensures { TextsAreOne }
{}

/// A law: bytes are bad at one line.
pub fn bad_lines_are_one()
    ensures { BadLinesAreOne }
{}

/// A law: any bytes are the text of some report, or bad at some line. With the two laws above, what bytes say is one
/// function of them.
pub fn outcome_exists()
    ensures { OutcomeExists }
{}

/// A law: reading what was written of a report gives the report back, unless memory runs out.
pub fn written_is_read()
    ensures { WrittenIsRead }
{}

/// A law: of a report that was read the same bytes are written.
pub fn read_is_written()
    ensures { ReadIsWritten }
{}

/// A law: the byte that ends each line is this one.
pub fn limits_are_stated()
    ensures line_feed { LINE_FEED ≡ 10 }
{}
