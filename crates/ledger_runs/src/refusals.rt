//! Why a run ends before its replies, and the line that says so. Lines are built without taking memory.

ghost use Rattle.std.specs.Prelude.{◌≡◌, ◌≤◌, ◌+◌, ◌++◌, length, decimal};
ghost use Rattle.ledger_runs.specs.Refusals.{line_of, status_of};

use crate::LedgerStatus;
use arrayvec::ArrayString;
use itoa::Buffer;

/// The room for a line, in bytes.
pub(crate) const LINE_ROOM: usize = 96;

/// A line with its line feed.
pub(crate) type LedgerLine = ArrayString<LINE_ROOM>;

/// Why a run ends before its replies. Lines are counted from 1, of the script and of a report.
#[derive(Clone, Copy, Debug, PartialEq, Eq)]
pub enum LedgerRefusal {
    /// The words are not two names.
    Words,
    /// The script is missing or could not be read.
    ScriptUnread,
    /// The script has too many bytes.
    ScriptBytes,
    /// The script has too many lines.
    ScriptLines,
    /// A line of the script has no form.
    BadLine { line: u32 },
    /// A file of a line is missing or could not be read.
    FileUnread { line: u32 },
    /// The reports up to a line have too many bytes.
    ReportBytes,
    /// The file of a line is not a report.
    BadReport { line: u32, bad: u64 },
    /// A line has another number of layers than its report.
    LayerCount { line: u32 },
    /// A layer has too many bytes.
    LayerBytes,
    /// Memory ran out after this many commands.
    NoMemory { done: u32 },
    /// The keeper failed after this many commands.
    KeeperFailed { done: u32 },
}

fn text_line(text: &str) -> LedgerLine
    requires { length text.now ≤ LINE_ROOM }
    ensures { result.bytes ≡ text.now }
{
    let mut line = LedgerLine::new();
    line.push_str(text);
    line
}

fn line_with_number(before: &str, number: u64, behind: &str) -> LedgerLine
    requires { length before.now + (20 + length behind.now) ≤ LINE_ROOM }
    ensures { result.bytes ≡ before.now ++ decimal number ++ behind.now }
{
    let mut digits = Buffer::new();
    let mut line = LedgerLine::new();
    line.push_str(before);
    line.push_str(digits.format(number));
    line.push_str(behind);
    line
}

fn line_with_numbers(
    before: &str,
    first: u64,
    between: &str,
    second: u64,
    behind: &str,
) -> LedgerLine
    requires { length before.now + (20 + (length between.now + (20 + length behind.now))) ≤ LINE_ROOM }
    ensures { result.bytes ≡ before.now ++ decimal first ++ between.now ++ decimal second ++ behind.now }
{
    let mut first_digits = Buffer::new();
    let mut second_digits = Buffer::new();
    let mut line = LedgerLine::new();
    line.push_str(before);
    line.push_str(first_digits.format(first));
    line.push_str(between);
    line.push_str(second_digits.format(second));
    line.push_str(behind);
    line
}

impl LedgerRefusal {
    /// How the run ends.
    pub fn status(self) -> LedgerStatus
        ensures { result ≡ status_of self }
    {
        match self {
            LedgerRefusal::Words => LedgerStatus::Words,
            LedgerRefusal::ScriptUnread => LedgerStatus::Read,
            LedgerRefusal::ScriptBytes => LedgerStatus::Limit,
            LedgerRefusal::ScriptLines => LedgerStatus::Limit,
            LedgerRefusal::BadLine { .. } => LedgerStatus::Script,
            LedgerRefusal::FileUnread { .. } => LedgerStatus::Read,
            LedgerRefusal::ReportBytes => LedgerStatus::Limit,
            LedgerRefusal::BadReport { .. } => LedgerStatus::Report,
            LedgerRefusal::LayerCount { .. } => LedgerStatus::Report,
            LedgerRefusal::LayerBytes => LedgerStatus::Limit,
            LedgerRefusal::NoMemory { .. } => LedgerStatus::Memory,
            LedgerRefusal::KeeperFailed { .. } => LedgerStatus::Keeper,
        }
    }

    /// The line that says it.
    pub(crate) fn line(self) -> LedgerLine
        ensures { result.bytes ≡ line_of self }
    {
        match self {
            LedgerRefusal::Words => text_line("words: not understood\n"),
            LedgerRefusal::ScriptUnread => text_line("read fault: script\n"),
            LedgerRefusal::ScriptBytes => text_line("limit: bytes of script\n"),
            LedgerRefusal::ScriptLines => text_line("limit: lines of script\n"),
            LedgerRefusal::BadLine { line } => line_with_number(
                "script: bad at line ",
                u64::from(line),
                "\n",
            ),
            LedgerRefusal::FileUnread { line } => line_with_number(
                "read fault: line ",
                u64::from(line),
                "\n",
            ),
            LedgerRefusal::ReportBytes => text_line("limit: bytes of reports\n"),
            LedgerRefusal::BadReport { line, bad } => line_with_numbers(
                "report of line ",
                u64::from(line),
                ": bad at line ",
                bad,
                "\n",
            ),
            LedgerRefusal::LayerCount { line } => line_with_number(
                "report of line ",
                u64::from(line),
                ": layers\n",
            ),
            LedgerRefusal::LayerBytes => text_line("limit: bytes of layers\n"),
            LedgerRefusal::NoMemory { done } => line_with_number(
                "stopped: no memory after ",
                u64::from(done),
                " commands\n",
            ),
            LedgerRefusal::KeeperFailed { done } => line_with_number(
                "stopped: keeper fault after ",
                u64::from(done),
                " commands\n",
            ),
        }
    }
}
