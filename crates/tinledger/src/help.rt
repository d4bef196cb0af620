//! What the program says of itself where the words ask for that alone.

ghost use Rattle.std.specs.Prelude.{◌≡◌, ◌↔◌, ◌∷◌, [], Option, Some, map, string_bytes};
ghost use Rattle.tinledger.specs.Help.{Asks, text_of};
ghost use Rattle.tinledger.specs.declared.help.LedgerHelp.{LedgerHelp};

/// One line for standard error, without its line feed, where the words are not understood.
pub const USAGE: &str = "usage: tinledger DB SCRIPT ('tinledger --help' explains them)";

/// The text of the help.
pub const WHOLE: &str = "\
tinledger 0.1.0: keeps decisions on the changes of migrations

usage: tinledger DB SCRIPT

Obeys the lines of the file SCRIPT over the sqlite database DB, which is made
where it is missing, and prints a reply to each on standard output. All files
that the script names are read before its first line is obeyed.

lines of a script, each with its reply:
  enter REPORT LAYER...        enter the run of a report and of the layers that
                               it wrote: entered R pairs N, known R, or full
  decide RUN PLACE kept        decide on a pair: decided, or settled kept,
  decide RUN PLACE mended      settled mended, no run, no pair
  list RUN                     its undecided pairs: listed N and a line for
                               each, or no run
  clear RUN                    clear, waiting PLACE, or no run

options:
  -h, --help     this text
  -V, --version  the version

exit status:
  0   every line was obeyed
  2   the words are not understood
  3   a line of the script is none of those above
  4   what a line names as its report is none, or has another number of layers
  6   a file could not be read
  7   standard output could not be written
  8   memory ran out
  9   a limit is passed
  10  the database failed

example:
  tinledger campaign.db script.txt
";

/// The line of the version.
pub const VERSION: &str = "tinledger 0.1.0\n";

/// What the words ask the program to say of itself.
#[derive(Clone, Copy, Debug, PartialEq, Eq)]
pub enum LedgerHelp {
    /// What it does, its options and its exit statuses.
    Whole,
    /// The version.
    Version,
}

impl LedgerHelp {
    /// What is printed on standard output, with its last line feed.
    pub fn text(self) -> &'static str
        ensures { result.now ≡ text_of self }
    {
        match self {
            LedgerHelp::Whole => WHOLE,
            LedgerHelp::Version => VERSION,
        }
    }
}

/// What a word alone asks for.
fn help_of_word(word: &str) -> Option<LedgerHelp>
    ensures { (help : LedgerHelp) → (result ≡ Some help) ↔ Asks (word.now ∷ []) help }
{
    match word {
        "--help" | "-h" | "help" => Some(LedgerHelp::Whole),
        "--version" | "-V" => Some(LedgerHelp::Version),
        _ => None,
    }
}

/// What the words ask the program to say of itself, where they ask for that and for nothing else.
pub fn help_of(words: &[String]) -> Option<LedgerHelp>
    ensures { (help : LedgerHelp) → (result ≡ Some help) ↔ Asks (map string_bytes words.now) help }
{
    match words {
        [word] => help_of_word(word.as_str()),
        _ => None,
    }
}
