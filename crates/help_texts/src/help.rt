//! What the program says of itself where the words ask for that alone.

ghost use Rattle.std.specs.Prelude.{◌≡◌, ◌↔◌, ◌⊎◌, ◌∷◌, [], codes, Option, Some, IsTrue, map, string_bytes};
ghost use Rattle.help_texts.specs.Help.{Asks, IsTextFor, IsFirstPart, IsUsageFor, text_of};
ghost use Rattle.help_texts.specs.declared.help.Help.{Help};

/// One line for standard error, without its line feed, where the words name no mode.
pub const USAGE: &str =
    "usage: tinmove migrate|check|make|verify|heights ARGUMENT... ('tinmove --help' explains them)";

/// The text on the mode that the first of the words names, or one line on all modes.
fn text_for(words: &[String]) -> &'static str
    ensures { IsTextFor (map string_bytes words.now) result.now }
{
    match words {
        [] => USAGE,
        [mode, ..] => match help_of_mode(mode.as_str()) {
            Some(help) => help.text(),
            None => USAGE,
        },
    }
}

/// The text up to its first blank line, or all of it where it has none.
fn first_part(text: &'static str) -> &'static str
    ensures { IsFirstPart text.now result.now }
{
    match text.split_once("\n\n") {
        Some((part, _)) => part,
        None => text,
    }
}

/// How the words of the mode are used, which the first of the words names; without its last line feed.
pub fn usage_of(words: &[String]) -> &'static str
    ensures { IsUsageFor (map string_bytes words.now) result.now }
{
    first_part(text_for(words))
}

/// The text of the help over all modes.
pub const WHOLE: &str = "\
tinmove 0.1.0: carries map layers through a triangulation known in two plane frames

usage: tinmove migrate --tin FILE --out FOLDER [--inverse] [--exact] [--inside-only]
                       [--drop-other] [--cert] [--sides] LAYER...
       tinmove check --tin FILE [--exact] [--inside-only]
       tinmove make N
       tinmove verify --tin FILE --source LAYER --written FILE --cert FILE [--inverse]
                      [--exact] [--inside-only] [--drop-other]
       tinmove heights --tin FILE --out FOLDER [--exact] [--inside-only] POINTS
       tinmove help
       tinmove --version

modes:
  migrate  carry layers from the source frame to the target frame
  check    read a triangulation, and say whether it is sound
  make     carry a made layer through a made triangulation of N by N cells
  verify   say whether a written layer is that of its source, by its certificate
  heights  move points with heights through a triangulation that moves heights

options:
  --tin FILE     the triangulation, a tinshift file of format 1.0 or 1.1
  --out FOLDER   where the carried layers are written, each under its own name
  --inverse      carry from the target frame to the source frame
  --exact        refuse a number that would lose digits past the millimetre
  --inside-only  take a file with a fallback, and do not apply that
  --drop-other   leave out entities of a drawing of kinds that cannot be carried
  --cert         write a certificate beside each carried layer
  --sides        list points that change their side of a ring, and rings that turn
  --source LAYER, --written FILE, --cert FILE
                 the layer that was carried, as it was written, and its certificate
  -h, --help     this text; behind a mode, the text of that mode
  -V, --version  the version

LAYER ends in .wkt, .geojson, .json or .dxf. POINTS has lines of three numbers.
The report goes to standard output.

exit status:
  0  all is written and nothing changed; or the triangulation is sound;
     or the written layer is certified; or the points are written
  1  all is written, and at least one change or side is listed
  2  the words are not understood
  3  the triangulation is refused
  4  a layer is refused
  5  a segment of a layer, or a point, is not wholly inside the triangulation
  6  a file could not be read
  7  a file could not be written
  8  memory ran out
  9  a limit is passed
  10 the written layer is not certified

example:
  tinmove migrate --tin fineltra.json --out lv95 parcels.geojson roads.wkt
";

/// The text of the help of `migrate`.
pub const MIGRATE: &str = "\
usage: tinmove migrate --tin FILE --out FOLDER [--inverse] [--exact] [--inside-only]
                       [--drop-other] [--cert] [--sides] LAYER...

Carries each layer from the source frame to the target frame of a triangulation,
writes it to FOLDER under its own name, and prints a report. Segments are split
where they cross an edge, and points are rounded to the millimetre. The report
lists the pairs of pieces that touch, cross or overlap in another way than
before. A layer in FOLDER itself is overwritten.

options:
  --tin FILE     the triangulation, a tinshift file of format 1.0 or 1.1
  --out FOLDER   where the carried layers are written
  --inverse      carry from the target frame to the source frame
  --exact        refuse a number that would lose digits past the millimetre
  --inside-only  take a file with a fallback, and do not apply that
  --drop-other   leave out entities of a drawing of kinds that cannot be carried
  --cert         write a certificate beside each layer, under its name and .cert;
                 'tinmove verify' reads it
  --sides        list points that change their side of a ring, and rings that turn:
                 from the border to the outside, say, or counterclockwise to clockwise
  -h, --help     this text

LAYER ends in .wkt, .geojson, .json or .dxf.

example:
  tinmove migrate --tin fineltra.json --out lv95 parcels.geojson roads.wkt
";

/// The text of the help of `check`.
pub const CHECK: &str = "\
usage: tinmove check --tin FILE [--exact] [--inside-only]

Reads a triangulation and prints one line: that it is sound in both frames, or
why it is refused.

options:
  --tin FILE     the triangulation, a tinshift file of format 1.0 or 1.1
  --exact        refuse a number that would lose digits past the millimetre
  --inside-only  take a file with a fallback, and do not apply that
  -h, --help     this text

example:
  tinmove check --tin fineltra.json
";

/// The text of the help of `make`.
pub const MAKE: &str = "\
usage: tinmove make N

Makes a triangulation of N by N square cells and a layer of N lines, carries the
layer through it in memory, and prints the report. N is from 1 to 512.

options:
  -h, --help  this text

example:
  tinmove make 64
";

/// The text of the help of `verify`.
pub const VERIFY: &str = "\
usage: tinmove verify --tin FILE --source LAYER --written FILE --cert FILE [--inverse]
                      [--exact] [--inside-only] [--drop-other]

Reads a layer, the same layer as 'tinmove migrate --cert' wrote it, and the
certificate beside that. Prints one line: that each segment of the source is inside
the triangulation and the written layer is the carried one, byte for byte; or why
not. It looks for no triangle: the certificate names those of each segment.

options:
  --tin FILE      the triangulation, a tinshift file of format 1.0 or 1.1
  --source LAYER  the layer that was carried; its end says the format
  --written FILE  the layer as it was written
  --cert FILE     the certificate
  --inverse, --exact, --inside-only, --drop-other
                  as the layer was carried
  -h, --help      this text

example:
  tinmove verify --tin fineltra.json --source roads.wkt --written lv95/roads.wkt \\
                 --cert lv95/roads.wkt.cert
";

/// The text of the help of `heights`.
pub const HEIGHTS: &str = "\
usage: tinmove heights --tin FILE --out FOLDER [--exact] [--inside-only] POINTS

Moves points with heights through a triangulation that transforms heights, writes
them to FOLDER under the name of the list, and prints one line. Each line of the
list is three numbers, x y z in metres, or blanks alone. A point's height is raised
by the mix of the offsets of its triangle's corners, and rounded to the millimetre.
Where the triangulation transforms horizontal coordinates too, x and y are carried;
else they stay.

options:
  --tin FILE     the triangulation, a tinshift file of format 1.0 or 1.1 whose
                 transformed_components have vertical
  --out FOLDER   where the moved points are written
  --exact        refuse a number that would lose digits past the millimetre
  --inside-only  take a file with a fallback, and do not apply that
  -h, --help     this text

example:
  tinmove heights --tin heights.json --out ln02 benchmarks.txt
";

/// The line of the version.
pub const VERSION: &str = "tinmove 0.1.0\n";

/// What the words ask the program to say of itself.
#[derive(Clone, Copy, Debug, PartialEq, Eq)]
pub enum Help {
    /// All modes, options and exit statuses.
    Whole,
    /// How a layer is carried.
    Migrate,
    /// How a triangulation is checked.
    Check,
    /// How the made example is run.
    Make,
    /// How a written layer is verified.
    Verify,
    /// How points with heights are moved.
    Heights,
    /// The version.
    Version,
}

impl Help {
    /// What is printed on standard output, with its last line feed.
    pub fn text(self) -> &'static str
        ensures { result.now ≡ text_of self }
    {
        match self {
            Help::Whole => WHOLE,
            Help::Migrate => MIGRATE,
            Help::Check => CHECK,
            Help::Make => MAKE,
            Help::Verify => VERIFY,
            Help::Heights => HEIGHTS,
            Help::Version => VERSION,
        }
    }
}

/// Whether the word after a mode asks for help.
fn is_help_option(word: &str) -> bool
    ensures { IsTrue result ↔ ((word.now ≡ codes "--help") ⊎ (word.now ≡ codes "-h")) }
{
    word == "--help" || word == "-h"
}

/// What a word alone asks for.
fn help_of_word(word: &str) -> Option<Help>
    ensures { (help : Help) → (result ≡ Some help) ↔ Asks (word.now ∷ []) help }
{
    match word {
        "--help" | "-h" | "help" => Some(Help::Whole),
        "--version" | "-V" => Some(Help::Version),
        _ => None,
    }
}

/// What the help of this mode is, where it is one.
fn help_of_mode(mode: &str) -> Option<Help>
    ensures long { (help : Help) → (result ≡ Some help) ↔ Asks (mode.now ∷ codes "--help" ∷ []) help }
    ensures short { (help : Help) → (result ≡ Some help) ↔ Asks (mode.now ∷ codes "-h" ∷ []) help }
{
    match mode {
        "migrate" => Some(Help::Migrate),
        "check" => Some(Help::Check),
        "make" => Some(Help::Make),
        "verify" => Some(Help::Verify),
        "heights" => Some(Help::Heights),
        _ => None,
    }
}

/// What the words ask the program to say of itself, where they ask for that and for nothing else.
pub fn help_of(words: &[String]) -> Option<Help>
    ensures { (help : Help) → (result ≡ Some help) ↔ Asks (map string_bytes words.now) help }
{
    match words {
        [word] => help_of_word(word.as_str()),
        [mode, word] if is_help_option(word.as_str()) => help_of_mode(mode.as_str()),
        _ => None,
    }
}
