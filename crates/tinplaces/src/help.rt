//! What the program says of itself where the words ask for that alone.

ghost use Rattle.std.specs.Prelude.{◌≡◌, ◌↔◌, ◌∷◌, [], Option, Some, map, string_bytes};
ghost use Rattle.tinplaces.specs.Help.{Asks, text_of};
ghost use Rattle.tinplaces.specs.declared.help.PlacesHelp.{PlacesHelp};

/// One line for standard error, without its line feed, where the words are not understood.
pub const USAGE: &str =
    "usage: tinplaces --tin FILE [OPTION]... LAYER... ('tinplaces --help' explains them)";

/// Such a line of words that ask for faults.
pub const FAULTS_USAGE: &str =
    "usage: tinplaces --tin FILE --faults [OPTION]... ('tinplaces --help' explains them)";

/// The text of the help.
pub const WHOLE: &str = "\
tinplaces 0.1.0: puts the changes of a migration on the map

usage: tinplaces --tin FILE [--inverse] [--exact] [--inside-only] [--drop-other]
                 [--lines] [--across] [--sides] [--name MEMBER] LAYER...
       tinplaces --tin FILE --faults [--exact] [--inside-only] [--lines]

Carries each layer as 'tinmove migrate' does, writes no layer, and prints GeoJSON:
one feature for each pair of pieces that touch, cross or overlap in another way
than before. It is a point, in metres: of the four written ends the one that is
nearest to the other segment. Its properties are the number of the change, both
relations, the distance of the two segments in whole millimetres, and for each
side the layer (null where its name has more than 255 bytes: the member 'layers'
has the names of all), the place as the report names it, the byte at which the path
begins (in a drawing the line), and its feature: in GeoJSON the number from 0 ('null'
for a geometry that is in no feature), in a drawing the handle of the entity as a
text, or the line at which an entity without one begins, in WKT the line at which the
path begins, from 1. Then the feature's id as the layer has it, or 'null', and with
--name the value of that member of its properties, or 'null'. With --sides one feature
for each point that is on another side of a ring follows, at the written point, and
one for each ring that turned, at its first vertex: the number of the side, what was
and is, and for the ring and the point what is said of the sides of a change.

With --faults prints all faults of the triangulation, which need not be sound: a
feature for each triangle that is flat or turns over in a frame, and for each two
that do not fit together there. It is a point at that corner of the first triangle
whose vertex row is the first, or with --lines the outlines of the triangles. Its
properties are the number of the fault, its kind, the frame, and for each triangle
its row, its vertex rows (without those that repeat an earlier one) and its corners.

options:
  --tin FILE     the triangulation, a tinshift file of format 1.0 or 1.1
  --inverse      carry from the target frame to the source frame
  --exact        refuse a number that would lose digits past the millimetre
  --inside-only  take a file with a fallback, and do not apply that
  --drop-other   leave out entities of a drawing of kinds that cannot be carried
  --faults       print all faults of the triangulation; LAYER is left out then
  --lines        draw the two written segments, or the outlines, and no point
  --across       leave out changes of two pieces of one layer, and sides whose ring and
                 point are of one layer; so also rings that turned
  --name MEMBER  print that member of the properties of both features
  --cert         is understood and changes nothing, since no layer is written
  --sides        print points that changed their side of a ring, and rings that turned, too
  -h, --help     this text
  -V, --version  the version

LAYER ends in .wkt, .geojson, .json or .dxf. Several may have the same file name in
different folders.

exit status:
  0  the text has no feature
  1  the text has at least one feature
  2  the words are not understood
  3  the triangulation is refused
  4  a layer is refused
  5  a segment of a layer is not wholly inside the triangulation
  6  a file could not be read
  7  the text could not be written
  8  memory ran out
  9  a limit is passed

examples:
  tinplaces --tin fineltra.json parcels.geojson roads.wkt > places.geojson
  tinplaces --tin fineltra.json --faults > faults.geojson
";

/// The line of the version.
pub const VERSION: &str = "tinplaces 0.1.0\n";

/// What the words ask the program to say of itself.
#[derive(Clone, Copy, Debug, PartialEq, Eq)]
pub enum PlacesHelp {
    /// What it does, its options and its exit statuses.
    Whole,
    /// The version.
    Version,
}

impl PlacesHelp {
    /// What is printed on standard output, with its last line feed.
    pub fn text(self) -> &'static str
        ensures { result.now ≡ text_of self }
    {
        match self {
            PlacesHelp::Whole => WHOLE,
            PlacesHelp::Version => VERSION,
        }
    }
}

/// What a word alone asks for.
fn help_of_word(word: &str) -> Option<PlacesHelp>
    ensures { (help : PlacesHelp) → (result ≡ Some help) ↔ Asks (word.now ∷ []) help }
{
    match word {
        "--help" | "-h" | "help" => Some(PlacesHelp::Whole),
        "--version" | "-V" => Some(PlacesHelp::Version),
        _ => None,
    }
}

/// What the words ask the program to say of itself, where they ask for that and for nothing else.
pub fn help_of(words: &[String]) -> Option<PlacesHelp>
    ensures { (help : PlacesHelp) → (result ≡ Some help) ↔ Asks (map string_bytes words.now) help }
{
    match words {
        [word] => help_of_word(word.as_str()),
        _ => None,
    }
}
