//! Laws of the definitions.

ghost use Rattle.std.specs.Prelude.{◌≡◌, codes};
ghost use Rattle.dxf_pairs.specs.CodeLines.{ValuesAreBetweenBlanks, CodesAreWholeNumbers};
ghost use Rattle.dxf_pairs.specs.InLines.{GroupsFollow, PairsAreInLines};
ghost use Rattle.dxf_pairs.specs.Laws.{LinesFollow, PairsTile, PairsAreWithin, PairsAreTheGroups};
ghost use Rattle.dxf_pairs.specs.declared.codes.TheConstants.{MOST_CODE};
ghost use Rattle.dxf_pairs.specs.declared.line_ends.TheConstants.{LINE_FEED};
ghost use Rattle.dxf_pairs.specs.declared.pair_lists.TheConstants.{BINARY, LAST_VALUE};

/// The pairs of a drawing follow one another without a gap, from the first byte on: each
/// starts where the one before it ends, two lines further on. Each value lies in its pair, and each
/// pair in the bytes.
pub fn pairs_tile()
    ensures tile { PairsTile }
    ensures within { PairsAreWithin }
{}

/// The group codes of a drawing's pairs, each with the bytes of its value, are the groups that its
/// lines are without regard to places.
pub fn pairs_are_the_groups()
    ensures { PairsAreTheGroups }
{}

/// A line's value is the one that is on it between blanks, and its group code the whole number
/// of at most `MOST_CODE` either way that is on it so: an optional sign and digits.
pub fn codes_are_whole_numbers()
    ensures values { ValuesAreBetweenBlanks }
    ensures codes { CodesAreWholeNumbers }
{}

/// The lines of a text that goes on after a line feed are those up to it and those after it, so an
/// edit of whole lines edits the list of lines.
pub fn lines_follow()
    ensures { LinesFollow }
{}

/// Each pair of a drawing but the last is two lines of the bytes, with its value between blanks on
/// the second, and the last ends the drawing. With another value in its place, such a pair in front
/// of a text is that group in front of the groups of the text.
pub fn pairs_are_in_lines()
    ensures stand { PairsAreInLines }
    ensures follow { GroupsFollow }
{}

/// Laws: the greatest group code, the byte that ends a line, what the binary form begins with and
/// the value that ends a drawing are these.
pub fn limits_are_stated()
    ensures code { MOST_CODE ≡ 9999 }
    ensures line_feed { LINE_FEED ≡ 10 }
    ensures binary { BINARY.now ≡ codes "AutoCAD Binary DXF" }
    ensures last { LAST_VALUE.now ≡ codes "EOF" }
{}
