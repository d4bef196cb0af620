//! Which word of a command line is named where the words are refused.

use crate::memory_runs::words_of;
use job_words::{Which, WordsFault, read_words};
use place_runs::read_request;
use remarks::WordFlaw;
use run_notes::flaw_of;
use std::alloc::{AllocError, Global};

/// Words that are refused, why, what is wrong, and with which word.
type Row = (&'static [&'static str], WordsFault, WordFlaw, &'static str);

const REFUSED: &[Row] = &[
    (&[], WordsFault::NoMode, WordFlaw::NoMode, ""),
    (&["Make", "3"], WordsFault::NoMode, WordFlaw::Mode, "Make"),
    (
        &["check"],
        WordsFault::Parse,
        WordFlaw::Missing,
        "--tin FILE",
    ),
    (&["make"], WordsFault::Parse, WordFlaw::Missing, "N"),
    (
        &["make", "1", "2"],
        WordsFault::Parse,
        WordFlaw::TooMany,
        "2",
    ),
    (&["make", "-1"], WordsFault::Parse, WordFlaw::Unknown, "-1"),
    (
        &["heights", "--tin", "t", "--out", "o"],
        WordsFault::Parse,
        WordFlaw::Missing,
        "POINTS",
    ),
    (
        &["heights", "--tin", "t", "a"],
        WordsFault::Parse,
        WordFlaw::Missing,
        "--out FOLDER",
    ),
    (
        &["heights", "--tin", "t", "--out", "o", "a", "b"],
        WordsFault::Parse,
        WordFlaw::TooMany,
        "b",
    ),
    (
        &["heights", "--tin", "t", "--out", "o", "a", "--inverse"],
        WordsFault::Parse,
        WordFlaw::Unknown,
        "--inverse",
    ),
    (
        &["make", "0"],
        WordsFault::Size,
        WordFlaw::Refused(WordsFault::Size),
        "0",
    ),
    (
        &["check", "--tin"],
        WordsFault::Parse,
        WordFlaw::NoValue,
        "--tin",
    ),
    (
        &["check", "--tin", "--exact"],
        WordsFault::Parse,
        WordFlaw::NoValue,
        "--tin",
    ),
    (
        &["check", "--tin", "t", "u"],
        WordsFault::Parse,
        WordFlaw::TooMany,
        "u",
    ),
    (
        &["check", "--tin", "t", "--inverse"],
        WordsFault::Parse,
        WordFlaw::Unknown,
        "--inverse",
    ),
    (
        &["check", "--tin", "t", "--tin=u"],
        WordsFault::Parse,
        WordFlaw::Twice,
        "--tin",
    ),
    (
        &["check", "--exact", "--exact", "--tin", "t"],
        WordsFault::Parse,
        WordFlaw::Twice,
        "--exact",
    ),
    (
        &["check", "--exact=1", "--tin", "t"],
        WordsFault::Parse,
        WordFlaw::Unknown,
        "--exact=1",
    ),
    (
        &["migrate", "--tin", "t", "a.wkt"],
        WordsFault::Parse,
        WordFlaw::Missing,
        "--out FOLDER",
    ),
    (
        &["migrate", "--out", "o", "a.wkt"],
        WordsFault::Parse,
        WordFlaw::Missing,
        "--tin FILE",
    ),
    (
        &["migrate", "--tin", "t", "--out", "o"],
        WordsFault::Parse,
        WordFlaw::Missing,
        "LAYER",
    ),
    (
        &["migrate", "--tni", "t", "--out", "o", "a.wkt"],
        WordsFault::Parse,
        WordFlaw::Unknown,
        "--tni",
    ),
    (
        &[
            "migrate", "--tin", "t", "--out", "o", "a.wkt", "--exact", "b.shp",
        ],
        WordsFault::Suffix { layer: 1 },
        WordFlaw::Refused(WordsFault::Suffix { layer: 1 }),
        "b.shp",
    ),
    (
        &[
            "verify",
            "--tin",
            "t",
            "--written",
            "o/a.wkt",
            "--cert",
            "o/a.wkt.cert",
            "--source",
            "a.shp",
        ],
        WordsFault::Suffix { layer: 0 },
        WordFlaw::Refused(WordsFault::Suffix { layer: 0 }),
        "a.shp",
    ),
    (
        &[
            "migrate", "--tin", "t", "--out", "o", "x/a.wkt", "--", "y/a.wkt",
        ],
        WordsFault::SameName { layer: 1 },
        WordFlaw::Refused(WordsFault::SameName { layer: 1 }),
        "y/a.wkt",
    ),
    (
        &["migrate", "--tin=", "--out", "o", "a.wkt"],
        WordsFault::Name { which: Which::Tin },
        WordFlaw::Refused(WordsFault::Name { which: Which::Tin }),
        "",
    ),
    (
        &["migrate", "--tin", "t", "--out", "o\n", "a.wkt"],
        WordsFault::Name { which: Which::Out },
        WordFlaw::Refused(WordsFault::Name { which: Which::Out }),
        "o\n",
    ),
];

/// Why the words are refused, as words of `tinmove`, with a mode, or as those of the program that puts changes on the
/// map.
fn fault_of(alloc: Global, words: &[String], has_modes: bool) -> Option<WordsFault> {
    if has_modes {
        read_words(alloc, words).err()
    } else {
        read_request(alloc, words).err()
    }
}

/// Whether these words are refused so, and this is found wrong.
fn is_named(alloc: Global, has_modes: bool, row: &Row) -> Result<bool, AllocError> {
    let words = words_of(alloc, row.0)?;
    if fault_of(alloc, &words, has_modes) != Some(row.1) {
        return Ok(false);
    }
    Ok(flaw_of(alloc, &words, has_modes, row.1)? == Some((row.2, row.3)))
}

/// The number of the first row for which something else is found, or none.
fn first_other(alloc: Global, has_modes: bool, rows: &[Row]) -> Result<Option<usize>, AllocError> {
    for (number, row) in rows.iter().enumerate() {
        if !is_named(alloc, has_modes, row)? {
            return Ok(Some(number));
        }
    }
    Ok(None)
}

#[test]
fn the_word_that_is_wrong_or_missing_is_named(rt: HostRuntime) {
    assert_eq!(rt; first_other(rt.alloc(), true, REFUSED), Ok(None));
}

/// Words of the program that puts changes on the map.
const REFUSED_PLACES: &[Row] = &[
    (&[], WordsFault::Parse, WordFlaw::Missing, "--tin FILE"),
    (
        &["--tin", "t"],
        WordsFault::Parse,
        WordFlaw::Missing,
        "LAYER",
    ),
    (
        &["--tin", "t", "--out", "o", "a.wkt"],
        WordsFault::Parse,
        WordFlaw::Unknown,
        "--out",
    ),
    (
        &["--tin", "t", "a.wkt", "--cert", "--cert"],
        WordsFault::Parse,
        WordFlaw::Twice,
        "--cert",
    ),
    (
        &["a.wkt", "--tin"],
        WordsFault::Parse,
        WordFlaw::NoValue,
        "--tin",
    ),
    (
        &["--tin=", "a.wkt"],
        WordsFault::Name { which: Which::Tin },
        WordFlaw::Refused(WordsFault::Name { which: Which::Tin }),
        "",
    ),
    (
        &["--tin", "t", "migrate", "a.wkt"],
        WordsFault::Suffix { layer: 0 },
        WordFlaw::Refused(WordsFault::Suffix { layer: 0 }),
        "migrate",
    ),
    (
        &["--tin", "t", "a.wkt", "--name"],
        WordsFault::Parse,
        WordFlaw::NoValue,
        "--name",
    ),
    (
        &["--name", "egrid", "--lines", "--tin", "t"],
        WordsFault::Parse,
        WordFlaw::Missing,
        "LAYER",
    ),
];

#[test]
fn the_word_that_is_wrong_or_missing_is_named_without_a_mode(rt: HostRuntime) {
    assert_eq!(rt; first_other(rt.alloc(), false, REFUSED_PLACES), Ok(None));
}
