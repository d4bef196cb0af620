//! Which words are answered with a text of the program's own, and with which.

use help_texts::{Help, USAGE, help_of, usage_of};
use std::alloc::{AllocError, Global};
use std::test::Fail;

/// The words as the program takes them.
fn words_of(alloc: Global, texts: &[&str]) -> Result<Vec<String>, AllocError> {
    let mut words = Vec::new(alloc);
    for text in texts {
        words.push(String::from_str(alloc, text)?)?;
    }
    Ok(words)
}

/// Words, and the help that they ask for.
type Row = (&'static [&'static str], Option<Help>);

/// The number of the first row with another answer, or none.
fn first_other(alloc: Global, rows: &[Row]) -> Result<Option<usize>, AllocError> {
    for (number, &(texts, help)) in rows.iter().enumerate() {
        let words = words_of(alloc, texts)?;
        if help_of(&words) != help {
            return Ok(Some(number));
        }
    }
    Ok(None)
}

const ASKED: &[Row] = &[
    (&["--help"], Some(Help::Whole)),
    (&["-h"], Some(Help::Whole)),
    (&["help"], Some(Help::Whole)),
    (&["--version"], Some(Help::Version)),
    (&["-V"], Some(Help::Version)),
    (&["migrate", "--help"], Some(Help::Migrate)),
    (&["migrate", "-h"], Some(Help::Migrate)),
    (&["check", "--help"], Some(Help::Check)),
    (&["check", "-h"], Some(Help::Check)),
    (&["make", "--help"], Some(Help::Make)),
    (&["make", "-h"], Some(Help::Make)),
    (&["verify", "--help"], Some(Help::Verify)),
    (&["verify", "-h"], Some(Help::Verify)),
    (&["heights", "--help"], Some(Help::Heights)),
    (&["heights", "-h"], Some(Help::Heights)),
];

#[test]
fn words_that_ask_for_help_get_it(rt: HostRuntime) {
    assert_eq!(rt; first_other(rt.alloc(), ASKED), Ok(None));
}

const LEFT: &[Row] = &[
    (&[], None),
    (&[""], None),
    (&["-H"], None),
    (&["--Help"], None),
    (&["--help "], None),
    (&["-v"], None),
    (&["version"], None),
    (&["migrate"], None),
    (&["make", "1"], None),
    (&["help", "migrate"], None),
    (&["migrate", "help"], None),
    (&["migrate", "--version"], None),
    (&["make", "-V"], None),
    (&["--help", "--help"], None),
    (&["--help", "make"], None),
    (&["Make", "--help"], None),
    (&["help", "--help"], None),
    (&["check", "--help", "-h"], None),
    (&["check", "--tin", "t.json", "--help"], None),
];

#[test]
fn other_words_are_left_to_the_run(rt: HostRuntime) {
    assert_eq!(rt; first_other(rt.alloc(), LEFT), Ok(None));
}

#[test]
fn the_version_is_named(rt: HostRuntime) {
    assert_eq!(rt; Help::Version.text(), "tinmove 0.1.0\n");
}

/// Helps, and what each names.
const PARTS: &[(Help, &[&str])] = &[
    (
        Help::Whole,
        &[
            "tinmove migrate --tin FILE --out FOLDER [--inverse] [--exact] [--inside-only]\n",
            "[--drop-other] [--cert] [--sides] LAYER...\n",
            "tinmove check --tin FILE [--exact] [--inside-only]\n",
            "tinmove make N\n",
            "tinmove verify --tin FILE --source LAYER --written FILE --cert FILE [--inverse]\n",
            "tinmove heights --tin FILE --out FOLDER [--exact] [--inside-only] POINTS\n",
            "  --inverse ",
            "  --exact ",
            "  --inside-only ",
            "  --drop-other ",
            "  --cert ",
            "  --sides ",
            "  0  ",
            "  1  ",
            "  2  ",
            "  3  ",
            "  4  ",
            "  5  ",
            "  6  ",
            "  7  ",
            "  8  ",
            "  9  ",
            "  10 ",
        ],
    ),
    (Help::Migrate, &["  --drop-other "]),
    (
        Help::Check,
        &["tinmove check --tin FILE [--exact] [--inside-only]\n"],
    ),
    (Help::Make, &["N is from 1 to 512."]),
    (
        Help::Heights,
        &[
            "tinmove heights --tin FILE --out FOLDER [--exact] [--inside-only] POINTS\n",
            "x y z in metres",
        ],
    ),
];

/// The first of the parts that the text lacks, or none.
fn first_lacking(text: &str, parts: &[&'static str]) -> Option<&'static str> {
    for &part in parts {
        if !text.contains(part) {
            return Some(part);
        }
    }
    None
}

/// The first part that a help lacks, or none.
fn first_unnamed(rows: &[(Help, &[&'static str])]) -> Option<&'static str> {
    for &(help, parts) in rows {
        if let Some(part) = first_lacking(help.text(), parts) {
            return Some(part);
        }
    }
    None
}

#[test]
fn the_texts_name_what_there_is(rt: HostRuntime) {
    assert_eq!(rt; first_unnamed(PARTS), None);
}

#[test]
fn the_usage_is_one_line(rt: HostRuntime) {
    assert!(rt; USAGE.starts_with("usage: tinmove ") && !USAGE.contains("\n"));
}

#[test]
fn the_usage_is_that_of_the_mode(rt: HostRuntime) -> Result<(), Fail> {
    for (texts, usage) in [
        (
            [].as_slice(),
            "usage: tinmove migrate|check|make|verify|heights ARGUMENT... ('tinmove --help' explains them)",
        ),
        (
            &["Check"],
            "usage: tinmove migrate|check|make|verify|heights ARGUMENT... ('tinmove --help' explains them)",
        ),
        (
            &["migrate", "a"],
            "usage: tinmove migrate --tin FILE --out FOLDER [--inverse] [--exact] [--inside-only]
                       [--drop-other] [--cert] [--sides] LAYER...",
        ),
        (
            &["check"],
            "usage: tinmove check --tin FILE [--exact] [--inside-only]",
        ),
        (&["make", "0"], "usage: tinmove make N"),
        (
            &["heights", "list"],
            "usage: tinmove heights --tin FILE --out FOLDER [--exact] [--inside-only] POINTS",
        ),
    ] {
        let words = words_of(rt.alloc(), texts)?;
        assert_eq!(rt; usage_of(&words), usage, "at {texts:?}");
    }
    Ok(())
}
