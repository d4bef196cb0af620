//! Words, and the jobs or faults that they give.

use job_words::{Format, Job, Which, WordsFault, format_of, last_part, read_words};
use sheet_base::How;
use std::alloc::{AllocError, Global};

/// The words of a line, which are between single blanks.
fn words_of(alloc: Global, line: &str) -> Result<Vec<String>, AllocError> {
    let mut words = Vec::new(alloc);
    for word in line.split(' ') {
        words.push(word.to_string(alloc)?)?;
    }
    Ok(words)
}

/// How files are read, spelled as the flags that ask for it.
fn add_flags(text: &mut String, how: How, inverse: bool) -> Result<(), AllocError> {
    if inverse {
        text.push_str(" inverse")?;
    }
    if how.exact {
        text.push_str(" exact")?;
    }
    if how.inside_only {
        text.push_str(" inside-only")?;
    }
    if how.drop_other {
        text.push_str(" drop-other")?;
    }
    Ok(())
}

/// A job, spelled.
fn job_text(alloc: Global, job: &Job) -> Result<String, AllocError> {
    match job {
        Job::Migrate {
            tin,
            out,
            how,
            inverse,
            cert,
            sides,
            layers,
        } => {
            let (tin, out) = (tin.text(), out.text());
            let mut text = format!(in alloc; "migrate tin {tin} out {out}")?;
            add_flags(&mut text, *how, *inverse)?;
            if *cert {
                text.push_str(" cert")?;
            }
            if *sides {
                text.push_str(" sides")?;
            }
            for layer in layers.items() {
                text.push_str(" layer ")?;
                text.push_str(layer.text())?;
            }
            Ok(text)
        }
        Job::Check { tin, how } => {
            let tin = tin.text();
            let mut text = format!(in alloc; "check tin {tin}")?;
            add_flags(&mut text, *how, false)?;
            Ok(text)
        }
        Job::Make { n } => format!(in alloc; "make {n}"),
        Job::Verify {
            tin,
            source,
            written,
            cert,
            how,
            inverse,
        } => {
            let (tin, source) = (tin.text(), source.text());
            let (written, cert) = (written.text(), cert.text());
            let mut text = format!(in alloc; "verify tin {tin} source {source}")?;
            text.push_str(" written ")?;
            text.push_str(written)?;
            text.push_str(" cert ")?;
            text.push_str(cert)?;
            add_flags(&mut text, *how, *inverse)?;
            Ok(text)
        }
        Job::Heights {
            tin,
            out,
            how,
            points,
        } => {
            let (tin, out) = (tin.text(), out.text());
            let mut text = format!(in alloc; "heights tin {tin} out {out}")?;
            add_flags(&mut text, *how, false)?;
            text.push_str(" points ")?;
            text.push_str(points.text())?;
            Ok(text)
        }
    }
}

/// Words, and the job that they give.
const JOBS: &[(&str, &str)] = &[
    (
        "migrate --tin t --out o a.wkt",
        "migrate tin t out o layer a.wkt",
    ),
    (
        "migrate --tin=t.json a.wkt --out o",
        "migrate tin t.json out o layer a.wkt",
    ),
    (
        "migrate a.wkt --tin t x/b.JSON --exact --out=o c.dXf --drop-other d.GeoJSON --inverse --inside-only",
        "migrate tin t out o inverse exact inside-only drop-other layer a.wkt layer x/b.JSON layer c.dXf layer d.GeoJSON",
    ),
    (
        "migrate --tin t --out o -- --a.wkt -b.wkt --tin.wkt",
        "migrate tin t out o layer --a.wkt layer -b.wkt layer --tin.wkt",
    ),
    (
        "migrate --out t=o --tin=a=b .wkt x/A.wkt a.wkt",
        "migrate tin a=b out t=o layer .wkt layer x/A.wkt layer a.wkt",
    ),
    (
        "migrate --cert --tin t --out o a.wkt --exact",
        "migrate tin t out o exact cert layer a.wkt",
    ),
    (
        "migrate a.wkt --sides --tin t --out o --cert",
        "migrate tin t out o cert sides layer a.wkt",
    ),
    (
        "verify --tin t --source x/a.WKT --written=w --cert c --inverse",
        "verify tin t source x/a.WKT written w cert c inverse",
    ),
    (
        "verify --cert=- --drop-other --written o/a.dxf --source a.dxf --exact --tin t.json",
        "verify tin t.json source a.dxf written o/a.dxf cert - exact drop-other",
    ),
    (
        "heights --tin t --out o a.txt",
        "heights tin t out o points a.txt",
    ),
    (
        "heights x/list --inside-only --out=o --exact --tin=t.json",
        "heights tin t.json out o exact inside-only points x/list",
    ),
    (
        "heights --tin t --out o -- --tin",
        "heights tin t out o points --tin",
    ),
    ("check --tin t", "check tin t"),
    (
        "check --inside-only --tin=- --exact",
        "check tin - exact inside-only",
    ),
    ("make 1", "make 1"),
    ("make 512", "make 512"),
    ("make -- 40", "make 40"),
];

/// Whether the words of the line give the job that is spelled so.
fn gives(alloc: Global, line: &str, wanted: &str) -> Result<bool, AllocError> {
    let words = words_of(alloc, line)?;
    match read_words(alloc, &words) {
        Ok(job) => Ok(job_text(alloc, &job)?.as_str() == wanted),
        Err(_) => Ok(false),
    }
}

/// The first line that gives another job, or none.
fn first_other_job(
    alloc: Global,
    rows: &[(&'static str, &str)],
) -> Result<Option<&'static str>, AllocError> {
    for &(line, wanted) in rows {
        if !gives(alloc, line, wanted)? {
            return Ok(Some(line));
        }
    }
    Ok(None)
}

#[test]
fn words_give_jobs(rt: HostRuntime) {
    assert_eq!(rt; first_other_job(rt.alloc(), JOBS), Ok(None));
}

/// Four words each, which all have one fault.
const FAULTS: &[([&str; 4], WordsFault)] = &[
    (
        ["", "Migrate --tin t --out o a.wkt", "--tin t", "help"],
        WordsFault::NoMode,
    ),
    (["migrate", "check", "make", "make 1 2"], WordsFault::Parse),
    (
        [
            "verify --tin t --source a.wkt --written b",
            "verify --tin t --source a.wkt --cert c",
            "verify --tin t --written b --cert c",
            "verify --source a.wkt --written b --cert c",
        ],
        WordsFault::Parse,
    ),
    (
        [
            "heights --tin t --out o",
            "heights --tin t a.txt",
            "heights --out o a.txt",
            "heights --tin t --out o a.txt b.txt",
        ],
        WordsFault::Parse,
    ),
    (
        [
            "heights --tin t --out o --inverse a.txt",
            "heights --tin t --out o --drop-other a.txt",
            "heights --tin t --out o --cert a.txt",
            "heights --tin t --out o --exact --exact a.txt",
        ],
        WordsFault::Parse,
    ),
    (
        [
            "migrate --tin t --out o",
            "migrate --tin t a.wkt",
            "migrate --out o a.wkt",
            "migrate --tin t --out o a.wkt --tin",
        ],
        WordsFault::Parse,
    ),
    (
        [
            "migrate --tin t --tin t --out o a.wkt",
            "migrate --tin t --out=o --out o a.wkt",
            "migrate --tin t --exact --out o a.wkt --exact",
            "check --tin t --tin=t",
        ],
        WordsFault::Parse,
    ),
    (
        [
            "migrate --tin t --out o --force a.wkt",
            "migrate --ti t --out o a.wkt",
            "migrate --tin t --out o --inv a.wkt",
            "migrate -t t --out o a.wkt",
        ],
        WordsFault::Parse,
    ),
    (
        [
            "migrate --tin t --out o --inverse=yes a.wkt",
            "migrate --tin --out o a.wkt",
            "migrate --tin t --out o a.wkt --help",
            "make -1",
        ],
        WordsFault::Parse,
    ),
    (
        [
            "check --tin t a.wkt",
            "check --tin t --inverse",
            "check --tin t --out o",
            "check -h",
        ],
        WordsFault::Parse,
    ),
    (
        ["make 0", "make 007", "make 513", "make +1"],
        WordsFault::Size,
    ),
    (
        ["make ", "make 1x", "make 4294967297", "make 1.0"],
        WordsFault::Size,
    ),
    (
        [
            "migrate --tin= --out o a.wkt",
            "migrate --tin  --out  a.tif",
            "migrate --tin t\n --out o a.wkt",
            "check --tin ",
        ],
        WordsFault::Name { which: Which::Tin },
    ),
    (
        [
            "migrate --tin t --out= a.tif ",
            "migrate --tin t --out \u{1f} a.wkt",
            "migrate --tin t a.wkt --out ",
            "migrate --out= --tin=t x/a.wkt a.wkt",
        ],
        WordsFault::Name { which: Which::Out },
    ),
    (
        [
            "heights --tin t --out o ",
            "heights --tin t --out o a\tb",
            "heights a\n --out o --tin t",
            "heights --exact --tin t --out o \u{1f}",
        ],
        WordsFault::Name {
            which: Which::Layer(0),
        },
    ),
    (
        [
            "migrate --tin t --out o a.tif ",
            "migrate --tin t --out o a.wkt b\tc.wkt ",
            "migrate a.wkt --tin t  --out o",
            "migrate --tin t --out o x/a.wkt \u{0}",
        ],
        WordsFault::Name {
            which: Which::Layer(1),
        },
    ),
    (
        [
            "migrate --tin t --out o a.tif",
            "migrate --tin t --out o a.wkt/ b.tif",
            "migrate --tin t --out o awkt a.wkt x/a.wkt",
            "migrate --tin t --out o - a.wkt",
        ],
        WordsFault::Suffix { layer: 0 },
    ),
    (
        [
            "migrate --tin t --out o a/x.wkt b/x.wkt",
            "migrate --tin t --out o x.wkt x.wkt",
            "migrate --tin t --out o a/x.wkt x.wkt y.wkt x.wkt",
            "migrate --tin t --out o /x.json --exact a//x.json",
        ],
        WordsFault::SameName { layer: 1 },
    ),
];

/// The first of the lines without this fault, or none.
fn first_without(
    alloc: Global,
    lines: &[&'static str],
    fault: WordsFault,
) -> Result<Option<&'static str>, AllocError> {
    for &line in lines {
        let words = words_of(alloc, line)?;
        if read_words(alloc, &words).err() != Some(fault) {
            return Ok(Some(line));
        }
    }
    Ok(None)
}

/// The first line that lacks the fault of its row, or none.
fn first_other_fault(
    alloc: Global,
    rows: &[([&'static str; 4], WordsFault)],
) -> Result<Option<&'static str>, AllocError> {
    for (lines, fault) in rows {
        if let Some(line) = first_without(alloc, lines, *fault)? {
            return Ok(Some(line));
        }
    }
    Ok(None)
}

#[test]
fn words_have_faults(rt: HostRuntime) {
    assert_eq!(rt; first_other_fault(rt.alloc(), FAULTS), Ok(None));
}

#[test]
fn no_words_have_no_mode(rt: HostRuntime) {
    let none = Vec::new(rt.alloc());
    let job = read_words(rt.alloc(), &none);
    assert_eq!(rt; job.err(), Some(WordsFault::NoMode));
}

/// A migration of this many layers, and a word after them.
fn many_layers(alloc: Global, count: usize, last: &str) -> Result<Vec<String>, AllocError> {
    let mut words = words_of(alloc, "migrate --tin t --out o")?;
    for number in 0..count {
        words.push(format!(in alloc; "layer{number}.wkt")?)?;
    }
    words.push(last.to_string(alloc)?)?;
    Ok(words)
}

/// How many layers, a word after them, and the fault of all.
const COUNTS: &[(usize, &str, Option<WordsFault>)] = &[
    (1023, "last.wkt", None),
    (1024, "last.wkt", Some(WordsFault::Many)),
    (1024, "", Some(WordsFault::Many)),
    (
        1023,
        "x/layer7.wkt",
        Some(WordsFault::SameName { layer: 1023 }),
    ),
];

/// The number of the first row with another fault, or none.
fn first_other_count(
    alloc: Global,
    rows: &[(usize, &str, Option<WordsFault>)],
) -> Result<Option<usize>, AllocError> {
    for (number, &(count, last, fault)) in rows.iter().enumerate() {
        let words = many_layers(alloc, count, last)?;
        if read_words(alloc, &words).err() != fault {
            return Ok(Some(number));
        }
    }
    Ok(None)
}

#[test]
fn layers_are_counted(rt: HostRuntime) {
    assert_eq!(rt; first_other_count(rt.alloc(), COUNTS), Ok(None));
}

/// Names, their last parts, and the formats that they end in.
const NAMES: &[(&str, &str, Option<Format>)] = &[
    ("a.wkt", "a.wkt", Some(Format::Wkt)),
    ("x/y/a.WKT", "a.WKT", Some(Format::Wkt)),
    ("/a.GeoJSON", "a.GeoJSON", Some(Format::GeoJson)),
    ("b.c.json", "b.c.json", Some(Format::GeoJson)),
    ("b.Dxf", "b.Dxf", Some(Format::Drawing)),
    ("dxf", "dxf", None),
    ("a.wkt/", "", None),
    ("a.wkt.gz", "a.wkt.gz", None),
    ("xgeojson", "xgeojson", None),
    ("", "", None),
];

/// The first of the names with another last part or format, or none.
fn first_other_name(rows: &[(&'static str, &str, Option<Format>)]) -> Option<&'static str> {
    for &(name, part, format) in rows {
        if last_part(name) != part {
            return Some(name);
        }
        if format_of(name) != format {
            return Some(name);
        }
    }
    None
}

#[test]
fn names_have_formats_and_last_parts(rt: HostRuntime) {
    assert_eq!(rt; first_other_name(NAMES), None);
}
