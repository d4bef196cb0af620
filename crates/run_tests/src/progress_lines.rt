//! What a run says of what it is doing, and that it is the same run whether or not it is heard.

use crate::memory_runs::{Files, MIGRATE, NEVER, ran_over, shelf_of, words_of};
use job_words::read_words;
use run_notes::work_for;
use run_steps::{LastName, NotedPress, ToldPress, ToldShelf, Work, making_text, say_line};
use runs::Status;
use shelf_io::{MemPress, MemShelf, load, print};
use std::alloc::{AllocError, Global};
use std::io::{ErrorKind, Write};
use std::test::Fail;
use std::{fmt, io};
use tin_texts::{SQUARE, STILL, TRIANGLE};
use whole_runs::run;

/// The work of a migration of this many layers.
fn migration_of(layers: usize) -> Work {
    Work::CarryLayers {
        layers,
        are_written: true,
    }
}

/// A shelf with the files of these words and a failing call.
fn shelf_of_two(alloc: Global, fail: u64) -> Result<MemShelf, AllocError> {
    let mut shelf = MemShelf::new(alloc, 4096);
    shelf.add("t.json", TRIANGLE.as_bytes())?;
    shelf.add("p.wkt", b"POINT (5 0)")?;
    shelf.fail_at(fail)?;
    Ok(shelf)
}

/// A run that is not reported, with a call of the shelf and one of the press that fail.
fn bare_run(alloc: Global, fails: (u64, u64)) -> Result<(Status, MemPress), AllocError> {
    let shelf = shelf_of_two(alloc, fails.0)?;
    ran_over(alloc, &MIGRATE, shelf, 4096, fails.1)
}

/// How a run ended, and the shelf and the press after it.
type Told<W> = (Status, ToldShelf<MemShelf, W>, ToldPress<MemPress, W>);

/// The same run, reported to these two.
fn told_run<W: Write + Drop>(
    alloc: Global,
    fails: (u64, u64),
    to: (Option<W>, Option<W>),
) -> Result<Told<W>, AllocError> {
    let mut shelf = ToldShelf::new(shelf_of_two(alloc, fails.0)?, to.0, migration_of(1));
    let mut press = MemPress::new(alloc, 4096);
    press.fail_at(fails.1)?;
    let mut press = ToldPress::new(press, to.1, migration_of(1));
    let status = run(alloc, &words_of(alloc, &MIGRATE)?, &mut shelf, &mut press);
    Ok((status, shelf, press))
}

/// What was said.
fn said(to: &Option<Vec<u8>>) -> &[u8] {
    match to {
        Some(bytes) => bytes,
        None => b"",
    }
}

/// The calls of a run to the shelf and to the press that fail, how it ends, and what is said of what is read and of what
/// is made.
type Said = ((u64, u64), Status, &'static [u8], &'static [u8]);

/// Whether a run ends so where these calls fail, and says this.
fn says(alloc: Global, row: &Said) -> Result<bool, AllocError> {
    let to = (Some(Vec::new(alloc)), Some(Vec::new(alloc)));
    let (ended, shelf, press) = told_run(alloc, row.0, to)?;
    Ok(ended == row.1 && said(&shelf.to) == row.2 && said(&press.to) == row.3)
}

/// The number of the first run that ends otherwise or says something else, or none.
fn first_other(alloc: Global, rows: &[Said]) -> Result<Option<usize>, AllocError> {
    for (number, row) in rows.iter().enumerate() {
        if !says(alloc, row)? {
            return Ok(Some(number));
        }
    }
    Ok(None)
}

const WHOLE: &[u8] = b"\r\x1b[Ktinmove: step 1 of 5: reading t.json\r\x1b[Ktinmove: step 2 of 5: \
     checking the triangulation\r\x1b[Ktinmove: step 3 of 5: reading p.wkt\r\x1b[Ktinmove: step 4 of 5: \
     carrying layer 0 (1 of 1), then comparing";

const UNREAD: &[u8] = b"\r\x1b[Ktinmove: step 1 of 5: reading t.json\r\x1b[Ktinmove: step 2 of 5: \
     checking the triangulation\r\x1b[Ktinmove: step 3 of 5: reading p.wkt";

const UNTOLD: &[u8] = b"\r\x1b[Ktinmove: step 1 of 5: reading t.json";

const WRITTEN: &[u8] = b"\r\x1b[Ktinmove: step 5 of 5: writing o/p.wkt";

/// Before the line of a refusal, and before the report, the line is cleared.
const REFUSED: &[u8] = b"\r\x1b[K";

const WHOLE_WRITTEN: &[u8] = b"\r\x1b[Ktinmove: step 5 of 5: writing o/p.wkt\r\x1b[K";

/// The triangulation is begun, read and ended by the calls 0 to 2 of the shelf, and the layer by 3 to 5.
const SAID: &[Said] = &[
    ((NEVER, NEVER), Status::Same, WHOLE, WHOLE_WRITTEN),
    ((NEVER, 0), Status::Write, WHOLE, WRITTEN),
    ((0, NEVER), Status::Read, UNTOLD, REFUSED),
    ((2, NEVER), Status::Read, UNTOLD, REFUSED),
    ((3, NEVER), Status::Read, UNREAD, REFUSED),
    ((5, NEVER), Status::Read, UNREAD, REFUSED),
];

#[test]
fn a_run_says_what_it_is_doing(rt: HostRuntime) {
    assert_eq!(rt; first_other(rt.alloc(), SAID), Ok(None));
}

/// Words, the files that they find, how a run of them ends, and what is said of what is read and of what is made.
type SaidOfJob = (
    &'static [&'static str],
    Files,
    Status,
    &'static [u8],
    &'static [u8],
);

/// Whether a run of these words ends so, and says this.
fn says_of_job(alloc: Global, row: &SaidOfJob) -> Result<bool, AllocError> {
    let &(texts, files, wanted, read, made) = row;
    let words = words_of(alloc, texts)?;
    let job = read_words(alloc, &words).ok();
    let work = work_for(job.as_ref(), true);
    let mut shelf = ToldShelf::new(shelf_of(alloc, files)?, Some(Vec::new(alloc)), work);
    let mut press = ToldPress::new(MemPress::new(alloc, 4096), Some(Vec::new(alloc)), work);
    let status = run(alloc, &words, &mut shelf, &mut press);
    Ok(status == wanted && said(&shelf.to) == read && said(&press.to) == made)
}

/// The number of the first job that ends otherwise or says something else, or none.
fn first_other_job(alloc: Global, rows: &[SaidOfJob]) -> Result<Option<usize>, AllocError> {
    for (number, row) in rows.iter().enumerate() {
        if !says_of_job(alloc, row)? {
            return Ok(Some(number));
        }
    }
    Ok(None)
}

const VERIFY: [&str; 9] = [
    "verify",
    "--tin",
    "s.json",
    "--source",
    "l.wkt",
    "--written",
    "w",
    "--cert",
    "c",
];

const VERIFIED: &[u8] =
    b"\r\x1b[Ktinmove: step 1 of 6: reading s.json\r\x1b[Ktinmove: step 2 of 6: \
     checking the triangulation\r\x1b[Ktinmove: step 3 of 6: reading l.wkt\r\x1b[Ktinmove: step 4 of 6: \
     reading w\r\x1b[Ktinmove: step 5 of 6: reading c\r\x1b[Ktinmove: step 6 of 6: comparing";

const WITHOUT_WRITTEN: &[u8] =
    b"\r\x1b[Ktinmove: step 1 of 6: reading s.json\r\x1b[Ktinmove: step 2 of 6: \
     checking the triangulation\r\x1b[Ktinmove: step 3 of 6: reading l.wkt\r\x1b[Ktinmove: step 4 of 6: reading w";

const MOVED: &[u8] = b"\r\x1b[Ktinmove: step 1 of 5: reading t.json\r\x1b[Ktinmove: step 2 of 5: \
     checking the triangulation\r\x1b[Ktinmove: step 3 of 5: reading in/list\r\x1b[Ktinmove: step 4 of 5: \
     moving the points";

const MOVED_CERT: &[u8] =
    b"\r\x1b[Ktinmove: step 1 of 5: reading t.json\r\x1b[Ktinmove: step 2 of 5: \
     checking the triangulation\r\x1b[Ktinmove: step 3 of 5: reading a.cert\r\x1b[Ktinmove: step 4 of 5: \
     moving the points";

const CHECKED: &[u8] = b"\r\x1b[Ktinmove: step 1 of 2: reading t.json\r\x1b[Ktinmove: step 2 of 2: \
     checking the triangulation";

const LIST_WRITTEN: &[u8] = b"\r\x1b[Ktinmove: step 5 of 5: writing o/list\r\x1b[K";

const CERT_WRITTEN: &[u8] = b"\r\x1b[Ktinmove: step 5 of 5: writing o/a.cert\r\x1b[K";

/// A verification with all files, and one without the written layer. Points that are moved, also out of a file whose
/// name ends as that of a certificate, and points that are outside. A check, a made map, and words without a job.
const JOBS: &[SaidOfJob] = &[
    (
        &VERIFY,
        &[
            ("s.json", SQUARE),
            ("l.wkt", "POINT (5 2)"),
            ("w", "POINT (105.001 102.001)"),
            ("c", "tinmove certificate 1\n0\n"),
        ],
        Status::Same,
        VERIFIED,
        REFUSED,
    ),
    (
        &VERIFY,
        &[("s.json", SQUARE), ("l.wkt", "POINT (5 2)")],
        Status::Read,
        WITHOUT_WRITTEN,
        REFUSED,
    ),
    (
        &["heights", "--tin", "t.json", "--out", "o", "in/list"],
        &[("t.json", STILL), ("in/list", "5 0 10")],
        Status::Same,
        MOVED,
        LIST_WRITTEN,
    ),
    (
        &["heights", "--tin", "t.json", "--out", "o", "a.cert"],
        &[("t.json", STILL), ("a.cert", "5 0 10")],
        Status::Same,
        MOVED_CERT,
        CERT_WRITTEN,
    ),
    (
        &["heights", "--tin", "t.json", "--out", "o", "in/list"],
        &[("t.json", STILL), ("in/list", "50 0 10")],
        Status::Outside,
        MOVED,
        REFUSED,
    ),
    (
        &["check", "--tin", "t.json"],
        &[("t.json", TRIANGLE)],
        Status::Same,
        CHECKED,
        REFUSED,
    ),
    (&["make", "1"], &[], Status::Same, b"", REFUSED),
    (&["check"], &[], Status::Words, b"", REFUSED),
];

#[test]
fn a_run_says_the_steps_of_its_job(rt: HostRuntime) {
    assert_eq!(rt; first_other_job(rt.alloc(), JOBS), Ok(None));
}

/// A place to write to that takes nothing.
#[derive(Drop)]
struct Closed;

impl Write for Closed {
    fn write(&mut self, _bytes: &[u8]) -> io::Result<usize> {
        Err(io::Error::from(ErrorKind::BrokenPipe))
    }

    fn flush(&mut self) -> io::Result<()> {
        Ok(())
    }
}

/// Whether two runs end in the same way, after as many faults, and leave the same files.
fn is_same_run(one: (Status, &MemPress), other: (Status, &MemPress)) -> bool {
    one.0 == other.0
        && one.1.faults() == other.1.faults()
        && one.1.made_bytes("o/p.wkt") == other.1.made_bytes("o/p.wkt")
        && one.1.made_bytes("-") == other.1.made_bytes("-")
}

/// Whether the run that is reported to these two is the same as one that is not reported.
fn is_unchanged<W: Write + Drop>(
    alloc: Global,
    fails: (u64, u64),
    to: (Option<W>, Option<W>),
) -> Result<bool, AllocError> {
    let (status, press) = bare_run(alloc, fails)?;
    let (told_status, _, told) = told_run(alloc, fails, to)?;
    Ok(is_same_run((status, &press), (told_status, &told.press)))
}

/// Who hears what is said of a run.
#[derive(Clone, Copy)]
enum Hearer {
    All,
    Closed,
    None,
}

/// Whether the run in which these calls fail is the same where it is heard so.
fn is_the_same(alloc: Global, hearer: Hearer, fails: (u64, u64)) -> Result<bool, AllocError> {
    match hearer {
        Hearer::All => {
            let heard = (Some(Vec::new(alloc)), Some(Vec::new(alloc)));
            is_unchanged::<Vec<u8>>(alloc, fails, heard)
        }
        Hearer::Closed => is_unchanged(alloc, fails, (Some(Closed), Some(Closed))),
        Hearer::None => is_unchanged::<Closed>(alloc, fails, (None, None)),
    }
}

/// The first of the calls, of the shelf or of the press, whose fault makes another run where it is heard so, or none.
fn first_other_run(alloc: Global, hearer: Hearer, calls: u64) -> Result<Option<u64>, AllocError> {
    for call in 0..calls {
        if !is_the_same(alloc, hearer, (call, NEVER))?
            || !is_the_same(alloc, hearer, (NEVER, call))?
        {
            return Ok(Some(call));
        }
    }
    Ok(None)
}

/// Two files are begun, read and ended by six calls, and two are begun, written and ended by six: one more call of each
/// is asked for that no run makes.
const CALLS: u64 = 7;

/// Who hears the run: all that is said is heard, nothing takes it, or nobody listens.
const HEARERS: [Hearer; 3] = [Hearer::All, Hearer::Closed, Hearer::None];

/// The number of the first of the hearers with whom a fault makes another run, with the call that fails, or none.
fn first_other_hearer(alloc: Global, calls: u64) -> Result<Option<(usize, u64)>, AllocError> {
    for (number, hearer) in HEARERS.iter().enumerate() {
        if let Some(call) = first_other_run(alloc, *hearer, calls)? {
            return Ok(Some((number, call)));
        }
    }
    Ok(None)
}

#[test]
fn a_run_is_the_same_whether_or_not_it_is_heard(rt: HostRuntime) {
    assert_eq!(rt; first_other_hearer(rt.alloc(), CALLS), Ok(None));
}

/// A shelf of three files, and two of them are layers.
fn shelf_of_three(alloc: Global) -> Result<ToldShelf<MemShelf, Vec<u8>>, AllocError> {
    let mut shelf = MemShelf::new(alloc, 2);
    shelf.add("t", b"12345")?;
    shelf.add("a", b"67")?;
    shelf.add("b", b"")?;
    Ok(ToldShelf::new(shelf, Some(Vec::new(alloc)), migration_of(2)))
}

/// Whether the file of this name is loaded, and has these bytes.
fn is_loaded(
    alloc: Global,
    shelf: &mut ToldShelf<MemShelf, Vec<u8>>,
    name: &str,
    text: &[u8],
) -> bool {
    match load(alloc, shelf, name, 9) {
        Ok(bytes) => bytes.as_slice() == text,
        Err(_) => false,
    }
}

/// Whether these files are loaded, and this is said of it.
fn loads(alloc: Global, files: &[(&str, &[u8])], lines: &[u8]) -> Result<bool, AllocError> {
    let mut shelf = shelf_of_three(alloc)?;
    for &(name, text) in files {
        if !is_loaded(alloc, &mut shelf, name, text) {
            return Ok(false);
        }
    }
    Ok(said(&shelf.to) == lines)
}

const LOADED: &[(&str, &[u8])] = &[("t", b"12345"), ("a", b"67"), ("b", b"")];

const LOADED_LINES: &[u8] = b"\r\x1b[Ktinmove: step 1 of 8: reading t\r\x1b[Ktinmove: step 2 of 8: \
     checking the triangulation\r\x1b[Ktinmove: step 3 of 8: reading a\r\x1b[Ktinmove: step 4 of 8: \
     carrying layer 0 (1 of 2)\r\x1b[Ktinmove: step 5 of 8: reading b\r\x1b[Ktinmove: step 6 of 8: \
     carrying layer 1 (2 of 2), then comparing";

#[test]
fn layers_are_counted_behind_the_triangulation(rt: HostRuntime) {
    assert_eq!(rt; loads(rt.alloc(), LOADED, LOADED_LINES), Ok(true));
}

/// Whether nothing is said of standard output but that the line is cleared, and this of the layer after it, where both
/// are made so.
fn is_said_of_the_layer(alloc: Global, wanted: &[u8]) -> bool {
    let mut press = ToldPress::new(
        MemPress::new(alloc, 2),
        Some(Vec::new(alloc)),
        migration_of(2),
    );
    if print(&mut press, "-", b"123").is_err() || said(&press.to) != b"\r\x1b[K".as_slice() {
        return false;
    }
    print(&mut press, "o/three.wkt", b"456").is_ok()
        && said(&press.to) == wanted
        && press.press.made_bytes("-") == Some(b"123".as_slice())
        && press.press.made_bytes("o/three.wkt") == Some(b"456".as_slice())
}

#[test]
fn of_standard_output_nothing_is_said(rt: HostRuntime) {
    assert_eq!(rt;
        is_said_of_the_layer(
            rt.alloc(),
            b"\r\x1b[K\r\x1b[Ktinmove: step 7 of 8: writing o/three.wkt"
        ),
        true
    );
}

/// Bytes that are read or written as two whole mebibytes, and some more.
fn two_mebibytes(alloc: Global) -> Result<Vec<u8>, AllocError> {
    let mut bytes = Vec::new(alloc);
    bytes.resize(2 * 1_048_576 + 5, b' ')?;
    Ok(bytes)
}

/// A shelf that is heard, with one file of these bytes.
fn heard_shelf(alloc: Global, bytes: &[u8]) -> Result<ToldShelf<MemShelf, Vec<u8>>, AllocError> {
    let mut shelf = MemShelf::new(alloc, 65_536);
    shelf.add("t", bytes)?;
    Ok(ToldShelf::new(shelf, Some(Vec::new(alloc)), migration_of(0)))
}

/// Whether this many bytes are read of the shelf's file, and this is said.
fn is_said_of_reading(
    alloc: Global,
    mut shelf: ToldShelf<MemShelf, Vec<u8>>,
    count: usize,
    wanted: &[u8],
) -> bool {
    match load(alloc, &mut shelf, "t", 1 << 26) {
        Ok(read) => read.len() == count && said(&shelf.to) == wanted,
        Err(_) => false,
    }
}

#[test]
fn each_mebibyte_that_is_read_is_a_point(rt: HostRuntime) -> Result<(), Fail> {
    let bytes = two_mebibytes(rt.alloc())?;
    let shelf = heard_shelf(rt.alloc(), &bytes)?;
    let wanted =
        b"\r\x1b[Ktinmove: step 1 of 2: reading t..\r\x1b[Ktinmove: step 2 of 2: checking the triangulation";
    assert_eq!(rt;
        is_said_of_reading(rt.alloc(), shelf, bytes.len(), wanted.as_slice()),
        true
    );
    Ok(())
}

/// Whether this is said of a file that is made of these bytes.
fn is_said_of_writing(alloc: Global, bytes: &[u8], wanted: &[u8]) -> bool {
    let mut press = ToldPress::new(
        MemPress::new(alloc, 65_536),
        Some(Vec::new(alloc)),
        migration_of(1),
    );
    print(&mut press, "a", bytes).is_ok() && said(&press.to) == wanted
}

#[test]
fn each_mebibyte_that_is_written_is_a_point(rt: HostRuntime) -> Result<(), Fail> {
    let bytes = two_mebibytes(rt.alloc())?;
    assert_eq!(rt;
        is_said_of_writing(
            rt.alloc(),
            &bytes,
            b"\r\x1b[Ktinmove: step 5 of 5: writing a.."
        ),
        true
    );
    Ok(())
}

/// Whether the names of the files that are made are noted.
fn are_noted(alloc: Global) -> bool {
    let mut press = NotedPress {
        press: MemPress::new(alloc, 2),
        notes: LastName::new(alloc),
    };
    if print(&mut press, "o/a.wkt", b"456").is_err() || press.notes.name.as_str() != "o/a.wkt" {
        return false;
    }
    print(&mut press, "-", b"12345").is_ok() && press.notes.name.as_str() == "-"
}

#[test]
fn what_is_made_is_noted(rt: HostRuntime) {
    assert_eq!(rt; are_noted(rt.alloc()), true);
}

/// Whether this is said of a map of this many by this many cells.
fn is_said_of_a_map(alloc: Global, n: u32, wanted: &[u8]) -> Result<bool, AllocError> {
    let text = making_text(alloc, n)?;
    let mut to = Some(Vec::new(alloc));
    Ok(say_line(&mut to, text.as_str()).is_ok() && said(&to) == wanted)
}

const MADE: &[u8] = b"\r\x1b[Ktinmove: making and carrying a map of 7 by 7 cells";

#[test]
fn a_made_map_is_named(rt: HostRuntime) {
    assert_eq!(rt; is_said_of_a_map(rt.alloc(), 7, MADE), Ok(true));
}

#[test]
fn a_line_that_nothing_takes_is_a_fault(rt: HostRuntime) {
    assert_eq!(rt; say_line(&mut Some(Closed), "a line"), Err(fmt::Error));
}
