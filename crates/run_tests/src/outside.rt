//! Runs in which one call of the outside fails, and runs in which none does. What is expected is worked out by hand
//! from the calls that a run makes.

ghost use Rattle.std.specs.Prelude.{◌≡◌, ◌<◌, [], None, IfOk};

use crate::memory_runs::{
    Failing, FailingTable, Files, NEVER, holds, other_fault, ran_over, words_of,
};
use runs::Status;
use shelf_io::{MemShelf, SurePress, SureShelf};
use std::alloc::{AllocError, Global};
use tin_texts::{SQUARE, TRIANGLE};
use whole_runs::run_surely;

const TWO: [&str; 7] = ["migrate", "--tin", "t.json", "--out", "o", "a.wkt", "b.wkt"];

const POINT: &str = "POINT (5 0)";

const WRITTEN: &str = "POINT (105.001 100.000)";

/// The triangle and two layers of a point in it.
const TWO_POINTS: Files = &[("t.json", TRIANGLE), ("a.wkt", POINT), ("b.wkt", POINT)];

/// With writes of 4 bytes a layer takes eight calls: it is begun, its 23 bytes are written by six, and it is ended.
const FAILED_WRITES: &[Failing] = &[
    (
        (NEVER, 0),
        Status::Write,
        &[("o/a.wkt", None), ("o/b.wkt", None), ("-", None)],
    ),
    (
        (NEVER, 1),
        Status::Write,
        &[("o/a.wkt", Some("")), ("o/b.wkt", None), ("-", None)],
    ),
    (
        (NEVER, 6),
        Status::Write,
        &[
            ("o/a.wkt", Some("POINT (105.001 100.0")),
            ("o/b.wkt", None),
            ("-", None),
        ],
    ),
    (
        (NEVER, 7),
        Status::Write,
        &[("o/a.wkt", Some(WRITTEN)), ("o/b.wkt", None), ("-", None)],
    ),
    (
        (NEVER, 8),
        Status::Write,
        &[("o/a.wkt", Some(WRITTEN)), ("o/b.wkt", None), ("-", None)],
    ),
    (
        (NEVER, 10),
        Status::Write,
        &[
            ("o/a.wkt", Some(WRITTEN)),
            ("o/b.wkt", Some("POIN")),
            ("-", None),
        ],
    ),
    (
        (NEVER, 16),
        Status::Write,
        &[
            ("o/a.wkt", Some(WRITTEN)),
            ("o/b.wkt", Some(WRITTEN)),
            ("-", None),
        ],
    ),
    (
        (NEVER, 17),
        Status::Write,
        &[
            ("o/a.wkt", Some(WRITTEN)),
            ("o/b.wkt", Some(WRITTEN)),
            ("-", Some("")),
        ],
    ),
];

/// A refusal whose line cannot be written.
const FAILED_REFUSALS: &[Failing] = &[
    ((NEVER, 0), Status::Write, &[("-", None), ("o/q.wkt", None)]),
    (
        (NEVER, 1),
        Status::Write,
        &[("-", Some("")), ("o/q.wkt", None)],
    ),
];

/// The tables of calls of the press that fail.
const FAILING: &[FailingTable] = &[
    (
        &TWO,
        TWO_POINTS,
        4,
        "each call of the press fails once",
        FAILED_WRITES,
    ),
    (
        &["migrate", "--tin", "t.json", "--out", "o", "q.wkt"],
        TWO_POINTS,
        4,
        "a refusal that cannot be written",
        FAILED_REFUSALS,
    ),
];

#[test]
fn each_call_of_the_press_fails_once(rt: HostRuntime) {
    assert_eq!(rt; other_fault(rt.alloc(), FAILING), None);
}

/// A shelf of the triangle and two layers of a point in it, which is read by this many bytes at most, and
/// one of whose calls fails.
fn shelf_of_two(alloc: Global, most: usize, call: u64) -> Result<MemShelf, AllocError>
    requires { 0 < most }
{
    let mut shelf = MemShelf::new(alloc, most);
    shelf.add("t.json", TRIANGLE.as_bytes())?;
    shelf.add("a.wkt", POINT.as_bytes())?;
    shelf.add("b.wkt", POINT.as_bytes())?;
    shelf.fail_at(call)?;
    Ok(shelf)
}

/// How many calls a file of this many bytes takes, read by `most` bytes at most: it is begun, read, and read once more
/// at its end.
fn calls_of(length: usize, most: usize) -> u64
    requires { 0 < most }
{
    (length.div_ceil(most) as u64).saturating_add(2)
}

/// How a run ends where this call of the shelf fails, and whether it says this alone.
fn end_of_run(
    alloc: Global,
    most: usize,
    call: u64,
    line: &str,
) -> Result<(Status, bool), AllocError>
    requires { 0 < most }
{
    let shelf = shelf_of_two(alloc, most, call)?;
    let (status, press) = ran_over(alloc, &TWO, shelf, 4096, NEVER)?;
    Ok((
        status,
        holds(&press, &[("-", Some(line)), ("o/a.wkt", None)]),
    ))
}

/// Whether each of these calls of the shelf, where it fails, ends the run with this line.
fn are_named(alloc: Global, most: usize, calls: (u64, u64), line: &str) -> Result<bool, AllocError>
    requires { 0 < most }
{
    for call in calls.0..calls.1 {
        if end_of_run(alloc, most, call, line)? != (Status::Read, true) {
            return Ok(false);
        }
    }
    Ok(true)
}

/// Whether each failing call of the shelf ends the run with the line of the file that was being read, and the call
/// after the last is none of the run's.
fn each_read_is_named(alloc: Global, most: usize) -> Result<bool, AllocError>
    requires { 0 < most }
{
    let tin = calls_of(TRIANGLE.len(), most);
    let first = tin.saturating_add(calls_of(POINT.len(), most));
    let second = first.saturating_add(calls_of(POINT.len(), most));
    if !are_named(alloc, most, (0, tin), "read fault: triangulation\n")? {
        return Ok(false);
    }
    if !are_named(alloc, most, (tin, first), "read fault: layer 0\n")? {
        return Ok(false);
    }
    if !are_named(alloc, most, (first, second), "read fault: layer 1\n")? {
        return Ok(false);
    }
    let (status, _) = end_of_run(alloc, most, second, "")?;
    Ok(status == Status::Same)
}

#[test]
fn each_call_of_the_shelf_fails_once(rt: HostRuntime) {
    assert_eq!(rt; each_read_is_named(rt.alloc(), 1), Ok(true));
}

#[test]
fn each_call_of_the_shelf_that_reads_whole_files_fails_once(rt: HostRuntime) {
    assert_eq!(rt; each_read_is_named(rt.alloc(), 4096), Ok(true));
}

const NINE: [&str; 6] = ["migrate", "--tin", "s.json", "--out", "o", "nine.wkt"];

/// A line over two triangles and a point beside it.
const LINE_AND_POINT: &str = "LINESTRING (10 0, 0 10)\nPOINT (6 4)";

const CARRIED: &str =
    "LINESTRING (110.000 100.000, 105.002 105.002, 100.000 110.000)\nPOINT (106.001 104.001)";

const REPORT: &str = "tinmove report 1
triangulation corners 4 triangles 2 inexact 0 name s.json
layer 0 paths 2 segments 2 pieces 3 inexact 0 dropped 0 name nine.wkt
changes 1
change 0/0/0/0 0/1/0/0 touching apart
end
";

/// A shelf of the square and a layer in it; none of its calls fails.
fn shelf_of_nine(alloc: Global, most: usize) -> Result<MemShelf, AllocError>
    requires { 0 < most }
    ensures fail { IfOk result (λ shelf. shelf.fail ≡ []) }
    ensures at_hand { IfOk result (λ shelf. shelf.at_hand ≡ None) }
{
    let mut shelf = MemShelf::new(alloc, most);
    shelf.add("s.json", SQUARE.as_bytes())?;
    shelf.add("nine.wkt", LINE_AND_POINT.as_bytes())?;
    Ok(shelf)
}

/// How a run of reads and writes of one byte ends, and whether it makes the layer and the report.
fn ended_by_bytes(alloc: Global) -> Result<(Status, bool), AllocError> {
    let shelf = shelf_of_nine(alloc, 1)?;
    let (status, press) = ran_over(alloc, &NINE, shelf, 1, NEVER)?;
    let made = [("o/nine.wkt", Some(CARRIED)), ("-", Some(REPORT))];
    Ok((status, holds(&press, &made)))
}

#[test]
fn reads_and_writes_of_one_byte(rt: HostRuntime) {
    assert_eq!(rt; ended_by_bytes(rt.alloc()), Ok((Status::Changed, true)));
}

/// Words, how many files and bytes a press has room for, how a run over the square and its layer ends, and what the
/// press states of it.
type Sure = (
    &'static [&'static str],
    (u32, u64),
    Status,
    &'static [(&'static str, Option<&'static str>)],
);

/// Whether the press states these files with these texts. `None`: it states none of this name.
fn tells(press: &SurePress, made: &[(&str, Option<&str>)]) -> bool {
    for &(name, text) in made {
        if press.made_bytes(name) != text.map(|text| text.as_bytes()) {
            return false;
        }
    }
    true
}

/// Whether a run ends so where no call of the outside fails.
fn ends_surely(alloc: Global, row: &Sure) -> Result<bool, AllocError> {
    let words = words_of(alloc, row.0)?;
    let mut shelf = SureShelf::new(shelf_of_nine(alloc, 7)?);
    let mut press = SurePress::new(alloc, row.1.0, row.1.1)?;
    let status = run_surely(alloc, &words, &mut shelf, &mut press);
    Ok(status == row.2 && tells(&press, row.3))
}

/// The number of the first row that ends otherwise, or none.
fn first_other_sure(alloc: Global, rows: &[Sure]) -> Result<Option<usize>, AllocError> {
    for (number, row) in rows.iter().enumerate() {
        if !ends_surely(alloc, row)? {
            return Ok(Some(number));
        }
    }
    Ok(None)
}

const SURE: &[Sure] = &[
    (
        &NINE,
        (2, 1000),
        Status::Changed,
        &[("o/nine.wkt", Some(CARRIED)), ("-", Some(REPORT))],
    ),
    // What is past the reserved room is taken all the same.
    (&NINE, (2, 100), Status::Changed, &[("o/nine.wkt", None)]),
    // A missing file is a read fault.
    (
        &["check", "--tin", "t.json"],
        (1, 100),
        Status::Read,
        &[("-", Some("read fault: triangulation\n"))],
    ),
];

#[test]
fn an_outside_that_never_fails(rt: HostRuntime) {
    assert_eq!(rt; first_other_sure(rt.alloc(), SURE), Ok(None));
}
