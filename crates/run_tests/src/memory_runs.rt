//! Runs in memory that the tests share: two triangulations, a run over files, and what it is to leave.

ghost use Rattle.std.specs.Prelude.{◌<◌};

use runs::Status;
use shelf_io::{MemPress, MemShelf, Shelf};
use std::alloc::{AllocError, Global};
use whole_runs::run;

/// Adds a word.
fn add_word(alloc: Global, words: &mut Vec<String>, text: &str) -> Result<(), AllocError> {
    let word = String::from_str(alloc, text)?;
    words.push(word)?;
    Ok(())
}

/// The words as a run takes them.
pub fn words_of(alloc: Global, texts: &[&str]) -> Result<Vec<String>, AllocError> {
    let mut words = Vec::new(alloc);
    for text in texts {
        add_word(alloc, &mut words, text)?;
    }
    Ok(words)
}

/// Adds a file, unless there is one of its name.
pub fn add_file(shelf: &mut MemShelf, name: &str, bytes: &[u8]) -> Result<(), AllocError> {
    match shelf.begin(name) {
        Ok(false) => shelf.add(name, bytes),
        Ok(true) | Err(_) => Ok(()),
    }
}

/// A shelf of these files; the first of a name counts.
pub fn shelf_of(alloc: Global, files: &[(&str, &str)]) -> Result<MemShelf, AllocError> {
    let mut shelf = MemShelf::new(alloc, 4096);
    for (name, text) in files {
        add_file(&mut shelf, name, text.as_bytes())?;
    }
    Ok(shelf)
}

/// A call that no run makes.
pub const NEVER: u64 = 1000;

/// How a run of these words over this shelf ends, and what it makes, by writes of at most `most` bytes where the
/// call of this number fails.
pub fn ran_over(
    alloc: Global,
    texts: &[&str],
    mut shelf: MemShelf,
    most: usize,
    fail: u64,
) -> Result<(Status, MemPress), AllocError>
    requires { 0 < most }
{
    let words = words_of(alloc, texts)?;
    let mut press = MemPress::new(alloc, most);
    press.fail_at(fail)?;
    let status = run(alloc, &words, &mut shelf, &mut press);
    Ok((status, press))
}

/// Whether the press has made these files with these texts. `None`: the file of this name was not begun.
pub fn holds(press: &MemPress, made: &[(&str, Option<&str>)]) -> bool {
    for &(name, text) in made {
        if press.made_bytes(name) != text.map(|text| text.as_bytes()) {
            return false;
        }
    }
    true
}

/// Whether a run of these words over this shelf ends so, and makes these files. `None`: a file that is not begun.
pub fn ends_over(
    alloc: Global,
    texts: &[&str],
    shelf: MemShelf,
    wanted: Status,
    made: &[(&str, Option<&str>)],
) -> Result<bool, AllocError> {
    let (status, press) = ran_over(alloc, texts, shelf, 4096, NEVER)?;
    Ok(status == wanted && holds(&press, made))
}

/// Whether a run of these words over these files ends so, and makes these files. `None`: a file that is not begun.
pub fn makes(
    alloc: Global,
    texts: &[&str],
    files: &[(&str, &str)],
    wanted: Status,
    made: &[(&str, Option<&str>)],
) -> bool {
    match shelf_of(alloc, files) {
        Ok(shelf) => ends_over(alloc, texts, shelf, wanted, made) == Ok(true),
        Err(_) => false,
    }
}

/// The words that carry one layer through one triangulation.
pub const MIGRATE: [&str; 6] = ["migrate", "--tin", "t.json", "--out", "o", "p.wkt"];

/// Files by their names and texts.
pub type Files = &'static [(&'static str, &'static str)];

/// Files that are made, by their names and texts. `None`: a file that is not begun.
pub type Made = &'static [(&'static str, Option<&'static str>)];

/// Words, the files that they find, how a run of them ends, and files that it makes.
pub type MemoryJob = (&'static [&'static str], Files, Status, Made);

/// A table of rows, after what it is about.
pub type Table<Row> = (&'static str, &'static [Row]);

/// What is wrong in a table: what the table is about, and the number of the row.
pub type Other = Option<(&'static str, usize)>;

/// The number of the first job that ends otherwise or makes other files, or none.
fn first_other_job(alloc: Global, jobs: &[MemoryJob]) -> Option<usize> {
    for (number, &(texts, files, wanted, made)) in jobs.iter().enumerate() {
        if !makes(alloc, texts, files, wanted, made) {
            return Some(number);
        }
    }
    None
}

/// The first job of the tables that ends otherwise or makes other files, or none.
pub fn other_job(alloc: Global, tables: &[Table<MemoryJob>]) -> Other {
    for &(about, jobs) in tables {
        if let Some(number) = first_other_job(alloc, jobs) {
            return Some((about, number));
        }
    }
    None
}

/// A triangulation, a layer, how a run that carries it ends, and files that it makes.
pub type CarriedRow = (&'static str, &'static str, Status, Made);

/// Whether a run that carries the layer through the triangulation, each in a file of its name, ends so, and makes these
/// files.
pub fn migrates(
    alloc: Global,
    names: (&str, &str),
    (tin, layer): (&str, &str),
    wanted: Status,
    made: Made,
) -> bool {
    let words = ["migrate", "--tin", names.0, "--out", "o", names.1];
    let files = [(names.0, tin), (names.1, layer)];
    makes(alloc, &words, &files, wanted, made)
}

/// The number of the first row that ends otherwise or makes other files, or none, where the files of the triangulation
/// and of the layer have these names.
fn first_other(alloc: Global, names: (&str, &str), rows: &[CarriedRow]) -> Option<usize> {
    for (number, row) in rows.iter().enumerate() {
        if !migrates(alloc, names, (row.0, row.1), row.2, row.3) {
            return Some(number);
        }
    }
    None
}

/// A table of layers that are carried, with the names of the files of the triangulation and of the layer.
pub type CarriedTable = (
    (&'static str, &'static str),
    &'static str,
    &'static [CarriedRow],
);

/// The first row of the tables that ends otherwise or makes other files, or none.
pub fn other_carried(alloc: Global, tables: &[CarriedTable]) -> Other {
    for &(names, about, rows) in tables {
        if let Some(number) = first_other(alloc, names, rows) {
            return Some((about, number));
        }
    }
    None
}

/// The calls of a run to the shelf and to the press that fail, how it ends, and files that it leaves.
pub type Failing = ((u64, u64), Status, Made);

/// Whether a run of these words over these files, whose writes take at most `most` bytes, ends so and leaves these
/// files.
fn fails(alloc: Global, texts: &[&str], files: Files, most: usize, row: &Failing) -> bool
    requires { 0 < most }
{
    let Ok(mut shelf) = shelf_of(alloc, files) else {
        return false;
    };
    // Each file took one call of the shelf.
    let call = row.0.0.saturating_add(files.len() as u64);
    if shelf.fail_at(call).is_err() {
        return false;
    }
    match ran_over(alloc, texts, shelf, most, row.0.1) {
        Ok((status, press)) => status == row.1 && holds(&press, row.2),
        Err(_) => false,
    }
}

/// The number of the first row that ends otherwise or leaves other files, or none.
fn first_other_fault(
    alloc: Global,
    texts: &[&str],
    files: Files,
    most: usize,
    rows: &[Failing],
) -> Option<usize>
    requires { 0 < most }
{
    for (number, row) in rows.iter().enumerate() {
        if !fails(alloc, texts, files, most, row) {
            return Some(number);
        }
    }
    None
}

/// A table of runs with a failing call: its words, the files that they find, how many bytes a write takes at most, and
/// its rows.
pub type FailingTable = (
    &'static [&'static str],
    Files,
    usize,
    &'static str,
    &'static [Failing],
);

/// The first row of the tables that ends otherwise or leaves other files, or whose writes take nothing, or none.
pub fn other_fault(alloc: Global, tables: &[FailingTable]) -> Other {
    for &(texts, files, most, about, rows) in tables {
        if most == 0 {
            return Some((about, rows.len()));
        }
        if let Some(number) = first_other_fault(alloc, texts, files, most, rows) {
            return Some((about, number));
        }
    }
    None
}
