//! Files that are read and made in memory and as real files, and each call that fails once.

ghost use Rattle.std.specs.Prelude.{◌≡◌, ◌<◌, [], true, false, None, IfOk};

use shelf_io::{
    Failed, FilePress, FileShelf, LoadFault, MemPress, MemShelf, Name, Press, PrintFault, Shelf,
    SurePress, SureShelf, load, print, put,
};
use std::alloc::{AllocError, Global};
use std::fs;
use std::os::unix::fs::symlink;
use std::test::Fail;

/// A shelf with a file of five bytes.
fn shelf_of_one(alloc: Global, most: usize) -> Result<MemShelf, AllocError>
    requires { 0 < most }
    ensures fail { IfOk result (λ shelf. shelf.fail ≡ []) }
    ensures at_hand { IfOk result (λ shelf. shelf.at_hand ≡ None) }
{
    let mut shelf = MemShelf::new(alloc, most);
    shelf.add("five.txt", b"12345")?;
    Ok(shelf)
}

/// A call that no test makes.
const NEVER: u64 = 1000;

/// The name of a file, the most bytes that are wanted of it, and what a load of it gives.
type Load = (&'static str, u8, Result<&'static [u8], LoadFault>);

/// Whether the file is loaded so.
fn is_loaded<S: Shelf>(alloc: Global, shelf: &mut S, row: &Load) -> bool {
    match (load(alloc, shelf, row.0, u64::from(row.1)), row.2) {
        (Ok(bytes), Ok(wanted)) => bytes.as_slice() == wanted,
        (Err(fault), Err(wanted)) => fault == wanted,
        _ => false,
    }
}

/// The number of the first file that is loaded otherwise, or none.
fn first_other_load<S: Shelf>(alloc: Global, shelf: &mut S, rows: &[Load]) -> Option<usize> {
    for (number, row) in rows.iter().enumerate() {
        if !is_loaded(alloc, shelf, row) {
            return Some(number);
        }
    }
    None
}

/// The call that fails, loads one after the other, and how many calls have failed then.
type Loads = (u64, &'static [Load], u64);

/// Whether the files are loaded so from the shelf with a file of five bytes.
fn are_loaded(alloc: Global, row: &Loads) -> Result<bool, AllocError> {
    let mut shelf = shelf_of_one(alloc, 2)?;
    shelf.fail_at(row.0)?;
    let other = first_other_load(alloc, &mut shelf, row.1);
    Ok(other.is_none() && shelf.faults() == row.2)
}

/// The number of the first row whose files are loaded otherwise, or none.
fn first_other_loads(alloc: Global, rows: &[Loads]) -> Result<Option<usize>, AllocError> {
    for (number, row) in rows.iter().enumerate() {
        if !are_loaded(alloc, row)? {
            return Ok(Some(number));
        }
    }
    Ok(None)
}

/// Files up to the limit, and each call of the shelf failing once.
const LOADS: &[Loads] = &[
    (NEVER, &[("five.txt", 5, Ok(b"12345"))], 0),
    (NEVER, &[("five.txt", 6, Ok(b"12345"))], 0),
    (NEVER, &[("five.txt", 4, Err(LoadFault::Long))], 0),
    (
        NEVER,
        &[
            ("five.txt", 9, Ok(b"12345")),
            ("six.txt", 9, Err(LoadFault::Missing)),
        ],
        0,
    ),
    // One call begins the file, three read from it, and one finds its end.
    (0, &[("five.txt", 9, Err(LoadFault::Failed))], 1),
    (1, &[("five.txt", 9, Err(LoadFault::Failed))], 1),
    (2, &[("five.txt", 9, Err(LoadFault::Failed))], 1),
    (3, &[("five.txt", 9, Err(LoadFault::Failed))], 1),
    (4, &[("five.txt", 9, Err(LoadFault::Failed))], 1),
    // A begin that is to fail says nothing of the name.
    (
        5,
        &[
            ("five.txt", 9, Ok(b"12345")),
            ("six.txt", 9, Err(LoadFault::Failed)),
        ],
        1,
    ),
];

#[test]
fn loads_up_to_the_limit_and_each_read_fails_once(rt: HostRuntime) {
    assert_eq!(rt; first_other_loads(rt.alloc(), LOADS), Ok(None));
}

/// The call that fails, how a print of nine bytes ends, what the file has then, and how many calls have failed.
type Print = (u64, Result<(), PrintFault>, Option<&'static [u8]>, u64);

/// Whether the nine bytes are printed so, and no other file is made.
fn is_printed(alloc: Global, row: &Print) -> Result<bool, AllocError> {
    let mut press = MemPress::new(alloc, 4);
    press.fail_at(row.0)?;
    if print(&mut press, "nine.txt", b"123456789") != row.1 {
        return Ok(false);
    }
    if press.made_bytes("nine.txt") != row.2 {
        return Ok(false);
    }
    Ok(press.made_bytes("ten.txt").is_none() && press.faults() == row.3)
}

/// The number of the first row that is printed otherwise, or none.
fn first_other_print(alloc: Global, rows: &[Print]) -> Result<Option<usize>, AllocError> {
    for (number, row) in rows.iter().enumerate() {
        if !is_printed(alloc, row)? {
            return Ok(Some(number));
        }
    }
    Ok(None)
}

/// One call begins the file, three write to it, and one ends it.
const PRINTS: &[Print] = &[
    (0, Err(PrintFault::Failed), None, 1),
    (1, Err(PrintFault::Failed), Some(b""), 1),
    (2, Err(PrintFault::Failed), Some(b"1234"), 1),
    (3, Err(PrintFault::Failed), Some(b"12345678"), 1),
    (4, Err(PrintFault::Failed), Some(b"123456789"), 1),
    (5, Ok(()), Some(b"123456789"), 0),
];

#[test]
fn each_write_fails_once(rt: HostRuntime) {
    assert_eq!(rt; first_other_print(rt.alloc(), PRINTS), Ok(None));
}

/// A press that takes all that it is given, and keeps how much that was.
#[derive(Drop)]
struct Scale {
    heaviest: usize,
    writes: u64,
    at_hand: bool,
}

impl Press for Scale {
    ghost made = { λ _. None };

    ghost at_hand = { λ scale. scale.at_hand };

    ghost faults = { λ _. 0 };

    ghost broken = { λ _. false };

    fn begin(&mut self, _name: &str) -> Result<(), Failed> {
        self.at_hand = true;
        Ok(())
    }

    fn write(&mut self, piece: &[u8]) -> Result<usize, Failed> {
        self.heaviest = self.heaviest.max(piece.len());
        self.writes = self.writes.saturating_add(1);
        Ok(piece.len())
    }

    fn end(&mut self) -> Result<(), Failed> {
        self.at_hand = false;
        Ok(())
    }
}

#[test]
fn no_write_is_given_more_than_a_piece(rt: HostRuntime) -> Result<(), Fail> {
    let bytes = vec![in rt.alloc(); 7; 131_073]?;
    let mut scale = Scale {
        heaviest: 0,
        writes: 0,
        at_hand: true,
    };
    let is_put = put(&mut scale, &bytes).is_ok();
    assert_eq!(rt; (is_put, scale.heaviest, scale.writes), (true, 65_536, 3));
    Ok(())
}

const REAL_FILES: &[Load] = &[
    ("five.txt", 5, Ok(b"12345")),
    ("five.txt", 4, Err(LoadFault::Long)),
    ("six.txt", 5, Err(LoadFault::Failed)),
];

#[test]
fn real_files_are_read(rt: HostRuntime) -> Result<(), Fail> {
    fs::write(&rt, "five.txt", "12345")?;
    let mut shelf = FileShelf::new(&rt, rt.alloc())?;
    assert_eq!(rt; first_other_load(rt.alloc(), &mut shelf, REAL_FILES), None);
    Ok(())
}

/// Whether the file of this name has these bytes.
fn has_bytes(rt: &HostRuntime, name: &str, wanted: &[u8]) -> bool {
    match fs::read(rt, name) {
        Ok(bytes) => bytes.as_slice() == wanted,
        Err(_) => false,
    }
}

#[test]
fn real_files_are_written(rt: HostRuntime) -> Result<(), Fail> {
    let mut press = FilePress::new(&rt, rt.alloc())?;
    print(&mut press, "out/deep/five.txt", b"12345")?;
    assert!(rt; has_bytes(&rt, "out/deep/five.txt", b"12345"));
    Ok(())
}

#[test]
fn a_file_made_again_has_the_new_bytes_alone(rt: HostRuntime) -> Result<(), Fail> {
    let mut press = FilePress::new(&rt, rt.alloc())?;
    print(&mut press, "again/five.txt", b"12345")?;
    print(&mut press, "again/five.txt", b"67")?;
    assert!(rt; has_bytes(&rt, "again/five.txt", b"67"));
    Ok(())
}

#[test]
fn nothing_written_to_standard_output_is_a_file(rt: HostRuntime) -> Result<(), Fail> {
    let mut press = FilePress::new(&rt, rt.alloc())?;
    print(&mut press, "-", b"")?;
    assert!(rt; fs::read(&rt, "-").is_err());
    Ok(())
}

#[test]
fn a_name_below_a_file_is_not_made(rt: HostRuntime) -> Result<(), Fail> {
    let mut press = FilePress::new(&rt, rt.alloc())?;
    print(&mut press, "below/five.txt", b"67")?;
    let below = print(&mut press, "below/five.txt/six.txt", b"6");
    assert_eq!(rt; below, Err(PrintFault::Failed));
    Ok(())
}

#[test]
fn the_name_of_a_folder_is_not_made(rt: HostRuntime) -> Result<(), Fail> {
    let mut press = FilePress::new(&rt, rt.alloc())?;
    print(&mut press, "folder/deep/five.txt", b"67")?;
    let folder = print(&mut press, "folder/deep", b"6");
    assert_eq!(rt; folder, Err(PrintFault::Failed));
    Ok(())
}

/// How many files and bytes a press has room for, and what it states of a file of a name of one byte and of five bytes
/// of content.
type Room = (u32, u64, Option<&'static [u8]>);

/// Whether the press states this, and no other file.
fn is_told(alloc: Global, row: &Room) -> Result<bool, AllocError> {
    let mut press = SurePress::new(alloc, row.0, row.1)?;
    if print(&mut press, "a", b"12345") != Ok(()) {
        return Ok(false);
    }
    Ok(press.made_bytes("a") == row.2 && press.made_bytes("b").is_none())
}

/// The number of the first row for which a press states something else, or none.
fn first_other_room(alloc: Global, rows: &[Room]) -> Result<Option<usize>, AllocError> {
    for (number, row) in rows.iter().enumerate() {
        if !is_told(alloc, row)? {
            return Ok(Some(number));
        }
    }
    Ok(None)
}

const ROOMS: &[Room] = &[
    (1, 6, Some(b"12345")),
    (2, 9, Some(b"12345")),
    (1, 5, None),
    (0, 6, None),
];

#[test]
fn a_sure_press_tells_what_fits(rt: HostRuntime) {
    assert_eq!(rt; first_other_room(rt.alloc(), ROOMS), Ok(None));
}

const SURE_FILES: &[Load] = &[
    ("five.txt", 9, Ok(b"12345")),
    ("six.txt", 9, Err(LoadFault::Missing)),
];

#[test]
fn a_sure_shelf_has_the_files_of_its_shelf(rt: HostRuntime) -> Result<(), Fail> {
    let mut shelf = SureShelf::new(shelf_of_one(rt.alloc(), 2)?);
    assert_eq!(rt; first_other_load(rt.alloc(), &mut shelf, SURE_FILES), None);
    Ok(())
}

/// How many names are in a folder.
fn count_in(rt: &HostRuntime, folder: &str) -> Result<usize, Fail> {
    let mut count = 0usize;
    for entry in fs::read_dir(rt, folder)? {
        let _entry = entry?;
        count = count.saturating_add(1);
    }
    Ok(count)
}

#[test]
fn a_real_file_is_as_before_while_it_is_made(rt: HostRuntime) -> Result<(), Fail> {
    let mut press = FilePress::new(&rt, rt.alloc())?;
    print(&mut press, "during/a.txt", b"before")?;
    let is_written = press.begin("during/a.txt").is_ok() && press.write(b"12") == Ok(2);
    let is_as_before = has_bytes(&rt, "during/a.txt", b"before");
    let count = count_in(&rt, "during")?;
    assert_eq!(rt; (is_written, is_as_before, count), (true, true, 2));
    Ok(())
}

#[test]
fn a_real_file_is_whole_once_it_is_ended(rt: HostRuntime) -> Result<(), Fail> {
    let mut press = FilePress::new(&rt, rt.alloc())?;
    print(&mut press, "whole/a.txt", b"before")?;
    print(&mut press, "whole/a.txt", b"12")?;
    let is_whole = has_bytes(&rt, "whole/a.txt", b"12");
    let count = count_in(&rt, "whole")?;
    assert_eq!(rt; (is_whole, count), (true, 1));
    Ok(())
}

/// The name becomes that of a folder while the file is made.
#[test]
fn a_name_that_cannot_be_taken_leaves_nothing_beside_it(rt: HostRuntime) -> Result<(), Fail> {
    let mut press = FilePress::new(&rt, rt.alloc())?;
    let is_begun = press.begin("taken/b.txt").is_ok();
    fs::create_dir_all(&rt, "taken/b.txt/c")?;
    let is_refused = is_begun && press.end() == Err(Failed);
    let count = count_in(&rt, "taken")?;
    assert_eq!(rt; (is_refused, count), (true, 1));
    Ok(())
}

#[test]
fn behind_a_link_the_file_that_it_leads_to_is_replaced(rt: HostRuntime) -> Result<(), Fail> {
    let mut press = FilePress::new(&rt, rt.alloc())?;
    print(&mut press, "links/a.txt", b"12")?;
    symlink(&rt, "a.txt", "links/link.txt")?;
    print(&mut press, "links/link.txt", b"345")?;
    let is_replaced = has_bytes(&rt, "links/a.txt", b"345");
    let is_link = fs::symlink_metadata(&rt, "links/link.txt")?.is_symlink();
    let count = count_in(&rt, "links")?;
    assert_eq!(rt; (is_replaced, is_link, count), (true, true, 2));
    Ok(())
}

/// A device is written as it is: this one has no room.
#[test]
fn a_device_is_written_as_it_is(rt: HostRuntime) -> Result<(), Fail> {
    let mut press = FilePress::new(&rt, rt.alloc())?;
    print(&mut press, "/dev/null", b"6")?;
    let full = print(&mut press, "/dev/full", b"6");
    assert_eq!(rt; full, Err(PrintFault::Failed));
    Ok(())
}

#[test]
fn a_name_is_its_word(rt: HostRuntime) -> Result<(), Fail> {
    let name = Name::of(rt.alloc(), "o/Zürich.wkt")?;
    assert_eq!(rt; (name.text(), name.bytes().len()), ("o/Zürich.wkt", 13));
    Ok(())
}
