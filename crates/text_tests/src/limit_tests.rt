//! The line of each limit, and limits on bytes that small files pass.

use runs::{Refusal, load_file};
use shelf_io::MemShelf;
use std::alloc::{AllocError, Global};
use tin_file::{Rows, TinFault};

/// A shelf with a file of five bytes.
fn shelf_of_five(alloc: Global) -> Result<MemShelf, AllocError> {
    let mut shelf = MemShelf::new(alloc, 1);
    shelf.add("five.txt", b"12345")?;
    Ok(shelf)
}

/// Refusals of limits, and the line of each.
const LINES: &[(Refusal, &str)] = &[
    (Refusal::TinLong, "limit: bytes of triangulation\n"),
    (Refusal::LayersLong, "limit: bytes of layers\n"),
    (
        Refusal::Tin(TinFault::TooMany {
            list: Rows::Vertices,
        }),
        "limit: vertices\n",
    ),
    (
        Refusal::Tin(TinFault::TooMany {
            list: Rows::Triangles,
        }),
        "limit: triangles\n",
    ),
    (Refusal::TooManyPieces, "limit: pieces\n"),
    (Refusal::TooManyChanges, "limit: changes\n"),
    (Refusal::TooManySides, "limit: sides\n"),
    (Refusal::WrittenLong, "limit: bytes of written\n"),
    (Refusal::CertLong, "limit: bytes of certificate\n"),
];

/// The line of the first refusal that has another line or another status, or none.
fn first_other_line(rows: &[(Refusal, &'static str)]) -> Option<&'static str> {
    for &(refusal, line) in rows {
        if refusal.line().as_str() != line {
            return Some(line);
        }
        if refusal.status().code() != 9 {
            return Some(line);
        }
    }
    None
}

#[test]
fn each_limit_has_its_line(rt: HostRuntime) {
    assert_eq!(rt; first_other_line(LINES), None);
}

/// The most bytes that are wanted of a file, and how many it has, or what is said where it has more.
type Load = (u8, Result<usize, &'static str>);

/// Whether the file of five bytes, loaded as a triangulation, gives this many or is refused so.
fn is_loaded_as_tin(alloc: Global, row: &Load) -> Result<bool, AllocError> {
    let mut shelf = shelf_of_five(alloc)?;
    let most = u64::from(row.0);
    let (unread, long) = (Refusal::TinUnread, Refusal::TinLong);
    let got = load_file(alloc, &mut shelf, "five.txt", most, unread, long);
    Ok(is_given(got, row.1))
}

/// Whether the file of five bytes, loaded as the first layer, gives this many or is refused so.
fn is_loaded_as_layer(alloc: Global, row: &Load) -> Result<bool, AllocError> {
    let mut shelf = shelf_of_five(alloc)?;
    let most = u64::from(row.0);
    let (unread, long) = (Refusal::LayerUnread { layer: 0 }, Refusal::LayersLong);
    let got = load_file(alloc, &mut shelf, "five.txt", most, unread, long);
    Ok(is_given(got, row.1))
}

/// Whether there are this many bytes, or the refusal has this line.
fn is_given(got: Result<Vec<u8>, Refusal>, wanted: Result<usize, &str>) -> bool {
    match (got, wanted) {
        (Ok(bytes), Ok(count)) => bytes.len() == count,
        (Err(refusal), Err(line)) => refusal.line().as_str() == line,
        _ => false,
    }
}

#[test]
fn a_triangulation_of_as_many_bytes_is_loaded(rt: HostRuntime) {
    assert_eq!(rt; is_loaded_as_tin(rt.alloc(), &(5, Ok(5))), Ok(true));
}

#[test]
fn a_triangulation_of_one_byte_more_is_refused(rt: HostRuntime) {
    let line = "limit: bytes of triangulation\n";
    assert_eq!(rt; is_loaded_as_tin(rt.alloc(), &(4, Err(line))), Ok(true));
}

#[test]
fn layers_of_as_many_bytes_are_loaded(rt: HostRuntime) {
    assert_eq!(rt; is_loaded_as_layer(rt.alloc(), &(5, Ok(5))), Ok(true));
}

#[test]
fn layers_of_one_byte_more_are_refused(rt: HostRuntime) {
    let line = "limit: bytes of layers\n";
    assert_eq!(rt; is_loaded_as_layer(rt.alloc(), &(4, Err(line))), Ok(true));
}
