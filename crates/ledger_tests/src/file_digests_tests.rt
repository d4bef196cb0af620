//! Digests of files, by the examples of FIPS 180-4, and the ends without one.

use file_digests::{DigestFault, digest};
use shelf_io::MemShelf;
use std::alloc::{AllocError, Global};

/// The digest of the three bytes `abc`.
const OF_ABC: [u8; 32] = [
    0xba, 0x78, 0x16, 0xbf, 0x8f, 0x01, 0xcf, 0xea, 0x41, 0x41, 0x40, 0xde, 0x5d, 0xae, 0x22, 0x23,
    0xb0, 0x03, 0x61, 0xa3, 0x96, 0x17, 0x7a, 0x9c, 0xb4, 0x10, 0xff, 0x61, 0xf2, 0x00, 0x15, 0xad,
];

/// A shelf with one file of three bytes; each read gives one.
fn shelf_of_abc(alloc: Global) -> Result<MemShelf, AllocError> {
    let mut shelf = MemShelf::new(alloc, 1);
    shelf.add("abc.txt", b"abc")?;
    Ok(shelf)
}

#[test]
fn a_file_in_pieces(rt: HostRuntime) {
    let Ok(mut shelf) = shelf_of_abc(rt.alloc()) else {
        panic!(rt; "no shelf");
    };
    assert_eq!(rt; digest(&mut shelf, "abc.txt", 3), Ok(OF_ABC));
    assert_eq!(rt; digest(&mut shelf, "abc.txt", 2), Err(DigestFault::Long));
    assert_eq!(rt; digest(&mut shelf, "abd.txt", 3), Err(DigestFault::Missing));
    assert_eq!(rt; shelf.faults(), 0);
}

#[test]
fn a_read_that_fails(rt: HostRuntime) {
    let Ok(mut shelf) = shelf_of_abc(rt.alloc()) else {
        panic!(rt; "no shelf");
    };
    assert_eq!(rt; shelf.fail_at(2), Ok(()));
    assert_eq!(rt; digest(&mut shelf, "abc.txt", 3), Err(DigestFault::Failed));
    assert_eq!(rt; shelf.faults(), 1);
    assert_eq!(rt; digest(&mut shelf, "abc.txt", 3), Ok(OF_ABC));
}
