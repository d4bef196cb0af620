//! Certificates of pieces, texts that are none, and lists of triangles that are right.

use crate::sheets::{LONGEST, PLAIN, pt};
use cert_check::{CertFault, check_cert, is_right, list_count, write_cert};
use plane_base::Pt;
use std::alloc::{AllocError, Global};
use tin_base::{Piece, Place, SoundTin};
use tin_check::check_tin;
use tin_file::read_tin;
use tin_texts::SQUARE;
use wkt_layer::Wkt;

const NOWHERE: Pt = Pt { x: 0, y: 0 };

/// A piece in this triangle: of this segment, and of this number in it.
fn piece(tri: u32, segment: u32, piece: u32) -> Piece {
    Piece {
        a: NOWHERE,
        b: NOWHERE,
        tri,
        ia: NOWHERE,
        ib: NOWHERE,
        from: Place {
            layer: 0,
            path: 0,
            segment,
            piece,
        },
    }
}

/// Whether these pieces have this certificate.
fn is_certified(alloc: Global, pieces: &[Piece], text: &[u8]) -> Result<bool, AllocError> {
    let written = write_cert(alloc, pieces)?;
    Ok(written.as_slice() == text)
}

/// The triangle, the segment and the number in it of pieces, and their certificate.
type Written = (&'static [(u32, u32, u32)], &'static [u8]);

/// Pieces of these numbers.
fn pieces_of(alloc: Global, numbers: &[(u32, u32, u32)]) -> Result<Vec<Piece>, AllocError> {
    let mut pieces = Vec::new(alloc);
    for &(tri, segment, number) in numbers {
        pieces.push(piece(tri, segment, number))?;
    }
    Ok(pieces)
}

/// The number of the first row with another certificate, or none.
fn first_other_written(alloc: Global, rows: &[Written]) -> Result<Option<usize>, AllocError> {
    for (number, &(numbers, text)) in rows.iter().enumerate() {
        let pieces = pieces_of(alloc, numbers)?;
        if !is_certified(alloc, &pieces, text)? {
            return Ok(Some(number));
        }
    }
    Ok(None)
}

const WRITTEN: &[Written] = &[
    (&[], b"tinmove certificate 1\n"),
    (&[(0, 0, 0), (1, 0, 1)], b"tinmove certificate 1\n0 1\n"),
    (
        &[
            (10, 0, 0),
            (4_294_967_295, 1, 0),
            (0, 1, 1),
            (7, 1, 2),
            (10, 2, 0),
        ],
        b"tinmove certificate 1\n10\n4294967295 0 7\n10\n",
    ),
];

#[test]
fn writes_a_line_for_each_segment(rt: HostRuntime) {
    assert_eq!(rt; first_other_written(rt.alloc(), WRITTEN), Ok(None));
}

/// A text, and how many lists it has, or the first bad line.
type CertLists = (&'static [u8], Result<u32, u64>);

/// The number of the first short text with another answer, or of one that is long, or none.
fn first_other_lists(rows: &[CertLists]) -> Option<usize> {
    for (number, &(text, wanted)) in rows.iter().enumerate() {
        if text.len() >= 100 {
            return Some(number);
        }
        if list_count(text) != wanted {
            return Some(number);
        }
    }
    None
}

const COUNTED: &[CertLists] = &[
    (b"tinmove certificate 1\n", Ok(0)),
    (b"tinmove certificate 1\n0 1\n", Ok(1)),
    (b"tinmove certificate 1\n0\n1 2 3\n4294967295\n", Ok(3)),
];

#[test]
fn counts_the_lists(rt: HostRuntime) {
    assert_eq!(rt; first_other_lists(COUNTED), None);
}

const BAD: &[CertLists] = &[
    (b"", Err(1)),
    (b"\n", Err(1)),
    (b"tinmove certificate 1", Err(1)),
    (b"tinmove certificate 2\n0\n", Err(1)),
    (b"tinmove certificate 1\n\n", Err(2)),
    (b"tinmove certificate 1\n0", Err(2)),
    (b"tinmove certificate 1\n0 1", Err(2)),
    (b"tinmove certificate 1\n0 1 ", Err(2)),
    (b"tinmove certificate 1\n0 1 \n", Err(2)),
    (b"tinmove certificate 1\n 0 1\n", Err(2)),
    (b"tinmove certificate 1\n0  1\n", Err(2)),
    (b"tinmove certificate 1\n00\n", Err(2)),
    (b"tinmove certificate 1\n01 1\n", Err(2)),
    (b"tinmove certificate 1\n0\n-1\n", Err(3)),
    (b"tinmove certificate 1\n0\n1\r\n", Err(3)),
    (b"tinmove certificate 1\n0\n1\n4294967296\n", Err(4)),
    (
        b"tinmove certificate 1\n0\n1\n99999999999999999999999999\n",
        Err(4),
    ),
    (b"tinmove certificate 1\n0\n1\n2\n3", Err(5)),
];

#[test]
fn names_the_first_bad_line(rt: HostRuntime) {
    assert_eq!(rt; first_other_lists(BAD), None);
}

fn square(alloc: Global) -> Option<SoundTin> {
    let bytes = SQUARE.as_bytes();
    if bytes.len() > LONGEST {
        return None;
    }
    let tin = read_tin(alloc, bytes, PLAIN).ok()?;
    check_tin(alloc, tin).ok()
}

/// The ends of a segment, in millimetres, lists of triangles, and whether each of these is right for it.
type Row = ((i64, i64), (i64, i64), &'static [&'static [u32]], bool);

/// Whether the lists are right for the segment, or none of them is.
fn are_right(tin: &SoundTin, row: &Row) -> bool {
    let (a, b) = (pt(row.0.0, row.0.1), pt(row.1.0, row.1.1));
    for numbers in row.2 {
        if is_right(tin, a, b, numbers) != row.3 {
            return false;
        }
    }
    true
}

/// The number of the first row that is answered otherwise, or none.
fn first_other(alloc: Global, rows: &[Row]) -> Option<usize> {
    let Some(tin) = square(alloc) else {
        return Some(rows.len());
    };
    for (number, row) in rows.iter().enumerate() {
        if !are_right(&tin, row) {
            return Some(number);
        }
    }
    None
}

const INSIDE: &[Row] = &[
    // across the diagonal from the first triangle to the second
    ((10_000, 0), (0, 10_000), &[&[0, 1]], true),
    (
        (10_000, 0),
        (0, 10_000),
        &[
            &[1, 0],
            &[0],
            &[1],
            &[],
            &[0, 1, 1],
            &[0, 0, 1],
            &[0, 2],
            &[0, 4_294_967_295],
        ],
        false,
    ),
    // along the diagonal, which both have
    ((0, 0), (10_000, 10_000), &[&[0], &[1]], true),
    ((0, 0), (10_000, 10_000), &[&[0, 1], &[1, 0], &[]], false),
    // the middle of the diagonal, and a point in the first triangle alone
    ((5_000, 5_000), (5_000, 5_000), &[&[0], &[1]], true),
    ((5_000, 5_000), (5_000, 5_000), &[&[0, 1], &[2], &[]], false),
    ((5_000, 1_000), (5_000, 1_000), &[&[0]], true),
    ((5_000, 1_000), (5_000, 1_000), &[&[1]], false),
];

#[test]
fn tells_right_lists(rt: HostRuntime) {
    assert_eq!(rt; first_other(rt.alloc(), INSIDE), None);
}

const LISTS: &[&[u32]] = &[&[0], &[1], &[0, 1], &[1, 0], &[]];

/// Segments that are not wholly inside have no right list.
const OUTSIDE: &[Row] = &[
    ((5_000, 1_000), (5_000, -1), LISTS, false),
    ((-1, 5_000), (10_001, 5_000), LISTS, false),
    ((20_000, 0), (20_000, 0), LISTS, false),
    ((i64::MIN, i64::MIN), (i64::MAX, i64::MAX), LISTS, false),
    ((i64::MAX, i64::MIN), (i64::MAX, i64::MIN), LISTS, false),
];

#[test]
fn refuses_lists_of_segments_outside(rt: HostRuntime) {
    assert_eq!(rt; first_other(rt.alloc(), OUTSIDE), None);
}

const ACROSS: &[u8] = b"LINESTRING (10 0, 0 10)";

const ACROSS_MOVED: &[u8] = b"LINESTRING (110.000 100.000, 105.002 105.002, 100.000 110.000)";

const ALONG: &[u8] = b"LINESTRING (0 0, 10 10)";

const ALONG_MOVED: &[u8] = b"LINESTRING (100.000 100.000, 110.003 110.003)";

const MANY: &[u8] = b"LINESTRING (1 1, 1 1, 2 1)\nPOINT (6 4)";

const MANY_MOVED: &[u8] =
    b"LINESTRING (101.000 101.000, 101.000 101.000, 102.000 101.000)\nPOINT (106.001 104.001)";

/// What a certificate is answered over a source layer and a written one, each of fewer than 1000 bytes.
fn answer(
    alloc: Global,
    tin: &SoundTin,
    source: &[u8],
    written: &[u8],
    cert: &[u8],
) -> Result<(), CertFault> {
    if source.len() > 1000 || cert.len() > 1000 {
        return Err(CertFault::NoMemory);
    }
    check_cert::<Wkt>(alloc, tin, source, written, PLAIN, cert)
}

/// A source layer, a written one, a certificate, and the answer.
type Answer = (
    &'static [u8],
    &'static [u8],
    &'static [u8],
    Result<(), CertFault>,
);

/// The number of the first row that is answered otherwise over the square, or none.
fn first_other_answer(alloc: Global, rows: &[Answer]) -> Option<usize> {
    let Some(tin) = square(alloc) else {
        return Some(rows.len());
    };
    for (number, &(source, written, cert, wanted)) in rows.iter().enumerate() {
        if answer(alloc, &tin, source, written, cert) != wanted {
            return Some(number);
        }
    }
    None
}

const CERTIFIED: &[Answer] = &[
    (
        ACROSS,
        ACROSS_MOVED,
        b"tinmove certificate 1\n0 1\n",
        Ok(()),
    ),
    (ALONG, ALONG_MOVED, b"tinmove certificate 1\n0\n", Ok(())),
    (ALONG, ALONG_MOVED, b"tinmove certificate 1\n1\n", Ok(())),
    (
        MANY,
        MANY_MOVED,
        b"tinmove certificate 1\n0\n0\n0\n",
        Ok(()),
    ),
];

#[test]
fn certifies_what_was_migrated(rt: HostRuntime) {
    assert_eq!(rt; first_other_answer(rt.alloc(), CERTIFIED), None);
}

const REFUSED: &[Answer] = &[
    (ACROSS, ACROSS_MOVED, b"", Err(CertFault::Form { line: 1 })),
    (
        ACROSS,
        ACROSS_MOVED,
        b"tinmove certificate 1\n0 1",
        Err(CertFault::Form { line: 2 }),
    ),
    (
        ACROSS,
        ACROSS_MOVED,
        b"tinmove certificate 1\n",
        Err(CertFault::Count {
            segments: 1,
            lines: 0,
        }),
    ),
    (
        ACROSS,
        ACROSS_MOVED,
        b"tinmove certificate 1\n0 1\n0\n",
        Err(CertFault::Count {
            segments: 1,
            lines: 2,
        }),
    ),
    (
        ACROSS,
        ACROSS_MOVED,
        b"tinmove certificate 1\n1 0\n",
        Err(CertFault::Segment {
            path: 0,
            segment: 0,
        }),
    ),
    (
        ACROSS,
        ACROSS_MOVED,
        b"tinmove certificate 1\n0\n",
        Err(CertFault::Segment {
            path: 0,
            segment: 0,
        }),
    ),
    (
        ACROSS,
        ACROSS_MOVED,
        b"tinmove certificate 1\n0 4294967295\n",
        Err(CertFault::Segment {
            path: 0,
            segment: 0,
        }),
    ),
    (
        MANY,
        MANY_MOVED,
        b"tinmove certificate 1\n0\n0\n1\n",
        Err(CertFault::Segment {
            path: 1,
            segment: 0,
        }),
    ),
];

#[test]
fn refuses_other_certificates(rt: HostRuntime) {
    assert_eq!(rt; first_other_answer(rt.alloc(), REFUSED), None);
}

const DIFFERENT: &[Answer] = &[
    (
        ACROSS,
        b"LINESTRING (110.000 100.000, 105.001 105.002, 100.000 110.000)",
        b"tinmove certificate 1\n0 1\n",
        Err(CertFault::Differs { at: 35 }),
    ),
    (
        ACROSS,
        b"LINESTRING (110.000 100.000, 105.002 105.002, 100.000 110.000) ",
        b"tinmove certificate 1\n0 1\n",
        Err(CertFault::Differs { at: 62 }),
    ),
    (
        ACROSS,
        b"LINESTRING",
        b"tinmove certificate 1\n0 1\n",
        Err(CertFault::Differs { at: 10 }),
    ),
    (
        ACROSS,
        b"",
        b"tinmove certificate 1\n0 1\n",
        Err(CertFault::Differs { at: 0 }),
    ),
];

#[test]
fn names_the_first_other_byte(rt: HostRuntime) {
    assert_eq!(rt; first_other_answer(rt.alloc(), DIFFERENT), None);
}

/// A first line, and this many times this after it.
fn repeated_lines(alloc: Global, part: &[u8], count: u32) -> Result<Vec<u8>, AllocError> {
    let mut text = Vec::from_slice(alloc, b"tinmove certificate 1\n")?;
    for _ in 0..count {
        text.extend_from_slice(part)?;
    }
    Ok(text)
}

/// Parts of lines, and how many lists a hundred thousand of them are, or the first bad line.
const LONG: &[CertLists] = &[
    (b"9", Err(2)),
    (b"0 ", Err(2)),
    (b"4294967295\n", Ok(100_000)),
    (b"4294967296\n", Err(2)),
];

/// The number of the first part whose repetition is answered otherwise, or none.
fn first_other_long(alloc: Global, rows: &[CertLists]) -> Result<Option<usize>, AllocError> {
    for (number, &(part, wanted)) in rows.iter().enumerate() {
        let text = repeated_lines(alloc, part, 100_000)?;
        if text.len() >= 10_000_000 {
            return Ok(Some(number));
        }
        if list_count(&text) != wanted {
            return Ok(Some(number));
        }
    }
    Ok(None)
}

#[test]
fn refuses_lines_that_do_not_end(rt: HostRuntime) {
    assert_eq!(rt; first_other_long(rt.alloc(), LONG), Ok(None));
}

/// Whether a list that repeats this part is wrong for the first segment.
fn is_wrong(alloc: Global, tin: &SoundTin, part: &[u8]) -> Result<bool, AllocError> {
    let mut cert = repeated_lines(alloc, part, 100_000)?;
    cert.extend_from_slice(b"1\n")?;
    if cert.len() >= 10_000_000 {
        return Ok(false);
    }
    let found = check_cert::<Wkt>(alloc, tin, ACROSS, ACROSS_MOVED, PLAIN, &cert);
    Ok(
        found
            == Err(CertFault::Segment {
                path: 0,
                segment: 0,
            }),
    )
}

/// The number of the first part whose list is not wrong so, or none.
fn first_right(alloc: Global, parts: &[&[u8]]) -> Result<Option<usize>, AllocError> {
    let Some(tin) = square(alloc) else {
        return Ok(Some(parts.len()));
    };
    for (number, part) in parts.iter().enumerate() {
        if !is_wrong(alloc, &tin, part)? {
            return Ok(Some(number));
        }
    }
    Ok(None)
}

const PARTS: &[&[u8]] = &[b"0 ", b"0 1 ", b"1 0 "];

#[test]
fn refuses_lists_that_are_longer_than_the_triangulation(rt: HostRuntime) {
    assert_eq!(rt; first_right(rt.alloc(), PARTS), Ok(None));
}
