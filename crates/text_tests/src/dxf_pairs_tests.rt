//! Texts whose pairs and faults were written down by hand.

use dxf_pairs::{
    Pair, PairFault, codes_are_whole_numbers, lines_follow, pairs_are_in_lines,
    pairs_are_the_groups, pairs_tile, read_pairs,
};
use std::alloc::Global;

/// The fault of a short text.
fn fault(alloc: Global, text: &[u8]) -> Option<PairFault> {
    if text.len() > 1000 {
        return None;
    }
    read_pairs(alloc, text).err()
}

/// A code, its place, the places of its value, its end and its line.
type Row = (i32, u32, u32, u32, u32, u32);

fn pair(&(code, start, value, value_end, end, line): &Row) -> Pair {
    Pair {
        code,
        start,
        value,
        value_end,
        end,
        line,
    }
}

/// Whether these are the pairs.
fn are_pairs(pairs: &[Pair], wanted: &[Row]) -> bool {
    for (one, row) in pairs.iter().zip(wanted) {
        if *one != pair(row) {
            return false;
        }
    }
    pairs.len() == wanted.len()
}

/// Whether these are the pairs of a short text.
fn has_pairs(alloc: Global, text: &[u8], wanted: &[Row]) -> bool {
    if text.len() > 1000 {
        return false;
    }
    match read_pairs(alloc, text) {
        Ok(pairs) => are_pairs(&pairs, wanted),
        Err(_) => false,
    }
}

/// The number of the first text with other pairs, or none.
fn first_other(alloc: Global, rows: &[(&[u8], &[Row])]) -> Option<usize> {
    for (number, &(text, wanted)) in rows.iter().enumerate() {
        if !has_pairs(alloc, text, wanted) {
            return Some(number);
        }
    }
    None
}

/// Texts, and the pairs of each.
const PAIRS: &[(&[u8], &[Row])] = &[
    // Texts, and the pair that each of them is.
    (b"0\nEOF\n", &[(0, 0, 2, 5, 6, 1)]),
    (b"0\nEOF", &[(0, 0, 2, 5, 5, 1)]),
    (b"0\r\nEOF\r\n", &[(0, 0, 3, 6, 8, 1)]),
    (b"  0 \t\n\t EOF \r\nrest", &[(0, 0, 8, 11, 14, 1)]),
    (b"+0\nEOF\n", &[(0, 0, 3, 6, 7, 1)]),
    (b"-0\nEOF\n", &[(0, 0, 3, 6, 7, 1)]),
    (b"00\nEOF", &[(0, 0, 3, 6, 6, 1)]),
    (b"0\nEOF\nx\ny\n", &[(0, 0, 2, 5, 6, 1)]),
    (b"0\nEOF\n\n", &[(0, 0, 2, 5, 6, 1)]),
    // Texts, and the two pairs that each of them has, and one with three.
    (b"10\n\n0\nEOF", &[(10, 0, 3, 3, 4, 1), (0, 4, 6, 9, 9, 3)]),
    (
        b"10\n \t\r\n0\nEOF\n",
        &[(10, 0, 6, 6, 7, 1), (0, 7, 9, 12, 13, 3)],
    ),
    (
        b"-9999\nx\n+0\nEOF",
        &[(-9999, 0, 6, 7, 8, 1), (0, 8, 11, 14, 14, 3)],
    ),
    (
        b"9999\n a b \n00\nEOF\n",
        &[(9999, 0, 6, 9, 11, 1), (0, 11, 14, 17, 18, 3)],
    ),
    (
        b"1\nEOF\n0\nEOF\n",
        &[(1, 0, 2, 5, 6, 1), (0, 6, 8, 11, 12, 3)],
    ),
    (
        b"0\neof\n0\nEOF\n",
        &[(0, 0, 2, 5, 6, 1), (0, 6, 8, 11, 12, 3)],
    ),
    (
        b"0\n EOF x\n0\nEOF",
        &[(0, 0, 3, 8, 9, 1), (0, 9, 11, 14, 14, 3)],
    ),
    (
        b"0\nEOFF\n0\nEOF",
        &[(0, 0, 2, 6, 7, 1), (0, 7, 9, 12, 12, 3)],
    ),
    (
        b"+5\n7\n0\nEOF",
        &[(5, 0, 3, 4, 5, 1), (0, 5, 7, 10, 10, 3)],
    ),
    (
        b"000000000000000000009999\nz\n0\nEOF",
        &[(9999, 0, 25, 26, 27, 1), (0, 27, 29, 32, 32, 3)],
    ),
    (
        b"8\n\xFF\x0C\n0\nEOF",
        &[(8, 0, 2, 4, 5, 1), (0, 5, 7, 10, 10, 3)],
    ),
    (
        b"  0\nSECTION\n  2\nHEADER\n0\nEOF\n",
        &[
            (0, 0, 4, 11, 12, 1),
            (2, 12, 16, 22, 23, 3),
            (0, 23, 25, 28, 29, 5),
        ],
    ),
];

/// The laws may be called where there are pairs.
#[test]
fn reads_pairs(rt: HostRuntime) {
    codes_are_whole_numbers();
    lines_follow();
    pairs_tile();
    pairs_are_in_lines();
    pairs_are_the_groups();
    assert_eq!(rt; first_other(rt.alloc(), PAIRS), None);
}

/// Texts without an end, or that are no text, and what is said of each.
const ENDLESS: &[(&[u8], PairFault)] = &[
    (b"", PairFault::NoEof),
    (b"0\nSECTION", PairFault::NoEof),
    (b"0\nSECTION\n", PairFault::NoEof),
    (b"0\n\n", PairFault::NoEof),
    (b"0\nEO\n", PairFault::NoEof),
    (b"0\nEOF\0\n", PairFault::NoEof),
    (b"1\nEOF\n", PairFault::NoEof),
    (b"0", PairFault::Odd { line: 1 }),
    (b"0\n", PairFault::Odd { line: 1 }),
    (b"0\r", PairFault::Odd { line: 1 }),
    (b"0\nSECTION\n2", PairFault::Odd { line: 3 }),
    (b"0\nSECTION\n2\n", PairFault::Odd { line: 3 }),
    (b"AutoCAD Binary DXF", PairFault::Binary),
    (b"AutoCAD Binary DXF\r\n\x1A\0", PairFault::Binary),
];

/// The number of the first text with another fault, or none.
fn first_other_fault(alloc: Global, rows: &[(&[u8], PairFault)]) -> Option<usize> {
    for (number, &(text, wanted)) in rows.iter().enumerate() {
        if fault(alloc, text) != Some(wanted) {
            return Some(number);
        }
    }
    None
}

#[test]
fn finds_ends(rt: HostRuntime) {
    assert_eq!(rt; first_other_fault(rt.alloc(), ENDLESS), None);
}

/// Texts, and the first line of each that should have a code and has none.
const CODELESS: &[(&[u8], u64)] = &[
    (b"x\nEOF", 1),
    (b"x", 1),
    (b"\n", 1),
    (b" \t\r\n0\nEOF", 1),
    (b"0\nSECTION\nx", 3),
    (b"0\nSECTION\n\n", 3),
    (b"0\nA\n1\nB\n1e3\nC\n", 5),
    (b"10000\nx", 1),
    (b"-10000\nx", 1),
    (b"99999999999999999999\nx", 1),
    (b"-\nx", 1),
    (b"+\nx", 1),
    (b"+-1\nx", 1),
    (b"- 1\nx", 1),
    (b"1 2\nx", 1),
    (b"1.0\nx", 1),
    (b"0x1\nx", 1),
    (b"1\rEOF", 1),
    (b"\xEF\xBB\xBF0\nEOF", 1),
    (b"\x0C0\nEOF", 1),
    (b"\xB2\nEOF", 1),
    (b"\xD9\xA0\nEOF", 1),
    (b"AutoCAD Binary DX", 1),
    (b" AutoCAD Binary DXF", 1),
    (b"autocad Binary DXF", 1),
];

/// The number of the first text whose first line without a code is another, or none.
fn first_other_line(alloc: Global, rows: &[(&[u8], u64)]) -> Option<usize> {
    for (number, &(text, line)) in rows.iter().enumerate() {
        if fault(alloc, text) != Some(PairFault::Code { line }) {
            return Some(number);
        }
    }
    None
}

#[test]
fn finds_lines_without_a_code(rt: HostRuntime) {
    assert_eq!(rt; first_other_line(rt.alloc(), CODELESS), None);
}
