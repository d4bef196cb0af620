//! Texts whose nodes or first faults were found without this reader (rows/json_places.py).

ghost use Rattle.jtext.specs.Lookups.{IsAscii};

use jtext::{JsonFault, Kind, Node, Nodes, Repeat, member, read_json, same_text};
use std::alloc::{AllocError, Global};
use std::test::Fail;

/// The fault of a short text.
fn fault(alloc: Global, text: &[u8]) -> Option<JsonFault> {
    if text.len() > 1000 {
        return None;
    }
    read_json(alloc, text).err()
}

fn repeated_byte(alloc: Global, byte: u8, count: usize) -> Result<Vec<u8>, AllocError> {
    let mut text = Vec::new(alloc);
    for _ in 0..count {
        text.push(byte)?;
    }
    Ok(text)
}

/// What `member` answers at a node of a text, if it is an object.
fn member_at(
    alloc: Global,
    text: &[u8],
    number: u32,
    key: &[u8],
) -> Option<Result<Option<u32>, Repeat>>
    requires { IsAscii key.now }
{
    if text.len() > 1000 {
        return None;
    }
    let Ok(doc) = read_json(alloc, text) else {
        return None;
    };
    if number as usize >= doc.nodes.items().len() {
        return None;
    }
    match doc.nodes.items()[number as usize].kind {
        Kind::Object => Some(member(&doc, text, number, key)),
        _ => None,
    }
}

/// What `same_text` answers at a node of a text.
fn same_at(alloc: Global, text: &[u8], number: u32, want: &[u8]) -> Option<bool>
    requires { IsAscii want.now }
{
    if text.len() > 1000 {
        return None;
    }
    let Ok(doc) = read_json(alloc, text) else {
        return None;
    };
    if number as usize >= doc.nodes.items().len() {
        return None;
    }
    Some(same_text(&doc, text, number, want))
}

/// The nodes of a text.
const NODES: &[Node] = &[
    Node {
        kind: Kind::Array,
        start: 0,
        end: 18,
        next: 5,
    },
    Node {
        kind: Kind::Number,
        start: 1,
        end: 2,
        next: 2,
    },
    Node {
        kind: Kind::Object,
        start: 3,
        end: 17,
        next: 5,
    },
    Node {
        kind: Kind::Text,
        start: 4,
        end: 7,
        next: 4,
    },
    Node {
        kind: Kind::Text,
        start: 8,
        end: 16,
        next: 5,
    },
];

#[test]
fn reads_nodes(rt: HostRuntime) -> Result<(), Fail> {
    let doc = read_json(rt.alloc(), b"[1,{\"a\":\"\\u0041\"}]")?;
    assert_eq!(rt; doc.nodes.items(), NODES);
    Ok(())
}

#[test]
fn no_nodes_are_none(rt: HostRuntime) {
    let nodes = Nodes::of(Vec::new(rt.alloc()));
    assert!(rt; nodes.items().is_empty());
}

/// A text, the number of a node, a key, and what `member` answers.
type Member = (
    &'static [u8],
    u32,
    &'static [u8],
    Result<Option<u32>, Repeat>,
);

/// The number of the first row with another answer, or with a key that is not ASCII, or none.
fn first_other_member(alloc: Global, rows: &[Member]) -> Option<usize> {
    for (number, &(text, node, key, wanted)) in rows.iter().enumerate() {
        if !key.is_ascii() {
            return Some(number);
        }
        if member_at(alloc, text, node, key) != Some(wanted) {
            return Some(number);
        }
    }
    None
}

const KEYS: &[u8] = b"{\"a\":1,\"\\u0062\":2,\"c\":[3],\"b\\n\":4,\"c\":5,\"\":6,\"\xC3\xA4\":7}";

const MEMBERS: &[Member] = &[
    (KEYS, 0, b"a", Ok(Some(2))),
    (KEYS, 0, b"b", Ok(Some(4))),
    (KEYS, 0, b"c", Err(Repeat { at: 34 })),
    (KEYS, 0, b"b\n", Ok(Some(9))),
    (KEYS, 0, b"", Ok(Some(13))),
    (KEYS, 0, b"d", Ok(None)),
    (KEYS, 0, b"aa", Ok(None)),
    (b"[1,{\"a\":\"\\u0041\"}]", 2, b"a", Ok(Some(4))),
];

#[test]
fn finds_members(rt: HostRuntime) {
    assert_eq!(rt; first_other_member(rt.alloc(), MEMBERS), None);
}

/// A text, the number of a node, a short text of ASCII, and whether the node says it.
type JsonSaid = (&'static [u8], u32, &'static [u8], bool);

/// The number of the first row with another answer, or with a text that is not ASCII, or none.
fn first_other_said(alloc: Global, rows: &[JsonSaid]) -> Option<usize> {
    for (number, &(text, node, said, wanted)) in rows.iter().enumerate() {
        if !said.is_ascii() {
            return Some(number);
        }
        if same_at(alloc, text, node, said) != Some(wanted) {
            return Some(number);
        }
    }
    None
}

const SAID: &[JsonSaid] = &[
    (b"[1,{\"a\":\"\\u0041\"}]", 4, b"A", true),
    (b"\"\\u0061\\u0041\"", 0, b"aA", true),
    (
        b"\"\\\"\\\\\\/\\b\\f\\n\\r\\t\"",
        0,
        b"\"\\/\x08\x0C\n\r\t",
        true,
    ),
    (b"\"\"", 0, b"", true),
    (b"\"ab\"", 0, b"a", false),
    (b"\"a\"", 0, b"ab", false),
    (b"\"\\ud800\"", 0, b"?", false),
    (b"\"\\u0161\"", 0, b"a", false),
    (b"\"\xC3\xA4\"", 0, b"\x64", false),
    (b"1", 0, b"1", false),
];

#[test]
fn compares_texts(rt: HostRuntime) {
    assert_eq!(rt; first_other_said(rt.alloc(), SAID), None);
}

/// This many of a byte, and the first fault.
const DEEP: &[(u8, usize, JsonFault)] = &[
    (b'[', 64, JsonFault::Bad { at: 64 }),
    (b'[', 65, JsonFault::Deep { at: 64 }),
    (b'[', 900, JsonFault::Deep { at: 64 }),
];

/// The first of the counts with another fault, or none.
fn first_other_depth(
    alloc: Global,
    rows: &[(u8, usize, JsonFault)],
) -> Result<Option<usize>, AllocError> {
    for &(byte, count, wanted) in rows {
        let text = repeated_byte(alloc, byte, count)?;
        if fault(alloc, &text) != Some(wanted) {
            return Ok(Some(count));
        }
    }
    Ok(None)
}

#[test]
fn limits_nesting(rt: HostRuntime) {
    assert_eq!(rt; first_other_depth(rt.alloc(), DEEP), Ok(None));
}

/// A text that is not well formed, and where.
type Bad = (&'static [u8], u64);

/// The number of the first text that is bad at another place, or none.
fn first_other(alloc: Global, rows: &[Bad]) -> Option<usize> {
    for (number, &(text, at)) in rows.iter().enumerate() {
        if fault(alloc, text) != Some(JsonFault::Bad { at }) {
            return Some(number);
        }
    }
    None
}

/// Texts that are not well formed, and where.
const BAD: &[Bad] = &[
    // Words and numbers that are not well formed, and where.
    (b"", 0),
    (b" ", 1),
    (b"\t\n", 2),
    (b"x", 0),
    (b"nul", 3),
    (b"nulL", 3),
    (b"truf", 3),
    (b"tru", 3),
    (b"fals ", 4),
    (b"fa1se", 2),
    (b"True", 0),
    (b"-", 1),
    (b"--1", 1),
    (b"-a", 1),
    (b"01", 1),
    (b"-01", 2),
    (b"1.", 2),
    (b"1.e3", 2),
    (b".5", 0),
    (b"+1", 0),
    (b"1e", 2),
    (b"1e+", 3),
    (b"1e+-2", 3),
    (b"1E5.0", 3),
    (b"0x10", 1),
    (b"1 2", 2),
    (b"1,", 1),
    (b"'a'", 0),
    // Texts in quotes that are not well formed, and where.
    (b"\"", 1),
    (b"\"a", 2),
    (b"\"a\n\"", 2),
    (b"\"\x1F\"", 1),
    (b"\"\\", 2),
    (b"\"\\x\"", 2),
    (b"\"\\u12\"", 5),
    (b"\"\\u12G4\"", 5),
    (b"\"\\u", 3),
    (b"\"a\"b", 3),
    (b"\"\x80\"", 1),
    (b"\"\xC1\x81\"", 1),
    (b"\"\xC3\"", 2),
    (b"\"\xC3(", 2),
    (b"\"\xE0\x9F\xBF\"", 2),
    (b"\"\xE1\x80", 3),
    (b"\"\xED\xA0\x80\"", 2),
    (b"\"\xEF\xBF\"", 3),
    (b"\"\xF0\x8F\xBF\xBF\"", 2),
    (b"\"\xF0\x90\x80\"", 4),
    (b"\"\xF4\x90\x80\x80\"", 2),
    (b"\"\xF5\x80\x80\x80\"", 1),
    (b"\"\xFF\"", 1),
    // Arrays that are not well formed, and where.
    (b"[", 1),
    (b"[1", 2),
    (b"[1,", 3),
    (b"[,", 1),
    (b"[1,]", 3),
    (b"[1,,2]", 3),
    (b"[1 2]", 3),
    (b"[1}", 2),
    (b"[1]]", 3),
    (b"[1][", 3),
    (b"]", 0),
    (b"[}", 1),
    (b"[\x0C]", 1),
    (b"[nulla]", 5),
    (b"[1:2]", 2),
    (b"[[1,[2,[3,\"x\x00\"]]]]", 12),
    // Objects that are not well formed, and where.
    (b"{", 1),
    (b"{1", 1),
    (b"{\"a", 3),
    (b"{\"a\"", 4),
    (b"{\"a\":", 5),
    (b"{\"a\":}", 5),
    (b"{\"a\" 1}", 5),
    (b"{\"a\":1", 6),
    (b"{\"a\":1,", 7),
    (b"{\"a\":1,}", 7),
    (b"{\"a\":1 \"b\":2}", 7),
    (b"{\"a\"::1}", 5),
    (b"{,}", 1),
    (b"{\"a\":1]", 6),
    (b"{]", 1),
    (b"{\"a\",\"b\"}", 4),
    (b"}", 0),
    (b"{a:1}", 1),
    (b"{\"file_type\":", 13),
    (b"[{\"a\":[1,{\"b\":tru]}]", 17),
    (b"{\"a\":[1,2,{\"b\":\"\\ud83\"}]}", 21),
    (b"{\"a\":{\"b\":{\"c\":1e}}}", 17),
    // Marks of the order of bytes that are not whole or not in front, and where.
    (b"\xEF", 1),
    (b"\xEF\xBB", 2),
    (b"\xEF\xBB\xBF", 3),
    (b"\xEF\xBB\xBE1", 2),
    (b"\xEF\xBB\xBF\xEF\xBB\xBF1", 3),
    (b" \xEF\xBB\xBF1", 1),
    (b"\xFE\xFF", 0),
];

#[test]
fn finds_faults(rt: HostRuntime) {
    assert_eq!(rt; first_other(rt.alloc(), BAD), None);
}

const GOOD: &[&[u8]] = &[
    b"null",
    b" true\n",
    b"\xEF\xBB\xBF false",
    b"0",
    b"-0",
    b"-0.0e-0",
    b"10.25E+3",
    b"1e5",
    b"\"\"",
    b"\"\\ud834\\udd1e\\udd1e\"",
    b"\"\xC2\x80\xDF\xBF\xE0\xA0\x80\xED\x9F\xBF\xEE\x80\x80\xF0\x90\x80\x80\xF4\x8F\xBF\xBF\x7F\"",
    b"[]",
    b"[ ]",
    b" [ 1 , [ ] , { } ] ",
    b"{}",
    b"{ \"a\" : 1 , \"a\" : { \"b\" : [ null ] } }",
];

/// The number of the first text with a fault, or none.
fn first_bad(alloc: Global, texts: &[&[u8]]) -> Option<usize> {
    for (number, text) in texts.iter().enumerate() {
        if fault(alloc, text).is_some() {
            return Some(number);
        }
    }
    None
}

#[test]
fn accepts_texts(rt: HostRuntime) {
    assert_eq!(rt; first_bad(rt.alloc(), GOOD), None);
}
