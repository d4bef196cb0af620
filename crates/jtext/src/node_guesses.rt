//! About how many nodes a text has, so that room is made for them at once. Nothing rests on it.

/// How many parts of a text are looked at.
const PARTS: usize = 64;

/// How many bytes each of them has at most.
const PART: usize = 1 << 10;

/// About how many nodes the text has, and some more: as many as there are bytes before a value or a key, in parts of the
/// text that are spread over it. It is at most one for each four bytes and one more: commas in texts are no nodes.
pub fn guess_nodes(bytes: &[u8]) -> usize {
    let step = bytes.len() / PARTS + 1;
    let part = step.min(PART);
    let mut count: usize = 1;
    let mut at = 0;
    for _ in 0..PARTS {
        let first = bytes.len().min(at);
        let end = bytes.len().min(first.saturating_add(part));
        count = count.saturating_add(count_marks(&bytes[first..end]));
        at = first.saturating_add(step);
    }
    let all = count.saturating_mul(step) / part;
    all.saturating_add(all / 16).min(bytes.len() / 4 + 1)
}

/// How many bytes come before a value or a key.
fn count_marks(bytes: &[u8]) -> usize {
    bytes.iter().filter(|byte| is_mark(**byte)).count()
}

/// Whether a value or a key may come after the byte.
fn is_mark(byte: u8) -> bool {
    byte == b',' || byte == b':' || byte == b'[' || byte == b'{'
}
