//! Names of files among the words.

ghost use Rattle.std.specs.Prelude.{◌≡◌, nat_le};
ghost use Rattle.std.specs.List.{list_all};
ghost use Rattle.job_words.specs.Names.{is_name, part_behind_slashes};

/// Whether no byte is below 32.
fn are_printable(bytes: &[u8]) -> bool
    ensures { result ≡ list_all (nat_le 32) bytes.now }
{
    bytes.iter().all(|byte| 32 <= *byte)
}

/// Whether a word may name a file: it is not empty, and no byte of it is below 32.
pub fn is_name(word: &str) -> bool
    ensures { result ≡ is_name word.now }
{
    !word.is_empty() && are_printable(word.as_bytes())
}

/// The part of a name after its last slash, or the whole name where it has none.
pub fn last_part(name: &str) -> &str
    ensures { result.now ≡ part_behind_slashes name.now }
{
    match name.rsplit_once('/') {
        Some((_, part)) => part,
        None => name,
    }
}
