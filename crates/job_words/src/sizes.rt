//! The size of a made triangulation, as it is written.

ghost use Rattle.std.specs.Prelude.{◌≡◌};
ghost use Rattle.std.specs.Char.{is_ascii_digit};
ghost use Rattle.std.specs.List.{list_all};
ghost use Rattle.job_words.specs.Sizes.{is_plain, size_of};

use crate::limits::MOST_SIZE;

/// Whether all bytes are digits.
fn are_digits(bytes: &[u8]) -> bool
    ensures { result ≡ list_all is_ascii_digit bytes.now }
{
    bytes.iter().all(|byte| byte.is_ascii_digit())
}

/// Whether the word is digits alone, and does not begin with a zero.
fn is_plain(word: &str) -> bool
    ensures { result ≡ is_plain word.now }
{
    are_digits(word.as_bytes()) && !word.starts_with('0')
}

/// The size that a word writes in digits without a leading zero.
pub fn size_of(word: &str) -> Option<u32>
    ensures { result ≡ size_of word.now }
{
    if !is_plain(word) {
        return None;
    }
    match word.parse::<u32>() {
        Ok(size) => {
            if 1 <= size && size <= MOST_SIZE {
                Some(size)
            } else {
                None
            }
        }
        Err(_) => None,
    }
}
