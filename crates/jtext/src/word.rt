//! Where a word ends.

ghost use Rattle.std.specs.Prelude.{◌≤◌, length};
ghost use Rattle.jtext.specs.InsideTokens.{WordEnds};

/// The place after the bytes of the word from this place on, or the first place where another byte
/// or none is.
pub fn word_end(bytes: &[u8], from: usize, word: &[u8]) -> Result<usize, usize>
    requires { from ≤ length bytes.now }
    ensures { WordEnds word.now bytes.now from result }
{
    let mut at = from;
    for letter in word {
        if at >= bytes.len() {
            return Err(at);
        }
        if bytes[at] != *letter {
            return Err(at);
        }
        at += 1;
    }
    Ok(at)
}
