//! What a byte can be, between values and in numbers.

ghost use Rattle.std.specs.Prelude.{◌≡◌};
ghost use Rattle.jtext.specs.InsideSigns.{byte_sign};

/// A kind of bracket.
#[derive(Clone, Copy)]
pub enum Bracket {
    Square,
    Curly,
}

/// A word that is a value.
#[derive(Clone, Copy)]
pub enum Word {
    Null,
    True,
    False,
}

/// What a byte can be outside of words and texts.
#[derive(Clone, Copy)]
pub enum Sign {
    Blank,
    Quote,
    Opening(Bracket),
    Closing(Bracket),
    Comma,
    Colon,
    Minus,
    Plus,
    Point,
    Zero,
    /// 1 to 9.
    Digit,
    /// e or E.
    Mark,
    /// The first letter of a word.
    Letter(Word),
    /// The first byte of a byte order mark.
    First,
    Other,
}

impl Sign {
    /// What the byte is outside texts.
    #[inline(always)]
    pub fn of(byte: u8) -> Sign
        ensures { result ≡ byte_sign byte }
    {
        match byte {
            b'1'..=b'9' => Sign::Digit,
            b'0' => Sign::Zero,
            b',' => Sign::Comma,
            b' ' | b'\t' | b'\n' | b'\r' => Sign::Blank,
            b'"' => Sign::Quote,
            b'[' => Sign::Opening(Bracket::Square),
            b'{' => Sign::Opening(Bracket::Curly),
            b']' => Sign::Closing(Bracket::Square),
            b'}' => Sign::Closing(Bracket::Curly),
            b':' => Sign::Colon,
            b'-' => Sign::Minus,
            b'+' => Sign::Plus,
            b'.' => Sign::Point,
            b'e' | b'E' => Sign::Mark,
            b'n' => Sign::Letter(Word::Null),
            b't' => Sign::Letter(Word::True),
            b'f' => Sign::Letter(Word::False),
            0xEF => Sign::First,
            _ => Sign::Other,
        }
    }
}
