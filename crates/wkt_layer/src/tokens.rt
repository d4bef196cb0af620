//! The tokens of a line.

ghost use Rattle.std.specs.Prelude.{◌≡◌, ◌<◌, ◌≤◌, length};
ghost use Rattle.std.specs.List.{prefix_len};
ghost use Rattle.std.specs.Char.{is_ascii_alphabetic};
ghost use Rattle.wkt_layer.specs.Tokens.{is_numeric};
ghost use Rattle.wkt_layer.specs.InsidePasses.{IsFirstToken};

use crate::words::LineWord;

/// What a token is.
#[derive(Clone, Copy)]
pub enum TokenKind {
    Opening,
    Closing,
    Comma,
    Word(LineWord),
    Number,
    /// A byte that begins no token.
    Stray,
}

/// A token: what it is, and the places of the text where it begins and after it.
#[derive(Clone, Copy)]
pub struct Token {
    pub sign: TokenKind,
    pub start: usize,
    pub end: usize,
}

/// A byte of a number.
fn is_numeric(byte: u8) -> bool
    ensures { result ≡ is_numeric byte }
{
    byte.is_ascii_digit()
        || byte == b'+'
        || byte == b'-'
        || byte == b'.'
        || byte == b'e'
        || byte == b'E'
}

/// How many bytes at the front are letters.
fn letters(line: &[u8]) -> usize
    ensures { result ≡ prefix_len is_ascii_alphabetic line.now }
{
    line.iter()
        .take_while(|byte| byte.is_ascii_alphabetic())
        .count()
}

/// How many bytes at the front are those of a number.
fn numerics(line: &[u8]) -> usize
    ensures { result ≡ prefix_len is_numeric line.now }
{
    line.iter().take_while(|byte| is_numeric(**byte)).count()
}

/// The token at the start of a line that begins with no blank, and its length.
pub fn first_token(line: &[u8]) -> (TokenKind, usize)
    requires some { 0 < length line.now }
    ensures token { IsFirstToken line.now result.0 result.1 }
    ensures some { 0 < result.1 }
    ensures within { result.1 ≤ length line.now }
{
    let byte = line[0];
    if byte.is_ascii_alphabetic() {
        let size = letters(line);
        (TokenKind::Word(LineWord::of(&line[..size])), size)
    } else if is_numeric(byte) {
        (TokenKind::Number, numerics(line))
    } else if byte == b'(' {
        (TokenKind::Opening, 1)
    } else if byte == b')' {
        (TokenKind::Closing, 1)
    } else if byte == b',' {
        (TokenKind::Comma, 1)
    } else {
        (TokenKind::Stray, 1)
    }
}
