//! Where a text in quotation marks ends.

ghost use Rattle.std.specs.Prelude.{◌≡◌, ◌≤◌, ◌<◌, ◌↔◌, length, slice_range, slice_index, Some, IsTrue, IfOk};
ghost use Rattle.text_places.specs.Machine.{run};
ghost use Rattle.jtext.specs.InsideTokens.{Inner, text_sign, escape_sign, lead_needs, takes, inner_step, TextEnds};
ghost use Rattle.jtext.specs.InsideTokens.{NeedsEnd};

/// What a byte can be in a text.
#[derive(Clone, Copy)]
pub enum TextSign {
    Plain,
    Quote,
    Backslash,
    Lead(Lead),
    Refused,
}

/// The first byte of a code point of two to four bytes, by what may follow.
#[derive(Clone, Copy)]
pub enum Lead {
    Two,
    ThreeFirst,
    Three,
    ThreeBefore,
    FourFirst,
    Four,
    FourLast,
}

/// What a byte can be after a reverse solidus.
#[derive(Clone, Copy)]
pub enum EscapeSign {
    Short,
    Unicode,
    Refused,
}

/// What one byte has to be.
#[derive(Clone, Copy)]
pub enum Need {
    /// 80 to BF.
    Tail,
    /// A0 to BF.
    TailFromA0,
    /// 80 to 9F.
    TailTo9F,
    /// 90 to BF.
    TailFrom90,
    /// 80 to 8F.
    TailTo8F,
    Hexadecimal,
}

impl TextSign {
    /// What the byte is within a text.
    pub fn of(byte: u8) -> TextSign
        ensures { result ≡ text_sign byte }
    {
        match byte {
            b'"' => TextSign::Quote,
            b'\\' => TextSign::Backslash,
            0x20..=0x7F => TextSign::Plain,
            0xC2..=0xDF => TextSign::Lead(Lead::Two),
            0xE0 => TextSign::Lead(Lead::ThreeFirst),
            0xED => TextSign::Lead(Lead::ThreeBefore),
            0xE1..=0xEF => TextSign::Lead(Lead::Three),
            0xF0 => TextSign::Lead(Lead::FourFirst),
            0xF1..=0xF3 => TextSign::Lead(Lead::Four),
            0xF4 => TextSign::Lead(Lead::FourLast),
            _ => TextSign::Refused,
        }
    }

    fn is_plain(self) -> bool
        ensures { IsTrue result ↔ self ≡ TextSign.Plain }
    {
        match self {
            TextSign::Plain => true,
            _ => false,
        }
    }

    fn is_quote(self) -> bool
        ensures { IsTrue result ↔ self ≡ TextSign.Quote }
    {
        match self {
            TextSign::Quote => true,
            _ => false,
        }
    }
}

impl EscapeSign {
    fn of(byte: u8) -> EscapeSign
        ensures { result ≡ escape_sign byte }
    {
        match byte {
            b'"' | b'\\' | b'/' | b'b' | b'f' | b'n' | b'r' | b't' => EscapeSign::Short,
            b'u' => EscapeSign::Unicode,
            _ => EscapeSign::Refused,
        }
    }
}

impl Need {
    fn takes(self, byte: u8) -> bool
        ensures { result ≡ takes self byte }
    {
        match self {
            Need::Tail => byte >= 0x80 && byte <= 0xBF,
            Need::TailFromA0 => byte >= 0xA0 && byte <= 0xBF,
            Need::TailTo9F => byte >= 0x80 && byte <= 0x9F,
            Need::TailFrom90 => byte >= 0x90 && byte <= 0xBF,
            Need::TailTo8F => byte >= 0x80 && byte <= 0x8F,
            Need::Hexadecimal => byte.is_ascii_hexdigit(),
        }
    }
}

/// What the bytes after a first byte have to be.
fn needs_behind(lead: Lead) -> &'static [Need]
    ensures { result.now ≡ lead_needs lead }
{
    match lead {
        Lead::Two => &[Need::Tail],
        Lead::ThreeFirst => &[Need::TailFromA0, Need::Tail],
        Lead::Three => &[Need::Tail, Need::Tail],
        Lead::ThreeBefore => &[Need::TailTo9F, Need::Tail],
        Lead::FourFirst => &[Need::TailFrom90, Need::Tail, Need::Tail],
        Lead::Four => &[Need::Tail, Need::Tail, Need::Tail],
        Lead::FourLast => &[Need::TailTo8F, Need::Tail, Need::Tail],
    }
}

/// The place after the bytes that are as needed, or the first place where one is not.
fn needs_end(bytes: &[u8], from: usize, needs: &[Need]) -> Result<usize, usize>
    requires { from ≤ length bytes.now }
    ensures { NeedsEnd bytes.now from needs.now result }
{
    let mut at = from;
    for need in needs {
        if at >= bytes.len() || !need.takes(bytes[at]) {
            return Err(at);
        }
        at += 1;
    }
    Ok(at)
}

/// The place after an escape whose reverse solidus comes before `from`, or where it goes wrong.
fn escape_end(bytes: &[u8], from: usize) -> Result<usize, usize>
    requires { from ≤ length bytes.now }
    ensures { TextEnds Inner.escape Inner.plain bytes.now from result }
{
    if from >= bytes.len() {
        return Err(from);
    }
    match EscapeSign::of(bytes[from]) {
        EscapeSign::Short => Ok(from + 1),
        EscapeSign::Unicode => needs_end(bytes, from + 1, &[Need::Hexadecimal; 4]),
        EscapeSign::Refused => Err(from),
    }
}

/// The first place from this one on where no plain byte is.
fn plain_end(bytes: &[u8], from: usize) -> usize
    requires { from ≤ length bytes.now }
    ensures within { (from ≤ result) × (result ≤ length bytes.now) }
    ensures passes { run inner_step Inner.plain (slice_range bytes.now from result) ≡ Some Inner.plain }
{
    let mut at = from;
    while at < bytes.len() && TextSign::of(bytes[at]).is_plain() {
        at += 1;
    }
    at
}

/// The place after a character at this place, which is no quotation mark, or where it goes wrong.
fn char_end(bytes: &[u8], at: usize, sign: TextSign) -> Result<usize, usize>
    requires within { at < length bytes.now }
    requires sign { sign ≡ text_sign (slice_index bytes.now at) }
    requires special { ¬ (sign ≡ TextSign.Quote) }
    ensures ends { TextEnds Inner.plain Inner.plain bytes.now at result }
    ensures further { IfOk result (λ end. at < end) }
{
    match sign {
        TextSign::Plain => Ok(at + 1),
        TextSign::Backslash => escape_end(bytes, at + 1),
        TextSign::Lead(lead) => needs_end(bytes, at + 1, needs_behind(lead)),
        TextSign::Quote | TextSign::Refused => Err(at),
    }
}

/// The place after the quotation mark that ends a text, whose first one comes before `from`, or the
/// first place where it goes wrong.
pub fn text_end(bytes: &[u8], from: usize) -> Result<usize, usize>
    requires { from ≤ length bytes.now }
    ensures { TextEnds Inner.plain Inner.closed bytes.now from result }
{
    let mut at = plain_end(bytes, from);
    while at < bytes.len() {
        let sign = TextSign::of(bytes[at]);
        if sign.is_quote() {
            return Ok(at + 1);
        }
        match char_end(bytes, at, sign) {
            Ok(end) => at = plain_end(bytes, end),
            Err(wrong) => return Err(wrong),
        }
    }
    Err(at)
}
