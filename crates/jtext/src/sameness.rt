//! Texts with their escapes resolved.

ghost use Rattle.std.specs.Prelude.{◌≡◌, ℕ, ◌+◌, ◌*◌, ◌<◌, ◌≤◌, ◌↔◌, List, ◌∷◌, ◌++◌, length, drop, IsTrue, IfSome};
ghost use Rattle.jtext.specs.Characters.{Char, IsChar, AreChars, IsHexadecimal, char_text, chars_text, meaning};
ghost use Rattle.jtext.specs.Characters.{digit_value, units_of};
ghost use Rattle.jtext.specs.Lookups.{IsAscii};
ghost use Rattle.jtext.specs.InsideUnits.{UnitOf};

/// What the byte after a reverse solidus stands for.
fn resolve_escape(byte: u8) -> u8
    ensures { result ≡ meaning byte }
{
    match byte {
        b'b' => 8,
        b'f' => 12,
        b'n' => 10,
        b'r' => 13,
        b't' => 9,
        other => other,
    }
}

/// The value of a hexadecimal digit, and 0 of another byte.
fn digit_of(byte: u8) -> u32
    ensures small { result < 16 }
    ensures value { IsHexadecimal byte → result ≡ digit_value byte }
{
    match byte {
        b'0'..=b'9' => u32::from(byte) - 48,
        b'A'..=b'F' => u32::from(byte) - 55,
        b'a'..=b'f' => u32::from(byte) - 87,
        _ => 0,
    }
}

/// The code unit of four hexadecimal digits at this place, and the place after them.
fn coded_at(raw: &[u8], at: usize) -> Option<(u32, usize)>
    requires { at ≤ length raw.now }
    ensures further { IfSome result (λ found. (at < found.1) × (found.1 ≤ length raw.now)) }
    ensures unit { (char : Char) (rest : List ℕ) → IsChar char
        → 92 ∷ 117 ∷ drop at raw.now ≡ char_text char ++ rest → UnitOf raw.now char rest result }
{
    if raw.len() - at < 4 {
        return None;
    }
    let high = 16 * digit_of(raw[at]) + digit_of(raw[at + 1]);
    let low = 16 * digit_of(raw[at + 2]) + digit_of(raw[at + 3]);
    Some((256 * high + low, at + 4))
}

/// The code unit of an escape whose reverse solidus comes before this place, and the place after
/// it.
fn escape_at(raw: &[u8], at: usize) -> Option<(u32, usize)>
    requires { at ≤ length raw.now }
    ensures further { IfSome result (λ found. (at < found.1) × (found.1 ≤ length raw.now)) }
    ensures unit { (char : Char) (rest : List ℕ) → IsChar char
        → 92 ∷ drop at raw.now ≡ char_text char ++ rest → UnitOf raw.now char rest result }
{
    if at >= raw.len() {
        return None;
    }
    if raw[at] == b'u' {
        coded_at(raw, at + 1)
    } else {
        Some((u32::from(resolve_escape(raw[at])), at + 1))
    }
}

/// The code unit of the character at this place, and the place after it, unless it is a character
/// outside of ASCII that is by itself.
fn unit_at(raw: &[u8], at: usize) -> Option<(u32, usize)>
    requires { at < length raw.now }
    ensures further { IfSome result (λ found. (at < found.1) × (found.1 ≤ length raw.now)) }
    ensures unit { (char : Char) (rest : List ℕ) → IsChar char
        → drop at raw.now ≡ char_text char ++ rest → UnitOf raw.now char rest result }
{
    if raw[at] >= 0x80 {
        return None;
    }
    if raw[at] == b'\\' {
        escape_at(raw, at + 1)
    } else {
        Some((u32::from(raw[at]), at + 1))
    }
}

/// Whether the characters, with their escapes resolved, are this text of ASCII.
pub fn says(raw: &[u8], text: &[u8]) -> bool
    requires { IsAscii text.now }
    ensures { (chars : List Char) → AreChars chars → raw.now ≡ chars_text chars
        → (IsTrue result ↔ units_of chars ≡ text.now) }
{
    let mut at = 0;
    let mut count = 0;
    while at < raw.len() {
        let Some((unit, end)) = unit_at(raw, at) else {
            return false;
        };
        if count >= text.len() {
            return false;
        }
        if u32::from(text[count]) != unit {
            return false;
        }
        count += 1;
        at = end;
    }
    count == text.len()
}
