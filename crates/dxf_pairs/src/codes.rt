//! Group codes.

ghost use Rattle.std.specs.Prelude.{◌≡◌};
ghost use Rattle.dxf_pairs.specs.Codes.{number_of};

use std::str;

/// The greatest magnitude of a group code.
pub const MOST_CODE: u32 = 9999;

/// The group code that a text without blanks is: an optional `+` or `-`, and digits.
pub fn code_in(text: &[u8]) -> Option<i32>
    ensures { result ≡ number_of text.now }
{
    let Ok(signs) = str::from_utf8(text) else {
        return None;
    };
    let Ok(code) = signs.parse::<i32>() else {
        return None;
    };
    if code.unsigned_abs() > MOST_CODE {
        return None;
    }
    Some(code)
}
