//! The lines of a certificate.

ghost use Rattle.std.specs.Prelude.{◌≡◌, ℕ, ◌+◌, ◌<◌, ◌^◌, List, ◌++◌, length, IfSome, IfNone, IfOk, IfErr};
ghost use Rattle.std.specs.List.{AllByRecursion};
ghost use Rattle.cert_check.specs.Certificates.{head_text, lines_text, IsList, IsCertificate};
ghost use Rattle.cert_check.specs.Lines.{IsLine, BeginsWithLine, HasNoLine, AreLines, IsBadBehind, IsBadLine, HasCount};
ghost use Rattle.cert_check.specs.InsideSheetLists.{HasNoLineWithin};

use crate::numbers::ended_number;
use std::alloc::AllocError;

/// The first line, with its line feed.
pub(crate) const HEAD: &[u8] = b"tinmove certificate 1\n";

/// What comes after the first line.
pub(crate) fn behind_head(bytes: &[u8]) -> Option<&[u8]>
    ensures some { IfSome result (λ rest. bytes.now ≡ head_text ++ rest.now) }
    ensures none { IfNone result ((rest : List ℕ) → bytes.now ≡ head_text ++ rest → ⊥) }
{
    bytes.strip_prefix(HEAD)
}

/// What comes after the line of a list at the start of a text.
fn behind_line(text: &[u8]) -> Option<&[u8]>
    ensures some { IfSome result (λ rest. BeginsWithLine text.now rest.now) }
    ensures none { IfNone result (HasNoLine text.now) }
{
    let mut rest = text;
    while let Some(ended) = ended_number(rest) {
        if ended.last {
            return Some(ended.rest);
        }
        rest = ended.rest;
    }
    None
}

/// How many lines of lists a text is; or how many there are before the first other line.
fn line_count(text: &[u8]) -> Result<u32, u32>
    requires { length text.now < 2 ^ 32 }
    ensures lines { IfOk result (λ count. AreLines text.now count) }
    ensures bad { IfErr result (λ count. IsBadBehind text.now count) }
{
    let mut rest = text;
    let mut count = 0;
    while !rest.is_empty() {
        let Some(behind) = behind_line(rest) else {
            return Err(count);
        };
        rest = behind;
        count += 1;
    }
    Ok(count)
}

/// How many lists a certificate has; or the first line, counted from 1, that is not of the form. The first one is
/// `tinmove certificate 1`. Each other one has one or more numbers below 2^32, in digits without leading zeros and
/// joined by one blank. A line feed ends each line.
pub fn list_count(bytes: &[u8]) -> Result<u32, u64>
    requires { length bytes.now < 2 ^ 32 }
    ensures lists { IfOk result (λ count. HasCount bytes.now count) }
    ensures bad { IfErr result (λ line. IsBadLine bytes.now line) }
{
    let Some(text) = behind_head(bytes) else {
        return Err(1);
    };
    match line_count(text) {
        Ok(count) => Ok(count),
        Err(count) => Err(u64::from(count) + 2),
    }
}

/// Reads the numbers of the line of a list at the start of a text, at most `most` of them, and answers what comes after
/// the line; none where no such line begins the text.
pub(crate) fn read_line<'a>(
    text: &'a [u8],
    most: usize,
    numbers: &mut Vec<u32>,
) -> Result<Option<&'a [u8]>, AllocError>
    ensures some { IfOk result (λ answer. IfSome answer (λ rest. IsLine text.now numbers.new.items rest.now)) }
    ensures none { IfOk result (λ answer. IfNone answer (HasNoLineWithin text.now most)) }
{
    numbers.clear();
    let mut rest = text;
    while let Some(ended) = ended_number(rest) {
        if numbers.len() >= most {
            return Ok(None);
        }
        numbers.push(ended.number)?;
        if ended.last {
            return Ok(Some(ended.rest));
        }
        rest = ended.rest;
    }
    Ok(None)
}
