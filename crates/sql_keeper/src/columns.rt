//! The words of verdicts and relations in a table, and why a statement gives nothing.

use ledger_core::{KeepFault, Mark, Verdict};
use sqlite::{Error, ErrorCode};
use tin_base::Rel;

/// Why a statement gives nothing: want of memory, and all else is a fault.
pub(crate) fn fault_of(error: Error) -> KeepFault {
    match error {
        Error::SqliteFailure(ErrorCode::OutOfMemory) => KeepFault::NoMemory,
        _ => KeepFault::Failed,
    }
}

/// The word of a verdict.
pub(crate) fn verdict_of(word: &[u8]) -> Result<Verdict, KeepFault> {
    match word {
        b"undecided" => Ok(Verdict::Undecided),
        b"kept" => Ok(Verdict::Kept),
        b"mended" => Ok(Verdict::Mended),
        _ => Err(KeepFault::Failed),
    }
}

/// The word for a mark.
pub(crate) fn word_of_mark(mark: Mark) -> &'static str {
    match mark {
        Mark::Kept => "kept",
        Mark::Mended => "mended",
    }
}

/// The relation of a word.
pub(crate) fn relation_of(word: &[u8]) -> Result<Rel, KeepFault> {
    match word {
        b"apart" => Ok(Rel::Apart),
        b"touching" => Ok(Rel::Touching),
        b"crossing" => Ok(Rel::Crossing),
        b"overlapping" => Ok(Rel::Overlapping),
        _ => Err(KeepFault::Failed),
    }
}

/// The word of a relation.
pub(crate) fn word_of(relation: Rel) -> &'static str {
    match relation {
        Rel::Apart => "apart",
        Rel::Touching => "touching",
        Rel::Crossing => "crossing",
        Rel::Overlapping => "overlapping",
    }
}
