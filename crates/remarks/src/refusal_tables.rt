//! What the words, a file or a run is refused for, and what helps.

ghost use Rattle.std.specs.Prelude.{◌≡◌, option_copied};
ghost use Rattle.remarks.specs.RefusalTables.{words_finding_of, words_cure_of};
ghost use Rattle.remarks.specs.RefusalTables.{refusal_finding_of, refusal_cure_of};
ghost use Rattle.remarks.specs.RefusalTables.{cert_finding_of, cert_cure_of};

use crate::layer_tables::{cure, finding};
use crate::sights::{seen_cure, seen_finding, sight_for};
use crate::tin_tables::{check_cure, check_finding, tin_seen_cure, tin_seen_finding};
use cert_check::CertFault;
use job_words::{Which, WordsFault};
use runs::Refusal;

/// What is wrong with words that are refused.
pub(crate) fn words_finding(fault: WordsFault) -> &'static str
    ensures { result.now ≡ words_finding_of fault }
{
    match fault {
        WordsFault::NoMode =>
            "no mode: the first word is to be migrate, check, make, verify or heights",
        WordsFault::Parse => "an option or a word that is unknown, missing or too many",
        WordsFault::Size => "the size is no number from 1 to 512 in digits",
        WordsFault::Many => "more than 1,024 layers",
        WordsFault::Name { which: Which::Tin } => {
            "the name behind --tin is empty or has a control character"
        }
        WordsFault::Name { which: Which::Out } => {
            "the name behind --out is empty or has a control character"
        }
        WordsFault::Name {
            which: Which::Layer(_),
        } => { "its name is empty or has a control character" }
        WordsFault::Name {
            which: Which::Source,
        } => { "the name behind --source is empty or has a control character" }
        WordsFault::Name {
            which: Which::Written,
        } => { "the name behind --written is empty or has a control character" }
        WordsFault::Name {
            which: Which::Certificate,
        } => { "the name behind --cert is empty or has a control character" }
        WordsFault::Suffix { .. } => "its name ends in none of .wkt, .geojson, .json and .dxf",
        WordsFault::SameName { .. } => "the last part of its name is that of an earlier layer's",
        WordsFault::NoMemory => "memory ran out",
    }
}

/// What helps them, where something is known that does.
pub(crate) fn words_cure(fault: WordsFault) -> Option<&'static str>
    ensures { option_copied result ≡ words_cure_of fault }
{
    match fault {
        WordsFault::NoMode => Some("'tinmove --help' explains the words"),
        WordsFault::Parse => Some("'tinmove --help' explains the words"),
        WordsFault::Size => Some("'tinmove --help' explains the words"),
        WordsFault::Many => Some("carry them in several runs"),
        WordsFault::Name { which: Which::Tin } => Some("rename the file"),
        WordsFault::Name { which: Which::Out } => {
            Some("rename the folder; --out . is the current one")
        }
        WordsFault::Name {
            which: Which::Layer(_),
        } => Some("rename the file"),
        WordsFault::Name {
            which: Which::Source,
        } => Some("rename the file"),
        WordsFault::Name {
            which: Which::Written,
        } => Some("rename the file"),
        WordsFault::Name {
            which: Which::Certificate,
        } => Some("rename the file"),
        WordsFault::Suffix { .. } => Some("convert it by ogr2ogr, or rename it"),
        WordsFault::SameName { .. } => Some("carry it in another run, to another folder"),
        WordsFault::NoMemory => None,
    }
}

/// Why a written layer is not verified.
pub(crate) fn cert_finding(fault: CertFault) -> &'static str
    ensures { result.now ≡ cert_finding_of fault }
{
    match fault {
        CertFault::Layer(fault) => finding(fault),
        CertFault::Form { .. } => "a line that is none of a certificate's",
        CertFault::Count { .. } => "the certificate has lines for another number of segments",
        CertFault::Segment { .. } => {
            "the line of this segment does not name the triangles that it goes through"
        }
        CertFault::Differs { .. } => {
            "the written layer is another than that of the source from here on"
        }
        CertFault::NoMemory => "memory ran out",
    }
}

/// What helps it, where something is known that does.
pub(crate) fn cert_cure(fault: CertFault) -> Option<&'static str>
    ensures { option_copied result ≡ cert_cure_of fault }
{
    match fault {
        CertFault::Layer(fault) => cure(fault),
        CertFault::Form { .. } => Some("take the file .cert as migrate --cert wrote it"),
        CertFault::Count { .. } => Some("take the certificate of this very source"),
        CertFault::Segment { .. } => {
            Some("take the triangulation and the options of the migration")
        }
        CertFault::Differs { .. } => Some("take the layer as it was written"),
        CertFault::NoMemory => Some("carry smaller layers, or one a run"),
    }
}

/// Why a run is refused, where the refused file has these bytes.
pub(crate) fn refusal_finding(refusal: Refusal, bytes: Option<&[u8]>) -> &'static str
    ensures { result.now ≡ refusal_finding_of refusal (option_copied bytes.entry) }
{
    match refusal {
        Refusal::Words(fault) => words_finding(fault),
        Refusal::TinUnread => "the file is missing or could not be read",
        Refusal::TinLong => "more than 64 MiB (2^26 bytes)",
        Refusal::Tin(fault) => tin_seen_finding(fault, bytes),
        Refusal::Check(fault) => check_finding(fault),
        Refusal::LayerUnread { .. } => "the file is missing or could not be read",
        Refusal::LayersLong => "the layers have more than 64 MiB (2^26 bytes) together",
        Refusal::Layer { fault, .. } => seen_finding(fault, sight_for(fault, bytes)),
        Refusal::Outside { .. } => "not wholly inside the triangles",
        Refusal::TooManyPieces => "more than 4,194,304 pieces",
        Refusal::TooManyChanges => "more than 1,048,576 changed pairs",
        Refusal::TooManySides => "more than 1,048,576 changed sides",
        Refusal::WrittenUnread => "the file is missing or could not be read",
        Refusal::WrittenLong => "more than 256 MiB (2^28 bytes)",
        Refusal::CertUnread => "the file is missing or could not be read",
        Refusal::CertLong => "more than 256 MiB (2^28 bytes)",
        Refusal::Certificate(fault) => cert_finding(fault),
        Refusal::NoMemory => "memory ran out",
    }
}

/// What helps it, where something is known that does.
pub(crate) fn refusal_cure(refusal: Refusal, bytes: Option<&[u8]>) -> Option<&'static str>
    ensures { option_copied result ≡ refusal_cure_of refusal (option_copied bytes.entry) }
{
    match refusal {
        Refusal::Words(fault) => words_cure(fault),
        Refusal::TinUnread => Some("look at its name, and at who may read it"),
        Refusal::TinLong => Some("cut the triangulation in parts"),
        Refusal::Tin(fault) => tin_seen_cure(fault, bytes),
        Refusal::Check(fault) => check_cure(fault),
        Refusal::LayerUnread { .. } => Some("look at its name, and at who may read it"),
        Refusal::LayersLong => Some("carry fewer layers a run"),
        Refusal::Layer { fault, .. } => seen_cure(fault, sight_for(fault, bytes)),
        Refusal::Outside { .. } => Some("recipes/outside.sh lists all that is outside"),
        Refusal::TooManyPieces => Some("carry fewer layers a run"),
        Refusal::TooManyChanges => Some("remove lines that are on top of each other"),
        Refusal::TooManySides => Some("carry fewer layers a run, or leave out --sides"),
        Refusal::WrittenUnread => Some("look at its name, and at who may read it"),
        Refusal::WrittenLong => Some("migrate the layer in parts"),
        Refusal::CertUnread => Some("look at its name, and at who may read it"),
        Refusal::CertLong => Some("migrate the layer in parts"),
        Refusal::Certificate(fault) => cert_cure(fault),
        Refusal::NoMemory => Some("carry smaller layers, or one a run"),
    }
}
