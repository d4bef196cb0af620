//! Why a run is refused, and the one line that says so.

ghost use Rattle.std.specs.Prelude.{◌≡◌};
ghost use Rattle.runs.specs.Refusals.{line_of, status_of, status_of_words, status_of_tin, status_of_check};
ghost use Rattle.runs.specs.Refusals.{status_of_layer, status_of_cert};
ghost use Rattle.runs.specs.declared.refusal.Refusal.TheVariants.{Tin, Check, NoMemory};

use crate::layer_lines::{cert_line, layer_line, outside_line};
use crate::lines::{Line, check_line, line_with_number, text_line, tin_line, words_line};
use crate::status::Status;
use cert_check::CertFault;
use job_words::WordsFault;
use sheet_base::LayerFault;
use std::alloc::AllocError;
use tin_check::CheckFault;
use tin_file::TinFault;

/// Why a run is refused. Layers are counted from 0.
#[derive(Clone, Copy)]
pub enum Refusal {
    /// The words are not understood.
    Words(WordsFault),
    /// The triangulation's file is missing or could not be read.
    TinUnread,
    /// The triangulation's file has too many bytes.
    TinLong,
    /// The triangulation's text is not read.
    Tin(TinFault),
    /// The triangulation is not sound.
    Check(CheckFault),
    /// This layer's file is missing or could not be read.
    LayerUnread { layer: u32 },
    /// The layers' files up to the one that was being read have too many bytes.
    LayersLong,
    /// This layer is not read.
    Layer { layer: u32, fault: LayerFault },
    /// This segment is the first that is not wholly in the source triangles: its layer, its path
    /// in the layer, and its number in the path, each counted from 0.
    Outside { layer: u32, path: u32, segment: u32 },
    /// The layers have too many pieces.
    TooManyPieces,
    /// The pieces have too many changes.
    TooManyChanges,
    /// Too many rings have another direction, or points another side of a ring.
    TooManySides,
    /// The written layer's file is missing or could not be read.
    WrittenUnread,
    /// The written layer's file has too many bytes.
    WrittenLong,
    /// The certificate's file is missing or could not be read.
    CertUnread,
    /// The certificate's file has too many bytes.
    CertLong,
    /// The written layer is not verified by its certificate.
    Certificate(CertFault),
    /// Memory ran out.
    NoMemory,
}

impl From<AllocError> for Refusal {
    ghost from_gives = { λ _ refusal. refusal ≡ NoMemory };

    fn from(_: AllocError) -> Self {
        Refusal::NoMemory
    }
}

impl From<TinFault> for Refusal {
    ghost from_gives = { λ fault refusal. refusal ≡ Tin fault };

    fn from(fault: TinFault) -> Self {
        Refusal::Tin(fault)
    }
}

impl From<CheckFault> for Refusal {
    ghost from_gives = { λ fault refusal. refusal ≡ Check fault };

    fn from(fault: CheckFault) -> Self {
        Refusal::Check(fault)
    }
}

/// The status of words that are not understood.
fn words_status(fault: WordsFault) -> Status
    ensures { result ≡ status_of_words fault }
{
    match fault {
        WordsFault::NoMemory => Status::Memory,
        _ => Status::Words,
    }
}

/// The status of a triangulation's text that is not read.
fn tin_status(fault: TinFault) -> Status
    ensures { result ≡ status_of_tin fault }
{
    match fault {
        TinFault::TooMany { .. } => Status::Limit,
        TinFault::NoMemory => Status::Memory,
        _ => Status::Tin,
    }
}

/// The status of a triangulation that is not known to be sound.
fn check_status(fault: CheckFault) -> Status
    ensures { result ≡ status_of_check fault }
{
    match fault {
        CheckFault::NoMemory => Status::Memory,
        _ => Status::Tin,
    }
}

/// The status of a layer that is not read.
fn layer_status(fault: LayerFault) -> Status
    ensures { result ≡ status_of_layer fault }
{
    match fault {
        LayerFault::NoMemory => Status::Memory,
        _ => Status::Layer,
    }
}

/// The status of a written layer that is not verified.
fn cert_status(fault: CertFault) -> Status
    ensures { result ≡ status_of_cert fault }
{
    match fault {
        CertFault::Layer(fault) => layer_status(fault),
        CertFault::NoMemory => Status::Memory,
        _ => Status::Uncertified,
    }
}

impl Refusal {
    /// The status with which the run ends.
    pub fn status(self) -> Status
        ensures { result ≡ status_of self }
    {
        match self {
            Refusal::Words(fault) => words_status(fault),
            Refusal::TinUnread
            | Refusal::LayerUnread { .. }
            | Refusal::WrittenUnread
            | Refusal::CertUnread => Status::Read,
            Refusal::TinLong
            | Refusal::LayersLong
            | Refusal::TooManyPieces
            | Refusal::TooManyChanges
            | Refusal::TooManySides
            | Refusal::WrittenLong
            | Refusal::CertLong => Status::Limit,
            Refusal::Tin(fault) => tin_status(fault),
            Refusal::Check(fault) => check_status(fault),
            Refusal::Layer { fault, .. } => layer_status(fault),
            Refusal::Outside { .. } => Status::Outside,
            Refusal::Certificate(fault) => cert_status(fault),
            Refusal::NoMemory => Status::Memory,
        }
    }

    /// The line that says so, with its line feed. It takes no memory.
    pub fn line(self) -> Line
        ensures { result.bytes ≡ line_of self }
    {
        match self {
            Refusal::Words(fault) => words_line(fault),
            Refusal::TinUnread => text_line("read fault: triangulation\n"),
            Refusal::TinLong => text_line("limit: bytes of triangulation\n"),
            Refusal::Tin(fault) => tin_line(fault),
            Refusal::Check(fault) => check_line(fault),
            Refusal::LayerUnread { layer } => {
                line_with_number("read fault: layer ", u64::from(layer), "\n")
            }
            Refusal::LayersLong => text_line("limit: bytes of layers\n"),
            Refusal::Layer { layer, fault } => layer_line(layer, fault),
            Refusal::Outside {
                layer,
                path,
                segment,
            } => outside_line(layer, path, segment),
            Refusal::TooManyPieces => text_line("limit: pieces\n"),
            Refusal::TooManyChanges => text_line("limit: changes\n"),
            Refusal::TooManySides => text_line("limit: sides\n"),
            Refusal::WrittenUnread => text_line("read fault: written\n"),
            Refusal::WrittenLong => text_line("limit: bytes of written\n"),
            Refusal::CertUnread => text_line("read fault: certificate\n"),
            Refusal::CertLong => text_line("limit: bytes of certificate\n"),
            Refusal::Certificate(fault) => cert_line(fault),
            Refusal::NoMemory => text_line("no memory\n"),
        }
    }
}
