//! How a run ends.

/// How a run ended.
#[derive(Clone, Copy, Debug, PartialEq, Eq)]
pub enum Status {
    /// All is written, and neither a change nor a change of sides is listed.
    Same,
    /// All is written, and a change or a change of sides is listed.
    Changed,
    /// The words are not understood.
    Words,
    /// The triangulation is refused.
    Tin,
    /// A layer is refused by its format.
    Layer,
    /// A layer has a segment that is not wholly in the source triangles.
    Outside,
    /// A file is missing or could not be read.
    Read,
    /// What was to be written could not be written.
    Write,
    /// Memory ran out.
    Memory,
    /// A count passes its limit.
    Limit,
    /// A written layer is not as its certificate says, or the certificate is none of its source.
    Uncertified,
}

impl Status {
    ghost use Rattle.std.specs.Prelude.{◌≡◌};
    ghost use Rattle.runs.specs.Status.{code_of};

    /// The status with which the process ends.
    pub fn code(self) -> u8
        ensures { result ≡ code_of self }
    {
        match self {
            Status::Same => 0,
            Status::Changed => 1,
            Status::Words => 2,
            Status::Tin => 3,
            Status::Layer => 4,
            Status::Outside => 5,
            Status::Read => 6,
            Status::Write => 7,
            Status::Memory => 8,
            Status::Limit => 9,
            Status::Uncertified => 10,
        }
    }
}
