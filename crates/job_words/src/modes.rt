//! The modes of the program.

ghost use Rattle.std.specs.Prelude.{◌≡◌};
ghost use Rattle.job_words.specs.Modes.{mode_of};

/// What the first word may ask for.
#[derive(Clone, Copy)]
pub enum Mode {
    /// To carry layers through a triangulation.
    Migrate,
    /// To check a triangulation.
    Check,
    /// To make a triangulation and a layer, and to migrate the layer.
    Make,
    /// To verify a written layer by its certificate.
    Verify,
    /// To move points with heights through a triangulation.
    Heights,
}

impl Mode {
    /// The mode that a word spells.
    pub fn of(word: &str) -> Option<Mode>
        ensures { result ≡ mode_of word.now }
    {
        match word {
            "migrate" => Some(Mode::Migrate),
            "check" => Some(Mode::Check),
            "make" => Some(Mode::Make),
            "verify" => Some(Mode::Verify),
            "heights" => Some(Mode::Heights),
            _ => None,
        }
    }
}
