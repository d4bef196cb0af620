//! What the words of a mode may be, or those of a program without modes.

ghost use Rattle.std.specs.Prelude.{◌≡◌};
ghost use Rattle.std.specs.Option.{option_map};
ghost use Rattle.job_words.specs.Modes.{mode_of};
ghost use Rattle.job_words.specs.declared.modes.Mode.TheVariants.{Migrate, Check, Make, Verify, Heights};
ghost use Rattle.run_notes.specs.WordForms.{form_for, places_form};
ghost use Rattle.run_notes.specs.InsideWordFlaws.{form_in};

/// What words have to be, of a mode or of a program without modes.
#[derive(Clone, Copy)]
pub(crate) struct WordForm {
    /// The options that take a value, all of which have to be there, and how each is written with its value.
    pub(crate) valued: &'static [(&'static str, &'static str)],
    /// The options that take a value and need not be there.
    pub(crate) optional: &'static [&'static str],
    /// The options without a value.
    pub(crate) flags: &'static [&'static str],
    /// How many words that are no options there may be, where there is a limit.
    pub(crate) most_words: Option<usize>,
    /// What is missing where there is no such word.
    pub(crate) word: Option<&'static str>,
}

/// What `migrate` takes.
fn migrate_form() -> WordForm
    ensures { form_in result ≡ form_for Migrate }
{
    WordForm {
        valued: &[("--tin", "--tin FILE"), ("--out", "--out FOLDER")],
        optional: &[],
        flags: &[
            "--inverse",
            "--exact",
            "--inside-only",
            "--drop-other",
            "--cert",
            "--sides",
        ],
        most_words: None,
        word: Some("LAYER"),
    }
}

/// What `tinplaces` takes, which has no modes: a triangulation and layers, and if it is wanted the member that is
/// printed.
pub(crate) fn places_form() -> WordForm
    ensures { form_in result ≡ places_form }
{
    WordForm {
        valued: &[("--tin", "--tin FILE")],
        optional: &["--name"],
        flags: &[
            "--inverse",
            "--exact",
            "--inside-only",
            "--drop-other",
            "--cert",
            "--sides",
            "--lines",
            "--across",
        ],
        most_words: None,
        word: Some("LAYER"),
    }
}

/// What `check` takes.
fn check_form() -> WordForm
    ensures { form_in result ≡ form_for Check }
{
    WordForm {
        valued: &[("--tin", "--tin FILE")],
        optional: &[],
        flags: &["--exact", "--inside-only"],
        most_words: Some(0),
        word: None,
    }
}

/// What `make` takes.
fn make_form() -> WordForm
    ensures { form_in result ≡ form_for Make }
{
    WordForm {
        valued: &[],
        optional: &[],
        flags: &[],
        most_words: Some(1),
        word: Some("N"),
    }
}

/// What `verify` takes.
fn verify_form() -> WordForm
    ensures { form_in result ≡ form_for Verify }
{
    WordForm {
        valued: &[
            ("--tin", "--tin FILE"),
            ("--source", "--source LAYER"),
            ("--written", "--written FILE"),
            ("--cert", "--cert FILE"),
        ],
        optional: &[],
        flags: &["--inverse", "--exact", "--inside-only", "--drop-other"],
        most_words: Some(0),
        word: None,
    }
}

/// What `heights` takes.
fn heights_form() -> WordForm
    ensures { form_in result ≡ form_for Heights }
{
    WordForm {
        valued: &[("--tin", "--tin FILE"), ("--out", "--out FOLDER")],
        optional: &[],
        flags: &["--exact", "--inside-only"],
        most_words: Some(1),
        word: Some("POINTS"),
    }
}

/// What the mode of this name takes.
pub(crate) fn form_of(mode: &str) -> Option<WordForm>
    ensures { option_map form_in result ≡ option_map form_for (mode_of mode.now) }
{
    match mode {
        "migrate" => Some(migrate_form()),
        "check" => Some(check_form()),
        "make" => Some(make_form()),
        "verify" => Some(verify_form()),
        "heights" => Some(heights_form()),
        _ => None,
    }
}
