//! What is true of the definitions that the contracts cite.

ghost use Rattle.std.specs.Prelude.{◌≡◌, codes};
ghost use Rattle.run_notes.specs.declared.command_words.TheConstants.{NO_WORD};
ghost use Rattle.run_notes.specs.declared.strays.TheConstants.{MOST_DEGREES};
ghost use Rattle.run_notes.specs.Substitutes.{SubstitutesGiveNoJob};

/// A law: the words that replace those that are no text are an invalid command line, whatever the first one is.
pub fn substitutes_give_no_job()
    ensures { SubstitutesGiveNoJob }
{}

/// Laws: the word that takes the place of those that are no text, and the greatest number of degrees, in thousandths.
pub fn limits_are_stated()
    ensures no_word { NO_WORD.now ≡ codes "--not-utf8" }
    ensures degrees { MOST_DEGREES ≡ 360000 }
{}
