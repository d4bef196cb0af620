//! What is true of texts that are shown.

ghost use Rattle.std.specs.Prelude.{◌≡◌};
ghost use Rattle.shown_text.specs.declared.texts.TheConstants.{MOST_SHOWN};
ghost use Rattle.shown_text.specs.Laws.{ShownTextsArePlain, ShownTextsAreShort, ShortPlainTextsStay};

/// A law: no character of a text that is shown is an order.
pub fn shown_texts_are_plain()
    ensures { ShownTextsArePlain }
{}

/// A law: it has at most `MOST_SHOWN` bytes and the two dots.
pub fn shown_texts_are_short()
    ensures { ShownTextsAreShort }
{}

/// A law: a text without an order, of at most `MOST_SHOWN` bytes, is shown as it is.
pub fn short_plain_texts_stay()
    ensures { ShortPlainTextsStay }
{}

/// A law: at most this many bytes are shown of one text.
pub fn limits_are_stated()
    ensures shown { MOST_SHOWN ≡ 200 }
{}
