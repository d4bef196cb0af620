//! The name at the end of a report's line.

ghost use Rattle.std.specs.Prelude.{◌≡◌};
ghost use Rattle.text_fields.specs.Fields.{Gives};
ghost use Rattle.report_text.specs.InsideFields.{name_behind, are_printable};

use text_fields::after;

fn is_printable(name: &[u8]) -> bool
    ensures { result ≡ are_printable name.now }
{
    name.iter().all(|byte| *byte >= 32)
}

/// The name that is the rest of a line.
#[tactic(auto, unfolding(crate::specs::InsideFields::name_behind))]
pub(crate) fn name_at(text: &[u8]) -> Option<&str>
    ensures { Gives (λ name. name.now) result (name_behind text.now) }
{
    let name = after(text, b" name ")?;
    let Ok(name_text) = str::from_utf8(name) else {
        return None;
    };
    if is_printable(name) {
        Some(name_text)
    } else {
        None
    }
}
