//! What is true of the definitions that the contracts cite.

ghost use Rattle.layer_formats.specs.LayerOutcomes.{LayerTextsAreOne, LayerOutcomesExist};
ghost use Rattle.sheet_base.specs.Outcomes.{OutcomeIsOne, OutcomeExists};

use crate::in_each_format;
use sheet_base::Layer;

/// A law of the format `L`: a text is a layer of one sheet, or has one first fault, and not both.
fn outcome_is_one<L: Layer>()
    ensures { OutcomeIsOne L.reads L.refuses }
{
    L::outcome_is_one();
}

/// A law of the format `L`: any text is a layer of some sheet, or has a first fault.
fn outcome_exists<L: Layer>()
    ensures { OutcomeExists L.reads L.refuses }
{
    L::outcome_exists();
}

/// A law: in each format a text is a layer of one sheet, or has one first fault, and not both.
pub fn layer_texts_are_one()
    ensures { LayerTextsAreOne }
{
    in_each_format!(outcome_is_one());
}

/// A law: in each format any text is a layer of some sheet, or has a first fault.
pub fn layer_outcomes_exist()
    ensures { LayerOutcomesExist }
{
    in_each_format!(outcome_exists());
}
