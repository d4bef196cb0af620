//! What is true of the definitions that the contracts cite.

ghost use Rattle.layer_features.specs.Laws.{FeaturesAreOne, FeaturesExist, DrawingFeaturesAreOne, CopiesAreValues, HandlesAreHexadecimal};

/// A law: a text has one list of features.
pub fn features_are_one()
    ensures { FeaturesAreOne }
{
    jtext::value_is_one();
}

/// A law: each JSON text has a list of features.
pub fn features_exist()
    ensures { FeaturesExist }
{}

/// A law: a drawing has one list of features.
pub fn drawing_features_are_one()
    ensures { DrawingFeaturesAreOne }
{}

/// A law: the parts of a text that are ids and members of properties are JSON values (RFC 8259).
pub fn copies_are_values()
    ensures { CopiesAreValues }
{}

/// A law: the parts of a drawing that are handles are hexadecimal digits.
pub fn handles_are_hexadecimal()
    ensures { HandlesAreHexadecimal }
{}
