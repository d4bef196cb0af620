//! Laws of triangulation files.

ghost use Rattle.std.specs.Prelude.{◌≡◌, ◌^◌};
ghost use Rattle.tin_file.specs.Laws.{AnswerIsOne, OutcomeExists};
ghost use Rattle.tin_file.specs.Laws.{TallAnswerIsOne, TallOutcomeExists, OffsetsAreOfCorners, HasNoHeightFaults};
ghost use Rattle.tin_file.specs.declared.tin_files.TheConstants.{MOST_BYTES};

/// A law: except where memory runs out, bytes have one answer.
pub fn answer_is_one()
    ensures { AnswerIsOne }
{}

/// A law: any bytes say a triangulation or have a fault. With the law above, what bytes say is one
/// function of them.
pub fn outcome_exists()
    ensures { OutcomeExists }
{}

/// A law: except where memory runs out, bytes have one answer of `read_tall`.
pub fn tall_answer_is_one()
    ensures { TallAnswerIsOne }
{}

/// A law: any bytes say a triangulation with offsets or have a fault.
pub fn tall_outcome_exists()
    ensures { TallOutcomeExists }
{}

/// A law: what `read_tall` reads has one offset for each corner.
pub fn offsets_are_of_corners()
    ensures { OffsetsAreOfCorners }
{}

/// A law: `read_tin` never gives the faults `NoVertical` and `Offset`.
pub fn height_faults_are_of_heights()
    ensures { HasNoHeightFaults }
{}

/// A law: the limit is this number.
pub fn limits_are_stated()
    ensures bytes { MOST_BYTES ≡ 2 ^ 26 }
{}
