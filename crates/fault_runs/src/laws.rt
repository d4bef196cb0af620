//! What is true of the definitions that the contracts cite.

ghost use Rattle.std.specs.Prelude.{◌≡◌, ◌^◌};
ghost use Rattle.fault_runs.specs.declared.loads.TheConstants.{MOST_FAULTS};
ghost use Rattle.fault_runs.specs.Laws.{FaultsAreJson, OutcomeExists, OutcomeIsOne};

/// A law: a run has one outcome at most.
pub fn outcome_is_one()
    ensures { OutcomeIsOne }
{
    tin_file::answer_is_one();
    runs::tin_end_is_one();
    tin_faults::faults_are_one();
    tin_faults::lists_are_counted();
}

/// A law: a run has an outcome, whatever the words and the files are. So with the law above it is one function of them.
pub fn outcome_exists()
    ensures { OutcomeExists }
{
    tin_file::outcome_exists();
    tin_faults::faults_exist();
    tin_faults::lists_are_counted();
}

/// A law: the text of faults is a JSON text (RFC 8259), and is read as the value of these faults and as no other. Their
/// numbers fit their fields.
pub fn faults_are_json()
    ensures { FaultsAreJson }
{}

/// A law: the most faults of a list that is printed are this many.
pub fn limits_are_stated()
    ensures faults { MOST_FAULTS ≡ 2 ^ 20 }
{}
