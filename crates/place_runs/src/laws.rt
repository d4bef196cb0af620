//! What is true of the definitions that the contracts cite.

ghost use Rattle.place_runs.specs.Laws.{AllPlacesAreKnown, OutcomeExists, OutcomeIsOne};

/// A law: a run has one outcome.
pub fn outcome_is_one()
    ensures { OutcomeIsOne }
{
    layer_formats::layer_texts_are_one();
    layer_features::features_are_one();
    migrate_mode::migration_is_one();
}

/// A law: a run has an outcome, whatever the words and the files are. So with the law above it is one function of them.
pub fn outcome_exists()
    ensures { OutcomeExists }
{
    job_words::places_jobs_are_kept();
    migrate_mode::migration_exists();
    layer_features::features_exist();
    seg_gap::gap_exists();
    seg_gap::nearest_end_exists();
}

/// A law: both sides of each change that is printed say where their paths begin, and none is `null`. So do the ring of
/// each change of sides that is printed, and its point where it has one.
pub fn places_are_known()
    ensures { AllPlacesAreKnown }
{
    ring_side::lists_are_all_side_changes();
    dxf_layer::each_path_has_an_edit();
    layer_formats::layer_texts_are_one();
}
