//! What is true of the definitions that the contracts cite.

ghost use Rattle.whole_runs.specs.Laws.{OutcomeExists, OutcomeIsOne, EndKeepsRelations, EndKeepsMadeRelations};

/// A law: a run has one outcome.
pub fn outcome_is_one()
    ensures { OutcomeIsOne }
{
    migrate_mode::migration_is_one();
    migrate_mode::making_is_one();
    verify_mode::verification_is_one();
    height_mode::heights_are_one();
}

/// A law: a run has an outcome, whatever the words and the files are. So with the law above it is one function of them.
pub fn outcome_exists()
    ensures { OutcomeExists }
{
    job_words::words_have_one_answer();
    job_words::jobs_are_kept();
    migrate_mode::migration_exists();
    migrate_mode::making_exists();
    check_mode::check_end_exists();
    verify_mode::verification_exists();
    height_mode::heights_exist();
}

/// A law: however a run ends that is asked for a migration, the segments that it wrote have the relations of their
/// pieces in the source, or its report lists those that have not. One kind of drawing is excepted: one whose next
/// handle, after those that copies were given, has more than fifteen hexadecimal digits. It is written all the same.
pub fn end_keeps_relations()
    ensures { EndKeepsRelations }
{}

/// A law: so does the end of a run that is asked for what is made.
pub fn end_keeps_made_relations()
    ensures { EndKeepsMadeRelations }
{}
