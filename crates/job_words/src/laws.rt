//! What holds of the answers to words.

ghost use Rattle.job_words.specs.Laws.{JobsAreKept, WordsHaveOneAnswer};
ghost use Rattle.job_words.specs.PlacesJobs.{PlacesHaveAnswers, PlacesJobsAreKept};

/// All words have one job or one fault.
pub fn words_have_one_answer()
    ensures { WordsHaveOneAnswer }
{}

/// The names of each job of words may be taken, each layer and each source has a format, no two layers are written
/// into one file, and a size may be made.
pub fn jobs_are_kept()
    ensures { JobsAreKept }
{}

/// All words of `tinplaces` have a job or a fault. Both are one function of the words.
pub fn places_have_answers()
    ensures { PlacesHaveAnswers }
{}

/// The names of each job of such words may be taken, and each layer has a format.
pub fn places_jobs_are_kept()
    ensures { PlacesJobsAreKept }
{}
