//! What holds of all replays of sources.

ghost use Rattle.accepted_replays.specs.Laws.{RunsEndTogether, SourceRunsConform, EndedSourceRunsEnd};
ghost use Rattle.accepted_replays.specs.Laws.{SourceReplaysTellOneAnswer, SourceNamesAreWords};

/// A run of the choreography of a file without faults has ended exactly where every process of its
/// projection's network has ended after the same events.
pub fn runs_end_together()
    ensures { RunsEndTogether }
{}

/// In each run of an accepted source each session has one path of its protocol that all its roles
/// follow, to its end where the run has ended.
pub fn runs_conform()
    ensures conform { SourceRunsConform }
    ensures end { EndedSourceRunsEnd }
{
    typed_sources::runs_conform();
}

/// A file of events has one answer at most, beside want of memory: it isn't replayed with two counts,
/// two lines aren't the first that doesn't match, and a file that is replayed has no such line.
pub fn one_answer()
    ensures { SourceReplaysTellOneAnswer }
{}

/// The names of a file that was read are words.
pub fn names_are_words()
    ensures { SourceNamesAreWords }
{}
