//! What holds of all logs.

ghost use Rattle.conforming_logs.specs.Laws.{LogsTellOneAnswer, TranscriptsConform, EndedTranscriptsConform};

/// A file of events has one answer at most, beside want of memory: it doesn't conform with two counts,
/// two lines aren't the first that doesn't match, and a file that conforms has no such line.
pub fn one_answer()
    ensures { LogsTellOneAnswer }
{}

/// The transcript of a run of an accepted source conforms: no line of it is unmatched. Its last line
/// may be `limit N`, and `end N` where nothing is left to happen.
pub fn transcripts_conform()
    ensures open { TranscriptsConform }
    ensures ended { EndedTranscriptsConform }
{
    conform_laws::runs_conform_by_role();
}
