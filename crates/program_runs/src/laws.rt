//! What holds of the runs of sources, and of transcripts of programs that are the same.

ghost use Rattle.program_runs.specs.Laws.{SourcesRunAlike, SourcesEndAlike, SameRunsAreWrittenAlike, TranscriptsAgree, TranscriptsByWorkersAgree};

/// Files that are one source have the same runs, and the same runs that have ended, however their nodes
/// are numbered.
pub fn sources_run_alike()
    ensures run { SourcesRunAlike }
    ensures end { SourcesEndAlike }
{}

/// The same events of the same programs are written with the same bytes.
pub fn same_runs_are_written_alike()
    ensures { SameRunsAreWrittenAlike }
{}

/// What is a transcript of endpoint programs is one of programs with the same units.
pub fn transcripts_agree()
    ensures { TranscriptsAgree }
{}

/// So it is with transcripts of runs that workers made.
pub fn transcripts_by_workers_agree()
    ensures { TranscriptsByWorkersAgree }
{}
