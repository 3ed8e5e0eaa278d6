//! Endpoint programs that the same bytes are the text of are the same programs, and have the same transcripts.

ghost use Rattle.projected_programs.specs.SameBytes.{ProgramsOfBytesAreSame, TranscriptsOfBytesAgree};

/// What is read from the same bytes are the same programs, up to the numbers of nodes.
pub fn programs_of_bytes_are_same()
    ensures { ProgramsOfBytesAreSame }
{}

/// So the transcript of a scheduled run is one of the bytes: whichever programs they are the text of, it
/// is the transcript of those.
pub fn transcripts_of_bytes_agree()
    ensures { TranscriptsOfBytesAgree }
{}
