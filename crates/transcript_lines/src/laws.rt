//! What holds of all transcripts.

ghost use Rattle.transcript.specs.Text.{Words};
ghost use Rattle.event_reader.specs.Known.{AreWords, IsBook};
ghost use Rattle.transcript_lines.specs.Split.{SplitsIntoEvents, TellsItsEvents};

/// A transcript is split into the texts of its events and its last line: no event's text has a line
/// feed, where names are words.
pub fn transcript_splits()
    ensures { (w : Words) → AreWords w.names → SplitsIntoEvents w }
{}

/// The events of a run are read from its transcript: no two histories have one text.
pub fn one_history()
    ensures { (w : Words) → IsBook w → TellsItsEvents w }
{}
