//! What holds of all event texts.

ghost use Rattle.transcript.specs.Text.{Words};
ghost use Rattle.event_reader.specs.Known.{IsBook};
ghost use Rattle.event_reader.specs.Spelling.{HasOneSpelling};

/// Where names are words, and no name, text or process stands in the book at two places, a line is
/// the text of one event under one number at most.
pub fn one_spelling()
    ensures { (w : Words) → IsBook w → HasOneSpelling w }
{}
