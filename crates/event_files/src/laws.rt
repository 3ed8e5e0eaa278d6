//! What holds of all replays.

ghost use Rattle.event_files.specs.Networks.{NetworkReplaysTellOneAnswer};

/// A file has one answer at most, beside want of memory: it isn't replayed with two counts, two lines
/// aren't the first that doesn't match, and a file that is replayed has no such line.
pub fn one_answer()
    ensures { NetworkReplaysTellOneAnswer }
{}
