//! What holds of all runs that go on.

ghost use Rattle.resume.specs.Laws.{FrontsAreResumed};

/// A run by the pick rule that is cut anywhere goes on to itself: from each front of its events, with
/// its seed and its number of events.
pub fn fronts_are_resumed()
    ensures { FrontsAreResumed }
{}
