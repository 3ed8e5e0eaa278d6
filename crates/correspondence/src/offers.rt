//! Code that offers more branches than code that follows a choreography.

ghost use Rattle.correspondence.specs.CodeAbove.{AboveFollows};

/// Code above code that follows a choreography follows it too.
pub fn above_follows()
    ensures { AboveFollows }
{}
