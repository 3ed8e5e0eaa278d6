//! What follows for a call.

ghost use Rattle.chor_cmd.specs.Follows.{WritesCanonical, KeepsCanonical, ExecutesThese, WritesNothing};

/// What follows for a call, whichever file or programs its bytes are the text of; and that a call whose
/// words ask for no workers has written nothing where it ran out of memory.
pub fn what_follows()
    ensures canonical { WritesCanonical }
    ensures same { KeepsCanonical }
    ensures executed { ExecutesThese }
    ensures nothing { WritesNothing }
{}
