//! Processes that use the sessions in which they hold a role, and their code.

ghost use Rattle.accepted_files.specs.HeldLaws.{CodesAreScoped, ServicesAreScoped};

/// A process that uses the sessions in which it holds a role has code that uses its session names
/// well, where those sessions are bound.
pub fn codes_are_scoped()
    ensures { CodesAreScoped }
{}

/// The code of a service role uses its session names well where the channel's name is bound, if
/// after each start the role's new process uses the session of the start.
pub fn services_are_scoped()
    ensures { ServicesAreScoped }
{}
