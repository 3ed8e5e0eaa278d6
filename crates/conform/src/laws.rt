//! What holds of all logs.

ghost use Rattle.conform.specs.Judged.{AstrayOnce};
ghost use Rattle.conform.specs.Laws.{PrefixesConform, ViewsAreRead, EndsAreRead};

/// Each prefix of a log that conforms conforms.
pub fn prefixes_conform()
    ensures { PrefixesConform }
{}

/// A role follows its view exactly where what it has done can be read from its local type, and has
/// done all exactly where that leads to an end.
pub fn views_are_read()
    ensures follows { ViewsAreRead }
    ensures ends { EndsAreRead }
{}

/// A log that goes astray doesn't conform, and one event alone is the first that goes astray: so a log
/// has one answer.
pub fn astray_once()
    ensures { AstrayOnce }
{}
