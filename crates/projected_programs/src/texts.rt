//! The text of endpoint programs without a fault is that of endpoint programs.

ghost use Rattle.projected_programs.specs.ReadLaws.{TextIsOfPrograms};

use crate::accepted_or_refused;

/// The text of endpoint programs without a fault, where it is no longer than a file may be, is the
/// text of endpoint programs: what reads it has something to read.
pub fn text_is_of_programs()
    ensures { TextIsOfPrograms }
{
    accepted_or_refused()
}
