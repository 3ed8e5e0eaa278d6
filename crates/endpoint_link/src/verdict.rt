//! What is known of a given unit after it was compared with units of the base, one by one.

ghost use Rattle.std.specs.Prelude.{◌≡◌};
ghost use Rattle.endpoint_link.specs.Judged.{verdict_after};

use crate::fault::LinkRule;

/// How a given unit compares with one unit of the base.
#[derive(Clone, Copy, PartialEq, Eq)]
pub enum Comparison {
    /// It has another name.
    Other,
    /// It has the same name and may be put in its place.
    Suited,
    /// It has the same name and may not be put in its place.
    Unsuited,
}

/// The verdict on a given unit after one comparison more: no fault, or the rule that it violates so
/// far.
pub fn verdict_after(verdict: Option<LinkRule>, comparison: Comparison) -> Option<LinkRule>
    ensures { result ≡ verdict_after verdict comparison }
{
    match comparison {
        Comparison::Other => verdict,
        Comparison::Unsuited => Some(LinkRule::K1),
        Comparison::Suited => match verdict {
            Some(LinkRule::K1) => Some(LinkRule::K1),
            _ => None,
        },
    }
}
