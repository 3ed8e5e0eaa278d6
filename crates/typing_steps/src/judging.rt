//! Rules that are checked in order, of which the first that is violated decides.

ghost use Rattle.std.specs.Prelude.{◌≡◌, ◌∷◌, []};
ghost use Rattle.delegation.specs.Checks.{IsJudged, ask, first_failed};

use chor_base::Rule;
use delegation::OwnFault;

// The rule, where it is violated.
pub fn ask(holds: bool, rule: Rule) -> Option<Rule>
    ensures { result ≡ ask holds rule }
{
    if holds { None } else { Some(rule) }
}

// Of two rules the first that is violated.
pub fn first_of(first: Option<Rule>, second: Option<Rule>) -> Option<Rule>
    ensures { result ≡ first_failed (first ∷ second ∷ []) }
{
    match (first, second) {
        (Some(rule), _) => Some(rule),
        (None, Some(rule)) => Some(rule),
        (None, None) => None,
    }
}

// A fault, where a rule is violated.
pub fn judged(rule: Option<Rule>) -> Result<(), OwnFault>
    ensures { IsJudged rule result }
{
    match rule {
        Some(rule) => Err(OwnFault::Rule(rule)),
        None => Ok(()),
    }
}
