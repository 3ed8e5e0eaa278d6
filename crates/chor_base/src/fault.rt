//! Faults of a file, and which of them comes first.

ghost use Rattle.std.specs.Prelude.{◌≡◌, None};
ghost use Rattle.chor_base.specs.Faults.{fault_if, rank, comes_before, earlier, first_of_all};

use crate::rule::{Denied, Place, Refusal, Rule};

/// A rule that a file violates, and where.
#[derive(Clone, Copy)]
pub struct Fault {
    pub rule: Rule,
    pub place: Place,
}

impl Fault {
    /// The refusal of a file for this fault. It names no process and no role.
    pub fn denied(self) -> Denied
        ensures { result ≡ Denied.Refused (record { rule = self.rule; place = self.place; who = None }) }
    {
        Denied::Refused(Refusal {
            rule: self.rule,
            place: self.place,
            who: None,
        })
    }
}

/// A fault where something holds.
pub fn fault_if(holds: bool, rule: Rule, place: Place) -> Option<Fault>
    ensures { result ≡ first_of_all (fault_if holds rule place) }
{
    if holds {
        Some(Fault { rule, place })
    } else {
        None
    }
}

/// Of two faults the one that comes first in the file. At one place it is the one by the rule of the
/// smaller number, and of two by the same rule the first one.
pub fn earlier(first: Option<Fault>, second: Option<Fault>) -> Option<Fault>
    ensures { result ≡ earlier first second }
{
    match (first, second) {
        (None, other) => other,
        (one, None) => one,
        (Some(one), Some(other)) => {
            if comes_before(other, one) {
                Some(other)
            } else {
                Some(one)
            }
        }
    }
}

fn comes_before(first: Fault, second: Fault) -> bool
    ensures { result ≡ comes_before first second }
{
    let (here, there) = (first.place, second.place);
    here.line < there.line
        || here.line == there.line
            && (here.col < there.col
                || here.col == there.col && rank(first.rule) < rank(second.rule))
}

// The digit of a rule's name.
#[tactic(auto, using(crate::proofs::Rules::has_digit))]
fn rank(rule: Rule) -> u8
    ensures { result ≡ rank rule }
{
    rule.name()[1]
}
