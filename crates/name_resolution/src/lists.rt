//! The lists of starts and calls.

ghost use Rattle.std.specs.Prelude.{◌≡◌, map, option_copied};
ghost use Rattle.std.specs.List.{flat_map};
ghost use Rattle.chor_tree.specs.Names.{names_in, are_same, wrong_parts, wrong_numbers, unknown_process, unknown_session};
ghost use Rattle.chor_base.specs.Faults.{first_of_all};

use crate::scope::Bound;
use chor_base::{Fault, List, Rule, earlier, fault_if};
use chor_tree::{Named, Part, Proc, Service};

// A start whose roles aren't its channel's, in order.
pub fn wrong_parts(
    service: Option<&Service>,
    channel: &Named,
    active: &List<Part>,
    serve: &List<Part>,
) -> Option<Fault>
    ensures { result ≡ first_of_all (wrong_parts (option_copied service.entry) channel.now active.now serve.now) }
{
    match service {
        Some(service) => {
            let fits = have_roles(active.as_slice(), service.active.as_slice())
                && have_roles(serve.as_slice(), service.serve.as_slice());
            fault_if(!fits, Rule::N3, channel.place)
        }
        None => None,
    }
}

// Whether parts have these roles, in order.
fn have_roles(parts: &[Part], roles: &[Named]) -> bool
    ensures { result ≡ are_same (map (λ q. q.role.name) parts.now) (names_in roles.now) }
{
    if parts.len() != roles.len() {
        return false;
    }
    for (index, part) in parts.iter().enumerate() {
        if part.role.name != roles[index].name {
            return false;
        }
    }
    true
}

// A call with another number of processes or sessions than its procedure.
pub fn wrong_numbers(
    procedure: Option<&Proc>,
    name: &Named,
    processes: &List<Named>,
    sessions: &List<Named>,
) -> Option<Fault>
    ensures { result ≡ first_of_all (wrong_numbers (option_copied procedure.entry) name.now processes.now sessions.now) }
{
    match procedure {
        Some(procedure) => {
            let fits = processes.len() == procedure.params.len()
                && sessions.len() == procedure.sessions.len();
            fault_if(!fits, Rule::N3, name.place)
        }
        None => None,
    }
}

pub fn unknown_in_parts(bound: &Bound, parts: &List<Part>) -> Option<Fault>
    ensures { result ≡ first_of_all (flat_map (λ q. unknown_process bound.now q.process) parts.now) }
{
    let mut first = None;
    for part in parts.as_slice() {
        first = earlier(first, bound.unknown_process(&part.process));
    }
    first
}

pub fn unknown_processes(bound: &Bound, processes: &List<Named>) -> Option<Fault>
    ensures { result ≡ first_of_all (flat_map (unknown_process bound.now) processes.now) }
{
    let mut first = None;
    for process in processes.as_slice() {
        first = earlier(first, bound.unknown_process(process));
    }
    first
}

pub fn unknown_sessions(bound: &Bound, sessions: &List<Named>) -> Option<Fault>
    ensures { result ≡ first_of_all (flat_map (unknown_session bound.now) sessions.now) }
{
    let mut first = None;
    for session in sessions.as_slice() {
        first = earlier(first, bound.unknown_session(session));
    }
    first
}
