//! What a node names, and what it passes.

ghost use Rattle.std.specs.Prelude.{◌≡◌, map};
ghost use Rattle.std.specs.List.{list_any};
ghost use Rattle.chor_tree.specs.Forms.{head_of};
ghost use Rattle.chor_tree.specs.Names.{is_among, names_in};
ghost use Rattle.typing_rules.specs.Guarded.{named_by, passed_by};

use chor_base::NameId;
use chor_tree::{Form, Named, Part};

// Whether a node names a process.
#[tactic(auto, using(crate::proofs::Members::among_parts, crate::proofs::Members::among_two, crate::proofs::Members::among_one))]
pub fn names(form: &Form, process: NameId) -> bool
    ensures { result ≡ is_among (named_by (head_of form.now)) process }
{
    match form {
        Form::Start { active, serve, .. } => {
            has_process(active.as_slice(), process) || has_process(serve.as_slice(), process)
        }
        Form::Value { from, to, .. } | Form::Label { from, to, .. } | Form::Give { from, to, .. } =>
            { from.process.name == process || to.process.name == process }
        Form::Set { process: at, .. }
        | Form::Host { process: at, .. }
        | Form::Show { process: at, .. }
        | Form::If { process: at, .. } => at.name == process,
        Form::Call { .. } | Form::End => false,
    }
}

fn has_process(parts: &[Part], process: NameId) -> bool
    ensures { result ≡ is_among (map (λ q. q.process.name) parts.now) process }
{
    for part in parts {
        if part.process.name == process {
            return true;
        }
    }
    false
}

// Whether a node passes one of these processes.
pub fn passes(form: &Form, processes: &[NameId]) -> bool
    ensures { result ≡ list_any (is_among processes.now) (passed_by (head_of form.now)) }
{
    match form {
        Form::Call {
            processes: passed,
            ..
        } => has_one_of(passed.as_slice(), processes),
        _ => false,
    }
}

fn has_one_of(passed: &[Named], processes: &[NameId]) -> bool
    ensures { result ≡ list_any (is_among processes.now) (names_in passed.now) }
{
    for process in passed {
        if has_name(processes, process.name) {
            return true;
        }
    }
    false
}

fn has_name(names: &[NameId], wanted: NameId) -> bool
    ensures { result ≡ is_among names.now wanted }
{
    for name in names {
        if *name == wanted {
            return true;
        }
    }
    false
}
