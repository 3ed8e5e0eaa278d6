//! What processes do at a call.

ghost use Rattle.std.specs.Prelude.{◌≡◌, IfOk, map};
ghost use Rattle.std.specs.Option.{option_copied};
ghost use Rattle.chor_semantics.specs.Sources.{name_ref};
ghost use Rattle.projection.specs.Codes.{proc_named, param_for, passed_for, holds};
ghost use Rattle.block_codes.specs.Nodes.{call_in, called_in};
ghost use Rattle.block_codes.specs.Parts.{IsLeaf};

use crate::node::Spot;
use chor_base::{List, Memory, NameId};
use chor_tree::{Form, Named, Proc, ProcParam, SessionParam};
use endpoint_code::CodeNode;
use std::alloc::Global;

/// The last node of a block, and the procedure that it calls, if it calls one.
#[derive(Clone, Copy)]
pub struct Tail<'a> {
    pub spot: Spot<'a>,
    pub called: Option<&'a Proc>,
    pub ghost is_called: { option_copied called ≡ called_in spot.file.now.procs spot.node.now.form },
}

impl Tail<'_> {
    /// The call of a process; none where it isn't passed, and where the node is no call.
    #[tactic(auto, using(crate::proofs::Parts::tail_calls))]
    pub fn call_node(&self, alloc: Global, process: NameId) -> Result<Option<CodeNode>, Memory>
        ensures { IfOk result (IsLeaf (call_in self.now.spot.file.now.procs process self.now.spot.node.now.form)) }
    {
        match &self.spot.node.form {
            Form::Call {
                name,
                processes,
                sessions,
            } => {
                let Some(proc) = self.called else {
                    return Ok(None);
                };
                let params = proc.params.as_slice();
                let Some(param) = param_for(process, params, processes.as_slice()) else {
                    return Ok(None);
                };
                let declared = proc.sessions.as_slice();
                let passed = passed_for(alloc, param, declared, sessions.as_slice())?;
                Ok(Some(CodeNode::Call(name.name, param, passed)))
            }
            _ => Ok(None),
        }
    }
}

/// The procedure that a node of this form calls.
pub fn called<'a>(procs: &'a [Proc], form: &Form) -> Option<&'a Proc>
    ensures { option_copied result ≡ called_in procs.now form.now }
{
    match form {
        Form::Call { name, .. } => proc_named(procs, name.name),
        _ => None,
    }
}

// The first procedure of this name.
fn proc_named(procs: &[Proc], name: NameId) -> Option<&Proc>
    ensures { option_copied result ≡ proc_named procs.now name }
{
    for proc in procs {
        if proc.name.name == name {
            return Some(proc);
        }
    }
    None
}

// The process parameter in whose place the process is passed.
fn param_for(process: NameId, params: &[ProcParam], passed: &[Named]) -> Option<NameId>
    ensures { result ≡ param_for process params.now (map name_ref passed.now) }
{
    let mut params = params;
    let mut passed = passed;
    while let Some((param, more)) = params.split_first() {
        let Some((name, rest)) = passed.split_first() else {
            return None;
        };
        if process == name.name {
            return Some(param.name.name);
        }
        params = more;
        passed = rest;
    }
    None
}

// The sessions that are passed in the places of those that list the parameter as a holder.
fn passed_for(
    alloc: Global,
    param: NameId,
    sessions: &[SessionParam],
    passed: &[Named],
) -> Result<List<NameId>, Memory>
    ensures { IfOk result (λ list. list ≡ passed_for param sessions.now (map name_ref passed.now)) }
{
    let mut sessions = sessions;
    let mut passed = passed;
    let mut names = List::new(alloc);
    while let Some((session, more)) = sessions.split_first() {
        let Some((name, rest)) = passed.split_first() else {
            return Ok(names);
        };
        if holds(param, session.holders.as_slice()) {
            names.push(name.name)?;
        }
        sessions = more;
        passed = rest;
    }
    Ok(names)
}

// Whether the parameter is one of the holders.
fn holds(param: NameId, holders: &[(Named, Named)]) -> bool
    ensures { result ≡ holds param holders.now }
{
    for holder in holders {
        if holder.1.name == param {
            return true;
        }
    }
    false
}
