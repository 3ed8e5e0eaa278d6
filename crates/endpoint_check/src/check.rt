//! The check of an endpoint file beyond its grammar.

ghost use Rattle.std.specs.Prelude.{◌≡◌, ◌<◌, [], Contains, IfErr, OnOk, length};
ghost use Rattle.chor_base.specs.Faults.{first_of_all, IsDenial};
ghost use Rattle.chor_host.specs.Functions.{names_of};
ghost use Rattle.chor_host.specs.Tables.{functions_of};
ghost use Rattle.endpoint_names.specs.Faults.{setting};
ghost use Rattle.endpoint_names.specs.Bodies.{body_at};
ghost use Rattle.endpoint_names.specs.Class.{opening_faults, begin_faults, IsFaultless, IsBroken};

use chor_base::{Denied, Fault, Names, Rule, earlier};
use chor_host::HostTable;
use endpoint_names::{check_names, line_at};
use endpoint_reader::{Line, Procedure, Written};
use std::alloc::Global;

// Checks what an endpoint file names, where programs may call these host functions, and then how its
// procedures begin. The first fault of names decides, or, where there is none, the first procedure
// that begins with a call.
//
// What isn't declared or isn't bound, what is declared or bound twice, and a call that doesn't fit
// its procedure are refused by E2, and a procedure that begins with a call by E3.
#[tactic(auto, using(endpoint_names::proofs::Classes::names_broken, endpoint_names::proofs::Classes::beginnings_broken))]
pub fn check_written(
    alloc: Global,
    written: &Written,
    names: &Names,
    hosts: &HostTable,
) -> Result<(), Denied>
    ensures ok { OnOk result (IsFaultless (setting written.now names.now (names_of (functions_of hosts.now)))) }
    ensures refused { IfErr result (IsBroken (setting written.now names.now (names_of (functions_of hosts.now)))) }
{
    check_names(alloc, written, names, hosts)?;
    check_beginnings(written)?;
    Ok(())
}

#[tactic(auto, using(chor_base::proofs::Faults::none_is_empty, endpoint_names::proofs::Classes::denied_for))]
fn check_beginnings(written: &Written) -> Result<(), Denied>
    ensures ok { OnOk result (begin_faults written.now ≡ []) }
    ensures refused { IfErr result (IsDenial (Contains (begin_faults written.now))) }
{
    match first_beginning(written) {
        None => Ok(()),
        Some(fault) => Err(fault.denied()),
    }
}

// The first procedure that begins with a call.
fn first_beginning(written: &Written) -> Option<Fault>
    ensures { result ≡ first_of_all (begin_faults written.now) }
{
    let mut first = None;
    for procedure in written.procedures.as_slice() {
        first = earlier(first, beginning(written, procedure));
    }
    first
}

// A procedure's body that begins with a call.
fn beginning(written: &Written, procedure: &Procedure) -> Option<Fault>
    requires { procedure.now.body.0 < length written.now.lines.items }
    ensures { result ≡ first_of_all (opening_faults (body_at written.now.lines.items procedure.now.body)) }
{
    match line_at(written, procedure.body) {
        Line::Call(place, _) => Some(Fault {
            rule: Rule::E3,
            place: *place,
        }),
        Line::Act(..) | Line::Branch(..) | Line::If(..) | Line::End => None,
    }
}
