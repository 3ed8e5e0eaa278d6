//! The run of an accepted source that begins with the events of a file.

ghost use Rattle.std.specs.Prelude.{◌≡◌, ◌<◌, ◌≤◌, ◌^◌, [], true, IfOk, IfErr, length};
ghost use Rattle.chor_host.specs.Functions.{names_of, hosts_in};
ghost use Rattle.chor_host.specs.Tables.{functions_of};
ghost use Rattle.endpoint_code.specs.Network.{has_room};
ghost use Rattle.well_formed.specs.Asked.{IsAnswered};
ghost use Rattle.accepted_files.specs.Accepted.{RunsAreNetworkRuns};
ghost use Rattle.accepted_files.specs.MoreNames.{RunsAskAlike, ScheduledRunsAskAlike};
ghost use Rattle.accepted_files.specs.Runs.{ScheduledRunsAreRuns};
ghost use Rattle.event_reader.specs.Known.{AreWords};
ghost use Rattle.event_files.specs.FewLines.{HasFewLines};
ghost use Rattle.accepted_resumes.specs.Sources.{IsResumedOf, StopsResume};

use crate::telling::tell;
use accepted_replays::accepted_events;
use chor_host::HostTable;
use replay::ReplayFault;
use resume::{Plan, resume};
use simulation::Accepted;
use std::alloc::Global;
use transcript_lines::whole_lines;

/// The transcript of the run of an accepted source that begins with the events of a file and goes on by
/// the pick rule, to its end or to as many events as asked for, or as the file has where these are more.
/// A line that broke off, without its line feed, is dropped. `Unmatched` tells the number of the first
/// whole line, from 1, that doesn't match as for `replay_accepted`. It asks the host functions of the
/// table with which the source was accepted. It is never stuck.
pub fn resume_accepted(
    alloc: Global,
    accepted: &Accepted,
    hosts: &HostTable,
    plan: Plan,
    bytes: &[u8],
) -> Result<Vec<u8>, ReplayFault>
    requires hosts { accepted.now.typed.hosts ≡ names_of (functions_of hosts.now) }
    requires words { AreWords accepted.now.typed.file.names }
    requires queues { has_room plan.capacity [] ≡ true }
    requires seed { plan.schedule.seed < 2 ^ 32 }
    requires steps { plan.schedule.steps ≤ 1000000 }
    requires few { length bytes.now ≤ 2 ^ 26 }
    requires lines { HasFewLines 1000000 bytes.now }
    ensures resumed { IfOk result (λ text. IsResumedOf accepted.now (functions_of hosts.now) plan bytes.now text.items) }
    ensures stopped { IfErr result (StopsResume accepted.now.typed.file (hosts_in accepted.now.typed.file.names (functions_of hosts.now)) plan.capacity bytes.now) }
{
    laws();
    functions_answer(accepted, hosts);
    let given = accepted_events(alloc, accepted, hosts, plan.capacity, whole_lines(bytes))?;
    let endpoints = accepted.endpoints();
    // that no name stands twice
    let _names = endpoints.names.len();
    let ran = resume(alloc, endpoints, hosts, given.as_slice(), plan)?;
    let text = tell(alloc, accepted.typed().file(), &ran)?;
    Ok(text)
}

// What is proved of each accepted file and its runs.
fn laws()
    ensures alike { RunsAskAlike }
    ensures scheduled { ScheduledRunsAskAlike }
    ensures back { RunsAreNetworkRuns }
    ensures runs { ScheduledRunsAreRuns }
{
    accepted_files::runs_ask_alike();
    accepted_files::checked_runs();
    accepted_files::scheduled_runs_are_runs();
}

// Each host function that an accepted file asks has an answer.
fn functions_answer(accepted: &Accepted, hosts: &HostTable)
    requires { accepted.now.typed.hosts ≡ names_of (functions_of hosts.now) }
    ensures { IsAnswered accepted.now.typed.file (hosts_in accepted.now.typed.file.names (functions_of hosts.now)) }
{
    accepted_files::asked_functions_answer();
    // that no name stands twice
    let _count = accepted.typed().file().names.len();
}
