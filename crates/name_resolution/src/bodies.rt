//! The names in bodies.

ghost use Rattle.std.specs.Prelude.{◌≡◌, ◌++◌, ◌∷◌, [], map, IfOk, OnOk, option_copied, slice_get};
ghost use Rattle.std.specs.List.{flat_map};
ghost use Rattle.chor_tree.specs.Names.{node_faults, scope_after, wrong_parts, wrong_numbers, unknown, channels_of, channel_of, named_as_channel, repeated, unknown_process, unknown_session, procedures_of, procedure_of, IsBodyFault};
ghost use Rattle.chor_host.specs.Functions.{names_of};
ghost use Rattle.chor_host.specs.Tables.{functions_of};
ghost use Rattle.chor_base.specs.Faults.{first_of_all, IsFirst};
ghost use Rattle.name_resolution.specs.Sets.{IsSameScope, BeginsWith, bound_in};

use crate::declared::Declared;
use crate::functions::unknown_function;
use crate::lists::{
    unknown_in_parts, unknown_processes, unknown_sessions, wrong_numbers, wrong_parts,
};
use crate::scope::Bound;
use chor_base::{Fault, List, Memory, earlier};
use chor_host::HostTable;
use chor_tree::{Following, Form, Named, Node, NodeId, Part, what_follows};

impl<'a> Declared<'a> {
    // The first fault of a node and of those that follow it. What is bound before is bound
    // afterwards too, before all else.
    pub fn first_in_body(
        &self,
        hosts: &HostTable,
        bound: &mut Bound,
        id: NodeId,
    ) -> Result<Option<Fault>, Memory>
        ensures first { IfOk result (IsFirst (λ x. IsBodyFault self.now.file.now (names_of (functions_of hosts.now)) x bound.old id)) }
        ensures begins { OnOk result (BeginsWith bound.old bound.new) }
    {
        let mut first = None;
        let mut at = id;
        while let Some(node) = self.node_at(at) {
            let found = self.first_in_node(hosts, bound, &node.form)?;
            first = earlier(first, found);
            match what_follows(&node.form) {
                Following::Nothing => return Ok(first),
                Following::One(next) => at = next,
                Following::Either(one, other) => {
                    let mark = bound.mark();
                    let here = self.first_in_body(hosts, bound, one)?;
                    bound.back_to(&mark);
                    let there = self.first_in_body(hosts, bound, other)?;
                    let branches = earlier(here, there);
                    return Ok(earlier(first, branches));
                }
            }
        }
        Ok(first)
    }

    fn node_at(&self, id: NodeId) -> Option<&'a Node>
        ensures { option_copied result ≡ slice_get self.now.file.now.tree.nodes id.0 }
    {
        self.file.tree.nodes.as_slice().get(id.0 as usize)
    }

    // The first fault of a node. What it binds is bound afterwards.
    #[tactic(auto, using(chor_base::proofs::Faults::first_append))]
    fn first_in_node(
        &self,
        hosts: &HostTable,
        bound: &mut Bound,
        form: &Form,
    ) -> Result<Option<Fault>, Memory>
        ensures fault { IfOk result (λ o. o ≡ first_of_all (node_faults self.now.file.now (names_of (functions_of hosts.now)) bound.old form.now)) }
        ensures bound { OnOk result (IsSameScope bound.new (scope_after bound.old form.now)) }
        ensures begins { OnOk result (BeginsWith bound.old bound.new) }
    {
        match form {
            Form::Start {
                channel,
                session,
                active,
                serve,
                ..
            } => self.first_in_start(bound, channel, session, active, serve),
            Form::Value {
                from,
                to,
                session,
                ..
            }
            | Form::Label {
                from,
                to,
                session,
                ..
            } => Ok(bound.first_in_message(from, to, session)),
            Form::Give {
                from,
                to,
                session,
                given,
                ..
            } => Ok(earlier(
                bound.first_in_message(from, to, session),
                bound.unknown_session(&given.process),
            )),
            Form::Set { process, .. } | Form::Show { process, .. } | Form::If { process, .. } => {
                Ok(bound.unknown_process(process))
            }
            Form::Host { process, name, .. } => Ok(earlier(
                bound.unknown_process(process),
                unknown_function(self.file, hosts, name),
            )),
            Form::Call {
                name,
                processes,
                sessions,
            } => Ok(self.first_in_call(bound, name, processes, sessions)),
            Form::End => Ok(None),
        }
    }

    #[tactic(auto, using(chor_base::proofs::Faults::first_append))]
    fn first_in_start(
        &self,
        bound: &mut Bound,
        channel: &Named,
        session: &Named,
        active: &List<Part>,
        serve: &List<Part>,
    ) -> Result<Option<Fault>, Memory>
        ensures fault { let file = self.now.file.now in IfOk result (λ o. o ≡ first_of_all (unknown (channels_of file) channel.now ++ wrong_parts (channel_of file channel.now.name) channel.now active.now serve.now ++ flat_map (λ q. unknown_process bound.old q.process) active.now ++ named_as_channel file session.now ++ repeated (bound.old.processes ++ bound.old.sessions) (session.now ∷ map (λ q. q.process) serve.now))) }
        ensures bound { OnOk result (IsSameScope bound.new (bound_in bound.old session.now serve.now)) }
        ensures begins { OnOk result (BeginsWith bound.old bound.new) }
    {
        let parts = earlier(
            self.unknown_channel(channel),
            wrong_parts(self.channel(channel.name), channel, active, serve),
        );
        let processes = unknown_in_parts(bound, active);
        let named = self.named_as_channel(session);
        let twice = bound.bind(session, serve)?;
        Ok(earlier(earlier(earlier(parts, processes), named), twice))
    }

    #[tactic(auto, using(chor_base::proofs::Faults::first_append))]
    fn first_in_call(
        &self,
        bound: &Bound,
        name: &Named,
        processes: &List<Named>,
        sessions: &List<Named>,
    ) -> Option<Fault>
        ensures { let file = self.now.file.now in result ≡ first_of_all (unknown (procedures_of file) name.now ++ wrong_numbers (procedure_of file name.now.name) name.now processes.now sessions.now ++ flat_map (unknown_process bound.now) processes.now ++ flat_map (unknown_session bound.now) sessions.now) }
    {
        let numbers = earlier(
            self.unknown_procedure(name),
            wrong_numbers(self.procedure(name.name), name, processes, sessions),
        );
        earlier(
            earlier(numbers, unknown_processes(bound, processes)),
            unknown_sessions(bound, sessions),
        )
    }
}
