//! Calls of procedures, and ends.

ghost use Rattle.std.specs.Prelude.{◌≡◌, ◌&&◌, option_copied};
ghost use Rattle.std.specs.List.{list_all};
ghost use Rattle.chor_tree.specs.Names.{is_among, names_in};
ghost use Rattle.chor_tree.specs.Source.{nowhere, Calls, Ends};
ghost use Rattle.delegation.specs.Checks.{all_differ, first_failed};
ghost use Rattle.typing_rules.specs.Checks.{has_ended, rest_ended, rule_at};
ghost use Rattle.typing_rules.specs.Checks.{are_set, params_are_set, holds_as, is_standing, session_fits, sessions_fit, arguments_fit};
ghost use Rattle.typing_steps.specs.Arguments.{argument_of};
ghost use Rattle.typing_steps.specs.Known.{environment_of};

use crate::allowed::is_last;
use crate::declared::procedure_of;
use crate::judging::{ask, first_of};
use crate::known::Known;
use crate::standings::{Standing, standing_of};
use chor_base::{NameId, Rule};
use chor_tree::{File, Named, Proc, ProcParam, SessionParam};

impl Known {
    // The rule that a call violates, if any.
    pub(crate) fn call_rule(
        &self,
        file: &File,
        name: &Named,
        processes: &[Named],
        sessions: &[Named],
    ) -> Option<Rule>
        ensures { result ≡ rule_at file.now (environment_of self.now) (Calls nowhere name.now processes.now sessions.now) }
    {
        let differ = ask(both_differ(processes, sessions), Rule::T7);
        let fit = self.arguments_rule(procedure_of(file, name.name), processes, sessions);
        let ended = ask(self.rest_ended(file, sessions), Rule::T6);
        first_of(differ, first_of(fit, ended))
    }

    // Whether each session in scope, but for those that are passed, is at a state whose step is `end`.
    fn rest_ended(&self, file: &File, passed: &[Named]) -> bool
        ensures { result ≡ rest_ended file.now (environment_of self.now) (names_in passed.now) }
    {
        all_ended(file, passed, self.standings.as_slice())
    }

    // The rule that an end violates, if any.
    pub(crate) fn end_rule(&self, file: &File) -> Option<Rule>
        ensures { result ≡ rule_at file.now (environment_of self.now) (Ends nowhere) }
    {
        ask(self.rest_ended(file, &[]), Rule::T6)
    }

    // The rule that the arguments of a call violate, if any.
    fn arguments_rule(
        &self,
        procedure: Option<&Proc>,
        processes: &[Named],
        sessions: &[Named],
    ) -> Option<Rule>
        ensures { result ≡ first_failed (arguments_fit (environment_of self.now) (option_copied procedure.entry) processes.now sessions.now) }
    {
        match procedure {
            Some(procedure) => {
                let params = procedure.params.as_slice();
                let set = self.params_are_set(params, processes);
                let declared = procedure.sessions.as_slice();
                let fit = self.sessions_fit(params, processes, declared, sessions);
                first_of(ask(set, Rule::T7), ask(fit, Rule::T7))
            }
            None => None,
        }
    }

    // Whether the processes have the variables of their parameters, of those sorts.
    fn params_are_set(&self, params: &[ProcParam], processes: &[Named]) -> bool
        ensures { result ≡ params_are_set (environment_of self.now) params.now processes.now }
    {
        for (index, param) in params.iter().enumerate() {
            match processes.get(index) {
                Some(process) => {
                    if !self.has_set(param, process) {
                        return false;
                    }
                }
                None => return true,
            }
        }
        true
    }

    // Whether a process has the variables of a parameter, of those sorts.
    fn has_set(&self, param: &ProcParam, process: &Named) -> bool
        ensures { result ≡ are_set param.now.vars ((environment_of self.now).sorts process.now.name) }
    {
        self.sorts.are_set(process.name, param.vars.as_slice())
    }

    // Whether the passed sessions are as their parameters declare.
    fn sessions_fit(
        &self,
        params: &[ProcParam],
        processes: &[Named],
        declared: &[SessionParam],
        sessions: &[Named],
    ) -> bool
        ensures { result ≡ sessions_fit (environment_of self.now) params.now processes.now declared.now sessions.now }
    {
        for (index, param) in declared.iter().enumerate() {
            match sessions.get(index) {
                Some(session) => {
                    if !self.session_fits(params, processes, param, session.name) {
                        return false;
                    }
                }
                None => return true,
            }
        }
        true
    }

    // Whether a passed session is as its parameter declares.
    fn session_fits(
        &self,
        params: &[ProcParam],
        processes: &[Named],
        param: &SessionParam,
        session: NameId,
    ) -> bool
        ensures { result ≡ session_fits (environment_of self.now) params.now processes.now param.now session }
    {
        is_standing(standing_of(self.standings.as_slice(), session), param)
            && self.holders_fit(params, processes, session, param.holders.as_slice())
    }

    // Whether the passed processes hold the roles of a session that are listed.
    fn holders_fit(
        &self,
        params: &[ProcParam],
        processes: &[Named],
        session: NameId,
        holders: &[(Named, Named)],
    ) -> bool
        ensures { result ≡ list_all (λ h. holds_as (environment_of self.now) session h.0.name h.1.name params.now processes.now) holders.now }
    {
        for listed in holders {
            if !self.holds_as(params, processes, session, *listed) {
                return false;
            }
        }
        true
    }

    // Whether the process that is passed for a listed holder holds the role.
    #[tactic(auto, using(crate::proofs::CheckOrder::held_as))]
    fn holds_as(
        &self,
        params: &[ProcParam],
        processes: &[Named],
        session: NameId,
        listed: (Named, Named),
    ) -> bool
        ensures { result ≡ holds_as (environment_of self.now) session listed.0.name listed.1.name params.now processes.now }
    {
        match argument_of(params, processes, listed.1.name) {
            Some(process) => self.owners.holds(session, listed.0.name, process),
            None => false,
        }
    }
}

// The process that is passed for a parameter.
fn argument_of(params: &[ProcParam], processes: &[Named], name: NameId) -> Option<NameId>
    ensures { result ≡ argument_of params.now processes.now name }
{
    for (index, param) in params.iter().enumerate() {
        let process = processes.get(index)?;
        if param.name.name == name {
            return Some(process.name);
        }
    }
    None
}

// Whether a session stands as its parameter declares.
fn is_standing(standing: Option<Standing>, param: &SessionParam) -> bool
    ensures { result ≡ is_standing standing param.now }
{
    match standing {
        Some(standing) => {
            standing.protocol == param.protocol.name && standing.state == param.state.name
        }
        None => false,
    }
}

fn all_ended(file: &File, passed: &[Named], standings: &[Standing]) -> bool
    ensures { result ≡ list_all (has_ended file.now (names_in passed.now)) standings.now }
{
    for standing in standings {
        if !has_ended(file, passed, *standing) {
            return false;
        }
    }
    true
}

// Whether a session is passed, or at a state whose step is `end`.
fn has_ended(file: &File, passed: &[Named], standing: Standing) -> bool
    ensures { result ≡ has_ended file.now (names_in passed.now) standing }
{
    is_among(passed, standing.session) || is_last(standing.step(file))
}

// Whether no process and no session stands twice.
fn both_differ(processes: &[Named], sessions: &[Named]) -> bool
    ensures { result ≡ (all_differ (names_in processes.now) && all_differ (names_in sessions.now)) }
{
    all_differ(processes) && all_differ(sessions)
}

// Whether no name stands twice.
fn all_differ(names: &[Named]) -> bool
    ensures { result ≡ all_differ (names_in names.now) }
{
    for (index, name) in names.iter().enumerate() {
        if is_among(&names[index + 1..], name.name) {
            return false;
        }
    }
    true
}

fn is_among(names: &[Named], name: NameId) -> bool
    ensures { result ≡ is_among (names_in names.now) name }
{
    for other in names {
        if other.name == name {
            return true;
        }
    }
    false
}
