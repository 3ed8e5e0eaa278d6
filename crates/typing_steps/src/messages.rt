//! Values, labels and endpoints that are sent.

ghost use Rattle.std.specs.Prelude.{◌≡◌, OnOk, option_copied};
ghost use Rattle.std.specs.Option.{option_map};
ghost use Rattle.chor_base.specs.Expr.{term_of};
ghost use Rattle.delegation.specs.Checks.{IsJudged, first_failed};
ghost use Rattle.typing_rules.specs.After.{after_statement};
ghost use Rattle.typing_rules.specs.Checks.{parties, value_checks, label_checks, endpoint_checks, is_endpoint};
ghost use Rattle.typing_rules.specs.Allowed.{arm_in, endpoint_sent};
ghost use Rattle.typing_rules.specs.Environment.{step_at};
ghost use Rattle.typing_steps.specs.Known.{environment_of, statement_rule};
ghost use Rattle.typing_steps.specs.Messages.{sends, selects, gives, handing_rule, handing};

use crate::allowed::{EndpointType, arm_of, endpoint_sent, labels_sent, value_sent};
use crate::judging::{ask, first_of};
use crate::known::Known;
use crate::standings::{Standing, set_state, standing_of, step_at};
use chor_base::{Expr, List, NameId, Rule, Sort};
use chor_tree::{File, Named, Part, ProtoArm, ProtoStep};
use delegation::OwnFault;

// The sender and the receiver of a message, and its session.
#[derive(Clone, Copy)]
pub struct Message {
    pub from: Part,
    pub to: Part,
    pub session: Named,
}

impl Message {
    pub fn new(from: &Part, to: &Part, session: &Named) -> Self
        ensures { result ≡ record { from = from.now; to = to.now; session = session.now } }
    {
        Message {
            from: *from,
            to: *to,
            session: *session,
        }
    }
}

impl Known {
    // The step of the state in which a session is.
    fn step_at<'a>(&self, file: &'a File, session: NameId) -> Option<&'a ProtoStep>
        ensures { option_copied result ≡ step_at file.now (environment_of self.now) session }
    {
        step_at(file, self.standings.as_slice(), session)
    }

    // The rule on the holders of the roles of a message.
    fn parties(&self, message: Message) -> Option<Rule>
        ensures { result ≡ first_failed (parties (environment_of self.now) message.session message.from message.to) }
    {
        let session = message.session.name;
        let (from, to) = (message.from, message.to);
        let sends = self
            .owners
            .holds(session, from.role.name, from.process.name);
        let receives = self.owners.holds(session, to.role.name, to.process.name);
        first_of(ask(sends, Rule::T1), ask(receives, Rule::T1))
    }

    // Judges a value that is sent, and goes past it.
    pub(crate) fn send(
        &mut self,
        file: &File,
        message: Message,
        expr: &Expr,
        var: NameId,
    ) -> Result<(), OwnFault>
        ensures rule { IsJudged (statement_rule file.now (environment_of self.old) (sends message (term_of expr.now) var)) result }
        ensures ok { OnOk result (environment_of self.new ≡ after_statement file.now (environment_of self.old) (sends message (term_of expr.now) var)) }
    {
        let session = message.session.name;
        let step = self.step_at(file, session);
        let sent = value_sent(message.from.role.name, message.to.role.name, step);
        let sort = self.sorts.sort_of(message.from.process.name, expr);
        if let Some(rule) = first_of(self.parties(message), value_rule(sent, sort)) {
            return Err(OwnFault::Rule(rule));
        }
        if let Some((sort, state)) = sent {
            set_state(&mut self.standings, session, state);
            self.sorts.set(message.to.process.name, var, sort)?;
        }
        Ok(())
    }

    // Judges a label that is selected, and goes past it.
    pub(crate) fn select(
        &mut self,
        file: &File,
        message: Message,
        label: NameId,
    ) -> Result<(), OwnFault>
        ensures rule { IsJudged (statement_rule file.now (environment_of self.old) (selects message label)) result }
        ensures ok { OnOk result (environment_of self.new ≡ after_statement file.now (environment_of self.old) (selects message label)) }
    {
        let session = message.session.name;
        let step = self.step_at(file, session);
        let arms = labels_sent(message.from.role.name, message.to.role.name, step);
        if let Some(rule) = first_of(self.parties(message), label_rule(arms, label)) {
            return Err(OwnFault::Rule(rule));
        }
        if let Some(state) = arm_in(arms, label) {
            set_state(&mut self.standings, session, state);
        }
        Ok(())
    }

    // Judges an endpoint that is handed over, and goes past it.
    pub(crate) fn give(
        &mut self,
        file: &File,
        message: Message,
        given: Part,
    ) -> Result<(), OwnFault>
        ensures rule { IsJudged (statement_rule file.now (environment_of self.old) (gives message given)) result }
        ensures ok { OnOk result (environment_of self.new ≡ after_statement file.now (environment_of self.old) (gives message given)) }
    {
        let session = message.session.name;
        let (from, to) = (message.from.role.name, message.to.role.name);
        let step = self.step_at(file, session);
        let fit = self.endpoint_rule(message, given, endpoint_sent(from, to, step));
        if let Some(rule) = first_of(self.parties(message), fit) {
            return Err(OwnFault::Rule(rule));
        }
        match state_after(from, to, step) {
            Some(state) => {
                set_state(&mut self.standings, session, state);
                self.pass_on(message, given)
            }
            None => Ok(()),
        }
    }

    // The receiver holds the role instead of the sender.
    fn pass_on(&mut self, message: Message, given: Part) -> Result<(), OwnFault>
        ensures rule { IsJudged (handing_rule self.old message given) result }
        ensures ok { OnOk result (self.new ≡ handing self.old message given) }
    {
        let (from, to) = (message.from.process.name, message.to.process.name);
        self.owners
            .pass(given.process.name, given.role.name, from, to)
            .map_err(OwnFault::Rule)
    }

    // The rule on an endpoint that is handed over, where the session allows one of this type.
    fn endpoint_rule(
        &self,
        message: Message,
        given: Part,
        sent: Option<(EndpointType, NameId)>,
    ) -> Option<Rule>
        ensures { result ≡ first_failed (endpoint_checks (environment_of self.now) message.from message.to given sent) }
    {
        match sent {
            Some((kind, _)) => {
                let standing = standing_of(self.standings.as_slice(), given.process.name);
                let fits = ask(is_endpoint(standing, given.role.name, kind), Rule::T5);
                first_of(self.pass_rule(message, given), fits)
            }
            None => Some(Rule::T2),
        }
    }

    // The rule on a role that passes from the sender to the receiver.
    fn pass_rule(&self, message: Message, given: Part) -> Option<Rule>
        ensures { result ≡ handing_rule self.now message given }
    {
        let session = given.process.name;
        let gives = self
            .owners
            .holds(session, given.role.name, message.from.process.name);
        let takes = !self.owners.holds_some(session, message.to.process.name);
        first_of(ask(gives, Rule::T1), ask(takes, Rule::T9))
    }
}

// The rule on the sort of a value that is sent, where the session allows one of this sort.
fn value_rule(sent: Option<(Sort, NameId)>, sort: Result<Sort, Rule>) -> Option<Rule>
    ensures { result ≡ first_failed (value_checks sent sort) }
{
    match (sent, sort) {
        (None, _) => Some(Rule::T2),
        (Some(_), Err(rule)) => Some(rule),
        (Some((wanted, _)), Ok(sort)) => ask(wanted.is_same(sort), Rule::T3),
    }
}

// The state after an endpoint is handed over, where the session allows one.
fn state_after(from: NameId, to: NameId, step: Option<&ProtoStep>) -> Option<NameId>
    ensures { result ≡ option_map (λ t. t.1) (endpoint_sent from to (option_copied step.entry)) }
{
    match endpoint_sent(from, to, step) {
        Some((_, state)) => Some(state),
        None => None,
    }
}

// The state after a label, where the session allows one of these.
fn arm_in(arms: Option<&List<ProtoArm>>, label: NameId) -> Option<NameId>
    ensures { result ≡ arm_in (option_copied arms.entry) label }
{
    match arms {
        Some(arms) => arm_of(arms.as_slice(), label),
        None => None,
    }
}

// The rule on a label that is selected, where the session allows one of these.
fn label_rule(arms: Option<&List<ProtoArm>>, label: NameId) -> Option<Rule>
    ensures { result ≡ first_failed (label_checks (option_copied arms.entry) label) }
{
    match arms {
        Some(arms) => ask(arm_of(arms.as_slice(), label).is_some(), Rule::T4),
        None => Some(Rule::T2),
    }
}

// Whether a session stands as the type of an endpoint says, of which this is the role.
fn is_endpoint(standing: Option<Standing>, role: NameId, kind: EndpointType) -> bool
    ensures { result ≡ is_endpoint standing role kind }
{
    match standing {
        Some(standing) => {
            standing.protocol == kind.protocol && standing.state == kind.state && role == kind.role
        }
        None => false,
    }
}
