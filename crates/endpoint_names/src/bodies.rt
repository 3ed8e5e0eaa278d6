//! The names in bodies.

ghost use Rattle.std.specs.Prelude.{◌≡◌, ◌<◌, ◌++◌, ◌∷◌, [], All, IfOk, map, length};
ghost use Rattle.std.specs.List.{flat_map};
ghost use Rattle.chor_base.specs.Faults.{first_of_all};
ghost use Rattle.endpoint_reader.specs.Lines.{nexts_of};
ghost use Rattle.endpoint_names.specs.Keys.{sign_of_arm};
ghost use Rattle.endpoint_names.specs.Bodies.{body_at, bodies_of, line_body};
ghost use Rattle.endpoint_names.specs.Faults.{unbound, action_faults, call_faults};
ghost use Rattle.endpoint_names.specs.Functions.{setting_of, faults_at, faults_in_arms};

use crate::bound::Bound;
use crate::declared::Declared;
use crate::places::twice_in;
use chor_base::{Fault, List, Memory, earlier};
use endpoint_reader::{Action, Arm, Line, LineId, Named, Signature, Written};

impl<'a> Declared<'a> {
    // The first fault of the body that begins with a line, where these sessions are bound.
    #[cycle(body)]
    #[tactic(auto, using(chor_base::proofs::Faults::first_append, crate::proofs::Tables::labels_are))]
    pub fn first_in_body(&self, mut bound: Bound, id: LineId) -> Result<Option<Fault>, Memory>
        requires { id.0 < length self.now.written.now.lines.items }
        ensures { IfOk result (λ o. o ≡ first_of_all (faults_at (setting_of self.now.written.now self.now.functions) bound id)) }
    {
        match line_at(self.written, id) {
            Line::Act(action, next) => {
                let here = self.first_in_action(&bound, action);
                bound.pass(action)?;
                let rest = self.first_in_body(bound, *next)?;
                Ok(earlier(here, rest))
            }
            Line::Branch(session, _, arms) => {
                let here = bound.unbound(session);
                let labels = twice_in(self.alloc, arms.as_slice())?;
                let rest = self.first_in_arms(&bound, arms.as_slice(), id)?;
                Ok(earlier(earlier(here, labels), rest))
            }
            Line::If(_, first, second) => {
                let other = bound.copy(self.alloc)?;
                let here = self.first_in_body(other, *first)?;
                let there = self.first_in_body(bound, *second)?;
                Ok(earlier(here, there))
            }
            Line::Call(_, call) => self.first_in_call(&bound, call),
            Line::End => Ok(None),
        }
    }

    // The first fault in the bodies of arms, which come before a line.
    #[cycle(body)]
    fn first_in_arms(
        &self,
        bound: &Bound,
        arms: &[Arm],
        id: LineId,
    ) -> Result<Option<Fault>, Memory>
        requires inside { id.0 < length self.now.written.now.lines.items }
        requires below { All (λ arm. arm.body.0 < id.0) arms.now }
        ensures { let s = setting_of self.now.written.now self.now.functions in IfOk result (λ o. o ≡ first_of_all (faults_in_arms s bound.now arms.now)) }
    {
        let mut first = None;
        for arm in arms {
            let inside = bound.copy(self.alloc)?;
            let found = self.first_in_body(inside, arm.body)?;
            first = earlier(first, found);
        }
        Ok(first)
    }

    // The first fault of an action.
    #[tactic(auto, using(chor_base::proofs::Faults::first_append))]
    fn first_in_action(&self, bound: &Bound, action: &Action) -> Option<Fault>
        ensures { result ≡ first_of_all (action_faults (setting_of self.now.written.now self.now.functions) bound.now action.now) }
    {
        match action {
            Action::Join(channel, role, session) => earlier(
                earlier(
                    self.unknown_channel(channel),
                    self.inactive(channel.name, role),
                ),
                bound.bound_again(session),
            ),
            Action::Send(session, ..) | Action::Recv(session, ..) | Action::Pick(session, ..) => {
                bound.unbound(session)
            }
            Action::Give(session, _, given) => {
                earlier(bound.unbound(session), bound.unbound(given))
            }
            Action::Gain(session, _, gained) => {
                earlier(bound.unbound(session), bound.bound_again(gained))
            }
            Action::Set(..) | Action::Show(_) => None,
            Action::Host(_, function, ..) => self.unknown_function(function),
        }
    }

    // The first fault of a call.
    #[tactic(auto, using(chor_base::proofs::Faults::first_append))]
    fn first_in_call(&self, bound: &Bound, call: &Signature) -> Result<Option<Fault>, Memory>
        ensures { IfOk result (λ o. o ≡ first_of_all (call_faults (setting_of self.now.written.now self.now.functions) bound.now call.now)) }
    {
        let wrong = self.wrong_call(call);
        let sessions = unbound_in(bound, &call.sessions);
        let twice = twice_in(self.alloc, call.sessions.as_slice())?;
        Ok(earlier(earlier(wrong, sessions), twice))
    }
}

/// The line of a number: the body there is made of the bodies of those that follow it.
pub fn line_at(written: &Written, id: LineId) -> &Line
    requires { id.0 < length written.now.lines.items }
    ensures body { let lines = written.now.lines.items in body_at lines id ≡ line_body (bodies_of lines) result.now }
    ensures below { All (λ next. next.0 < id.0) (nexts_of result.now) }
{
    written.lines.items.at(id.0 as usize)
}

// The first session of a list that isn't bound.
fn unbound_in(bound: &Bound, sessions: &List<Named>) -> Option<Fault>
    ensures { result ≡ first_of_all (flat_map (unbound bound.now) sessions.now) }
{
    let mut first = None;
    for session in sessions.as_slice() {
        first = earlier(first, bound.unbound(session));
    }
    first
}
