//! What a process sends, takes and joins at a node.

ghost use Rattle.std.specs.Prelude.{◌≡◌, ◌<◌, Some, true, false, is_some};
ghost use Rattle.std.specs.FinMap as fin;
ghost use Rattle.chor_base.specs.declared.names.NameId.{NameId as AnyName};
ghost use Rattle.chor_base.specs.NameMap.{Variables};
ghost use Rattle.endpoint_code.specs.Network.{Goes, Sessions, arm_at, node_joins};
ghost use Rattle.endpoint_machine.specs.declared.head.Head.TheVariants as head;
ghost use Rattle.endpoint_machine.specs.Heads.{node_head, sends_on, takes_on};
ghost use Rattle.endpoint_machine.specs.Acts.{node_load, node_sent, node_takes, knows_sessions, is_call, sends, joins};
ghost use Rattle.endpoint_machine.specs.Places.{sessions_at, IsEven};

use crate::head::Head;
use crate::machine::{Machine, Passing};
use chor_base::{Load, NameId, Value, eval};
use endpoint_code::{CodeId, CodeNode};

// The arm of a label.
fn arm_named(arms: &[(NameId, CodeId)], label: NameId) -> Option<CodeId>
    ensures { result ≡ arm_at arms.now label }
{
    for arm in arms {
        if arm.0 == label {
            return Some(arm.1);
        }
    }
    None
}

/// Whether a process at a node takes a load.
pub(crate) fn fits_at(node: &CodeNode, load: Load) -> bool
    ensures { (vars : Variables) (m : Sessions) → result ≡ is_some (node_takes vars m node.now load) }
{
    match node {
        CodeNode::Recv(_, _, _, _) => match load {
            Load::Value(Value::Part(_, _)) => false,
            Load::Value(_) => true,
            Load::Label(_) => false,
        },
        CodeNode::Branch(_, _, arms) => match load {
            Load::Label(label) => arm_named(arms.as_slice(), label).is_some(),
            Load::Value(_) => false,
        },
        CodeNode::Catch(_, _, _, _) => match load {
            Load::Value(Value::Part(_, _)) => true,
            _ => false,
        },
        _ => false,
    }
}

impl Machine {
    // A head that sends on a session.
    fn out(&self, call: Option<Passing>, session: NameId, to: NameId) -> Head
        requires even { IsEven call }
        requires known { is_some (fin.get (sessions_at call self.now.machine.sessions) session.0) ≡ true }
        ensures { sends_on (fin.get (sessions_at call.entry self.now.machine.sessions) session.0) to ≡ Some result }
    {
        let Some((sid, from)) = self.session(call, session) else {
            unreachable!()
        };
        Head::Out(sid, from, to)
    }

    // A head that takes on a session.
    fn take(&self, call: Option<Passing>, session: NameId, from: NameId) -> Head
        requires even { IsEven call }
        requires known { is_some (fin.get (sessions_at call self.now.machine.sessions) session.0) ≡ true }
        ensures { takes_on (fin.get (sessions_at call.entry self.now.machine.sessions) session.0) from ≡ Some result }
    {
        let Some((sid, to)) = self.session(call, session) else {
            unreachable!()
        };
        Head::Take(sid, from, to)
    }

    /// The action of a node.
    pub(crate) fn head_at(&self, node: &CodeNode, call: Option<Passing>) -> Head
        requires even { IsEven call }
        requires known { knows_sessions (sessions_at call self.now.machine.sessions) node.now ≡ true }
        requires head { is_call node.now ≡ false }
        ensures { node_head (sessions_at call.entry self.now.machine.sessions) node.now ≡ Some result }
    {
        match node {
            CodeNode::Join(channel, role, _, _) => Head::Join(*channel, *role),
            CodeNode::Send(session, to, _, _) => self.out(call, *session, *to),
            CodeNode::Pick(session, to, _, _) => self.out(call, *session, *to),
            CodeNode::Throw(session, to, _, _) => self.out(call, *session, *to),
            CodeNode::Recv(session, from, _, _) => self.take(call, *session, *from),
            CodeNode::Branch(session, from, _) => self.take(call, *session, *from),
            CodeNode::Catch(session, from, _, _) => self.take(call, *session, *from),
            CodeNode::Set(_, _, _) => Head::Local,
            CodeNode::Show(_, _) => Head::Local,
            CodeNode::Host(_, _, _, _, _) => Head::Local,
            CodeNode::If(_, _, _) => Head::Local,
            CodeNode::Call(_, _, _) => unreachable!(),
            CodeNode::End => Head::Ended,
        }
    }

    /// What the process sends at a node.
    pub(crate) fn load_at(&self, node: &CodeNode, call: Option<Passing>) -> Load
        requires even { IsEven call }
        requires known { knows_sessions (sessions_at call self.now.machine.sessions) node.now ≡ true }
        requires sends { sends node.now ≡ true }
        ensures { node_load self.now.machine.vars (sessions_at call.entry self.now.machine.sessions) node.now ≡ Some result }
    {
        match node {
            CodeNode::Send(_, _, expr, _) => Load::Value(eval(expr, &self.vars)),
            CodeNode::Pick(_, _, label, _) => Load::Label(*label),
            CodeNode::Throw(_, _, given, _) => {
                let Some((sid, role)) = self.session(call, *given) else {
                    unreachable!()
                };
                Load::Value(Value::Part(sid, role))
            }
            _ => unreachable!(),
        }
    }

    /// Goes past a node that sends.
    pub(crate) fn send_at(&mut self, node: &CodeNode)
        requires { sends node.now ≡ true }
        ensures number { self.new.number ≡ self.old.number }
        ensures sent { node_sent self.old.machine.vars self.old.machine.sessions node.now ≡ Some self.new.machine }
    {
        match node {
            CodeNode::Send(_, _, _, next) => self.at = *next,
            CodeNode::Pick(_, _, _, next) => self.at = *next,
            CodeNode::Throw(_, _, given, next) => {
                self.sessions.remove(*given);
                self.at = *next;
            }
            _ => unreachable!(),
        }
    }

    /// Takes a load at a node that takes it.
    pub(crate) fn take_at(&mut self, node: &CodeNode, load: Load)
        requires fits { is_some (node_takes self.old.machine.vars self.old.machine.sessions node.now load) ≡ true }
        requires variables { 0 < self.old.room.variables }
        requires sessions { 0 < self.old.room.sessions }
        ensures number { self.new.number ≡ self.old.number }
        ensures taken { node_takes self.old.machine.vars self.old.machine.sessions node.now load ≡ Some (Goes self.new.machine.at self.new.machine.vars self.new.machine.sessions) }
    {
        match node {
            CodeNode::Recv(_, _, name, next) => match load {
                Load::Value(value) => {
                    self.vars.set(*name, value);
                    self.at = *next;
                }
                Load::Label(_) => unreachable!(),
            },
            CodeNode::Branch(_, _, arms) => match load {
                Load::Label(label) => {
                    let Some(next) = arm_named(arms.as_slice(), label) else {
                        unreachable!()
                    };
                    self.at = next;
                }
                Load::Value(_) => unreachable!(),
            },
            CodeNode::Catch(_, _, name, next) => match load {
                Load::Value(Value::Part(sid, role)) => {
                    self.sessions.set(*name, sid, role);
                    self.at = *next;
                }
                _ => unreachable!(),
            },
            _ => unreachable!(),
        }
    }

    /// Joins a session at a node that joins.
    pub(crate) fn join_at(&mut self, node: &CodeNode, sid: u32)
        requires joins { joins node.now ≡ true }
        requires sessions { 0 < self.old.room.sessions }
        ensures number { self.new.number ≡ self.old.number }
        ensures joined { (c r : AnyName) → node_head self.old.machine.sessions node.now ≡ Some (head.Join c r) → node_joins node.now self.old.machine.vars self.old.machine.sessions c r sid ≡ Some self.new.machine }
    {
        match node {
            CodeNode::Join(_, role, session, next) => {
                self.sessions.set(*session, sid, *role);
                self.at = *next;
            }
            _ => unreachable!(),
        }
    }
}
