//! What a process does by itself at a node.

ghost use Rattle.std.specs.Prelude.{◌≡◌, ◌<◌, Some, true};
ghost use Rattle.chor_base.specs.Expr.{number_of, truth_of};
ghost use Rattle.endpoint_machine.specs.Acts.{acts_alone, is_alone, node_event, node_acted};

use crate::machine::Machine;
use chor_base::{Event, Value, eval};
use endpoint_code::CodeNode;

// The truth value of a value: false where it is none.
fn is_true(value: Value) -> bool
    ensures { result ≡ truth_of value }
{
    match value {
        Value::Bool(truth) => truth,
        _ => false,
    }
}

/// The number of a value: 0 where it is none.
pub fn number_of(value: Value) -> i64
    ensures { result ≡ number_of value }
{
    match value {
        Value::Int(number) => number,
        _ => 0,
    }
}

impl Machine {
    /// The event that the process makes by itself at a node, where a host function answers this.
    pub(crate) fn event_at(&self, node: &CodeNode, answer: i64) -> Event
        requires { acts_alone node.now ≡ true }
        ensures event { node_event self.now.number answer self.now.machine.vars node.now ≡ Some result }
        ensures alone { is_alone result ≡ true }
    {
        let pid = self.number;
        match node {
            CodeNode::Set(name, expr, _) => Event::Set {
                pid,
                var: *name,
                value: eval(expr, &self.vars),
            },
            CodeNode::Show(expr, _) => Event::Show {
                pid,
                value: eval(expr, &self.vars),
            },
            CodeNode::Host(var, name, left, right, _) => Event::Host {
                pid,
                var: *var,
                name: *name,
                left: number_of(eval(left, &self.vars)),
                right: number_of(eval(right, &self.vars)),
                value: answer,
            },
            CodeNode::If(expr, _, _) => Event::Test {
                pid,
                answer: is_true(eval(expr, &self.vars)),
            },
            _ => unreachable!(),
        }
    }

    /// Acts by itself at a node, where a host function answers this.
    pub(crate) fn act_at(&mut self, node: &CodeNode, answer: i64)
        requires alone { acts_alone node.now ≡ true }
        requires variables { 0 < self.old.room.variables }
        ensures number { self.new.number ≡ self.old.number }
        ensures acted { node_acted answer self.old.machine.vars self.old.machine.sessions node.now ≡ Some self.new.machine }
    {
        match node {
            CodeNode::Set(name, expr, next) => {
                let value = eval(expr, &self.vars);
                self.vars.set(*name, value);
                self.at = *next;
            }
            CodeNode::Show(_, next) => self.at = *next,
            CodeNode::Host(name, _, _, _, next) => {
                self.vars.set(*name, Value::Int(answer));
                self.at = *next;
            }
            CodeNode::If(expr, first, second) => {
                let truth = is_true(eval(expr, &self.vars));
                self.at = if truth { *first } else { *second };
            }
            _ => unreachable!(),
        }
    }
}
