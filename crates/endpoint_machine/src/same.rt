//! Whether a process has made a given event by itself.

ghost use Rattle.std.specs.Prelude.{◌≡◌, IsTrue, ◌↔◌, true};
ghost use Rattle.endpoint_machine.specs.Acts.{answer_in, is_alone, is_call_event};

use chor_base::Event;

// Whether an event is this host call.
fn is_same_call(call: &Event, event: &Event) -> bool
    requires { is_call_event call.now ≡ true }
    ensures { IsTrue result ↔ (call.now ≡ event.now) }
{
    match (call, event) {
        (
            Event::Host {
                pid,
                var,
                name,
                left,
                right,
                value,
            },
            Event::Host {
                pid: other_pid,
                var: other_var,
                name: other_name,
                left: other_left,
                right: other_right,
                value: other_value,
            },
        ) => {
            pid == other_pid
                && var == other_var
                && name == other_name
                && left == other_left
                && right == other_right
                && value == other_value
        }
        _ => false,
    }
}

/// Whether an event is this one, which a process makes by itself.
pub fn is_same_alone(made: &Event, event: &Event) -> bool
    requires { is_alone made.now ≡ true }
    ensures { IsTrue result ↔ (made.now ≡ event.now) }
{
    match (made, event) {
        (
            Event::Test { pid, answer },
            Event::Test {
                pid: other_pid,
                answer: other_answer,
            },
        ) => pid == other_pid && answer == other_answer,
        (
            Event::Set { pid, var, value },
            Event::Set {
                pid: other_pid,
                var: other_var,
                value: other_value,
            },
        ) => pid == other_pid && var == other_var && value == other_value,
        (
            Event::Show { pid, value },
            Event::Show {
                pid: other_pid,
                value: other_value,
            },
        ) => pid == other_pid && value == other_value,
        (Event::Host { .. }, _) => is_same_call(made, event),
        _ => false,
    }
}

/// The answer that an event tells: 0 where it is no host call.
pub(crate) fn answer_in(event: &Event) -> i64
    ensures { result ≡ answer_in event.now }
{
    match event {
        Event::Host { value, .. } => *value,
        _ => 0,
    }
}
