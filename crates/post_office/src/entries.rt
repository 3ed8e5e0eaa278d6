//! The processes of events.

ghost use Rattle.std.specs.Prelude.{◌≡◌, ◌∷◌, [], true};
ghost use Rattle.chor_base.specs.Events.{actors_of};
ghost use Rattle.post_office.specs.Answers.{is_local};

use chor_base::Event;

// The process of a local event.
pub fn actor(event: &Event) -> u32
    requires { is_local event.now ≡ true }
    ensures { actors_of event.now ≡ result ∷ [] }
{
    match *event {
        Event::Test { pid, .. } => pid,
        Event::Set { pid, .. } => pid,
        Event::Show { pid, .. } => pid,
        Event::Host { pid, .. } => pid,
        Event::Start { .. } => unreachable!(),
        Event::Send { .. } => unreachable!(),
        Event::Recv { .. } => unreachable!(),
    }
}
