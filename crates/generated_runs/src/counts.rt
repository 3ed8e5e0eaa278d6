//! How many sessions and processes a run has.

ghost use Rattle.std.specs.Prelude.{◌≡◌, ◌<◌, ◌+◌, ◌^◌, ◌∷◌, []};
ghost use Rattle.generated_runs.specs.Counts.{sessions_in, processes_after, grown, events_of};

use chor_base::{Entry, Event, NameId};

// How many processes and sessions there are.
#[derive(Clone, Copy)]
pub struct Counts {
    pub processes: u64,
    pub sessions: u64,
}

/// The processes and sessions after these events, where so many processes are there at the beginning.
pub fn counts_of(history: &[Entry], processes: u64) -> Counts
    ensures processes { result.processes ≡ processes_after processes (events_of history.now) }
    ensures sessions { result.sessions ≡ sessions_in (events_of history.now) }
{
    let mut counts = Counts {
        processes,
        sessions: 0,
    };
    for entry in history {
        counts = counts.after(&entry.event);
    }
    counts
}

impl Counts {
    // The processes and sessions after one event more.
    fn after(self, event: &Event) -> Counts
        requires { self.sessions + 1 < 2 ^ 64 }
        ensures processes { result.processes ≡ processes_after self.processes (event.now ∷ []) }
        ensures sessions { result.sessions ≡ self.sessions + sessions_in (event.now ∷ []) }
    {
        match event {
            Event::Start { parts, .. } => Counts {
                processes: grown(self.processes, parts.as_slice()),
                sessions: self.sessions + 1,
            },
            _ => self,
        }
    }
}

// How many processes there are after a start with these parts, of so many before it.
fn grown(processes: u64, parts: &[(NameId, u32)]) -> u64
    ensures { result ≡ grown processes parts.now }
{
    let mut count = processes;
    for part in parts {
        count = count.max(u64::from(part.1) + 1);
    }
    count
}
