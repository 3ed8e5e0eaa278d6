//! Transcripts of endpoint programs that are written while workers make the run.

ghost use Rattle.std.specs.Prelude.{◌≤◌};
ghost use Rattle.chor_host.specs.Functions.{names_of};
ghost use Rattle.chor_host.specs.Tables.{functions_of};
ghost use Rattle.endpoint_code.specs.Faults.{IsFaultlessWith};

use crate::programs::{functions, read};
use chor_base::{List, Memory};
use chor_host::HostTable;
use chor_io::{MemorySink, OpenGate};
use endpoint_code::Endpoints;
use program_runs::{ExecutedTo, execute_to};
use std::alloc::Global;
use std::sync::Wait;
use std::test::Fail;
use std::thread::Threads;
use worked::endpoints::{ALONE, TWICE};
use workers::Task;

// The transcript of two sends with room for one message, whatever the order of turns is.
const TOLD: &[u8] = b"1 start a #0 A=p B=q
2 send p #0 A>B 1
3 recv q #0 A>B 1
4 send p #0 A>B 2
5 recv q #0 A>B 2
end 5
";

// So far it goes with three events.
const CUT: &[u8] = b"1 start a #0 A=p B=q
2 send p #0 A>B 1
3 recv q #0 A>B 1
limit 3
";

// p sends twice, and q receives nothing.
const CROWDED: &[u8] = b"endpoints 1;
channel a (A, B);
process p { join a[A](k); send k B 1; send k B 2; end }
process q { join a[B](k); end }
";

const FULL: &[u8] = b"1 start a #0 A=p B=q
2 send p #0 A>B 1
stuck 2 p full #0 A>B
";

// What came of writing a transcript, and the bytes that were written.
#[derive(Drop)]
struct Told {
    answer: ExecutedTo,
    sink: MemorySink,
}

impl Told {
    fn is(&self, answer: ExecutedTo, text: &[u8]) -> bool {
        self.answer == answer && self.sink.bytes() == text
    }
}

// Writes the transcript of a run of these programs, with room for one message in each queue, to a sink
// with room for so many bytes.
fn tell<R: Threads + Wait + Sync>(
    rt: &R,
    alloc: Global,
    endpoints: &Endpoints,
    hosts: &HostTable,
    task: Task,
    room: u32,
) -> Result<Told, Memory>
    requires faultless { IsFaultlessWith (names_of (functions_of hosts.now)) endpoints.now }
    requires workers { (1 ≤ task.workers) × (task.workers ≤ 16) }
    requires steps { task.steps ≤ 1000000 }
{
    let mut sink = MemorySink::new(alloc, room, List::new(alloc))?;
    let answer = execute_to(
        rt,
        alloc,
        endpoints,
        hosts,
        Some(1),
        task,
        &OpenGate,
        &mut sink,
    );
    Ok(Told { answer, sink })
}

#[test]
fn the_whole_transcript_is_written(rt: HostRuntime) -> Result<(), Fail> {
    let hosts = functions(rt.alloc())?;
    let endpoints = read(&rt, rt.alloc(), &hosts, TWICE)?;
    for workers in 1..4 {
        let task = Task {
            workers,
            steps: 100,
        };
        let told = tell(&rt, rt.alloc(), &endpoints, &hosts, task, 1000)?;
        assert!(&rt; told.is(ExecutedTo::Written(false), TOLD), "{workers}");
        let task = Task { workers, steps: 3 };
        let told = tell(&rt, rt.alloc(), &endpoints, &hosts, task, 1000)?;
        assert!(&rt; told.is(ExecutedTo::Written(false), CUT), "{workers}");
    }
    Ok(())
}

#[test]
fn a_stuck_run_is_told_so(rt: HostRuntime) -> Result<(), Fail> {
    let hosts = functions(rt.alloc())?;
    let crowded = read(&rt, rt.alloc(), &hosts, CROWDED)?;
    let alone = read(&rt, rt.alloc(), &hosts, ALONE)?;
    let task = Task {
        workers: 2,
        steps: 100,
    };
    let told = tell(&rt, rt.alloc(), &crowded, &hosts, task, 1000)?;
    assert!(&rt; told.is(ExecutedTo::Written(true), FULL));
    let told = tell(&rt, rt.alloc(), &alone, &hosts, task, 1000)?;
    assert!(&rt; told.is(ExecutedTo::Written(true), b"stuck 0 p absent a B\n"));
    Ok(())
}

// The whole transcript has 99 bytes: of a sink with less room, some have no room.
#[test]
fn a_sink_without_room_has_a_prefix(rt: HostRuntime) -> Result<(), Fail> {
    let hosts = functions(rt.alloc())?;
    let endpoints = read(&rt, rt.alloc(), &hosts, TWICE)?;
    let task = Task {
        workers: 2,
        steps: 100,
    };
    for room in [0, 1, 20, 21, 22, 50, 92, 93, 98] {
        let told = tell(&rt, rt.alloc(), &endpoints, &hosts, task, room)?;
        assert!(&rt; told.answer == ExecutedTo::Failed, "{room}");
        assert!(&rt; TOLD.starts_with(told.sink.bytes()), "{room}");
    }
    let told = tell(&rt, rt.alloc(), &endpoints, &hosts, task, 99)?;
    assert!(&rt; told.is(ExecutedTo::Written(false), TOLD));
    Ok(())
}
