//! Networks whose queues have a capacity: their runs, at once and step by step.

ghost use Rattle.std.specs.Prelude.{◌<◌, ◌^◌};
ghost use Rattle.chor_host.specs.Functions.{names_of};
ghost use Rattle.chor_host.specs.Tables.{functions_of};
ghost use Rattle.endpoint_code.specs.Faults.{IsFaultlessWith};

use crate::programs::{functions, lines, read};
use chor_base::{Memory, NameId, Why};
use chor_host::HostTable;
use endpoint_code::Endpoints;
use endpoint_runs::{Closed, Ran, Schedule, run_stepwise, run_within};
use std::alloc::Global;
use std::test::Fail;
use worked::endpoints::TWICE;

// How many events a run has at most.
const STEPS: u64 = 60;

// The run of two sends with room for one message, whatever the seed is.
const ONE_BY_ONE: &[u8] = b"1 start a #0 A=p B=q
2 send p #0 A>B 1
3 recv q #0 A>B 1
4 send p #0 A>B 2
5 recv q #0 A>B 2
";

// p sends twice, and q receives nothing.
const CROWDED: &[u8] = b"endpoints 1;
channel a (A, B);
process p { join a[A](k); send k B 1; send k B 2; end }
process q { join a[B](k); end }
";

// Three pairs, of which the first sends three times and the second once.
const PAIRS: &[u8] = b"endpoints 1;
channel a (A, B);
process p { join a[A](k); send k B 1; send k B 2; recv k B x; send k B 3; end }
process q { join a[B](k); recv k A x; send k A 4; recv k A y; recv k A z; end }
process r { join a[A](k); send k B 1; send k B 2; recv k B x; send k B 3; end }
process s { join a[B](k); recv k A x; send k A 4; recv k A y; recv k A z; end }
process t { join a[A](k); send k B 1; send k B 2; recv k B x; send k B 3; end }
process u { join a[B](k); recv k A x; send k A 4; recv k A y; recv k A z; end }
";

// The runs of these programs with room for one message in each queue: at once, and step by step.
fn both(
    alloc: Global,
    hosts: &HostTable,
    endpoints: &Endpoints,
    seed: u64,
) -> Result<[Ran; 2], Memory>
    requires faultless { IsFaultlessWith (names_of (functions_of hosts.now)) endpoints.now }
    requires seed { seed < 2 ^ 32 }
{
    let schedule = Schedule { seed, steps: STEPS };
    Ok([
        run_within(alloc, endpoints, hosts, Some(1), schedule)?,
        run_stepwise(alloc, endpoints, hosts, Some(1), schedule)?,
    ])
}

#[test]
fn a_sender_waits_for_room(rt: HostRuntime) -> Result<(), Fail> {
    let hosts = functions(rt.alloc())?;
    let endpoints = read(&rt, rt.alloc(), &hosts, TWICE)?;
    for seed in 0..3 {
        for ran in both(rt.alloc(), &hosts, &endpoints, seed)? {
            let told = lines(rt.alloc(), &endpoints, ran.history.as_slice())?;
            assert!(&rt; ran.closed == Closed::Ended && told.as_slice() == ONE_BY_ONE);
        }
    }
    Ok(())
}

#[test]
fn a_sender_waits_for_ever(rt: HostRuntime) -> Result<(), Fail> {
    let hosts = functions(rt.alloc())?;
    let endpoints = read(&rt, rt.alloc(), &hosts, CROWDED)?;
    let from = endpoints.names.find(b"A").unwrap_or(NameId(0));
    let to = endpoints.names.find(b"B").unwrap_or(NameId(0));
    for ran in both(rt.alloc(), &hosts, &endpoints, 0)? {
        assert!(&rt; ran.history.len() == 2);
        assert!(&rt; ran.closed == Closed::Stuck(0, Why::Full(0, from, to)));
    }
    Ok(())
}

#[test]
fn senders_wait_among_many(rt: HostRuntime) -> Result<(), Fail> {
    let hosts = functions(rt.alloc())?;
    let endpoints = read(&rt, rt.alloc(), &hosts, PAIRS)?;
    for seed in 0..13 {
        for ran in both(rt.alloc(), &hosts, &endpoints, seed)? {
            assert!(&rt;
                ran.closed == Closed::Ended && ran.history.len() == 27,
                "with seed {seed}"
            );
        }
    }
    Ok(())
}
