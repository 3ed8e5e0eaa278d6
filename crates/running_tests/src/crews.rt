//! Workers: they aren't run one after another, and any number of them makes a run to its end.

use crate::gates::HoldGate;
use crate::programs::{functions, read};
use chor_base::Entry;
use chor_io::OpenGate;
use endpoint_runs::Closed;
use std::test::Fail;
use worked::endpoints::{ALONE, PURCHASE};
use workers::run_workers;

// Whether each worker of so many made one of the events.
fn all_made(history: &[Entry], workers: u32) -> bool {
    (1..=workers).all(|worker| history.iter().any(|entry| entry.worker == worker))
}

#[test]
fn the_first_of_two_waits_for_the_second(rt: HostRuntime) -> Result<(), Fail> {
    let hosts = functions(rt.alloc())?;
    let endpoints = read(&rt, rt.alloc(), &hosts, PURCHASE)?;
    let gate = HoldGate::new((1, 0), (2, 1));
    let told = run_workers(&rt, rt.alloc(), &endpoints, &hosts, None, 2, 100, &gate)?;
    assert!(&rt; !gate.ran_out());
    assert!(&rt; told.close == Closed::Ended && told.history.len() == 20);
    assert!(&rt; all_made(told.history.as_slice(), 2));
    Ok(())
}

#[test]
fn the_second_of_two_waits_for_the_first(rt: HostRuntime) -> Result<(), Fail> {
    let hosts = functions(rt.alloc())?;
    let endpoints = read(&rt, rt.alloc(), &hosts, PURCHASE)?;
    let gate = HoldGate::new((2, 0), (1, 1));
    let told = run_workers(&rt, rt.alloc(), &endpoints, &hosts, None, 2, 100, &gate)?;
    assert!(&rt; !gate.ran_out());
    assert!(&rt; told.close == Closed::Ended && told.history.len() == 20);
    assert!(&rt; all_made(told.history.as_slice(), 2));
    Ok(())
}

#[test]
fn one_worker_and_sixteen_come_to_the_end(rt: HostRuntime) -> Result<(), Fail> {
    let hosts = functions(rt.alloc())?;
    let endpoints = read(&rt, rt.alloc(), &hosts, PURCHASE)?;
    for workers in [1, 2, 3, 16] {
        let told = run_workers(
            &rt,
            rt.alloc(),
            &endpoints,
            &hosts,
            None,
            workers,
            100,
            &OpenGate,
        )?;
        assert!(&rt; told.close == Closed::Ended && told.history.len() == 20);
    }
    Ok(())
}

#[test]
fn workers_stop_at_the_limit_and_where_nobody_can_step(rt: HostRuntime) -> Result<(), Fail> {
    let hosts = functions(rt.alloc())?;
    let endpoints = read(&rt, rt.alloc(), &hosts, PURCHASE)?;
    let told = run_workers(&rt, rt.alloc(), &endpoints, &hosts, None, 4, 7, &OpenGate)?;
    assert!(&rt; told.close == Closed::Limit && told.history.len() == 7);
    let endpoints = read(&rt, rt.alloc(), &hosts, ALONE)?;
    let told = run_workers(&rt, rt.alloc(), &endpoints, &hosts, None, 2, 7, &OpenGate)?;
    assert!(&rt; told.history.is_empty());
    assert!(&rt; matches!(told.close, Closed::Stuck(0, _)));
    Ok(())
}
