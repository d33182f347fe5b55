//! Runs whose parcels are lost and served twice.
use abt_links::{OpenGate, ThreadPlan, run_threads};
use abt_perform_threads::judge;
use abt_scenario::{Scenario, read};
use std::alloc::Global;
use std::process::Abort;
use std::sync::Wait;
use std::test::Fail;
use std::thread::Threads;

/// Three sources whose paths cross on two ports (scenarios/threads_crossing.toml). None listens for long, since an answer that was lost
/// never comes.
const CROSSING_BRIEFLY: &str = "ports = [512000, 512000]\n\
[[connection]]\nvpi = 1\nvci = 100\npath = [0, 1]\ndelay = 1000\ntau = 200\n\
script = [\"start 0\", \"ask 5120\", \"listen 2000\", \"emit 1000000000000 0\", \"ask 5258\", \"listen 2000\"]\n\
[[connection]]\nvpi = 1\nvci = 101\npath = [1, 0]\ndelay = 1000\ntau = 200\n\
script = [\"start 0\", \"ask 5258\", \"listen 2000\", \"emit 1000000000000 200\", \"crash\", \"start 1000000000001\", \"ask 5120\"]\n\
[[connection]]\nvpi = 1\nvci = 102\npath = [0]\ndelay = 0\ntau = 0\n\
script = [\"start 0\", \"ask 5120\", \"again\", \"listen 2000\", \"emit 1000000000000 lost\"]\n";

// Whether a run by this plan is woven into events that are safe.
fn is_safe<T: Threads + Wait + Sync>(
    rt: &T,
    alloc: Global,
    scenario: &Scenario,
    plan: ThreadPlan,
) -> Option<bool> {
    let net = &scenario.net;
    let scripts = scenario.scripts.as_slice();
    let operations = scenario.operator.as_slice();
    let gathered = run_threads(rt, alloc, net, scripts, operations, plan, &OpenGate).ok()?;
    let (ports, conns) = (net.capacities().len(), net.conns().len());
    if gathered.journals.ports.len() != ports || gathered.sources.len() != conns {
        return None;
    }
    let judged = judge(alloc, net, &gathered).ok()?;
    Some(judged.trace.safe)
}

// Demands that all runs with so many link workers are safe, whatever share of the parcels is lost or served twice.
fn are_safe<T: Threads + Wait + Sync + Abort>(
    rt: &T,
    alloc: Global,
    workers: u16,
) -> Result<(), Fail> {
    let scenario = read(alloc, CROSSING_BRIEFLY).map_err(|_| Fail::from("no scenario"))?;
    for drop_every in [0, 1, 2, 3] {
        for repeat_every in [0, 1, 2, 5] {
            let plan = ThreadPlan {
                workers,
                drop_every,
                repeat_every,
            };
            let safe = is_safe(rt, alloc, &scenario, plan);
            assert!(rt; safe == Some(true), "{plan:?}");
        }
    }
    Ok(())
}

#[test]
fn one_link_worker_loses_and_repeats(rt: HostRuntime) -> Result<(), Fail> {
    are_safe(&rt, rt.alloc(), 1)
}

#[test]
fn four_link_workers_lose_and_repeat(rt: HostRuntime) -> Result<(), Fail> {
    are_safe(&rt, rt.alloc(), 4)
}

#[test]
fn sixteen_link_workers_lose_and_repeat(rt: HostRuntime) -> Result<(), Fail> {
    are_safe(&rt, rt.alloc(), 16)
}

#[test]
fn sixty_four_link_workers_lose_and_repeat(rt: HostRuntime) -> Result<(), Fail> {
    are_safe(&rt, rt.alloc(), 64)
}
