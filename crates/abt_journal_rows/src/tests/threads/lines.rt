use super::{ALL, CROSSING, expect, on_one_port};
use std::alloc::Global;
use std::process::Abort;
use std::sync::Wait;
use std::test::Fail;
use std::thread::Threads;

/// An operator that gives port 0 more and then less, and wants to take all of port 1 away.
const OPERATOR: &str =
    "operator = [\"capacity 0 1024000\", \"capacity 1 0\", \"capacity 0 512000\"]\n";

/// Runs the crossing sources so many times.
fn crowd<T: Threads + Wait + Sync + Abort>(rt: &T, alloc: Global, workers: u16, runs: u32) {
    for _run in 0..runs {
        expect(rt, alloc, workers, CROSSING.as_bytes(), ALL, "");
    }
}

#[test]
fn crossing_sources_are_woven_with_one_link_worker(rt: HostRuntime) {
    crowd(&rt, rt.alloc(), 1, 10)
}

#[test]
fn crossing_sources_are_woven_with_four_link_workers(rt: HostRuntime) {
    crowd(&rt, rt.alloc(), 4, 10)
}

#[test]
fn crossing_sources_are_woven_with_64_link_workers(rt: HostRuntime) {
    crowd(&rt, rt.alloc(), 64, 5)
}

/// Runs the crossing sources beside an operator so many times.
fn crowd_beside<T: Threads + Wait + Sync + Abort>(
    rt: &T,
    alloc: Global,
    workers: u16,
    runs: u32,
) -> Result<(), Fail> {
    let mut text = String::from_str(alloc, OPERATOR)?;
    text.push_str(CROSSING)?;
    for _run in 0..runs {
        expect(rt, alloc, workers, text.as_bytes(), ALL, "");
    }
    Ok(())
}

#[test]
fn an_operator_beside_one_link_worker_is_woven(rt: HostRuntime) -> Result<(), Fail> {
    crowd_beside(&rt, rt.alloc(), 1, 10)
}

#[test]
fn an_operator_beside_two_link_workers_is_woven(rt: HostRuntime) -> Result<(), Fail> {
    crowd_beside(&rt, rt.alloc(), 2, 10)
}

#[test]
fn an_operator_beside_16_link_workers_is_woven(rt: HostRuntime) -> Result<(), Fail> {
    crowd_beside(&rt, rt.alloc(), 16, 10)
}

#[test]
fn an_operator_beside_64_link_workers_is_woven(rt: HostRuntime) -> Result<(), Fail> {
    crowd_beside(&rt, rt.alloc(), 64, 5)
}

#[test]
fn a_net_without_ports_has_a_run(rt: HostRuntime) {
    let scenario = "ports = []".as_bytes();
    expect(&rt, rt.alloc(), 1, scenario, ALL, "");
    expect(&rt, rt.alloc(), 64, scenario, ALL, "")
}

#[test]
fn events_of_a_scenario_say_nothing_here(rt: HostRuntime) {
    let scenario = "ports = [512000]\nevents = [\"start 0 0\", \"crash 5\"]\n".as_bytes();
    expect(&rt, rt.alloc(), 2, scenario, ALL, "")
}

#[test]
fn a_jitter_may_be_the_tau(rt: HostRuntime) -> Result<(), Fail> {
    let alloc = rt.alloc();
    let scenario = on_one_port(alloc, "script = [\"emit 0 200\"]\n")?;
    expect(&rt, alloc, 4, scenario.as_bytes(), ALL, "");
    Ok(())
}
