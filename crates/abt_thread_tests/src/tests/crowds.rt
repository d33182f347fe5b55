//! Three sources whose paths cross, with few and with many link workers. Which requests are granted depends on the order in which
//! threads come; that the run is gathered doesn't.
use super::crossing::{crossed, crossing};
use super::fixture::entries;
use abt_model::{Event, Outcome, SourceEntry};
use std::alloc::Global;
use std::process::Abort;
use std::sync::Wait;
use std::test::*;
use std::thread::Threads;

// Runs the net with so many link workers, so many times.
fn crowd<R: Threads + Wait + Sync + Abort>(
    rt: &R,
    alloc: Global,
    workers: u16,
    runs: u32,
) -> Result<(), Fail> {
    let net = crossing(alloc)?;
    let started = SourceEntry::Did(Event::Start { conn: 2, now: 0 }, Outcome::Started);
    for _run in 0..runs {
        let run = crossed(rt, alloc, &net, &[], workers)?;
        assert_eq!(rt; run.sources.len(), 3);
        assert!(rt; entries(&run, 2).first() == Some(&started));
    }
    Ok(())
}

#[test]
fn crossing_paths_with_one_link_worker(rt: HostRuntime) -> Result<(), Fail> {
    crowd(&rt, rt.alloc(), 1, 20)
}

#[test]
fn crossing_paths_with_two_link_workers(rt: HostRuntime) -> Result<(), Fail> {
    crowd(&rt, rt.alloc(), 2, 20)
}

#[test]
fn crossing_paths_with_four_link_workers(rt: HostRuntime) -> Result<(), Fail> {
    crowd(&rt, rt.alloc(), 4, 20)
}

#[test]
fn crossing_paths_with_sixteen_link_workers(rt: HostRuntime) -> Result<(), Fail> {
    crowd(&rt, rt.alloc(), 16, 20)
}

#[test]
fn crossing_paths_with_64_link_workers(rt: HostRuntime) -> Result<(), Fail> {
    crowd(&rt, rt.alloc(), 64, 10)
}
