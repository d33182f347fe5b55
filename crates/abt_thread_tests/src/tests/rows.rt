//! What a run of a net with one port leaves, or why it has no result.
use super::fixture::{
    START, ask, entries, faithful, first_request, net, net_over, one_port, port, ran,
};
use abt_journal::{Entry, PortInput, PortReply};
use abt_links::{Gathered, RunFault, ThreadPlan};
use abt_model::{Command, Event, Outcome, SourceEntry};
use abt_node::Onward;
use std::alloc::Global;
use std::process::Abort;
use std::sync::Wait;
use std::test::*;
use std::thread::Threads;

/// Why a run of the net with one port has no result.
#[derive(Clone, Copy, Debug, PartialEq)]
enum Lack {
    Workers,
    Scripts,
    Other,
    Nothing,
}

// What a run of these scripts with so many link workers lacks.
fn lacks<R: Threads + Wait + Sync>(
    rt: &R,
    alloc: Global,
    all: &[&[Command]],
    workers: u16,
) -> Result<Lack, Fail> {
    let net = one_port(alloc)?;
    Ok(match ran(rt, alloc, &net, all, faithful(workers)) {
        Ok(_) => Lack::Nothing,
        Err(RunFault::Workers) => Lack::Workers,
        Err(RunFault::Scripts) => Lack::Scripts,
        Err(_) => Lack::Other,
    })
}

#[test]
fn a_connection_without_a_script_is_refused(rt: HostRuntime) -> Result<(), Fail> {
    assert_eq!(rt; lacks(&rt, rt.alloc(), &[], 1)?, Lack::Scripts);
    Ok(())
}

#[test]
fn a_script_without_a_connection_is_refused(rt: HostRuntime) -> Result<(), Fail> {
    assert_eq!(rt;
        lacks(&rt, rt.alloc(), &[&[START], &[START]], 1)?,
        Lack::Scripts
    );
    Ok(())
}

#[test]
fn there_are_one_to_64_link_workers(rt: HostRuntime) -> Result<(), Fail> {
    for (workers, lack) in [
        (0, Lack::Workers),
        (65, Lack::Workers),
        (1, Lack::Nothing),
        (64, Lack::Nothing),
    ] {
        assert_eq!(rt; lacks(&rt, rt.alloc(), &[&[START]], workers)?, lack);
    }
    Ok(())
}

#[test]
fn workers_are_looked_at_before_scripts(rt: HostRuntime) -> Result<(), Fail> {
    assert_eq!(rt; lacks(&rt, rt.alloc(), &[], 0)?, Lack::Workers);
    Ok(())
}

// A cell that leaves at 0 with a jitter.
fn emission(jitter: u64) -> Command {
    Command::Emit {
        now: 0,
        jitter: Some(jitter),
    }
}

#[test]
fn a_jitter_may_be_the_tau_and_no_more(rt: HostRuntime) -> Result<(), Fail> {
    for (jitter, lack) in [(201, Lack::Scripts), (200, Lack::Nothing)] {
        assert_eq!(rt; lacks(&rt, rt.alloc(), &[&[emission(jitter)]], 1)?, lack);
    }
    Ok(())
}

// Demands the entries of the source and of the port.
fn leaves(rt: &impl Abort, run: &Gathered, own: &[SourceEntry], steps: &[Entry]) {
    assert!(rt; entries(run, 0) == own);
    assert!(rt; port(run, 0) == steps);
}

#[test]
fn a_source_that_asks_nothing_leaves_no_entry_at_a_port(rt: HostRuntime) -> Result<(), Fail> {
    let net = one_port(rt.alloc())?;
    let script = [START, Command::Crash];
    let run = ran(&rt, rt.alloc(), &net, &[&script], faithful(1))?;
    let started = SourceEntry::Did(Event::Start { conn: 0, now: 0 }, Outcome::Started);
    let crashed = SourceEntry::Did(Event::Crash { conn: 0 }, Outcome::Crashed);
    leaves(&rt, &run, &[started, crashed], &[]);
    Ok(())
}

// Demands that the third entry of three of the source is that it sent its request.
fn sends_third(rt: &impl Abort, run: &Gathered) {
    assert_eq!(rt; entries(run, 0).len(), 3);
    assert!(rt; entries(run, 0).get(2) == Some(&SourceEntry::Sent { place: 0 }));
}

// The entry that a request for 400 cells per second leaves at a port without another one.
fn passed() -> Result<Entry, Fail> {
    Ok(Entry {
        place: 0,
        caller: 0,
        input: PortInput::Request(first_request(100, 0x5120)?),
        reply: PortReply::Requested(Onward::Pass),
    })
}

#[test]
fn what_is_asked_is_served_at_once_and_what_the_plan_says_is_lost(
    rt: HostRuntime,
) -> Result<(), Fail> {
    let net = one_port(rt.alloc())?;
    let plan = ThreadPlan {
        workers: 1,
        drop_every: 1,
        repeat_every: 0,
    };
    let run = ran(&rt, rt.alloc(), &net, &[&[START, ask(0x5120)]], plan)?;
    assert!(rt; port(&run, 0) == [passed()?].as_slice());
    sends_third(&rt, &run);
    Ok(())
}

#[test]
fn ports_of_different_capacities_are_gathered(rt: HostRuntime) -> Result<(), Fail> {
    let capacities = [512000u64, 1024000].to_vec(rt.alloc())?;
    let net = net_over(rt.alloc(), capacities, &[(&[0, 1], 1000, 200)]).ok_or("no net")?;
    let run = ran(&rt, rt.alloc(), &net, &[&[START, ask(0x5120)]], faithful(1))?;
    assert_eq!(rt; run.journals.ports.len(), 2);
    assert!(rt; !port(&run, 0).is_empty());
    Ok(())
}

#[test]
fn a_net_without_ports_has_an_empty_run(rt: HostRuntime) -> Result<(), Fail> {
    let net = net(rt.alloc(), 0, &[]).ok_or("no net")?;
    let run = ran(&rt, rt.alloc(), &net, &[], faithful(1))?;
    assert!(rt; run.journals.ports.is_empty() && run.sources.is_empty());
    Ok(())
}
