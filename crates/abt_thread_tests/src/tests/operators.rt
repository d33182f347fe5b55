//! Runs beside an operator. When its steps come among those of the others depends on the order of the threads; what they are doesn't.
use super::crossing::{crossed, crossing};
use super::fixture::{START, faithful, one_port, port, ran_beside};
use super::reserved::stays_within;
use abt_journal::{Entry, PortInput, PortReply};
use abt_links::{Gathered, OpenGate, RunFault};
use abt_model::{Command, Operation};
use abt_node::CapacityFault;
use std::alloc::Global;
use std::process::Abort;
use std::sync::Wait;
use std::test::*;
use std::thread::Threads;

/// Why a run of the net with one port has no result.
#[derive(Clone, Copy, Debug, PartialEq)]
enum Lack {
    Scripts,
    Operator,
    Other,
    Nothing,
}

// What a run of these scripts beside an operator lacks.
fn lacks<R: Threads + Wait + Sync>(
    rt: &R,
    alloc: Global,
    all: &[&[Command]],
    operations: &[Operation],
) -> Result<Lack, Fail> {
    let net = one_port(alloc)?;
    Ok(
        match ran_beside(rt, alloc, &net, all, operations, faithful(1), &OpenGate) {
            Ok(_) => Lack::Nothing,
            Err(RunFault::Scripts) => Lack::Scripts,
            Err(RunFault::Operator) => Lack::Operator,
            Err(_) => Lack::Other,
        },
    )
}

#[test]
fn an_operator_names_ports_of_the_net(rt: HostRuntime) -> Result<(), Fail> {
    for (port, lack) in [(0, Lack::Nothing), (1, Lack::Operator)] {
        assert_eq!(rt;
            lacks(&rt, rt.alloc(), &[&[START]], &[(0, 5), (port, 5)])?,
            lack
        );
    }
    Ok(())
}

#[test]
fn scripts_are_looked_at_before_the_operator(rt: HostRuntime) -> Result<(), Fail> {
    assert_eq!(rt; lacks(&rt, rt.alloc(), &[], &[(1, 5)])?, Lack::Scripts);
    Ok(())
}

// The reply to the operation at this place among the entries of a caller.
fn reply_at(entries: &[Entry], caller: u16, place: usize) -> Option<PortReply> {
    let entry = entries
        .iter()
        .filter(|entry| entry.caller == caller)
        .nth(place)?;
    match entry.input {
        PortInput::Capacity(_) => Some(entry.reply),
        _ => None,
    }
}

// Demands the replies to the three operations of the caller 2, and no fourth.
fn sets_and_refuses(rt: &impl Abort, run: &Gathered) {
    let entries = port(run, 0);
    let refused = PortReply::Capped(Err(CapacityFault::AboveLimit));
    assert!(rt; reply_at(entries, 2, 0) == Some(PortReply::Capped(Ok(()))));
    assert!(rt; reply_at(entries, 2, 1) == Some(refused));
    assert!(rt; reply_at(entries, 2, 2) == Some(PortReply::Capped(Ok(()))));
    assert!(rt; reply_at(entries, 2, 3).is_none());
}

// The greatest capacity is 2^60 units. The operator goes on after a refusal.
#[test]
fn a_port_sets_a_capacity_or_refuses_it(rt: HostRuntime) -> Result<(), Fail> {
    let net = one_port(rt.alloc())?;
    let operations = [(0, 1024000), (0, 1152921504606846977), (0, 5)];
    let run = ran_beside(
        &rt,
        rt.alloc(),
        &net,
        &[&[START]],
        &operations,
        faithful(1),
        &OpenGate,
    )?;
    sets_and_refuses(&rt, &run);
    Ok(())
}

// The capacities that the operator, who is caller so much, gave a port, in their order.
fn given_are(entries: &[Entry], caller: u16, capacities: &[u64]) -> bool {
    let mut given = entries
        .iter()
        .filter(|entry| entry.caller == caller)
        .map(|entry| entry.input);
    for capacity in capacities {
        if given.next() != Some(PortInput::Capacity(*capacity)) {
            return false;
        }
    }
    given.next().is_none()
}

// The crossing sources beside an operator who gives port 0 more and then less, and wants to take all of port 1 away. Each run is gathered,
// the operator is the caller behind three sources and the link workers, and no port ever holds more than its capacity in force.
fn crowd<R: Threads + Wait + Sync + Abort>(
    rt: &R,
    alloc: Global,
    workers: u16,
    runs: u32,
) -> Result<(), Fail> {
    let net = crossing(alloc)?;
    let operations = [(0, 1024000), (1, 0), (0, 512000)];
    let caller = workers.saturating_add(3);
    for _run in 0..runs {
        let run = crossed(rt, alloc, &net, &operations, workers)?;
        assert!(rt; given_are(port(&run, 0), caller, &[1024000, 512000]));
        assert!(rt; given_are(port(&run, 1), caller, &[0]));
        stays_within(rt, alloc, 512000, port(&run, 0))?;
        stays_within(rt, alloc, 512000, port(&run, 1))?;
    }
    Ok(())
}

#[test]
fn an_operator_beside_one_link_worker(rt: HostRuntime) -> Result<(), Fail> {
    crowd(&rt, rt.alloc(), 1, 300)
}

#[test]
fn an_operator_beside_two_link_workers(rt: HostRuntime) -> Result<(), Fail> {
    crowd(&rt, rt.alloc(), 2, 300)
}

#[test]
fn an_operator_beside_sixteen_link_workers(rt: HostRuntime) -> Result<(), Fail> {
    crowd(&rt, rt.alloc(), 16, 250)
}

#[test]
fn an_operator_beside_64_link_workers(rt: HostRuntime) -> Result<(), Fail> {
    crowd(&rt, rt.alloc(), 64, 150)
}
