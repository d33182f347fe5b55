//! How often ports of generated lists are given capacities at the edges of what is held there, and how often these decide.
use super::lists::EVENTS;
use abt_node::{CapacityFault, Onward};
use abt_walk::drawn::{Walked, generated};
use abt_walk::nets::{lone, meshed, shared, spare};
use abt_walk::walk::Walk;
use abt_world::{Event, Net, Outcome};
use std::alloc::{AllocError, Global};
use std::process::Abort;
use std::test::Fail;

/// What lists came to.
#[derive(Clone, Copy, Debug)]
struct Count {
    /// Capacities one unit below what is held.
    below: u64,
    /// Capacities of just what is held.
    at: u64,
    /// Capacities one unit above what is held.
    above: u64,
    /// Capacities of ports that no path goes through.
    idle: u64,
    /// Requests that are refused where they would fit the capacity that the net gives.
    tighter: u64,
    /// Requests that pass where they wouldn't fit it.
    wider: u64,
}

fn more(count: &mut u64) {
    *count = count.saturating_add(1);
}

// Counts a capacity of a port that holds so much.
fn given(count: &mut Count, capacity: u64, held: u64, outcome: &Outcome) {
    if held == 0 {
        return;
    }
    match outcome {
        Outcome::CapacityRefused(CapacityFault::BelowSum) if capacity.saturating_add(1) == held => {
            more(&mut count.below)
        }
        Outcome::CapacitySet if capacity == held => more(&mut count.at),
        Outcome::CapacitySet if capacity == held.saturating_add(1) => more(&mut count.above),
        _ => (),
    }
}

// Counts a request at a port to which the net gives a capacity, by what the port holds before it and after it.
fn asked(count: &mut Count, first: u64, before: u64, after: u64, outcome: &Outcome) {
    match outcome {
        Outcome::Requested(Onward::Refuse(no))
            if before.saturating_add(no.ask().units()) <= first => { more(&mut count.tighter) }
        Outcome::Requested(Onward::Pass) if after > first && after > before => {
            more(&mut count.wider)
        }
        _ => (),
    }
}

// Whether no path goes through a port of the net.
fn is_idle(net: &Net, port: u16) -> bool {
    let mut idle = usize::from(port) < net.capacities().len();
    for conn in net.conns() {
        for hop in conn.path.as_slice() {
            idle = idle && *hop != port;
        }
    }
    idle
}

// The port to which an event comes, if it is a request or a capacity.
fn port_of(net: &Net, event: &Event) -> Option<u16> {
    match *event {
        Event::Capacity { port, .. } => Some(port),
        Event::Request { conn, hop, .. } => {
            let conn = net.conns().get(usize::from(conn))?;
            let place = usize::from(hop).checked_sub(1)?;
            conn.path.as_slice().get(place).copied()
        }
        _ => None,
    }
}

// Counts those of a list.
fn after(alloc: Global, net: &Net, walked: &Walked, count: &mut Count) -> Result<(), AllocError> {
    // Names a type within an outcome, without which the checker can't follow one round the loop.
    let _ = Onward::Pass;
    let mut walk = Walk::new(alloc, net);
    for event in &walked.events {
        let port = port_of(net, event).unwrap_or(u16::MAX);
        let before = walk.total(alloc, port)?;
        let outcome = walk.step(alloc, event)?;
        let first = net.capacities().get(usize::from(port)).copied();
        match *event {
            Event::Capacity { .. } if is_idle(net, port) => more(&mut count.idle),
            Event::Capacity { capacity, .. } => given(count, capacity, before, &outcome),
            _ => {
                let end = walk.total(alloc, port)?;
                asked(count, first.unwrap_or(0), before, end, &outcome)
            }
        }
    }
    Ok(())
}

// Counts those of the lists of a net.
fn after_all(alloc: Global, net: &Net, count: &mut Count) -> Result<(), AllocError> {
    for seed in 1..=20 {
        let walked = generated(alloc, net, seed, EVENTS)?;
        after(alloc, net, &walked, count)?;
    }
    Ok(())
}

#[test]
fn capacities_at_the_edges_decide_in_generated_lists(rt: HostRuntime) -> Result<(), Fail> {
    let alloc = rt.alloc();
    let mut count = Count {
        below: 0,
        at: 0,
        above: 0,
        idle: 0,
        tighter: 0,
        wider: 0,
    };
    after_all(alloc, &lone(alloc)?, &mut count)?;
    after_all(alloc, &shared(alloc)?, &mut count)?;
    after_all(alloc, &meshed(alloc)?, &mut count)?;
    after_all(alloc, &spare(alloc)?, &mut count)?;
    is_often(&rt, count.below, 9, &count);
    is_often(&rt, count.at, 9, &count);
    is_often(&rt, count.above, 9, &count);
    is_often(&rt, count.idle, 9, &count);
    is_often(&rt, count.tighter, 9, &count);
    is_often(&rt, count.wider, 3, &count);
    Ok(())
}

fn is_often(rt: &impl Abort, found: u64, least: u64, count: &Count) {
    assert!(rt; found >= least, "{count:?}");
}
