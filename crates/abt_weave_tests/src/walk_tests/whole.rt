//! Journals that events project to.
use super::books::{count, project};
use super::judge::{are_woven, woven};
use abt_walk::drawn::generated;
use abt_walk::nets::{crossing, lone, shared};
use abt_world::{Event, Net, Outcome};
use std::alloc::Global;
use std::process::Abort;
use std::test::Fail;

/// How many lists of events there are of a net.
const LISTS: u64 = 1000;

/// The events of a list.
const EVENTS: u64 = 200;

fn is_enabled(outcome: &Outcome) -> bool {
    !matches!(*outcome, Outcome::NotEnabled(_))
}

fn count_capacities(events: &[Event]) -> u64 {
    let mut count: u64 = 0;
    for event in events {
        count = count.saturating_add(u64::from(matches!(event, Event::Capacity { .. })));
    }
    count
}

// Demands that the journals of lists from this seed on are woven into events that are just these journals.
fn are_all_woven(rt: &impl Abort, alloc: Global, net: &Net, first: u64) -> Result<(), Fail> {
    let mut enabled: u64 = 0;
    let mut entries: usize = 0;
    let mut capacities: u64 = 0;
    for list in 0..LISTS {
        let seed = first.saturating_add(list);
        let walked = generated(alloc, net, seed, EVENTS)?;
        for outcome in &walked.outcomes {
            enabled = enabled.saturating_add(u64::from(is_enabled(outcome)));
        }
        let books = project(alloc, net, walked.events.as_slice())?;
        entries = entries.saturating_add(count(&books));
        match woven(alloc, net, &books)? {
            Ok(events) => {
                are_woven(rt, alloc, net, &books, events.as_slice())?;
                capacities = capacities.saturating_add(count_capacities(events.as_slice()));
            }
            Err(fault) => assert!(rt; false, "seed {seed}: {fault:?} {books:?}"),
        }
    }
    let events = LISTS.saturating_mul(EVENTS);
    assert!(rt; enabled.saturating_mul(2) > events, "{enabled}");
    assert!(rt; entries > 0);
    assert!(rt; capacities.saturating_mul(2) > LISTS, "{capacities}");
    Ok(())
}

#[test]
fn journals_of_one_port_are_woven(rt: HostRuntime) -> Result<(), Fail> {
    are_all_woven(&rt, rt.alloc(), &lone(rt.alloc())?, 1)
}

#[test]
fn journals_of_a_shared_port_are_woven(rt: HostRuntime) -> Result<(), Fail> {
    are_all_woven(&rt, rt.alloc(), &shared(rt.alloc())?, 1001)
}

#[test]
fn journals_of_crossing_paths_are_woven(rt: HostRuntime) -> Result<(), Fail> {
    are_all_woven(&rt, rt.alloc(), &crossing(rt.alloc())?, 2001)
}
