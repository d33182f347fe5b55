//! Generated lists of 200 events.
use super::{agrees, same, same_at, stands};
use abt_walk::drawn::{Walked, generated};
use abt_walk::nets::{lone, meshed, shared, spare};
use abt_walk::walk::Walk;
use abt_world::{Event, Net, Outcome, World, run};
use std::alloc::Global;
use std::process::Abort;
use std::test::Fail;

/// The events of a list.
pub const EVENTS: u64 = 200;

/// The lists of a test, as many as it can go through in time where it is tried without proof.
const LISTS: u64 = 167;

/// Some events, and how many of them were enabled.
#[derive(Clone, Copy, Debug)]
struct Count {
    events: u64,
    enabled: u64,
}

fn counted(count: Count, outcome: &Outcome) -> Count {
    let enabled = match outcome {
        Outcome::NotEnabled(_) => 0,
        _ => 1,
    };
    Count {
        events: count.events.saturating_add(1),
        enabled: count.enabled.saturating_add(enabled),
    }
}

// Carries a world through the events of a list, and demands that each answers what the walk did.
fn steps(rt: &impl Abort, alloc: Global, net: &Net, walked: &Walked) -> Result<(), Fail> {
    let mut world = World::new(alloc, net)?;
    for (event, answer) in walked.events.iter().zip(&walked.outcomes) {
        same_at(rt, &world.step(event)?, answer, event);
    }
    stands(rt, &world, &walked.end);
    Ok(())
}

// Runs lists from this seed on, and demands that most of their events were enabled.
fn follow(rt: &impl Abort, alloc: Global, net: &Net, first: u64) -> Result<(), Fail> {
    let mut count = Count {
        events: 0,
        enabled: 0,
    };
    for number in 0..LISTS {
        let walked = generated(alloc, net, first.saturating_add(number), EVENTS)?;
        let trace = run(alloc, net, &walked.events)?;
        agrees(rt, &trace, &walked);
        steps(rt, alloc, net, &walked)?;
        assert!(rt; walked.end.safe);
        for outcome in &walked.outcomes {
            count = counted(count, outcome);
        }
    }
    same(rt, &count.events, &LISTS.saturating_mul(EVENTS));
    assert!(rt; count.enabled.saturating_mul(2) > count.events, "{count:?}");
    Ok(())
}

#[test]
fn runs_over_one_port_answer_what_a_slow_walk_does(rt: HostRuntime) -> Result<(), Fail> {
    follow(&rt, rt.alloc(), &lone(rt.alloc())?, 1)
}

#[test]
fn more_runs_over_one_port_answer_what_a_slow_walk_does(rt: HostRuntime) -> Result<(), Fail> {
    follow(&rt, rt.alloc(), &lone(rt.alloc())?, 1001)
}

#[test]
fn runs_over_a_shared_port_answer_what_a_slow_walk_does(rt: HostRuntime) -> Result<(), Fail> {
    follow(&rt, rt.alloc(), &shared(rt.alloc())?, 2001)
}

#[test]
fn more_runs_over_a_shared_port_answer_what_a_slow_walk_does(rt: HostRuntime) -> Result<(), Fail> {
    follow(&rt, rt.alloc(), &shared(rt.alloc())?, 3001)
}

#[test]
fn runs_of_five_connections_answer_what_a_slow_walk_does(rt: HostRuntime) -> Result<(), Fail> {
    follow(&rt, rt.alloc(), &meshed(rt.alloc())?, 4001)
}

#[test]
fn more_runs_of_five_connections_answer_what_a_slow_walk_does(rt: HostRuntime) -> Result<(), Fail> {
    follow(&rt, rt.alloc(), &meshed(rt.alloc())?, 5001)
}

#[test]
fn runs_beside_a_port_without_a_path_answer_what_a_slow_walk_does(
    rt: HostRuntime,
) -> Result<(), Fail> {
    follow(&rt, rt.alloc(), &spare(rt.alloc())?, 7001)
}

// Carries a world through a list, and looks at it after each event.
fn looks(rt: &impl Abort, alloc: Global, net: &Net, seed: u64) -> Result<(), Fail> {
    let walked = generated(alloc, net, seed, EVENTS)?;
    let mut walk = Walk::new(alloc, net);
    let mut world = World::new(alloc, net)?;
    stands(rt, &world, &walk.standing(alloc)?);
    for event in &walked.events {
        looks_after(rt, alloc, &mut walk, &mut world, event)?;
    }
    Ok(())
}

fn looks_after(
    rt: &impl Abort,
    alloc: Global,
    walk: &mut Walk<'_>,
    world: &mut World<'_>,
    event: &Event,
) -> Result<(), Fail> {
    let answer = walk.step(alloc, event)?;
    same_at(rt, &world.step(event)?, &answer, event);
    stands(rt, world, &walk.standing(alloc)?);
    Ok(())
}

// Looks so at lists of a net.
fn looks_at_all(rt: &impl Abort, alloc: Global, net: &Net) -> Result<(), Fail> {
    for seed in 6001..=6005 {
        looks(rt, alloc, net, seed)?;
    }
    Ok(())
}

#[test]
fn a_world_stands_after_each_event_as_a_slow_walk_does(rt: HostRuntime) -> Result<(), Fail> {
    let alloc = rt.alloc();
    looks_at_all(&rt, alloc, &lone(alloc)?)?;
    looks_at_all(&rt, alloc, &shared(alloc)?)?;
    looks_at_all(&rt, alloc, &meshed(alloc)?)?;
    looks_at_all(&rt, alloc, &spare(alloc)?)
}
