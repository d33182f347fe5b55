//! How often generated lists come to the end of a stride, to a greater need, and to a restart from a shorter spacing.
use super::lists::EVENTS;
use abt_facts::Fact;
use abt_keep::Record;
use abt_node::Onward;
use abt_walk::drawn::{Walked, generated};
use abt_walk::nets::{lone, meshed, shared};
use abt_walk::walk::Walk;
use abt_world::Net;
use std::alloc::{AllocError, Global};
use std::process::Abort;
use std::test::Fail;

/// What lists came to.
#[derive(Clone, Copy, Debug)]
struct Count {
    /// Writes of the next stride.
    strides: u64,
    /// Writes of a greater spacing.
    needs: u64,
    /// Starts after a crash.
    restarts: u64,
    /// Starts that wait for less than a second.
    shorter: u64,
}

// Counts the facts of a connection, the oldest first.
fn counted(mut count: Count, facts: &[Fact]) -> Count {
    let mut old = Record::old(0);
    let mut crashed = false;
    // Whether the source has written since its start: else the next 64 numbers are those after a restart.
    let mut wrote = false;
    for fact in facts {
        match *fact {
            Fact::Crashed => crashed = true,
            Fact::Started { kept, .. } => {
                wrote = false;
                if crashed {
                    count.restarts = count.restarts.saturating_add(1);
                }
                if kept.spacing() < 1_000_000_000_000 {
                    count.shorter = count.shorter.saturating_add(1);
                }
            }
            Fact::Stored { kept } => {
                if wrote && kept.number() == old.number().saturating_add(64) {
                    count.strides = count.strides.saturating_add(1);
                }
                if kept.spacing() > old.spacing() {
                    count.needs = count.needs.saturating_add(1);
                }
                old = kept;
                wrote = true;
            }
            _ => (),
        }
    }
    count
}

// Counts those of all connections after a list.
fn after(alloc: Global, net: &Net, walked: &Walked, count: Count) -> Result<Count, AllocError> {
    // Names a type within an outcome, without which the checker can't follow one round the loop.
    let _ = Onward::Pass;
    let mut walk = Walk::new(alloc, net);
    for event in &walked.events {
        walk.step(alloc, event)?;
    }
    let mut count = count;
    let mut conn: u16 = 0;
    for _ in net.conns() {
        count = counted(count, &walk.facts_of(alloc, conn)?);
        conn = conn.saturating_add(1);
    }
    Ok(count)
}

// Counts the writes in the lists of a net.
fn after_all(alloc: Global, net: &Net, count: Count) -> Result<Count, AllocError> {
    let mut count = count;
    for seed in 1..=30 {
        let walked = generated(alloc, net, seed, EVENTS)?;
        count = after(alloc, net, &walked, count)?;
    }
    Ok(count)
}

#[test]
fn strides_end_and_needs_rise_in_generated_lists(rt: HostRuntime) -> Result<(), Fail> {
    let alloc = rt.alloc();
    let count = Count {
        strides: 0,
        needs: 0,
        restarts: 0,
        shorter: 0,
    };
    let count = after_all(alloc, &lone(alloc)?, count)?;
    let count = after_all(alloc, &shared(alloc)?, count)?;
    let count = after_all(alloc, &meshed(alloc)?, count)?;
    is_often(&rt, count.strides, 9, &count);
    is_often(&rt, count.needs, 9, &count);
    is_often(&rt, count.restarts, 90, &count);
    is_often(&rt, count.shorter, 1, &count);
    Ok(())
}

fn is_often(rt: &impl Abort, found: u64, least: u64, count: &Count) {
    assert!(rt; found >= least, "{count:?}");
}
