//! Lists of events, answered by a slow walk of the definitions and by the code. The walk shares nothing with the code but
//! the types of what it is given and answers.
mod answers;
mod capped;
mod crowd;
mod failing;
mod kept;
mod lists;
mod logs;
mod stories;

use super::{same, same_at, same_items};
use abt_rate::Rate;
use abt_walk::drawn::Walked;
use abt_walk::walk::{Standing, number};
use abt_world::{Trace, World};
use std::process::Abort;

/// Demands that a run answered what the walk did, and ended where it did.
fn agrees(rt: &impl Abort, trace: &Trace, walked: &Walked) {
    same(rt, &trace.outcomes.len(), &walked.outcomes.len());
    let answers = walked.outcomes.iter().zip(&walked.events);
    for (outcome, (answer, event)) in trace.outcomes.as_slice().iter().zip(answers) {
        same_at(rt, &outcome, &answer, event);
    }
    ends_as(rt, trace, &walked.end);
}

// Demands that a run ended where a walk did.
fn ends_as(rt: &impl Abort, trace: &Trace, end: &Standing) {
    same_items(rt, trace.rates.as_slice(), end.rates.as_slice());
    same_items(rt, trace.totals.as_slice(), end.totals.as_slice());
    same_items(rt, trace.capacities.as_slice(), end.capacities.as_slice());
    same(rt, &trace.safe, &end.safe);
    same(rt, &trace.held.len(), &end.held.len());
    for (path, held) in trace.held.as_slice().iter().zip(&end.held) {
        same_items(rt, path.as_slice(), held.as_slice());
    }
}

/// Demands that a world stands as a walk does, and that there is no further connection, hop or port.
fn stands(rt: &impl Abort, world: &World<'_>, end: &Standing) {
    for (conn, rate) in end.rates.iter().enumerate() {
        same(rt, &world.rate(number(conn)), &Some(*rate));
    }
    for (conn, held) in end.held.iter().enumerate() {
        holds(rt, world, number(conn), held);
    }
    for (port, total) in end.totals.iter().enumerate() {
        same(rt, &world.total(number(port)), &Some(*total));
    }
    for (port, capacity) in end.capacities.iter().enumerate() {
        same(rt, &world.capacity(number(port)), &Some(*capacity));
    }
    same(rt, &world.rate(number(end.rates.len())), &None);
    same(rt, &world.held(number(end.held.len()), 1), &None);
    same(rt, &world.total(number(end.totals.len())), &None);
    same(rt, &world.capacity(number(end.capacities.len())), &None);
    same(rt, &world.safe(), &end.safe);
}

fn holds(rt: &impl Abort, world: &World<'_>, conn: u16, held: &[Rate]) {
    same(rt, &world.held(conn, 0), &None);
    let mut hop: u16 = 1;
    for rate in held {
        same(rt, &world.held(conn, hop), &Some(*rate));
        hop = hop.saturating_add(1);
    }
    same(rt, &world.held(conn, hop), &None);
}
