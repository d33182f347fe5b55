//! Logs, against lists of facts that are searched.
use super::lists::EVENTS;
use super::same;
use abt_facts::Fact;
use abt_gcra::Verdict;
use abt_index::{FactIndex, Lookups};
use abt_walk::drawn::generated;
use abt_walk::nets::{lone, meshed, shared};
use abt_walk::walk::{Walk, number};
use abt_walk::{cells, words};
use abt_world::Net;
use std::alloc::Global;
use std::process::Abort;
use std::test::Fail;

/// One hop more than a path can have.
const HOPS: u16 = 17;

fn conforms(fact: &Fact) -> bool {
    match *fact {
        Fact::Arrived { verdict, .. } => verdict == Verdict::Conforming,
        _ => true,
    }
}

// Demands that a log tells of a hop what its facts do.
fn agrees_on_hop(rt: &impl Abort, log: &FactIndex, facts: &[Fact], seq: u32, hop: u16) {
    let looks = &mut Lookups::new();
    let passed = facts.contains(&Fact::Passed { seq, hop });
    same(rt, &log.was_passed(seq, hop, looks), &passed);
    let shut = facts.contains(&Fact::Shut { seq, hop });
    same(rt, &log.was_shut(seq, hop, looks), &shut);
    let back = facts.contains(&Fact::Back { seq, hop });
    same(rt, &log.was_back(seq, hop, looks), &back);
    same(rt, &looks.count(), &3);
}

// Demands that a log tells of a number what its facts do.
fn agrees_on_number(rt: &impl Abort, log: &FactIndex, facts: &[Fact], seq: u32) {
    let looks = &mut Lookups::new();
    let terms = words::asked(facts, seq);
    same(
        rt,
        &log.asked(seq, looks),
        &terms.map(|terms| (terms.floor, terms.ask)),
    );
    same(
        rt,
        &log.was_turned(seq, looks),
        &facts.contains(&Fact::Turned { seq }),
    );
    same(rt, &looks.count(), &2);
    for hop in 0..=HOPS {
        agrees_on_hop(rt, log, facts, seq, hop);
    }
}

// Demands that a log tells what its facts do.
fn agrees(rt: &impl Abort, log: &FactIndex, facts: &[Fact]) {
    let looks = &mut Lookups::new();
    for seq in 0..=words::last(facts).saturating_add(1) {
        agrees_on_number(rt, log, facts, seq);
    }
    let fence = cells::fence(facts);
    for cell in 0..=words::emitted(facts).saturating_add(1) {
        let moment = cells::emission(facts, cell).unwrap_or(0);
        same(rt, &log.emission(cell, looks), &moment);
        let fenced = log.is_behind_last(cell) || cell < log.delivered_mark();
        same(rt, &fenced, &(cell < fence));
    }
    same(rt, &log.last_arrival(), &cells::last_arrival(facts));
    same(
        rt,
        &log.all_conform(),
        &facts.iter().all(|fact| conforms(fact)),
    );
}

// Notes the facts of each connection of a list, and demands after each tenth that the log tells what they do.
fn notes(rt: &impl Abort, alloc: Global, net: &Net, seed: u64) -> Result<(), Fail> {
    let walked = generated(alloc, net, seed, EVENTS)?;
    let mut walk = Walk::new(alloc, net);
    for event in &walked.events {
        walk.step(alloc, event)?;
    }
    for conn in 0..number(net.conns().len()) {
        notes_all(rt, alloc, &walk.facts_of(alloc, conn)?)?;
    }
    Ok(())
}

// Notes these facts, the oldest first, and demands after each tenth that the log tells what they do.
fn notes_all(rt: &impl Abort, alloc: Global, facts: &[Fact]) -> Result<(), Fail> {
    let mut log = FactIndex::new(alloc);
    for (place, fact) in facts.iter().enumerate() {
        log.reserve()?;
        log.note(*fact, &mut Lookups::new());
        if place % 10 == 9 {
            agrees(rt, &log, facts.split_at(place + 1).0);
        }
    }
    agrees(rt, &log, facts);
    Ok(())
}

// Notes the facts of generated lists of a net.
fn notes_of_all(rt: &impl Abort, alloc: Global, net: &Net) -> Result<(), Fail> {
    for seed in 7001..=7005 {
        notes(rt, alloc, net, seed)?;
    }
    Ok(())
}

#[test]
fn a_log_tells_what_a_search_of_its_facts_does(rt: HostRuntime) -> Result<(), Fail> {
    let alloc = rt.alloc();
    notes_of_all(&rt, alloc, &lone(alloc)?)?;
    notes_of_all(&rt, alloc, &shared(alloc)?)?;
    notes_of_all(&rt, alloc, &meshed(alloc)?)
}
